//! The order of the pairs, refusals at the limit on degrees, and the criteria.

ghost use Rattle.std.specs.Prelude.{◌≡◌, ◌<◌, length, IfOk};

use crate::{Pair, PairQueue, chain_by, coprime};
use rinv_mono::{DegreeFrom, Grevlex, Mono, MonoFault, MonoOrder};
use std::alloc::Global;
use std::test::Fail;

#[test]
fn takes_each_pair_once(rt: HostRuntime) -> Result<(), Fail> {
    let leads = [
        monomial(rt.alloc(), [1, 0, 0])?,
        monomial(rt.alloc(), [0, 1, 0])?,
        monomial(rt.alloc(), [0, 0, 1])?,
    ];
    let mut queue = PairQueue::new(&Grevlex, rt.alloc());
    queue.add_element(rt.alloc(), &leads, 0)?;
    assert!(rt; queue.take().is_none());
    queue.add_element(rt.alloc(), &leads, 1)?;
    queue.add_element(rt.alloc(), &leads, 2)?;
    for (first, second) in [(1, 2), (0, 2), (0, 1)] {
        let pair = Pair { first, second };
        let turned = Pair {
            first: second,
            second: first,
        };
        assert!(rt; !queue.taken(pair) && !queue.taken(turned));
        assert!(rt; queue.take() == Some(pair));
        assert!(rt; queue.taken(pair) && queue.taken(turned));
    }
    assert!(rt; queue.take().is_none());
    Ok(())
}

#[test]
fn finds_thirds(rt: HostRuntime) -> Result<(), Fail> {
    let leads = [
        monomial(rt.alloc(), [1, 1, 0])?,
        monomial(rt.alloc(), [0, 1, 1])?,
        monomial(rt.alloc(), [0, 1, 0])?,
    ];
    let mut queue = PairQueue::new(&Grevlex, rt.alloc());
    queue.add_element(rt.alloc(), &leads, 0)?;
    queue.add_element(rt.alloc(), &leads, 1)?;
    queue.add_element(rt.alloc(), &leads, 2)?;
    for (first, second, third) in [(1, 2, None), (0, 2, None), (0, 1, Some(2))] {
        let pair = Pair { first, second };
        assert!(rt; queue.take() == Some(pair));
        for hint in [0, 2, 7] {
            assert_eq!(rt; third_of(&queue, pair, hint), third);
        }
    }
    Ok(())
}

#[test]
fn refuses_at_the_limit(rt: HostRuntime) -> Result<(), Fail> {
    for (a, b, refusal) in [
        ([6000, 0, 0], [0, 6000, 0], Some((6000, 6000))),
        ([6000, 0, 0], [5000, 4001, 0], Some((6000, 9001))),
        ([6000, 0, 0], [5000, 4000, 0], None),
    ] {
        let a = monomial(rt.alloc(), a)?;
        let b = monomial(rt.alloc(), b)?;
        let leads = [a, b];
        let order = DegreeFrom::new(1);
        let mut queue = PairQueue::new(&order, rt.alloc());
        queue.add_element(rt.alloc(), &leads, 0)?;
        assert!(rt;
            refusal_of(queue.add_element(rt.alloc(), &leads, 1)) == refusal,
            "{refusal:?}"
        );
        assert!(rt; queue.take().is_none() == refusal.is_some());
    }
    Ok(())
}

#[test]
fn tells_criteria(rt: HostRuntime) -> Result<(), Fail> {
    for (first, second, by, apart, chain) in [
        ([1, 0, 0], [0, 1, 0], [1, 1, 0], true, true),
        ([1, 0, 0], [0, 1, 0], [0, 0, 1], true, false),
        ([2, 1, 0], [1, 0, 1], [1, 1, 1], false, true),
        ([2, 1, 0], [1, 0, 1], [1, 2, 0], false, false),
        ([0, 0, 0], [3, 0, 0], [3, 0, 0], true, true),
    ] {
        let first = monomial(rt.alloc(), first)?;
        let second = monomial(rt.alloc(), second)?;
        let by = monomial(rt.alloc(), by)?;
        assert!(rt; coprime(&first, &second) == apart);
        assert!(rt; chain_by(&first, &second, &by) == chain);
    }
    Ok(())
}

fn monomial(alloc: Global, exponents: [u32; 3]) -> Result<Mono, Fail>
    ensures { IfOk result (λ m. length m ≡ 3) }
{
    match Mono::from_exponents(alloc, &exponents)? {
        Some(monomial) => Ok(monomial),
        None => Err("too high a degree".into()),
    }
}

// The degrees that a refusal carries.
fn refusal_of(answer: Result<(), MonoFault>) -> Option<(u32, u32)> {
    match answer {
        Err(MonoFault::Degree { left, right }) => Some((left, right)),
        _ => None,
    }
}

// The third place for a pair that was taken.
fn third_of<O: MonoOrder>(queue: &PairQueue<'_, O>, pair: Pair, hint: u32) -> Option<u32> {
    if !queue.taken(pair) {
        return None;
    }
    queue.third(pair, hint)
}
