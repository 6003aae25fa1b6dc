//! A pool of four slots whose slots go from one run to another.

ghost use Rattle.std.specs.Prelude.{◌≤◌, ◌+◌, ◌<◌, IfOk};
ghost use Rattle.rinv_pool.specs.Pools.{runs_in_use};

use crate::{Run, TermPool};
use std::test::Fail;

#[test]
fn slots_go_from_run_to_run(rt: HostRuntime) -> Result<(), Fail> {
    let mut pool = TermPool::with_slots(rt.alloc(), 4)?;
    let (mut first, mut second, mut third) = begin_three(&mut pool)?;
    let mut added = add(&mut pool, &mut first, 10);
    added &= add(&mut pool, &mut second, 20);
    added &= add(&mut pool, &mut first, 11);
    added &= add(&mut pool, &mut second, 21);
    let full = (pool.live(), pool.spare(), pool.size());
    let given = give_back(&mut pool, first);
    let halved = (pool.live(), pool.spare(), pool.size());
    added &= add(&mut pool, &mut third, 30);
    added &= add(&mut pool, &mut third, 31);
    let again = (pool.live(), pool.spare(), pool.size());
    let seconds = [
        take(&mut pool, &mut second),
        take(&mut pool, &mut second),
        take(&mut pool, &mut second),
    ];
    let thirds = [take(&mut pool, &mut third), take(&mut pool, &mut third)];
    let empty = (pool.live(), pool.spare(), pool.size());
    let spent = give_back(&mut pool, second) & give_back(&mut pool, third);
    assert!(rt; added && given && spent);
    assert_eq!(rt; full, (4, 0, 4));
    assert_eq!(rt; halved, (2, 2, 4));
    assert_eq!(rt; again, (4, 0, 4));
    assert_eq!(rt; seconds, [Some(20), Some(21), None]);
    assert_eq!(rt; thirds, [Some(30), Some(31)]);
    assert_eq!(rt; empty, (0, 4, 4));
    Ok(())
}

// Three new runs.
fn begin_three(pool: &mut TermPool<u32>) -> Result<(Run, Run, Run), Fail>
    requires { runs_in_use pool.old < 10 }
{
    let first = begin(pool)?;
    let second = match begin(pool) {
        Ok(run) => run,
        Err(fault) => {
            give_back(pool, first);
            return Err(fault);
        }
    };
    let third = match begin(pool) {
        Ok(run) => run,
        Err(fault) => {
            give_back(pool, first);
            give_back(pool, second);
            return Err(fault);
        }
    };
    Ok((first, second, third))
}

fn begin(pool: &mut TermPool<u32>) -> Result<Run, Fail>
    requires { runs_in_use pool.old < 20 }
    ensures { IfOk result (λ _. runs_in_use pool.new ≤ runs_in_use pool.old + 1) }
{
    let run = pool.new_run()?;
    Ok(run)
}

fn add(pool: &mut TermPool<u32>, run: &mut Run, term: u32) -> bool {
    if !pool.has(run) || pool.spare() == 0 {
        return false;
    }
    pool.push(run, term);
    true
}

fn take(pool: &mut TermPool<u32>, run: &mut Run) -> Option<u32> {
    if !pool.has(run) {
        return None;
    }
    pool.pop_front(run)
}

fn give_back(pool: &mut TermPool<u32>, run: Run) -> bool {
    if pool.has(&run) {
        pool.give_back(run);
        return true;
    }
    let Run { number: _ } = run;
    false
}
