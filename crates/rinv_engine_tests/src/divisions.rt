//! Divisions of small polynomials in x and y, with steps enough and with too few, with divisors that are prepared once, and for the rest
//! alone.

ghost use Rattle.std.specs.Prelude.{◌≡◌};
ghost use Rattle.rinv_div.specs.Budgets.{IsWithin};

use crate::tables::{Term, are_lists, is_list, nonzero, polynomial};
use crate::wide_step::{FULL, ROW, TALL};
use rinv_div::{
    Budget, DivStop, Division, divide, divide_by, divide_wholly, divisors_of, remainder_by,
    remainder_wholly,
};
use rinv_mono::{Blocks, Grevlex, MonoOrder};
use rinv_poly::PolyRing;
use rinv_ring::{Gf, NoMemory, RingFault};
use std::alloc::Global;
use std::test::Fail;

// The modulus, the dividend, the divisors and the steps that are given; the quotients, the rest and the steps that are spent.
const DIVIDED: &[(u64, &[Term], &[&[Term]], u64, &[&[Term]], &[Term], u64)] = &[
    (
        7,
        &[(1, 2, 1), (1, 1, 2), (1, 0, 2)],
        &[&[(1, 1, 1), (6, 0, 0)], &[(1, 0, 2), (6, 0, 0)]],
        4,
        &[&[(1, 1, 0), (1, 0, 1)], &[(1, 0, 0)]],
        &[(1, 1, 0), (1, 0, 1), (1, 0, 0)],
        3,
    ),
    (
        101,
        &[(1, 3, 0)],
        &[&[(1, 2, 0), (100, 0, 0)]],
        1,
        &[&[(1, 1, 0)]],
        &[(1, 1, 0)],
        1,
    ),
    (7, &[(1, 13, 0)], &[TALL], 1, &[&[(1, 1, 0)]], ROW, 1),
    (7, FULL, &[TALL], 1, &[&[(1, 1, 0)]], &[], 1),
];

// The modulus, the dividend, the divisors and the steps that are given, which are too few; what is left when they are spent.
const HALTED: &[(u64, &[Term], &[&[Term]], u64, &[Term])] = &[
    (
        7,
        &[(1, 2, 1), (1, 1, 2), (1, 0, 2)],
        &[&[(1, 1, 1), (6, 0, 0)], &[(1, 0, 2), (6, 0, 0)]],
        2,
        &[(1, 1, 0), (1, 0, 2), (1, 0, 1)],
    ),
    (
        101,
        &[(1, 3, 0)],
        &[&[(1, 2, 0), (100, 0, 0)]],
        0,
        &[(1, 3, 0)],
    ),
];

// x^6000*y^4000, and x + y^9000.
const HIGH: &[Term] = &[(1, 6000, 4000)];

const HIGHER: &[&[Term]] = &[&[(1, 1, 0), (1, 0, 9000)]];

// A budget of so many steps.
fn of_steps(steps: u64) -> Budget
    ensures { IsWithin result }
{
    Budget {
        pairs: 0,
        steps,
        pairs_spent: 0,
        steps_spent: 0,
        endless: false,
    }
}

// The division of the first polynomial by the others.
fn divided<O: MonoOrder>(
    alloc: Global,
    ring: &PolyRing<Gf>,
    f: &[Term],
    divisors: &[&[Term]],
    order: &O,
    steps: &mut Budget,
) -> Result<Division<Gf>, DivStop<Gf>>
    requires vars { ring.now.vars ≡ 2 }
    requires suits { O.fits order.now ring.now.vars }
    requires within { IsWithin steps.old }
{
    let Ok(f) = polynomial(alloc, ring, f) else {
        return Err(DivStop::NoMemory);
    };
    let Ok(basis) = nonzero(alloc, ring, divisors) else {
        return Err(DivStop::NoMemory);
    };
    divide(ring, alloc, &f, &basis, order, steps)
}

// Whether a division with so many steps gives these quotients and this rest, and spends so many.
fn divides_so(
    alloc: Global,
    ring: &PolyRing<Gf>,
    f: &[Term],
    divisors: &[&[Term]],
    given: u64,
    quotients: &[&[Term]],
    rest: &[Term],
    spent: u64,
) -> bool
    requires vars { ring.now.vars ≡ 2 }
{
    let mut steps = of_steps(given);
    match divided(alloc, ring, f, divisors, &Grevlex, &mut steps) {
        Ok(division) => {
            steps.steps_spent == spent
                && are_lists(ring, &division.quotients, quotients)
                && is_list(ring, &division.rest, rest)
        }
        Err(_) => false,
    }
}

// Whether a division by prepared divisors gives these quotients and this rest, and so does the division for the rest alone.
fn divides_wholly_so(
    alloc: Global,
    ring: &PolyRing<Gf>,
    f: &[Term],
    divisors: &[&[Term]],
    quotients: &[&[Term]],
    rest: &[Term],
) -> Result<bool, RingFault>
    requires vars { ring.now.vars ≡ 2 }
{
    let f = polynomial(alloc, ring, f)?;
    let basis = nonzero(alloc, ring, divisors)?;
    let prepared = divisors_of(ring, alloc, &basis, &Grevlex)?;
    let division = divide_wholly(ring, alloc, &f, &basis, &prepared, &Grevlex)?;
    let left = remainder_wholly(ring, alloc, &f, &basis, &prepared, &Grevlex)?;
    Ok(
        are_lists(ring, &division.quotients, quotients)
            && is_list(ring, &division.rest, rest)
            && is_list(ring, &left, rest),
    )
}

// The same with so many steps given, of which each of the two spends so many.
fn spends_so(
    alloc: Global,
    ring: &PolyRing<Gf>,
    f: &[Term],
    divisors: &[&[Term]],
    given: u64,
    rest: &[Term],
    spent: u64,
) -> Result<bool, RingFault>
    requires vars { ring.now.vars ≡ 2 }
{
    let f = polynomial(alloc, ring, f)?;
    let basis = nonzero(alloc, ring, divisors)?;
    let prepared = divisors_of(ring, alloc, &basis, &Grevlex)?;
    let mut steps = of_steps(given);
    let Ok(division) = divide_by(ring, alloc, &f, &basis, &prepared, &Grevlex, &mut steps) else {
        return Ok(false);
    };
    let mut others = of_steps(given);
    let Ok(left) = remainder_by(ring, alloc, &f, &basis, &prepared, &Grevlex, &mut others) else {
        return Ok(false);
    };
    Ok(
        steps.steps_spent == spent
            && others.steps_spent == spent
            && is_list(ring, &division.rest, rest)
            && is_list(ring, &left, rest),
    )
}

// Whether it stops when so many steps are spent, and this is left.
fn halts_so(
    alloc: Global,
    ring: &PolyRing<Gf>,
    f: &[Term],
    divisors: &[&[Term]],
    given: u64,
    left: &[Term],
) -> bool
    requires vars { ring.now.vars ≡ 2 }
{
    let mut steps = of_steps(given);
    match divided(alloc, ring, f, divisors, &Grevlex, &mut steps) {
        Err(DivStop::Steps { working }) => {
            steps.steps_spent == given && is_list(ring, &working, left)
        }
        _ => false,
    }
}

// Whether the division of the high monomial stops at these degrees, before its first step.
fn stops_at(
    alloc: Global,
    ring: &PolyRing<Gf>,
    of_multiplier: u32,
    of_monomial: u32,
) -> Result<bool, NoMemory>
    requires vars { ring.now.vars ≡ 2 }
{
    let blocks = Blocks::new(vec![in alloc; 1, 2]?);
    let mut steps = of_steps(1);
    match divided(alloc, ring, HIGH, HIGHER, &blocks, &mut steps) {
        Err(
            DivStop::Degree {
                left,
                right,
                working,
            },
        ) => Ok(
            left == of_multiplier
                && right == of_monomial
                && steps.steps_spent == 0
                && is_list(ring, &working, HIGH),
        ),
        _ => Ok(false),
    }
}

#[test]
fn divides(rt: HostRuntime) -> Result<(), Fail> {
    for (modulus, f, divisors, given, quotients, rest, spent) in DIVIDED {
        let ring = PolyRing::new(Gf::new(*modulus)?, 2);
        assert!(rt;
            divides_so(
                rt.alloc(),
                &ring,
                f,
                divisors,
                *given,
                quotients,
                rest,
                *spent
            )
        );
    }
    Ok(())
}

#[test]
fn stops(rt: HostRuntime) -> Result<(), Fail> {
    for (modulus, f, divisors, given, left) in HALTED {
        let ring = PolyRing::new(Gf::new(*modulus)?, 2);
        assert!(rt; halts_so(rt.alloc(), &ring, f, divisors, *given, left));
    }
    let ring = PolyRing::new(Gf::new(7)?, 2);
    assert!(rt; stops_at(rt.alloc(), &ring, 9999, 9000)?);
    Ok(())
}

#[test]
fn divides_by_prepared_divisors(rt: HostRuntime) -> Result<(), Fail> {
    let alloc = rt.alloc();
    for (modulus, f, divisors, given, quotients, rest, spent) in DIVIDED {
        let ring = PolyRing::new(Gf::new(*modulus)?, 2);
        assert!(rt; divides_wholly_so(alloc, &ring, f, divisors, quotients, rest)?);
        assert!(rt; spends_so(alloc, &ring, f, divisors, *given, rest, *spent)?);
    }
    Ok(())
}
