//! Sums, differences, products and inverses of fractions, and when two are the same.

ghost use Rattle.std.specs.Prelude.{◌≡◌, IsTrue};
ghost use Rattle.rinv_frac.specs.Fractions.{IsStored};

use crate::tables::{Parts, fraction, has_parts};
use rinv_frac::{Frac, FracRing};
use rinv_poly::PolyRing;
use rinv_ring::{Field, Gf, Ring, RingFault};
use std::alloc::Global;
use std::test::Fail;

#[derive(Clone, Copy, Debug)]
enum Operation {
    Sum,
    Difference,
    Product,
    Inverse,
}

const ONE: Parts = (&[(1, 0, 0)], &[(1, 0, 0)]);

const X_OVER_Y: Parts = (&[(1, 1, 0)], &[(1, 0, 1)]);

const Y_OVER_X: Parts = (&[(1, 0, 1)], &[(1, 1, 0)]);

const X_OVER_SUM: Parts = (&[(1, 1, 0)], &[(1, 1, 0), (1, 0, 1)]);

const Y_OVER_SUM: Parts = (&[(1, 0, 1)], &[(1, 1, 0), (1, 0, 1)]);

// Two operands, and the result; an inverse is that of the first.
const RESULTS: [(Operation, Parts, Parts, Parts); 6] = [
    // x/y + y/x is (x^2 + y^2)/(x*y)
    (
        Operation::Sum,
        X_OVER_Y,
        Y_OVER_X,
        (&[(1, 2, 0), (1, 0, 2)], &[(1, 1, 1)]),
    ),
    // x/(x + y) + y/(x + y) is 1
    (Operation::Sum, X_OVER_SUM, Y_OVER_SUM, ONE),
    // x/y - x/y is 0
    (
        Operation::Difference,
        X_OVER_Y,
        X_OVER_Y,
        (&[], &[(1, 0, 0)]),
    ),
    // 1 - y/x is (x - y)/x
    (
        Operation::Difference,
        ONE,
        Y_OVER_X,
        (&[(1, 1, 0), (6, 0, 1)], &[(1, 1, 0)]),
    ),
    // x/y times y/x is 1
    (Operation::Product, X_OVER_Y, Y_OVER_X, ONE),
    // the inverse of 2*x is 4/x
    (
        Operation::Inverse,
        (&[(2, 1, 0)], &[(1, 0, 0)]),
        ONE,
        (&[(4, 0, 0)], &[(1, 1, 0)]),
    ),
];

// The result of the operation; None for the inverse of zero.
fn computed(
    alloc: Global,
    field: &FracRing,
    operation: Operation,
    a: &Frac,
    b: &Frac,
) -> Result<Option<Frac>, RingFault>
    requires left { IsStored field.now.base.coeffs field.now.base.vars a.now }
    requires right { IsStored field.now.base.coeffs field.now.base.vars b.now }
{
    let found = match operation {
        Operation::Sum => field.add(alloc, a, b)?,
        Operation::Difference => field.sub(alloc, a, b)?,
        Operation::Product => field.mul(alloc, a, b)?,
        Operation::Inverse => return Ok(field.inverse(alloc, a)?),
    };
    Ok(Some(found))
}

// Whether the operation on the first two answers the third.
fn answers(
    alloc: Global,
    field: &FracRing,
    operation: Operation,
    left: Parts,
    right: Parts,
    wanted: Parts,
) -> Result<bool, RingFault>
    requires vars { field.now.base.vars ≡ 2 }
{
    let Some(a) = fraction(alloc, field, left)? else {
        return Ok(false);
    };
    let Some(b) = fraction(alloc, field, right)? else {
        return Ok(false);
    };
    match computed(alloc, field, operation, &a, &b)? {
        Some(found) => Ok(has_parts(field, &found, wanted)),
        None => Ok(false),
    }
}

#[test]
fn computes_with_fractions(rt: HostRuntime) -> Result<(), Fail> {
    let alloc = rt.alloc();
    let field = FracRing::new(PolyRing::new(Gf::new(7)?, 2));
    for (operation, left, right, wanted) in RESULTS {
        assert!(rt;
            answers(alloc, &field, operation, left, right, wanted)?,
            "{operation:?}"
        );
    }
    Ok(())
}

// What the operation on the fractions answers in place of a result.
fn fault_of(
    alloc: Global,
    field: &FracRing,
    operation: Operation,
    left: Parts,
    right: Parts,
) -> Result<Option<RingFault>, RingFault>
    requires vars { field.now.base.vars ≡ 2 }
{
    let Some(a) = fraction(alloc, field, left)? else {
        return Ok(None);
    };
    let Some(b) = fraction(alloc, field, right)? else {
        return Ok(None);
    };
    Ok(computed(alloc, field, operation, &a, &b).err())
}

// 1/x^6000 + 1/y^4001 multiplies the denominators; over one denominator nothing is multiplied.
#[test]
fn refuses_products_over_the_limit(rt: HostRuntime) -> Result<(), Fail> {
    let alloc = rt.alloc();
    let field = FracRing::new(PolyRing::new(Gf::new(7)?, 2));
    let high: Parts = (&[(1, 0, 0)], &[(1, 6000, 0)]);
    let other: Parts = (&[(1, 0, 0)], &[(1, 0, 4001)]);
    let degree = Some(RingFault::Degree {
        left: 6000,
        right: 4001,
    });
    assert_eq!(rt;
        fault_of(alloc, &field, Operation::Sum, high, other)?,
        degree
    );
    assert_eq!(rt; fault_of(alloc, &field, Operation::Sum, high, high)?, None);
    Ok(())
}

// Whether two fractions are the same.
fn are_same(alloc: Global, field: &FracRing, left: Parts, right: Parts) -> Result<bool, RingFault>
    requires vars { field.now.base.vars ≡ 2 }
{
    let Some(a) = fraction(alloc, field, left)? else {
        return Ok(false);
    };
    let Some(b) = fraction(alloc, field, right)? else {
        return Ok(false);
    };
    field.same(alloc, &a, &b)
}

// (x^2*y + x*y)/(x*y + y) is x, though their parts differ
#[test]
fn compares_values(rt: HostRuntime) -> Result<(), Fail> {
    let alloc = rt.alloc();
    let field = FracRing::new(PolyRing::new(Gf::new(7)?, 2));
    let long: Parts = (&[(1, 2, 1), (1, 1, 1)], &[(1, 1, 1), (1, 0, 1)]);
    let short: Parts = (&[(1, 1, 0)], &[(1, 0, 0)]);
    assert!(rt; are_same(alloc, &field, long, short)?);
    assert!(rt; !are_same(alloc, &field, long, Y_OVER_X)?);
    Ok(())
}

// Whether a + 1 - 1 is a, and a times its inverse is 1.
fn laws_hold<F: Field>(field: &F, alloc: Global, a: &F::Elem) -> Result<bool, RingFault>
    requires { IsTrue (F.is_element field.now a.now) }
{
    let one = field.one(alloc)?;
    let sum = field.add(alloc, a, &one)?;
    let back = field.sub(alloc, &sum, &one)?;
    let same = field.same(alloc, &back, a)?;
    let Some(inverse) = field.inverse(alloc, a)? else {
        return Ok(false);
    };
    let product = field.mul(alloc, a, &inverse)?;
    let unit = field.same(alloc, &product, &one)?;
    Ok(same && unit)
}

// Whether they hold of the fraction.
fn laws_hold_at(alloc: Global, field: &FracRing, parts: Parts) -> Result<bool, RingFault>
    requires vars { field.now.base.vars ≡ 2 }
{
    match fraction(alloc, field, parts)? {
        Some(a) => laws_hold(field, alloc, &a),
        None => Ok(false),
    }
}

#[test]
fn laws_hold_for_fractions(rt: HostRuntime) -> Result<(), Fail> {
    let alloc = rt.alloc();
    let field = FracRing::new(PolyRing::new(Gf::new(7)?, 2));
    assert!(rt; laws_hold_at(alloc, &field, X_OVER_SUM)?);
    Ok(())
}

// Whether zero has no inverse, and one is not zero.
fn zero_differs<F: Field>(field: &F, alloc: Global) -> Result<bool, RingFault> {
    let zero = field.zero(alloc)?;
    let one = field.one(alloc)?;
    let inverse = field.inverse(alloc, &zero)?;
    Ok(inverse.is_none() && field.is_zero(&zero) && !field.is_zero(&one))
}

#[test]
fn zero_has_no_inverse(rt: HostRuntime) -> Result<(), Fail> {
    let alloc = rt.alloc();
    let field = FracRing::new(PolyRing::new(Gf::new(7)?, 2));
    assert!(rt; zero_differs(&field, alloc)?);
    Ok(())
}
