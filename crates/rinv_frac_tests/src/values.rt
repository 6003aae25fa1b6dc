//! Values of polynomials at fractions.

ghost use Rattle.std.specs.Prelude.{◌≡◌, length, nat_lt, IfOk};
ghost use Rattle.rinv_frac.specs.Fractions.{IsPart};

use crate::tables::{Parts, fraction, has_parts};
use rinv_frac::{Frac, FracRing};
use rinv_mono::Mono;
use rinv_poly::{KPoly, PolyRing};
use rinv_ring::{Gf, RingFault};
use rinv_value::value_at;
use std::alloc::Global;
use std::test::Fail;

// y^exponent + 1, in one variable.
fn power_and_one(alloc: Global, field: &Gf, exponent: u32) -> Result<KPoly, RingFault>
    ensures { IfOk result (IsPart field.now 1) }
{
    let _least = field.modulus(); // 1 is a residue
    let mut terms = Vec::new(alloc);
    for e in [exponent, 0] {
        if let Some(mono) = Mono::from_exponents(alloc, &[e])? {
            terms.push((mono, 1))?;
        }
    }
    PolyRing::new(*field, 1).from_terms(alloc, terms)
}

// The value of y^exponent + 1 at the fraction.
fn value_of(
    alloc: Global,
    field: &FracRing,
    exponent: u32,
    at: Parts,
) -> Result<Option<Frac>, RingFault>
    requires vars { field.now.base.vars ≡ 2 }
{
    let Some(point) = fraction(alloc, field, at)? else {
        return Ok(None);
    };
    let power = power_and_one(alloc, field.base().coeffs(), exponent)?;
    let value = value_at(alloc, &power, &[point], field)?;
    Ok(Some(value))
}

// Whether this is its value at the fraction.
fn is_value(
    alloc: Global,
    field: &FracRing,
    exponent: u32,
    at: Parts,
    value: Parts,
) -> Result<bool, RingFault>
    requires vars { field.now.base.vars ≡ 2 }
{
    match value_of(alloc, field, exponent, at)? {
        Some(found) => Ok(has_parts(field, &found, value)),
        None => Ok(false),
    }
}

// y^2 + 1 at x/y is (x^2 + y^2)/y^2
#[test]
fn has_a_value_at_a_fraction(rt: HostRuntime) -> Result<(), Fail> {
    let alloc = rt.alloc();
    let field = FracRing::new(PolyRing::new(Gf::new(7)?, 2));
    let at: Parts = (&[(1, 1, 0)], &[(1, 0, 1)]);
    let value: Parts = (&[(1, 2, 0), (1, 0, 2)], &[(1, 0, 2)]);
    assert!(rt; is_value(alloc, &field, 2, at, value)?);
    Ok(())
}

// The square of x^6000 is over the limit.
#[test]
fn refuses_a_power_over_the_limit(rt: HostRuntime) -> Result<(), Fail> {
    let alloc = rt.alloc();
    let field = FracRing::new(PolyRing::new(Gf::new(7)?, 2));
    let high: Parts = (&[(1, 6000, 0)], &[(1, 0, 0)]);
    assert_eq!(rt;
        value_of(alloc, &field, 2, high).err(),
        Some(RingFault::Degree {
            left: 6000,
            right: 6000
        })
    );
    Ok(())
}
