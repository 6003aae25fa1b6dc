//! What is cancelled, and what is not.

ghost use Rattle.std.specs.Prelude.{◌≡◌};

use crate::tables::{Parts, fraction, has_parts};
use rinv_frac::FracRing;
use rinv_poly::PolyRing;
use rinv_ring::{Gf, Ring, RingFault};
use std::alloc::Global;
use std::test::Fail;

// A fraction, and the same cancelled.
const CANCELLED: [(Parts, Parts); 7] = [
    // (x^3 + x*y^2)/(x^2 + y^2) is x
    (
        (&[(1, 3, 0), (1, 1, 2)], &[(1, 2, 0), (1, 0, 2)]),
        (&[(1, 1, 0)], &[(1, 0, 0)]),
    ),
    // x/(x*y) is 1/y
    ((&[(1, 1, 0)], &[(1, 1, 1)]), (&[(1, 0, 0)], &[(1, 0, 1)])),
    // (x + y)/(x^2 - y^2) is 1/(x - y)
    (
        (&[(1, 1, 0), (1, 0, 1)], &[(1, 2, 0), (6, 0, 2)]),
        (&[(1, 0, 0)], &[(1, 1, 0), (6, 0, 1)]),
    ),
    // 1/(3*x + 5*y^2) is 3/(2*x + y^2), where y^2 is the greatest term
    (
        (&[(1, 0, 0)], &[(3, 1, 0), (5, 0, 2)]),
        (&[(3, 0, 0)], &[(2, 1, 0), (1, 0, 2)]),
    ),
    // (x^2*y + x*y^2)/(x*y + x) loses x alone: y + 1 divides nothing
    (
        (&[(1, 2, 1), (1, 1, 2)], &[(1, 1, 1), (1, 1, 0)]),
        (&[(1, 1, 1), (1, 0, 2)], &[(1, 0, 1), (1, 0, 0)]),
    ),
    // (x^2 + 2*x*y + y^2)/(x^2 - y^2) keeps its common factor x + y
    (
        (&[(1, 2, 0), (2, 1, 1), (1, 0, 2)], &[(1, 2, 0), (6, 0, 2)]),
        (&[(1, 2, 0), (2, 1, 1), (1, 0, 2)], &[(1, 2, 0), (6, 0, 2)]),
    ),
    // 0/(2*x) is 0
    ((&[], &[(2, 1, 0)]), (&[], &[(1, 0, 0)])),
];

// Whether the first is the second when it is cancelled.
fn cancels(alloc: Global, field: &FracRing, from: Parts, to: Parts) -> Result<bool, RingFault>
    requires vars { field.now.base.vars ≡ 2 }
{
    let Some(fraction) = fraction(alloc, field, from)? else {
        return Ok(false);
    };
    let cancelled = field.cancel(alloc, fraction)?;
    Ok(has_parts(field, &cancelled, to))
}

#[test]
fn cancels_fractions(rt: HostRuntime) -> Result<(), Fail> {
    let alloc = rt.alloc();
    let field = FracRing::new(PolyRing::new(Gf::new(7)?, 2));
    for (from, to) in CANCELLED {
        assert!(rt; cancels(alloc, &field, from, to)?);
    }
    Ok(())
}

#[test]
fn has_no_fraction_over_zero(rt: HostRuntime) -> Result<(), Fail> {
    let alloc = rt.alloc();
    let field = FracRing::new(PolyRing::new(Gf::new(7)?, 2));
    let over_zero = fraction(alloc, &field, (&[(1, 1, 0)], &[(7, 0, 0)]))?;
    assert!(rt; over_zero.is_none());
    Ok(())
}
