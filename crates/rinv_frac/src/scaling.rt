//! Both parts of a fraction are multiplied by a number that makes the coefficient of the denominator's greatest term one.

ghost use Rattle.std.specs.Prelude.{◌≡◌, false, nat_lt, IsTrue, IsFalse, IfOk};
ghost use Rattle.rinv_algebra.specs.Ring.{IsSame};
ghost use Rattle.rinv_algebra.specs.Residue.{residue_ops};
ghost use Rattle.rinv_algebra.specs.Polynomial.{is_zero};
ghost use Rattle.rinv_frac.specs.Fractions.{IsPart, IsStored};
ghost use Rattle.rinv_frac.specs.Cancelling.{InvertsLead, IsScaled};

use crate::fraction::Frac;
use crate::parts::multiple;
use rinv_mono::Grevlex;
use rinv_poly::{KPoly, PolyRing};
use rinv_ring::{Field, Gf, NoMemory};
use std::alloc::Global;

/// The fraction with parts times the inverse of the coefficient of the denominator's greatest term.
pub fn scaled(ring: &PolyRing<Gf>, alloc: Global, f: Frac) -> Result<Frac, NoMemory>
    requires { IsStored ring.now.coeffs ring.now.vars f }
    ensures element { IfOk result (IsStored ring.now.coeffs ring.now.vars) }
    ensures scaled { IfOk result (IsScaled (residue_ops ring.now.coeffs) f) }
{
    let factor = lead_inverse(ring, alloc, &f.den)?;
    if factor == 1 {
        return Ok(f);
    }
    let num = multiple(ring, alloc, factor, &f.num)?;
    let den = multiple(ring, alloc, factor, &f.den)?;
    Ok(Frac { num, den })
}

// The inverse of the coefficient of the greatest term.
fn lead_inverse(ring: &PolyRing<Gf>, alloc: Global, d: &KPoly) -> Result<u32, NoMemory>
    requires polynomial { IsPart ring.now.coeffs ring.now.vars d.now }
    requires nonzero { IsFalse (is_zero (residue_ops ring.now.coeffs) d.now) }
    ensures element { IfOk result (λ c. IsTrue (nat_lt c ring.now.coeffs)) }
    ensures inverse { IfOk result (InvertsLead (residue_ops ring.now.coeffs) d.now) }
{
    let Some(place) = ring.lead(d, &Grevlex) else {
        unreachable!()
    };
    let inverse = inverse_of(ring.coeffs(), alloc, ring.coeff(d, place))?;
    Ok(inverse)
}

// The inverse of a number that is not zero.
fn inverse_of(field: &Gf, alloc: Global, c: &u32) -> Result<u32, NoMemory>
    requires element { IsTrue (nat_lt c.now field.now) }
    requires nonzero { IsFalse ((residue_ops field.now).same c.now 0) }
    ensures element { IfOk result (λ r. IsTrue (nat_lt r field.now)) }
    ensures value { IfOk result (λ r. IsSame (residue_ops field.now) ((residue_ops field.now).mul c.now r) 1) }
{
    match Field::inverse(field, alloc, c)? {
        Some(inverse) => Ok(inverse),
        None => unreachable!(),
    }
}
