//! The greatest monomial that divides both parts of a fraction is divided out.

ghost use Rattle.std.specs.Prelude.{IfOk};
ghost use Rattle.rinv_algebra.specs.Residue.{residue_ops};
ghost use Rattle.rinv_frac.specs.Fractions.{IsStored};
ghost use Rattle.rinv_frac.specs.Cancelling.{IsStripped};

use crate::common::common_monomial;
use crate::fraction::Frac;
use crate::parts::{exact_quotient, one_term};
use rinv_poly::PolyRing;
use rinv_ring::{Gf, NoMemory};
use std::alloc::Global;

/// The fraction without the greatest monomial that divides both its parts.
pub fn stripped(ring: &PolyRing<Gf>, alloc: Global, f: Frac) -> Result<Frac, NoMemory>
    requires { IsStored ring.now.coeffs ring.now.vars f }
    ensures element { IfOk result (IsStored ring.now.coeffs ring.now.vars) }
    ensures stripped { IfOk result (IsStripped (residue_ops ring.now.coeffs) f) }
{
    let common = common_monomial(ring, alloc, &f.num, &f.den)?;
    if common.degree() == 0 {
        return Ok(f);
    }
    let divisor = one_term(ring, alloc, common)?;
    let num = exact_quotient(ring, alloc, &f.num, &divisor)?;
    let den = exact_quotient(ring, alloc, &f.den, &divisor)?;
    Ok(Frac { num, den })
}
