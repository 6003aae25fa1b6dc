//! The sum of the values of terms, one after another.

ghost use Rattle.std.specs.Prelude.{◌≡◌, ℕ, length, nat_lt, All, IfOk, IfErr};
ghost use Rattle.rinv_algebra.specs.Residue.{residue_ops};
ghost use Rattle.rinv_ring.specs.Fault.{DegreesMeet};
ghost use Rattle.rinv_poly.specs.Terms.{IsTerm};
ghost use Rattle.rinv_frac.specs.Fractions.{IsStored};
ghost use Rattle.rinv_value.specs.Values.{Summed, SumsMeet};

use crate::products::term_value;
use rinv_frac::{Frac, FracRing};
use rinv_mono::Mono;
use rinv_ring::{Ring, RingFault};
use std::alloc::Global;

/// The sum of the terms' values, from the first on.
pub(crate) fn summed(
    field: &FracRing,
    alloc: Global,
    terms: &[(Mono, u32)],
    at: &[Frac],
) -> Result<Frac, RingFault>
    requires terms { All (IsTerm (λ c. nat_lt c field.now.base.coeffs) (length at.now)) terms.now }
    requires values { All (IsStored field.now.base.coeffs field.now.base.vars) at.now }
    ensures element { IfOk result (IsStored field.now.base.coeffs field.now.base.vars) }
    ensures made { IfOk result (Summed (residue_ops field.now.base.coeffs) at.now terms.now) }
    ensures degree { IfErr result (DegreesMeet (SumsMeet (residue_ops field.now.base.coeffs) at.now terms.now)) }
{
    let mut sum = field.zero(alloc)?;
    'terms: for (mono, coefficient) in terms {
        let value = term_value(field, alloc, *coefficient, mono, at)?;
        sum = field.add(alloc, &sum, &value)?;
    }
    Ok(sum)
}
