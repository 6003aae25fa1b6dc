//! The value of a polynomial at fractions.

ghost use Rattle.std.specs.Prelude.{ℕ, length, nat_lt, All, IfOk, IfErr};
ghost use Rattle.rinv_algebra.specs.Ring.{IsSame};
ghost use Rattle.rinv_algebra.specs.Residue.{residue_ops};
ghost use Rattle.rinv_algebra.specs.Fraction.{fraction_ops};
ghost use Rattle.rinv_ring.specs.Fault.{DegreesMeet};
ghost use Rattle.rinv_frac.specs.Fractions.{IsPart, IsStored};
ghost use Rattle.rinv_value.specs.Values.{value_at, IsValue, ValueMeets};

use crate::descending::descending;
use crate::sums::summed;
use rinv_frac::{Frac, FracRing};
use rinv_poly::KPoly;
use rinv_ring::RingFault;
use std::alloc::Global;

/// The value of the polynomial at as many fractions as it has variables, by sums and products of fractions: the terms from the greatest
/// down in graded reverse lexicographic order, each its coefficient times the fractions in their order.
pub fn value_at(alloc: Global, f: &KPoly, at: &[Frac], field: &FracRing) -> Result<Frac, RingFault>
    requires polynomial { IsPart field.now.base.coeffs (length at.now) f.now }
    requires values { All (IsStored field.now.base.coeffs field.now.base.vars) at.now }
    ensures element { IfOk result (IsStored field.now.base.coeffs field.now.base.vars) }
    ensures value { IfOk result (λ r. IsSame (fraction_ops (residue_ops field.now.base.coeffs)) r (value_at (residue_ops field.now.base.coeffs) at.now f.now)) }
    ensures made { IfOk result (IsValue (residue_ops field.now.base.coeffs) at.now f.now) }
    ensures degree { IfErr result (DegreesMeet (ValueMeets (residue_ops field.now.base.coeffs) at.now f.now)) }
{
    let terms = descending(alloc, f)?;
    let value = summed(field, alloc, &terms, at)?;
    Ok(value)
}
