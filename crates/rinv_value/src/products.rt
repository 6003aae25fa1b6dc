//! The value of a term: its coefficient times the fractions, factor by factor.

ghost use Rattle.std.specs.Prelude.{◌≡◌, ℕ, length, replicate, nat_lt, All, IsTrue, IfOk, IfErr};
ghost use Rattle.rinv_algebra.specs.Residue.{residue_ops};
ghost use Rattle.rinv_algebra.specs.Value.{factors};
ghost use Rattle.rinv_ring.specs.Fault.{DegreesMeet};
ghost use Rattle.rinv_frac.specs.Fractions.{IsStored};
ghost use Rattle.rinv_frac.specs.Cancelling.{IsSamePair};
ghost use Rattle.rinv_value.specs.Values.{number, Multiplied, ProductsMeet};

use rinv_frac::{Frac, FracRing};
use rinv_mono::Mono;
use rinv_ring::{NoMemory, Ring, RingFault};
use std::alloc::Global;

// The fraction times the factor, as often as the exponent says.
fn times_power(
    field: &FracRing,
    alloc: Global,
    f: Frac,
    factor: &Frac,
    exponent: u32,
) -> Result<Frac, RingFault>
    requires left { IsStored field.now.base.coeffs field.now.base.vars f }
    requires right { IsStored field.now.base.coeffs field.now.base.vars factor.now }
    ensures element { IfOk result (IsStored field.now.base.coeffs field.now.base.vars) }
    ensures made { IfOk result (Multiplied (residue_ops field.now.base.coeffs) f (replicate exponent factor.now)) }
    ensures degree { IfErr result (DegreesMeet (ProductsMeet (residue_ops field.now.base.coeffs) f (replicate exponent factor.now))) }
{
    let mut product = f;
    'powers: for k in 0..exponent {
        product = field.mul(alloc, &product, factor)?;
    }
    Ok(product)
}

// The number as a fraction.
fn number(field: &FracRing, alloc: Global, c: u32) -> Result<Frac, NoMemory>
    requires { IsTrue (nat_lt c field.now.base.coeffs) }
    ensures element { IfOk result (IsStored field.now.base.coeffs field.now.base.vars) }
    ensures value { IfOk result (λ r. IsSamePair (residue_ops field.now.base.coeffs) r (number (residue_ops field.now.base.coeffs) c)) }
{
    let constant = field.base().constant(alloc, c)?;
    let number = field.over_one(alloc, constant)?;
    Ok(number)
}

/// The coefficient times the fractions, each as often as its exponent says.
pub(crate) fn term_value(
    field: &FracRing,
    alloc: Global,
    coefficient: u32,
    mono: &Mono,
    at: &[Frac],
) -> Result<Frac, RingFault>
    requires coefficient { IsTrue (nat_lt coefficient field.now.base.coeffs) }
    requires many { length at.now ≡ length mono.now }
    requires values { All (IsStored field.now.base.coeffs field.now.base.vars) at.now }
    ensures element { IfOk result (IsStored field.now.base.coeffs field.now.base.vars) }
    ensures made { IfOk result (Multiplied (residue_ops field.now.base.coeffs) (number (residue_ops field.now.base.coeffs) coefficient) (factors at.now mono.now)) }
    ensures degree { IfErr result (DegreesMeet (ProductsMeet (residue_ops field.now.base.coeffs) (number (residue_ops field.now.base.coeffs) coefficient) (factors at.now mono.now))) }
{
    let mut product = number(field, alloc, coefficient)?;
    'values: for k in 0..mono.vars() {
        product = times_power(field, alloc, product, &at[k as usize], mono.exponent(k))?;
    }
    Ok(product)
}
