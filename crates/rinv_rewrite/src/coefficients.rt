//! The coefficients of a rest, and their values.

ghost use Rattle.std.specs.Prelude.{◌≡◌, ℕ, true, false, length, map, All, IfOk, IfErr};
ghost use Rattle.rinv_algebra.specs.Residue.{residue_ops};
ghost use Rattle.rinv_algebra.specs.Polynomial.{has_monomial, poly_ops};
ghost use Rattle.rinv_ring.specs.Fault.{DegreesMeet};
ghost use Rattle.rinv_frac.specs.Fractions.{IsPart, IsStored};
ghost use Rattle.rinv_rewrite.specs.Needed.{ValueMeetsAt};
ghost use Rattle.rinv_rewrite.specs.Symbols.{IsSymbolPart};
ghost use Rattle.rinv_rewrite.specs.Taken.{HasValueAt};
ghost use Rattle.rinv_rewrite.specs.Rewritten.{IsCoefficientAt};

use crate::symbols::{ZPoly, ZRing};
use rinv_frac::{Frac, FracRing};
use rinv_mono::Mono;
use rinv_poly::KPoly;
use rinv_ring::{NoMemory, Ring, RingFault};
use rinv_value::value_at;
use std::alloc::Global;
use std::cmp::Ordering;

/// The coefficient of the polynomial at the monomial.
pub(crate) fn coefficient_at(
    ring: &ZRing,
    alloc: Global,
    f: &ZPoly,
    mono: &Mono,
) -> Result<KPoly, NoMemory>
    requires polynomial { IsSymbolPart ring.now.coeffs.coeffs ring.now.coeffs.vars ring.now.vars f.now }
    requires vars { length mono.now ≡ ring.now.vars }
    ensures element { IfOk result (IsPart ring.now.coeffs.coeffs ring.now.coeffs.vars) }
    ensures value { IfOk result (IsCoefficientAt ring.now.coeffs.coeffs f.now mono.now) }
{
    'terms: for k in 0..ring.len(f) {
        if ring.mono(f, k).lex(mono) == Ordering::Equal {
            let coefficient = ring.coeffs().copy(alloc, ring.coeff(f, k))?;
            return Ok(coefficient);
        }
    }
    let zero = ring.coeffs().zero(alloc)?;
    Ok(zero)
}

/// Whether the coefficient of the rest at a monomial that it has has a value at the fractions that is not zero.
pub(crate) fn has_value_at(
    ring: &ZRing,
    alloc: Global,
    field: &FracRing,
    fractions: &[Frac],
    rest: &ZPoly,
    mono: &Mono,
) -> Result<bool, RingFault>
    requires field { field.now.base.coeffs ≡ ring.now.coeffs.coeffs }
    requires symbols { length fractions.now ≡ ring.now.coeffs.vars }
    requires fractions { All (IsStored field.now.base.coeffs field.now.base.vars) fractions.now }
    requires rest { IsSymbolPart ring.now.coeffs.coeffs ring.now.coeffs.vars ring.now.vars rest.now }
    requires vars { length mono.now ≡ ring.now.vars }
    requires has { has_monomial (poly_ops (residue_ops ring.now.coeffs.coeffs)) rest.now mono.now ≡ true }
    ensures yes { IfOk result (λ r. r ≡ true → HasValueAt ring.now.coeffs.coeffs fractions.now rest.now mono.now) }
    ensures no { IfOk result (λ r. r ≡ false → ¬ (HasValueAt ring.now.coeffs.coeffs fractions.now rest.now mono.now)) }
    ensures degree { IfErr result (DegreesMeet (ValueMeetsAt ring.now.coeffs.coeffs fractions.now rest.now mono.now)) }
{
    let coefficient = coefficient_at(ring, alloc, rest, mono)?;
    let value = value_at(alloc, &coefficient, fractions, field)?;
    Ok(!field.is_zero(&value))
}
