//! The expression that is chosen from the rests of a numerator and a denominator.

ghost use Rattle.std.specs.Prelude.{◌≡◌, ℕ, List, false, length, map, All, IsFalse, IfOk, IfErr, IfSome};
ghost use Rattle.rinv_algebra.specs.Residue.{residue_ops};
ghost use Rattle.rinv_algebra.specs.Polynomial.{is_zero};
ghost use Rattle.rinv_ring.specs.Fault.{DegreesMeet};
ghost use Rattle.rinv_frac.specs.Cancelling.{IsCancelled};
ghost use Rattle.rinv_frac.specs.Fractions.{IsPart, IsStored};
ghost use Rattle.rinv_rewrite.specs.Answers.{IsChoice};
ghost use Rattle.rinv_rewrite.specs.Needed.{RestMeets};
ghost use Rattle.rinv_rewrite.specs.Symbols.{IsSymbolPart};
ghost use Rattle.rinv_rewrite.specs.Terms.{AreMonomialsDown};
ghost use Rattle.rinv_rewrite.specs.Rewritten.{IsGreatest};

use crate::coefficients::{coefficient_at, has_value_at};
use crate::expression::Expression;
use crate::symbols::{ZPoly, ZRing};
use rinv_frac::{Frac, FracRing};
use rinv_mono::{Grevlex, Mono, MonoOrder};
use rinv_poly::{KPoly, PolyRing};
use rinv_ring::{NoMemory, Ring, RingFault};
use std::alloc::Global;

// The monomials of the terms.
fn monomials(alloc: Global, f: &ZPoly) -> Result<Vec<Mono>, NoMemory>
    ensures { IfOk result (λ v. v.items ≡ map (λ t. t.0) f.now) }
{
    let terms = f.terms();
    let mut monomials = Vec::with_capacity(alloc, terms.len())?;
    'places: for k in 0..terms.len() {
        let (mono, _) = &terms[k];
        let copy = mono.copy(alloc)?;
        monomials.push(copy)?;
    }
    Ok(monomials)
}

// These from the greatest down.
fn monomials_down(alloc: Global, f: &ZPoly) -> Result<Vec<Mono>, NoMemory>
    ensures { IfOk result (λ v. AreMonomialsDown f.now v.items) }
{
    let mut monomials = monomials(alloc, f)?;
    monomials.sort_unstable_by(|a, b| Grevlex.compare(b, a));
    Ok(monomials)
}

// The greatest monomial at which the coefficient of the rest has a value at the fractions.
fn greatest_with_value(
    ring: &ZRing,
    alloc: Global,
    field: &FracRing,
    fractions: &[Frac],
    rest: &ZPoly,
) -> Result<Option<Mono>, RingFault>
    requires field { field.now.base.coeffs ≡ ring.now.coeffs.coeffs }
    requires symbols { length fractions.now ≡ ring.now.coeffs.vars }
    requires fractions { All (IsStored field.now.base.coeffs field.now.base.vars) fractions.now }
    requires rest { IsSymbolPart ring.now.coeffs.coeffs ring.now.coeffs.vars ring.now.vars rest.now }
    ensures vars { IfOk result (λ o. IfSome o (λ m. length m ≡ ring.now.vars)) }
    ensures exact { IfOk result (IsGreatest ring.now.coeffs.coeffs fractions.now rest.now) }
    ensures degree { IfErr result (DegreesMeet (RestMeets ring.now.coeffs.coeffs fractions.now rest.now)) }
{
    let monomials = monomials_down(alloc, rest)?;
    'places: for k in 0..monomials.len() {
        let mono = &monomials[k];
        let has_value = has_value_at(ring, alloc, field, fractions, rest, mono)?;
        if has_value {
            let copy = mono.copy(alloc)?;
            return Ok(Some(copy));
        }
    }
    Ok(None)
}

// The pair, cancelled.
fn cancelled(
    symbols: &FracRing,
    alloc: Global,
    num: KPoly,
    den: KPoly,
) -> Result<Expression, NoMemory>
    requires numerator { IsPart symbols.now.base.coeffs symbols.now.base.vars num }
    requires denominator { IsPart symbols.now.base.coeffs symbols.now.base.vars den }
    requires nonzero { IsFalse (is_zero (residue_ops symbols.now.base.coeffs) den) }
    ensures stored { IfOk result (IsStored symbols.now.base.coeffs symbols.now.base.vars) }
    ensures cancelled { IfOk result (IsCancelled (residue_ops symbols.now.base.coeffs) (num, den)) }
{
    let Some(pair) = symbols.fraction(num, den)? else {
        unreachable!()
    };
    let fraction = symbols.cancel(alloc, pair)?;
    let ring = symbols.base();
    let num = ring.copy(alloc, symbols.num(&fraction))?;
    let den = ring.copy(alloc, symbols.den(&fraction))?;
    Ok(Expression { num, den })
}

/// The pair of the coefficients of the two rests at the greatest monomial at which that of the second has a value, cancelled; None where
/// none has.
pub(crate) fn chosen(
    ring: &ZRing,
    alloc: Global,
    field: &FracRing,
    fractions: &[Frac],
    num: &ZPoly,
    den: &ZPoly,
) -> Result<Option<Expression>, RingFault>
    requires field { field.now.base.coeffs ≡ ring.now.coeffs.coeffs }
    requires symbols { length fractions.now ≡ ring.now.coeffs.vars }
    requires fractions { All (IsStored field.now.base.coeffs field.now.base.vars) fractions.now }
    requires numerator { IsSymbolPart ring.now.coeffs.coeffs ring.now.coeffs.vars ring.now.vars num.now }
    requires denominator { IsSymbolPart ring.now.coeffs.coeffs ring.now.coeffs.vars ring.now.vars den.now }
    ensures choice { IfOk result (IsChoice ring.now.coeffs.coeffs fractions.now num.now den.now) }
    ensures degree { IfErr result (DegreesMeet (RestMeets ring.now.coeffs.coeffs fractions.now den.now)) }
{
    let greatest = greatest_with_value(ring, alloc, field, fractions, den)?;
    match greatest {
        None => Ok(None),
        Some(mono) => {
            let num = coefficient_at(ring, alloc, num, &mono)?;
            let den = coefficient_at(ring, alloc, den, &mono)?;
            let coeffs = ring.coeffs();
            let symbols = FracRing::new(PolyRing::new(*coeffs.coeffs(), coeffs.vars()));
            let expression = cancelled(&symbols, alloc, num, den)?;
            Ok(Some(expression))
        }
    }
}
