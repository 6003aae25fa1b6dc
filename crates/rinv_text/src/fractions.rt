//! From a text to the fraction that it denotes, or to its first fault.

ghost use Rattle.std.specs.Prelude.{◌≡◌, ◌<◌, ◌≤◌, ◌-◌, ◌^◌, ℕ, List, length, map, false, All, IfOk, IfErr};
ghost use Rattle.rinv_algebra.specs.Residue.{residue_ops};
ghost use Rattle.rinv_algebra.specs.Monomial.{total_degree};
ghost use Rattle.rinv_algebra.specs.Polynomial.{Polynomial, is_zero};
ghost use Rattle.rinv_frac.specs.Fractions.{IsStored};
ghost use Rattle.rinv_frac.specs.Cancelling.{IsCancelled};
ghost use Rattle.rinv_text.specs.Faults.{OnFault};
ghost use Rattle.rinv_text.specs.Names.{meet};
ghost use Rattle.rinv_text.specs.Values.{IsLow, IsOver, IsStored as IsKept};
ghost use Rattle.rinv_text.specs.Meanings.{Meaning, StandsFor};
ghost use Rattle.rinv_text.specs.Reading.{known_names};
ghost use Rattle.rinv_text.specs.Sightings.{AreSeen, IsFractionRead};
ghost use Rattle.rinv_text.specs.Stops.{DenotesFraction, AreFraction, AreRefused, fraction_refusal, IsRefusedFraction};
ghost use Rattle.rinv_text.specs.Tokens as Tokens;

use crate::defs::Defs;
use crate::fault::{TextCode, TextFault, TextStop};
use crate::formal::Formal;
use crate::names::Names;
use crate::parser::parse;
use crate::parts::Parts;
use crate::refusal::{refusal, start};
use crate::size::size_of;
use crate::step::Step;
use crate::token::Placed;
use crate::tokens::read_tokens;
use crate::value::value_of;
use rinv_frac::{Frac, FracRing};
use rinv_poly::{KPoly, PolyRing};
use rinv_ring::Gf;
use std::alloc::{AllocError as NoMemory, Global};

// The names of the variables, then those of the abbreviations.
fn known_names(alloc: Global, names: &Names, defs: &Defs) -> Result<Names, NoMemory>
    requires { meet names.now (map (λ d. d.name) defs.now) ≡ false }
    ensures { IfOk result (λ n. n ≡ known_names names.now defs.now) }
{
    let defined = defs.names(alloc)?;
    let known = names.joined(alloc, &defined)?;
    Ok(known)
}

// A denominator that was left out, too.
fn whole_den(alloc: Global, den: Option<KPoly>, ring: &PolyRing<Gf>) -> Result<KPoly, NoMemory>
    ensures { (d : ℕ) (f : Polynomial ℕ) → IsOver ring.now.coeffs ring.now.vars d f den → IfOk result (IsKept ring.now.coeffs ring.now.vars d f) }
{
    match den {
        None => {
            let _p = ring.coeffs().modulus(); // greater than 1
            let one = ring.constant(alloc, 1)?;
            Ok(one)
        }
        Some(den) => Ok(den),
    }
}

// The fraction of these parts, cancelled.
fn cancelled(alloc: Global, parts: Parts, field: &FracRing) -> Result<Frac, NoMemory>
    requires { (g : Meaning) × StandsFor field.now.base.coeffs field.now.base.vars parts g × (is_zero (residue_ops field.now.base.coeffs) g.value.1 ≡ false) }
    ensures element { IfOk result (IsStored field.now.base.coeffs field.now.base.vars) }
    ensures cancelled { (g : Meaning) → StandsFor field.now.base.coeffs field.now.base.vars parts g → IfOk result (IsCancelled (residue_ops field.now.base.coeffs) g.value) }
    ensures low { (g : Meaning) → StandsFor field.now.base.coeffs field.now.base.vars parts g → IfOk result (λ r. IsLow g.numbers.num_degree r.0 × IsLow g.numbers.den_degree r.1) }
{
    let num = parts.num.settled(alloc, field.base())?;
    let den = whole_den(alloc, parts.den, field.base())?;
    let Some(fraction) = field.fraction(num, den)? else {
        unreachable!()
    };
    let cancelled = field.cancel(alloc, fraction)?;
    Ok(cancelled)
}

// The fraction of an expression and its formal numbers, unless it is refused.
fn accepted(
    alloc: Global,
    tokens: &[Placed],
    steps: &[Step],
    known: &Names,
    defs: &Defs,
    field: &FracRing,
) -> Result<(Frac, Formal), TextStop>
    requires read { (names : List (List ℕ)) × (ps : List Tokens.Placed) × (end : ℕ) × IsFractionRead field.now.base.coeffs field.now.base.vars names defs.now known.now ps end tokens.now steps.now }
    requires values { All (λ d. IsStored field.now.base.coeffs field.now.base.vars d.value) defs.now }
    ensures element { IfOk result (λ r. IsStored field.now.base.coeffs field.now.base.vars r.0) }
    ensures numerator { IfOk result (λ r. IsLow r.1.num_degree r.0.0) }
    ensures denominator { IfOk result (λ r. IsLow r.1.den_degree r.0.1) }
    ensures value { (names : List (List ℕ)) (ps : List Tokens.Placed) (end : ℕ) → IsFractionRead field.now.base.coeffs field.now.base.vars names defs.now known.now ps end tokens.now steps.now → IfOk result (λ r. AreFraction field.now.base.coeffs names defs.now ps r.0 r.1) }
    ensures fault { (names : List (List ℕ)) (ps : List Tokens.Placed) (end : ℕ) → IsFractionRead field.now.base.coeffs field.now.base.vars names defs.now known.now ps end tokens.now steps.now → IfErr result (OnFault (AreRefused (fraction_refusal field.now.base.coeffs names defs.now ps) ps end)) }
{
    let _p = field.base().coeffs().modulus(); // a listed one
    let size = size_of(alloc, steps, field.base().vars(), defs)?;
    if let Some(fault) = refusal(known.len(), tokens, size) {
        return Err(TextStop::Fault(fault));
    }
    let Some(size) = size else { unreachable!() };
    let parts = value_of(alloc, steps, defs, field)?;
    if parts.by_zero {
        let place = start(tokens);
        let code = TextCode::ZeroDenominator;
        return Err(TextStop::Fault(TextFault { place, code }));
    }
    let fraction = cancelled(alloc, parts, field)?;
    Ok((fraction, size.numbers))
}

// The fraction that the tokens before an end are, or their first fault, where all names are these.
fn fraction_of(
    alloc: Global,
    tokens: &[Placed],
    end: u32,
    known: &Names,
    defs: &Defs,
    field: &FracRing,
) -> Result<(Frac, Formal), TextStop>
    requires seen { (names : List (List ℕ)) × (ps : List Tokens.Placed) × AreSeen field.now.base.coeffs field.now.base.vars names defs.now known.now ps tokens.now }
    requires values { All (λ d. IsStored field.now.base.coeffs field.now.base.vars d.value) defs.now }
    ensures element { IfOk result (λ r. IsStored field.now.base.coeffs field.now.base.vars r.0) }
    ensures numerator { IfOk result (λ r. IsLow r.1.num_degree r.0.0) }
    ensures denominator { IfOk result (λ r. IsLow r.1.den_degree r.0.1) }
    ensures value { (names : List (List ℕ)) (ps : List Tokens.Placed) → AreSeen field.now.base.coeffs field.now.base.vars names defs.now known.now ps tokens.now → IfOk result (λ r. AreFraction field.now.base.coeffs names defs.now ps r.0 r.1) }
    ensures fault { (names : List (List ℕ)) (ps : List Tokens.Placed) → AreSeen field.now.base.coeffs field.now.base.vars names defs.now known.now ps tokens.now → IfErr result (OnFault (AreRefused (fraction_refusal field.now.base.coeffs names defs.now ps) ps end)) }
{
    match parse(alloc, tokens, end) {
        Ok(steps) => accepted(alloc, tokens, &steps, known, defs, field),
        Err(stop) => Err(stop),
    }
}

/// The fraction that the text denotes, cancelled, with the formal numbers of its expression, where the names of abbreviations stand for
/// theirs; or the first fault of the text: as `read_bytes` has them, and last a divisor that is zero. No part has a degree above its
/// formal one.
pub fn read_frac(
    alloc: Global,
    text: &str,
    names: &Names,
    defs: &Defs,
    field: &FracRing,
) -> Result<(Frac, Formal), TextStop>
    requires short { length text.now < 2 ^ 32 - 1 }
    requires many { length names.now ≡ field.now.base.vars }
    requires apart { meet names.now (map (λ d. d.name) defs.now) ≡ false }
    requires values { All (λ d. IsStored field.now.base.coeffs field.now.base.vars d.value) defs.now }
    ensures element { IfOk result (λ r. IsStored field.now.base.coeffs field.now.base.vars r.0) }
    ensures numerator { IfOk result (λ r. All (λ t. total_degree t.0 ≤ r.1.num_degree) r.0.0) }
    ensures denominator { IfOk result (λ r. All (λ t. total_degree t.0 ≤ r.1.den_degree) r.0.1) }
    ensures value { IfOk result (λ r. DenotesFraction field.now.base.coeffs names.now defs.now text.now r.0 r.1) }
    ensures fault { IfErr result (OnFault (IsRefusedFraction field.now.base.coeffs names.now defs.now text.now)) }
{
    let known = known_names(alloc, names, defs)?;
    let coeffs = field.base().coeffs();
    let tokens = read_tokens(alloc, text.as_bytes(), &known, coeffs, true)?;
    fraction_of(alloc, &tokens, text.len() as u32, &known, defs, field)
}
