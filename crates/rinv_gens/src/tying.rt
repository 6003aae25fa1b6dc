//! The coefficients of a relation, tied to numbers and to generators; new values become generators.

ghost use Rattle.std.specs.Prelude.{◌≡◌, ◌<◌, false, length, map, All, IfOk, IfErr, IfSome, IfNone, OnOk};
ghost use Rattle.rinv_ring.specs.Fault.{DegreesMeet};
ghost use Rattle.rinv_frac.specs.Fractions.{IsStored};
ghost use Rattle.rinv_tails.specs.Stored.{IsStoredRelation};
ghost use Rattle.rinv_coefficients.specs.Coefficients.{is_among, is_constant};
ghost use Rattle.rinv_coefficients.specs.Ties.{HasValueOf, Ties};
ghost use Rattle.rinv_gens.specs.Numbering.{AmongMeets, WalkMeets, with_new, HasSameValue, with_values};
ghost use Rattle.rinv_gens.specs.Symbols.{tied_of};

use crate::comparing::have_same_value;
use crate::constants::constant_of;
use crate::kinds::{Relation, Symbol};
use rinv_frac::{Frac, FracRing};
use rinv_ring::{Ring, RingFault};
use rinv_tails::FracRelation;
use std::alloc::Global;

/// The relation with its coefficients tied, the greatest first.
pub(crate) fn tied(
    field: &FracRing,
    alloc: Global,
    relation: &FracRelation,
    fractions: &mut Vec<Frac>,
) -> Result<Relation, RingFault>
    requires relation { IsStoredRelation field.now.base.coeffs field.now.base.vars relation.now }
    requires earlier { All (IsStored field.now.base.coeffs field.now.base.vars) fractions.old.items }
    ensures fractions { OnOk result (fractions.new.items ≡ with_values field.now.base.coeffs fractions.old.items relation.now) }
    ensures stored { OnOk result (All (IsStored field.now.base.coeffs field.now.base.vars) fractions.new.items) }
    ensures ties { IfOk result (λ q. Ties field.now.base.coeffs fractions.new.items q relation.now) }
    ensures degree { IfErr result (DegreesMeet (WalkMeets field.now.base.coeffs fractions.old.items (map (λ t. t.1) relation.now.tail))) }
{
    let mut tail = Vec::with_capacity(alloc, relation.tail.len())?;
    'terms: for k in 0..relation.tail.len() {
        let (mono, coefficient) = &relation.tail[k];
        let symbol = symbol_of(field, alloc, coefficient, fractions)?;
        let exponents = mono.copy(alloc)?;
        tail.push((exponents, symbol))?;
    }
    let lead = relation.lead.copy(alloc)?;
    Ok(Relation { lead, tail })
}

// What the fraction is tied to: the number that is its value, or else a generator.
fn symbol_of(
    field: &FracRing,
    alloc: Global,
    c: &Frac,
    fractions: &mut Vec<Frac>,
) -> Result<Symbol, RingFault>
    requires fraction { IsStored field.now.base.coeffs field.now.base.vars c.now }
    requires earlier { All (IsStored field.now.base.coeffs field.now.base.vars) fractions.old.items }
    ensures fractions { OnOk result (fractions.new.items ≡ with_new field.now.base.coeffs fractions.old.items c.now) }
    ensures tied { IfOk result (λ s. HasValueOf field.now.base.coeffs fractions.new.items (tied_of s) c.now) }
    ensures degree { IfErr result (DegreesMeet (AmongMeets field.now.base.coeffs fractions.old.items c.now)) }
{
    let constant = constant_of(field, alloc, c)?;
    match constant {
        Some(value) => Ok(Symbol::Constant(value)),
        None => {
            let symbol = generator_of(field, alloc, c, fractions)?;
            Ok(symbol)
        }
    }
}

// The generator that has the value of the fraction, which is no number; a new one where there is none.
fn generator_of(
    field: &FracRing,
    alloc: Global,
    c: &Frac,
    fractions: &mut Vec<Frac>,
) -> Result<Symbol, RingFault>
    requires fraction { IsStored field.now.base.coeffs field.now.base.vars c.now }
    requires earlier { All (IsStored field.now.base.coeffs field.now.base.vars) fractions.old.items }
    requires no_number { is_constant field.now.base.coeffs c.now ≡ false }
    ensures fractions { OnOk result (fractions.new.items ≡ with_new field.now.base.coeffs fractions.old.items c.now) }
    ensures tied { IfOk result (λ s. HasValueOf field.now.base.coeffs fractions.new.items (tied_of s) c.now) }
    ensures degree { IfErr result (DegreesMeet (AmongMeets field.now.base.coeffs fractions.old.items c.now)) }
{
    let _count = fractions.len();
    let place = place_of(field, alloc, fractions, c)?;
    match place {
        Some(place) => Ok(Symbol::Generator(place + 1)),
        None => {
            let copy = field.copy(alloc, c)?;
            fractions.push(copy)?;
            Ok(Symbol::Generator(fractions.len()))
        }
    }
}

// The place of the first of the fractions that has the value of another.
fn place_of(
    field: &FracRing,
    alloc: Global,
    fractions: &[Frac],
    c: &Frac,
) -> Result<Option<usize>, RingFault>
    requires fraction { IsStored field.now.base.coeffs field.now.base.vars c.now }
    requires earlier { All (IsStored field.now.base.coeffs field.now.base.vars) fractions.now }
    ensures inside { IfOk result (λ o. IfSome o (λ k. k < length fractions.now)) }
    ensures same { IfOk result (λ o. IfSome o (λ k. HasSameValue field.now.base.coeffs fractions.now k c.now)) }
    ensures none { IfOk result (λ o. IfNone o (is_among field.now.base.coeffs fractions.now c.now ≡ false)) }
    ensures degree { IfErr result (DegreesMeet (AmongMeets field.now.base.coeffs fractions.now c.now)) }
{
    'fractions: for k in 0..fractions.len() {
        let same = have_same_value(field, alloc, &fractions[k], c)?;
        if same {
            return Ok(Some(k));
        }
    }
    Ok(None)
}
