//! The tails of relations, over the common denominators of their coefficients.

ghost use Rattle.std.specs.Prelude.{◌≡◌, ◌<◌, ◌^◌, length, map, IfOk, IfErr};
ghost use Rattle.rinv_defs.specs.System.{space_count};
ghost use Rattle.rinv_ring.specs.Fault.{DegreesMeet};
ghost use Rattle.rinv_coefficients.specs.Ties.{Ties};
ghost use Rattle.rinv_gens.specs.Symbols.{tied_of as symbol_of};
ghost use Rattle.rinv_certify.specs.Meets.{TailItemMeets, TailMeets};
ghost use Rattle.rinv_certify.specs.Parts.{IsInside};
ghost use Rattle.rinv_certify.specs.Wholes.{TailFits, TailItemFits};
ghost use Rattle.rinv_certify.specs.Terms.{AreTailTerms, InEach, IsStoredTerm, IsSumOfTerms, IsTailTerm};
ghost use Rattle.rinv_certify.specs.InSpace.{AreInAll, AreInSpace, IsFractionIn, IsInSpace, IsRelationIn};

use crate::raising::raised_numerator;
use crate::terms::term;
use crate::ties::tied;
use rinv_cert::{Items, Plain, TailItem};
use rinv_frac::Frac;
use rinv_generators::kinds::Generators;
use rinv_gens::{Relation as TiedValue, Symbol};
use rinv_mono::Mono;
use rinv_plain::plain;
use rinv_poly::KPoly;
use rinv_ring::RingFault;
use rinv_tails::FracRelation;
use std::alloc::Global;

// A term over the common denominator d, which is the product of the factors; and as a polynomial in all variables.
fn tail_item(
    alloc: Global,
    gens: &Generators,
    factors: &[KPoly],
    d: &KPoly,
    mono: &Mono,
    coefficient: &Frac,
    symbol: Symbol,
) -> Result<(TailItem<Plain>, KPoly), RingFault>
    requires few { length gens.now.fractions < 2 ^ 32 }
    requires factors { AreInSpace gens.now.told.system factors.now }
    requires denominator { IsInSpace gens.now.told.system d.now }
    requires exponents { length mono.now ≡ space_count gens.now.told.system }
    requires coefficient { IsFractionIn gens.now.told.system coefficient.now }
    requires inside { IsInside (length gens.now.fractions) (symbol_of symbol) }
    ensures item { IfOk result (λ r. IsTailTerm gens.now factors.now (mono.now, coefficient.now) (symbol_of symbol) r.0) }
    ensures normal { IfOk result (λ r. IsInSpace gens.now.told.system r.0.1) }
    ensures term { IfOk result (λ r. IsStoredTerm gens.now r.0 r.1) }
    ensures fits { InEach gens.now (λ whole. IfOk result (λ r. TailItemFits whole d.now r.0)) }
    ensures degree { IfErr result (DegreesMeet (TailItemMeets gens.now factors.now d.now (mono.now, coefficient.now) (symbol_of symbol))) }
{
    let system = &gens.system;
    let raised = raised_numerator(alloc, system, factors, coefficient)?;
    let value = term(alloc, system, mono, &raised)?;
    let tie = tied(gens, d, &raised, symbol)?;
    let alpha = mono.to_exponents(alloc)?;
    let c = plain(alloc, &raised)?;
    let item = TailItem {
        alpha: Items::new(alpha),
        c,
        tied: tie,
    };
    Ok((item, value))
}

/// The terms of the relation's tail over the common denominator d; and as polynomials in all variables.
pub(crate) fn tail_items(
    alloc: Global,
    gens: &Generators,
    relation: &FracRelation,
    symbols: &TiedValue,
    factors: &[KPoly],
    d: &KPoly,
) -> Result<(Vec<TailItem<Plain>>, Vec<KPoly>), RingFault>
    requires few { length gens.now.fractions < 2 ^ 32 }
    requires relation { IsRelationIn gens.now.told.system relation.now }
    requires ties { Ties gens.now.told.system.p gens.now.fractions symbols.now relation.now }
    requires factors { AreInSpace gens.now.told.system factors.now }
    requires denominator { IsInSpace gens.now.told.system d.now }
    ensures items { IfOk result (λ r. AreTailTerms gens.now factors.now relation.now symbols.now r.0.items) }
    ensures normal { IfOk result (λ r. AreInSpace gens.now.told.system (map (λ t. t.1) r.0.items)) }
    ensures terms { IfOk result (λ r. AreInAll gens.now.told.system r.1.items) }
    ensures sum { IfOk result (λ r. IsSumOfTerms gens.now r.0.items r.1.items) }
    ensures fits { InEach gens.now (λ whole. IfOk result (λ r. TailFits whole d.now r.0.items)) }
    ensures degree { IfErr result (DegreesMeet (TailMeets gens.now factors.now d.now relation.now symbols.now)) }
{
    let mut items = Vec::with_capacity(alloc, relation.tail.len())?;
    let mut terms = Vec::with_capacity(alloc, relation.tail.len())?;
    let tail = relation.tail.as_slice();
    let ties = symbols.tail.as_slice();
    'tail: for k in 0..tail.len() {
        let (mono, coefficient) = &tail[k];
        let (_mono, symbol) = &ties[k];
        let (item, value) = tail_item(alloc, gens, factors, d, mono, coefficient, *symbol)?;
        items.push(item)?;
        terms.push(value)?;
    }
    Ok((items, terms))
}
