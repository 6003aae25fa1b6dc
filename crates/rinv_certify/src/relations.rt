//! The key `relations`: the relations over the common denominators of their coefficients, with the cofactors of their values at Z = g.

ghost use Rattle.std.specs.Prelude.{◌≡◌, ◌<◌, ◌^◌, [], length, IfOk, IfErr};
ghost use Rattle.rinv_defs.specs.SystemForm.{IsSystem};
ghost use Rattle.rinv_ring.specs.Fault.{DegreesMeet};
ghost use Rattle.rinv_coefficients.specs.Ties.{Ties};
ghost use Rattle.rinv_at_graph.specs.Grounds.{IsGround};
ghost use Rattle.rinv_certification.specs.Made.{AreRelationItemsOf};
ghost use Rattle.rinv_certify.specs.Meets.{RelationMeets, RelationsMeet};
ghost use Rattle.rinv_certify.specs.Parts.{RelationsFit, relations_seen};
ghost use Rattle.rinv_certify.specs.Wholes.{IsWholeOf, WholeFits};
ghost use Rattle.rinv_certify.specs.Terms.{InEach, IsDifferenceOf, IsItemOf, OfRelation, RelationFits};
ghost use Rattle.rinv_certify.specs.InSpace.{AreInAll, IsInAll, IsRelationIn};

use crate::raising::{common_denominator, denominators_once};
use crate::tails::tail_items;
use crate::terms::term;
use rinv_action::action_ring;
use rinv_at_graph::{Ground, proof_at_graph};
use rinv_cert::{Items, Plain, RelationItem, TailItem};
use rinv_generators::kinds::Generators;
use rinv_gens::Relation as TiedValue;
use rinv_plain::{plain, plain_list};
use rinv_poly::KPoly;
use rinv_ring::{NoMemory, Ring, RingFault};
use rinv_tails::FracRelation;
use rinv_text::System;
use std::alloc::Global;

// A relation over its common denominator: its lead's coefficient, its tail, and the whole as a polynomial in all variables.
#[derive(Drop)]
struct Whole {
    d: KPoly,
    tail: Vec<TailItem<Plain>>,
    whole: KPoly,
}

// That of a relation.
fn whole_of(
    alloc: Global,
    gens: &Generators,
    relation: &FracRelation,
    symbols: &TiedValue,
) -> Result<Whole, RingFault>
    requires few { length gens.now.fractions < 2 ^ 32 }
    requires relation { IsRelationIn gens.now.told.system relation.now }
    requires ties { Ties gens.now.told.system.p gens.now.fractions symbols.now relation.now }
    ensures raised { IfOk result (IsWholeOf gens.now relation.now symbols.now) }
    ensures fits { InEach gens.now (λ c. IfOk result (WholeFits c relation.now)) }
    ensures degree { IfErr result (DegreesMeet (RelationMeets gens.now relation.now symbols.now)) }
{
    let system = &gens.system;
    let factors = denominators_once(alloc, system, relation)?;
    let d = common_denominator(alloc, system, &factors)?;
    let lead = term(alloc, system, &relation.lead, &d)?;
    let (tail, terms) = tail_items(alloc, gens, relation, symbols, &factors, &d)?;
    let whole = less_sum(alloc, system, &lead, terms)?;
    Ok(Whole { d, tail, whole })
}

// A polynomial in all variables less the sum of others.
fn less_sum(
    alloc: Global,
    system: &System,
    lead: &KPoly,
    terms: Vec<KPoly>,
) -> Result<KPoly, NoMemory>
    requires system { IsSystem system.now.system }
    requires lead { IsInAll system.now.system lead.now }
    requires terms { AreInAll system.now.system terms.items }
    ensures { IfOk result (IsDifferenceOf system.now.system lead.now terms.items) }
{
    let ring = action_ring(system);
    // Sums and differences of numbers modulo a prime are refused for memory alone.
    let Ok(sum) = ring.sum(alloc, terms) else {
        return Err(NoMemory);
    };
    let Ok(less) = ring.sub(alloc, lead, &sum) else {
        return Err(NoMemory);
    };
    Ok(less)
}

// The relation at a place.
fn relation_item(
    alloc: Global,
    gens: &Generators,
    ground: &Ground,
    k: usize,
) -> Result<RelationItem<Plain>, RingFault>
    requires few { length gens.now.fractions < 2 ^ 32 }
    requires section { gens.now.told.system.section ≡ [] }
    requires ground { IsGround gens.now.told.system gens.now.group ground.now }
    requires inside { k < length gens.now.relations }
    ensures item { OfRelation gens.now k (λ r q. IfOk result (IsItemOf gens.now r q)) }
    ensures fits { InEach gens.now (λ c. IfOk result (RelationFits c)) }
    ensures degree { OfRelation gens.now k (λ r q. IfErr result (DegreesMeet (RelationMeets gens.now r q))) }
{
    let monic = &gens.monic;
    let relations = monic.relations.as_slice();
    let relation = &relations[k];
    let ties = gens.relations.as_slice();
    let symbols = &ties[k];
    let made = whole_of(alloc, gens, relation, symbols)?;
    let Whole { d, tail, whole } = made;
    let proof = proof_at_graph(alloc, ground, &whole)?;
    let exponents = relation.lead.to_exponents(alloc)?;
    let denominator = plain(alloc, &d)?;
    let cofactors = plain_list(alloc, &proof)?;
    let a = Items::new(exponents);
    let items = Items::new(tail);
    Ok(RelationItem {
        a,
        d: denominator,
        tail: items,
        cofactors,
    })
}

/// The relations in their order: d is the product of the denominators, each once, and each coefficient's numerator is multiplied by the
/// others. Degree comes only where one of these products, a term, a tie or the cofactors of a relation meet these degrees.
pub(crate) fn relation_items(
    alloc: Global,
    gens: &Generators,
    ground: &Ground,
) -> Result<Items<RelationItem<Plain>>, RingFault>
    requires few { length gens.now.fractions < 2 ^ 32 }
    requires section { gens.now.told.system.section ≡ [] }
    requires ground { IsGround gens.now.told.system gens.now.group ground.now }
    ensures items { IfOk result (λ rs. AreRelationItemsOf gens.now (relations_seen rs)) }
    ensures fits { IfOk result (λ rs. RelationsFit gens.now (relations_seen rs)) }
    ensures degree { IfErr result (DegreesMeet (RelationsMeet gens.now)) }
{
    let count = gens.relations.len();
    let mut items = Vec::with_capacity(alloc, count)?;
    'relations: for k in 0..count {
        let item = relation_item(alloc, gens, ground, k)?;
        items.push(item)?;
    }
    Ok(Items::new(items))
}
