//! The sixth condition: the relations hold on the graph, and their coefficients are constants and fractions.

ghost use Rattle.std.specs.Prelude.{◌≡◌, ◌<◌, ◌≤◌, ◌+◌, ◌^◌, length, None, true, IsTrue, IfOk};
ghost use Rattle.std.specs.List.{list_all};
ghost use Rattle.std.specs.Ordering.{is_lt};
ghost use Rattle.rinv_algebra.specs.Monomial.{total_degree, max_degree};
ghost use Rattle.rinv_algebra.specs.Order.{grevlex};
ghost use Rattle.rinv_defs.specs.Format.{format_failure};
ghost use Rattle.rinv_defs.specs.RelationConditions.{relations_failure};
ghost use Rattle.rinv_cert.specs.Seen.{plain, relation_item_by};
ghost use Rattle.rinv_form.specs.Forms.{is_stored_fraction};
ghost use Rattle.rinv_form.specs.ItemForms.{is_relation_form};
ghost use Rattle.rinv_identities.specs.Graphs.{IsGraph};
ghost use Rattle.rinv_basis_check.specs.Relations.{tails_are};
ghost use Rattle.rinv_basis_check.specs.Whichever.{OfSized, OnGraph, is_shown_in};

use crate::relation::relation_polynomial;
use crate::rings::{RelationRings, relation_rings};
use crate::tied::is_tied_to;
use rinv_cert::{CertificateOf, Items, Kind, RelationItem};
use rinv_form::{Sizes, sizes_in};
use rinv_identities::{Graph, vanishes_on_graph};
use rinv_mono::{Grevlex, Mono, MonoOrder};
use rinv_poly::KPoly;
use rinv_ring::NoMemory;
use std::alloc::Global;
use std::cmp::Ordering;

// Whether one list of exponents is below another, as monomials.
fn is_below(alloc: Global, low: &Items<u32>, high: &Items<u32>) -> Result<bool, NoMemory>
    requires count { length low.now ≡ length high.now }
    requires few { length high.now < 2 ^ 32 }
    requires low { total_degree low.now ≤ max_degree }
    requires high { total_degree high.now ≤ max_degree }
    ensures { IfOk result (λ b. b ≡ is_lt (grevlex low.now high.now)) }
{
    let Some(left) = Mono::from_exponents(alloc, low.as_slice())? else {
        unreachable!()
    };
    let Some(right) = Mono::from_exponents(alloc, high.as_slice())? else {
        unreachable!()
    };
    Ok(Grevlex.compare(&left, &right) == Ordering::Less)
}

// Whether each term of a tail is below the lead, and its coefficient is what it is tied to.
fn are_tails(
    alloc: Global,
    sizes: &Sizes,
    rings: &RelationRings,
    fractions: &[(KPoly, KPoly)],
    relation: &RelationItem<KPoly>,
) -> Result<bool, NoMemory>
    requires form { is_relation_form sizes.now relation.now ≡ true }
    requires rings { rings.now.space.coeffs ≡ sizes.now.field }
    requires space { rings.now.space.vars ≡ sizes.now.space }
    requires many { length fractions.now ≡ sizes.now.fractions }
    requires fractions { IsTrue (list_all (is_stored_fraction sizes.now.field sizes.now.space) fractions.now) }
    ensures { OfSized sizes.now fractions.now (λ c. IfOk result (λ b. b ≡ tails_are c (relation_item_by (λ f. f) relation.now))) }
{
    let tail = relation.tail.as_slice();
    'tail: for k in 0..tail.len() {
        let term = &tail[k];
        if !is_below(alloc, &term.alpha, &relation.a)? {
            return Ok(false);
        }
        if !is_tied_to(
            alloc,
            &rings.space,
            fractions,
            &relation.d,
            &term.c,
            &term.tied,
        )? {
            return Ok(false);
        }
    }
    Ok(true)
}

// Whether a relation is shown.
fn relation_is_shown(
    alloc: Global,
    sizes: &Sizes,
    graph: &Graph,
    fractions: &[(KPoly, KPoly)],
    relation: &RelationItem<KPoly>,
) -> Result<bool, NoMemory>
    requires sizes { sizes.now.graph ≡ sizes.now.group + sizes.now.space + sizes.now.space }
    requires form { is_relation_form sizes.now relation.now ≡ true }
    requires many { length fractions.now ≡ sizes.now.fractions }
    requires fractions { IsTrue (list_all (is_stored_fraction sizes.now.field sizes.now.space) fractions.now) }
    requires field { graph.now.ring.coeffs ≡ sizes.now.field }
    requires ring { graph.now.ring.vars ≡ sizes.now.graph }
    requires whole { graph.now.whole.vars ≡ sizes.now.whole }
    requires ideal { length graph.now.ideal.items ≡ sizes.now.ideal }
    ensures { OnGraph sizes.now fractions.now graph.now (λ c. IfOk result (λ b. b ≡ is_shown_in c relation.now)) }
{
    let rings = relation_rings(sizes);
    let Some(polynomial) = relation_polynomial(alloc, &rings, relation)? else {
        return Ok(false);
    };
    if !are_tails(alloc, sizes, &rings, fractions, relation)? {
        return Ok(false);
    }
    let holds = vanishes_on_graph(alloc, graph, &polynomial, relation.cofactors.as_slice())?;
    Ok(holds)
}

/// The place of the first relation that is not shown.
pub fn relations_failure(
    alloc: Global,
    stored: &CertificateOf<KPoly>,
    graph: &Graph,
) -> Result<Option<u32>, NoMemory>
    requires kind { stored.now.kind ≡ Kind.Full }
    requires form { format_failure (plain stored.now) ≡ None }
    requires graph { IsGraph (plain stored.now).system graph.now }
    ensures { IfOk result (λ o. o ≡ relations_failure (plain stored.now)) }
{
    let sizes = sizes_in(stored);
    let fractions = stored.fractions.as_slice();
    let relations = stored.relations.as_slice();
    'relations: for k in 0..relations.len() {
        // Numbers of entries are u32: a longer list is answered as want of memory.
        let Ok(number) = u32::try_from(k + 1) else {
            return Err(NoMemory);
        };
        if !relation_is_shown(alloc, &sizes, graph, fractions, &relations[k])? {
            return Ok(Some(number));
        }
    }
    Ok(None)
}
