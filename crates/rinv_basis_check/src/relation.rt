//! One relation: its polynomial in the group's variables, Z and the space's.

ghost use Rattle.std.specs.Prelude.{◌≡◌, true, IsTrue, IfOk, IfSome, is_some};
ghost use Rattle.rinv_defs.specs.System.{System};
ghost use Rattle.rinv_defs.specs.RelationConditions.{z_power};
ghost use Rattle.rinv_cert.specs.Seen.{relation_item_by};
ghost use Rattle.rinv_form.specs.Forms.{is_stored};
ghost use Rattle.rinv_form.specs.ItemForms.{are_exponents};
ghost use Rattle.rinv_basis_check.specs.Relations.{
  AreRingsOf,
  IsPowerMultiple,
  is_relation_in,
  power_fits,
  relation_fits,
};
ghost use Rattle.rinv_basis_check.specs.Whichever.{InRings, IsMonomialOf, IsRelationPoly};

use crate::rings::RelationRings;
use rinv_cert::RelationItem;
use rinv_mono::Mono;
use rinv_poly::KPoly;
use rinv_ring::{NoMemory, Ring, RingFault};
use std::alloc::Global;

// Z to these exponents, in the ring of the graph.
fn z_power(alloc: Global, rings: &RelationRings, exponents: &[u32]) -> Result<KPoly, NoMemory>
    requires { are_exponents rings.now.space.vars exponents.now ≡ true }
    ensures element { IfOk result (λ r. IsTrue (is_stored rings.now.graph.coeffs rings.now.graph.vars r)) }
    ensures value { IfOk result (IsMonomialOf rings.now exponents.now) }
{
    let mut list = vec![in alloc; 0; rings.group as usize]?;
    list.extend_from_slice(exponents)?;
    let after = vec![in alloc; 0; exponents.len()]?;
    list.extend_from_slice(&after)?;
    let Some(monomial) = Mono::from_exponents(alloc, &list)? else {
        unreachable!()
    };
    let _p = rings.graph.coeffs().modulus();
    let terms = vec![in alloc; (monomial, 1)]?;
    let power = rings.graph.from_distinct(terms)?;
    Ok(power)
}

// Z to these exponents times a polynomial in the space's variables; None where the product does not fit.
fn multiple(
    alloc: Global,
    rings: &RelationRings,
    exponents: &[u32],
    f: &KPoly,
) -> Result<Option<KPoly>, NoMemory>
    requires exponents { are_exponents rings.now.space.vars exponents.now ≡ true }
    requires polynomial { IsTrue (is_stored rings.now.space.coeffs rings.now.space.vars f.now) }
    ensures fits { (s : System) → AreRingsOf s rings.now →
        IfOk result (λ o. is_some o ≡ power_fits s exponents.now f.now) }
    ensures element { IfOk result (λ o. IfSome o (λ r. IsTrue (is_stored rings.now.graph.coeffs rings.now.graph.vars r))) }
    ensures value { (s : System) → AreRingsOf s rings.now →
        IfOk result (λ o. IfSome o (IsPowerMultiple s exponents.now f.now)) }
{
    let power = z_power(alloc, rings, exponents)?;
    let before = rings.group + rings.space.vars();
    let behind = rings.space.behind(alloc, before, f, &rings.graph)?;
    match rings.graph.product(alloc, &power, &behind) {
        Ok(product) => Ok(Some(product)),
        Err(RingFault::Degree { .. }) => Ok(None),
        Err(RingFault::NoMemory) => Err(NoMemory),
    }
}

/// The relation as a polynomial, d*Z^a - sum of c*Z^alpha; None where one of these products does not fit.
pub(crate) fn relation_polynomial(
    alloc: Global,
    rings: &RelationRings,
    relation: &RelationItem<KPoly>,
) -> Result<Option<KPoly>, NoMemory>
    requires { is_relation_in rings.now relation.now ≡ true }
    ensures fits { InRings rings.now (λ s. IfOk result (λ o. is_some o ≡ relation_fits s (relation_item_by (λ f. f) relation.now))) }
    ensures element { IfOk result (λ o. IfSome o (λ r. IsTrue (is_stored rings.now.graph.coeffs rings.now.graph.vars r))) }
    ensures value { InRings rings.now (λ s. IfOk result (λ o. IfSome o (IsRelationPoly s relation.now))) }
{
    let Some(lead) = multiple(alloc, rings, relation.a.as_slice(), &relation.d)? else {
        return Ok(None);
    };
    let tail = relation.tail.as_slice();
    let mut summands = Vec::new(alloc);
    'tail: for k in 0..tail.len() {
        let term = &tail[k];
        let Some(summand) = multiple(alloc, rings, term.alpha.as_slice(), &term.c)? else {
            return Ok(None);
        };
        summands.push(summand)?;
    }
    // Sums and differences of numbers modulo a prime are refused for memory alone.
    let Ok(sum) = rings.graph.sum(alloc, summands) else {
        return Err(NoMemory);
    };
    match rings.graph.sub(alloc, &lead, &sum) {
        Ok(difference) => Ok(Some(difference)),
        Err(_) => Err(NoMemory),
    }
}
