//! Relations as polynomials in Z, and as divisors.

ghost use Rattle.std.specs.Prelude.{◌≡◌, length, All, IfOk};
ghost use Rattle.rinv_rewrite.specs.Prepared.{IsReady};
ghost use Rattle.rinv_rewrite.specs.Symbols.{IsSymbolPart, IsSymbolRelation};
ghost use Rattle.rinv_rewrite.specs.Rewritten.{IsLeadPoly, IsRelationPoly};

use crate::basis::SymbolBasis;
use crate::symbols::{ZPoly, ZRing, tail_terms, total};
use rinv_div::Divisors;
use rinv_gens::Relation;
use rinv_mono::{Grevlex, Mono};
use rinv_ring::{NoMemory, Ring};
use std::alloc::Global;

// The monomial with the coefficient one.
fn lead_poly(ring: &ZRing, alloc: Global, lead: &Mono) -> Result<ZPoly, NoMemory>
    requires { length lead.now ≡ ring.now.vars }
    ensures element { IfOk result (IsSymbolPart ring.now.coeffs.coeffs ring.now.coeffs.vars ring.now.vars) }
    ensures value { IfOk result (IsLeadPoly ring.now.coeffs.coeffs lead.now) }
{
    let one = ring.coeffs().one(alloc)?;
    let mono = lead.copy(alloc)?;
    let mut terms = Vec::new(alloc);
    terms.push((mono, one))?;
    let poly = total(ring, alloc, terms)?;
    Ok(poly)
}

// The lead less the tail, with symbols.
fn relation_poly(ring: &ZRing, alloc: Global, relation: &Relation) -> Result<ZPoly, NoMemory>
    requires { IsSymbolRelation ring.now.coeffs.coeffs ring.now.coeffs.vars ring.now.vars relation.now }
    ensures element { IfOk result (IsSymbolPart ring.now.coeffs.coeffs ring.now.coeffs.vars ring.now.vars) }
    ensures value { IfOk result (IsRelationPoly ring.now.coeffs.coeffs relation.now) }
{
    let lead = lead_poly(ring, alloc, &relation.lead)?;
    let terms = tail_terms(ring, alloc, &relation.tail)?;
    let tail = total(ring, alloc, terms)?;
    // Differences of polynomials over a field are refused for memory alone.
    let Ok(difference) = ring.sub(alloc, &lead, &tail) else {
        return Err(NoMemory);
    };
    Ok(difference)
}

/// The relations with symbols, as polynomials and as divisors.
pub(crate) fn symbol_basis(
    ring: &ZRing,
    alloc: Global,
    relations: &[Relation],
) -> Result<SymbolBasis, NoMemory>
    requires { All (IsSymbolRelation ring.now.coeffs.coeffs ring.now.coeffs.vars ring.now.vars) relations.now }
    ensures { IfOk result (IsReady ring.now.coeffs.coeffs ring.now.coeffs.vars ring.now.vars relations.now) }
{
    let symbols = ring.coeffs().vars();
    let mut polys = Vec::with_capacity(alloc, relations.len())?;
    let mut divisors = Divisors::new(alloc);
    'relations: for k in 0..relations.len() {
        let poly = relation_poly(ring, alloc, &relations[k])?;
        divisors.push_monic(ring, alloc, &poly, &Grevlex)?;
        polys.push(poly)?;
    }
    Ok(SymbolBasis {
        symbols,
        polys,
        divisors,
    })
}
