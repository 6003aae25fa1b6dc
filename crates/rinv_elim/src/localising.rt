//! From polynomials in Z and the space's variables to relations over fractions.

ghost use Rattle.std.specs.Prelude.{◌≡◌, ◌<◌, ℕ, [], length, map, take, get_or, false, All, IfOk, IfErr, IfSome, IfNone, IsTrue};
ghost use Rattle.rinv_algebra.specs.Residue.{residue_ops, is_listed};
ghost use Rattle.rinv_algebra.specs.Monomial.{total_degree};
ghost use Rattle.rinv_algebra.specs.Polynomial.{is_zero};
ghost use Rattle.rinv_defs.specs.SystemForm.{IsSystem};
ghost use Rattle.rinv_defs.specs.Extended.{Misses};
ghost use Rattle.rinv_parts.specs.Points.{ArePolynomials};
ghost use Rattle.rinv_buch.specs.Reducing.{kept_places};
ghost use Rattle.rinv_reduction.specs.Localised.{all_count, lead_in_z, IsCut};
ghost use Rattle.rinv_elim.specs.Localising.{AreLocalised, IsMissed};
ghost use Rattle.rinv_elim.specs.Stopped.{StopsAt};

use crate::coefficients::{z_coefficient, z_part};
use crate::relating::relation_of;
use crate::stop::ElimStop;
use rinv_action::{action_order, action_ring};
use rinv_buch::{kept_places, leading_term};
use rinv_frac::FracRing;
use rinv_mono::{Grevlex, Mono};
use rinv_poly::{KPoly, PolyRing};
use rinv_ring::{Gf, NoMemory};
use rinv_tails::Monic;
use rinv_text::System;
use std::alloc::Global;

/// For each leading monomial in Z that no other properly divides, the first element that has it, divided by the coefficient there.
/// Whole exactly where 1 lies in the extended ideal; no degree is too high.
pub fn localise(alloc: Global, system: &System, cut: &[KPoly]) -> Result<Monic, ElimStop>
    requires system { IsSystem system.now.system }
    requires cut { IsCut system.now.system cut.now }
    requires normal { ArePolynomials system.now.system.p (all_count system.now.system) cut.now }
    ensures localised { IfOk result (AreLocalised system.now.system cut.now) }
    ensures hits { IfOk result (λ _. ¬ (Misses system.now.system)) }
    ensures whole { IfErr result (StopsAt (λ _. Misses system.now.system) (λ _ _. ⊥)) }
    ensures element { IfErr result (StopsAt (IsMissed system.now.system cut.now) (λ _ _. ⊥)) }
{
    let leads = leads_in_z(alloc, system, cut)?;
    let missed = missed(alloc, system, cut, &leads)?;
    match missed {
        Some(element) => Err(ElimStop::Whole { element }),
        None => {
            let relations = kept_relations(alloc, system, cut, &leads)?;
            Ok(relations)
        }
    }
}

// The first element in the space's variables, as a polynomial in these.
fn missed(
    alloc: Global,
    system: &System,
    cut: &[KPoly],
    leads: &[Mono],
) -> Result<Option<KPoly>, NoMemory>
    requires system { IsSystem system.now.system }
    requires cut { IsCut system.now.system cut.now }
    requires normal { ArePolynomials system.now.system.p (all_count system.now.system) cut.now }
    requires leads { leads.now ≡ map (lead_in_z system.now.system) cut.now }
    ensures some { IfOk result (λ o. IfSome o (λ d. Misses system.now.system × IsMissed system.now.system cut.now d)) }
    ensures none { IfOk result (λ o. IfNone o (¬ (Misses system.now.system))) }
{
    let space_ring = PolyRing::new(system.field, system.space.len());
    let first = first_in_space(leads);
    match first {
        Some(place) => {
            let element = z_coefficient(alloc, system, &space_ring, &cut[place], &leads[place])?;
            Ok(Some(element))
        }
        None => Ok(None),
    }
}

// The relations of the elements that are kept.
fn kept_relations(
    alloc: Global,
    system: &System,
    cut: &[KPoly],
    leads: &[Mono],
) -> Result<Monic, NoMemory>
    requires system { IsSystem system.now.system }
    requires cut { IsCut system.now.system cut.now }
    requires normal { ArePolynomials system.now.system.p (all_count system.now.system) cut.now }
    requires leads { leads.now ≡ map (lead_in_z system.now.system) cut.now }
    ensures { IfOk result (AreLocalised system.now.system cut.now) }
{
    let space_ring = PolyRing::new(system.field, system.space.len());
    let places = kept_in_z(alloc, &space_ring, leads)?;
    let field = FracRing::new(space_ring);
    let mut relations = Vec::new(alloc);
    'places: for k in 0..places.len() {
        let place = places[k];
        let relation = relation_of(alloc, system, &field, &cut[place], &leads[place])?;
        relations.push(relation)?;
    }
    Ok(Monic { relations })
}

// The exponents of Z in the leading monomials.
fn leads_in_z(alloc: Global, system: &System, cut: &[KPoly]) -> Result<Vec<Mono>, NoMemory>
    requires system { IsSystem system.now.system }
    requires normal { ArePolynomials system.now.system.p (all_count system.now.system) cut.now }
    requires nonzero { All (λ h. is_zero (residue_ops system.now.system.p) h ≡ false) cut.now }
    ensures { IfOk result (λ r. r.items ≡ map (lead_in_z system.now.system) cut.now) }
{
    let ring = action_ring(system);
    let order = action_order(alloc, system)?;
    let mut leads = Vec::new(alloc);
    'elements: for h in cut {
        let (lead, _) = leading_term(&ring, h, &order);
        let z = z_part(alloc, system, lead)?;
        leads.push(z)?;
    }
    Ok(leads)
}

// The place of the first monomial without Z.
fn first_in_space(leads: &[Mono]) -> Option<usize>
    ensures some { IfSome result (λ k. (k < length leads.now) × (total_degree (get_or leads.now k []) ≡ 0)) }
    ensures first { IfSome result (λ k. All (λ m. 0 < total_degree m) (take k leads.now)) }
    ensures none { IfNone result (All (λ m. 0 < total_degree m) leads.now) }
{
    'leads: for place in 0..leads.len() {
        if leads[place].degree() == 0 {
            return Some(place);
        }
    }
    None
}

// The places of the monomials that no other properly divides, and of which none is the same as an earlier one.
fn kept_in_z(
    alloc: Global,
    space_ring: &PolyRing<Gf>,
    leads: &[Mono],
) -> Result<Vec<usize>, NoMemory>
    requires field { IsTrue (is_listed space_ring.now.coeffs) }
    requires vars { All (λ m. length m ≡ space_ring.now.vars) leads.now }
    ensures places { IfOk result (λ r. r.items ≡ kept_places leads.now) }
    ensures inside { IfOk result (λ r. All (λ k. k < length leads.now) r.items) }
{
    let mut monomials = Vec::with_capacity(alloc, leads.len())?;
    'each: for lead in leads {
        let _low = lead.degree(); // within the limit
        let copy = lead.copy(alloc)?;
        let terms = vec![in alloc; (copy, 1)]?;
        let made = space_ring.stored(terms)?;
        let Some(monomial) = made else { unreachable!() };
        monomials.push(monomial)?;
    }
    let places = kept_places(space_ring, alloc, &monomials, &Grevlex)?;
    Ok(places)
}
