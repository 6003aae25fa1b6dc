//! The kept elements of the group's basis, in the group's and then the space's variables.

ghost use Rattle.std.specs.Prelude.{◌≡◌, ◌<◌, ◌≤◌, [], map, length, get_or, false, All, IfOk};
ghost use Rattle.rinv_algebra.specs.Residue.{residue_ops};
ghost use Rattle.rinv_algebra.specs.Polynomial.{is_zero};
ghost use Rattle.rinv_groebner.specs.Division.{AreSame};
ghost use Rattle.rinv_laws.specs.Group.{IsGroupBasis};
ghost use Rattle.rinv_parts.specs.Points.{ArePolynomials};
ghost use Rattle.rinv_change.specs.Asked.{IsChangeRing, IsKeptBasis};
ghost use Rattle.rinv_change.specs.Changing.{AreDivisorsOf};

use rinv_buch::kept_places;
use rinv_div::{Divisors, divisors_of};
use rinv_laws::GroupBasis;
use rinv_mono::Grevlex;
use rinv_poly::{KPoly, PolyRing};
use rinv_ring::{Gf, NoMemory};
use rinv_sub::widened;
use rinv_text::System;
use std::alloc::Global;

/// Polynomials, and the divisors made of them.
#[derive(Drop)]
pub struct KeptBasis {
    pub polys: Vec<KPoly>,
    pub divisors: Divisors<Gf>,
}

// The polynomials at the places, in further variables.
fn chosen(
    alloc: Global,
    from: &PolyRing<Gf>,
    polys: &[KPoly],
    places: &[usize],
    ring: &PolyRing<Gf>,
) -> Result<Vec<KPoly>, NoMemory>
    requires field { from.now.coeffs ≡ ring.now.coeffs }
    requires more { from.now.vars ≤ ring.now.vars }
    requires polynomials { ArePolynomials from.now.coeffs from.now.vars polys.now }
    requires places { All (λ k. k < length polys.now) places.now }
    ensures normal { IfOk result (λ r. ArePolynomials ring.now.coeffs ring.now.vars r.items) }
    ensures value { IfOk result (λ r. AreSame (residue_ops ring.now.coeffs) r.items (map (λ k. get_or polys.now k []) places.now)) }
{
    let mut list = Vec::new(alloc);
    'places: for k in 0..places.len() {
        let place = places[k];
        let element = widened(from, alloc, &polys[place], ring)?;
        list.push(element)?;
    }
    Ok(list)
}

// The same, with the divisors made of them.
fn chosen_basis(
    alloc: Global,
    from: &PolyRing<Gf>,
    polys: &[KPoly],
    places: &[usize],
    ring: &PolyRing<Gf>,
) -> Result<KeptBasis, NoMemory>
    requires field { from.now.coeffs ≡ ring.now.coeffs }
    requires more { from.now.vars ≤ ring.now.vars }
    requires polynomials { ArePolynomials from.now.coeffs from.now.vars polys.now }
    requires nonzero { All (λ h. is_zero (residue_ops from.now.coeffs) h ≡ false) polys.now }
    requires places { All (λ k. k < length polys.now) places.now }
    ensures normal { IfOk result (λ b. ArePolynomials ring.now.coeffs ring.now.vars b.polys.items) }
    ensures value { IfOk result (λ b. AreSame (residue_ops ring.now.coeffs) b.polys.items (map (λ k. get_or polys.now k []) places.now)) }
    ensures divisors { IfOk result (λ b. AreDivisorsOf ring.now.coeffs ring.now.vars b.polys.items b.divisors.list.items) }
{
    let elements = chosen(alloc, from, polys, places, ring)?;
    let divisors = divisors_of(ring, alloc, &elements, &Grevlex)?;
    Ok(KeptBasis {
        polys: elements,
        divisors,
    })
}

/// The kept elements of the group's basis in the ring of changes, ready for division.
pub fn kept_basis(
    alloc: Global,
    system: &System,
    group: &GroupBasis,
    ring: &PolyRing<Gf>,
) -> Result<KeptBasis, NoMemory>
    requires ring { IsChangeRing system.now.system ring.now.coeffs ring.now.vars }
    requires group { IsGroupBasis system.now.system group.now.basis group.now.reduced.items }
    ensures { IfOk result (IsKeptBasis system.now.system group.now.basis) }
{
    let from = PolyRing::new(system.field, system.group.len());
    let places = kept_places(&from, alloc, &group.basis.polys, &Grevlex)?;
    let basis = chosen_basis(alloc, &from, &group.basis.polys, &places, ring)?;
    Ok(basis)
}
