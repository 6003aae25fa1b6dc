//! The reduced Gröbner basis: elements whose leading monomials no other divides, each divided by the others and made monic.

ghost use Rattle.std.specs.Prelude.{◌≡◌, ◌<◌, ◌≤◌, ℕ, List, ◌∷◌, length, take, drop, false, All, IfOk, IfErr, OnOk};
ghost use Rattle.std.specs.List.Sorted.{IsPermutation};
ghost use Rattle.rinv_algebra.specs.Polynomial.{is_zero};
ghost use Rattle.rinv_groebner.specs.Reduced.{IsMonicOf, Ascend};
ghost use Rattle.rinv_buch.specs.Reducing.{is_kept_place, AreKept, AreKeptPlaces, AscendBy, IsNoLead, IsReducedFor, LeadIsNew, LeadsAbove, LeadsAreApart, LeadsBelow, MadeAt, MakingTooHigh, MonicTooHigh, ReducingTooHigh, StandKept};
ghost use Rattle.rinv_poly.specs.Polynomials.{AreOf, IsOf};
ghost use Rattle.rinv_div.specs.Polynomials.{NoneIsZero};
ghost use Rattle.rinv_buch.specs.Bases.{IsBasisFor};
ghost use Rattle.rinv_buch.specs.Elements.{PreparedFor};

use crate::elements::Elements;
use crate::kinds::Basis;
use crate::s_polynomial::leading_term;
use rinv_div::{Divisors, remainder_wholly};
use rinv_mono::{Mono, MonoOrder};
use rinv_poly::{Poly, PolyRing};
use rinv_ring::{Field, NoMemory, Ring, RingFault};
use std::alloc::Global;
use std::cmp::Ordering;

/// The reduced Gröbner basis of the ideal of a Gröbner basis without zero, with ascending leading monomials. Degree comes only where
/// these degrees are met as a kept element is divided by the others, or as what this leaves is made monic.
pub fn interreduce<F: Field, O: MonoOrder>(
    ring: &PolyRing<F>,
    alloc: Global,
    basis: &Basis<F>,
    order: &O,
) -> Result<Vec<Poly<F>>, RingFault>
    requires polys { AreOf F.ops F.is_element ring.now basis.now.polys }
    requires nonzero { NoneIsZero F.ops ring.now basis.now.polys }
    requires groebner { IsBasisFor F.ops O.cmp ring.now order.now basis.now.polys basis.now }
    requires suits { O.fits order.now ring.now.vars }
    ensures reduced { IfOk result (IsReducedFor F.ops O.cmp ring.now order.now basis.now.polys) }
    ensures ascending { IfOk result (AscendBy F.ops O.cmp ring.now order.now) }
    ensures normal { IfOk result (λ gs. AreOf F.ops F.is_element ring.now gs.items) }
    ensures degree { IfErr result (ReducingTooHigh F.ops F.is_element F.too_high O.cmp ring.now order.now basis.now.polys) }
{
    let mut kept = kept_elements(ring, alloc, &basis.polys, order)?;
    let mut made = Vec::with_capacity(alloc, kept.polys.len())?;
    'places: for place in 0..kept.polys.len() {
        let element = made_at(ring, alloc, &mut kept, place, order)?;
        insert(ring, element, order, &mut made)?;
    }
    Ok(made)
}

/// The places of the elements that are kept: no leading monomial properly divides theirs, and no earlier element has the same one.
pub fn kept_places<F: Field, O: MonoOrder>(
    ring: &PolyRing<F>,
    alloc: Global,
    polys: &[Poly<F>],
    order: &O,
) -> Result<Vec<usize>, NoMemory>
    requires polys { AreOf F.ops F.is_element ring.now polys.now }
    requires nonzero { NoneIsZero F.ops ring.now polys.now }
    requires suits { O.fits order.now ring.now.vars }
    ensures places { IfOk result (AreKeptPlaces F.ops O.cmp ring.now order.now polys.now) }
    ensures inside { IfOk result (λ ks. All (λ k. k < length polys.now) ks.items) }
    ensures kept { IfOk result (StandKept F.ops O.cmp ring.now order.now polys.now) }
{
    let mut leads = Vec::with_capacity(alloc, polys.len())?;
    for h in polys {
        let (lead, _) = leading_term(ring, h, order);
        leads.push(lead.copy(alloc)?)?;
    }
    let mut places = Vec::new(alloc);
    'elements: for place in 0..polys.len() {
        if is_kept(&leads, place) {
            places.push(place)?;
        }
    }
    Ok(places)
}

// Copies of the elements that are kept.
fn kept_elements<F: Field, O: MonoOrder>(
    ring: &PolyRing<F>,
    alloc: Global,
    polys: &[Poly<F>],
    order: &O,
) -> Result<Elements<F>, NoMemory>
    requires polys { AreOf F.ops F.is_element ring.now polys.now }
    requires nonzero { NoneIsZero F.ops ring.now polys.now }
    requires suits { O.fits order.now ring.now.vars }
    ensures prepared { IfOk result (PreparedFor F.ops F.is_element O.cmp ring.now order.now) }
    ensures kept { IfOk result (AreKept F.ops O.cmp ring.now order.now polys.now) }
{
    let places = kept_places(ring, alloc, polys, order)?;
    let mut kept = Elements::new(alloc);
    'places: for k in 0..places.len() {
        let copy = ring.copy(alloc, &polys[places[k]])?;
        kept.push(ring, alloc, copy, order)?;
    }
    Ok(kept)
}

// Whether no monomial properly divides the one at the place, and no earlier one is the same.
fn is_kept(monomials: &[Mono], place: usize) -> bool
    requires inside { place < length monomials.now }
    requires vars { (v : ℕ) × All (λ m. length m ≡ v) monomials.now }
    ensures { result ≡ is_kept_place monomials.now place }
{
    let mono = &monomials[place];
    'others: for k in 0..monomials.len() {
        let other = &monomials[k];
        if other.divides(mono) && (k < place || !mono.divides(other)) {
            return false;
        }
    }
    true
}

// What division of the element at the place by the others leaves, made monic.
fn made_at<F: Field, O: MonoOrder>(
    ring: &PolyRing<F>,
    alloc: Global,
    elements: &mut Elements<F>,
    place: usize,
    order: &O,
) -> Result<Poly<F>, RingFault>
    requires prepared { PreparedFor F.ops F.is_element O.cmp ring.now order.now elements.old }
    requires inside { place < length elements.old.polys.items }
    requires apart { LeadsAreApart F.ops O.cmp ring.now order.now elements.old }
    requires suits { O.fits order.now ring.now.vars }
    ensures prepared { OnOk result (PreparedFor F.ops F.is_element O.cmp ring.now order.now elements.new) }
    ensures same { OnOk result (elements.new.polys.items ≡ elements.old.polys.items) }
    ensures normal { IfOk result (IsOf F.ops F.is_element ring.now) }
    ensures made { IfOk result (MadeAt F.ops O.cmp ring.now order.now elements.old place) }
    ensures degree { IfErr result (MakingTooHigh F.ops F.is_element F.too_high O.cmp ring.now order.now elements.old place) }
{
    let element = elements.polys.remove(place);
    let divisor = elements.divisors.remove(place);
    let (polys, divisors) = (&elements.polys, &elements.divisors);
    let rest = remainder_wholly(ring, alloc, &element, polys, divisors, order)?;
    elements.polys.insert(place, element)?;
    elements.divisors.insert(place, divisor)?;
    let made = monic(ring, alloc, &rest, order)?;
    Ok(made)
}

// The polynomial times the inverse of its leading coefficient.
fn monic<F: Field, O: MonoOrder>(
    ring: &PolyRing<F>,
    alloc: Global,
    f: &Poly<F>,
    order: &O,
) -> Result<Poly<F>, RingFault>
    requires polynomial { IsOf F.ops F.is_element ring.now f.now }
    requires nonzero { is_zero (F.ops ring.now.coeffs) f.now ≡ false }
    requires suits { O.fits order.now ring.now.vars }
    ensures normal { IfOk result (IsOf F.ops F.is_element ring.now) }
    ensures monic { IfOk result (IsMonicOf (F.ops ring.now.coeffs) (O.cmp order.now) f.now) }
    ensures degree { IfErr result (MonicTooHigh F.ops F.is_element F.too_high O.cmp ring.now order.now f.now) }
{
    let (_, c) = leading_term(ring, f, order);
    let Some(inverse) = ring.coeffs().inverse(alloc, c)? else {
        unreachable!()
    };
    let monic = ring.scale(alloc, &inverse, f)?;
    Ok(monic)
}

// Puts an element into a list with ascending leading monomials, none of which is its own.
fn insert<F: Field, O: MonoOrder>(
    ring: &PolyRing<F>,
    element: Poly<F>,
    order: &O,
    list: &mut Vec<Poly<F>>,
) -> Result<(), NoMemory>
    requires list { AreOf F.ops F.is_element ring.now list.old.items }
    requires nonzero { NoneIsZero F.ops ring.now list.old.items }
    requires element { IsOf F.ops F.is_element ring.now element }
    requires element_nonzero { is_zero (F.ops ring.now.coeffs) element ≡ false }
    requires ascending { AscendBy F.ops O.cmp ring.now order.now list.old }
    requires new { LeadIsNew F.ops O.cmp ring.now order.now element list.old.items }
    requires suits { O.fits order.now ring.now.vars }
    ensures ascending { OnOk result (AscendBy F.ops O.cmp ring.now order.now list.new) }
    ensures same { OnOk result (IsPermutation (element ∷ list.old.items) list.new.items) }
{
    let (lead, _) = leading_term(ring, &element, order);
    let place = place_of(ring, lead, order, list);
    list.insert(place, element)?;
    Ok(())
}

// The place of a monomial among ascending leading monomials, none of which is it.
fn place_of<F: Field, O: MonoOrder>(
    ring: &PolyRing<F>,
    mono: &Mono,
    order: &O,
    list: &[Poly<F>],
) -> usize
    requires vars { length mono.now ≡ ring.now.vars }
    requires list { AreOf F.ops F.is_element ring.now list.now }
    requires nonzero { NoneIsZero F.ops ring.now list.now }
    requires ascending { Ascend (F.ops ring.now.coeffs) (O.cmp order.now) list.now }
    requires new { IsNoLead F.ops O.cmp ring.now order.now mono.now list.now }
    requires suits { O.fits order.now ring.now.vars }
    ensures inside { result ≤ length list.now }
    ensures before { LeadsBelow F.ops O.cmp ring.now order.now mono.now (take result list.now) }
    ensures after { LeadsAbove F.ops O.cmp ring.now order.now mono.now (drop result list.now) }
{
    'places: for place in 0..list.len() {
        let (other, _) = leading_term(ring, &list[place], order);
        if order.compare(mono, other) == Ordering::Less {
            return place;
        }
    }
    list.len()
}
