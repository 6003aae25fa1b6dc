//! Polynomials in copies of the group's variables, and the kept elements of the group's basis there, ready for division.

ghost use Rattle.std.specs.Prelude.{◌≡◌, ◌+◌, ◌*◌, ◌≤◌, ◌<◌, ◌++◌, false, length, All, IfOk};
ghost use Rattle.rinv_algebra.specs.Residue.{residue_ops};
ghost use Rattle.rinv_algebra.specs.Polynomial.{is_zero};
ghost use Rattle.rinv_parts.specs.Points.{ArePolynomials};
ghost use Rattle.rinv_poly.specs.Polynomials.{IsPolynomial};
ghost use Rattle.rinv_laws.specs.Lists.{IsPast, ArePastAt, AreCopies};
ghost use Rattle.rinv_laws.specs.Ready.{HasDivisors};

use rinv_div::{Divisors, divisors_of};
use rinv_mono::Grevlex;
use rinv_poly::{KPoly, PolyRing};
use rinv_ring::{Gf, NoMemory};
use rinv_sub::widened;
use std::alloc::Global;

/// Polynomials, and the divisors made of them.
#[derive(Drop)]
pub(crate) struct CopiedBasis {
    pub(crate) polys: Vec<KPoly>,
    pub(crate) divisors: Divisors<Gf>,
}

// The polynomials of a list, and then those of another.
pub(crate) fn appended(first: Vec<KPoly>, second: Vec<KPoly>) -> Result<Vec<KPoly>, NoMemory>
    ensures { IfOk result (λ r. r.items ≡ first.items ++ second.items) }
{
    let mut whole = first;
    let mut rest = second;
    whole.append(&mut rest)?;
    Ok(whole)
}

// The polynomial in a copy of its variables, counted from 0, in the ring of a law.
pub(crate) fn in_copy(
    alloc: Global,
    from: &PolyRing<Gf>,
    f: &KPoly,
    ring: &PolyRing<Gf>,
    copy: u32,
) -> Result<KPoly, NoMemory>
    requires field { from.now.coeffs ≡ ring.now.coeffs }
    requires inside { copy * from.now.vars + from.now.vars ≤ ring.now.vars }
    requires polynomial { IsPolynomial from.now.coeffs from.now.vars f.now }
    ensures normal { IfOk result (λ r. IsPolynomial ring.now.coeffs ring.now.vars r) }
    ensures value { IfOk result (IsPast ring.now.coeffs (copy * from.now.vars) f.now) }
{
    let _vars = ring.vars();
    let before = copy * from.vars();
    let through = PolyRing::new(*ring.coeffs(), before + from.vars());
    let moved = from.behind(alloc, before, f, &through)?;
    // Sums of numbers modulo a prime are refused for memory alone.
    let Ok(element) = widened(&through, alloc, &moved, ring) else {
        return Err(NoMemory);
    };
    Ok(element)
}

// The polynomials at the places in a copy of their variables.
fn chosen_in_copy(
    alloc: Global,
    from: &PolyRing<Gf>,
    polys: &[KPoly],
    places: &[usize],
    ring: &PolyRing<Gf>,
    copy: u32,
) -> Result<Vec<KPoly>, NoMemory>
    requires field { from.now.coeffs ≡ ring.now.coeffs }
    requires inside { copy * from.now.vars + from.now.vars ≤ ring.now.vars }
    requires polynomials { ArePolynomials from.now.coeffs from.now.vars polys.now }
    requires places { All (λ k. k < length polys.now) places.now }
    ensures normal { IfOk result (λ r. ArePolynomials ring.now.coeffs ring.now.vars r.items) }
    ensures value { IfOk result (ArePastAt ring.now.coeffs (copy * from.now.vars) polys.now places.now) }
{
    let mut list = Vec::new(alloc);
    'places: for k in 0..places.len() {
        let place = places[k];
        let element = in_copy(alloc, from, &polys[place], ring, copy)?;
        list.push(element)?;
    }
    Ok(list)
}

// The polynomials at the places in each of the first copies of their variables, copy after copy.
fn chosen_in_copies(
    alloc: Global,
    from: &PolyRing<Gf>,
    polys: &[KPoly],
    places: &[usize],
    ring: &PolyRing<Gf>,
    copies: u32,
) -> Result<Vec<KPoly>, NoMemory>
    requires field { from.now.coeffs ≡ ring.now.coeffs }
    requires inside { copies * from.now.vars ≤ ring.now.vars }
    requires polynomials { ArePolynomials from.now.coeffs from.now.vars polys.now }
    requires places { All (λ k. k < length polys.now) places.now }
    ensures normal { IfOk result (λ r. ArePolynomials ring.now.coeffs ring.now.vars r.items) }
    ensures value { IfOk result (AreCopies ring.now.coeffs copies from.now.vars polys.now places.now) }
{
    let mut list = Vec::new(alloc);
    'copies: for copy in 0..copies {
        let next = chosen_in_copy(alloc, from, polys, places, ring, copy)?;
        list = appended(list, next)?;
    }
    Ok(list)
}

// The polynomials at the places in each of the first copies of their variables, copy after copy, with the divisors made of them.
pub(crate) fn copied_basis(
    alloc: Global,
    from: &PolyRing<Gf>,
    polys: &[KPoly],
    places: &[usize],
    ring: &PolyRing<Gf>,
    copies: u32,
) -> Result<CopiedBasis, NoMemory>
    requires field { from.now.coeffs ≡ ring.now.coeffs }
    requires inside { copies * from.now.vars ≤ ring.now.vars }
    requires polynomials { ArePolynomials from.now.coeffs from.now.vars polys.now }
    requires nonzero { All (λ h. is_zero (residue_ops from.now.coeffs) h ≡ false) polys.now }
    requires places { All (λ k. k < length polys.now) places.now }
    ensures normal { IfOk result (λ b. ArePolynomials ring.now.coeffs ring.now.vars b.polys.items) }
    ensures value { IfOk result (λ b. AreCopies ring.now.coeffs copies from.now.vars polys.now places.now b.polys) }
    ensures divisors { IfOk result (λ b. HasDivisors ring.now.coeffs ring.now.vars b) }
{
    let elements = chosen_in_copies(alloc, from, polys, places, ring, copies)?;
    let divisors = divisors_of(ring, alloc, &elements, &Grevlex)?;
    Ok(CopiedBasis {
        polys: elements,
        divisors,
    })
}
