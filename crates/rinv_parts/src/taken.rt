//! Polynomials taken at points: one part of what a law says of them.

ghost use Rattle.std.specs.Prelude.{◌≡◌, ◌<◌, ◌⊎◌, List, nat_lt, length, IfOk};
ghost use Rattle.std.specs.Result.{MatchResult};
ghost use Rattle.rinv_algebra.specs.Residue.{residue_ops};
ghost use Rattle.rinv_algebra.specs.Normal.{IsNormal};
ghost use Rattle.rinv_algebra.specs.Polynomial.{difference};
ghost use Rattle.rinv_ring.specs.Fault.{DegreesMeet};
ghost use Rattle.rinv_defs.specs.System.{Poly};
ghost use Rattle.rinv_parts.specs.Points.{AreCoordinates, ArePoints, ArePolynomials, AreStored, IsPoint, IsStoredIn, Points, part_number};
ghost use Rattle.rinv_parts.specs.Substitutions.{IsAgreement, IsLess, IsMade, IsValue, OneMeets, TakenMeets, taken_at};

use crate::law_points::LawPoints;
use rinv_poly::{KPoly, PolyRing};
use rinv_ring::{Gf, NoMemory, Ring, RingFault};
use rinv_sub::substitute_over_field;
use std::alloc::Global;

// The polynomial at the point.
fn value(
    alloc: Global,
    from: &PolyRing<Gf>,
    f: &KPoly,
    ring: &PolyRing<Gf>,
    point: &[KPoly],
) -> Result<KPoly, RingFault>
    requires field { from.now.coeffs ≡ ring.now.coeffs }
    requires polynomial { IsNormal (residue_ops ring.now.coeffs) (λ c. nat_lt c ring.now.coeffs) from.now.vars f.now }
    requires point { IsPoint ring.now.coeffs ring.now.vars from.now.vars point.now }
    ensures { (x : List Poly) → AreStored ring.now.coeffs ring.now.vars x point.now → MatchResult result (IsValue ring.now.coeffs ring.now.vars x f.now) (DegreesMeet (TakenMeets ring.now.coeffs ring.now.vars x f.now)) }
{
    substitute_over_field(from, alloc, f, ring, point)
}

// The difference of two polynomials.
fn difference(alloc: Global, ring: &PolyRing<Gf>, a: &KPoly, b: &KPoly) -> Result<KPoly, NoMemory>
    requires a { IsNormal (residue_ops ring.now.coeffs) (λ c. nat_lt c ring.now.coeffs) ring.now.vars a.now }
    requires b { IsNormal (residue_ops ring.now.coeffs) (λ c. nat_lt c ring.now.coeffs) ring.now.vars b.now }
    ensures { (f g : Poly) → IsStoredIn ring.now.coeffs ring.now.vars f a.now → IsStoredIn ring.now.coeffs ring.now.vars g b.now → IfOk result (IsStoredIn ring.now.coeffs ring.now.vars (difference (residue_ops ring.now.coeffs) f g)) }
{
    // Differences of numbers modulo a prime are refused for memory alone.
    let Ok(difference) = ring.sub(alloc, a, b) else {
        return Err(NoMemory);
    };
    Ok(difference)
}

// The difference of the polynomial's values at two points.
fn difference_of_values(
    alloc: Global,
    from: &PolyRing<Gf>,
    f: &KPoly,
    ring: &PolyRing<Gf>,
    first: &[KPoly],
    second: &[KPoly],
) -> Result<KPoly, RingFault>
    requires field { from.now.coeffs ≡ ring.now.coeffs }
    requires polynomial { IsNormal (residue_ops ring.now.coeffs) (λ c. nat_lt c ring.now.coeffs) from.now.vars f.now }
    requires first { IsPoint ring.now.coeffs ring.now.vars from.now.vars first.now }
    requires second { IsPoint ring.now.coeffs ring.now.vars from.now.vars second.now }
    ensures { (x y : List Poly) → AreStored ring.now.coeffs ring.now.vars x first.now → AreStored ring.now.coeffs ring.now.vars y second.now → MatchResult result (IsAgreement ring.now.coeffs ring.now.vars x y f.now) (DegreesMeet (λ m n. TakenMeets ring.now.coeffs ring.now.vars x f.now m n ⊎ TakenMeets ring.now.coeffs ring.now.vars y f.now m n)) }
{
    let left = value(alloc, from, f, ring, first)?;
    let right = value(alloc, from, f, ring, second)?;
    let part = difference(alloc, ring, &left, &right)?;
    Ok(part)
}

// The difference of the polynomial's value at a point and a polynomial.
fn difference_from(
    alloc: Global,
    from: &PolyRing<Gf>,
    f: &KPoly,
    ring: &PolyRing<Gf>,
    point: &[KPoly],
    wanted: &KPoly,
) -> Result<KPoly, RingFault>
    requires field { from.now.coeffs ≡ ring.now.coeffs }
    requires polynomial { IsNormal (residue_ops ring.now.coeffs) (λ c. nat_lt c ring.now.coeffs) from.now.vars f.now }
    requires point { IsPoint ring.now.coeffs ring.now.vars from.now.vars point.now }
    requires wanted { IsNormal (residue_ops ring.now.coeffs) (λ c. nat_lt c ring.now.coeffs) ring.now.vars wanted.now }
    ensures { (x : List Poly) (g : Poly) → AreStored ring.now.coeffs ring.now.vars x point.now → IsStoredIn ring.now.coeffs ring.now.vars g wanted.now → MatchResult result (IsLess ring.now.coeffs ring.now.vars x f.now g) (DegreesMeet (TakenMeets ring.now.coeffs ring.now.vars x f.now)) }
{
    let value = value(alloc, from, f, ring, point)?;
    let part = difference(alloc, ring, &value, wanted)?;
    Ok(part)
}

/// The part at a place of what is said of the polynomials.
pub(crate) fn made_at(
    alloc: Global,
    from: &PolyRing<Gf>,
    fs: &[KPoly],
    ring: &PolyRing<Gf>,
    points: &LawPoints,
    place: usize,
) -> Result<KPoly, RingFault>
    requires field { from.now.coeffs ≡ ring.now.coeffs }
    requires polynomials { ArePolynomials ring.now.coeffs from.now.vars fs.now }
    requires points { AreCoordinates ring.now.coeffs ring.now.vars from.now.vars (length fs.now) points.now }
    requires inside { place < part_number (length fs.now) points.now }
    ensures { (x : Points) → ArePoints ring.now.coeffs ring.now.vars x points.now → MatchResult result (IsMade ring.now.coeffs ring.now.vars fs.now x place) (DegreesMeet (OneMeets ring.now.coeffs ring.now.vars (taken_at fs.now x place))) }
{
    let count = fs.len();
    match points {
        LawPoints::Vanish(point) => value(alloc, from, &fs[place], ring, point),
        LawPoints::Agree(first, second) => {
            difference_of_values(alloc, from, &fs[place], ring, first, second)
        }
        LawPoints::Give(point, values) => {
            difference_from(alloc, from, &fs[place], ring, point, &values[place])
        }
        LawPoints::GiveBoth(first, second, values) => {
            if place < count {
                difference_from(alloc, from, &fs[place], ring, first, &values[place])
            } else {
                let k = place - count;
                difference_from(alloc, from, &fs[k], ring, second, &values[k])
            }
        }
    }
}
