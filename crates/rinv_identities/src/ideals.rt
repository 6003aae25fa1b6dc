//! The generators of the group's ideal, in copies of the group's variables, among further ones.

ghost use Rattle.std.specs.Prelude.{◌≡◌, ◌+◌, ◌*◌, ◌≤◌, IfOk};
ghost use Rattle.rinv_parts.specs.Points.{ArePolynomials, AreStored};
ghost use Rattle.rinv_identities.specs.Stored.{AddsPast, AreCopiesStored};

use rinv_poly::{KPoly, PolyRing};
use rinv_ring::{Gf, NoMemory};
use rinv_sub::widened;
use std::alloc::Global;

// Adds the polynomials, past the first `place` of the ring's variables, to others.
fn add_copy(
    alloc: Global,
    from: &PolyRing<Gf>,
    fs: &[KPoly],
    to: &PolyRing<Gf>,
    place: u32,
    copies: &mut Vec<KPoly>,
) -> Result<(), NoMemory>
    requires field { from.now.coeffs ≡ to.now.coeffs }
    requires inside { place + from.now.vars ≤ to.now.vars }
    requires polynomials { ArePolynomials to.now.coeffs from.now.vars fs.now }
    ensures { AddsPast result to.now.coeffs to.now.vars place fs.now copies.old.items copies.new.items }
{
    let _vars = to.vars();
    let behind = PolyRing::new(*to.coeffs(), place + from.vars());
    'polynomials: for k in 0..fs.len() {
        let moved = from.behind(alloc, place, &fs[k], &behind)?;
        let wide = widened(&behind, alloc, &moved, to)?;
        copies.push(wide)?;
    }
    Ok(())
}

/// The polynomials in so many copies of their variables, one after the other, in the ring `to`.
pub fn copied_ideal(
    alloc: Global,
    from: &PolyRing<Gf>,
    fs: &[KPoly],
    to: &PolyRing<Gf>,
    count: u32,
) -> Result<Vec<KPoly>, NoMemory>
    requires field { from.now.coeffs ≡ to.now.coeffs }
    requires inside { count * from.now.vars ≤ to.now.vars }
    requires polynomials { ArePolynomials to.now.coeffs from.now.vars fs.now }
    ensures { IfOk result (λ r. AreCopiesStored to.now.coeffs to.now.vars from.now.vars count fs.now r.items) }
{
    let _vars = to.vars();
    let mut copies = Vec::new(alloc);
    'copies: for j in 0..count {
        add_copy(alloc, from, fs, to, j * from.vars(), &mut copies)?;
    }
    Ok(copies)
}

/// The polynomials in the ring `to`, which has their variables and then others.
pub fn widened_ideal(
    alloc: Global,
    from: &PolyRing<Gf>,
    fs: &[KPoly],
    to: &PolyRing<Gf>,
) -> Result<Vec<KPoly>, NoMemory>
    requires field { from.now.coeffs ≡ to.now.coeffs }
    requires more { from.now.vars ≤ to.now.vars }
    requires polynomials { ArePolynomials to.now.coeffs from.now.vars fs.now }
    ensures { IfOk result (λ r. AreStored to.now.coeffs to.now.vars fs.now r.items) }
{
    let mut wide = Vec::new(alloc);
    'polynomials: for k in 0..fs.len() {
        let f = widened(from, alloc, &fs[k], to)?;
        wide.push(f)?;
    }
    Ok(wide)
}
