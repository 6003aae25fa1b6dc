//! What the coefficient of a relation is: a constant, or one of the fractions.

ghost use Rattle.std.specs.Prelude.{◌≡◌, ◌<◌, length, IsTrue, IfOk, IfSome, is_some, true};
ghost use Rattle.std.specs.List.{list_all};
ghost use Rattle.rinv_algebra.specs.Residue.{residue_ops};
ghost use Rattle.rinv_algebra.specs.Polynomial.{same};
ghost use Rattle.rinv_algebra.specs.Fits.{product_fits};
ghost use Rattle.rinv_defs.specs.Certificate.{Certificate, to_constant, to_generator};
ghost use Rattle.rinv_defs.specs.RelationConditions.{is_tied_to};
ghost use Rattle.rinv_cert.specs.Seen.{tied_of};
ghost use Rattle.rinv_form.specs.Forms.{is_stored, is_stored_fraction};
ghost use Rattle.rinv_basis_check.specs.Relations.{is_tied_among};
ghost use Rattle.rinv_basis_check.specs.Whichever.{IsProduct, OfFraction, OfFractions};

use rinv_cert::Tied;
use rinv_poly::{KPoly, PolyRing};
use rinv_ring::{Gf, NoMemory, Ring, RingFault};
use std::alloc::Global;

// A product, or None where it does not fit.
fn fitting(
    alloc: Global,
    ring: &PolyRing<Gf>,
    a: &KPoly,
    b: &KPoly,
) -> Result<Option<KPoly>, NoMemory>
    requires left { IsTrue (is_stored ring.now.coeffs ring.now.vars a.now) }
    requires right { IsTrue (is_stored ring.now.coeffs ring.now.vars b.now) }
    ensures fits { IfOk result (λ o. is_some o ≡ product_fits (residue_ops ring.now.coeffs) a.now b.now) }
    ensures element { IfOk result (λ o. IfSome o (λ r. IsTrue (is_stored ring.now.coeffs ring.now.vars r))) }
    ensures value { IfOk result (λ o. IfSome o (IsProduct ring.now.coeffs a.now b.now)) }
{
    match ring.product(alloc, a, b) {
        Ok(product) => Ok(Some(product)),
        Err(RingFault::Degree { .. }) => Ok(None),
        Err(RingFault::NoMemory) => Err(NoMemory),
    }
}

// Whether two polynomials are one. Numbers modulo a prime refuse no comparison but for memory.
fn are_same(alloc: Global, ring: &PolyRing<Gf>, a: &KPoly, b: &KPoly) -> Result<bool, NoMemory>
    requires left { IsTrue (is_stored ring.now.coeffs ring.now.vars a.now) }
    requires right { IsTrue (is_stored ring.now.coeffs ring.now.vars b.now) }
    ensures { IfOk result (λ r. r ≡ same (residue_ops ring.now.coeffs) a.now b.now) }
{
    match ring.same(alloc, a, b) {
        Ok(same) => Ok(same),
        Err(_) => Err(NoMemory),
    }
}

// Whether u/d is the constant: u = v*d.
fn is_constant(
    alloc: Global,
    ring: &PolyRing<Gf>,
    d: &KPoly,
    u: &KPoly,
    v: u32,
) -> Result<bool, NoMemory>
    requires denominator { IsTrue (is_stored ring.now.coeffs ring.now.vars d.now) }
    requires numerator { IsTrue (is_stored ring.now.coeffs ring.now.vars u.now) }
    requires residue { v < ring.now.coeffs }
    ensures { (c : Certificate) → ring.now.coeffs ≡ c.system.p →
        IfOk result (λ b. b ≡ is_tied_to c d.now u.now (to_constant v)) }
{
    // Residues times residues are residues: want of memory is the only fault.
    let Ok(multiple) = ring.scale(alloc, &v, d) else {
        return Err(NoMemory);
    };
    let same = are_same(alloc, ring, u, &multiple)?;
    Ok(same)
}

// Whether u/d is the fraction N/D: u*D = d*N.
fn is_fraction(
    alloc: Global,
    ring: &PolyRing<Gf>,
    d: &KPoly,
    u: &KPoly,
    fraction: &(KPoly, KPoly),
) -> Result<bool, NoMemory>
    requires denominator { IsTrue (is_stored ring.now.coeffs ring.now.vars d.now) }
    requires numerator { IsTrue (is_stored ring.now.coeffs ring.now.vars u.now) }
    requires fraction { IsTrue (is_stored_fraction ring.now.coeffs ring.now.vars fraction.now) }
    ensures { OfFraction ring.now.coeffs fraction.now (λ c k. IfOk result (λ b. b ≡ is_tied_to c d.now u.now (to_generator k))) }
{
    let Some(left) = fitting(alloc, ring, u, &fraction.1)? else {
        return Ok(false);
    };
    let Some(right) = fitting(alloc, ring, d, &fraction.0)? else {
        return Ok(false);
    };
    let same = are_same(alloc, ring, &left, &right)?;
    Ok(same)
}

/// Whether u/d is what it is tied to.
pub(crate) fn is_tied_to(
    alloc: Global,
    ring: &PolyRing<Gf>,
    fractions: &[(KPoly, KPoly)],
    d: &KPoly,
    u: &KPoly,
    tied: &Tied,
) -> Result<bool, NoMemory>
    requires denominator { IsTrue (is_stored ring.now.coeffs ring.now.vars d.now) }
    requires numerator { IsTrue (is_stored ring.now.coeffs ring.now.vars u.now) }
    requires fractions { IsTrue (list_all (is_stored_fraction ring.now.coeffs ring.now.vars) fractions.now) }
    requires tied { is_tied_among ring.now.coeffs (length fractions.now) tied.now ≡ true }
    ensures { OfFractions ring.now.coeffs fractions.now (λ c. IfOk result (λ b. b ≡ is_tied_to c d.now u.now (tied_of tied.now))) }
{
    match tied {
        Tied::Constant { v } => {
            let is = is_constant(alloc, ring, d, u, *v)?;
            Ok(is)
        }
        Tied::Generator { k } => {
            let is = is_fraction(alloc, ring, d, u, &fractions[*k as usize - 1])?;
            Ok(is)
        }
    }
}
