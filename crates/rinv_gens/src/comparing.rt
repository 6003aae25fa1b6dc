//! Whether two fractions have the same value.

ghost use Rattle.std.specs.Prelude.{◌≡◌, true, false, length, nat_lt, IsFalse, IfOk, IfErr};
ghost use Rattle.rinv_algebra.specs.Monomial.{monomial_product, same_monomial};
ghost use Rattle.rinv_algebra.specs.Polynomial.{is_zero, same};
ghost use Rattle.rinv_algebra.specs.Leading.{leading_monomial};
ghost use Rattle.rinv_algebra.specs.Order.{grevlex};
ghost use Rattle.rinv_algebra.specs.Residue.{residue_ops};
ghost use Rattle.rinv_defs.specs.Generators.{rational_ops};
ghost use Rattle.rinv_ring.specs.Fault.{DegreesMeet};
ghost use Rattle.rinv_frac.specs.Fractions.{IsPart, IsStored};
ghost use Rattle.rinv_gens.specs.Numbering.{ComparisonMeets};

use rinv_buch::leading_term;
use rinv_frac::{Frac, FracRing};
use rinv_mono::{Grevlex, Mono};
use rinv_poly::{KPoly, PolyRing};
use rinv_ring::{Gf, NoMemory, Ring, RingFault};
use std::alloc::Global;

/// Whether the two have the same value. Leading monomials tell most values apart, and equal parts show most equal ones: only where they
/// don't are the products compared.
pub(crate) fn have_same_value(
    field: &FracRing,
    alloc: Global,
    a: &Frac,
    b: &Frac,
) -> Result<bool, RingFault>
    requires left { IsStored field.now.base.coeffs field.now.base.vars a.now }
    requires right { IsStored field.now.base.coeffs field.now.base.vars b.now }
    ensures value { IfOk result (λ r. r ≡ (rational_ops field.now.base.coeffs).same a.now b.now) }
    ensures degree { IfErr result (DegreesMeet (ComparisonMeets field.now.base.coeffs a.now b.now)) }
{
    if are_apart(field, a, b) {
        return Ok(false);
    }
    let one_pair = are_one_pair(field, alloc, a, b)?;
    if one_pair {
        return Ok(true);
    }
    let same = field.same(alloc, a, b)?;
    Ok(same)
}

// Whether the two products, of each numerator and the other denominator, have different leading monomials.
fn are_apart(field: &FracRing, a: &Frac, b: &Frac) -> bool
    requires left { IsStored field.now.base.coeffs field.now.base.vars a.now }
    requires right { IsStored field.now.base.coeffs field.now.base.vars b.now }
    ensures { result ≡ true → (rational_ops field.now.base.coeffs).same a.now b.now ≡ false }
{
    if field.is_zero(a) || field.is_zero(b) {
        return false;
    }
    let ring = field.base();
    let n = lead(ring, field.num(a));
    let d = lead(ring, field.den(a));
    let m = lead(ring, field.num(b));
    let e = lead(ring, field.den(b));
    are_products_apart(n, e, m, d)
}

// The leading monomial of a polynomial that is not zero.
fn lead<'a>(ring: &PolyRing<Gf>, f: &'a KPoly) -> &'a Mono
    requires polynomial { IsPart ring.now.coeffs ring.now.vars f.now }
    requires nonzero { is_zero (residue_ops ring.now.coeffs) f.now ≡ false }
    ensures monomial { result.now ≡ leading_monomial (residue_ops ring.now.coeffs) grevlex f.now }
    ensures vars { length result.now ≡ ring.now.vars }
{
    let (lead, _) = leading_term(ring, f, &Grevlex);
    lead
}

// Whether the products of the first two monomials and of the last two are different.
fn are_products_apart(a: &Mono, b: &Mono, c: &Mono, d: &Mono) -> bool
    requires second { length b.now ≡ length a.now }
    requires third { length c.now ≡ length a.now }
    requires fourth { length d.now ≡ length a.now }
    ensures { result ≡ true → same_monomial (monomial_product a.now b.now) (monomial_product c.now d.now) ≡ false }
{
    'variables: for k in 0..a.vars() {
        let first = u64::from(a.exponent(k)) + u64::from(b.exponent(k));
        let second = u64::from(c.exponent(k)) + u64::from(d.exponent(k));
        if first != second {
            return true;
        }
    }
    false
}

// Whether the two have the same numerator and the same denominator.
fn are_one_pair(field: &FracRing, alloc: Global, a: &Frac, b: &Frac) -> Result<bool, NoMemory>
    requires left { IsStored field.now.base.coeffs field.now.base.vars a.now }
    requires right { IsStored field.now.base.coeffs field.now.base.vars b.now }
    ensures { IfOk result (λ r. r ≡ true → (rational_ops field.now.base.coeffs).same a.now b.now ≡ true) }
{
    let numerators = are_same(field.base(), alloc, field.num(a), field.num(b))?;
    if numerators {
        let denominators = are_same(field.base(), alloc, field.den(a), field.den(b))?;
        return Ok(denominators);
    }
    Ok(false)
}

/// Whether two polynomials are the same.
pub(crate) fn are_same(
    ring: &PolyRing<Gf>,
    alloc: Global,
    a: &KPoly,
    b: &KPoly,
) -> Result<bool, NoMemory>
    requires left { IsPart ring.now.coeffs ring.now.vars a.now }
    requires right { IsPart ring.now.coeffs ring.now.vars b.now }
    ensures { IfOk result (λ r. r ≡ same (residue_ops ring.now.coeffs) a.now b.now) }
{
    // Comparisons of numbers modulo a prime are refused for memory alone.
    let Ok(same) = ring.same(alloc, a, b) else {
        return Err(NoMemory);
    };
    Ok(same)
}
