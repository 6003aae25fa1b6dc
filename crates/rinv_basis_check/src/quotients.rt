//! An S-polynomial that reduces to zero, as its quotients show.

ghost use Rattle.std.specs.Prelude.{◌≡◌, ◌<◌, ◌+◌, [], length, zip, IsTrue, IfOk, IfSome, is_some, false, true, get_or};
ghost use Rattle.std.specs.List.{list_all};
ghost use Rattle.rinv_algebra.specs.Residue.{residue_ops};
ghost use Rattle.rinv_algebra.specs.Monomial.{lcm};
ghost use Rattle.rinv_algebra.specs.Polynomial.{is_zero};
ghost use Rattle.rinv_algebra.specs.Leading.{multiplier};
ghost use Rattle.rinv_algebra.specs.Fits.{product_fits, combination_fits};
ghost use Rattle.rinv_defs.specs.Conditions.{elements};
ghost use Rattle.rinv_defs.specs.Certificate.{Certificate};
ghost use Rattle.rinv_defs.specs.PairConditions.{element, reduces_to_zero, stays_below};
ghost use Rattle.rinv_form.specs.Forms.{is_stored, are_stored};
ghost use Rattle.rinv_basis_check.specs.Bases.{IsBasisOf};
ghost use Rattle.rinv_basis_check.specs.Multiples.{multiple_fits, IsMultiple};
ghost use Rattle.rinv_basis_check.specs.Whichever.{InBasis};

use crate::basis::Basis;
use crate::elements::lead_of;
use rinv_identities::multiplies_out;
use rinv_mono::{Mono, MonoFault, MonoOrder};
use rinv_poly::KPoly;
use rinv_ring::{NoMemory, Ring, RingFault};
use std::alloc::Global;
use std::cmp::Ordering;

// The element at place `f` times the multiplier that brings its leading term to that of the pair; None where the product does not fit.
fn multiple(
    alloc: Global,
    basis: &Basis,
    common: &Mono,
    f: usize,
    g: usize,
) -> Result<Option<KPoly>, NoMemory>
    requires first { f < length basis.now.elements.items }
    requires second { g < length basis.now.elements.items }
    requires common { common.now ≡ lcm (get_or basis.now.leads.items f []) (get_or basis.now.leads.items g []) }
    ensures fits { (c : Certificate) → IsBasisOf c basis.now →
        IfOk result (λ o. is_some o ≡ multiple_fits c (f + 1) (g + 1)) }
    ensures element { IfOk result (λ o. IfSome o (λ r. IsTrue (is_stored basis.now.ring.coeffs basis.now.ring.vars r))) }
    ensures value { (c : Certificate) → IsBasisOf c basis.now →
        IfOk result (λ o. IfSome o (IsMultiple c (f + 1) (g + 1))) }
{
    let ring = &basis.ring;
    let mono = common.quotient(alloc, &basis.leads[f])?;
    // Its degree is within the limit.
    let _degree = mono.degree();
    let Some(place) = ring.lead(&basis.elements[g], &basis.order) else {
        unreachable!()
    };
    let c = *ring.coeff(&basis.elements[g], place);
    let terms = vec![in alloc; (mono, c)]?;
    let term = ring.from_distinct(terms)?;
    match ring.product(alloc, &term, &basis.elements[f]) {
        Ok(product) => Ok(Some(product)),
        Err(RingFault::Degree { .. }) => Ok(None),
        Err(RingFault::NoMemory) => Err(NoMemory),
    }
}

// Whether a quotient times its element stays below a monomial. Their degrees add up within the limit, since their product fits.
fn stays_below(
    alloc: Global,
    basis: &Basis,
    common: &Mono,
    quotient: &KPoly,
    place: usize,
) -> Result<bool, NoMemory>
    requires inside { place < length basis.now.elements.items }
    requires quotient { IsTrue (is_stored basis.now.ring.coeffs basis.now.ring.vars quotient.now) }
    requires common { length common.now ≡ basis.now.ring.vars }
    requires fits { product_fits (residue_ops basis.now.ring.coeffs) quotient.now (get_or basis.now.elements.items place []) ≡ true }
    ensures { InBasis basis.now (λ c. IfOk result (λ b. b ≡ stays_below c.system common.now (quotient.now, element c (place + 1)))) }
{
    let ring = &basis.ring;
    if ring.is_zero(quotient) {
        return Ok(true);
    }
    let lead = lead_of(ring, &basis.order, quotient);
    match lead.product(alloc, &basis.leads[place]) {
        Ok(product) => Ok(basis.order.compare(&product, common) == Ordering::Less),
        Err(MonoFault::NoMemory) => Err(NoMemory),
        Err(MonoFault::Degree { .. }) => unreachable!(),
    }
}

// Whether each quotient does.
fn all_stay_below(
    alloc: Global,
    basis: &Basis,
    common: &Mono,
    quotients: &[KPoly],
) -> Result<bool, NoMemory>
    requires many { length quotients.now ≡ length basis.now.elements.items }
    requires quotients { IsTrue (list_all (is_stored basis.now.ring.coeffs basis.now.ring.vars) quotients.now) }
    requires common { length common.now ≡ basis.now.ring.vars }
    requires fits { combination_fits (residue_ops basis.now.ring.coeffs) quotients.now basis.now.elements.items ≡ true }
    ensures { InBasis basis.now (λ c. IfOk result (λ b. b ≡ list_all (stays_below c.system common.now) (zip quotients.now (elements c)))) }
{
    'quotients: for k in 0..quotients.len() {
        if !stays_below(alloc, basis, common, &quotients[k], k)? {
            return Ok(false);
        }
    }
    Ok(true)
}

/// Whether the S-polynomial of the elements at places `f` and `g` is the sum of the quotients times the basis, and no product reaches the
/// least common multiple of their leading monomials.
pub(crate) fn reduces_to_zero(
    alloc: Global,
    basis: &Basis,
    f: usize,
    g: usize,
    quotients: &[KPoly],
) -> Result<bool, NoMemory>
    requires first { f < length basis.now.elements.items }
    requires second { g < length basis.now.elements.items }
    requires quotients { IsTrue (are_stored basis.now.ring.coeffs basis.now.ring.vars (length basis.now.elements.items) quotients.now) }
    ensures { InBasis basis.now (λ c. IfOk result (λ b. b ≡ reduces_to_zero c (element c (f + 1)) (element c (g + 1)) quotients.now)) }
{
    let common = match basis.leads[f].lcm(alloc, &basis.leads[g]) {
        Ok(common) => common,
        Err(MonoFault::NoMemory) => return Err(NoMemory),
        // Then the multipliers times their elements do not fit.
        Err(MonoFault::Degree { .. }) => return Ok(false),
    };
    let Some(left) = multiple(alloc, basis, &common, f, g)? else {
        return Ok(false);
    };
    let Some(right) = multiple(alloc, basis, &common, g, f)? else {
        return Ok(false);
    };
    // Differences of numbers modulo a prime are refused for memory alone.
    let Ok(s) = basis.ring.sub(alloc, &left, &right) else {
        return Err(NoMemory);
    };
    if !multiplies_out(alloc, &basis.ring, &s, quotients, &basis.elements)? {
        return Ok(false);
    }
    let below = all_stay_below(alloc, basis, &common, quotients)?;
    Ok(below)
}
