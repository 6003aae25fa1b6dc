//! The terms of a polynomial once more: as they are, times an element, or in later variables.

ghost use Rattle.std.specs.Prelude.{◌≡◌, ◌<◌, ◌≤◌, ◌+◌, ◌^◌, ◌++◌, ℕ, List, length, replicate, All, IsTrue, IfOk, IfErr, OnOk};
ghost use Rattle.rinv_algebra.specs.Monomial.{total_degree, max_degree};
ghost use Rattle.rinv_algebra.specs.Polynomial.{past};
ghost use Rattle.rinv_ring.specs.Operation.{multiplies};
ghost use Rattle.rinv_ring.specs.Fault.{DegreesMeet};
ghost use Rattle.rinv_poly.specs.Terms.{IsTerm};
ghost use Rattle.rinv_poly.specs.Polynomials.{IsOver, IsScaledOver};
ghost use Rattle.rinv_poly.specs.Refusals.{MultipleFaults};
ghost use Rattle.rinv_poly.specs.Changes.{PushesProduct};

use crate::polynomial::push_term;
use rinv_mono::Mono;
use rinv_ring::{NoMemory, Ring, RingFault};
use std::alloc::Global;

/// The same terms once more.
pub fn copied<R: Ring>(
    coeffs: &R,
    alloc: Global,
    vars: u32,
    terms: &[(Mono, R::Elem)],
) -> Result<Vec<(Mono, R::Elem)>, NoMemory>
    requires { All (IsTerm (R.is_element coeffs.now) vars) terms.now }
    ensures { IfOk result (λ v. v.items ≡ terms.now) }
{
    let mut out = Vec::with_capacity(alloc, terms.len())?;
    for (mono, c) in terms {
        let copy = coeffs.copy(alloc, c)?;
        out.push((mono.copy(alloc)?, copy))?;
    }
    Ok(out)
}

/// The element times the terms of a polynomial in normal form.
pub fn scaled<R: Ring>(
    coeffs: &R,
    alloc: Global,
    vars: u32,
    c: &R::Elem,
    terms: &[(Mono, R::Elem)],
) -> Result<Vec<(Mono, R::Elem)>, RingFault>
    requires factor { IsTrue (R.is_element coeffs.now c.now) }
    requires terms { IsOver R.ops R.is_element coeffs.now vars terms.now }
    ensures normal { IfOk result (λ v. IsOver R.ops R.is_element coeffs.now vars v.items) }
    ensures value { IfOk result (λ v. IsScaledOver R.ops coeffs.now v.items c.now terms.now) }
    ensures degree { IfErr result (MultipleFaults R.ops R.is_element R.too_high coeffs.now c.now terms.now) }
{
    let mut out = Vec::with_capacity(alloc, terms.len())?;
    for (mono, d) in terms {
        push_multiple(coeffs, alloc, c, mono.copy(alloc)?, d, &mut out)?;
    }
    Ok(out)
}

// Appends the element times the term.
pub fn push_multiple<R: Ring>(
    coeffs: &R,
    alloc: Global,
    c: &R::Elem,
    mono: Mono,
    d: &R::Elem,
    out: &mut Vec<(Mono, R::Elem)>,
) -> Result<(), RingFault>
    requires left { IsTrue (R.is_element coeffs.now c.now) }
    requires right { IsTrue (R.is_element coeffs.now d.now) }
    ensures value { OnOk result (PushesProduct R.ops R.is_element coeffs.now mono c.now d.now out.old out.new) }
    ensures degree { IfErr result (DegreesMeet (R.too_high coeffs.now multiplies c.now d.now)) }
{
    let multiple = coeffs.mul(alloc, c, d)?;
    push_term(coeffs, mono, multiple, out)?;
    Ok(())
}

/// The terms with `zeros` variables before their own.
pub fn shifted<R: Ring>(
    coeffs: &R,
    alloc: Global,
    vars: u32,
    zeros: u32,
    terms: &[(Mono, R::Elem)],
) -> Result<Vec<(Mono, R::Elem)>, NoMemory>
    requires terms { All (IsTerm (R.is_element coeffs.now) vars) terms.now }
    requires count { zeros + vars < 2 ^ 32 }
    ensures { IfOk result (λ v. v.items ≡ past zeros terms.now) }
{
    let mut out = Vec::with_capacity(alloc, terms.len())?;
    for (mono, c) in terms {
        let copy = coeffs.copy(alloc, c)?;
        out.push((mono_past_zeros(alloc, zeros, mono)?, copy))?;
    }
    Ok(out)
}

// The monomial with so many variables of exponent 0 before its own.
fn mono_past_zeros(alloc: Global, zeros: u32, mono: &Mono) -> Result<Mono, NoMemory>
    requires { zeros + length mono.now < 2 ^ 32 }
    ensures { IfOk result (λ m. m ≡ replicate zeros 0 ++ mono.now) }
{
    let _degree = mono.degree();
    let exponents = mono.to_exponents(alloc)?;
    past_zeros(alloc, zeros, &exponents)
}

/// The monomial with so many variables of exponent 0 before those of the list.
pub fn past_zeros(alloc: Global, zeros: u32, exponents: &[u32]) -> Result<Mono, NoMemory>
    requires vars { zeros + length exponents.now < 2 ^ 32 }
    requires low { total_degree exponents.now ≤ max_degree }
    ensures { IfOk result (λ m. m ≡ replicate zeros 0 ++ exponents.now) }
{
    let mut list = vec![in alloc; 0; zeros as usize]?;
    list.extend_from_slice(exponents)?;
    match Mono::from_exponents(alloc, &list)? {
        Some(mono) => Ok(mono),
        None => unreachable!(),
    }
}
