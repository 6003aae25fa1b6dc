//! Polynomials in further variables, which they do not have.

ghost use Rattle.std.specs.Prelude.{◌≡◌, ◌<◌, ◌≤◌, ◌+◌, ◌^◌, ◌++◌, ℕ, List, length, replicate, All, IsTrue, IfOk};
ghost use Rattle.rinv_algebra.specs.Monomial.{total_degree, max_degree};
ghost use Rattle.rinv_poly.specs.Polynomials.{IsOf, SameIn};

use rinv_mono::Mono;
use rinv_poly::{Poly, PolyRing};
use rinv_ring::{NoMemory, Ring};
use std::alloc::Global;

/// The polynomial in the ring `to`, which has its variables and then others. It has the same degree, so Degree never comes.
pub fn widened<R: Ring>(
    from: &PolyRing<R>,
    alloc: Global,
    f: &Poly<R>,
    to: &PolyRing<R>,
) -> Result<Poly<R>, NoMemory>
    requires coeffs { from.now.coeffs ≡ to.now.coeffs }
    requires more { from.now.vars ≤ to.now.vars }
    requires polynomial { IsOf R.ops R.is_element from.now f.now }
    ensures element { IfOk result (λ r. IsOf R.ops R.is_element to.now r) }
    ensures value { IfOk result (λ r. SameIn R.ops to.now r f.now) }
{
    let zeros = to.vars() - from.vars();
    let mut terms = Vec::new(alloc);
    'terms: for k in 0..from.len(f) {
        let mono = followed_by_zeros(alloc, from.mono(f, k), zeros)?;
        let coefficient = to.coeffs().copy(alloc, from.coeff(f, k))?;
        terms.push((mono, coefficient))?;
    }
    let wide = to.from_distinct(terms)?;
    Ok(wide)
}

// The monomial with so many further variables of exponent 0.
fn followed_by_zeros(alloc: Global, mono: &Mono, zeros: u32) -> Result<Mono, NoMemory>
    requires { length mono.now + zeros < 2 ^ 32 }
    ensures { IfOk result (λ m. m ≡ mono.now ++ replicate zeros 0) }
{
    let _degree = mono.degree();
    let mut exponents = mono.to_exponents(alloc)?;
    let others = vec![in alloc; 0; zeros as usize]?;
    exponents.extend_from_slice(&others)?;
    match Mono::from_exponents(alloc, &exponents)? {
        Some(mono) => Ok(mono),
        None => unreachable!(),
    }
}
