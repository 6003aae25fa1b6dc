//! Over a field the degree of a product is the sum of the degrees: whether products fit is known before any is formed.

ghost use Rattle.std.specs.Prelude.{◌≡◌, ◌⊎◌, ◌≤◌, ◌+◌, ◌*◌, false, true, List, length, IfOk, IfErr, OnOk};
ghost use Rattle.rinv_algebra.specs.Monomial.{max_degree};
ghost use Rattle.rinv_algebra.specs.Polynomial.{is_zero};
ghost use Rattle.rinv_algebra.specs.Fits.{substitution_fits};
ghost use Rattle.rinv_poly.specs.Polynomials.{IsOf, AreOf};
ghost use Rattle.rinv_sub.specs.Values.{IsSubstituted, SubstitutionFaults, MonomialFaults, DegreeFaults};

use crate::bounds::greatest_degree;
use crate::substitution::substitute;
use rinv_mono::Mono;
use rinv_poly::{Poly, PolyRing};
use rinv_ring::{Field, Ring, RingFault};
use std::alloc::Global;

/// The same as `substitute`, over a field. Here Degree comes before anything is multiplied: it carries the degree of the first product
/// that does not fit with its next factor, and the degree of this factor.
pub fn substitute_over_field<R: Field>(
    from: &PolyRing<R>,
    alloc: Global,
    f: &Poly<R>,
    to: &PolyRing<R>,
    images: &[Poly<R>],
) -> Result<Poly<R>, RingFault>
    requires coeffs { from.now.coeffs ≡ to.now.coeffs }
    requires polynomial { IsOf R.ops R.is_element from.now f.now }
    requires many { length images.now ≡ from.now.vars }
    requires images { AreOf R.ops R.is_element to.now images.now }
    ensures element { IfOk result (λ r. IsOf R.ops R.is_element to.now r) }
    ensures value { IfOk result (IsSubstituted R.ops to.now images.now f.now) }
    ensures fits { OnOk result (substitution_fits (R.ops to.now.coeffs) images.now f.now ≡ true) }
    ensures degree { IfErr result (SubstitutionFaults R.ops R.is_element R.too_high to.now images.now f.now) }
{
    check_terms(from, f, to, images)?;
    let value = substitute(from, alloc, f, to, images)?;
    Ok(value)
}

// Whether the images can be put for the variables; the degrees at the first product that does not fit.
fn check_terms<R: Field>(
    from: &PolyRing<R>,
    f: &Poly<R>,
    to: &PolyRing<R>,
    images: &[Poly<R>],
) -> Result<(), RingFault>
    requires coeffs { from.now.coeffs ≡ to.now.coeffs }
    requires polynomial { IsOf R.ops R.is_element from.now f.now }
    requires many { length images.now ≡ from.now.vars }
    requires images { AreOf R.ops R.is_element to.now images.now }
    ensures { IfErr result (SubstitutionFaults R.ops R.is_element R.too_high to.now images.now f.now) }
{
    'terms: for k in 0..from.len(f) {
        check_term(to, from.mono(f, k), images)?;
    }
    Ok(())
}

// The same for the value of a term, whatever its coefficient. A power of zero ends its products: they are zero.
fn check_term<R: Field>(
    ring: &PolyRing<R>,
    mono: &Mono,
    images: &[Poly<R>],
) -> Result<(), RingFault>
    requires many { length images.now ≡ length mono.now }
    requires images { AreOf R.ops R.is_element ring.now images.now }
    ensures { IfErr result (MonomialFaults R.ops R.is_element R.too_high ring.now images.now mono.now) }
{
    let _limit = mono.degree();
    let mut degree = 0;
    'images: for k in 0..mono.vars() {
        let exponent = mono.exponent(k);
        let image = &images[k as usize];
        if is_zero_power(ring, image, exponent) {
            return Ok(());
        }
        degree = degree_with(degree, exponent, greatest_degree(image))?;
    }
    Ok(())
}

// Whether the power of the polynomial is zero.
fn is_zero_power<R: Ring>(ring: &PolyRing<R>, f: &Poly<R>, exponent: u32) -> bool
    requires { IsOf R.ops R.is_element ring.now f.now }
    ensures { result ≡ false → (exponent ≡ 0) ⊎ (is_zero (R.ops ring.now.coeffs) f.now ≡ false) }
{
    exponent > 0 && ring.is_zero(f)
}

// The degree with so many factors of degree `each` more; or the degree with the last of them that fits, and their degree.
fn degree_with(degree: u32, exponent: u32, each: u32) -> Result<u32, RingFault>
    requires low { degree ≤ max_degree }
    requires exponent { exponent ≤ max_degree }
    requires each { each ≤ max_degree }
    ensures value { IfOk result (λ n. n ≡ degree + exponent * each) }
    ensures low { IfOk result (λ n. n ≤ max_degree) }
    ensures meets { IfErr result (DegreeFaults degree exponent each) }
{
    if exponent * each <= 10000 - degree {
        return Ok(degree + exponent * each);
    }
    let fitting = (10000 - degree) / each;
    Err(RingFault::Degree {
        left: degree + fitting * each,
        right: each,
    })
}
