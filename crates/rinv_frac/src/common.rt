//! The greatest monomial that divides both parts of a fraction: in each variable, the least exponent of all their terms.

ghost use Rattle.std.specs.Prelude.{◌≡◌, ◌<◌, ◌≤◌, ◌^◌, ℕ, length, All, IsFalse, IfOk, slice_index};
ghost use Rattle.rinv_algebra.specs.Residue.{residue_ops};
ghost use Rattle.rinv_algebra.specs.Monomial.{total_degree, max_degree};
ghost use Rattle.rinv_algebra.specs.Polynomial.{is_zero};
ghost use Rattle.rinv_frac.specs.Fractions.{IsPart};
ghost use Rattle.rinv_frac.specs.Cancelling.{IsGreatestDivisor};
ghost use Rattle.rinv_frac.specs.Exponents.{IsLeast};

use rinv_mono::Mono;
use rinv_poly::{KPoly, PolyRing};
use rinv_ring::{Gf, NoMemory};
use std::alloc::Global;

/// The greatest monomial that divides each term of both parts.
pub fn common_monomial(
    ring: &PolyRing<Gf>,
    alloc: Global,
    num: &KPoly,
    den: &KPoly,
) -> Result<Mono, NoMemory>
    requires numerator { IsPart ring.now.coeffs ring.now.vars num.now }
    requires denominator { IsPart ring.now.coeffs ring.now.vars den.now }
    requires nonzero { IsFalse (is_zero (residue_ops ring.now.coeffs) den.now) }
    ensures vars { IfOk result (λ m. length m ≡ ring.now.vars) }
    ensures greatest { IfOk result (IsGreatestDivisor (residue_ops ring.now.coeffs) (num.now, den.now)) }
{
    let Some(((first, _), _)) = den.terms().split_first() else {
        unreachable!()
    };
    let exponents = least_exponents(alloc, ring.vars(), first, num.terms(), den.terms())?;
    let common = divisor_of(alloc, first, &exponents)?;
    Ok(common)
}

// The monomial of these exponents, none of which is greater than that of another monomial.
fn divisor_of(alloc: Global, of: &Mono, exponents: &[u32]) -> Result<Mono, NoMemory>
    requires vars { length exponents.now ≡ length of.now }
    requires least { (k : ℕ) → slice_index exponents.now k ≤ slice_index of.now k }
    ensures { IfOk result (λ m. m ≡ exponents.now) }
{
    let _few = of.vars(); // fewer than 2^32
    let _low = of.degree(); // within the limit
    match Mono::from_exponents(alloc, exponents)? {
        Some(mono) => Ok(mono),
        None => unreachable!(),
    }
}

// In each variable, the least exponent of the monomial and of the terms.
fn least_exponents(
    alloc: Global,
    vars: u32,
    first: &Mono,
    num: &[(Mono, u32)],
    den: &[(Mono, u32)],
) -> Result<Vec<u32>, NoMemory>
    ensures len { IfOk result (λ v. length v.items ≡ vars) }
    ensures least { IfOk result (λ v. (k : ℕ) → k < vars → IsLeast first.now num.now den.now k (slice_index v.items k)) }
{
    let mut out = Vec::with_capacity(alloc, vars as usize)?;
    for k in 0..vars {
        let low = least_exponent(first.exponent_or_zero(k), num, k);
        out.push(least_exponent(low, den, k))?;
    }
    Ok(out)
}

// The least of the number and the exponents of the variable in the terms.
fn least_exponent(start: u32, terms: &[(Mono, u32)], k: u32) -> u32
    ensures start { result ≤ start }
    ensures terms { All (λ t. result ≤ slice_index t.0 k) terms.now }
    ensures greatest { (m : ℕ) → m ≤ start → All (λ t. m ≤ slice_index t.0 k) terms.now → m ≤ result }
{
    let mut least = start;
    for (mono, _) in terms {
        if least == 0 {
            return 0; // nothing is less
        }
        least = least.min(mono.exponent_or_zero(k));
    }
    least
}
