//! Degrees of terms.

ghost use Rattle.std.specs.Prelude.{◌≤◌, ◌<◌, length, All};
ghost use Rattle.rinv_algebra.specs.Monomial.{total_degree, max_degree};
ghost use Rattle.rinv_poly.specs.Faults.{IsDegreeOf};

use rinv_mono::Mono;

/// The greatest degree of the terms, and 0 where there is none.
pub fn greatest_degree(terms: &[(Mono, u32)]) -> u32
    ensures all { All (λ t. total_degree t.0 ≤ result) terms.now }
    ensures some { 0 < length terms.now → IsDegreeOf terms.now result }
    ensures low { result ≤ max_degree }
{
    let mut greatest = 0;
    'terms: for k in 0..terms.len() {
        let (mono, _coefficient) = &terms[k];
        greatest = mono.degree().max(greatest);
    }
    greatest
}
