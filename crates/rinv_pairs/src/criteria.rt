//! Criteria that settle a pair by the leading monomials alone.

ghost use Rattle.std.specs.Prelude.{◌≡◌};
ghost use Rattle.rinv_algebra.specs.Monomial.{coprime, divides, lcm};

use rinv_mono::Mono;

/// Whether no variable is in both.
pub fn coprime(a: &Mono, b: &Mono) -> bool
    ensures { result ≡ coprime a.now b.now }
{
    share_no_variable(a, b)
}

/// Whether `by` divides the least common multiple of the other two.
pub fn chain_by(first: &Mono, second: &Mono, by: &Mono) -> bool
    ensures { result ≡ divides by.now (lcm first.now second.now) }
{
    divides_multiple(by, first, second)
}

// Whether in each place one of the two is 0.
fn share_no_variable(left: &Mono, right: &Mono) -> bool
    ensures { result ≡ coprime left.now right.now }
{
    for k in 0..left.vars() {
        if left.exponent(k) > 0 && right.exponent_or_zero(k) > 0 {
            return false;
        }
    }
    true
}

// Whether no exponent is greater than both of the others in its place.
fn divides_multiple(by: &Mono, left: &Mono, right: &Mono) -> bool
    ensures { result ≡ divides by.now (lcm left.now right.now) }
{
    for k in 0..by.vars() {
        if by.exponent(k) > left.exponent_or_zero(k).max(right.exponent_or_zero(k)) {
            return false;
        }
    }
    true
}
