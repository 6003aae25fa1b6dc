//! Whether the multiples in an S-polynomial are within the limit on degrees.

ghost use Rattle.std.specs.Prelude.{◌≡◌, ◌≤◌, length, false, nat_lt, IfErr, OnOk};
ghost use Rattle.rinv_algebra.specs.Residue.{residue_ops};
ghost use Rattle.rinv_algebra.specs.Monomial.{quotient, lcm, total_degree, max_degree};
ghost use Rattle.rinv_algebra.specs.Polynomial.{is_zero};
ghost use Rattle.rinv_algebra.specs.Normal.{IsNormal};
ghost use Rattle.rinv_ring.specs.Fault.{DegreesMeet};
ghost use Rattle.rinv_recording.specs.Recorded.{MultipleMeets};
ghost use Rattle.rinv_recording.specs.Entries.{IsLowLcm, MultipleFits};

use rinv_buch::leading_term;
use rinv_fits::greatest_degree;
use rinv_mono::{MAX_DEGREE, Mono, MonoOrder};
use rinv_poly::{KPoly, PolyRing};
use rinv_ring::{Gf, RingFault};

/// Fine exactly where the multiple of the first polynomial in the S-polynomial of both is within the limit; then so is the least common
/// multiple of the leading monomials. Degree tells two monomials of one that is not.
pub(crate) fn check_multiple<O: MonoOrder>(
    ring: &PolyRing<Gf>,
    f: &KPoly,
    g: &KPoly,
    order: &O,
) -> Result<(), RingFault>
    requires first { IsNormal (residue_ops ring.now.coeffs) (λ c. nat_lt c ring.now.coeffs) ring.now.vars f.now }
    requires second { IsNormal (residue_ops ring.now.coeffs) (λ c. nat_lt c ring.now.coeffs) ring.now.vars g.now }
    requires first_nonzero { is_zero (residue_ops ring.now.coeffs) f.now ≡ false }
    requires second_nonzero { is_zero (residue_ops ring.now.coeffs) g.now ≡ false }
    requires suits { O.fits order.now ring.now.vars }
    ensures fits { OnOk result (MultipleFits ring.now.coeffs (O.cmp order.now) f.now g.now) }
    ensures low { OnOk result (IsLowLcm ring.now.coeffs (O.cmp order.now) f.now g.now) }
    ensures degree { IfErr result (DegreesMeet (MultipleMeets ring.now.coeffs (O.cmp order.now) f.now g.now)) }
{
    let (f_lead, _) = leading_term(ring, f, order);
    let (g_lead, _) = leading_term(ring, g, order);
    let left = degree_beyond(f_lead, g_lead);
    let right = greatest_degree(f.terms());
    if left + right > MAX_DEGREE {
        return Err(RingFault::Degree { left, right });
    }
    Ok(())
}

// The degree of the least common multiple of two monomials, divided by the first.
fn degree_beyond(mono: &Mono, other: &Mono) -> u32
    requires { length mono.now ≡ length other.now }
    ensures degree { result ≡ total_degree (quotient (lcm mono.now other.now) mono.now) }
    ensures low { result ≤ max_degree }
{
    let _limit = other.degree();
    let mut degree = 0;
    'variables: for k in 0..mono.vars() {
        degree += other.exponent(k).saturating_sub(mono.exponent(k));
    }
    degree
}
