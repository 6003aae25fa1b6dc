//! Degrees of least common multiples that are not made.

ghost use Rattle.std.specs.Prelude.{◌≡◌, ◌≤◌, ◌<◌, length, sum, IfErr, OnOk};
ghost use Rattle.rinv_algebra.specs.Monomial.{lcm, total_degree, max_degree};
ghost use Rattle.rinv_pairs.specs.High.{AreLow, IsFirstHigh};

use rinv_mono::{MAX_DEGREE, Mono, MonoFault};

// Refuses the first earlier monomial with which that of place k has a least common multiple over the limit.
pub(crate) fn refuse_high(leads: &[Mono], k: usize) -> Result<(), MonoFault>
    requires { k < length leads.now }
    ensures low { OnOk result (AreLow leads.now k k) }
    ensures high { IfErr result (IsFirstHigh leads.now k) }
{
    let last = &leads[k];
    for i in 0..k {
        let earlier = &leads[i];
        if multiple_degree(earlier, last) > MAX_DEGREE {
            return Err(MonoFault::Degree {
                left: earlier.degree(),
                right: last.degree(),
            });
        }
    }
    Ok(())
}

// The degree of the least common multiple.
fn multiple_degree(a: &Mono, b: &Mono) -> u32
    ensures { result ≡ total_degree (lcm a.now b.now) }
{
    let _degrees = (a.degree(), b.degree());
    sum_of_greater(a, b)
}

// The sum of the greater of each two.
fn sum_of_greater(left: &Mono, right: &Mono) -> u32
    requires left_low { sum left.now ≤ max_degree }
    requires right_low { sum right.now ≤ max_degree }
    ensures { result ≡ sum (lcm left.now right.now) }
{
    let mut degree = 0;
    for k in 0..left.vars().max(right.vars()) {
        degree += left.exponent_or_zero(k).max(right.exponent_or_zero(k));
    }
    degree
}
