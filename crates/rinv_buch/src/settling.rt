//! One pair: nothing is to be done where it is coprime or a third element settles it, else its S-polynomial is divided.

ghost use Rattle.std.specs.Prelude.{◌≡◌, ◌<◌, length, IsTrue, IfOk, IfErr};
ghost use Rattle.rinv_algebra.specs.Polynomial.{is_zero};
ghost use Rattle.rinv_ring.specs.declared.fault.RingFault.TheVariants.{Degree};
ghost use Rattle.rinv_div.specs.Budgets.{Spends};
ghost use Rattle.rinv_div.specs.Stops.{StopsBy, StopsWith};
ghost use Rattle.rinv_buch.specs.Spent.{IsKept, KeepsLimits};
ghost use Rattle.rinv_buch.specs.Runs.{SettlesBy, SettlesWith, steps_with, HasNoThird, SettlesPair, StopsAt};
ghost use Rattle.rinv_buch.specs.Elements.{IsLowPair, LeadsAre, PreparedFor};
ghost use Rattle.rinv_poly.specs.Polynomials.{IsOf};

use crate::elements::Elements;
use crate::s_polynomial::s_polynomial_of;
use crate::spending::{count_steps, steps_left};
use rinv_div::{Budget, DivStop, remainder_by};
use rinv_mono::MonoOrder;
use rinv_pairs::{Pair, PairQueue, coprime};
use rinv_poly::{Poly, PolyRing};
use rinv_ring::{Field, Ring, RingFault};
use std::alloc::Global;

/// What became of a pair.
#[derive(Drop)]
pub enum Outcome<F: Field> {
    Coprime,
    Chain { by: u32 },
    Reduced { rest: Poly<F>, steps: u64 },
}

/// Settles the pair of two places: by its leading monomials, by a third element, or by dividing its S-polynomial. The steps are counted in the budget. A stop
/// without memory left keeps what it has spent.
pub fn settle<F: Field, O: MonoOrder, S: MonoOrder>(
    ring: &PolyRing<F>,
    alloc: Global,
    elements: &Elements<F>,
    queue: &PairQueue<'_, S>,
    hint: u32,
    pair: Pair,
    order: &O,
    budget: &mut Budget,
) -> Result<Outcome<F>, DivStop<F>>
    requires prepared { PreparedFor F.ops F.is_element O.cmp ring.now order.now elements.now }
    requires suits { O.fits order.now ring.now.vars }
    requires ascending { pair.first < pair.second }
    requires inside { pair.second < length elements.now.polys.items }
    requires low { IsLowPair F.ops O.cmp ring.now order.now elements.now pair }
    requires leads { LeadsAre F.ops O.cmp ring.now order.now elements.now queue.now }
    requires within { IsKept budget.old }
    ensures settles { IfOk result (SettlesPair F.ops O.cmp ring.now order.now elements.now pair) }
    ensures third { IfOk result (SettlesBy queue.now pair.first pair.second) }
    ensures no_third { IfErr result (StopsWith (λ _. HasNoThird queue.now pair)) }
    ensures spent { IfOk result (λ s. Spends (steps_with s) budget.old budget.new) }
    ensures rest { IfOk result (SettlesWith (IsOf F.ops F.is_element ring.now)) }
    ensures stop { IfErr result (StopsAt F.ops F.is_element F.too_high O.cmp ring.now order.now elements.now pair budget.old budget.new) }
    ensures working { IfErr result (StopsWith (IsOf F.ops F.is_element ring.now)) }
    ensures limits { KeepsLimits budget.old budget.new }
    ensures still_within { IsKept budget.new }
{
    let mut own = steps_left(budget);
    let (first, second) = (pair.first as usize, pair.second as usize);
    if coprime(&elements.leads[first], &elements.leads[second]) {
        return Ok(Outcome::Coprime);
    }
    if let Some(by) = queue.third(pair, hint) {
        return Ok(Outcome::Chain { by });
    }
    let (f, g) = (&elements.polys[first], &elements.polys[second]);
    let s = match s_polynomial_of(ring, alloc, f, g, order) {
        Ok(s) => s,
        Err(fault) => return Err(before_division(ring, alloc, fault)),
    };
    let rest = remainder_by(
        ring,
        alloc,
        &s,
        &elements.polys,
        &elements.divisors,
        order,
        &mut own,
    );
    count_steps(budget, own.steps_spent);
    let rest = rest?;
    Ok(Outcome::Reduced {
        rest,
        steps: own.steps_spent,
    })
}

// The stop for a fault before any step: nothing is at work.
fn before_division<F: Field>(ring: &PolyRing<F>, alloc: Global, fault: RingFault) -> DivStop<F>
    ensures fault { StopsBy (λ _. ⊥) (λ x y _. fault ≡ Degree x y) result }
    ensures idle { StopsBy (λ _. ⊥) (λ _ _ f. IsTrue (is_zero (F.ops ring.now.coeffs) f)) result }
    ensures normal { StopsBy (λ _. ⊥) (λ _ _. IsOf F.ops F.is_element ring.now) result }
{
    match fault {
        RingFault::NoMemory => DivStop::NoMemory,
        RingFault::Degree { left, right } => match ring.zero(alloc) {
            Ok(working) => DivStop::Degree {
                left,
                right,
                working,
            },
            Err(_) => DivStop::NoMemory,
        },
    }
}
