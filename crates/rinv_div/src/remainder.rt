//! What a division leaves, for who asks for no quotients: nothing is kept of the steps.

ghost use Rattle.std.specs.Prelude.{IfOk, IfErr};
ghost use Rattle.rinv_ring.specs.declared.fault.RingFault.TheVariants.{Degree};
ghost use Rattle.rinv_div.specs.Budgets.{IsWithin, KeepsOthers};
ghost use Rattle.rinv_div.specs.Stops.{StopsWith, ReducesTo, ReducesWithin, StopsDividing, StepTooHigh};
ghost use Rattle.rinv_div.specs.Divisors.{MadeOf};
ghost use Rattle.rinv_poly.specs.Polynomials.{IsOf};

use crate::budget::Budget;
use crate::divisors::Divisors;
use crate::quotients::gathered;
use crate::sorting::arranged;
use crate::stop::DivStop;
use crate::turning::{Round, turn};
use rinv_mono::MonoOrder;
use rinv_poly::{Poly, PolyRing};
use rinv_ring::{Ring, RingFault};
use std::alloc::Global;

/// The rest of a division by the polynomials of the basis, of which the divisors were made: the steps, what they spend, and the stops are
/// those of `divide_by`.
pub fn remainder_by<R: Ring, O: MonoOrder>(
    ring: &PolyRing<R>,
    alloc: Global,
    f: &Poly<R>,
    basis: &[Poly<R>],
    divisors: &Divisors<R>,
    order: &O,
    steps: &mut Budget,
) -> Result<Poly<R>, DivStop<R>>
    requires dividend { IsOf R.ops R.is_element ring.now f.now }
    requires suits { O.fits order.now ring.now.vars }
    requires divisors { MadeOf R.ops R.is_element O.cmp ring.now order.now basis.now divisors.now }
    requires within { IsWithin steps.old }
    ensures division { IfOk result (ReducesWithin R.ops O.cmp ring.now order.now basis.now f.now steps.old steps.new) }
    ensures rest { IfOk result (IsOf R.ops R.is_element ring.now) }
    ensures stop { IfErr result (StopsDividing R.ops R.is_element R.too_high O.cmp ring.now order.now basis.now f.now steps.old steps.new) }
    ensures working { IfErr result (StopsWith (IsOf R.ops R.is_element ring.now)) }
    ensures budget { KeepsOthers steps.old steps.new }
    ensures still_within { IsWithin steps.new }
{
    let _spent = steps.steps_spent;
    let left = arranged(ring, alloc, f, order)?;
    let mut round = Round {
        rest: Vec::new(alloc),
        left,
    };
    'terms: while let Some((mono, c)) = round.left.pop() {
        let (next, _step) = turn(ring, alloc, basis, divisors, order, mono, c, round, steps)?;
        round = next;
    }
    let rest = gathered(ring, order, round.rest, round.left)?;
    Ok(rest)
}

/// The rest of a division, as `remainder_by` answers it, with no budget. Degree comes only where the next step meets these degrees.
pub fn remainder_wholly<R: Ring, O: MonoOrder>(
    ring: &PolyRing<R>,
    alloc: Global,
    f: &Poly<R>,
    basis: &[Poly<R>],
    divisors: &Divisors<R>,
    order: &O,
) -> Result<Poly<R>, RingFault>
    requires dividend { IsOf R.ops R.is_element ring.now f.now }
    requires suits { O.fits order.now ring.now.vars }
    requires divisors { MadeOf R.ops R.is_element O.cmp ring.now order.now basis.now divisors.now }
    ensures division { IfOk result (ReducesTo R.ops O.cmp ring.now order.now basis.now f.now) }
    ensures rest { IfOk result (IsOf R.ops R.is_element ring.now) }
    ensures degree { IfErr result (StepTooHigh R.ops R.is_element R.too_high O.cmp ring.now order.now basis.now f.now) }
{
    let mut endless = Budget::without_end();
    match remainder_by(ring, alloc, f, basis, divisors, order, &mut endless) {
        Ok(rest) => Ok(rest),
        Err(DivStop::Degree { left, right, .. }) => Err(RingFault::Degree { left, right }),
        Err(DivStop::NoMemory) => Err(RingFault::NoMemory),
        Err(DivStop::Steps { .. }) => unreachable!(),
    }
}
