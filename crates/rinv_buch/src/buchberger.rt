//! Buchberger's algorithm: pair after pair, until each has its entry in the journal.

ghost use Rattle.std.specs.Prelude.{◌≡◌, IfOk, IfErr};
ghost use Rattle.rinv_groebner.specs.Basis.{AreNonzero};
ghost use Rattle.rinv_buch.specs.Kinds.{journal_of};
ghost use Rattle.rinv_buch.specs.Runs.{SettlesBy, SettlesWith, HaltsEntered, HaltsTurn, RunsOn, SettlesPair, TakesPair, TurnsBy, TurnsOnce};
ghost use Rattle.rinv_buch.specs.Spent.{IsKept, KeepsLimits, SpendsOn};
ghost use Rattle.rinv_poly.specs.Polynomials.{AreOf, IsOf};
ghost use Rattle.rinv_buch.specs.Causes.{HaltsOn};
ghost use Rattle.rinv_buch.specs.Bases.{HasAllPairs, IsBasisFor, IsMadeFrom, SparesPairs};

use crate::elements::Elements;
use crate::halting::{halted_at_pair, halted_idle, halted_in_division};
use crate::kinds::{Basis, Stop, Why};
use crate::run::{Run, begun, enter, place};
use crate::settling::{Outcome, settle};
use crate::spending::{count_pair, is_out_of_pairs};
use rinv_div::Budget;
use rinv_mono::{Grevlex, MonoOrder};
use rinv_pairs::{Pair, PairQueue};
use rinv_poly::{Poly, PolyRing};
use rinv_ring::{Field, Ring};
use std::alloc::Global;

/// A Gröbner basis of the ideal of the polynomials given, with its journal. The list begins with those that are not zero; each pair is
/// taken once, and each rest that is not zero is added. What was spent is counted in the budget, also where the algorithm halts.
pub fn basis<F: Field, O: MonoOrder>(
    ring: &PolyRing<F>,
    alloc: Global,
    given: &[Poly<F>],
    order: &O,
    budget: &mut Budget,
) -> Result<Basis<F>, Stop<F>>
    requires given { AreOf F.ops F.is_element ring.now given.now }
    requires suits { O.fits order.now ring.now.vars }
    requires within { IsKept budget.old }
    ensures journal { IfOk result (IsMadeFrom F.ops O.cmp ring.now order.now given.now) }
    ensures sparing { IfOk result (SparesPairs F.ops O.cmp ring.now order.now given.now) }
    ensures complete { IfOk result (HasAllPairs F.ops O.cmp ring.now order.now) }
    ensures spent { IfOk result (λ b. SpendsOn b.journal 0 budget.old budget.new) }
    ensures polys { IfOk result (λ b. AreOf F.ops F.is_element ring.now b.polys) }
    ensures nonzero { IfOk result (λ b. AreNonzero (F.ops ring.now.coeffs) b.polys) }
    ensures groebner { IfOk result (IsBasisFor F.ops O.cmp ring.now order.now given.now) }
    ensures stop { IfErr result (HaltsOn F.ops F.is_element F.too_high O.cmp ring.now order.now given.now budget.old budget.new) }
    ensures limits { KeepsLimits budget.old budget.new }
    ensures still_within { IsKept budget.new }
{
    basis_by(ring, alloc, given, order, &Grevlex, budget)
}

/// The same with an order of its own in which the pairs come, by their least common multiples.
pub fn basis_by<F: Field, O: MonoOrder, S: MonoOrder>(
    ring: &PolyRing<F>,
    alloc: Global,
    given: &[Poly<F>],
    order: &O,
    selection: &S,
    budget: &mut Budget,
) -> Result<Basis<F>, Stop<F>>
    requires given { AreOf F.ops F.is_element ring.now given.now }
    requires suits { O.fits order.now ring.now.vars }
    requires selects { S.fits selection.now ring.now.vars }
    requires within { IsKept budget.old }
    ensures journal { IfOk result (IsMadeFrom F.ops O.cmp ring.now order.now given.now) }
    ensures sparing { IfOk result (SparesPairs F.ops O.cmp ring.now order.now given.now) }
    ensures complete { IfOk result (HasAllPairs F.ops O.cmp ring.now order.now) }
    ensures spent { IfOk result (λ b. SpendsOn b.journal 0 budget.old budget.new) }
    ensures polys { IfOk result (λ b. AreOf F.ops F.is_element ring.now b.polys) }
    ensures nonzero { IfOk result (λ b. AreNonzero (F.ops ring.now.coeffs) b.polys) }
    ensures groebner { IfOk result (IsBasisFor F.ops O.cmp ring.now order.now given.now) }
    ensures stop { IfErr result (HaltsOn F.ops F.is_element F.too_high O.cmp ring.now order.now given.now budget.old budget.new) }
    ensures limits { KeepsLimits budget.old budget.new }
    ensures still_within { IsKept budget.new }
{
    let _pairs_spent = budget.pairs_spent;
    let _steps_spent = budget.steps_spent;
    let mut queue = PairQueue::new(selection, alloc);
    let mut run = begun(ring, alloc, given, order, &mut queue)?;
    'pairs: while let Some(pair) = queue.take() {
        run = turn(ring, alloc, pair, order, run, &mut queue, budget)?;
    }
    Ok(found(run))
}

// One pair: it is settled and entered, or the run halts at it.
fn turn<F: Field, O: MonoOrder, S: MonoOrder>(
    ring: &PolyRing<F>,
    alloc: Global,
    pair: Pair,
    order: &O,
    run: Run<F>,
    queue: &mut PairQueue<'_, S>,
    budget: &mut Budget,
) -> Result<Run<F>, Stop<F>>
    requires suits { O.fits order.now ring.now.vars }
    requires selects { S.fits queue.old.order ring.now.vars }
    requires taking { TakesPair F.ops F.is_element O.cmp ring.now order.now pair run queue.old }
    requires within { IsKept budget.old }
    ensures run { RunsOn F.ops F.is_element O.cmp ring.now order.now run queue.new result }
    ensures turns { IfOk result (TurnsOnce F.ops O.cmp ring.now order.now budget.old budget.new run queue.old queue.new) }
    ensures stop { HaltsTurn F.ops F.is_element F.too_high O.cmp ring.now order.now run budget.old budget.new result }
    ensures limits { KeepsLimits budget.old budget.new }
    ensures still_within { IsKept budget.new }
{
    if is_out_of_pairs(budget) {
        let (first, second) = (pair.first, pair.second);
        let why = Why::Pairs { first, second };
        return Err(halted_idle(ring, alloc, run, why));
    }
    let outcome = match settle(
        ring,
        alloc,
        &run.elements,
        queue,
        run.last_third,
        pair,
        order,
        budget,
    ) {
        Ok(outcome) => outcome,
        Err(stop) => return Err(halted_in_division(ring, alloc, order, pair, run, stop)),
    };
    count_pair(budget);
    entered(ring, alloc, pair, outcome, order, run, queue)
}

// The run after a pair, with the pairs of a rest that was added; it halts where one of these is too high.
fn entered<F: Field, O: MonoOrder, S: MonoOrder>(
    ring: &PolyRing<F>,
    alloc: Global,
    pair: Pair,
    outcome: Outcome<F>,
    order: &O,
    mut run: Run<F>,
    queue: &mut PairQueue<'_, S>,
) -> Result<Run<F>, Stop<F>>
    requires suits { O.fits order.now ring.now.vars }
    requires selects { S.fits queue.old.order ring.now.vars }
    requires taking { TakesPair F.ops F.is_element O.cmp ring.now order.now pair run queue.old }
    requires settled { SettlesPair F.ops O.cmp ring.now order.now run.elements pair outcome }
    requires third { SettlesBy queue.old pair.first pair.second outcome }
    requires rest { SettlesWith (IsOf F.ops F.is_element ring.now) outcome }
    ensures run { RunsOn F.ops F.is_element O.cmp ring.now order.now run queue.new result }
    ensures turns { IfOk result (TurnsBy F.ops O.cmp ring.now order.now outcome run queue.old queue.new) }
    ensures stop { HaltsEntered F.ops F.is_element O.cmp ring.now order.now run outcome result }
{
    let added = place(run.elements.polys.len())?;
    if enter(ring, alloc, pair, outcome, order, &mut run)? {
        if let Err(fault) = queue.add_element(alloc, &run.elements.leads, added) {
            return Err(halted_at_pair(ring, alloc, run, fault));
        }
    }
    Ok(run)
}

// The list and the journal of the run.
fn found<F: Field>(run: Run<F>) -> Basis<F>
    ensures polys { result.polys ≡ run.elements.polys.items }
    ensures journal { result.journal ≡ journal_of run.journal.items }
{
    let Run {
        elements,
        journal,
        ..
    } = run;
    let Elements { polys, .. } = elements;
    Basis { polys, journal }
}
