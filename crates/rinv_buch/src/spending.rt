//! What a run of the algorithm counts in its budget.

ghost use Rattle.std.specs.Prelude.{◌≡◌, ◌<◌, ◌-◌, ◌^◌, true, false};
ghost use Rattle.rinv_div.specs.Budgets.{Spends};
ghost use Rattle.rinv_buch.specs.Spent.{IsKept, SpendsBoth};
ghost use Rattle.rinv_buch.specs.Causes.{HasPairLeft, IsOutOfPairs};

use rinv_div::Budget;

/// Whether no pair may be taken.
pub fn is_out_of_pairs(budget: &Budget) -> bool
    ensures spent { result ≡ true → IsOutOfPairs budget.now }
    ensures left { result ≡ false → HasPairLeft budget.now }
{
    !budget.endless && budget.pairs_spent >= budget.pairs
}

/// Counts a pair.
pub fn count_pair(budget: &mut Budget)
    ensures { SpendsBoth 1 0 budget.old budget.new }
{
    let _steps_spent = budget.steps_spent;
    budget.pairs_spent = budget.pairs_spent.saturating_add(1);
}

/// The budget of one division: the steps that are left, with a count of its own, so that the steps of an entry are known where the count
/// of the whole run is at its type's end.
pub fn steps_left(budget: &Budget) -> Budget
    requires { IsKept budget.now }
    ensures steps { result.steps ≡ budget.now.steps - budget.now.steps_spent }
    ensures fresh { result.steps_spent ≡ 0 }
    ensures endless { result.endless ≡ budget.now.endless }
    ensures limit { budget.now.steps < 2 ^ 64 }
    ensures none_spent { Spends 0 budget.now budget.now }
{
    Budget {
        pairs: 0,
        steps: budget.steps.saturating_sub(budget.steps_spent),
        pairs_spent: 0,
        steps_spent: 0,
        endless: budget.endless,
    }
}

/// Counts the steps of one division.
pub fn count_steps(budget: &mut Budget, steps: u64)
    ensures { Spends steps budget.old budget.new }
{
    budget.steps_spent = budget.steps_spent.saturating_add(steps);
}
