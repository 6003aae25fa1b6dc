//! How many outcomes there are of a kind.

ghost use Rattle.std.specs.Prelude.{◌≡◌, if◌then◌else◌};
ghost use Rattle.std.specs.List.{count_by};
ghost use Rattle.rinv_bench.specs.Summary.{is_rewritten, is_not_invariant};

use rinv_queries::Outcome;

/// How many fractions have an expression, and how many have none, since they are not invariant.
#[derive(Clone, Copy)]
pub(crate) struct Counts {
    pub(crate) rewritten: usize,
    pub(crate) not_invariant: usize,
}

/// The numbers of these outcomes.
pub(crate) fn counted(outcomes: &[Outcome]) -> Counts
    ensures rewritten { result.rewritten ≡ count_by is_rewritten outcomes.now }
    ensures not_invariant { result.not_invariant ≡ count_by is_not_invariant outcomes.now }
{
    let mut rewritten = 0;
    let mut not_invariant = 0;
    'outcomes: for k in 0..outcomes.len() {
        let outcome = &outcomes[k];
        rewritten += one_if(is_rewritten(outcome));
        not_invariant += one_if(is_not_invariant(outcome));
    }
    Counts {
        rewritten,
        not_invariant,
    }
}

// One where it holds, and else none.
fn one_if(holds: bool) -> usize
    ensures { result ≡ (if holds then 1 else 0) }
{
    if holds { 1 } else { 0 }
}

// Whether the outcome is an expression.
fn is_rewritten(outcome: &Outcome) -> bool
    ensures { result ≡ is_rewritten outcome.now }
{
    match outcome {
        Outcome::Rewritten(_) => true,
        Outcome::LawsHold
        | Outcome::GeneratorsShown
        | Outcome::Invariant
        | Outcome::NotInvariant(_)
        | Outcome::NotRewritten(_)
        | Outcome::Vanishing => false,
    }
}

// Whether it is the rest of a fraction that has no expression.
fn is_not_invariant(outcome: &Outcome) -> bool
    ensures { result ≡ is_not_invariant outcome.now }
{
    match outcome {
        Outcome::NotRewritten(_) => true,
        Outcome::LawsHold
        | Outcome::GeneratorsShown
        | Outcome::Invariant
        | Outcome::NotInvariant(_)
        | Outcome::Rewritten(_)
        | Outcome::Vanishing => false,
    }
}
