//! What a query is answered.

ghost use Rattle.std.specs.Prelude.{◌≡◌};
ghost use Rattle.rinv_queries.specs.Outcomes.{denies};

use rinv_poly::KPoly;
use rinv_rewrite::Expression;

/// What a query is answered.
pub enum Outcome {
    /// The laws hold.
    LawsHold,
    /// The generators are shown.
    GeneratorsShown,
    /// The fraction is invariant.
    Invariant,
    /// It is not invariant: the normal form of its change.
    NotInvariant(KPoly),
    /// Its expression in the generators.
    Rewritten(Expression),
    /// It is not invariant, and has no expression: the normal form of its change.
    NotRewritten(KPoly),
    /// It is invariant, and its denominator vanishes on the section.
    Vanishing,
}

impl Drop for Outcome {
    fn drop(self) {
        match self {
            Outcome::LawsHold => {}
            Outcome::GeneratorsShown => {}
            Outcome::Invariant => {}
            Outcome::NotInvariant(_rest) => {}
            Outcome::Rewritten(_expression) => {}
            Outcome::NotRewritten(_rest) => {}
            Outcome::Vanishing => {}
        }
    }
}

impl Outcome {
    /// Whether it denies what was asked.
    pub(crate) fn denies(&self) -> bool
        ensures { result ≡ denies self.now }
    {
        match self {
            Outcome::LawsHold
            | Outcome::GeneratorsShown
            | Outcome::Invariant
            | Outcome::Rewritten(_) => false,
            Outcome::NotInvariant(_) | Outcome::NotRewritten(_) | Outcome::Vanishing => true,
        }
    }
}
