//! What a halt at the end of a budget says of the journal. The function does nothing: its contract is a law of the definitions.

ghost use Rattle.std.specs.Prelude.{ℕ, List};
ghost use Rattle.rinv_groebner.specs.Journal.{Entry};
ghost use Rattle.rinv_text.specs.Told.{Told};
ghost use Rattle.rinv_buch.specs.declared.kinds.Why.{Why};
ghost use Rattle.rinv_buch.specs.declared.kinds.Why.TheVariants as why;
ghost use Rattle.rinv_gens.specs.declared.kinds.Phase.{Phase};
ghost use Rattle.rinv_generators.specs.Stops.{WorkHaltsWithin, WorkSpendsPairs, WorkSpendsSteps};

/// As `budgets_are_met` of `rinv_gens`, of the halts in proofs as well: a halt for pairs has as many entries as the text allows, one for
/// steps as many steps with those of the division at work, and none has a journal beyond that.
pub fn budgets_are_met()
    ensures pairs { (told : Told) (phase : Phase) (journal : List Entry) (i j : ℕ) → WorkSpendsPairs told phase journal i j }
    ensures steps { (told : Told) (phase : Phase) (journal : List Entry) (m : List ℕ) → WorkSpendsSteps told phase journal m }
    ensures within { (told : Told) (phase : Phase) (journal : List Entry) (why : Why) → WorkHaltsWithin told phase journal why }
{}
