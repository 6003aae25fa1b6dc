//! What a halt at the end of a budget says of the journal. The function does nothing: its contract is a law of the definitions.

ghost use Rattle.std.specs.Prelude.{ℕ, List};
ghost use Rattle.rinv_groebner.specs.Journal.{Entry};
ghost use Rattle.rinv_text.specs.Told.{Told};
ghost use Rattle.rinv_buch.specs.declared.kinds.Why.TheVariants as why;
ghost use Rattle.rinv_gens.specs.declared.kinds.Phase.{Phase};
ghost use Rattle.rinv_buch.specs.declared.kinds.Why.{Why};
ghost use Rattle.rinv_gens.specs.Halts.{HaltsWithin, SpendsPairs, SpendsSteps};

/// Where a phase halts for its pairs, the journal of both runs has as many entries as the text allows; where it halts for its steps, those
/// of the entries and those of the division at work are as many as the text allows. No halt has a journal beyond that.
pub fn budgets_are_met()
    ensures pairs { (told : Told) (phase : Phase) (journal : List Entry) (i j : ℕ) → SpendsPairs told phase journal i j }
    ensures steps { (told : Told) (phase : Phase) (journal : List Entry) (m : List ℕ) → SpendsSteps told phase journal m }
    ensures within { (told : Told) (phase : Phase) (journal : List Entry) (why : Why) → HaltsWithin told phase journal why }
{}
