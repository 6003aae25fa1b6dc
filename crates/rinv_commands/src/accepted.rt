//! What is certified is accepted. The function does nothing: its contract is a law of the definitions.

ghost use Rattle.std.specs.Prelude.{◌≡◌, ◌≤◌, ℕ, List, length};
ghost use Rattle.rinv_lines.specs.declared.ending.Ending.{Ending};
ghost use Rattle.rinv_lines.specs.declared.ending.Ending.TheVariants.{Done};
ghost use Rattle.rinv_certificates.specs.Texts.{max_text};
ghost use Rattle.rinv_commands.specs.Answers.{Certifies, Checks};

/// What `certify` prints once it is done is short enough to be read, and whatever `check` answers to it, it is done: it accepts it.
pub fn certified_texts_are_accepted()
    ensures short { (bytes text : List ℕ) → Certifies bytes text → length text ≤ max_text }
    ensures accepted { (bytes text shown : List ℕ) (ending : Ending) → Certifies bytes text → Checks text shown ending → ending ≡ Done }
{}
