//! What holds of each text of a system.

ghost use Rattle.std.specs.Prelude.{ℕ, List};
ghost use Rattle.rinv_defs.specs.SystemForm.{IsSystem};
ghost use Rattle.rinv_text.specs.Told.{Told};
ghost use Rattle.rinv_system.specs.OneSystem.{HasOneSystem};
ghost use Rattle.rinv_system.specs.Texts.{IsSystemText};
ghost use Rattle.rinv_system.specs.Written.{system_text, IsWritable};

/// A text denotes one system or has one refusal, and not both.
pub fn system_texts_have_one_reading()
    ensures { (text : List ℕ) → HasOneSystem text }
{}

/// A system that a text denotes has the lengths, ranges and variables of one.
pub fn texts_denote_systems()
    ensures { (text : List ℕ) (told : Told) → IsSystemText text told → IsSystem told.system }
{}

/// The text that is written of a system tells this system, where its polynomials and budgets are within the limits of a text.
pub fn written_systems_are_read()
    ensures { (told : Told) → IsWritable told → IsSystemText (system_text told) told }
{}
