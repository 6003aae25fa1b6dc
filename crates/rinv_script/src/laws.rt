//! What holds of each text of a script.

ghost use Rattle.std.specs.Prelude.{ℕ, List};
ghost use Rattle.rinv_script.specs.declared.form.Form.{Form};
ghost use Rattle.rinv_script.specs.ScriptTexts.{HasOneScript};

/// A text denotes one script at most, or has one refusal at most, and not both.
pub fn scripts_have_one_reading()
    ensures { (form : Form) (text : List ℕ) → HasOneScript form text }
{}
