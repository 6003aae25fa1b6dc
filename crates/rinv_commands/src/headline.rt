//! The headline. The function does nothing: its contract is a law of the definitions.

ghost use Rattle.std.specs.Prelude.{ℕ, List};
ghost use Rattle.rinv_lines.specs.declared.ending.Ending.{Ending};
ghost use Rattle.rinv_commands.specs.declared.command.Command.{Command};
ghost use Rattle.rinv_commands.specs.Answers.{IsAnswer};
ghost use Rattle.rinv_commands.specs.Headline.{TellsTruly};

/// Where an answer ends with the line `complete`, the headline holds of it: a reader needs the text alone.
pub fn complete_answers_are_sound()
    ensures { (asked : Command) (bytes text : List ℕ) (ending : Ending) → IsAnswer asked bytes text ending → TellsTruly asked bytes text }
{}
