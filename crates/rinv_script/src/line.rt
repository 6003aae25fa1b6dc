//! What stands on a line of a script, after what the lines before it told.

ghost use Rattle.std.specs.Prelude.{◌≡◌, ◌<◌, ◌-◌, ◌^◌, [], length, None, IsTrue, IsFalse, IfErr, OnOk};
ghost use Rattle.std.specs.List.{list_all};
ghost use Rattle.rinv_system.specs.Lines.{is_allowed};
ghost use Rattle.rinv_system.specs.Drafts.{is_whole};
ghost use Rattle.rinv_system.specs.Words.{head_of};
ghost use Rattle.rinv_system.specs.Stops.{OnCode};
ghost use Rattle.rinv_script.specs.Scripts.{has_script};
ghost use Rattle.rinv_script.specs.ScriptTexts.{IsScriptLineRefused, IsScriptLineTaken, is_whole_script};
ghost use Rattle.rinv_script.specs.Kept.{IsKept};

use crate::draft::ScriptDraft;
use crate::rests::add_rest;
use crate::words::script_head;
use rinv_system::{Code, LineReader, LineStop, head};
use std::alloc::Global;

// Adds a line of the system, which no script line may stand before.
fn add_system_line(alloc: Global, draft: &mut ScriptDraft, line: &[u8]) -> Result<(), LineStop>
    requires some { ¬ (line.now ≡ []) }
    requires head { ¬ (head_of line.now ≡ None) }
    requires kept { IsKept draft.old }
    requires short { length line.now < 2 ^ 32 - 1 }
    requires allowed { IsTrue (list_all is_allowed line.now) }
    ensures ok { OnOk result (IsScriptLineTaken draft.old line.now draft.new) }
    ensures fault { IfErr result (OnCode (IsScriptLineRefused draft.old line.now)) }
{
    if draft.has_script() {
        return Err(LineStop::Fault(Code::Word));
    }
    draft.add_system_line(alloc, line)?;
    Ok(())
}

// Adds a script line, which stands behind the whole system.
fn add_script_line(alloc: Global, draft: &mut ScriptDraft, line: &[u8]) -> Result<(), LineStop>
    requires some { ¬ (line.now ≡ []) }
    requires head { head_of line.now ≡ None }
    requires kept { IsKept draft.old }
    requires short { length line.now < 2 ^ 32 - 1 }
    requires allowed { IsTrue (list_all is_allowed line.now) }
    ensures ok { OnOk result (IsScriptLineTaken draft.old line.now draft.new) }
    ensures fault { IfErr result (OnCode (IsScriptLineRefused draft.old line.now)) }
{
    let Some((word, rest)) = script_head(draft.form, line) else {
        return Err(LineStop::Fault(Code::Word));
    };
    if !draft.has_system() {
        return Err(LineStop::Fault(Code::Missing));
    }
    add_rest(alloc, draft, word, rest)?;
    Ok(())
}

// Adds what a line tells to what the lines before it told.
fn add_line(alloc: Global, draft: &mut ScriptDraft, line: &[u8]) -> Result<(), LineStop>
    requires kept { IsKept draft.old }
    requires short { length line.now < 2 ^ 32 - 1 }
    requires allowed { IsTrue (list_all is_allowed line.now) }
    ensures ok { OnOk result (IsScriptLineTaken draft.old line.now draft.new) }
    ensures fault { IfErr result (OnCode (IsScriptLineRefused draft.old line.now)) }
{
    if line.is_empty() {
        return Ok(());
    }
    match head(line) {
        Some(_) => add_system_line(alloc, draft, line)?,
        None => add_script_line(alloc, draft, line)?,
    }
    Ok(())
}

impl LineReader for ScriptDraft {
    ghost is_reached = { IsKept };

    ghost refuses = { IsScriptLineRefused };

    ghost takes = { IsScriptLineTaken };

    ghost is_whole = { is_whole_script };

    fn add_line(&mut self, alloc: Global, line: &[u8]) -> Result<(), LineStop> {
        add_line(alloc, self, line)?;
        Ok(())
    }

    fn has_all(&self) -> bool {
        self.has_system()
    }
}
