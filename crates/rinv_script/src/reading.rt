//! From the bytes of a text to its script.

ghost use Rattle.std.specs.Prelude.{◌<◌, ◌-◌, ◌^◌, length, IfOk, IfErr};
ghost use Rattle.rinv_system.specs.Stops.{OnRefusal};
ghost use Rattle.rinv_script.specs.ScriptTexts.{IsScriptText, IsRefusedScript};
ghost use Rattle.rinv_script.specs.Stored.{IsStoredScript};

use crate::draft::ScriptDraft;
use crate::form::{Form, Script};
use rinv_system::{SystemStop, finished, read_text};
use std::alloc::Global;

/// The script that a text of fewer than 2^32 - 1 bytes denotes, in this form; or the first line that is refused, and why.
pub fn read_script(alloc: Global, bytes: &[u8], form: Form) -> Result<Script, SystemStop>
    requires { length bytes.now < 2 ^ 32 - 1 }
    ensures ok { IfOk result (IsScriptText form bytes.now) }
    ensures stored { IfOk result IsStoredScript }
    ensures fault { IfErr result (OnRefusal (IsRefusedScript form bytes.now)) }
{
    let draft = read_text(alloc, ScriptDraft::blank(alloc, form), bytes)?;
    let (system, queries) = draft.into_parts();
    match finished(alloc, system) {
        Some(system) => Ok(Script { system, queries }),
        None => unreachable!(),
    }
}
