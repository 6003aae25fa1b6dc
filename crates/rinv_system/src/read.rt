//! From the bytes of a text to its system.

ghost use Rattle.std.specs.Prelude.{◌≡◌, ◌<◌, ◌-◌, ◌^◌, length, IfOk, IfErr, IsTrue, IsFalse, MatchOption};
ghost use Rattle.rinv_defs.specs.SystemForm.{IsSystem};
ghost use Rattle.rinv_system.specs.Drafts.{is_whole};
ghost use Rattle.rinv_system.specs.Texts.{told_by, IsSystemText, IsRefusedText};
ghost use Rattle.rinv_system.specs.Stops.{OnRefusal};

use crate::draft::Draft;
use crate::reader::read_text;
use crate::refused::SystemStop;
use rinv_text::System;
use std::alloc::Global;

// The greatest numbers of pairs and of steps, where the text does not give them.
const PAIRS: u32 = 10_000;

const STEPS: u64 = 10_000_000;

/// The system of a draft, if all the lines that are needed have come.
pub fn finished(alloc: Global, draft: Draft) -> Option<System>
    ensures { MatchOption result (IsFalse (is_whole draft)) (λ s. IsTrue (is_whole draft) × (s ≡ told_by draft)) }
{
    let (
        Some(field),
        Some(group),
        Some(space),
        Some(unit),
        Some(product),
        Some(inverse),
        Some(action),
    ) = (
        draft.field,
        draft.group,
        draft.space,
        draft.unit,
        draft.product,
        draft.inverse,
        draft.action,
    ) else {
        return None;
    };
    Some(System {
        field,
        group,
        space,
        ideal: draft.ideal.unwrap_or(Vec::new(alloc)),
        unit,
        product,
        inverse,
        action,
        section: draft.section.unwrap_or(Vec::new(alloc)),
        pairs: draft.pairs.unwrap_or(PAIRS),
        steps: draft.steps.unwrap_or(STEPS),
    })
}

/// The system that a text of fewer than 2^32 - 1 bytes denotes; or the first line that is refused, and why.
pub fn read_system(alloc: Global, bytes: &[u8]) -> Result<System, SystemStop>
    requires { length bytes.now < 2 ^ 32 - 1 }
    ensures ok { IfOk result (IsSystemText bytes.now) }
    ensures form { IfOk result (λ told. IsSystem told.system) }
    ensures fault { IfErr result (OnRefusal (IsRefusedText bytes.now)) }
{
    let draft = read_text(alloc, Draft::blank(), bytes)?;
    match finished(alloc, draft) {
        Some(system) => Ok(system),
        None => unreachable!(),
    }
}
