//! What is known of a system whose queries are answered.

ghost use Rattle.std.specs.Prelude.{◌≡◌, ◌++◌, length, Bool, true, IfOk, IfErr, OnOk};
ghost use Rattle.rinv_defs.specs.SystemForm.{IsSystem};
ghost use Rattle.rinv_answers.specs.GeneratorLines.{generator_lines};
ghost use Rattle.rinv_text.specs.Told.{Told};
ghost use Rattle.rinv_answers.specs.Budgets.{IsLimited};
ghost use Rattle.rinv_lines.specs.Stopped.{StopsSo};
ghost use Rattle.rinv_script.specs.Queries.{Query, needs_generators};
ghost use Rattle.rinv_queries.specs.Commands.Run.{AreCompleteIf, IsUnknown};
ghost use Rattle.rinv_queries.specs.Known.{HasGroup, IsKnown, Suffices, fractions_of};

use rinv_answers::commands::generators::generated;
use rinv_answers::commands::laws::lawful;
use rinv_answers::write_generators;
use rinv_gens::Findings;
use rinv_laws::GroupBasis;
use rinv_lines::Stopped;
use rinv_rewrite::{SymbolBasis, prepared};
use rinv_text::System;
use std::alloc::{AllocError as NoMemory, Global};

/// What is known of a system whose queries are answered.
pub enum Known {
    /// Its laws hold: the basis of the group's ideal.
    Lawful(GroupBasis),
    /// All that is found on the way to its generators, and their relations made ready for rewriting.
    Generated(Findings, SymbolBasis),
}

impl Drop for Known {
    fn drop(self) {
        match self {
            Known::Lawful(_group) => {}
            Known::Generated(_found, _basis) => {}
        }
    }
}

impl Known {
    /// How many generators are known.
    pub fn count(&self) -> usize
        ensures { result ≡ length (fractions_of self.now) }
    {
        match self {
            Known::Lawful(_) => 0,
            Known::Generated(found, _) => found.fractions.len(),
        }
    }

    /// The basis of the group's ideal.
    pub(crate) fn group(&self) -> &GroupBasis
        ensures { (told : Told) → IsKnown told self.now → HasGroup told result.now }
    {
        match self {
            Known::Lawful(group) => group,
            Known::Generated(found, _) => &found.group,
        }
    }

    /// Appends the lines of the generators that are known.
    pub(crate) fn write_generators(
        &self,
        alloc: Global,
        system: &System,
        out: &mut Vec<u8>,
    ) -> Result<(), NoMemory>
        requires system { IsSystem system.now.system }
        requires known { IsKnown system.now self.now }
        ensures { OnOk result (out.new.items ≡ out.old.items ++ generator_lines system.now.system (fractions_of self.now)) }
    {
        match self {
            Known::Lawful(_) => Ok(()),
            Known::Generated(found, _) => write_generators(alloc, system, &found.fractions, out),
        }
    }
}

/// What is known of a system: that its laws hold, or, where they are needed, its generators. Where this is not so, the stop has what is
/// printed.
pub fn known_of(alloc: Global, system: &System, needed: bool) -> Result<Known, Stopped>
    requires system { IsSystem system.now.system }
    requires limits { IsLimited system.now }
    ensures known { IfOk result (IsKnown system.now) }
    ensures enough { IfOk result (λ k. (q : Query) → (needs_generators q ≡ true → needed ≡ true) → Suffices k q) }
    ensures complete { IfOk result (λ k. AreCompleteIf needed system.now.system (fractions_of k)) }
    ensures stop { IfErr result (StopsSo (IsUnknown needed system.now)) }
{
    if needed {
        let found = generated(alloc, system)?;
        let basis = prepared(alloc, system, &found)?;
        Ok(Known::Generated(found, basis))
    } else {
        let group = lawful(alloc, system)?;
        Ok(Known::Lawful(group))
    }
}
