//! From a system to its generators.

ghost use Rattle.std.specs.Prelude.{◌≡◌, IfOk, IfErr};
ghost use Rattle.rinv_defs.specs.SystemForm.{IsSystem};
ghost use Rattle.rinv_defs.specs.Laws.{AllLawsHold};
ghost use Rattle.rinv_text.specs.Told.{Told};
ghost use Rattle.rinv_gens.specs.Found.{ArePieces};
ghost use Rattle.rinv_gens.specs.Halts.{GenStopsSo};
ghost use Rattle.rinv_gens.specs.Runs.{BothEnd};
ghost use Rattle.rinv_gens.specs.Stopped.{HaltsAfterRuns};
ghost use Rattle.rinv_gens.specs.StopsAfter.{TellsStop};

use crate::kinds::{Findings, GenStop, Phase};
use crate::numbering::Numbered;
use crate::relations::{Related, RelationStop, relate};
use crate::runs::{Runs, both_runs, followed};
use rinv_buch::Why;
use rinv_text::System;
use std::alloc::Global;

/// What is found for a system: the group's basis, with which the laws are tested; the basis of the action's ideal; the reduced basis of the
/// extended ideal; its coefficients, each value that is no constant once; and the relations tied to these. No cofactors are made.
///
/// Law names the first part of a law that is false; Missed comes exactly where the section misses the orbits, once the laws hold;
/// Incomplete says in which phase pairs, steps or degrees ended the work, with the entries of both runs up to there.
pub fn pieces(alloc: Global, system: &System) -> Result<Findings, GenStop>
    requires { IsSystem system.now.system }
    ensures pieces { IfOk result (ArePieces system.now) }
    ensures stop { IfErr result (GenStopsSo system.now) }
{
    let runs = both_runs(alloc, system)?;
    match relate(alloc, system, &runs.action) {
        Ok(related) => Ok(put_together(runs, related)),
        Err(stop) => Err(stopped(runs, stop)),
    }
}

// All that was found.
fn put_together(runs: Runs, related: Related) -> Findings
    ensures group { result.group ≡ runs.group }
    ensures action { result.action ≡ runs.action }
    ensures monic { result.monic ≡ related.monic }
    ensures relations { result.relations.items ≡ related.numbered.relations.items }
    ensures fractions { result.fractions.items ≡ related.numbered.fractions.items }
{
    let Runs { group, action } = runs;
    let Related { monic, numbered } = related;
    let Numbered {
        relations,
        fractions,
    } = numbered;
    Findings {
        group,
        action,
        monic,
        relations,
        fractions,
    }
}

// The stop, with the entries of both runs where it has degrees.
fn stopped(runs: Runs, stop: RelationStop) -> GenStop
    ensures { (told : Told) → BothEnd told runs.group.basis runs.action → AllLawsHold told.system → TellsStop told runs.action stop result }
{
    match stop {
        RelationStop::Missed(element) => GenStop::Missed(element),
        RelationStop::InElimination { left, right } => {
            halted(runs, Phase::Action, Why::Degree { left, right })
        }
        RelationStop::InTails { left, right } => {
            halted(runs, Phase::Tail, Why::Degree { left, right })
        }
        RelationStop::NoMemory => GenStop::NoMemory,
    }
}

// A halt of the phase, after both runs.
fn halted(runs: Runs, phase: Phase, why: Why) -> GenStop
    ensures { HaltsAfterRuns runs phase why result }
{
    let Runs { group, action } = runs;
    match followed(group, action.journal) {
        Ok(journal) => GenStop::Incomplete {
            phase,
            journal,
            why,
        },
        Err(_) => GenStop::NoMemory,
    }
}
