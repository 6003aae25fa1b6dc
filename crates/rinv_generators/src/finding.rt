//! From a system to its generators, with their proofs.

ghost use Rattle.std.specs.Prelude.{◌≡◌, ◌<◌, ◌-◌, ◌^◌, [], All, IfOk, IfErr};
ghost use Rattle.rinv_defs.specs.SystemForm.{IsSystem};
ghost use Rattle.rinv_defs.specs.Invariant.{IsInvariant};
ghost use Rattle.rinv_defs.specs.Generators.{IsSound};
ghost use Rattle.rinv_text.specs.Told.{Told};
ghost use Rattle.rinv_gens.specs.Runs.{IsWithin};
ghost use Rattle.rinv_generators.specs.Generated.{IsGenerators};
ghost use Rattle.rinv_generators.specs.Stops.{NeverMissesSo, SectionStopsSo, StopsSo};

use crate::kinds::{Generators, SectionStop};
use crate::making::{made_for, with_system};
use rinv_gens::GenStop;
use rinv_text::System;
use std::alloc::Global;

/// The generators of a system without a section: each invariant fraction, of any degree, is a rational expression in them. Where there are
/// none, the system is handed back: Law names the first part of a law that is false; Incomplete says in which phase pairs, steps or degrees
/// ended the work, with the entries of both runs up to there. Missed never comes.
pub fn generators(alloc: Global, system: System) -> Result<Generators, (System, GenStop)>
    requires system { IsSystem system.system }
    requires no_section { system.system.section ≡ [] }
    ensures generators { IfOk result (λ g. (g.told ≡ system) × IsGenerators g) }
    ensures sound { IfOk result (λ g. IsSound system.system g.fractions) }
    ensures within { IfOk result (λ g. system.pairs < 2 ^ 32 - 1 → system.steps < 2 ^ 64 - 1 → IsWithin system g.journal) }
    ensures handed_back { IfErr result (λ e. e.0 ≡ system) }
    ensures stop { IfErr result (λ e. NeverMissesSo system e.1) }
{
    match made_for(alloc, &system) {
        Ok(made) => Ok(with_system(system, made)),
        Err(stop) => Err((system, stop)),
    }
}

/// The generators of a system with or without a section. Misses comes exactly where the section misses the orbits, once the laws hold; else
/// the stop is as that of `generators`. The system is handed back.
pub fn generators_on(alloc: Global, system: System) -> Result<Generators, (System, SectionStop)>
    requires system { IsSystem system.system }
    ensures generators { IfOk result (λ g. (g.told ≡ system) × IsGenerators g) }
    ensures invariant { IfOk result (λ g. All (IsInvariant system.system) g.fractions) }
    ensures within { IfOk result (λ g. system.pairs < 2 ^ 32 - 1 → system.steps < 2 ^ 64 - 1 → IsWithin system g.journal) }
    ensures handed_back { IfErr result (λ e. e.0 ≡ system) }
    ensures stop { IfErr result (λ e. SectionStopsSo system e.1) }
{
    match made_for(alloc, &system) {
        Ok(made) => Ok(with_system(system, made)),
        Err(stop) => Err((system, told_apart(stop))),
    }
}

// What is missed, told apart from the other stops.
fn told_apart(stop: GenStop) -> SectionStop
    ensures { (told : Told) → StopsSo told stop → SectionStopsSo told result }
{
    match stop {
        GenStop::Law(fault) => SectionStop::Gen(GenStop::Law(fault)),
        GenStop::Missed(element) => SectionStop::Misses { element },
        GenStop::Incomplete {
            phase,
            journal,
            why,
        } => SectionStop::Gen(GenStop::Incomplete {
            phase,
            journal,
            why,
        }),
        GenStop::NoMemory => SectionStop::Gen(GenStop::NoMemory),
    }
}
