//! What is printed where a system has no generators with their proofs.

ghost use Rattle.std.specs.Prelude.{IfOk};
ghost use Rattle.rinv_defs.specs.SystemForm.{IsSystem};
ghost use Rattle.rinv_generators.specs.Stops.{NeverMissesSo, SectionStopsSo};
ghost use Rattle.rinv_answers.specs.Budgets.{IsLimited};
ghost use Rattle.rinv_certificates.specs.Commands.Certify.{IsMade};

use rinv_answers::commands::generators::phase_of;
use rinv_answers::{cause_of, fault_line, incomplete_line, missed_line};
use rinv_generators::SectionStop;
use rinv_gens::GenStop;
use rinv_lines::Ending;
use rinv_text::System;
use std::alloc::{AllocError as NoMemory, Global};

/// A law that is false, a section that misses the orbits, or a phase that is halted.
pub(crate) fn stopped(
    alloc: Global,
    system: &System,
    stop: SectionStop,
) -> Result<(Vec<u8>, Ending), NoMemory>
    requires system { IsSystem system.now.system }
    requires limits { IsLimited system.now }
    requires stop { SectionStopsSo system.now stop }
    ensures { IfOk result (λ a. IsMade system.now a.0.items a.1) }
{
    match stop {
        SectionStop::Misses { element } => {
            let text = missed_line(alloc, system, &element)?;
            Ok((text, Ending::Denied))
        }
        SectionStop::Gen(stop) => {
            let answer = halted(alloc, system, stop)?;
            Ok(answer)
        }
    }
}

// Where the section misses nothing.
fn halted(alloc: Global, system: &System, stop: GenStop) -> Result<(Vec<u8>, Ending), NoMemory>
    requires system { IsSystem system.now.system }
    requires limits { IsLimited system.now }
    requires stop { NeverMissesSo system.now stop }
    ensures { IfOk result (λ a. IsMade system.now a.0.items a.1) }
{
    match stop {
        GenStop::Law(fault) => {
            let text = fault_line(alloc, system, &fault)?;
            Ok((text, Ending::Denied))
        }
        GenStop::Missed(_element) => unreachable!(),
        GenStop::Incomplete { phase, why, .. } => {
            let cause = cause_of(system, &why);
            let text = incomplete_line(alloc, phase_of(phase), cause)?;
            Ok((text, Ending::Incomplete))
        }
        GenStop::NoMemory => Err(NoMemory),
    }
}
