//! The answer to the bytes of a system whose generators are to be certified: a text and how it ends.

ghost use Rattle.std.specs.Prelude.{◌≡◌, ◌<◌, ◌-◌, ◌^◌, length, IfOk};
ghost use Rattle.rinv_defs.specs.SystemForm.{IsSystem};
ghost use Rattle.rinv_answers.specs.Budgets.{IsLimited};
ghost use Rattle.rinv_certificates.specs.Commands.Certify.{IsCertifyAnswer, IsMade};

use crate::stopping::stopped;
use crate::text::certificate_answer;
use rinv_answers::refused_line;
use rinv_generators::generators_on;
use rinv_lines::Ending;
use rinv_system::{SystemStop, read_system};
use rinv_text::System;
use std::alloc::{AllocError as NoMemory, Global};

/// What is printed for the bytes of a system, and how that ends.
pub fn answer(alloc: Global, bytes: &[u8]) -> Result<(Vec<u8>, Ending), NoMemory>
    requires { length bytes.now < 2 ^ 32 - 1 }
    ensures { IfOk result (λ a. IsCertifyAnswer bytes.now a.0.items a.1) }
{
    let system = match read_system(alloc, bytes) {
        Ok(system) => system,
        Err(SystemStop::Refused(refused)) => {
            let text = refused_line(alloc, refused)?;
            return Ok((text, Ending::Refused));
        }
        Err(SystemStop::NoMemory) => return Err(NoMemory),
    };
    let answer = certified(alloc, system)?;
    Ok(answer)
}

// The certificate of the system's generators, or why there is none.
fn certified(alloc: Global, system: System) -> Result<(Vec<u8>, Ending), NoMemory>
    requires system { IsSystem system.system }
    requires limits { IsLimited system }
    ensures { IfOk result (λ a. IsMade system a.0.items a.1) }
{
    match generators_on(alloc, system) {
        Ok(gens) => {
            let answer = certificate_answer(alloc, &gens)?;
            Ok(answer)
        }
        Err((system, stop)) => {
            let answer = stopped(alloc, &system, stop)?;
            Ok(answer)
        }
    }
}
