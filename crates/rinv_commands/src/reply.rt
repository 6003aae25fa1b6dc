//! The answer of a command to bytes, in one line a command.

ghost use Rattle.std.specs.Prelude.{◌<◌, ◌-◌, ◌^◌, length, IfOk};
ghost use Rattle.rinv_commands.specs.Answers.{IsAnswer};
ghost use Rattle.rinv_commands.specs.Inputs.{IsWithinRange};

use crate::command::Command;
use rinv_answers::commands::{generators, laws};
use rinv_bench::commands::bench;
use rinv_lines::Ending;
use rinv_queries::commands::{rewrite, run};
use std::alloc::{AllocError as NoMemory, Global};

/// The text that the command answers to these bytes, and how it ends.
pub fn answer(alloc: Global, command: Command, bytes: &[u8]) -> Result<(Vec<u8>, Ending), NoMemory>
    requires bytes { length bytes.now < 2 ^ 32 - 1 }
    requires numbers { IsWithinRange command }
    ensures { IfOk result (λ a. IsAnswer command bytes.now a.0.items a.1) }
{
    match command {
        Command::Check => rinv_verdict::answer(alloc, bytes),
        Command::Laws => laws::answer(alloc, bytes),
        Command::Gen => generators::answer(alloc, bytes),
        Command::Rewrite => rewrite::answer(alloc, bytes),
        Command::Certify => rinv_certificates::answer(alloc, bytes),
        Command::Run => run::answer(alloc, bytes),
        Command::Bench(k) => bench::answer(alloc, k),
    }
}
