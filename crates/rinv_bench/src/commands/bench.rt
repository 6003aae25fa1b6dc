//! The answer to the workload: a text and how it ends.

ghost use Rattle.std.specs.Prelude.{◌≤◌, map, IfOk, IfErr};
ghost use Rattle.rinv_lines.specs.Stopped.{StopsSo};
ghost use Rattle.rinv_script.specs.Stored.{IsStoredScript, query_of};
ghost use Rattle.rinv_answers.specs.Budgets.{IsLimited};
ghost use Rattle.rinv_queries.specs.Commands.Script.{asking};
ghost use Rattle.rinv_bench.specs.Commands.Bench.{IsBenchAnswer, IsMeasured};

use crate::answering::outcomes_of;
use crate::summary::summary;
use rinv_answers::refused_line;
use rinv_lines::{Ending, Stopped};
use rinv_queries::known_of;
use rinv_script::{Form, Query, Script, read_script};
use rinv_system::SystemStop;
use rinv_text::System;
use rinv_workload::bench_text;
use std::alloc::{AllocError as NoMemory, Global};

/// What is printed of the workload with so many queries, and how that ends.
pub fn answer(alloc: Global, k: u32) -> Result<(Vec<u8>, Ending), NoMemory>
    requires { (1 ≤ k) × (k ≤ 1000) }
    ensures { IfOk result (λ a. IsBenchAnswer k a.0.items a.1) }
{
    let text = bench_text(alloc, k)?;
    let script = match read_script(alloc, text.as_slice(), Form::Whole) {
        Ok(script) => script,
        Err(SystemStop::Refused(refused)) => {
            let line = refused_line(alloc, refused)?;
            return Ok((line, Ending::Refused));
        }
        Err(SystemStop::NoMemory) => return Err(NoMemory),
    };
    let answer = settled(alloc, k, &script)?;
    Ok(answer)
}

// The answer, or what stands in its place.
fn settled(alloc: Global, k: u32, script: &Script) -> Result<(Vec<u8>, Ending), NoMemory>
    requires script { IsStoredScript script.now }
    requires limits { IsLimited script.now.told }
    ensures { IfOk result (λ a. IsMeasured k script.now a.0.items a.1) }
{
    match measured(alloc, k, &script.system, script.queries.as_slice()) {
        Ok(answer) => Ok(answer),
        Err(Stopped::Answer(text, ending)) => Ok((text, ending)),
        Err(Stopped::NoMemory) => Err(NoMemory),
    }
}

// The summary of the answers to all queries.
fn measured(
    alloc: Global,
    k: u32,
    system: &System,
    queries: &[Query],
) -> Result<(Vec<u8>, Ending), Stopped>
    requires script { IsStoredScript (asking system.now (map query_of queries.now)) }
    requires limits { IsLimited system.now }
    ensures shown { IfOk result (λ a. IsMeasured k (asking system.now (map query_of queries.now)) a.0.items a.1) }
    ensures stop { IfErr result (StopsSo (IsMeasured k (asking system.now (map query_of queries.now)))) }
{
    let known = known_of(alloc, system, true)?;
    let outcomes = outcomes_of(alloc, system, &known, queries)?;
    let text = summary(alloc, k, system, known.count(), outcomes.as_slice())?;
    Ok((text, Ending::Done))
}
