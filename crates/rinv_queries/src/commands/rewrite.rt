//! The answer to the bytes of a system with `rewrite` lines: a text and how it ends.

ghost use Rattle.std.specs.Prelude.{◌<◌, ◌-◌, ◌^◌, length, map, IfOk, IfErr};
ghost use Rattle.rinv_script.specs.Stored.{IsStoredScript, query_of};
ghost use Rattle.rinv_answers.specs.Budgets.{IsLimited};
ghost use Rattle.rinv_lines.specs.Stopped.{StopsSo};
ghost use Rattle.rinv_queries.specs.Commands.Script.{asking};
ghost use Rattle.rinv_queries.specs.Commands.Rewrite.{IsRewriteAnswer, IsRewritten};

use crate::answering::{Page, answered, ending_of};
use crate::known::known_of;
use rinv_answers::{complete_line, refused_line};
use rinv_lines::{Ending, Stopped};
use rinv_script::{Form, Query, Script, read_script};
use rinv_system::SystemStop;
use rinv_text::System;
use std::alloc::{AllocError as NoMemory, Global};

/// What is printed for the bytes of a system with `rewrite` lines, and how that ends.
pub fn answer(alloc: Global, bytes: &[u8]) -> Result<(Vec<u8>, Ending), NoMemory>
    requires { length bytes.now < 2 ^ 32 - 1 }
    ensures { IfOk result (λ a. IsRewriteAnswer bytes.now a.0.items a.1) }
{
    let script = match read_script(alloc, bytes, Form::Rewrites) {
        Ok(script) => script,
        Err(SystemStop::Refused(refused)) => {
            let text = refused_line(alloc, refused)?;
            return Ok((text, Ending::Refused));
        }
        Err(SystemStop::NoMemory) => return Err(NoMemory),
    };
    let answer = settled(alloc, &script)?;
    Ok(answer)
}

// The answer, or what stands in its place.
fn settled(alloc: Global, script: &Script) -> Result<(Vec<u8>, Ending), NoMemory>
    requires script { IsStoredScript script.now }
    requires limits { IsLimited script.now.told }
    ensures { IfOk result (λ a. IsRewritten script.now a.0.items a.1) }
{
    match rewritten(alloc, &script.system, script.queries.as_slice()) {
        Ok(answer) => Ok(answer),
        Err(Stopped::Answer(text, ending)) => Ok((text, ending)),
        Err(Stopped::NoMemory) => Err(NoMemory),
    }
}

// The generators, and the answer to each query.
fn rewritten(
    alloc: Global,
    system: &System,
    queries: &[Query],
) -> Result<(Vec<u8>, Ending), Stopped>
    requires script { IsStoredScript (asking system.now (map query_of queries.now)) }
    requires limits { IsLimited system.now }
    ensures shown { IfOk result (λ a. IsRewritten (asking system.now (map query_of queries.now)) a.0.items a.1) }
    ensures stop { IfErr result (StopsSo (IsRewritten (asking system.now (map query_of queries.now)))) }
{
    let known = known_of(alloc, system, true)?;
    let mut head = Vec::new(alloc);
    known.write_generators(alloc, system, &mut head)?;
    let page = answered(alloc, system, &known, queries, true, head)?;
    let Page {
        mut text,
        denied,
        ..
    } = page;
    text.extend_from_slice(complete_line(system))?;
    Ok((text, ending_of(denied)))
}
