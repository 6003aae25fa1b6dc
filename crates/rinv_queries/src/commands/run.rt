//! The answer to the bytes of a script: a text and how it ends.

ghost use Rattle.std.specs.Prelude.{◌≡◌, ◌<◌, ◌-◌, ◌^◌, length, map, IfOk, IfErr};
ghost use Rattle.rinv_script.specs.Stored.{IsStoredScript, query_of};
ghost use Rattle.rinv_answers.specs.Budgets.{IsLimited};
ghost use Rattle.rinv_lines.specs.Stopped.{StopsSo};
ghost use Rattle.rinv_queries.specs.Lines.{last_line_of};
ghost use Rattle.rinv_queries.specs.Commands.Script.{asking};
ghost use Rattle.rinv_queries.specs.Commands.Run.{IsRunAnswer, IsScripted};

use crate::answering::{Page, answered, ending_of};
use crate::known::known_of;
use crate::needs::need_generators;
use rinv_answers::{complete_line, refused_line};
use rinv_lines::{Ending, Stopped};
use rinv_script::{Form, Query, Script, read_script};
use rinv_system::SystemStop;
use rinv_text::System;
use std::alloc::{AllocError as NoMemory, Global};

/// What is printed for the bytes of a script, and how that ends.
pub fn answer(alloc: Global, bytes: &[u8]) -> Result<(Vec<u8>, Ending), NoMemory>
    requires { length bytes.now < 2 ^ 32 - 1 }
    ensures { IfOk result (λ a. IsRunAnswer bytes.now a.0.items a.1) }
{
    let script = match read_script(alloc, bytes, Form::Whole) {
        Ok(script) => script,
        Err(SystemStop::Refused(refused)) => {
            let text = refused_line(alloc, refused)?;
            return Ok((text, Ending::Refused));
        }
        Err(SystemStop::NoMemory) => return Err(NoMemory),
    };
    let answer = settled(alloc, &script)?;
    Ok(answer)
}

// The answer, or what stands in its place.
fn settled(alloc: Global, script: &Script) -> Result<(Vec<u8>, Ending), NoMemory>
    requires script { IsStoredScript script.now }
    requires limits { IsLimited script.now.told }
    ensures { IfOk result (λ a. IsScripted script.now a.0.items a.1) }
{
    match scripted(alloc, &script.system, script.queries.as_slice()) {
        Ok(answer) => Ok(answer),
        Err(Stopped::Answer(text, ending)) => Ok((text, ending)),
        Err(Stopped::NoMemory) => Err(NoMemory),
    }
}

// The answer to each query. Generators are found only where one of them needs these.
fn scripted(alloc: Global, system: &System, queries: &[Query]) -> Result<(Vec<u8>, Ending), Stopped>
    requires script { IsStoredScript (asking system.now (map query_of queries.now)) }
    requires limits { IsLimited system.now }
    ensures shown { IfOk result (λ a. IsScripted (asking system.now (map query_of queries.now)) a.0.items a.1) }
    ensures stop { IfErr result (StopsSo (IsScripted (asking system.now (map query_of queries.now)))) }
{
    let needed = need_generators(queries);
    let known = known_of(alloc, system, needed)?;
    let page = answered(alloc, system, &known, queries, false, Vec::new(alloc))?;
    let Page {
        mut text,
        denied,
        ..
    } = page;
    text.extend_from_slice(last_line(system, needed))?;
    Ok((text, ending_of(denied)))
}

// The last line: `done` where no generators are needed.
fn last_line(system: &System, needed: bool) -> &'static [u8]
    ensures { result.now ≡ last_line_of needed system.now.system }
{
    if needed {
        complete_line(system)
    } else {
        b"done\n"
    }
}
