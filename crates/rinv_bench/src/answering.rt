//! The outcomes of all queries of a script.

ghost use Rattle.std.specs.Prelude.{All, List, map, length, IfOk, IfErr};
ghost use Rattle.rinv_defs.specs.System.{space_count};
ghost use Rattle.rinv_defs.specs.SystemForm.{IsSystem};
ghost use Rattle.rinv_defs.specs.Laws.{AllLawsHold};
ghost use Rattle.rinv_text.specs.Told.{Told};
ghost use Rattle.rinv_script.specs.Queries.{Query as Asked};
ghost use Rattle.rinv_script.specs.Stored.{IsStoredQuery, query_of};
ghost use Rattle.rinv_lines.specs.Stopped.{StopsSo};
ghost use Rattle.rinv_queries.specs.Cuts.{IsUnanswered};
ghost use Rattle.rinv_queries.specs.Known.{IsKnown, Suffices, fractions_of};
ghost use Rattle.rinv_queries.specs.Outcomes.{AreAnswered};
ghost use Rattle.rinv_queries.specs.Written.{IsStoredOutcome};
ghost use Rattle.rinv_bench.specs.Cuts.{IsCutAt};

use rinv_answers::{Cause, Phase, incomplete_line};
use rinv_lines::{Ending, Stopped};
use rinv_queries::outcomes::outcome;
use rinv_queries::{Known, Outcome};
use rinv_ring::RingFault;
use rinv_script::Query;
use rinv_text::System;
use std::alloc::Global;

/// The outcomes of all queries, in their order. Where one of them meets degrees, the stop has the line that tells so.
pub(crate) fn outcomes_of(
    alloc: Global,
    system: &System,
    known: &Known,
    queries: &[Query],
) -> Result<Vec<Outcome>, Stopped>
    requires system { IsSystem system.now.system }
    requires known { IsKnown system.now known.now }
    requires queries { All (IsStoredQuery system.now.system.p (space_count system.now.system)) (map query_of queries.now) }
    requires enough { All (Suffices known.now) (map query_of queries.now) }
    ensures answered { IfOk result (λ v. AreAnswered system.now.system (fractions_of known.now) (map query_of queries.now) v.items) }
    ensures stored { IfOk result (λ v. All (IsStoredOutcome system.now.system (length (fractions_of known.now))) v.items) }
    ensures stop { IfErr result (StopsSo (IsUnanswered system.now (map query_of queries.now))) }
{
    let mut outcomes = Vec::new(alloc);
    'queries: for k in 0..queries.len() {
        match outcome(alloc, system, known, &queries[k]) {
            Ok(found) => {
                let Ok(()) = outcomes.push(found) else {
                    return Err(Stopped::NoMemory);
                };
            }
            Err(fault) => return Err(cut(alloc, k + 1, fault)),
        }
    }
    Ok(outcomes)
}

// What is printed where the answer to the query with this number meets degrees.
fn cut(alloc: Global, number: usize, fault: RingFault) -> Stopped
    ensures { (told : Told) (queries : List Asked) → AllLawsHold told.system → IsCutAt told queries number fault result }
{
    let RingFault::Degree { left, right } = fault else {
        return Stopped::NoMemory;
    };
    let cause = Cause::Degree(left, right);
    match incomplete_line(alloc, Phase::Query(number), cause) {
        Ok(line) => Stopped::Answer(line, Ending::Incomplete),
        Err(_) => Stopped::NoMemory,
    }
}
