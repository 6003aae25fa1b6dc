//! The answers to the queries of a script, one after another.

ghost use Rattle.std.specs.Prelude.{◌≡◌, ◌||◌, ◌++◌, All, map, length, false, if◌then◌else◌, IfOk, IfErr, OnOk};
ghost use Rattle.rinv_defs.specs.System.{space_count};
ghost use Rattle.rinv_defs.specs.SystemForm.{IsSystem};
ghost use Rattle.rinv_ring.specs.Fault.{DegreesMeet};
ghost use Rattle.rinv_script.specs.Queries.{needs_generators};
ghost use Rattle.rinv_script.specs.Stored.{IsStoredQuery, query_of};
ghost use Rattle.rinv_lines.specs.declared.ending.Ending.TheVariants.{Done, Denied};
ghost use Rattle.rinv_lines.specs.Stopped.{StopsSo};
ghost use Rattle.rinv_queries.specs.Cuts.{IsUnanswered, MeetsAt, QueryMeets};
ghost use Rattle.rinv_queries.specs.Known.{IsKnown, Suffices, fractions_of, lines_ahead};
ghost use Rattle.rinv_queries.specs.Written.{AreVariables, IsTurn, IsPage, IsPageAfter};

use crate::known::Known;
use crate::lines::{Variables, variables_of, write_head, write_outcome};
use crate::needs::needs_generators;
use crate::outcomes::outcome;
use rinv_answers::{Cause, Phase, incomplete_line};
use rinv_lines::{Ending, Stopped};
use rinv_ring::RingFault;
use rinv_script::Query;
use rinv_text::System;
use std::alloc::{AllocError as NoMemory, Global};

/// What was written so far: its text, whether the generators stand in it, and whether something was denied.
#[derive(Drop)]
pub(crate) struct Page {
    pub(crate) text: Vec<u8>,
    pub(crate) shown: bool,
    pub(crate) denied: bool,
}

/// Why a query has no answer.
#[derive(Clone, Copy, Debug, PartialEq, Eq)]
pub(crate) enum QueryStop {
    /// The answer to the query with this number meets these degrees.
    Degree {
        number: usize,
        left: u32,
        right: u32,
    },
    NoMemory,
}

impl From<NoMemory> for QueryStop {
    ghost use Rattle.std.specs.Prelude.{◌≡◌};
    ghost use Rattle.rinv_queries.specs.declared.answering.QueryStop.TheVariants.{NoMemory};

    ghost from_gives = { λ _ e. e ≡ NoMemory };

    fn from(_error: NoMemory) -> QueryStop {
        QueryStop::NoMemory
    }
}

/// The answers to all queries, behind a text in which the generators stand or not. Where one of them meets degrees, the stop has the line
/// that tells so.
pub(crate) fn answered(
    alloc: Global,
    system: &System,
    known: &Known,
    queries: &[Query],
    shown: bool,
    text: Vec<u8>,
) -> Result<Page, Stopped>
    requires system { IsSystem system.now.system }
    requires known { IsKnown system.now known.now }
    requires queries { All (IsStoredQuery system.now.system.p (space_count system.now.system)) (map query_of queries.now) }
    requires enough { All (Suffices known.now) (map query_of queries.now) }
    ensures answered { IfOk result (IsPage system.now.system (fractions_of known.now) shown text.items (map query_of queries.now)) }
    ensures stop { IfErr result (StopsSo (IsUnanswered system.now (map query_of queries.now))) }
{
    let denied = false;
    let page = Page {
        text,
        shown,
        denied,
    };
    match turns(alloc, system, known, queries, page) {
        Ok(page) => Ok(page),
        Err(
            QueryStop::Degree {
                number,
                left,
                right,
            },
        ) => {
            let cause = Cause::Degree(left, right);
            let line = incomplete_line(alloc, Phase::Query(number), cause)?;
            Err(Stopped::Answer(line, Ending::Incomplete))
        }
        Err(QueryStop::NoMemory) => Err(Stopped::NoMemory),
    }
}

// The answers to all queries, on a page on which none stands.
fn turns(
    alloc: Global,
    system: &System,
    known: &Known,
    queries: &[Query],
    page: Page,
) -> Result<Page, QueryStop>
    requires system { IsSystem system.now.system }
    requires known { IsKnown system.now known.now }
    requires queries { All (IsStoredQuery system.now.system.p (space_count system.now.system)) (map query_of queries.now) }
    requires enough { All (Suffices known.now) (map query_of queries.now) }
    requires fresh { page.denied ≡ false }
    ensures answered { IfOk result (IsPageAfter system.now.system known.now page (map query_of queries.now)) }
    ensures stop { IfErr result (MeetsAt system.now (map query_of queries.now)) }
{
    let names = variables_of(alloc, system, known.count())?;
    let mut page = page;
    'queries: for k in 0..queries.len() {
        match turn(alloc, system, known, &names, k + 1, &queries[k], &mut page) {
            Ok(()) => {}
            Err(RingFault::Degree { left, right }) => {
                let number = k + 1;
                return Err(QueryStop::Degree {
                    number,
                    left,
                    right,
                });
            }
            Err(RingFault::NoMemory) => return Err(QueryStop::NoMemory),
        }
    }
    Ok(page)
}

// The answer to one query more.
fn turn(
    alloc: Global,
    system: &System,
    known: &Known,
    names: &Variables,
    number: usize,
    query: &Query,
    page: &mut Page,
) -> Result<(), RingFault>
    requires system { IsSystem system.now.system }
    requires known { IsKnown system.now known.now }
    requires names { AreVariables system.now.system (length (fractions_of known.now)) names.now }
    requires query { IsStoredQuery system.now.system.p (space_count system.now.system) (query_of query.now) }
    requires enough { Suffices known.now (query_of query.now) }
    ensures answered { OnOk result (IsTurn system.now.system (fractions_of known.now) number (query_of query.now) page.old page.new) }
    ensures degree { IfErr result (DegreesMeet (QueryMeets system.now (query_of query.now))) }
{
    let outcome = outcome(alloc, system, known, query)?;
    write_before(
        alloc,
        system,
        known,
        page.shown,
        number,
        query,
        &mut page.text,
    )?;
    write_outcome(alloc, system, names, number, &outcome, &mut page.text)?;
    page.shown = either(page.shown, needs_generators(query));
    page.denied = either(page.denied, outcome.denies());
    Ok(())
}

// Whether one of them holds.
fn either(a: bool, b: bool) -> bool
    ensures { result ≡ (a || b) }
{
    a || b
}

// Appends what stands before the line of a query.
fn write_before(
    alloc: Global,
    system: &System,
    known: &Known,
    shown: bool,
    number: usize,
    query: &Query,
    out: &mut Vec<u8>,
) -> Result<(), NoMemory>
    requires system { IsSystem system.now.system }
    requires known { IsKnown system.now known.now }
    ensures { OnOk result (out.new.items ≡ out.old.items ++ lines_ahead system.now.system known.now shown number (query_of query.now)) }
{
    match query {
        Query::Laws | Query::Invariant(_) => {}
        Query::Generators => {
            write_head(alloc, "generators ", number, "\n", out)?;
            known.write_generators(alloc, system, out)?;
        }
        Query::Rewrite(_) => {
            if !shown {
                known.write_generators(alloc, system, out)?;
            }
        }
    }
    Ok(())
}

/// How answered queries end.
pub(crate) fn ending_of(denied: bool) -> Ending
    ensures { result ≡ (if denied then Denied else Done) }
{
    if denied { Ending::Denied } else { Ending::Done }
}
