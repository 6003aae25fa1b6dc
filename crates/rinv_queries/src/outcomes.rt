//! The outcome of one query.

ghost use Rattle.std.specs.Prelude.{length, IfOk, IfErr};
ghost use Rattle.rinv_defs.specs.System.{space_count};
ghost use Rattle.rinv_defs.specs.SystemForm.{IsSystem};
ghost use Rattle.rinv_ring.specs.Fault.{DegreesMeet};
ghost use Rattle.rinv_frac.specs.Fractions.{IsStored};
ghost use Rattle.rinv_gens.specs.Found.{ArePieces};
ghost use Rattle.rinv_rewrite.specs.Prepared.{IsPrepared};
ghost use Rattle.rinv_script.specs.Queries.{whether_invariant, for_expression};
ghost use Rattle.rinv_script.specs.Stored.{IsStoredQuery, query_of};
ghost use Rattle.rinv_queries.specs.Outcomes.{Answers};
ghost use Rattle.rinv_queries.specs.Cuts.{QueryMeets};
ghost use Rattle.rinv_queries.specs.Known.{IsKnown, Suffices, fractions_of};
ghost use Rattle.rinv_queries.specs.Written.{IsStoredOutcome};

use crate::known::Known;
use crate::outcome::Outcome;
use rinv_change::test_invariant;
use rinv_frac::Frac;
use rinv_gens::Findings;
use rinv_rewrite::{RewriteStop, SymbolBasis, rewritten};
use rinv_ring::RingFault;
use rinv_script::Query;
use rinv_text::System;
use std::alloc::Global;

/// The outcome of a query, by what is known of its system. Degree comes only where the test of an invariant, or rewriting, meets these
/// degrees.
pub fn outcome(
    alloc: Global,
    system: &System,
    known: &Known,
    query: &Query,
) -> Result<Outcome, RingFault>
    requires system { IsSystem system.now.system }
    requires known { IsKnown system.now known.now }
    requires query { IsStoredQuery system.now.system.p (space_count system.now.system) (query_of query.now) }
    requires enough { Suffices known.now (query_of query.now) }
    ensures answers { IfOk result (Answers system.now.system (fractions_of known.now) (query_of query.now)) }
    ensures stored { IfOk result (IsStoredOutcome system.now.system (length (fractions_of known.now))) }
    ensures degree { IfErr result (DegreesMeet (QueryMeets system.now (query_of query.now))) }
{
    match query {
        Query::Laws => Ok(Outcome::LawsHold),
        Query::Generators => Ok(Outcome::GeneratorsShown),
        Query::Invariant(f) => invariance(alloc, system, known, f),
        Query::Rewrite(f) => match known {
            Known::Generated(found, basis) => expression(alloc, system, found, basis, f),
            Known::Lawful(_) => unreachable!(),
        },
    }
}

// Whether a fraction is invariant.
fn invariance(alloc: Global, system: &System, known: &Known, f: &Frac) -> Result<Outcome, RingFault>
    requires system { IsSystem system.now.system }
    requires known { IsKnown system.now known.now }
    requires fraction { IsStored system.now.system.p (space_count system.now.system) f.now }
    ensures answers { IfOk result (Answers system.now.system (fractions_of known.now) (whether_invariant f.now)) }
    ensures stored { IfOk result (IsStoredOutcome system.now.system (length (fractions_of known.now))) }
    ensures degree { IfErr result (DegreesMeet (QueryMeets system.now (whether_invariant f.now))) }
{
    match test_invariant(alloc, system, known.group(), f) {
        Ok(None) => Ok(Outcome::Invariant),
        Ok(Some(rest)) => Ok(Outcome::NotInvariant(rest)),
        Err(fault) => Err(fault),
    }
}

// The expression of a fraction in the generators.
fn expression(
    alloc: Global,
    system: &System,
    found: &Findings,
    basis: &SymbolBasis,
    f: &Frac,
) -> Result<Outcome, RingFault>
    requires system { IsSystem system.now.system }
    requires pieces { ArePieces system.now found.now }
    requires basis { IsPrepared system.now.system found.now basis.now }
    requires fraction { IsStored system.now.system.p (space_count system.now.system) f.now }
    ensures answers { IfOk result (Answers system.now.system found.now.fractions.items (for_expression f.now)) }
    ensures stored { IfOk result (IsStoredOutcome system.now.system (length found.now.fractions.items)) }
    ensures degree { IfErr result (DegreesMeet (QueryMeets system.now (for_expression f.now))) }
{
    match rewritten(alloc, system, found, basis, f) {
        Ok(Some(expression)) => Ok(Outcome::Rewritten(expression)),
        Ok(None) => Ok(Outcome::Vanishing),
        Err(RewriteStop::NotInvariant { rest }) => Ok(Outcome::NotRewritten(rest)),
        Err(RewriteStop::Degree { left, right }) => Err(RingFault::Degree { left, right }),
        Err(RewriteStop::NoMemory) => Err(RingFault::NoMemory),
    }
}
