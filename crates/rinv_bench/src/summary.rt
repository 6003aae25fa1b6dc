//! The summary that is printed of a workload.

ghost use Rattle.std.specs.Prelude.{◌≡◌, ◌++◌, All, length, false, IfOk, OnOk};
ghost use Rattle.std.specs.Option.{MatchOption};
ghost use Rattle.rinv_defs.specs.SystemForm.{IsSystem};
ghost use Rattle.rinv_queries.specs.Written.{IsStoredOutcome};
ghost use Rattle.rinv_queries.specs.declared.outcome.Outcome.TheVariants.{Rewritten};
ghost use Rattle.rinv_bench.specs.Summary.{is_rewritten, last_expression, last_line, summary_text};

use crate::counting::counted;
use rinv_answers::complete_line;
use rinv_queries::{Outcome, write_expression, write_head};
use rinv_rewrite::Expression;
use rinv_text::{Names, System};
use std::alloc::{AllocError as NoMemory, Global};

/// The summary of a workload with so many queries and generators, by the outcomes of its queries.
pub(crate) fn summary(
    alloc: Global,
    k: u32,
    system: &System,
    count: usize,
    outcomes: &[Outcome],
) -> Result<Vec<u8>, NoMemory>
    requires system { IsSystem system.now.system }
    requires outcomes { All (IsStoredOutcome system.now.system count) outcomes.now }
    ensures { IfOk result (λ v. v.items ≡ summary_text k system.now.system count outcomes.now) }
{
    let Ok(symbol_count) = u32::try_from(count) else {
        return Err(NoMemory);
    };
    let symbols = Names::symbols(alloc, symbol_count)?;
    let counts = counted(outcomes);
    let mut out = Vec::new(alloc);
    write_head(alloc, "bench ", k as usize, "\n", &mut out)?;
    write_head(alloc, "generators ", count, "\n", &mut out)?;
    write_head(alloc, "rewritten ", counts.rewritten, "\n", &mut out)?;
    write_head(
        alloc,
        "not invariant ",
        counts.not_invariant,
        "\n",
        &mut out,
    )?;
    write_last(alloc, system, &symbols, outcomes, &mut out)?;
    out.extend_from_slice(complete_line(system))?;
    Ok(out)
}

// Appends the line of the last expression, where there is one.
fn write_last(
    alloc: Global,
    system: &System,
    symbols: &Names,
    outcomes: &[Outcome],
    out: &mut Vec<u8>,
) -> Result<(), NoMemory>
    requires system { IsSystem system.now.system }
    requires outcomes { All (IsStoredOutcome system.now.system (length symbols.now)) outcomes.now }
    ensures { OnOk result (out.new.items ≡ out.old.items ++ last_line system.now.system symbols.now (last_expression 1 outcomes.now)) }
{
    'outcomes: for i in 0..outcomes.len() {
        let place = outcomes.len() - 1 - i;
        match expression_of(&outcomes[place]) {
            Some(expression) => {
                write_head(alloc, "last ", place + 1, " = ", out)?;
                write_expression(alloc, system, symbols, expression, out)?;
                return Ok(());
            }
            None => {}
        }
    }
    Ok(())
}

// The expression that the outcome is.
fn expression_of(outcome: &Outcome) -> Option<&Expression>
    ensures { MatchOption result (is_rewritten outcome.now ≡ false) (λ e. outcome.now ≡ Rewritten e.now) }
{
    match outcome {
        Outcome::Rewritten(expression) => Some(expression),
        Outcome::LawsHold
        | Outcome::GeneratorsShown
        | Outcome::Invariant
        | Outcome::NotInvariant(_)
        | Outcome::NotRewritten(_)
        | Outcome::Vanishing => None,
    }
}
