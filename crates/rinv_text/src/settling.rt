//! The steps at the end of a factor, of a term and of an expression.

ghost use Rattle.std.specs.Prelude.{◌≡◌, OnOk, ◌++◌};
ghost use Rattle.rinv_text.specs.Automaton.{joining_steps, term_steps, settled};

use crate::parser::{Joining, Pending, Unfinished};
use crate::step::Step;
use std::alloc::AllocError as NoMemory;

/// Does with a whole factor what is to be done.
pub fn push_joining(joining: Joining, steps: &mut Vec<Step>) -> Result<(), NoMemory>
    ensures { OnOk result (steps.new.items ≡ steps.old.items ++ joining_steps joining) }
{
    match joining {
        Joining::Nothing => {}
        Joining::Product => steps.push(Step::Product)?,
        Joining::Quotient => steps.push(Step::Quotient)?,
    }
    Ok(())
}

// Does with the whole term what is to be done.
fn push_term(pending: Pending, steps: &mut Vec<Step>) -> Result<(), NoMemory>
    ensures { OnOk result (steps.new.items ≡ steps.old.items ++ term_steps pending) }
{
    match pending {
        Pending::Nothing => {}
        Pending::Negative => steps.push(Step::Negative)?,
        Pending::Sum => steps.push(Step::Sum)?,
        Pending::Difference => steps.push(Step::Difference)?,
    }
    Ok(())
}

/// Ends the expression.
pub fn settle(unfinished: Unfinished, steps: &mut Vec<Step>) -> Result<(), NoMemory>
    ensures { OnOk result (steps.new.items ≡ settled unfinished steps.old.items) }
{
    push_joining(unfinished.joining, steps)?;
    push_term(unfinished.pending, steps)?;
    Ok(())
}
