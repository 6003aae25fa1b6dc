//! The lines that are printed of queries.

ghost use Rattle.std.specs.Prelude.{◌≡◌, ◌++◌, ℕ, codes, decimal, length, IfOk, OnOk};
ghost use Rattle.rinv_defs.specs.SystemForm.{IsSystem};
ghost use Rattle.rinv_defs.specs.Text.{poly_text, fraction_text};
ghost use Rattle.rinv_frac.specs.Fractions.{IsPart, IsStored};
ghost use Rattle.rinv_queries.specs.Lines.{outcome_line};
ghost use Rattle.rinv_queries.specs.Written.{AreVariables, IsStoredOutcome};

use crate::outcome::Outcome;
use rinv_poly::KPoly;
use rinv_rewrite::Expression;
use rinv_text::{Names, System, write_fraction, write_poly};
use std::alloc::{AllocError as NoMemory, Global};

/// The names in which rests and expressions are written.
#[derive(Drop)]
pub(crate) struct Variables {
    /// Those of the group's variables, then of the space's.
    pub(crate) changes: Names,
    /// A symbol for each generator.
    pub(crate) symbols: Names,
}

/// The names for a system with so many generators.
pub(crate) fn variables_of(
    alloc: Global,
    system: &System,
    count: usize,
) -> Result<Variables, NoMemory>
    requires { IsSystem system.now.system }
    ensures { IfOk result (AreVariables system.now.system count) }
{
    let Ok(count) = u32::try_from(count) else {
        return Err(NoMemory);
    };
    let changes = system.group.joined(alloc, &system.space)?;
    let symbols = Names::symbols(alloc, count)?;
    Ok(Variables { changes, symbols })
}

/// Appends a word, a number and what stands behind it.
pub fn write_head(
    alloc: Global,
    word: &str,
    number: usize,
    rest: &str,
    out: &mut Vec<u8>,
) -> Result<(), NoMemory>
    ensures { OnOk result (out.new.items ≡ out.old.items ++ (word.now ++ decimal number ++ rest.now)) }
{
    let head = format!(in alloc; "{word}{number}{rest}")?;
    out.extend_from_slice(head.as_bytes())?;
    Ok(())
}

// Appends a rest, and the end of its line.
fn write_rest(
    alloc: Global,
    system: &System,
    names: &Names,
    rest: &KPoly,
    out: &mut Vec<u8>,
) -> Result<(), NoMemory>
    requires system { IsSystem system.now.system }
    requires rest { IsPart system.now.system.p (length names.now) rest.now }
    ensures { OnOk result (out.new.items ≡ out.old.items ++ (poly_text system.now.system.p names.now rest.now ++ codes "\n")) }
{
    write_poly(alloc, rest, names, out)?;
    out.extend_from_slice(b"\n")?;
    Ok(())
}

/// Appends an expression, and the end of its line.
pub fn write_expression(
    alloc: Global,
    system: &System,
    names: &Names,
    expression: &Expression,
    out: &mut Vec<u8>,
) -> Result<(), NoMemory>
    requires system { IsSystem system.now.system }
    requires expression { IsStored system.now.system.p (length names.now) expression.now }
    ensures { OnOk result (out.new.items ≡ out.old.items ++ (fraction_text system.now.system.p names.now expression.now ++ codes "\n")) }
{
    write_fraction(alloc, &expression.num, &expression.den, names, out)?;
    out.extend_from_slice(b"\n")?;
    Ok(())
}

/// Appends the line of an outcome, by its number.
pub(crate) fn write_outcome(
    alloc: Global,
    system: &System,
    variables: &Variables,
    number: usize,
    outcome: &Outcome,
    out: &mut Vec<u8>,
) -> Result<(), NoMemory>
    requires system { IsSystem system.now.system }
    requires variables { (count : ℕ) × AreVariables system.now.system count variables.now }
    requires outcome { IsStoredOutcome system.now.system (length variables.now.symbols) outcome.now }
    ensures { OnOk result (out.new.items ≡ out.old.items ++ outcome_line system.now.system variables.now.symbols number outcome.now) }
{
    match outcome {
        Outcome::LawsHold => write_head(alloc, "laws ", number, " hold\n", out)?,
        Outcome::GeneratorsShown => {}
        Outcome::Invariant => write_head(alloc, "invariant ", number, " yes\n", out)?,
        Outcome::NotInvariant(rest) => {
            write_head(alloc, "invariant ", number, " no rest ", out)?;
            write_rest(alloc, system, &variables.changes, rest, out)?;
        }
        Outcome::Rewritten(expression) => {
            write_head(alloc, "rewrite ", number, " = ", out)?;
            write_expression(alloc, system, &variables.symbols, expression, out)?;
        }
        Outcome::NotRewritten(rest) => {
            write_head(alloc, "rewrite ", number, " not invariant rest ", out)?;
            write_rest(alloc, system, &variables.changes, rest, out)?;
        }
        Outcome::Vanishing => {
            write_head(alloc, "rewrite ", number, " vanishing denominator\n", out)?;
        }
    }
    Ok(())
}
