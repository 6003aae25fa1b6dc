//! What stands on a line, after what the lines before it told.

ghost use Rattle.std.specs.Prelude.{◌≡◌, ◌<◌, ◌-◌, ◌^◌, None, length, IfOk, IfErr, OnOk};
ghost use Rattle.rinv_system.specs.declared.keyword.Keyword.TheVariants as word;
ghost use Rattle.rinv_system.specs.Drafts.{order_fault, is_whole};
ghost use Rattle.rinv_system.specs.Forms.{TellsNumber, TellsPolynomials, IsRestRefused, IsRestTaken, with_names};
ghost use Rattle.rinv_system.specs.Texts.{IsLineRefused, IsLineTaken};
ghost use Rattle.rinv_system.specs.Stops.{OnCode, IsReached};

use crate::draft::Draft;
use crate::keyword::{Keyword, head};
use crate::reader::LineReader;
use crate::refused::{Code, LineStop};
use crate::{listing, naming, number};
use rinv_text::Names;
use std::alloc::Global;

// Adds the number that the rest of a line is.
fn add_number(draft: &mut Draft, keyword: Keyword, rest: &[u8]) -> Result<(), Code>
    requires { TellsNumber keyword }
    ensures ok { OnOk result (IsRestTaken draft.old rest.now keyword draft.new) }
    ensures fault { IfErr result (IsRestRefused draft.old rest.now keyword) }
{
    match keyword {
        Keyword::Field => {
            let field = number::field(rest)?;
            draft.set_field(field);
            Ok(())
        }
        Keyword::Pairs => {
            let pairs = number::pairs(rest)?;
            draft.set_pairs(pairs);
            Ok(())
        }
        Keyword::Steps => {
            let steps = number::steps(rest)?;
            draft.set_steps(steps);
            Ok(())
        }
        _ => unreachable!(),
    }
}

// The names of the space, which stand behind those of the group.
fn space_names(alloc: Global, draft: &Draft, rest: &[u8]) -> Result<Names, LineStop>
    requires { order_fault draft.now word.Space ≡ None }
    ensures ok { IfOk result (λ names. IsRestTaken draft.now rest.now word.Space (with_names draft.now word.Space names)) }
    ensures fault { IfErr result (OnCode (IsRestRefused draft.now rest.now word.Space)) }
{
    match &draft.group {
        Some(group) => naming::read(alloc, draft, Keyword::Space, group, rest),
        None => unreachable!(),
    }
}

// Adds the polynomials that the rest of a line is.
fn add_polynomials(
    alloc: Global,
    draft: &mut Draft,
    keyword: Keyword,
    rest: &[u8],
) -> Result<(), LineStop>
    requires tells { TellsPolynomials keyword }
    requires order { order_fault draft.now keyword ≡ None }
    requires reached { IsReached draft.now }
    requires short { length rest.now < 2 ^ 32 - 1 }
    ensures ok { OnOk result (IsRestTaken draft.old rest.now keyword draft.new) }
    ensures fault { IfErr result (OnCode (IsRestRefused draft.old rest.now keyword)) }
{
    let list = listing::read(alloc, draft, keyword, rest)?;
    match keyword {
        Keyword::Unit => {
            let unit = listing::constants(alloc, draft.field(), &list)?;
            draft.set_unit(unit);
            Ok(())
        }
        _ => {
            draft.set_polynomials(keyword, list);
            Ok(())
        }
    }
}

// Adds what the rest of a line is.
fn add_rest(alloc: Global, draft: &mut Draft, keyword: Keyword, rest: &[u8]) -> Result<(), LineStop>
    requires order { order_fault draft.now keyword ≡ None }
    requires reached { IsReached draft.now }
    requires short { length rest.now < 2 ^ 32 - 1 }
    ensures ok { OnOk result (IsRestTaken draft.old rest.now keyword draft.new) }
    ensures fault { IfErr result (OnCode (IsRestRefused draft.old rest.now keyword)) }
{
    match keyword {
        Keyword::Field | Keyword::Pairs | Keyword::Steps => {
            add_number(draft, keyword, rest)?;
            Ok(())
        }
        Keyword::Group => {
            let names = naming::read(alloc, draft, keyword, &Names::empty(alloc), rest)?;
            draft.set_group(names);
            Ok(())
        }
        Keyword::Space => {
            let names = space_names(alloc, draft, rest)?;
            draft.set_space(names);
            Ok(())
        }
        _ => add_polynomials(alloc, draft, keyword, rest),
    }
}

// Adds what a line tells to what the lines before it told.
fn add_line(alloc: Global, draft: &mut Draft, line: &[u8]) -> Result<(), LineStop>
    requires reached { IsReached draft.now }
    requires short { length line.now < 2 ^ 32 - 1 }
    ensures ok { OnOk result (IsLineTaken draft.old line.now draft.new) }
    ensures fault { IfErr result (OnCode (IsLineRefused draft.old line.now)) }
{
    if line.is_empty() {
        return Ok(());
    }
    let Some((keyword, rest)) = head(line) else {
        return Err(LineStop::Fault(Code::Word));
    };
    if let Some(code) = draft.order_fault(keyword) {
        return Err(LineStop::Fault(code));
    }
    add_rest(alloc, draft, keyword, rest)?;
    Ok(())
}

impl LineReader for Draft {
    ghost is_reached = { IsReached };

    ghost refuses = { IsLineRefused };

    ghost takes = { IsLineTaken };

    ghost is_whole = { is_whole };

    fn add_line(&mut self, alloc: Global, line: &[u8]) -> Result<(), LineStop> {
        add_line(alloc, self, line)?;
        Ok(())
    }

    fn has_all(&self) -> bool {
        self.is_whole()
    }
}
