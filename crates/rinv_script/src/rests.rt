//! What follows the word of a script line.

ghost use Rattle.std.specs.Prelude.{◌≡◌, ◌<◌, ◌≤◌, ◌-◌, ◌^◌, List, length, IsTrue, IsFalse, ◌==◌, MatchOption, IfSome, IfOk, IfErr, OnOk};
ghost use Rattle.std.specs.List.{list_all, list_any};
ghost use Rattle.rinv_system.specs.Lines.{is_allowed};
ghost use Rattle.rinv_system.specs.Drafts.{is_whole};
ghost use Rattle.rinv_system.specs.Stops.{OnCode};
ghost use Rattle.rinv_script.specs.Scripts.{defined_name, defined_value, name_fault, IsScriptRestRefused, IsScriptRestTaken};
ghost use Rattle.rinv_script.specs.Kept.{IsKept, IsValueRefused, Defines, RefusesAlone, RefusesAsked, TakesAlone, TakesAsked};

use crate::draft::ScriptDraft;
use crate::form::Query;
use crate::words::ScriptWord;
use rinv_frac::Frac;
use rinv_system::{Code, LineStop, ascii_text, is_name_word, len_before, to_last_word};
use rinv_text::TextCode;
use std::alloc::Global;

// The rest of a line is not of the grammar.
fn no_expression() -> LineStop
    ensures { result ≡ LineStop.Fault (Code.Text TextCode.Expression) }
{
    LineStop::Fault(Code::Text(TextCode::Expression))
}

// What stands before the first `=`, without blanks at its end, and what stands behind it.
fn split_definition(rest: &[u8]) -> Option<(&[u8], &[u8])>
    ensures sign { MatchOption result (IsFalse (list_any (λ b. b == 61) rest.now)) (λ r. IsTrue (list_any (λ b. b == 61) rest.now)) }
    ensures parts { IfSome result (λ r. (r.0.now ≡ defined_name rest.now) × (r.1.now ≡ defined_value rest.now)) }
{
    let (name, behind) = rest.split_at(len_before(rest, b'='));
    match behind.split_first() {
        Some((_, value)) => Some((to_last_word(name), value)),
        None => None,
    }
}

// Adds the abbreviation of a name by a value.
fn add_value(
    alloc: Global,
    draft: &mut ScriptDraft,
    name: &str,
    value: &str,
) -> Result<(), LineStop>
    requires whole { IsTrue (is_whole draft.old.system) }
    requires kept { IsKept draft.old }
    requires short { length value.now < 2 ^ 32 - 1 }
    ensures ok { OnOk result (Defines draft.old name.now value.now draft.new) }
    ensures fault { IfErr result (OnCode (IsValueRefused draft.old value.now (name_fault draft.old name.now))) }
{
    let next = draft.name_fault(name);
    let (value, formal) = draft.fraction(alloc, value, next)?;
    draft.define(alloc, name, value, formal)?;
    Ok(())
}

// Adds the abbreviation that the rest of a line is.
fn add_definition(alloc: Global, draft: &mut ScriptDraft, rest: &[u8]) -> Result<(), LineStop>
    requires whole { IsTrue (is_whole draft.old.system) }
    requires kept { IsKept draft.old }
    requires short { length rest.now < 2 ^ 32 - 1 }
    requires allowed { IsTrue (list_all is_allowed rest.now) }
    ensures ok { OnOk result (IsScriptRestTaken draft.old rest.now ScriptWord.Def draft.new) }
    ensures fault { IfErr result (OnCode (IsScriptRestRefused draft.old rest.now ScriptWord.Def)) }
{
    let Some((name, value)) = split_definition(rest) else {
        return Err(no_expression());
    };
    if !is_name_word(name) {
        return Err(no_expression());
    }
    add_value(alloc, draft, ascii_text(name), ascii_text(value))?;
    Ok(())
}

// Whether the rest of a line is left out, where one query more may be asked.
fn alone(draft: &ScriptDraft, rest: &[u8]) -> Result<(), LineStop>
    ensures ok { IfOk result (λ _. TakesAlone draft.now rest.now) }
    ensures fault { IfErr result (OnCode (RefusesAlone draft.now rest.now)) }
{
    if !rest.is_empty() {
        return Err(no_expression());
    }
    if let Some(code) = draft.query_fault() {
        return Err(LineStop::Fault(Code::Text(code)));
    }
    Ok(())
}

// The fraction that the rest of a line is, where one query more may be asked.
fn asked(alloc: Global, draft: &ScriptDraft, rest: &[u8]) -> Result<Frac, LineStop>
    requires whole { IsTrue (is_whole draft.now.system) }
    requires kept { IsKept draft.now }
    requires short { length rest.now < 2 ^ 32 - 1 }
    requires allowed { IsTrue (list_all is_allowed rest.now) }
    ensures ok { IfOk result (TakesAsked draft.now rest.now) }
    ensures fault { IfErr result (OnCode (RefusesAsked draft.now rest.now)) }
{
    let next = draft.query_fault();
    let (fraction, _) = draft.fraction(alloc, ascii_text(rest), next)?;
    Ok(fraction)
}

/// Adds what follows the word of a script line.
pub(crate) fn add_rest(
    alloc: Global,
    draft: &mut ScriptDraft,
    word: ScriptWord,
    rest: &[u8],
) -> Result<(), LineStop>
    requires whole { IsTrue (is_whole draft.old.system) }
    requires kept { IsKept draft.old }
    requires short { length rest.now < 2 ^ 32 - 1 }
    requires allowed { IsTrue (list_all is_allowed rest.now) }
    ensures ok { OnOk result (IsScriptRestTaken draft.old rest.now word draft.new) }
    ensures fault { IfErr result (OnCode (IsScriptRestRefused draft.old rest.now word)) }
{
    match word {
        ScriptWord::Def => add_definition(alloc, draft, rest)?,
        ScriptWord::Laws => {
            alone(draft, rest)?;
            draft.ask(Query::Laws)?;
        }
        ScriptWord::Generators => {
            alone(draft, rest)?;
            draft.ask(Query::Generators)?;
        }
        ScriptWord::Invariant => {
            let fraction = asked(alloc, draft, rest)?;
            draft.ask(Query::Invariant(fraction))?;
        }
        ScriptWord::Rewrite => {
            let fraction = asked(alloc, draft, rest)?;
            draft.ask(Query::Rewrite(fraction))?;
        }
    }
    Ok(())
}
