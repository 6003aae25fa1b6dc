//! What the lines of a script told so far.

ghost use Rattle.std.specs.Prelude.{◌≡◌, ◌<◌, ◌≤◌, ◌-◌, ◌^◌, ◌++◌, ◌∷◌, [], length, map, bytes_eq, false, IsTrue, IfOk, IfErr, OnOk, All, None};
ghost use Rattle.std.specs.List.{list_all, list_any};
ghost use Rattle.rinv_algebra.specs.Monomial.{total_degree};
ghost use Rattle.rinv_text.specs.Names.{is_new_name};
ghost use Rattle.rinv_system.specs.Drafts.{group_names, space_names, has_begun, is_whole};
ghost use Rattle.rinv_system.specs.Stops.{OnCode, IsReached};
ghost use Rattle.rinv_system.specs.Lines.{is_allowed};
ghost use Rattle.rinv_system.specs.Texts.{IsLineRefused, IsLineTaken};
ghost use Rattle.rinv_script.specs.Scripts.{blank_script, has_script, given_names, name_fault, query_fault, IsFraction};
ghost use Rattle.rinv_script.specs.Stored.{query_of};
ghost use Rattle.rinv_script.specs.Kept.{code_behind, IsKept, IsValueRefused, with_definition};

use crate::form::{Form, Query};
use rinv_frac::{Frac, FracRing};
use rinv_poly::PolyRing;
use rinv_system::{Code, Draft, LineReader, LineStop};
use rinv_text::{Defs, Formal, Names, TextCode, TextStop, read_frac};
use std::alloc::{AllocError as NoMemory, Global};
use std::marker::Model;

// The greatest number of queries.
const MAX_QUERIES: usize = 10_000;

/// The form that is read, the lines of the system, the abbreviations and the queries.
#[derive(Drop)]
pub(crate) struct ScriptDraft {
    pub(crate) form: Form,
    pub(crate) system: Draft,
    defs: Defs,
    // The names of the abbreviations.
    defined: Names,
    pub(crate) queries: Vec<Query>,
}

impl Model for ScriptDraft {
    ghost use Rattle.std.specs.Prelude.{◌≡◌, map};
    ghost use Rattle.rinv_script.specs.Scripts.{ScriptDraft as Lines};
    ghost use Rattle.rinv_script.specs.Stored.{query_of};

    ghost Value = { Lines };

    ghost view = { λ d. record { form = d.form; system = d.system; defs = d.defs; queries = map query_of d.queries.items } };

    ghost invariant = { λ d. d.defined ≡ map (λ a. a.name) d.defs };
}

// The code of a fault of a text, on a line where the next code, if there is one, comes behind the grammar.
fn code_behind(next: Option<TextCode>, code: TextCode) -> TextCode
    ensures { result ≡ code_behind next code }
{
    if code == TextCode::Expression {
        code
    } else {
        next.unwrap_or(code)
    }
}

// Puts a name behind the names, and its abbreviation behind the others.
fn add_both(
    alloc: Global,
    names: &mut Names,
    defs: &mut Defs,
    name: &str,
    value: Frac,
    formal: Formal,
) -> Result<(), NoMemory>
    requires names { list_any (bytes_eq name.now) names.old ≡ false }
    requires defs { list_any (λ d. bytes_eq name.now d.name) defs.old ≡ false }
    requires numerator { All (λ t. total_degree t.0 ≤ formal.num_degree) value.0 }
    requires denominator { All (λ t. total_degree t.0 ≤ formal.den_degree) value.1 }
    ensures names { OnOk result (names.new ≡ names.old ++ name.now ∷ []) }
    ensures defs { OnOk result (defs.new ≡ defs.old ++ (record { name = name.now; value = value; formal = formal }) ∷ []) }
{
    let key = String::from_str(alloc, name)?;
    let text = String::from_str(alloc, name)?;
    names.push(key)?;
    defs.add(text, value, formal)?;
    Ok(())
}

impl ScriptDraft {
    /// Before the first line.
    pub(crate) fn blank(alloc: Global, form: Form) -> ScriptDraft
        ensures { result ≡ blank_script form }
    {
        ScriptDraft {
            form,
            system: Draft::blank(),
            defs: Defs::empty(alloc),
            defined: Names::empty(alloc),
            queries: Vec::new(alloc),
        }
    }

    /// Whether a script line has come.
    pub(crate) fn has_script(&self) -> bool
        ensures { result ≡ has_script self.now }
    {
        self.defined.len() > 0 || !self.queries.is_empty()
    }

    /// Whether the system is whole.
    pub(crate) fn has_system(&self) -> bool
        ensures { result ≡ is_whole self.now.system }
    {
        self.system.is_whole()
    }

    /// Adds a line of the system.
    pub(crate) fn add_system_line(&mut self, alloc: Global, line: &[u8]) -> Result<(), LineStop>
        requires reached { IsReached self.old.system }
        requires short { length line.now < 2 ^ 32 - 1 }
        requires allowed { IsTrue (list_all is_allowed line.now) }
        ensures ok { OnOk result (self.new ≡ record self.old { system = self.new.system }) }
        ensures taken { OnOk result (IsLineTaken self.old.system line.now self.new.system) }
        ensures fault { IfErr result (OnCode (IsLineRefused self.old.system line.now)) }
    {
        self.system.add_line(alloc, line)?;
        Ok(())
    }

    // Whether no variable has the name, and it has the form of one.
    fn is_free(&self, name: &str) -> bool
        requires { IsTrue (has_begun self.now.system) }
        ensures { result ≡ is_new_name (group_names self.now.system ++ space_names self.now.system) name.now }
    {
        let system = &self.system;
        system.space().may_add(name) && system.group().may_add(name)
    }

    // Whether the name may be given.
    fn is_new(&self, name: &str) -> bool
        requires { IsTrue (has_begun self.now.system) }
        ensures { result ≡ is_new_name (given_names self.now) name.now }
    {
        self.defined.may_add(name) && self.is_free(name)
    }

    /// Why a new name is refused, if it is: it has not the form of a name, or is one that was given.
    pub(crate) fn name_fault(&self, name: &str) -> Option<TextCode>
        requires { IsTrue (has_begun self.now.system) }
        ensures { result ≡ name_fault self.now name.now }
    {
        if self.is_new(name) {
            None
        } else {
            Some(TextCode::Name)
        }
    }

    /// Why one query more is refused, if it is.
    pub(crate) fn query_fault(&self) -> Option<TextCode>
        ensures { result ≡ query_fault self.now }
    {
        if self.queries.len() >= MAX_QUERIES {
            Some(TextCode::Limit)
        } else {
            None
        }
    }

    /// The fraction of a text and its formal numbers, on a line where the next code, if there is one, comes behind the grammar.
    pub(crate) fn fraction(
        &self,
        alloc: Global,
        text: &str,
        next: Option<TextCode>,
    ) -> Result<(Frac, Formal), LineStop>
        requires begun { IsTrue (has_begun self.now.system) }
        requires kept { IsKept self.now }
        requires short { length text.now < 2 ^ 32 - 1 }
        ensures ok { IfOk result (λ r. (next ≡ None) × IsFraction self.now text.now r.0 r.1) }
        ensures numerator { IfOk result (λ r. All (λ t. total_degree t.0 ≤ r.1.num_degree) r.0.0) }
        ensures denominator { IfOk result (λ r. All (λ t. total_degree t.0 ≤ r.1.den_degree) r.0.1) }
        ensures fault { IfErr result (OnCode (IsValueRefused self.now text.now next)) }
    {
        let names = self.system.space();
        let field = FracRing::new(PolyRing::new(self.system.field(), names.len()));
        match read_frac(alloc, text, names, &self.defs, &field) {
            Ok(read) => match next {
                None => Ok(read),
                Some(code) => Err(LineStop::Fault(Code::Text(code))),
            },
            Err(TextStop::Fault(fault)) => {
                let code = code_behind(next, fault.code);
                Err(LineStop::Fault(Code::Text(code)))
            }
            Err(TextStop::NoMemory) => Err(LineStop::NoMemory),
        }
    }

    /// Adds an abbreviation. Without memory the draft is left with none, so that both lists agree.
    pub(crate) fn define(
        &mut self,
        alloc: Global,
        name: &str,
        value: Frac,
        formal: Formal,
    ) -> Result<(), NoMemory>
        requires new { name_fault self.old name.now ≡ None }
        requires numerator { All (λ t. total_degree t.0 ≤ formal.num_degree) value.0 }
        requires denominator { All (λ t. total_degree t.0 ≤ formal.den_degree) value.1 }
        ensures { OnOk result (self.new ≡ with_definition self.old name.now value formal) }
    {
        match add_both(
            alloc,
            &mut self.defined,
            &mut self.defs,
            name,
            value,
            formal,
        ) {
            Ok(()) => Ok(()),
            Err(error) => {
                self.defined = Names::empty(alloc);
                self.defs = Defs::empty(alloc);
                Err(error)
            }
        }
    }

    /// The lines of the system, and the queries.
    pub(crate) fn into_parts(self) -> (Draft, Vec<Query>)
        ensures system { result.0 ≡ self.system }
        ensures queries { map query_of result.1.items ≡ self.queries }
    {
        let ScriptDraft {
            system,
            queries,
            ..
        } = self;
        (system, queries)
    }

    /// Adds a query.
    pub(crate) fn ask(&mut self, query: Query) -> Result<(), NoMemory>
        ensures { OnOk result (self.new ≡ record self.old { queries = self.old.queries ++ query_of query ∷ [] }) }
    {
        self.queries.push(query)?;
        Ok(())
    }
}
