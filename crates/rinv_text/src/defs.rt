//! Abbreviations.

ghost use Rattle.std.specs.Prelude.{◌≡◌, ◌≤◌, [], ◌∷◌, ◌++◌, map, string_bytes, bytes_eq, false, All, IfOk, OnOk};
ghost use Rattle.std.specs.List.{list_any, IsDistinct};
ghost use Rattle.rinv_algebra.specs.Monomial.{total_degree};
ghost use Rattle.rinv_text.specs.Reading.{Definition};

use crate::formal::Formal;
use crate::names::Names;
use rinv_frac::Frac;
use std::alloc::{AllocError as NoMemory, Global};
use std::marker::Model;

/// An abbreviation: its name, its fraction, and the formal numbers of the expression that it was given as.
#[derive(Drop)]
pub struct Abbreviation {
    pub name: String,
    pub value: Frac,
    pub formal: Formal,
}

impl Model for Abbreviation {
    ghost use Rattle.std.specs.Prelude.{string_bytes};
    ghost use Rattle.rinv_text.specs.Reading.{Definition};

    ghost Value = { Definition };

    ghost view = { λ d. record { name = string_bytes d.name; value = d.value; formal = d.formal } };
}

/// Abbreviations in the order in which they were given, which contracts see as the list of what they say. No two have one name, and no
/// part of a fraction has a degree above the formal one.
#[derive(Drop)]
pub struct Defs {
    list: Vec<Abbreviation>,
}

impl Model for Defs {
    ghost use Rattle.std.specs.Prelude.{List};
    ghost use Rattle.rinv_text.specs.Reading.{Definition, AreDefinitions};

    ghost Value = { List Definition };

    ghost view = { λ d. d.list.items };

    ghost invariant = { λ d. AreDefinitions d.list.items };
}

impl Defs {
    ghost use Rattle.std.specs.Prelude.{◌≡◌, ◌≤◌, [], ◌∷◌, ◌++◌, map, string_bytes, bytes_eq, false, All, IfOk, OnOk};
    ghost use Rattle.std.specs.List.{list_any};
    ghost use Rattle.rinv_algebra.specs.Monomial.{total_degree};
    ghost use Rattle.rinv_text.specs.Reading.{Definition, AreDefinitions};

    /// No abbreviations.
    pub fn empty(alloc: Global) -> Defs
        ensures { result ≡ [] }
    {
        Defs {
            list: Vec::new(alloc),
        }
    }

    /// Puts an abbreviation behind the others, none of which has its name.
    pub fn add(&mut self, name: String, value: Frac, formal: Formal) -> Result<(), NoMemory>
        requires new { list_any (λ d. bytes_eq (string_bytes name) d.name) self.old ≡ false }
        requires numerator { All (λ t. total_degree t.0 ≤ formal.num_degree) value.0 }
        requires denominator { All (λ t. total_degree t.0 ≤ formal.den_degree) value.1 }
        ensures { OnOk result (self.new ≡ self.old ++ (record { name = string_bytes name; value = value; formal = formal }) ∷ []) }
    {
        self.list.push(Abbreviation {
            name,
            value,
            formal,
        })?;
        Ok(())
    }

    // Their names.
    pub(crate) fn names(&self, alloc: Global) -> Result<Names, NoMemory>
        ensures { IfOk result (λ n. n ≡ map (λ d. d.name) self.now) }
    {
        let names = names_of(alloc, self.list())?;
        Ok(names)
    }

    // The abbreviations.
    pub(crate) fn list(&self) -> &[Abbreviation]
        ensures value { result.now ≡ self.now }
        ensures good { AreDefinitions self.now }
    {
        &self.list
    }
}

impl Abbreviation {
    // Its name.
    fn text(&self) -> &str
        ensures { result.now ≡ self.now.name }
    {
        self.name.as_str()
    }
}

// The names of abbreviations, no two of which have one.
fn names_of(alloc: Global, list: &[Abbreviation]) -> Result<Names, NoMemory>
    requires { IsDistinct bytes_eq (map (λ d. d.name) list.now) }
    ensures { IfOk result (λ n. n ≡ map (λ d. d.name) list.now) }
{
    let mut names = Names::empty(alloc);
    'names: for k in 0..list.len() {
        let abbreviation = &list[k];
        let text = abbreviation.text();
        let name = String::from_str(alloc, text)?;
        names.push(name)?;
    }
    Ok(names)
}
