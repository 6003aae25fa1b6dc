//! What the lines so far told.

ghost use Rattle.std.specs.Prelude.{◌≡◌, [], false, length, unwrap_or, IsTrue, IfOk};
ghost use Rattle.std.specs.List.{list_any};
ghost use Rattle.rinv_text.specs.Names.{has_prime, meet};
ghost use Rattle.rinv_system.specs.declared.keyword.Keyword.TheVariants as word;
ghost use Rattle.rinv_system.specs.Drafts.{blank, modulus, group_names, space_names, has_begun, has_come, may_come, order_fault, at_most, exactly, length_fault, names_for, is_whole};
ghost use Rattle.rinv_system.specs.Forms.{TellsPolynomials, with_number, with_names, with_polynomials};

use crate::keyword::Keyword;
use crate::refused::Code;
use rinv_poly::KPoly;
use rinv_ring::Gf;
use rinv_text::{Names, TextCode};
use std::alloc::{AllocError as NoMemory, Global};
use std::marker::Model;

// The greatest numbers of variables of a list, and of polynomials of an ideal or a section.
const MAX_NAMES: usize = 8;

const MAX_POLYNOMIALS: usize = 64;

/// Each part of a system, where its line has come.
#[derive(Drop)]
pub struct Draft {
    pub(crate) field: Option<Gf>,
    pub(crate) group: Option<Names>,
    pub(crate) space: Option<Names>,
    pub(crate) ideal: Option<Vec<KPoly>>,
    pub(crate) unit: Option<Vec<u32>>,
    pub(crate) product: Option<Vec<KPoly>>,
    pub(crate) inverse: Option<Vec<KPoly>>,
    pub(crate) action: Option<Vec<KPoly>>,
    pub(crate) section: Option<Vec<KPoly>>,
    pub(crate) pairs: Option<u32>,
    pub(crate) steps: Option<u64>,
}

impl Model for Draft {
    ghost use Rattle.std.specs.Prelude.{option_map};
    ghost use Rattle.rinv_system.specs.Drafts.{Draft as Lines};

    ghost Value = { Lines };

    ghost view = { λ d. record {
      field = d.field;
      group = d.group;
      space = d.space;
      ideal = option_map (λ v. v.items) d.ideal;
      unit = option_map (λ v. v.items) d.unit;
      product = option_map (λ v. v.items) d.product;
      inverse = option_map (λ v. v.items) d.inverse;
      action = option_map (λ v. v.items) d.action;
      section = option_map (λ v. v.items) d.section;
      pairs = d.pairs;
      steps = d.steps;
    } };
}

// A list that is too long.
fn at_most(bound: usize, count: usize) -> Option<Code>
    ensures { result ≡ at_most bound count }
{
    if count > bound {
        Some(Code::Text(TextCode::Limit))
    } else {
        None
    }
}

// A list of another length.
fn exactly(wanted: usize, count: usize) -> Option<Code>
    ensures { result ≡ exactly wanted count }
{
    if count == wanted {
        None
    } else {
        Some(Code::Count)
    }
}

// How many names there are.
fn count(names: &Option<Names>) -> usize
    ensures { result ≡ length (unwrap_or names.now []) }
{
    match names {
        Some(names) => names.len() as usize,
        None => 0,
    }
}

impl Draft {
    /// Before the first line.
    pub fn blank() -> Draft
        ensures { result ≡ blank }
    {
        Draft {
            field: None,
            group: None,
            space: None,
            ideal: None,
            unit: None,
            product: None,
            inverse: None,
            action: None,
            section: None,
            pairs: None,
            steps: None,
        }
    }

    // Whether the first three lines have come.
    fn has_begun(&self) -> bool
        ensures { result ≡ has_begun self.now }
    {
        self.field.is_some() && self.group.is_some() && self.space.is_some()
    }

    // Whether the line of the word has come.
    fn has_come(&self, keyword: Keyword) -> bool
        ensures { result ≡ has_come self.now keyword }
    {
        match keyword {
            Keyword::Field => self.field.is_some(),
            Keyword::Group => self.group.is_some(),
            Keyword::Space => self.space.is_some(),
            Keyword::Ideal => self.ideal.is_some(),
            Keyword::Unit => self.unit.is_some(),
            Keyword::Product => self.product.is_some(),
            Keyword::Inverse => self.inverse.is_some(),
            Keyword::Action => self.action.is_some(),
            Keyword::Section => self.section.is_some(),
            Keyword::Pairs => self.pairs.is_some(),
            Keyword::Steps => self.steps.is_some(),
        }
    }

    // Whether the line of the word may come now.
    fn may_come(&self, keyword: Keyword) -> bool
        ensures { result ≡ may_come self.now keyword }
    {
        if self.has_begun() {
            return true;
        }
        let field = self.field.is_some();
        let group = self.group.is_some();
        let space = self.space.is_some();
        match keyword {
            Keyword::Field => !field,
            Keyword::Group => field && !group,
            Keyword::Space => field && group && !space,
            _ => false,
        }
    }

    /// How the word is refused now, if it is.
    pub(crate) fn order_fault(&self, keyword: Keyword) -> Option<Code>
        ensures { result ≡ order_fault self.now keyword }
    {
        if !self.may_come(keyword) {
            Some(Code::Missing)
        } else if self.has_come(keyword) {
            Some(Code::Twice)
        } else {
            None
        }
    }

    /// How a list of so many is refused on the line of the word, if it is.
    pub(crate) fn length_fault(&self, keyword: Keyword, length: usize) -> Option<Code>
        ensures { result ≡ length_fault self.now keyword length }
    {
        match keyword {
            Keyword::Group | Keyword::Space => at_most(MAX_NAMES, length),
            Keyword::Ideal | Keyword::Section => at_most(MAX_POLYNOMIALS, length),
            Keyword::Unit | Keyword::Product | Keyword::Inverse => {
                exactly(count(&self.group), length)
            }
            Keyword::Action => exactly(count(&self.space), length),
            _ => None,
        }
    }

    /// Whether all lines that are needed have come.
    pub fn is_whole(&self) -> bool
        ensures { result ≡ is_whole self.now }
    {
        self.has_begun()
            && self.unit.is_some()
            && self.product.is_some()
            && self.inverse.is_some()
            && self.action.is_some()
    }

    /// The names of the group's variables.
    pub fn group(&self) -> &Names
        requires { IsTrue (has_begun self.now) }
        ensures { result.now ≡ group_names self.now }
    {
        match &self.group {
            Some(names) => names,
            None => unreachable!(),
        }
    }

    /// The names of the space's variables.
    pub fn space(&self) -> &Names
        requires { IsTrue (has_begun self.now) }
        ensures { result.now ≡ space_names self.now }
    {
        match &self.space {
            Some(names) => names,
            None => unreachable!(),
        }
    }

    /// The modulus.
    pub fn field(&self) -> Gf
        requires { IsTrue (has_begun self.now) }
        ensures { result ≡ modulus self.now }
    {
        match self.field {
            Some(field) => field,
            None => unreachable!(),
        }
    }

    /// The names that the polynomials on the line of the word may have.
    pub(crate) fn names_for(&self, alloc: Global, keyword: Keyword) -> Result<Names, NoMemory>
        requires begun { IsTrue (has_begun self.now) }
        requires group { list_any has_prime (group_names self.now) ≡ false }
        requires space { list_any has_prime (space_names self.now) ≡ false }
        requires apart { meet (group_names self.now) (space_names self.now) ≡ false }
        ensures { IfOk result (λ names. names ≡ names_for self.now keyword) }
    {
        let Some(group) = &self.group else {
            unreachable!()
        };
        let Some(space) = &self.space else {
            unreachable!()
        };
        match keyword {
            Keyword::Product => group.copies(alloc, 2),
            Keyword::Action => group.joined(alloc, space),
            Keyword::Section => space.copies(alloc, 1),
            Keyword::Unit => Ok(Names::empty(alloc)),
            _ => group.copies(alloc, 1),
        }
    }

    pub(crate) fn set_field(&mut self, field: Gf)
        ensures { self.new ≡ with_number self.old word.Field field }
    {
        self.field = Some(field);
    }

    pub(crate) fn set_group(&mut self, names: Names)
        ensures { self.new ≡ with_names self.old word.Group names }
    {
        self.group = Some(names);
    }

    pub(crate) fn set_space(&mut self, names: Names)
        ensures { self.new ≡ with_names self.old word.Space names }
    {
        self.space = Some(names);
    }

    pub(crate) fn set_pairs(&mut self, pairs: u32)
        ensures { self.new ≡ with_number self.old word.Pairs pairs }
    {
        self.pairs = Some(pairs);
    }

    pub(crate) fn set_steps(&mut self, steps: u64)
        ensures { self.new ≡ with_number self.old word.Steps steps }
    {
        self.steps = Some(steps);
    }

    pub(crate) fn set_unit(&mut self, unit: Vec<u32>)
        ensures { self.new ≡ record self.old { unit = Some unit.items } }
    {
        self.unit = Some(unit);
    }

    /// The polynomials of a line, but for the unit.
    pub(crate) fn set_polynomials(&mut self, keyword: Keyword, list: Vec<KPoly>)
        requires tells { TellsPolynomials keyword }
        requires not_unit { keyword ≡ word.Unit → ⊥ }
        ensures { self.new ≡ with_polynomials self.old keyword list.items }
    {
        match keyword {
            Keyword::Ideal => self.ideal = Some(list),
            Keyword::Product => self.product = Some(list),
            Keyword::Inverse => self.inverse = Some(list),
            Keyword::Action => self.action = Some(list),
            Keyword::Section => self.section = Some(list),
            _ => unreachable!(),
        }
    }
}
