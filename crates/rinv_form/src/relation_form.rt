//! The form of relations.

ghost use Rattle.std.specs.Prelude.{◌≡◌, List, ℕ, map, length, All, IfOk};
ghost use Rattle.rinv_defs.specs.Format.{are_distinct};
ghost use Rattle.rinv_form.specs.Forms.{kept};
ghost use Rattle.rinv_form.specs.ItemForms.{is_relation_form};

use crate::form::{Form, items};
use crate::lists::{nonzero, polynomials};
use crate::sizes::Sizes;
use crate::tail_form::{TailForm, exponents};
use indexmap::IndexSet;
use rinv_cert::{Polynomial, RelationItem, TailItem};
use rinv_poly::KPoly;
use rinv_ring::NoMemory;
use std::alloc::Global;

/// A lead, a denominator that is not zero, a tail with distinct monomials, and a cofactor for each generator of the group's ideal.
#[derive(Drop)]
pub(crate) struct RelationForm {
    pub(crate) sizes: Sizes,
}

// Whether no monomial stands twice, by the set of those before.
fn are_distinct(alloc: Global, count: u32, tail: &[TailItem<KPoly>]) -> Result<bool, NoMemory>
    requires { All (λ t. length t.0 ≡ count) tail.now }
    ensures { IfOk result (λ b. b ≡ are_distinct (map (λ t. t.0) tail.now)) }
{
    // Of lists of one length those that are one monomial are equal: the clauses ask for the length, the code does not.
    let _length = count;
    let mut earlier = IndexSet::new(alloc);
    'terms: for k in 0..tail.len() {
        let term = &tail[k];
        let monomial = term.alpha.as_slice().to_vec(alloc)?;
        let Ok(is_new) = earlier.insert(monomial) else {
            return Err(NoMemory);
        };
        if !is_new {
            return Ok(false);
        }
    }
    Ok(true)
}

impl Form for RelationForm {
    type Plain = RelationItem<Polynomial>;

    type Stored = RelationItem<KPoly>;

    ghost stores = { λ s r. kept (is_relation_form s.sizes r) r };

    fn store(
        &self,
        alloc: Global,
        plain: &RelationItem<Polynomial>,
    ) -> Result<Option<RelationItem<KPoly>>, NoMemory> {
        let z = &self.sizes;
        let Some(a) = exponents(alloc, z.space, &plain.a)? else {
            return Ok(None);
        };
        let Some(d) = nonzero(alloc, z.field, z.space, &plain.d)? else {
            return Ok(None);
        };
        let Some(tail) = items(&TailForm { sizes: *z }, alloc, &plain.tail)? else {
            return Ok(None);
        };
        let apart = are_distinct(alloc, z.space, tail.as_slice())?;
        if !apart {
            return Ok(None);
        }
        let Some(cofactors) = polynomials(alloc, z.field, z.whole, z.ideal, &plain.cofactors)?
        else {
            return Ok(None);
        };
        Ok(Some(RelationItem {
            a,
            d,
            tail,
            cofactors,
        }))
    }
}
