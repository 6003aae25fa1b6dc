//! The form of the entries on pairs.

ghost use Rattle.std.specs.Prelude.{◌≡◌, not, ◌&&◌, ◌==◌};
ghost use Rattle.rinv_defs.specs.Names.{is_between};
ghost use Rattle.rinv_defs.specs.Format.{is_pair};
ghost use Rattle.rinv_form.specs.Forms.{kept};
ghost use Rattle.rinv_form.specs.ItemForms.{is_pair_form};

use crate::form::Form;
use crate::lists::polynomials;
use crate::sizes::Sizes;
use rinv_cert::{PairItem, Polynomial};
use rinv_poly::KPoly;
use rinv_ring::NoMemory;
use std::alloc::Global;

/// Two places in the basis, the first below the second; with a third place, or a quotient for each element of the basis.
#[derive(Drop)]
pub(crate) struct PairForm {
    pub(crate) sizes: Sizes,
}

// Whether they are two places, counted from 1, the first below the second.
fn is_pair(count: usize, i: u32, j: u32) -> bool
    ensures { result ≡ is_pair count i j }
{
    1 <= i && i < j && j as usize <= count
}

// Whether a third place is one, and is neither of the two.
fn is_third(count: usize, i: u32, j: u32, k: u32) -> bool
    ensures { result ≡ (is_pair count i j && is_between 1 count k && not (k == i) && not (k == j)) }
{
    is_pair(count, i, j) && (1 <= k && k as usize <= count) && k != i && k != j
}

impl Form for PairForm {
    type Plain = PairItem<Polynomial>;

    type Stored = PairItem<KPoly>;

    ghost stores = { λ s e. kept (is_pair_form s.sizes e) e };

    fn store(
        &self,
        alloc: Global,
        plain: &PairItem<Polynomial>,
    ) -> Result<Option<PairItem<KPoly>>, NoMemory> {
        let z = &self.sizes;
        match plain {
            PairItem::Coprime { i, j } => {
                if !is_pair(z.basis, *i, *j) {
                    return Ok(None);
                }
                Ok(Some(PairItem::Coprime { i: *i, j: *j }))
            }
            PairItem::Chain { i, j, k } => {
                if !is_third(z.basis, *i, *j, *k) {
                    return Ok(None);
                }
                Ok(Some(PairItem::Chain {
                    i: *i,
                    j: *j,
                    k: *k,
                }))
            }
            PairItem::Quotients { i, j, q } => {
                if !is_pair(z.basis, *i, *j) {
                    return Ok(None);
                }
                let Some(q) = polynomials(alloc, z.field, z.graph, z.basis, q)? else {
                    return Ok(None);
                };
                Ok(Some(PairItem::Quotients { i: *i, j: *j, q }))
            }
        }
    }
}
