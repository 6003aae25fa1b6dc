//! The form of the elements of a basis.

ghost use Rattle.rinv_form.specs.Forms.{kept};
ghost use Rattle.rinv_form.specs.ItemForms.{is_basis_form};

use crate::form::Form;
use crate::lists::{nonzero, polynomials};
use crate::sizes::Sizes;
use rinv_cert::{BasisItem, Polynomial};
use rinv_poly::KPoly;
use rinv_ring::NoMemory;
use std::alloc::Global;

/// An element that is not zero, and a cofactor for each generator of the group's ideal.
#[derive(Drop)]
pub(crate) struct BasisForm {
    pub(crate) sizes: Sizes,
}

impl Form for BasisForm {
    type Plain = BasisItem<Polynomial>;

    type Stored = BasisItem<KPoly>;

    ghost stores = { λ s b. kept (is_basis_form s.sizes b) b };

    fn store(
        &self,
        alloc: Global,
        plain: &BasisItem<Polynomial>,
    ) -> Result<Option<BasisItem<KPoly>>, NoMemory> {
        let z = &self.sizes;
        let Some(h) = nonzero(alloc, z.field, z.graph, &plain.h)? else {
            return Ok(None);
        };
        let Some(cofactors) = polynomials(alloc, z.field, z.whole, z.ideal, &plain.cofactors)?
        else {
            return Ok(None);
        };
        Ok(Some(BasisItem { h, cofactors }))
    }
}
