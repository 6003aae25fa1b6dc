//! The form of the terms of a relation's tail.

ghost use Rattle.std.specs.Prelude.{◌≡◌, IfOk};
ghost use Rattle.rinv_form.specs.Forms.{kept};
ghost use Rattle.rinv_form.specs.ItemForms.{are_exponents, is_tied_form, is_tail_form};

use crate::copies::numbers_again;
use crate::form::Form;
use crate::lists::polynomial;
use crate::sizes::Sizes;
use rinv_cert::{Items, Polynomial, TailItem, Tied};
use rinv_mono::Mono;
use rinv_poly::KPoly;
use rinv_ring::NoMemory;
use std::alloc::Global;

/// Exponents of Z, a polynomial in the space's variables, and the residue or the fraction that it is tied to.
#[derive(Drop)]
pub(crate) struct TailForm {
    pub(crate) sizes: Sizes,
}

/// The list once more, where it has so many exponents, with a sum within the limit.
pub(crate) fn exponents(
    alloc: Global,
    count: u32,
    list: &Items<u32>,
) -> Result<Option<Items<u32>>, NoMemory>
    ensures { IfOk result (λ o. o ≡ kept (are_exponents count list.now) list.now) }
{
    if list.as_slice().len() as u64 != u64::from(count) {
        return Ok(None);
    }
    let Some(_monomial) = Mono::from_exponents(alloc, list.as_slice())? else {
        return Ok(None);
    };
    let copy = numbers_again(alloc, list)?;
    Ok(Some(copy))
}

// What a coefficient is tied to, where it is a residue or the number of a fraction.
fn tied(sizes: &Sizes, plain: &Tied) -> Option<Tied>
    ensures { result ≡ kept (is_tied_form sizes.now plain.now) plain.now }
{
    match plain {
        Tied::Constant { v } => {
            if *v < sizes.field.modulus() {
                Some(Tied::Constant { v: *v })
            } else {
                None
            }
        }
        Tied::Generator { k } => {
            if 1 <= *k && *k as usize <= sizes.fractions {
                Some(Tied::Generator { k: *k })
            } else {
                None
            }
        }
    }
}

impl Form for TailForm {
    type Plain = TailItem<Polynomial>;

    type Stored = TailItem<KPoly>;

    ghost stores = { λ s t. kept (is_tail_form s.sizes t) t };

    fn store(
        &self,
        alloc: Global,
        plain: &TailItem<Polynomial>,
    ) -> Result<Option<TailItem<KPoly>>, NoMemory> {
        let z = &self.sizes;
        let Some(alpha) = exponents(alloc, z.space, &plain.alpha)? else {
            return Ok(None);
        };
        let Some(c) = polynomial(alloc, z.field, z.space, &plain.c)? else {
            return Ok(None);
        };
        let Some(tied) = tied(z, &plain.tied) else {
            return Ok(None);
        };
        Ok(Some(TailItem { alpha, c, tied }))
    }
}
