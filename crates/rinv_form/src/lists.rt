//! Lists of polynomials, of fractions and of cofactors, where they have their form.

ghost use Rattle.std.specs.Prelude.{◌≡◌, ◌==◌, ◌&&◌, length, nat_le, IfOk};
ghost use Rattle.std.specs.List.{list_all};
ghost use Rattle.rinv_form.specs.Forms.{kept, is_stored, are_stored, is_stored_fraction};
ghost use Rattle.rinv_form.specs.ItemForms.{is_stored_nonzero};

use crate::form::{Form, FractionForm, ListForm, items};
use rinv_cert::{Items, Polynomial};
use rinv_poly::{KPoly, PolyRing};
use rinv_ring::{Gf, NoMemory, Ring};
use std::alloc::Global;

// The most generators of an ideal.
const MAX_GENERATORS: usize = 64;

/// The polynomial, where it is one of the ring.
pub(crate) fn polynomial(
    alloc: Global,
    field: Gf,
    vars: u32,
    f: &Polynomial,
) -> Result<Option<KPoly>, NoMemory>
    ensures { IfOk result (λ o. o ≡ kept (is_stored field vars f.now) f.now) }
{
    let ring = PolyRing::new(field, vars);
    let stored = ring.store(alloc, f)?;
    Ok(stored)
}

/// The polynomial, where it is one of the ring that is not zero.
pub(crate) fn nonzero(
    alloc: Global,
    field: Gf,
    vars: u32,
    f: &Polynomial,
) -> Result<Option<KPoly>, NoMemory>
    ensures { IfOk result (λ o. o ≡ kept (is_stored_nonzero field vars f.now) f.now) }
{
    let ring = PolyRing::new(field, vars);
    let Some(stored) = ring.store(alloc, f)? else {
        return Ok(None);
    };
    if ring.is_zero(&stored) {
        return Ok(None);
    }
    Ok(Some(stored))
}

/// The polynomials, where they are so many polynomials of the ring.
pub(crate) fn polynomials(
    alloc: Global,
    field: Gf,
    vars: u32,
    count: usize,
    fs: &Items<Polynomial>,
) -> Result<Option<Items<KPoly>>, NoMemory>
    ensures { IfOk result (λ o. o ≡ kept (are_stored field vars count fs.now) fs.now) }
{
    let form = ListForm {
        count,
        element: PolyRing::new(field, vars),
    };
    let stored = form.store(alloc, fs)?;
    Ok(stored)
}

/// The generators of an ideal, of which there are at most 64.
pub(crate) fn generators(
    alloc: Global,
    field: Gf,
    vars: u32,
    fs: &Items<Polynomial>,
) -> Result<Option<Items<KPoly>>, NoMemory>
    ensures { IfOk result (λ o. o ≡ kept (nat_le (length fs.now) 64 && list_all (is_stored field vars) fs.now) fs.now) }
{
    if fs.as_slice().len() > MAX_GENERATORS {
        return Ok(None);
    }
    let ring = PolyRing::new(field, vars);
    let stored = items(&ring, alloc, fs)?;
    Ok(stored)
}

/// The fractions.
pub(crate) fn fractions(
    alloc: Global,
    field: Gf,
    vars: u32,
    fs: &Items<(Polynomial, Polynomial)>,
) -> Result<Option<Items<(KPoly, KPoly)>>, NoMemory>
    ensures { IfOk result (λ o. o ≡ kept (list_all (is_stored_fraction field vars) fs.now) fs.now) }
{
    let form = FractionForm {
        ring: PolyRing::new(field, vars),
    };
    let stored = items(&form, alloc, fs)?;
    Ok(stored)
}

/// So many lists of so many cofactors.
pub(crate) fn cofactors(
    alloc: Global,
    field: Gf,
    vars: u32,
    size: usize,
    count: usize,
    lists: &Items<Items<Polynomial>>,
) -> Result<Option<Items<Items<KPoly>>>, NoMemory>
    ensures { IfOk result (λ o. o ≡ kept (length lists.now == count && list_all (are_stored field vars size) lists.now) lists.now) }
{
    let element = ListForm {
        count: size,
        element: PolyRing::new(field, vars),
    };
    let form = ListForm { count, element };
    let stored = form.store(alloc, lists)?;
    Ok(stored)
}
