//! What is stored of plain terms, polynomials, fractions and lists that have their form.

ghost use Rattle.std.specs.Prelude.{◌≡◌, ◌==◌, length, List, IfOk, Option, None, option_map, if◌then◌else◌};
ghost use Rattle.rinv_form.specs.Forms.{kept, each_stored, is_written_term, is_stored, is_stored_fraction};

use rinv_cert::{Items, Polynomial, Term};
use rinv_mono::Mono;
use rinv_poly::{KPoly, PolyRing};
use rinv_ring::{Gf, NoMemory, Ring};
use std::alloc::Global;

/// A form that plain values may have, in which they are stored.
pub(crate) trait Form {
    type Plain;

    type Stored: Drop;

    // What is stored of a value that has the form.
    ghost stores: { Self → Self.Plain → Option Self.Stored };

    /// What is stored of the value, if it has the form.
    fn store(&self, alloc: Global, plain: &Self::Plain) -> Result<Option<Self::Stored>, NoMemory>
        ensures { IfOk result (λ o. o ≡ stores self.now plain.now) };
}

// What is stored of each value, if all have the form.
fn each<F: Form>(
    form: &F,
    alloc: Global,
    plain: &[F::Plain],
) -> Result<Option<Vec<F::Stored>>, NoMemory>
    ensures { IfOk result (λ o. option_map (λ v. v.items) o ≡ each_stored (F.stores form.now) plain.now) }
{
    let mut found = Vec::new(alloc);
    for item in plain {
        match form.store(alloc, item)? {
            Some(stored) => found.push(stored)?,
            None => return Ok(None),
        }
    }
    Ok(Some(found))
}

/// What is stored of a list, if all its elements have the form.
pub(crate) fn items<F: Form>(
    form: &F,
    alloc: Global,
    plain: &Items<F::Plain>,
) -> Result<Option<Items<F::Stored>>, NoMemory>
    ensures { IfOk result (λ o. o ≡ each_stored (F.stores form.now) plain.now) }
{
    match each(form, alloc, plain.as_slice())? {
        Some(stored) => Ok(Some(Items::new(stored))),
        None => Ok(None),
    }
}

/// The form of a term: an exponent for each variable, with a sum within the limit.
#[derive(Drop)]
struct TermForm {
    vars: u32,
}

impl Form for TermForm {
    type Plain = Term;

    type Stored = (Mono, u32);

    ghost stores = { λ s t. kept (is_written_term s.vars t) t };

    fn store(&self, alloc: Global, plain: &Term) -> Result<Option<(Mono, u32)>, NoMemory> {
        let exponents = plain.exponents.as_slice();
        let c = plain.coefficient;
        if exponents.len() as u64 != u64::from(self.vars) {
            return Ok(None);
        }
        match Mono::from_exponents(alloc, exponents)? {
            Some(mono) => Ok(Some((mono, c))),
            None => Ok(None),
        }
    }
}

// A polynomial of the ring, in the form in which it is stored.
impl Form for PolyRing<Gf> {
    type Plain = Polynomial;

    type Stored = KPoly;

    ghost stores = { λ s f. kept (is_stored s.coeffs s.vars f) f };

    fn store(&self, alloc: Global, plain: &Polynomial) -> Result<Option<KPoly>, NoMemory> {
        let form = TermForm { vars: self.vars() };
        let Some(terms) = each(&form, alloc, plain.as_slice())? else {
            return Ok(None);
        };
        let stored = self.stored(terms)?;
        Ok(stored)
    }
}

/// The form of a fraction: two polynomials of the ring, of which the second is not zero.
#[derive(Drop)]
pub(crate) struct FractionForm {
    pub(crate) ring: PolyRing<Gf>,
}

impl Form for FractionForm {
    type Plain = (Polynomial, Polynomial);

    type Stored = (KPoly, KPoly);

    ghost stores = { λ s f. kept (is_stored_fraction s.ring.coeffs s.ring.vars f) f };

    fn store(
        &self,
        alloc: Global,
        plain: &(Polynomial, Polynomial),
    ) -> Result<Option<(KPoly, KPoly)>, NoMemory> {
        let Some(numerator) = self.ring.store(alloc, &plain.0)? else {
            return Ok(None);
        };
        let Some(denominator) = self.ring.store(alloc, &plain.1)? else {
            return Ok(None);
        };
        if self.ring.is_zero(&denominator) {
            return Ok(None);
        }
        Ok(Some((numerator, denominator)))
    }
}

/// The form of a list: so many elements, each of one form.
#[derive(Drop)]
pub(crate) struct ListForm<F> {
    pub(crate) count: usize,
    pub(crate) element: F,
}

impl<F: Form> Form for ListForm<F> {
    type Plain = Items<F::Plain>;

    type Stored = Items<F::Stored>;

    ghost stores = { λ s fs. if length fs == s.count then each_stored (F.stores s.element) fs else None };

    fn store(
        &self,
        alloc: Global,
        plain: &Items<F::Plain>,
    ) -> Result<Option<Items<F::Stored>>, NoMemory> {
        if plain.as_slice().len() != self.count {
            return Ok(None);
        }
        items(&self.element, alloc, plain)
    }
}
