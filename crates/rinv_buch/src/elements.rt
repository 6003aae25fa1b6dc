//! The list of the algorithm, with what is prepared of each element: its leading monomial, and itself as a divisor.

ghost use Rattle.std.specs.Prelude.{◌≡◌, [], false, IfOk, OnOk};
ghost use Rattle.rinv_algebra.specs.Polynomial.{is_zero};
ghost use Rattle.rinv_buch.specs.Elements.{AreNonzeros, GainsElement, PreparedFor};
ghost use Rattle.rinv_poly.specs.Polynomials.{AreOf, IsOf};

use rinv_div::Divisors;
use rinv_mono::{Mono, MonoOrder};
use rinv_poly::{Poly, PolyRing};
use rinv_ring::{Field, NoMemory, Ring};
use std::alloc::Global;

/// The elements so far, none of them zero, their leading monomials, and the elements as divisors.
#[derive(Drop)]
pub struct Elements<F: Field> {
    pub(crate) polys: Vec<Poly<F>>,
    pub(crate) leads: Vec<Mono>,
    pub(crate) divisors: Divisors<F>,
}

impl<F: Field> Elements<F> {
    /// No element.
    pub fn new(alloc: Global) -> Elements<F>
        ensures polys { result.polys.items ≡ [] }
        ensures leads { result.leads.items ≡ [] }
        ensures divisors { result.divisors.list.items ≡ [] }
    {
        Elements {
            polys: Vec::new(alloc),
            leads: Vec::new(alloc),
            divisors: Divisors::new(alloc),
        }
    }

    /// Adds an element at the end.
    pub fn push<O: MonoOrder>(
        &mut self,
        ring: &PolyRing<F>,
        alloc: Global,
        h: Poly<F>,
        order: &O,
    ) -> Result<(), NoMemory>
        requires polynomial { IsOf F.ops F.is_element ring.now h }
        requires nonzero { is_zero (F.ops ring.now.coeffs) h ≡ false }
        requires suits { O.fits order.now ring.now.vars }
        requires prepared { PreparedFor F.ops F.is_element O.cmp ring.now order.now self.old }
        ensures { OnOk result (GainsElement F.ops F.is_element O.cmp ring.now order.now h self.old self.new) }
    {
        let place = self.polys.len();
        self.divisors.push(ring, alloc, &h, order)?;
        let lead = self.divisors.lead(place).copy(alloc)?;
        self.leads.push(lead)?;
        self.polys.push(h)?;
        Ok(())
    }
}

/// Copies of the polynomials that are not zero, as elements.
pub fn elements_of<F: Field, O: MonoOrder>(
    ring: &PolyRing<F>,
    alloc: Global,
    given: &[Poly<F>],
    order: &O,
) -> Result<Elements<F>, NoMemory>
    requires given { AreOf F.ops F.is_element ring.now given.now }
    requires suits { O.fits order.now ring.now.vars }
    ensures prepared { IfOk result (PreparedFor F.ops F.is_element O.cmp ring.now order.now) }
    ensures polys { IfOk result (AreNonzeros F.ops ring.now given.now) }
{
    let mut elements = Elements::new(alloc);
    for f in given {
        if !ring.is_zero(f) {
            let copy = ring.copy(alloc, f)?;
            elements.push(ring, alloc, copy, order)?;
        }
    }
    Ok(elements)
}
