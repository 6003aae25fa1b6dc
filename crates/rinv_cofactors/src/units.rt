//! Unit lists: the cofactors of polynomials that are given, over themselves.

ghost use Rattle.std.specs.Prelude.{◌≡◌, ◌<◌, length, All, IfOk};
ghost use Rattle.rinv_cofactors.specs.Lists.{AreListsOf, AreUnits, AreZeros, IsUnit};
ghost use Rattle.rinv_poly.specs.Polynomials.{AreOf};

use rinv_poly::{Poly, PolyRing};
use rinv_ring::{Field, NoMemory, Ring};
use std::alloc::Global;

// For each polynomial that is not zero the list with one at its place and zero at the others.
pub fn unit_lists<F: Field>(
    ring: &PolyRing<F>,
    alloc: Global,
    given: &[Poly<F>],
) -> Result<Vec<Vec<Poly<F>>>, NoMemory>
    requires { AreOf F.ops F.is_element ring.now given.now }
    ensures lengths { IfOk result (λ ls. All (λ us. length us.items ≡ length given.now) ls.items) }
    ensures normal { IfOk result (λ ls. AreListsOf F.ops F.is_element ring.now ls.items) }
    ensures units { IfOk result (AreUnits F.ops ring.now given.now) }
{
    let mut lists = Vec::new(alloc);
    'places: for place in 0..given.len() {
        if !ring.is_zero(&given[place]) {
            let list = unit_list(ring, alloc, given.len(), place)?;
            lists.push(list)?;
        }
    }
    Ok(lists)
}

// So many polynomials, one at the place and zero at the others.
fn unit_list<F: Field>(
    ring: &PolyRing<F>,
    alloc: Global,
    count: usize,
    place: usize,
) -> Result<Vec<Poly<F>>, NoMemory>
    requires { place < count }
    ensures length { IfOk result (λ us. length us.items ≡ count) }
    ensures normal { IfOk result (λ us. AreOf F.ops F.is_element ring.now us.items) }
    ensures unit { IfOk result (IsUnit F.ops ring.now count place) }
{
    let mut list = zeros(ring, alloc, count)?;
    list[place] = ring.one(alloc)?;
    Ok(list)
}

// So many zeros.
fn zeros<F: Field>(
    ring: &PolyRing<F>,
    alloc: Global,
    count: usize,
) -> Result<Vec<Poly<F>>, NoMemory>
    ensures length { IfOk result (λ us. length us.items ≡ count) }
    ensures normal { IfOk result (λ us. AreOf F.ops F.is_element ring.now us.items) }
    ensures zero { IfOk result (AreZeros F.ops ring.now) }
{
    let mut list = Vec::with_capacity(alloc, count)?;
    'zeros: while list.len() < count {
        let zero = ring.zero(alloc)?;
        list.push(zero)?;
    }
    Ok(list)
}
