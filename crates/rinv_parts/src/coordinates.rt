//! Points of the group and of the space, with variables and numbers for coordinates, and the products, inverses and moved points of such.

ghost use Rattle.std.specs.Prelude.{◌≡◌, ◌+◌, ◌*◌, ◌≤◌, ◌<◌, ◌^◌, ◌++◌, map, true, nat_lt, IfOk};
ghost use Rattle.std.specs.List.{list_all, range_with_len};
ghost use Rattle.rinv_algebra.specs.Residue.{residue_ops};
ghost use Rattle.rinv_algebra.specs.Polynomial.{constant, variable};
ghost use Rattle.rinv_algebra.specs.Value.{rename};
ghost use Rattle.rinv_defs.specs.System.{group_count, space_count, group_copy, space_behind, unit_point, times, inverse_of, moved};
ghost use Rattle.rinv_defs.specs.SystemForm.{IsSystem};
ghost use Rattle.rinv_parts.specs.Points.{ArePolynomials, AreStored};

use rinv_poly::{KPoly, PolyRing};
use rinv_ring::{Gf, NoMemory};
use rinv_sub::rename;
use rinv_text::{System, variable};
use std::alloc::Global;

// The variables from a place on, so many.
fn variables(
    alloc: Global,
    ring: &PolyRing<Gf>,
    place: u32,
    count: u32,
) -> Result<Vec<KPoly>, NoMemory>
    requires { place + count ≤ ring.now.vars }
    ensures { IfOk result (λ r. AreStored ring.now.coeffs ring.now.vars (map (variable (residue_ops ring.now.coeffs)) (range_with_len place count)) r.items) }
{
    let _vars = ring.vars();
    let mut point = Vec::new(alloc);
    'places: for k in 0..count {
        let coordinate = variable(alloc, place + k, ring)?;
        point.push(coordinate)?;
    }
    Ok(point)
}

// The numbers as constants.
fn constants(alloc: Global, ring: &PolyRing<Gf>, numbers: &[u32]) -> Result<Vec<KPoly>, NoMemory>
    requires { list_all (λ x. nat_lt x ring.now.coeffs) numbers.now ≡ true }
    ensures { IfOk result (λ r. AreStored ring.now.coeffs ring.now.vars (map (constant (residue_ops ring.now.coeffs)) numbers.now) r.items) }
{
    let mut point = Vec::new(alloc);
    'numbers: for k in 0..numbers.len() {
        let coordinate = ring.constant(alloc, numbers[k])?;
        point.push(coordinate)?;
    }
    Ok(point)
}

// The numbers from one on, so many.
fn numbers_from(alloc: Global, start: u32, count: u32) -> Result<Vec<u32>, NoMemory>
    requires { start + count < 2 ^ 32 }
    ensures { IfOk result (λ r. r.items ≡ range_with_len start count) }
{
    let mut numbers = Vec::new(alloc);
    'numbers: for k in 0..count {
        numbers.push(start + k)?;
    }
    Ok(numbers)
}

// The polynomials, with the variables from a place on for theirs.
fn renamed(
    alloc: Global,
    from: &PolyRing<Gf>,
    fs: &[KPoly],
    ring: &PolyRing<Gf>,
    start: u32,
) -> Result<Vec<KPoly>, NoMemory>
    requires field { from.now.coeffs ≡ ring.now.coeffs }
    requires inside { start + from.now.vars ≤ ring.now.vars }
    requires polynomials { ArePolynomials ring.now.coeffs from.now.vars fs.now }
    ensures { IfOk result (λ r. AreStored ring.now.coeffs ring.now.vars (map (rename (residue_ops ring.now.coeffs) (range_with_len start from.now.vars)) fs.now) r.items) }
{
    let _vars = ring.vars();
    let places = numbers_from(alloc, start, from.vars())?;
    let mut moved = Vec::new(alloc);
    'polynomials: for k in 0..fs.len() {
        // A polynomial has its degree under other names, so want of memory is the only fault.
        let Ok(f) = rename(from, alloc, &fs[k], ring, &places) else {
            return Err(NoMemory);
        };
        moved.push(f)?;
    }
    Ok(moved)
}

// The coordinates of a point, and then those of another.
pub(crate) fn joined(a: Vec<KPoly>, b: Vec<KPoly>) -> Result<Vec<KPoly>, NoMemory>
    ensures { IfOk result (λ r. r.items ≡ a.items ++ b.items) }
{
    let mut point = a;
    let mut rest = b;
    point.append(&mut rest)?;
    Ok(point)
}

// The group's variables in a copy, from 0.
pub(crate) fn group_copy(
    alloc: Global,
    system: &System,
    ring: &PolyRing<Gf>,
    copy: u32,
) -> Result<Vec<KPoly>, NoMemory>
    requires field { ring.now.coeffs ≡ system.now.system.p }
    requires inside { copy * group_count system.now.system + group_count system.now.system ≤ ring.now.vars }
    ensures { IfOk result (λ r. AreStored system.now.system.p ring.now.vars (group_copy system.now.system copy) r.items) }
{
    let _vars = ring.vars();
    let count = system.group.len();
    variables(alloc, ring, copy * count, count)
}

// The space's variables, behind so many copies of the group's.
pub(crate) fn space_behind(
    alloc: Global,
    system: &System,
    ring: &PolyRing<Gf>,
    copies: u32,
) -> Result<Vec<KPoly>, NoMemory>
    requires field { ring.now.coeffs ≡ system.now.system.p }
    requires inside { copies * group_count system.now.system + space_count system.now.system ≤ ring.now.vars }
    ensures { IfOk result (λ r. AreStored system.now.system.p ring.now.vars (space_behind system.now.system copies) r.items) }
{
    let _vars = ring.vars();
    let place = copies * system.group.len();
    variables(alloc, ring, place, system.space.len())
}

// The group's unit.
pub(crate) fn unit_point(
    alloc: Global,
    system: &System,
    ring: &PolyRing<Gf>,
) -> Result<Vec<KPoly>, NoMemory>
    requires system { IsSystem system.now.system }
    requires field { ring.now.coeffs ≡ system.now.system.p }
    ensures { IfOk result (λ r. AreStored system.now.system.p ring.now.vars (unit_point system.now.system) r.items) }
{
    let unit = constants(alloc, ring, &system.unit)?;
    Ok(unit)
}

// The product of the group's variables in a copy and in the next one.
pub(crate) fn product_of_copies(
    alloc: Global,
    system: &System,
    ring: &PolyRing<Gf>,
    copy: u32,
) -> Result<Vec<KPoly>, NoMemory>
    requires system { IsSystem system.now.system }
    requires field { ring.now.coeffs ≡ system.now.system.p }
    requires inside { copy * group_count system.now.system + 2 * group_count system.now.system ≤ ring.now.vars }
    ensures { IfOk result (λ r. AreStored system.now.system.p ring.now.vars (times system.now.system (group_copy system.now.system copy) (group_copy system.now.system (copy + 1))) r.items) }
{
    let _vars = ring.vars();
    let count = system.group.len();
    let from = PolyRing::new(system.field, 2 * count);
    let product = renamed(alloc, &from, &system.product, ring, copy * count)?;
    Ok(product)
}

// The inverse of the group's variables in their first copy.
pub(crate) fn inverse_of_copy(
    alloc: Global,
    system: &System,
    ring: &PolyRing<Gf>,
) -> Result<Vec<KPoly>, NoMemory>
    requires system { IsSystem system.now.system }
    requires field { ring.now.coeffs ≡ system.now.system.p }
    requires inside { group_count system.now.system ≤ ring.now.vars }
    ensures { IfOk result (λ r. AreStored system.now.system.p ring.now.vars (inverse_of system.now.system (group_copy system.now.system 0)) r.items) }
{
    let from = PolyRing::new(system.field, system.group.len());
    let inverse = renamed(alloc, &from, &system.inverse, ring, 0)?;
    Ok(inverse)
}

// The space's variables behind two copies of the group's, moved by those of the second copy.
pub(crate) fn moved_by_copy(
    alloc: Global,
    system: &System,
    ring: &PolyRing<Gf>,
) -> Result<Vec<KPoly>, NoMemory>
    requires system { IsSystem system.now.system }
    requires field { ring.now.coeffs ≡ system.now.system.p }
    requires inside { 2 * group_count system.now.system + space_count system.now.system ≤ ring.now.vars }
    ensures { IfOk result (λ r. AreStored system.now.system.p ring.now.vars (moved system.now.system (group_copy system.now.system 1) (space_behind system.now.system 2)) r.items) }
{
    let _vars = ring.vars();
    let count = system.group.len();
    let from = PolyRing::new(system.field, count + system.space.len());
    let moved = renamed(alloc, &from, &system.action, ring, count)?;
    Ok(moved)
}
