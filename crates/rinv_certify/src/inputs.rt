//! The key `inputs`: how the generators of the action's ideal are written in its basis, which begins with those that are not zero.

ghost use Rattle.std.specs.Prelude.{◌≡◌, ◌+◌, ◌<◌, ◌≤◌, ◌==◌, [], length, if◌then◌else◌, IfOk};
ghost use Rattle.rinv_defs.specs.System.{space_count};
ghost use Rattle.rinv_defs.specs.SystemForm.{IsSystem};
ghost use Rattle.rinv_acceptance.specs.Inputs.{stored_one, unit_row};
ghost use Rattle.rinv_certify.specs.Stated.{is_zero_input, nonzeros_before, row_of_input, rows_of_inputs};

use rinv_cert::{Items, Plain, Term};
use rinv_generators::kinds::Generators;
use rinv_poly::PolyRing;
use rinv_ring::{NoMemory, Ring};
use rinv_text::System;
use std::alloc::Global;

// 1 as a polynomial in all variables.
fn one(alloc: Global, system: &System) -> Result<Plain, NoMemory>
    requires { IsSystem system.now.system }
    ensures { IfOk result (λ f. f ≡ stored_one system.now.system) }
{
    let vars = system.group.len() + 2 * system.space.len();
    let exponents = vec![in alloc; 0; vars as usize]?;
    let term = Term {
        coefficient: 1,
        exponents: Items::new(exponents),
    };
    let terms = vec![in alloc; term]?;
    Ok(Items::new(terms))
}

// No term.
fn zero(alloc: Global) -> Plain
    ensures { result ≡ [] }
{
    Items::new(Vec::new(alloc))
}

// An entry of the row with 1 at a place.
fn entry(alloc: Global, system: &System, k: usize, place: usize) -> Result<Plain, NoMemory>
    requires { IsSystem system.now.system }
    ensures { IfOk result (λ f. f ≡ (if k == place then stored_one system.now.system else [])) }
{
    if k != place {
        let nothing = zero(alloc);
        return Ok(nothing);
    }
    let unit = one(alloc, system)?;
    Ok(unit)
}

// 1 at a place, and zero at the others; where the place is past the count, zero at all.
fn row(alloc: Global, system: &System, count: usize, place: usize) -> Result<Items<Plain>, NoMemory>
    requires { IsSystem system.now.system }
    ensures { IfOk result (λ fs. fs ≡ unit_row system.now.system count place) }
{
    let mut list = Vec::with_capacity(alloc, count)?;
    'places: for k in 0..count {
        let polynomial = entry(alloc, system, k, place)?;
        list.push(polynomial)?;
    }
    Ok(Items::new(list))
}

// Whether the generator at a place is zero. No Zj - gj is.
fn is_zero_at(system: &System, k: usize) -> bool
    requires system { IsSystem system.now.system }
    requires inside { k < length system.now.system.ideal + space_count system.now.system }
    ensures { result ≡ is_zero_input system.now.system k }
{
    let ideal = system.ideal.as_slice();
    if k >= ideal.len() {
        return false;
    }
    let ring = PolyRing::new(system.field, system.group.len());
    ring.is_zero(&ideal[k])
}

// The row of the generator at place k, where so many before it are not zero; and how many are not, with it.
fn row_at(
    alloc: Global,
    system: &System,
    count: usize,
    k: usize,
    place: usize,
) -> Result<(Items<Plain>, usize), NoMemory>
    requires system { IsSystem system.now.system }
    requires inside { k < length system.now.system.ideal + space_count system.now.system }
    requires low { place ≤ k }
    ensures row { place ≡ nonzeros_before system.now.system k → IfOk result (λ r. r.0 ≡ row_of_input system.now.system count k) }
    ensures next { place ≡ nonzeros_before system.now.system k → IfOk result (λ r. r.1 ≡ nonzeros_before system.now.system (k + 1)) }
    ensures low { IfOk result (λ r. r.1 ≤ k + 1) }
{
    let is_nothing = is_zero_at(system, k);
    if is_nothing {
        let zeros = row(alloc, system, count, count)?;
        return Ok((zeros, place));
    }
    let unit = row(alloc, system, count, place)?;
    Ok((unit, place + 1))
}

/// A row for each generator of the group's ideal, and then for each Zj - gj.
pub(crate) fn rows_of_inputs(
    alloc: Global,
    gens: &Generators,
) -> Result<Items<Items<Plain>>, NoMemory>
    ensures { IfOk result (λ rows. rows ≡ rows_of_inputs gens.now.told.system (length gens.now.action.polys)) }
{
    let system = &gens.system;
    let action = &gens.action;
    let count = action.polys.len();
    let rows = input_rows(alloc, system, count)?;
    Ok(rows)
}

// The rows over so many elements.
fn input_rows(alloc: Global, system: &System, count: usize) -> Result<Items<Items<Plain>>, NoMemory>
    requires { IsSystem system.now.system }
    ensures { IfOk result (λ rows. rows ≡ rows_of_inputs system.now.system count) }
{
    let mut rows = Vec::new(alloc);
    let mut place = 0;
    let given = system.ideal.len() + system.space.len() as usize;
    'inputs: for k in 0..given {
        let (row, next) = row_at(alloc, system, count, k, place)?;
        rows.push(row)?;
        place = next;
    }
    Ok(Items::new(rows))
}
