//! The generators of the action's ideal: the group's ideal, the graph of the action, and the section in Z.

ghost use Rattle.std.specs.Prelude.{◌≡◌, ◌<◌, ◌+◌, ◌*◌, ◌^◌, ◌++◌, length, nat_lt, IfOk};
ghost use Rattle.std.specs.List.{range_with_len};
ghost use Rattle.rinv_algebra.specs.Residue.{residue_ops};
ghost use Rattle.rinv_algebra.specs.Normal.{IsNormal};
ghost use Rattle.rinv_sub.specs.Places.{ArePlaces};
ghost use Rattle.rinv_defs.specs.SystemForm.{IsSystem};
ghost use Rattle.rinv_defs.specs.Extended.{action_ideal, graph};
ghost use Rattle.rinv_parts.specs.Points.{AreStored};
ghost use Rattle.rinv_reduction.specs.Localised.{all_count};
ghost use Rattle.rinv_action.specs.Action.{IsInputOf, IsSectionStored};

use rinv_poly::{KPoly, PolyRing};
use rinv_ring::{Gf, NoMemory, Ring};
use rinv_sub::{rename, widened};
use rinv_text::{System, variable};
use std::alloc::Global;

/// The generators, in this order.
pub(crate) fn action_ideal(
    alloc: Global,
    system: &System,
    ring: &PolyRing<Gf>,
) -> Result<Vec<KPoly>, NoMemory>
    requires system { IsSystem system.now.system }
    requires field { ring.now.coeffs ≡ system.now.system.p }
    requires vars { ring.now.vars ≡ all_count system.now.system }
    ensures { IfOk result (λ r. AreStored system.now.system.p (all_count system.now.system) (action_ideal system.now.system) r.items) }
{
    let mut ideal = group_ideal(alloc, system, ring)?;
    let mut graph = graph(alloc, system, ring)?;
    let mut section = section_in_z(alloc, system, ring)?;
    ideal.append(&mut graph)?;
    ideal.append(&mut section)?;
    Ok(ideal)
}

// The group's ideal in all variables.
fn group_ideal(alloc: Global, system: &System, ring: &PolyRing<Gf>) -> Result<Vec<KPoly>, NoMemory>
    requires system { IsSystem system.now.system }
    requires field { ring.now.coeffs ≡ system.now.system.p }
    requires vars { ring.now.vars ≡ all_count system.now.system }
    ensures { IfOk result (λ r. AreStored system.now.system.p (all_count system.now.system) system.now.system.ideal r.items) }
{
    let from = PolyRing::new(system.field, system.group.len());
    let mut ideal = Vec::new(alloc);
    'generators: for k in 0..system.ideal.len() {
        let f = widened(&from, alloc, &system.ideal[k], ring)?;
        ideal.push(f)?;
    }
    Ok(ideal)
}

// The places of the group's variables and of the space's among all.
fn moved_places(alloc: Global, group: u32, space: u32) -> Result<Vec<u32>, NoMemory>
    requires { group + 2 * space < 2 ^ 32 }
    ensures { IfOk result (λ r. r.items ≡ range_with_len 0 group ++ range_with_len (group + space) space) }
{
    let mut places = Vec::new(alloc);
    'first: for k in 0..group {
        places.push(k)?;
    }
    'second: for k in 0..space {
        places.push(group + space + k)?;
    }
    Ok(places)
}

// Z1 - g1, Z2 - g2, .. in all variables.
fn graph(alloc: Global, system: &System, ring: &PolyRing<Gf>) -> Result<Vec<KPoly>, NoMemory>
    requires system { IsSystem system.now.system }
    requires field { ring.now.coeffs ≡ system.now.system.p }
    requires vars { ring.now.vars ≡ all_count system.now.system }
    ensures { IfOk result (λ r. AreStored system.now.system.p (all_count system.now.system) (graph system.now.system) r.items) }
{
    let group = system.group.len();
    let space = system.space.len();
    let from = PolyRing::new(system.field, group + space);
    let places = moved_places(alloc, group, space)?;
    let mut graph = Vec::new(alloc);
    'coordinates: for k in 0..space {
        let moved = &system.action[k as usize];
        let element = graph_element(alloc, &from, moved, ring, &places, group + k)?;
        graph.push(element)?;
    }
    Ok(graph)
}

// The variable at the place less the polynomial, which is renamed.
fn graph_element(
    alloc: Global,
    from: &PolyRing<Gf>,
    f: &KPoly,
    ring: &PolyRing<Gf>,
    places: &[u32],
    place: u32,
) -> Result<KPoly, NoMemory>
    requires field { from.now.coeffs ≡ ring.now.coeffs }
    requires polynomial { IsNormal (residue_ops from.now.coeffs) (λ c. nat_lt c from.now.coeffs) from.now.vars f.now }
    requires many { length places.now ≡ from.now.vars }
    requires places { ArePlaces ring.now.vars places.now }
    requires inside { place < ring.now.vars }
    ensures { IfOk result (IsInputOf ring.now.coeffs ring.now.vars place places.now f.now) }
{
    let variable = variable(alloc, place, ring)?;
    // A polynomial has its degree under other names, and numbers modulo a prime have none: want of memory is the only fault.
    let Ok(moved) = rename(from, alloc, f, ring, places) else {
        return Err(NoMemory);
    };
    let Ok(element) = ring.sub(alloc, &variable, &moved) else {
        return Err(NoMemory);
    };
    Ok(element)
}

// The section's polynomials with Z for the space's variables.
fn section_in_z(alloc: Global, system: &System, ring: &PolyRing<Gf>) -> Result<Vec<KPoly>, NoMemory>
    requires system { IsSystem system.now.system }
    requires field { ring.now.coeffs ≡ system.now.system.p }
    requires vars { ring.now.vars ≡ all_count system.now.system }
    ensures { IfOk result (λ r. IsSectionStored system.now.system r.items) }
{
    let group = system.group.len();
    let space = system.space.len();
    let from = PolyRing::new(system.field, space);
    let through = PolyRing::new(system.field, group + space);
    let mut section = Vec::new(alloc);
    'polynomials: for k in 0..system.section.len() {
        let moved = from.behind(alloc, group, &system.section[k], &through)?;
        let f = widened(&through, alloc, &moved, ring)?;
        section.push(f)?;
    }
    Ok(section)
}
