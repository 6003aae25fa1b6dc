//! What stands for the variables of the group, for Z and for the space's variables where Z = g.

ghost use Rattle.std.specs.Prelude.{◌≡◌, ◌+◌, ◌≤◌, IfOk};
ghost use Rattle.rinv_parts.specs.Points.{ArePolynomials};
ghost use Rattle.rinv_at_graph.specs.Stored.{AddsVariables, AreGraphPoint};

use rinv_poly::{KPoly, PolyRing};
use rinv_ring::{Gf, NoMemory, Ring};
use rinv_text::variable;
use std::alloc::Global;

// Adds variables of the ring to a point.
fn add_variables(
    alloc: Global,
    ring: &PolyRing<Gf>,
    place: u32,
    count: u32,
    point: &mut Vec<KPoly>,
) -> Result<(), NoMemory>
    requires { place + count ≤ ring.now.vars }
    ensures { AddsVariables result ring.now.coeffs ring.now.vars place count point.old.items point.new.items }
{
    let _vars = ring.vars();
    'places: for k in 0..count {
        let coordinate = variable(alloc, place + k, ring)?;
        point.push(coordinate)?;
    }
    Ok(())
}

/// The group's variables, the action for Z, and the space's variables.
pub(crate) fn graph_point(
    alloc: Global,
    group: u32,
    space: u32,
    whole: &PolyRing<Gf>,
    action: &[KPoly],
) -> Result<Vec<KPoly>, NoMemory>
    requires vars { whole.now.vars ≡ group + space }
    requires action { ArePolynomials whole.now.coeffs whole.now.vars action.now }
    ensures { IfOk result (λ r. AreGraphPoint whole.now.coeffs whole.now.vars group space action.now r.items) }
{
    let mut point = Vec::new(alloc);
    add_variables(alloc, whole, 0, group, &mut point)?;
    'action: for k in 0..action.len() {
        let coordinate = whole.copy(alloc, &action[k])?;
        point.push(coordinate)?;
    }
    add_variables(alloc, whole, group, space, &mut point)?;
    Ok(point)
}
