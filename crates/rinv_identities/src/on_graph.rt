//! Values of polynomials on the graph of the action.

ghost use Rattle.std.specs.Prelude.{◌≡◌, ◌+◌, ◌≤◌, length, None, IsTrue, IfOk};
ghost use Rattle.rinv_defs.specs.System.{System};
ghost use Rattle.rinv_defs.specs.Format.{format_failure};
ghost use Rattle.rinv_defs.specs.Conditions.{graph_point, vanishes_on_graph};
ghost use Rattle.rinv_cert.specs.Seen.{plain};
ghost use Rattle.rinv_form.specs.Forms.{are_stored, is_stored};
ghost use Rattle.rinv_parts.specs.Points.{ArePolynomials};
ghost use Rattle.rinv_identities.specs.Graphs.{IsGraph};
ghost use Rattle.rinv_identities.specs.Stored.{AddsVariables, AreGraphPoint};

use crate::graph::Graph;
use crate::ideals::widened_ideal;
use crate::sums::multiplies_out;
use rinv_cert::CertificateOf;
use rinv_form::{Sizes, sizes_in};
use rinv_poly::{KPoly, PolyRing};
use rinv_ring::{Gf, NoMemory, Ring, RingFault};
use rinv_sub::substitute_over_field;
use rinv_text::variable;
use std::alloc::Global;

// Adds variables of the ring to a point.
fn add_variables(
    alloc: Global,
    ring: &PolyRing<Gf>,
    place: u32,
    count: u32,
    point: &mut Vec<KPoly>,
) -> Result<(), NoMemory>
    requires { place + count ≤ ring.now.vars }
    ensures { AddsVariables result ring.now.coeffs ring.now.vars place count point.old.items point.new.items }
{
    let _vars = ring.vars();
    'places: for k in 0..count {
        let coordinate = variable(alloc, place + k, ring)?;
        point.push(coordinate)?;
    }
    Ok(())
}

// What stands for the variables of the group, for Z and for the space's.
fn graph_point(
    alloc: Global,
    sizes: &Sizes,
    whole: &PolyRing<Gf>,
    action: &[KPoly],
) -> Result<Vec<KPoly>, NoMemory>
    requires vars { whole.now.vars ≡ sizes.now.group + sizes.now.space }
    requires action { ArePolynomials whole.now.coeffs whole.now.vars action.now }
    ensures { IfOk result (λ r. AreGraphPoint whole.now.coeffs whole.now.vars sizes.now action.now r.items) }
{
    let mut point = Vec::new(alloc);
    add_variables(alloc, whole, 0, sizes.group, &mut point)?;
    'action: for k in 0..action.len() {
        let coordinate = whole.copy(alloc, &action[k])?;
        point.push(coordinate)?;
    }
    add_variables(alloc, whole, sizes.group, sizes.space, &mut point)?;
    Ok(point)
}

/// The graph of the action of a certificate that is stored.
pub fn graph_of(alloc: Global, stored: &CertificateOf<KPoly>) -> Result<Graph, NoMemory>
    requires { format_failure (plain stored.now) ≡ None }
    ensures { IfOk result (IsGraph (plain stored.now).system) }
{
    let sizes = sizes_in(stored);
    let ring = PolyRing::new(sizes.field, sizes.graph);
    let whole = PolyRing::new(sizes.field, sizes.whole);
    let group = PolyRing::new(sizes.field, sizes.group);
    let point = graph_point(alloc, &sizes, &whole, stored.system.action.as_slice())?;
    let ideal = widened_ideal(alloc, &group, stored.system.ideal.as_slice(), &whole)?;
    Ok(Graph {
        ring,
        whole,
        point,
        ideal,
    })
}

/// Whether the polynomial's value on the graph is the sum of the cofactors times the group's ideal, and all products fit.
pub fn vanishes_on_graph(
    alloc: Global,
    graph: &Graph,
    h: &KPoly,
    cofactors: &[KPoly],
) -> Result<bool, NoMemory>
    requires polynomial { IsTrue (is_stored graph.now.ring.coeffs graph.now.ring.vars h.now) }
    requires cofactors { IsTrue (are_stored graph.now.whole.coeffs graph.now.whole.vars (length graph.now.ideal.items) cofactors.now) }
    ensures { (s : System) → IsGraph s graph.now → IfOk result (λ b. b ≡ vanishes_on_graph s h.now cofactors.now) }
{
    // Degree comes only where the value's products do not fit.
    let value = match substitute_over_field(&graph.ring, alloc, h, &graph.whole, &graph.point) {
        Ok(value) => value,
        Err(RingFault::Degree { .. }) => return Ok(false),
        Err(RingFault::NoMemory) => return Err(NoMemory),
    };
    let vanishes = multiplies_out(alloc, &graph.whole, &value, cofactors, &graph.ideal)?;
    Ok(vanishes)
}
