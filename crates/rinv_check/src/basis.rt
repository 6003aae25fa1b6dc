//! The third and the fourth condition: the basis lies in the action's ideal, and generates it.

ghost use Rattle.std.specs.Prelude.{◌≡◌, None, IfOk};
ghost use Rattle.rinv_defs.specs.Format.{format_failure};
ghost use Rattle.rinv_defs.specs.Conditions.{elements, basis_failure, inputs_failure};
ghost use Rattle.rinv_cert.specs.Seen.{plain};
ghost use Rattle.rinv_identities.specs.Graphs.{IsGraph};

use rinv_cert::{CertificateOf, Kind};
use rinv_form::sizes_in;
use rinv_identities::{Graph, action_generators, multiplies_out, vanishes_on_graph};
use rinv_poly::{KPoly, PolyRing};
use rinv_ring::NoMemory;
use std::alloc::Global;

/// The place of the first element that its cofactors do not show to vanish on the graph.
pub(crate) fn basis_failure(
    alloc: Global,
    stored: &CertificateOf<KPoly>,
    graph: &Graph,
) -> Result<Option<u32>, NoMemory>
    requires kind { stored.now.kind ≡ Kind.Full }
    requires form { format_failure (plain stored.now) ≡ None }
    requires graph { IsGraph (plain stored.now).system graph.now }
    ensures { IfOk result (λ o. o ≡ basis_failure (plain stored.now)) }
{
    let basis = stored.basis.as_slice();
    'elements: for k in 0..basis.len() {
        // Numbers of entries are u32: a longer list is answered as want of memory.
        let Ok(number) = u32::try_from(k + 1) else {
            return Err(NoMemory);
        };
        let element = &basis[k];
        let cofactors = element.cofactors.as_slice();
        let vanishes = vanishes_on_graph(alloc, graph, &element.h, cofactors)?;
        if !vanishes {
            return Ok(Some(number));
        }
    }
    Ok(None)
}

/// The place of the first generator of the action's ideal that is not the sum of its array times the basis.
pub(crate) fn inputs_failure(
    alloc: Global,
    stored: &CertificateOf<KPoly>,
    basis: &[KPoly],
) -> Result<Option<u32>, NoMemory>
    requires kind { stored.now.kind ≡ Kind.Full }
    requires form { format_failure (plain stored.now) ≡ None }
    requires elements { basis.now ≡ elements (plain stored.now) }
    ensures { IfOk result (λ o. o ≡ inputs_failure (plain stored.now)) }
{
    let sizes = sizes_in(stored);
    let ring = PolyRing::new(sizes.field, sizes.graph);
    let generators = action_generators(alloc, stored)?;
    let polynomials = generators.as_slice();
    let inputs = stored.inputs.as_slice();
    'generators: for k in 0..polynomials.len() {
        // Numbers of entries are u32: a longer list is answered as want of memory.
        let Ok(number) = u32::try_from(k + 1) else {
            return Err(NoMemory);
        };
        let array = inputs[k].as_slice();
        let holds = multiplies_out(alloc, &ring, &polynomials[k], array, basis)?;
        if !holds {
            return Ok(Some(number));
        }
    }
    Ok(None)
}
