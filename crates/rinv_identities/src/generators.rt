//! The generators of the action's ideal: the group's ideal, and Z1 - g1, Z2 - g2 and so on.

ghost use Rattle.std.specs.Prelude.{◌≡◌, ◌+◌, ◌*◌, None, IfOk};
ghost use Rattle.rinv_defs.specs.Format.{format_failure};
ghost use Rattle.rinv_defs.specs.Extended.{graph};
ghost use Rattle.rinv_cert.specs.Seen.{plain};
ghost use Rattle.rinv_identities.specs.Stored.{AreInputsStored, graph_places};

use crate::ideals::widened_ideal;
use rinv_cert::CertificateOf;
use rinv_form::{Sizes, sizes_in};
use rinv_poly::{KPoly, PolyRing};
use rinv_ring::{NoMemory, Ring};
use rinv_sub::rename;
use rinv_text::variable;
use std::alloc::Global;

// The places of the group's variables, and of the space's behind Z.
fn places_around(alloc: Global, sizes: &Sizes) -> Result<Vec<u32>, NoMemory>
    requires { sizes.now.graph ≡ sizes.now.group + 2 * sizes.now.space }
    ensures { IfOk result (λ r. r.items ≡ graph_places sizes.now) }
{
    let mut places = Vec::new(alloc);
    'group: for k in 0..sizes.group {
        places.push(k)?;
    }
    let start = sizes.graph - sizes.space;
    'space: for k in 0..sizes.space {
        places.push(start + k)?;
    }
    Ok(places)
}

/// The generators of the action's ideal, in the group's variables, Z and the space's.
pub fn action_generators(
    alloc: Global,
    stored: &CertificateOf<KPoly>,
) -> Result<Vec<KPoly>, NoMemory>
    requires { format_failure (plain stored.now) ≡ None }
    ensures { IfOk result (λ r. AreInputsStored (plain stored.now).system r.items) }
{
    let sizes = sizes_in(stored);
    let ring = PolyRing::new(sizes.field, sizes.graph);
    let group = PolyRing::new(sizes.field, sizes.group);
    let whole = PolyRing::new(sizes.field, sizes.whole);
    let mut generators = widened_ideal(alloc, &group, stored.system.ideal.as_slice(), &ring)?;
    let places = places_around(alloc, &sizes)?;
    let action = stored.system.action.as_slice();
    'action: for k in 0..sizes.space {
        let z = variable(alloc, sizes.group + k, &ring)?;
        // A polynomial has its degree under other names, and residues are refused for memory alone.
        let Ok(moved) = rename(&whole, alloc, &action[k as usize], &ring, &places) else {
            return Err(NoMemory);
        };
        let Ok(difference) = ring.sub(alloc, &z, &moved) else {
            return Err(NoMemory);
        };
        generators.push(difference)?;
    }
    Ok(generators)
}
