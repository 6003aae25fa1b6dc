//! The elements of a basis, without their cofactors.

ghost use Rattle.std.specs.Prelude.{◌≡◌, None, IfOk};
ghost use Rattle.rinv_defs.specs.Certificate.{full};
ghost use Rattle.rinv_defs.specs.Format.{format_failure};
ghost use Rattle.rinv_defs.specs.Conditions.{elements};
ghost use Rattle.rinv_cert.specs.Seen.{plain};

use rinv_cert::{CertificateOf, Kind};
use rinv_form::sizes_in;
use rinv_poly::{KPoly, PolyRing};
use rinv_ring::{NoMemory, Ring};
use std::alloc::Global;

/// The elements of the basis once more, in a list of their own.
pub fn copied_elements(alloc: Global, stored: &CertificateOf<KPoly>) -> Result<Vec<KPoly>, NoMemory>
    requires kind { stored.now.kind ≡ Kind.Full }
    requires form { format_failure (plain stored.now) ≡ None }
    ensures { IfOk result (λ r. r.items ≡ elements (plain stored.now)) }
{
    let sizes = sizes_in(stored);
    let ring = PolyRing::new(sizes.field, sizes.graph);
    let basis = stored.basis.as_slice();
    let mut elements = Vec::new(alloc);
    'elements: for k in 0..basis.len() {
        let item = &basis[k];
        let element = ring.copy(alloc, &item.h)?;
        elements.push(element)?;
    }
    Ok(elements)
}
