//! The elements of a certificate's basis, as the tests take them.

ghost use Rattle.std.specs.Prelude.{◌≡◌, ◌+◌, ◌*◌, [], ◌∷◌, length, None, IfOk, IsTrue, false};
ghost use Rattle.rinv_algebra.specs.Residue.{residue_ops};
ghost use Rattle.rinv_algebra.specs.Polynomial.{is_zero};
ghost use Rattle.rinv_algebra.specs.Leading.{leading_monomial};
ghost use Rattle.rinv_algebra.specs.BlockEnds.{sizes_from, last_from};
ghost use Rattle.rinv_algebra.specs.Order.{block_order};
ghost use Rattle.rinv_defs.specs.Format.{format_failure};
ghost use Rattle.rinv_cert.specs.Seen.{plain};
ghost use Rattle.rinv_form.specs.Forms.{is_stored};
ghost use Rattle.rinv_basis_check.specs.Bases.{IsBasisOf};

use crate::basis::Basis;
use rinv_cert::{CertificateOf, Kind};
use rinv_form::{Sizes, sizes_in};
use rinv_identities::copied_elements;
use rinv_mono::{Blocks, Mono};
use rinv_poly::{KPoly, PolyRing};
use rinv_ring::{Gf, NoMemory};
use std::alloc::Global;

// The order: first the group's variables decide, then Z, then the space's.
fn action_order(alloc: Global, sizes: &Sizes) -> Result<Blocks, NoMemory>
    requires whole { sizes.now.whole ≡ sizes.now.group + sizes.now.space }
    requires graph { sizes.now.graph ≡ sizes.now.group + 2 * sizes.now.space }
    ensures { IfOk result (λ r. r ≡ sizes.now.group ∷ sizes.now.whole ∷ sizes.now.graph ∷ []) }
{
    let ends = vec![in alloc; sizes.group, sizes.whole, sizes.graph]?;
    Ok(Blocks::new(ends))
}

/// The leading monomial of a polynomial that is not zero.
pub(crate) fn lead_of<'a>(ring: &PolyRing<Gf>, order: &Blocks, f: &'a KPoly) -> &'a Mono
    requires polynomial { IsTrue (is_stored ring.now.coeffs ring.now.vars f.now) }
    requires nonzero { is_zero (residue_ops ring.now.coeffs) f.now ≡ false }
    requires suits { ring.now.vars ≡ last_from 0 order.now }
    ensures lead { result.now ≡ leading_monomial (residue_ops ring.now.coeffs) (block_order (sizes_from 0 order.now)) f.now }
    ensures vars { length result.now ≡ ring.now.vars }
{
    let Some(place) = ring.lead(f, order) else {
        unreachable!()
    };
    ring.mono(f, place)
}

/// The basis of a certificate that is stored.
pub fn basis_of(alloc: Global, stored: &CertificateOf<KPoly>) -> Result<Basis, NoMemory>
    requires kind { stored.now.kind ≡ Kind.Full }
    requires form { format_failure (plain stored.now) ≡ None }
    ensures { IfOk result (IsBasisOf (plain stored.now)) }
{
    let sizes = sizes_in(stored);
    let ring = PolyRing::new(sizes.field, sizes.graph);
    let order = action_order(alloc, &sizes)?;
    let elements = copied_elements(alloc, stored)?;
    let mut leads = Vec::new(alloc);
    'elements: for k in 0..elements.len() {
        let lead = lead_of(&ring, &order, &elements[k]).copy(alloc)?;
        leads.push(lead)?;
    }
    Ok(Basis {
        ring,
        order,
        elements,
        leads,
    })
}
