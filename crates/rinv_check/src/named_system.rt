//! The system of a stored certificate, as its laws are computed with.

ghost use Rattle.std.specs.Prelude.{◌≡◌, None, IfOk};
ghost use Rattle.rinv_defs.specs.Format.{format_failure};
ghost use Rattle.rinv_cert.specs.Seen.{plain};
ghost use Rattle.rinv_parts.specs.Points.{ArePolynomials};

use rinv_cert::CertificateOf;
use rinv_form::{names_of, sizes_in};
use rinv_poly::{KPoly, PolyRing};
use rinv_ring::{Gf, NoMemory, Ring};
use rinv_text::System;
use std::alloc::Global;

// The polynomials once more.
fn copied(alloc: Global, field: Gf, vars: u32, fs: &[KPoly]) -> Result<Vec<KPoly>, NoMemory>
    requires { ArePolynomials field vars fs.now }
    ensures { IfOk result (λ r. r.items ≡ fs.now) }
{
    let ring = PolyRing::new(field, vars);
    let mut copies = Vec::new(alloc);
    'polynomials: for k in 0..fs.len() {
        let copy = ring.copy(alloc, &fs[k])?;
        copies.push(copy)?;
    }
    Ok(copies)
}

/// The system of a certificate that is stored. It has no section, and no step is counted.
pub(crate) fn named_system(alloc: Global, stored: &CertificateOf<KPoly>) -> Result<System, NoMemory>
    requires { format_failure (plain stored.now) ≡ None }
    ensures { IfOk result (λ s. s.system ≡ (plain stored.now).system) }
{
    let z = sizes_in(stored);
    let written = &stored.system;
    let group = names_of(alloc, written.group.as_slice())?;
    let space = names_of(alloc, written.space.as_slice())?;
    let ideal = copied(alloc, z.field, z.group, written.ideal.as_slice())?;
    let unit = written.unit.as_slice().to_vec(alloc)?;
    let product = copied(alloc, z.field, 2 * z.group, written.product.as_slice())?;
    let inverse = copied(alloc, z.field, z.group, written.inverse.as_slice())?;
    let action = copied(alloc, z.field, z.whole, written.action.as_slice())?;
    Ok(System {
        field: z.field,
        group,
        space,
        ideal,
        unit,
        product,
        inverse,
        action,
        section: Vec::new(alloc),
        pairs: 0,
        steps: 0,
    })
}
