//! The field, the numbers of variables and the lengths of lists by which the parts of a certificate are tested.

ghost use Rattle.std.specs.Prelude.{◌≡◌, None, IfOk, IfErr, OnOk};
ghost use Rattle.rinv_defs.specs.Format.{format_failure};
ghost use Rattle.rinv_cert.specs.Seen.{plain};
ghost use Rattle.rinv_form.specs.Sized.{IsSized};
ghost use Rattle.rinv_form.specs.Stops.{StopsAt, frame_failure};

use crate::frame::{FormatStop, Frame, frame_of};
use rinv_cert::{Certificate, CertificateOf};
use rinv_poly::KPoly;
use rinv_ring::Gf;

/// The field and the sizes of a certificate.
#[derive(Clone, Copy, Debug)]
pub struct Sizes {
    pub field: Gf,
    /// How many variables the group has.
    pub group: u32,
    /// How many variables the space has.
    pub space: u32,
    /// The variables of the group and of the space.
    pub whole: u32,
    /// Those and the variables Z.
    pub graph: u32,
    /// How many generators the group's ideal has.
    pub ideal: usize,
    /// How many elements the basis has.
    pub basis: usize,
    /// How many fractions there are.
    pub fractions: usize,
}

/// The sizes of a certificate whose field and names have their form.
pub(crate) fn sizes_of(certificate: &Certificate) -> Result<Sizes, FormatStop>
    ensures ok { IfOk result (IsSized (plain certificate.now)) }
    ensures form { OnOk result (frame_failure (plain certificate.now).system ≡ None) }
    ensures part { IfErr result (StopsAt (frame_failure (plain certificate.now).system)) }
{
    let Frame {
        field,
        group,
        space,
    } = frame_of(&certificate.system)?;
    Ok(Sizes {
        field,
        group,
        space,
        whole: group + space,
        graph: group + 2 * space,
        ideal: certificate.system.ideal.as_slice().len(),
        basis: certificate.basis.as_slice().len(),
        fractions: certificate.fractions.as_slice().len(),
    })
}

/// The sizes of a certificate that is stored.
pub fn sizes_in(stored: &CertificateOf<KPoly>) -> Sizes
    requires { format_failure (plain stored.now) ≡ None }
    ensures { IsSized (plain stored.now) result }
{
    let Ok(field) = Gf::new(u64::from(stored.system.field)) else {
        unreachable!()
    };
    let group = stored.system.group.as_slice().len() as u32;
    let space = stored.system.space.as_slice().len() as u32;
    Sizes {
        field,
        group,
        space,
        whole: group + space,
        graph: group + 2 * space,
        ideal: stored.system.ideal.as_slice().len(),
        basis: stored.basis.as_slice().len(),
        fractions: stored.fractions.as_slice().len(),
    }
}
