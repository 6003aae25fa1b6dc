//! What the lists of a system are tested by: the field, and the numbers of variables.

ghost use Rattle.std.specs.Prelude.{◌≡◌, ◌&&◌, length, IfOk, IfErr};
ghost use Rattle.rinv_defs.specs.Names.{is_between, are_names};
ghost use Rattle.rinv_cert.specs.Seen.{system_by};
ghost use Rattle.rinv_form.specs.Forms.{kept};
ghost use Rattle.rinv_form.specs.Sized.{IsFrame};
ghost use Rattle.rinv_form.specs.Stops.{StopsAt, frame_failure};

use crate::names::are_names;
use rinv_cert::{Name, Polynomial, System};
use rinv_ring::{Gf, NoMemory};

// The most variables of a group or of a space.
const MAX_VARIABLES: usize = 8;

/// Why the parts of a certificate are not stored.
#[derive(Clone, Copy, Debug, PartialEq, Eq)]
pub enum FormatStop {
    /// The first part of the wrong form, by the number of its key.
    Part(u32),
    NoMemory,
}

impl From<NoMemory> for FormatStop {
    ghost use Rattle.std.specs.Prelude.{◌≡◌};
    ghost use Rattle.rinv_form.specs.declared.frame.FormatStop.TheVariants.{NoMemory};

    ghost from_gives = { λ _ e. e ≡ NoMemory };

    fn from(_error: NoMemory) -> FormatStop {
        FormatStop::NoMemory
    }
}

// The field, and how many variables the group and the space have.
#[derive(Drop)]
pub(crate) struct Frame {
    pub(crate) field: Gf,
    pub(crate) group: u32,
    pub(crate) space: u32,
}

// How many names there are, where they are 1 to 8 names.
fn count_names(earlier: &[Name], names: &[Name]) -> Option<u32>
    ensures { result ≡ kept (is_between 1 8 (length names.now) && are_names earlier.now names.now) (length names.now) }
{
    let count = names.len();
    if 1 <= count && count <= MAX_VARIABLES && are_names(earlier, names) {
        Some(count as u32)
    } else {
        None
    }
}

/// The field and the numbers of variables, where these parts have their form.
pub(crate) fn frame_of(system: &System<Polynomial>) -> Result<Frame, FormatStop>
    ensures ok { IfOk result (IsFrame (system_by (λ f. f) system.now)) }
    ensures part { IfErr result (StopsAt (frame_failure (system_by (λ f. f) system.now))) }
{
    let Ok(field) = Gf::new(u64::from(system.field)) else {
        return Err(FormatStop::Part(3));
    };
    let Some(group) = count_names(&[], system.group.as_slice()) else {
        return Err(FormatStop::Part(4));
    };
    let Some(space) = count_names(system.group.as_slice(), system.space.as_slice()) else {
        return Err(FormatStop::Part(5));
    };
    Ok(Frame {
        field,
        group,
        space,
    })
}
