//! Why the laws are not found to hold.

use rinv_parts::LawName;
use rinv_poly::KPoly;
use rinv_ring::{NoMemory, RingFault};
use std::alloc::AllocFailed;

/// The first part of a law that is false, counted from 0, and its normal form modulo the ideal of the points of which the law speaks, in the
/// variables of the law's parts.
#[derive(Drop)]
pub struct LawFault {
    pub law: LawName,
    pub part: u32,
    pub rest: KPoly,
}

/// Why the laws are not found to hold.
#[derive(Drop)]
pub enum LawStop {
    /// A part is false.
    Fault(LawFault),
    /// Two monomials of these degrees, which add up to more than the limit, were to be multiplied.
    Degree { left: u32, right: u32 },
    NoMemory,
}

impl From<NoMemory> for LawStop {
    ghost use Rattle.std.specs.Prelude.{◌≡◌};
    ghost use Rattle.rinv_laws.specs.declared.stop.LawStop.TheVariants.{NoMemory};

    ghost from_gives = { λ _ e. e ≡ NoMemory };

    fn from(_error: NoMemory) -> LawStop {
        LawStop::NoMemory
    }
}

impl<T: Drop> From<AllocFailed<T>> for LawStop {
    ghost use Rattle.std.specs.Prelude.{◌≡◌};
    ghost use Rattle.rinv_laws.specs.declared.stop.LawStop.TheVariants.{NoMemory};

    ghost from_gives = { λ _ e. e ≡ NoMemory };

    fn from(_error: AllocFailed<T>) -> LawStop {
        LawStop::NoMemory
    }
}

impl From<RingFault> for LawStop {
    ghost use Rattle.std.specs.Prelude.{◌≡◌};
    ghost use Rattle.rinv_laws.specs.Stopped.{stop_of};

    ghost from_gives = { λ fault e. e ≡ stop_of fault };

    fn from(fault: RingFault) -> LawStop {
        match fault {
            RingFault::Degree { left, right } => LawStop::Degree { left, right },
            RingFault::NoMemory => LawStop::NoMemory,
        }
    }
}
