//! Why the passage to fractions gives no relations.

use rinv_poly::KPoly;
use rinv_ring::{NoMemory, RingFault};
use std::alloc::AllocFailed;

/// Why the passage to fractions gives no relations.
#[derive(Drop)]
pub enum ElimStop {
    /// 1 lies in the extended ideal: the element, in the space's variables, lies in the action's.
    Whole { element: KPoly },
    /// Two monomials were to be multiplied whose degrees add up to more than the limit.
    Degree { left: u32, right: u32 },
    NoMemory,
}

impl From<NoMemory> for ElimStop {
    ghost use Rattle.std.specs.Prelude.{◌≡◌};
    ghost use Rattle.rinv_elim.specs.declared.stop.ElimStop.TheVariants.{NoMemory};

    ghost from_gives = { λ _ e. e ≡ NoMemory };

    fn from(_error: NoMemory) -> ElimStop {
        ElimStop::NoMemory
    }
}

impl<T: Drop> From<AllocFailed<T>> for ElimStop {
    ghost use Rattle.std.specs.Prelude.{◌≡◌};
    ghost use Rattle.rinv_elim.specs.declared.stop.ElimStop.TheVariants.{NoMemory};

    ghost from_gives = { λ _ e. e ≡ NoMemory };

    fn from(_error: AllocFailed<T>) -> ElimStop {
        ElimStop::NoMemory
    }
}

impl From<RingFault> for ElimStop {
    ghost use Rattle.std.specs.Prelude.{◌≡◌};
    ghost use Rattle.rinv_elim.specs.Stopped.{stop_of};

    ghost from_gives = { λ fault e. e ≡ stop_of fault };

    fn from(fault: RingFault) -> ElimStop {
        match fault {
            RingFault::Degree { left, right } => ElimStop::Degree { left, right },
            RingFault::NoMemory => ElimStop::NoMemory,
        }
    }
}
