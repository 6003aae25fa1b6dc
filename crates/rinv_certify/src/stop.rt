//! Why there is no certificate.

use rinv_ring::{NoMemory, RingFault};
use std::alloc::AllocFailed;

/// Why there is no certificate.
#[derive(Clone, Copy, Debug, PartialEq, Eq)]
pub enum CertifyStop {
    /// Two monomials of these degrees have a product over the limit.
    Degree { left: u32, right: u32 },
    NoMemory,
}

impl From<NoMemory> for CertifyStop {
    ghost use Rattle.std.specs.Prelude.{◌≡◌};
    ghost use Rattle.rinv_certify.specs.declared.stop.CertifyStop.TheVariants.{NoMemory};

    ghost from_gives = { λ _ e. e ≡ NoMemory };

    fn from(_error: NoMemory) -> CertifyStop {
        CertifyStop::NoMemory
    }
}

impl<T: Drop> From<AllocFailed<T>> for CertifyStop {
    ghost use Rattle.std.specs.Prelude.{◌≡◌};
    ghost use Rattle.rinv_certify.specs.declared.stop.CertifyStop.TheVariants.{NoMemory};

    ghost from_gives = { λ _ e. e ≡ NoMemory };

    fn from(_error: AllocFailed<T>) -> CertifyStop {
        CertifyStop::NoMemory
    }
}

impl From<RingFault> for CertifyStop {
    ghost use Rattle.std.specs.Prelude.{◌≡◌};
    ghost use Rattle.rinv_certify.specs.Stopped.{stop_of};

    ghost from_gives = { λ fault e. e ≡ stop_of fault };

    fn from(fault: RingFault) -> CertifyStop {
        match fault {
            RingFault::Degree { left, right } => CertifyStop::Degree { left, right },
            RingFault::NoMemory => CertifyStop::NoMemory,
        }
    }
}
