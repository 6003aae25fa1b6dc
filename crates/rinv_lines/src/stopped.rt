//! An answer in place of what was to be found.

use crate::ending::Ending;
use std::alloc::AllocError as NoMemory;

/// Why something was not found.
#[derive(Drop)]
pub enum Stopped {
    /// What is printed in its place, and how that ends.
    Answer(Vec<u8>, Ending),
    NoMemory,
}

impl From<NoMemory> for Stopped {
    ghost use Rattle.std.specs.Prelude.{◌≡◌};
    ghost use Rattle.rinv_lines.specs.declared.stopped.Stopped.TheVariants.{NoMemory};

    ghost from_gives = { λ _ e. e ≡ NoMemory };

    fn from(_error: NoMemory) -> Stopped {
        Stopped::NoMemory
    }
}
