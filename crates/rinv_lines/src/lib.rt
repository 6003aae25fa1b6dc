//! What the answers of all commands share: how one ends, what stands in place of what was to be found, and the lines of fractions.
#![tactic(auto)]

mod ending;
mod stopped;

pub use ending::Ending;
pub use stopped::Stopped;
