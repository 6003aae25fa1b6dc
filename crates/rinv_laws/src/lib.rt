//! The laws of a group and of its action, tested by ideal membership.
//!
//! - `group_basis`: the Gröbner basis of the group's ideal, and the reduced one
//! - `laws_hold`: whether the laws are found to hold by values modulo the ideal, which is quick and may not find it
//! - `test_laws`: whether the laws hold, or the first part that is false
//! - `check_laws`: the same, with cofactors that prove each part
//! - `faults`: there is one first fault
#![tactic(auto)]

mod cofactors;
mod copied;
pub mod faults;
mod group;
mod proving;
mod quickly;
mod stop;
mod testing;

pub use group::{GroupBasis, group_basis};
pub use proving::{LawProofs, check_laws};
pub use quickly::laws_hold;
pub use rinv_parts::LawName;
pub use stop::{LawFault, LawStop};
pub use testing::{LawQuotients, test_laws};
