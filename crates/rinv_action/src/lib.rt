//! The Gröbner basis of the action's ideal: the group's ideal, the graph of the action, and the section in Z, in an order that eliminates the
//! group's variables, then Z.
//!
//! - `action_ring`, `action_order`: the ring in all variables, and the order
//! - `action_basis`: the run on the action's ideal
#![tactic(auto)]

mod action;
mod blocks;
mod inputs;

pub use action::action_basis;
pub use blocks::{action_order, action_ring};
