//! From the ideal of the action to relations over the fractions in the space's variables: its Gröbner basis, the elimination of the group's
//! variables, and the reduced basis of the extended ideal.
//!
//! - `action_basis`, `eliminate`: the run on the action's ideal, and the elements that have none of the group's variables
//! - `localise`, `reduce`: relations over fractions, and the reduction of their tails
#![tactic(auto)]

mod coefficients;
mod eliminating;
mod localising;
mod reducing;
mod relating;
mod stop;

pub use eliminating::eliminate;
pub use localising::localise;
pub use reducing::reduce;
pub use rinv_action::action_basis;
pub use stop::ElimStop;
