//! The first condition: each part of a certificate has its lengths, ranges and variables, and is stored, each polynomial in its ring.
//!
//! - `stored`: the certificate with each polynomial stored in its ring, or the first part of the wrong form
//! - `Sizes`, `sizes_in`: the field and the numbers of variables and of elements by which its lists are tested and computed with
//! - `are_names`, `names_of`: which names the variables may have, and lists of them
#![tactic(auto)]

mod basis_form;
mod copies;
mod form;
mod format;
mod frame;
mod law_lists;
mod lists;
mod names;
mod pair_form;
mod relation_form;
mod sizes;
mod system_lists;
mod tail_form;

pub use format::stored;
pub use frame::FormatStop;
pub use names::{are_names, names_of};
pub use sizes::{Sizes, sizes_in};
