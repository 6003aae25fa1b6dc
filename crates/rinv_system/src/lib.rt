//! Reading and writing the text of a system.
#![tactic(auto)]

mod draft;
mod entries;
mod keyword;
pub mod laws;
mod line;
mod lines;
mod listing;
mod naming;
mod number;
mod read;
mod reader;
mod refused;
mod write;

pub use draft::Draft;
pub use keyword::{Keyword, head, split_word};
pub use lines::{ascii_text, content, first_bad_line, first_line, len_before, to_last_word};
pub use naming::is_name_word;
pub use read::{finished, read_system};
pub use reader::{LineReader, read_text};
pub use refused::{Code, LineStop, Refused, SystemStop};
pub use write::write_system;
