//! The commands, what each answers to bytes, and what the last line `complete` of an answer says.
#![tactic(auto)]

mod accepted;
mod command;
mod headline;
mod reply;

pub use accepted::certified_texts_are_accepted;
pub use command::Command;
pub use headline::complete_answers_are_sound;
pub use reply::answer;
