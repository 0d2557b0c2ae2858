//! The words of a call, and their meaning.
#![tactic(auto)]

mod commands;
mod fault;
mod help;
mod line;
mod part;
mod read;
mod refusals;
mod words;

pub use fault::{WordsFault, usage_fault};
pub use line::{Line, LineCommand};
pub use read::parse_words;
