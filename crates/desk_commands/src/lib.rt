//! The commands of a desk, as values, texts and JSON bodies.
#![tactic(auto)]

mod body;
mod command;
mod day;
mod field_value;
mod lines;
mod verb;

pub use body::{BadBody, read_command};
pub use command::{Command, command_text, command_text_law};
pub use day::{day_text, read_day};
pub use lines::read_command_text;
pub use verb::{Field, VERBS, Verb};
