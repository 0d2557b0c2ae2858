//! The commands of the command line, over any keeper, reader and writer.
#![tactic(auto)]

mod acts;
mod answer;
mod answering;
mod input;
mod look;
mod report;
mod request;
mod rows;
mod run;
mod seen;
mod takes;
mod telling;

pub use acts::{answer_acts, frame, is_blank, line_asked, line_value, wired};
pub use answer::{answer_bad, answer_bad_line, answer_refusal, named_line};
pub use answering::{Answering, ByStation, send_part, send_word, tell_line, tell_word};
pub use input::{Feed, Inputs, Watched, answer_input};
pub use request::Request;
pub use rows::{RowPlace, answer_bad_row, answer_list, read_row};
pub use run::{acts_law, airport_of_line, is_migration, is_opening, left_law, list_law, run_over};
pub use seen::run_read;
pub use takes::{LineCount, answer_takes};
pub use telling::{RunFault, tell_refusal};
