//! Shared parts of the test libraries: files of cases, with lines such as `airport 'FRA' = FRA`;
//! inputs and outputs that fail; a station's replies and rows as texts.
#![tactic(auto)]

mod case;
mod failing_ends;
mod going;
mod inputs;
mod job;
mod said;
mod script;
mod sinks;
mod telling;

pub use case::{Case, read_case};
pub use failing_ends::{Narrow, Torn};
pub use going::{Answers, go_through, go_through_file, print_told};
pub use inputs::{is_done, keyed};
pub use job::Job;
pub use said::{count_said, holder_said, known_said, next_whole, runs_said, say, shown};
pub use script::{act, body, first_word, moment};
pub use sinks::{RowCount, Taken};
pub use telling::{answer_said, answered, answers_said, holder, noon, number, stock, waybill};
