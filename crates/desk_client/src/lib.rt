//! The command line as a client of a running service: the request of each command, and its output.
#![tactic(auto)]

mod ask;
mod content;
mod ended;
mod lines;
mod looks;
mod order;
mod printing;
mod question;
mod reading;
mod report;
mod rows;
mod run;
mod status;
mod whole;

pub use ask::{Ask, AskFault, Response, Until};
pub use content::{Content, content_of};
pub use question::Question;
pub use reading::{Connect, LastTry, RemoteDesk};
pub use run::{ask_command, lines_law, request_law, whole_law};
pub use status::end_asked;
