//! A call of the program: it opens a station over a connection, runs its command, reports its end,
//! and closes the file.
#![tactic(auto)]

mod ended;
mod laws;
mod migrating;
mod run;
mod serving;

pub use ended::{DeskFault, end, tell_undeclared, version_line};
pub use laws::{calls_beside_law, calls_over_file_law};
pub use run::{FileEnd, close_file, run_file, run_gathered, run_kept, run_line};
pub use serving::{Service, serve_file, serve_kept, serve_line};
