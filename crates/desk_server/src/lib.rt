//! The desk of a station over HTTP, on a port of this machine.
#![tactic(auto)]

mod connections;
mod held;
mod outgoing;
mod paced;
mod server;
mod unblocked;
mod zone;

pub use server::{ServerFault, Setting, listen, serve, served_law};
pub use unblocked::Unblocked;
pub use zone::{Zone, moment_now, moment_of};
