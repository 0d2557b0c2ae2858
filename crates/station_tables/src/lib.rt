//! The whole station over the tables of a database.
#![tactic(auto)]

mod attaching;
mod migrating;
mod repeating;
mod restarting;
mod station;

pub use attaching::{AttachFault, attach, create};
pub use migrating::migrate;
pub use repeating::attach_and_repeat;
pub use restarting::{Reopening, Restart, act_and_restart, release_and_restart};
pub use station::{Station, calls_law, lives_law, migration_law, next_call_law};
