//! Status update messages (Cargo-IMP FSU): a head, a consignment line, and status lines for the
//! waybill's trail.
#![tactic(auto)]

ghost use Rattle.std.specs.Prelude.{◌≡◌, ℕ, List, None};
ghost use Rattle.fsu_text.specs.Fsu.{StatusUpdate, IsFsu, fsu_fault};

mod reading;
mod sent;
mod status;
mod writing;

pub use reading::read;
pub use sent::{Fsu, SentCarriage, SentStatus, SentUpdate};
pub use status::{Carriage, FlightDay, Handling, Status, StatusLine};
pub use writing::write_fsu;

/// Lines are a message exactly if they have no fault, and then only one message.
pub fn fsu_law()
    ensures read { (lines : List (List ℕ)) (u : StatusUpdate) → IsFsu lines u
        → fsu_fault lines ≡ None }
    ensures faultless { (lines : List (List ℕ)) → fsu_fault lines ≡ None → (u : StatusUpdate)
        × IsFsu lines u }
    ensures one { (lines : List (List ℕ)) (u v : StatusUpdate) → IsFsu lines u → IsFsu lines v
        → u ≡ v }
{}
