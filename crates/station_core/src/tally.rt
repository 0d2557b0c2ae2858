//! The history of a reader or a writer, seen only by contracts.
ghost use Rattle.std.specs.Prelude.{◌≡◌};
ghost use base.Fml.{ftrue};
ghost use Rattle.station_core.specs.Given.{Given, given_code, nothing_given};

use std::marker::Model;

/// The history so far. It has size 0.
#[derive(Drop)]
pub struct Tally {
    pub ghost given: { Given } by { given_code },
}

impl Model for Tally {
    ghost also_owns = { λ _. ftrue };
}

/// One call and its result.
#[derive(Clone, Copy, Drop)]
pub enum Call<'a> {
    /// These bytes were moved, with room for this many.
    Moved(&'a [u8], usize),
    /// Interrupted: to be called again.
    Again,
    /// The call failed.
    Failed,
}

impl Tally {
    ghost use Rattle.station_core.specs.Ends.{noted};

    /// Returns the history before the first call.
    pub fn new() -> Tally
        ensures { result.given ≡ nothing_given }
    {
        Tally {}
    }

    /// Returns the history after another call.
    pub fn then(&self, _call: &Call<'_>) -> Tally
        ensures { result.given ≡ noted self.now.given _call.now }
    {
        Tally {}
    }
}
