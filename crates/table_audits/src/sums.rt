ghost use Rattle.std.specs.Prelude.{◌≡◌, ◌∷◌, [], ◌++◌, ℕ, pos, false, List, Some, OnOk, slice_get};
ghost use Rattle.table_audits.specs.Common.{FlightDate, Move, Place, Built, running, Sums, place_code, posting, is_built};
ghost use Rattle.table_audits.specs.Moves.{AreDistinct, AreSums, IsSpot, IsPosting};

use crate::posts::{NoRoom, post};
use row_codec::Tally;
use std::alloc::Global;
use std::collections::BTreeMap;

/// A waybill and the code of a place that isn't built.
#[derive(Clone, Copy, PartialEq, Eq, PartialOrd, Ord)]
pub(crate) struct CountPlace {
    pub(crate) awb: i64,
    pub(crate) place: i64,
}

/// A flight, by its index in a list of flights, and a waybill built on it.
#[derive(Clone, Copy, PartialEq, Eq, PartialOrd, Ord)]
pub(crate) struct BuildPlace {
    pub(crate) flight: usize,
    pub(crate) awb: i64,
}

/// A place from which or to which pieces move.
#[derive(Clone, Copy)]
pub(crate) enum Spot {
    /// A place that isn't built, by its code.
    Plain(i64),
    /// Built for a flight, by the flight's index in a list of flights.
    OnFlight(usize),
}

/// A move for posting.
#[derive(Clone, Copy)]
pub(crate) struct Posting {
    /// The waybill's number.
    pub(crate) awb: i64,
    pub(crate) from: Spot,
    pub(crate) to: Spot,
    pub(crate) amount: Tally,
}

/// The sums of a book's moves, for each waybill at each place.
#[derive(Drop)]
pub(crate) struct BookSums {
    pub(crate) counts: BTreeMap<CountPlace, Tally>,
    pub(crate) builds: BTreeMap<BuildPlace, Tally>,
}

impl BookSums {
    #[tactic(auto, using(crate::proofs::Posted::no_sums))]
    pub(crate) fn new(alloc: Global) -> BookSums
        ensures { (flights : List FlightDate) → AreSums flights result (running []) }
    {
        BookSums {
            counts: BTreeMap::new(alloc),
            builds: BTreeMap::new(alloc),
        }
    }

    /// Adds an amount to a waybill's sum at a place that isn't built.
    fn post_count(&mut self, key: CountPlace, by: Tally) -> Result<(), NoRoom>
        ensures { (flights : List FlightDate) (s : Sums) → AreSums flights self.old s
            → (a : ℕ) (p : Place) → key.awb ≡ pos a → key.place ≡ pos (place_code p)
            → is_built p ≡ false
            → OnOk result (AreSums flights self.new (posting a p by s)) }
    {
        post(&mut self.counts, key, by)
    }

    /// Adds an amount to a waybill's sum on a flight.
    fn post_build(&mut self, key: BuildPlace, by: Tally) -> Result<(), NoRoom>
        ensures { (flights : List FlightDate) (s : Sums) → AreDistinct flights
            → AreSums flights self.old s → (a : ℕ) (f : FlightDate) → key.awb ≡ pos a
            → slice_get flights key.flight ≡ Some f
            → OnOk result (AreSums flights self.new (posting a (Built f) by s)) }
    {
        post(&mut self.builds, key, by)
    }

    /// Adds an amount to a waybill's sum at a place.
    fn post_at(&mut self, awb: i64, spot: &Spot, by: Tally) -> Result<(), NoRoom>
        ensures { (flights : List FlightDate) (s : Sums) → AreDistinct flights
            → AreSums flights self.old s → (a : ℕ) (p : Place) → awb ≡ pos a
            → IsSpot flights spot.now p
            → OnOk result (AreSums flights self.new (posting a p by s)) }
    {
        match *spot {
            Spot::Plain(place) => self.post_count(CountPlace { awb, place }, by),
            Spot::OnFlight(flight) => self.post_build(BuildPlace { flight, awb }, by),
        }
    }

    /// Posts a move: takes its amount from one place, and adds it to the other.
    #[tactic(auto, using(crate::proofs::Posted::moved))]
    pub(crate) fn add(&mut self, movement: &Posting) -> Result<(), NoRoom>
        ensures { (flights : List FlightDate) (book : List Move) (m : Move) → AreDistinct flights
            → AreSums flights self.old (running book) → IsPosting flights movement.now m
            → OnOk result (AreSums flights self.new (running (book ++ m ∷ []))) }
    {
        let Some(gone) = movement.amount.negated() else {
            return Err(NoRoom);
        };
        self.post_at(movement.awb, &movement.from, gone)?;
        self.post_at(movement.awb, &movement.to, movement.amount)
    }
}
