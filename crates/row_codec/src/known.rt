//! Sums of waybills that are known, since they were read or written a moment before.
ghost use Rattle.std.specs.Prelude.{◌≡◌, ℕ, Some, IfSome, IfOk};
ghost use Rattle.row_codec.specs.Common.{Updates, nat_cmp, Built};
ghost use Rattle.row_codec.specs.Stored.{unless_nothing, Sums, posting};
ghost use Rattle.row_codec.specs.Known.{AreKnown, AreSumsOf, AreSumsOn, sum_at, sum_on, with_sum};

use crate::tally::Tally;
use awb_number::Awb;
use shipment_machine::{FlightDate, Place};
use std::alloc::Global;
use std::collections::BTreeMap;

/// The balance of a waybill at each place but the built ones: what came, less what left.
#[derive(Clone, Copy)]
pub(crate) struct PlaceSums {
    pub(crate) hand: Tally,
    pub(crate) surplus: Tally,
    pub(crate) free: Tally,
    pub(crate) departed: Tally,
    pub(crate) delivered: Tally,
    pub(crate) missing: Tally,
    pub(crate) transferred: Tally,
}

impl PlaceSums {
    /// The sum at a place, if it isn't a built one.
    fn at(&self, place: &Place) -> Option<Tally>
        ensures { result ≡ sum_at self.now place.now }
    {
        match place {
            Place::Hand => Some(self.hand),
            Place::Surplus => Some(self.surplus),
            Place::Free => Some(self.free),
            Place::Built(_) => None,
            Place::Departed => Some(self.departed),
            Place::Delivered => Some(self.delivered),
            Place::Missing => Some(self.missing),
            Place::Transferred => Some(self.transferred),
        }
    }

    /// These, with another sum at a place that isn't a built one.
    fn with(self, place: &Place, sum: Tally) -> PlaceSums
        ensures { result ≡ with_sum self place.now sum }
    {
        match place {
            Place::Hand => PlaceSums { hand: sum, ..self },
            Place::Surplus => PlaceSums {
                surplus: sum,
                ..self
            },
            Place::Free => PlaceSums { free: sum, ..self },
            Place::Built(_) => self,
            Place::Departed => PlaceSums {
                departed: sum,
                ..self
            },
            Place::Delivered => PlaceSums {
                delivered: sum,
                ..self
            },
            Place::Missing => PlaceSums {
                missing: sum,
                ..self
            },
            Place::Transferred => PlaceSums {
                transferred: sum,
                ..self
            },
        }
    }

    /// These, with an amount more at a place. `None`: the sum is out of range.
    fn posted(self, place: &Place, by: Tally) -> Option<PlaceSums>
        ensures { (sums : Sums) (w : ℕ) → AreSumsOf self (sums w)
            → IfSome result (λ after. AreSumsOf after (posting w place.now by sums w)) }
    {
        let Some(sum) = self.at(place) else {
            return Some(self);
        };
        match sum.plus(by) {
            Some(sum) => Some(self.with(place, sum)),
            None => None,
        }
    }
}

/// The sums of a waybill at the places that aren't built.
#[derive(Clone, Copy)]
pub(crate) struct CountSums {
    pub(crate) awb: Awb,
    pub(crate) sums: PlaceSums,
}

/// The sums of waybills on a flight, by the waybill's number.
#[derive(Drop)]
pub(crate) struct LoadSums {
    pub(crate) flight: FlightDate,
    pub(crate) sums: BTreeMap<u64, Tally>,
}

impl LoadSums {
    /// Starts without sums.
    pub(crate) fn new(alloc: Global, flight: &FlightDate) -> LoadSums
        ensures known { (sums : Sums) → AreSumsOn result sums }
        ensures flight { result.flight ≡ flight.now }
    {
        LoadSums {
            flight: *flight,
            sums: BTreeMap::new(alloc),
        }
    }

    /// Returns the sum of a waybill at a place, if it is known.
    fn at(&self, awb: &Awb, place: &Place) -> Option<Tally>
        ensures { result ≡ sum_on self.now awb.now place.now }
    {
        if Place::Built(self.flight).is_same(place) {
            self.sums.get(&awb.key()).copied()
        } else {
            None
        }
    }

    /// Returns these sums with that of a waybill, or `None` if memory ran out.
    pub(crate) fn with(self, awb: &Awb, sum: Tally) -> Option<LoadSums>
        ensures { IfSome result (λ more. (more.flight ≡ self.flight)
            × Updates nat_cmp self.sums more.sums awb.now (Some sum)) }
    {
        let LoadSums { flight, mut sums } = self;
        match sums.insert(awb.key(), sum) {
            Ok(_) => Some(LoadSums { flight, sums }),
            Err(_) => None,
        }
    }

    /// Returns these sums with an amount more at a place, or `None` if the sum is out of range or
    /// memory ran out.
    fn posted(self, awb: &Awb, place: &Place, by: Tally) -> Option<LoadSums>
        ensures { (sums : Sums) → AreSumsOn self sums
            → IfSome result (λ after. AreSumsOn after (posting awb.now place.now by sums)) }
    {
        let Some(sum) = self.at(awb, place) else {
            return Some(self);
        };
        match sum.plus(by) {
            Some(sum) => self.with(awb, sum),
            None => None,
        }
    }
}

/// The sums that were read last: of a waybill at all places but the built ones, and of waybills on
/// one flight. What is written after them is told, so that it needn't be read again.
#[derive(Drop)]
pub struct KnownSums {
    pub(crate) counts: Option<CountSums>,
    pub(crate) builds: Option<LoadSums>,
}

/// The sums of places after an amount more of a waybill at one, as far as they are known.
fn counts_after(counts: Option<CountSums>, awb: &Awb, place: &Place, by: Tally) -> Option<CountSums>
    ensures { (sums : Sums) → IfSome counts (λ c. AreSumsOf c.sums (sums c.awb))
        → IfSome result (λ c. AreSumsOf c.sums
        (posting awb.now place.now by sums c.awb)) }
{
    let kept = counts?;
    if kept.awb != *awb {
        return Some(kept);
    }
    Some(CountSums {
        awb: kept.awb,
        sums: kept.sums.posted(place, by)?,
    })
}

/// Returns the sums on a flight after an amount more of a waybill at a place, if they are known.
fn builds_after(builds: Option<LoadSums>, awb: &Awb, place: &Place, by: Tally) -> Option<LoadSums>
    ensures { (sums : Sums) → IfSome builds (λ b. AreSumsOn b sums)
        → IfSome result (λ b. AreSumsOn b (posting awb.now place.now by sums)) }
{
    builds?.posted(awb, place, by)
}

impl KnownSums {
    /// Nothing is known yet.
    pub fn none() -> KnownSums
        ensures { (sums : Sums) → AreKnown result sums }
    {
        KnownSums {
            counts: None,
            builds: None,
        }
    }

    /// The sum of a waybill at a place that isn't built, if it is known.
    fn count_at(&self, awb: &Awb, place: &Place) -> Option<Tally>
        ensures { (sums : Sums) → AreKnown self.now sums
            → IfSome result (λ sum. sum ≡ sums awb.now place.now) }
    {
        match self.counts {
            Some(kept) if kept.awb == *awb => kept.sums.at(place),
            _ => None,
        }
    }

    /// The sum of a waybill on a flight, if it is known.
    fn build_at(&self, awb: &Awb, place: &Place) -> Option<Tally>
        ensures { (sums : Sums) → AreKnown self.now sums
            → IfSome result (λ sum. sum ≡ sums awb.now place.now) }
    {
        self.builds.as_ref()?.at(awb, place)
    }

    /// The sum of a waybill at a place, if it is known.
    pub(crate) fn at(&self, awb: &Awb, place: &Place) -> Option<Tally>
        ensures { (sums : Sums) → AreKnown self.now sums
            → IfSome result (λ sum. sum ≡ sums awb.now place.now) }
    {
        match place {
            Place::Built(_) => self.build_at(awb, place),
            _ => self.count_at(awb, place),
        }
    }

    /// Adds an amount of a waybill at a place.
    pub(crate) fn post(&mut self, awb: &Awb, place: &Place, by: Tally)
        ensures { (sums : Sums) → AreKnown self.old sums
            → AreKnown self.new (posting awb.now place.now by sums) }
    {
        self.counts = counts_after(self.counts, awb, place, by);
        self.builds = builds_after(self.builds.take(), awb, place, by);
    }
}
