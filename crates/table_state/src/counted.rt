//! Counts of the state that is shown.
ghost use Rattle.std.specs.Prelude.{◌≤◌};
ghost use Rattle.table_state.specs.Common.{most_rows};

use crate::flight_spans::FlightSpans;
use crate::open_lines::OpenLines;
use crate::status_spans::StatusSpans;
use crate::waybill_sets::WaybillSets;
use row_codec::KnownSums;
use shipment_machine::FlightDate;
use station_core::Sizes;

/// The number of waybills that are built on a flight.
#[derive(Clone, Copy)]
pub(crate) struct Boarded {
    pub(crate) flight: FlightDate,
    pub(crate) waybills: usize,
}

/// Of how many flights the number of waybills is kept: as many as are built up at one time.
pub(crate) const MOST_FLIGHTS: usize = 32;

/// The numbers of waybills on the flights that were asked for last.
#[derive(Clone, Copy)]
pub(crate) struct Boardings {
    pub(crate) flights: [Option<Boarded>; MOST_FLIGHTS],
    // Where the next flight goes, in the place of the one that was asked for longest ago.
    pub(crate) next: usize,
}

/// The spans in which the moves of flights and the status messages of waybills lie.
#[derive(Drop)]
pub(crate) struct KnownSpans {
    pub(crate) flights: FlightSpans,
    pub(crate) statuses: StatusSpans,
}

/// The numbers of numbered rows, which are always known; and as far as they are known: the numbers
/// of waybills on flights, the listed waybills, the open lines of flights, the spans of flights in
/// the book and of waybills in the outbox, and sums.
#[derive(Drop)]
pub(crate) struct KnownCounts {
    pub(crate) sizes: Sizes,
    pub(crate) boarded: Boardings,
    pub(crate) known: KnownSums,
    pub(crate) waybills: WaybillSets,
    pub(crate) open_lines: OpenLines,
    pub(crate) spans: KnownSpans,
    ghost fit: { (sizes.moves ≤ most_rows) × (sizes.lines ≤ most_rows)
        × (sizes.messages ≤ most_rows) },
}
