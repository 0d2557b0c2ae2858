use crate::maps::book::MovementBook;
use crate::maps::stock::MapStock;
use crate::{ExpectedLines, FlightKey};
use awb_number::Awb;
use imp_fields::Airport;
use shipment_machine::{Declared, Outbound};
use std::alloc::Global;
use std::collections::{BTreeMap, HashMap};

/// An airport, ordered by its letters.
#[derive(Clone, Copy, PartialEq, Eq, PartialOrd, Ord)]
pub(crate) struct AirportKey {
    pub(crate) letters: [u8; 3],
}

#[derive(Clone, Drop)]
pub(crate) struct TrailEntry {
    pub(crate) awb: Awb,
    pub(crate) line: Vec<u8>,
}

/// The state of a station in memory: maps for what commands read, and sums next to the book.
///
/// Its only fault is that memory runs out. After a fault there is no guarantee about what it shows.
#[derive(Clone, Drop)]
pub struct MapState {
    pub(crate) alloc: Global,
    pub(crate) here: Airport,
    pub(crate) stock: MapStock,
    pub(crate) declared: BTreeMap<u64, Declared>,
    pub(crate) book: MovementBook,
    pub(crate) flights: BTreeMap<FlightKey, Outbound>,
    pub(crate) expected: ExpectedLines,
    pub(crate) parts: BTreeMap<(FlightKey, AirportKey, u32), Vec<u8>>,
    // In the order in which they were added, like the outbox.
    pub(crate) trail: Vec<TrailEntry>,
    pub(crate) outbox: Vec<Vec<u8>>,
    pub(crate) confirmed: u32,
    // The command accepted under each key, and the count of its reply.
    pub(crate) kept_keys: HashMap<Vec<u8>, (String, u32)>,
    pub(crate) kept_texts: HashMap<Vec<u8>, u32>,
}
