ghost use Rattle.std.specs.Prelude.{◌≡◌, ◌≤◌, take};
ghost use Rattle.std.proofs.Props.{props};
ghost use Rattle.state_store.specs.Common.{IsDesignator, flight_text};

use shipment_machine::FlightDate;

/// A flight on a day, ordered as readers do: by its written form, then by day.
#[derive(Clone, Copy)]
pub struct FlightKey {
    /// The flight, and its day.
    pub flight: FlightDate,
    // The written form and its length.
    bytes: [u8; 7],
    len: usize,
    ghost is_flight: { IsDesignator flight.flight } by { Prim.hlevel props },
    ghost is_text: { take len bytes ≡ flight_text flight.flight } by { Prim.hlevel props },
    ghost within: { len ≤ 7 } by { Prim.hlevel props },
}

impl FlightKey {
    /// Returns the key of a flight.
    pub fn of(flight: &FlightDate) -> FlightKey
        ensures { result.flight ≡ flight.now }
    {
        let mut bytes = [0; 7];
        let len = flight.flight.write(&mut bytes);
        FlightKey {
            flight: *flight,
            bytes,
            len,
        }
    }

    pub(crate) fn text(&self) -> &[u8]
        ensures { result.now ≡ flight_text self.now.flight.flight }
    {
        &self.bytes[..self.len]
    }
}
