//! Writing rows.
ghost use Rattle.std.specs.Prelude.{◌∷◌, [], OnOk};
ghost use Rattle.state_store.specs.Common.{written, Confirm, Declare, Expect, NoteFlight, NotePart, Trail, UseUp, State, on_cargo, with_messages, with_moves};
ghost use Rattle.state_store.specs.Store.{Shows};

use crate::maps::state::{AirportKey, MapState, TrailEntry};
use crate::{FlightKey, StoreFault};
use agent_stock::{Holder, Run};
use awb_number::Awb;
use shipment_machine::{Declared, Expected, FlightDate, Move, Outbound, Part, TrailLine};

impl MapState {
    pub(crate) fn put_move(&mut self, movement: &Move) -> Result<(), StoreFault>
        ensures { (s : State) → Shows self.old s
            → OnOk result (Shows self.new (with_moves (movement.now ∷ []) s)) }
    {
        if self.book.moves.len() >= u32::MAX as usize {
            return Err(StoreFault);
        }
        self.book.add(movement)
    }

    pub(crate) fn declare(&mut self, awb: &Awb, declared: Declared) -> Result<(), StoreFault>
        ensures { (s : State) → Shows self.old s
            → OnOk result (Shows self.new (on_cargo (written [] (Declare awb.now declared)) s)) }
    {
        let _day = declared.since;
        self.declared.insert(awb.key(), declared)?;
        Ok(())
    }

    pub(crate) fn use_up(&mut self, awb: &Awb) -> Result<(), StoreFault>
        ensures { (s : State) → Shows self.old s
            → OnOk result (Shows self.new (on_cargo (written [] (UseUp awb.now)) s)) }
    {
        self.stock.assign(&Run::of_one(*awb), &Holder::Used)?;
        Ok(())
    }

    pub(crate) fn note_flight(
        &mut self,
        flight: &FlightDate,
        outbound: Outbound,
    ) -> Result<(), StoreFault>
        ensures { (s : State) → Shows self.old s → OnOk result (Shows self.new
            (on_cargo (written [] (NoteFlight flight.now outbound)) s)) }
    {
        self.flights.insert(FlightKey::of(flight), outbound)?;
        Ok(())
    }

    pub(crate) fn expect(
        &mut self,
        flight: &FlightDate,
        awb: &Awb,
        expected: Expected,
    ) -> Result<(), StoreFault>
        ensures { (s : State) → Shows self.old s → OnOk result (Shows self.new
            (on_cargo (written [] (Expect flight.now awb.now expected)) s)) }
    {
        self.expected.put(flight, awb, &expected)?;
        Ok(())
    }

    /// Notes that the telegram with this text is this part.
    pub(crate) fn note_part(&mut self, part: &Part, text: &[u8]) -> Result<(), StoreFault>
        ensures { (s : State) → Shows self.old s → OnOk result (Shows self.new
            (on_cargo (written text.now (NotePart part.now)) s)) }
    {
        let text = Vec::from_slice(self.alloc, text)?;
        let flight = FlightKey::of(&part.flight);
        let letters = part.airport.letters();
        let key = (flight, AirportKey { letters }, part.number.number());
        self.parts.insert(key, text)?;
        Ok(())
    }

    pub(crate) fn add_line(&mut self, awb: &Awb, line: &TrailLine<'_>) -> Result<(), StoreFault>
        ensures { (s : State) → Shows self.old s → OnOk result (Shows self.new
            (on_cargo (written [] (Trail awb.now line.now)) s)) }
    {
        if self.trail.len() >= u32::MAX as usize {
            return Err(StoreFault);
        }
        let line = Vec::from_slice(self.alloc, line.as_bytes())?;
        self.trail.push(TrailEntry { awb: *awb, line })?;
        Ok(())
    }

    pub(crate) fn put_message(&mut self, text: &[u8]) -> Result<(), StoreFault>
        ensures { (s : State) → Shows self.old s
            → OnOk result (Shows self.new (with_messages (text.now ∷ []) s)) }
    {
        if self.outbox.len() >= u32::MAX as usize {
            return Err(StoreFault);
        }
        let text = Vec::from_slice(self.alloc, text)?;
        self.outbox.push(text)?;
        Ok(())
    }

    pub(crate) fn confirm(&mut self, upto: u32)
        ensures { (s : State) → Shows self.old s
            → Shows self.new (on_cargo (written [] (Confirm upto)) s) }
    {
        self.confirmed = upto;
    }
}
