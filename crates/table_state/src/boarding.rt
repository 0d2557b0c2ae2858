//! The number of waybills on a flight, and how a move changes it.
ghost use Rattle.std.specs.Prelude.{◌≡◌, ◌∷◌, [], ◌++◌, length, List, Some, IfSome};
ghost use Rattle.table_state.specs.Common.{same_place, waybills_on, Built, WereThere};
ghost use Rattle.shipment_machine.specs.declared.moves.Move as cargo;
ghost use Rattle.table_state.specs.Shown.{IsBoarded, AreBoarded, joins};

use crate::counted::{Boarded, Boardings, MOST_FLIGHTS};
use shipment_machine::{FlightDate, Move, Place};

/// Returns whether a place is on a flight.
fn is_on(flight: &FlightDate, place: &Place) -> bool
    ensures { result ≡ same_place (Built flight.now) place.now }
{
    match place {
        Place::Built(on) => flight.is_same(on),
        _ => false,
    }
}

/// The number that is kept, if it is of this flight.
#[tactic(auto, using(crate::proofs::OneMore::of_same))]
fn number_of(boarded: Option<Boarded>, flight: &FlightDate) -> Option<usize>
    ensures { IfSome result (λ number. (book : List cargo.Move) → IsBoarded boarded book
        → number ≡ length (waybills_on book flight.now)) }
{
    match boarded {
        Some(kept) if kept.flight.is_same(flight) => Some(kept.waybills),
        _ => None,
    }
}

/// Returns whether a move brings the first pieces of its waybill to where so many were before.
fn joins(movement: &Move, were: i64) -> bool
    ensures { result ≡ joins were movement.now.pieces }
{
    were <= 0 && -i64::from(movement.pieces.number()) < were
}

/// Returns the kept number after a move, if so many pieces of its waybill were at its destination
/// before. Nothing is kept of a flight that it leaves.
fn after_move(boarded: Option<Boarded>, movement: &Move, were: i64) -> Option<Boarded>
    ensures { (book : List cargo.Move) → IsBoarded boarded book → WereThere book movement.now were
        → IsBoarded result (book ++ movement.now ∷ []) }
{
    let kept = boarded?;
    if is_on(&kept.flight, &movement.from) {
        return None;
    }
    if is_on(&kept.flight, &movement.to) && joins(movement, were) {
        let waybills = kept.waybills.checked_add(1)?;
        return Some(Boarded { waybills, ..kept });
    }
    Some(kept)
}

impl Boardings {
    /// Nothing is known of a flight.
    pub(crate) fn none() -> Boardings
        ensures { (book : List cargo.Move) → AreBoarded result book }
    {
        Boardings {
            flights: [None; MOST_FLIGHTS],
            next: 0,
        }
    }

    /// The number that is kept of a flight.
    pub(crate) fn number_on(&self, flight: &FlightDate) -> Option<usize>
        ensures { IfSome result (λ number. (book : List cargo.Move) → AreBoarded self.now book
            → number ≡ length (waybills_on book flight.now)) }
    {
        for kept in self.flights.iter() {
            if let Some(number) = number_of(*kept, flight) {
                return Some(number);
            }
        }
        None
    }

    /// Keeps the number of a further flight.
    pub(crate) fn keep(&mut self, boarded: Boarded)
        ensures { (book : List cargo.Move) → AreBoarded self.old book
            → IsBoarded (Some boarded) book → AreBoarded self.new book }
    {
        let place = self.next % self.flights.len();
        self.flights[place] = Some(boarded);
        self.next = place + 1;
    }

    /// The numbers after a move, where so many pieces of its waybill were before at the place that
    /// it comes to.
    pub(crate) fn post(&mut self, movement: &Move, were: i64)
        ensures { (book : List cargo.Move) → AreBoarded self.old book
            → WereThere book movement.now were
            → AreBoarded self.new (book ++ movement.now ∷ []) }
    {
        for kept in self.flights.iter_mut() {
            *kept = after_move(*kept, movement, were);
        }
    }
}
