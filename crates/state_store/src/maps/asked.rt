//! Queries of the book, the outbox and the trail.
ghost use Rattle.std.specs.Prelude.{◌≡◌, ◌+◌, ◌≤◌, ◌++◌, ◌∷◌, [], drop, length, IfOk, OnOk};
ghost use Rattle.state_store.specs.Common.{book_row, is_of_flight, message, movements_for, numbered, trail_row, texts_in};
ghost use Rattle.station_core.specs.Readers.{lines_for};
ghost use Rattle.state_store.specs.Asked.{first_line, first_movement, if_line, if_movement, is_line_of, is_movement_of};
ghost use Rattle.state_store.specs.Store.{trail_in, trail_line};

use crate::StoreFault;
use crate::maps::state::TrailEntry;
use shipment_machine::{FlightDate, Move, Place};
use station_core::{BookQuery, BookRow, Message, RowText, TrailQuery, TrailRow};
use std::alloc::Global;

/// Returns whether a movement is one of a flight: to or from its built place, or with its name.
fn is_of_flight(movement: &Move, flight: &FlightDate) -> bool
    ensures { result ≡ is_of_flight flight.now movement.now }
{
    let built = Place::Built(*flight);
    built.is_same(&movement.from)
        || built.is_same(&movement.to)
        || match &movement.flight {
            Some(named) => flight.is_same(named),
            None => false,
        }
}

fn first_movement(query: &BookQuery, len: usize) -> usize
    ensures value { result ≡ first_movement query.now len }
    ensures within { result ≤ len }
{
    match query {
        BookQuery::All | BookQuery::Of(_) | BookQuery::On(_) => 0,
        BookQuery::After(number) => (*number as usize).min(len),
        BookQuery::Last(most) => len.saturating_sub(*most as usize),
    }
}

/// Returns whether a movement is of the queried waybill or flight, if there is one.
fn is_movement_of(query: &BookQuery, movement: &Move) -> bool
    ensures { result ≡ is_movement_of query.now movement.now }
{
    match query {
        BookQuery::All | BookQuery::After(_) | BookQuery::Last(_) => true,
        BookQuery::Of(awb) => movement.awb == *awb,
        BookQuery::On(flight) => is_of_flight(movement, flight),
    }
}

fn put_movement(
    rows: &mut Vec<BookRow>,
    query: &BookQuery,
    number: u32,
    movement: Move,
) -> Result<(), StoreFault>
    ensures { OnOk result (rows.new.items
        ≡ rows.old.items ++ if_movement query.now (book_row number movement)) }
{
    let (_place, _flight) = (movement.to, movement.flight);
    if is_movement_of(query, &movement) {
        rows.push(BookRow { number, movement })?;
    }
    Ok(())
}

pub(crate) fn movements(
    alloc: Global,
    moves: &[Move],
    query: &BookQuery,
) -> Result<Vec<BookRow>, StoreFault>
    ensures { IfOk result (λ rows. rows.items
        ≡ movements_for query.now (numbered book_row 1 moves.now)) }
{
    let mut rows = Vec::new(alloc);
    for at in first_movement(query, moves.len())..moves.len() {
        let Ok(number) = u32::try_from(at + 1) else {
            return Err(StoreFault);
        };
        put_movement(&mut rows, query, number, moves[at])?;
    }
    Ok(rows)
}

fn put_message(
    alloc: Global,
    rows: &mut Vec<Message>,
    number: u32,
    text: &[u8],
) -> Result<(), StoreFault>
    ensures { OnOk result (rows.new.items ≡ rows.old.items ++ message number text.now ∷ []) }
{
    let text = RowText::new(Vec::from_slice(alloc, text)?);
    rows.push(Message { number, text })?;
    Ok(())
}

/// Returns the messages with a greater number.
pub(crate) fn messages(
    alloc: Global,
    outbox: &[Vec<u8>],
    after: u32,
) -> Result<Vec<Message>, StoreFault>
    ensures { IfOk result (λ rows. rows.items
        ≡ numbered message (after + 1) (drop after (texts_in outbox.now))) }
{
    let mut rows = Vec::new(alloc);
    for at in (after as usize).min(outbox.len())..outbox.len() {
        let Ok(number) = u32::try_from(at + 1) else {
            return Err(StoreFault);
        };
        put_message(alloc, &mut rows, number, &outbox[at])?;
    }
    Ok(rows)
}

/// Returns the number of lines to skip.
fn first_line(query: &TrailQuery, len: usize) -> usize
    ensures value { result ≡ first_line query.now len }
    ensures within { result ≤ len }
{
    match query {
        TrailQuery::All | TrailQuery::Of(_) => 0,
        TrailQuery::After(number) => (*number as usize).min(len),
        TrailQuery::Last(most) => len.saturating_sub(*most as usize),
    }
}

/// Returns whether a line is of the queried waybill, if there is one.
fn is_line_of(query: &TrailQuery, entry: &TrailEntry) -> bool
    ensures { result ≡ is_line_of query.now (trail_line entry.now) }
{
    match query {
        TrailQuery::All | TrailQuery::After(_) | TrailQuery::Last(_) => true,
        TrailQuery::Of(awb) => entry.awb == *awb,
    }
}

fn put_line(
    alloc: Global,
    rows: &mut Vec<TrailRow>,
    query: &TrailQuery,
    number: u32,
    entry: &TrailEntry,
) -> Result<(), StoreFault>
    ensures { OnOk result (rows.new.items
        ≡ rows.old.items ++ if_line query.now (trail_row number (trail_line entry.now))) }
{
    if is_line_of(query, entry) {
        let line = RowText::new(Vec::from_slice(alloc, &entry.line)?);
        rows.push(TrailRow {
            number,
            awb: entry.awb,
            line,
        })?;
    }
    Ok(())
}

pub(crate) fn lines(
    alloc: Global,
    trail: &[TrailEntry],
    query: &TrailQuery,
) -> Result<Vec<TrailRow>, StoreFault>
    ensures { IfOk result (λ rows. rows.items
        ≡ lines_for query.now (numbered trail_row 1 (trail_in trail.now))) }
{
    let mut rows = Vec::new(alloc);
    for at in first_line(query, trail.len())..trail.len() {
        let Ok(number) = u32::try_from(at + 1) else {
            return Err(StoreFault);
        };
        put_line(alloc, &mut rows, query, number, &trail[at])?;
    }
    Ok(rows)
}
