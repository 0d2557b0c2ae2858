//! Stations for which memory runs out: that changes nothing, and a repeated input acts. A station
//! over tables may have to be opened again.
use crate::desk::{Kind, ask_new};
use crate::waybill::{all_done, at, book_told, booking, pieces_taken, receipt, trail_told};
use station_core::{ActFault, Answer, Input, Keeper, answer_one};
use station_days::Moment;
use station_tables::AttachFault;
use std::alloc::Global;
use telegrams::read_telegram;
use test_kit::{Job, is_done, say};

#[derive(Clone, Copy)]
enum Outcome {
    /// It was accepted, perhaps in a second attempt.
    Accepted,
    /// The station must be opened again.
    Broken,
    Wrong,
}

fn give<K: Keeper>(station: &mut K, input: &Input<'_>, at: Moment) -> Outcome {
    let before = pieces_taken(station);
    match answer_one(station, input, at) {
        Ok(Answer::Done(_)) => Outcome::Accepted,
        Err(ActFault::Memory) => {
            if pieces_taken(station) == before && is_done(station, input, at) {
                Outcome::Accepted
            } else {
                Outcome::Wrong
            }
        }
        Err(ActFault::Store) => match answer_one(station, input, at) {
            Err(ActFault::Reopen) => Outcome::Broken,
            _ => Outcome::Wrong,
        },
        _ => Outcome::Wrong,
    }
}

/// Returns whether a station hands out its one move, perhaps in a second attempt after `most` rows.
fn is_book_told<K: Keeper>(station: &mut K, most: u64) -> bool {
    match book_told(station) {
        (rows, true) => rows == 1,
        (rows, false) => rows <= most && matches!(book_told(station), (1, true)),
    }
}

/// Returns whether this many pieces are received, perhaps in a second attempt.
fn has_taken<K: Keeper>(station: &mut K, pieces: u32) -> bool {
    pieces_taken(station) == Some(pieces) || pieces_taken(station) == Some(pieces)
}

fn is_cargo_told<K: Keeper>(station: &mut K) -> Option<bool> {
    let booked = give(station, &booking()?, at(10, 0)?);
    let received = give(station, &receipt()?, at(10, 30)?);
    Some(
        matches!(booked, Outcome::Accepted)
            && matches!(received, Outcome::Accepted)
            && is_book_told(station, 0),
    )
}

/// Returns whether a station has the pieces after each input and hands out its one move, or may
/// break.
fn is_told_in_turn<K: Keeper>(station: &mut K, may_break: bool) -> Option<bool> {
    let steps = [
        (booking()?, at(10, 0)?, 0),
        (receipt()?, at(10, 30)?, 10),
        (receipt()?, at(11, 0)?, 10),
    ];
    for (input, at, pieces) in &steps {
        match give(station, input, *at) {
            Outcome::Accepted => {}
            Outcome::Broken => return Some(may_break),
            Outcome::Wrong => return Some(false),
        }
        if !has_taken(station, *pieces) {
            return Some(false);
        }
    }
    Some(is_book_told(station, 1))
}

const UPDATE: &[u8] =
    b"FSU/12\r\n020-12345675FRAJFK/T10K100.0\r\nRCS/12JAN1030/FRA/T10\r\nMAN/LH400/12JAN/FRAJFK/T10\r\n";

/// Returns the outcome of reading a trail of two rows.
fn two_rows_told<K: Keeper>(alloc: Global, station: &mut K) -> Option<String> {
    let update = Input::Wire(read_telegram(alloc, UPDATE).ok()?);
    all_done(station, &[(booking()?, at(10, 0)?), (update, at(10, 30)?)])?;
    let (rows, is_given) = trail_told(station);
    if is_given && rows == 2 {
        return say(alloc, "told");
    }
    if is_given || !matches!(trail_told(station), (2, true)) {
        return say(alloc, "not told");
    }
    format!(in alloc; "told {rows}, then a fault, then told").ok()
}

#[derive(Clone, Copy)]
pub enum Trial {
    /// A booking and a receipt.
    Cargo,
    /// A booking, a receipt, and the receipt again.
    InTurn { may_break: bool },
}

impl Job for Trial {
    type Out = Option<bool>;

    fn run<K: Keeper>(self, keeper: &mut K) -> Option<bool> {
        match self {
            Trial::Cargo => is_cargo_told(keeper),
            Trial::InTurn { may_break } => is_told_in_turn(keeper, may_break),
        }
    }
}

/// Returns the outcome of a trial on a new station. Without a station, the fault has to be that of
/// memory.
pub fn is_told(alloc: Global, kind: Kind, trial: Trial) -> bool {
    match ask_new(alloc, kind, trial) {
        Ok(is_told) => is_told == Some(true),
        Err(fault) => matches!(fault, AttachFault::Memory | AttachFault::Store),
    }
}

#[derive(Drop)]
struct TwoRows {
    alloc: Global,
}

impl Job for TwoRows {
    type Out = Option<String>;

    fn run<K: Keeper>(self, keeper: &mut K) -> Option<String> {
        two_rows_told(self.alloc, keeper)
    }
}

/// Returns the outcome of a trail of two rows over tables, in a second attempt if memory ran out
/// before it.
pub fn trail_at_last(alloc: Global) -> Option<String> {
    match ask_new(alloc, Kind::Tables, TwoRows { alloc }) {
        Ok(Some(told)) => Some(told),
        _ => ask_new(alloc, Kind::Tables, TwoRows { alloc }).ok()?,
    }
}
