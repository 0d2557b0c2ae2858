//! The inputs of a waybill's day at FRA, and a station's rows about it.
use awb_number::Awb;
use station_core::{Input, Keeper};
use station_days::Moment;
use std::alloc::Global;
use test_kit::{RowCount, is_done, keyed};

pub fn at(hour: u16, minute: u16) -> Option<Moment> {
    Moment::new(20465, (hour % 24) * 60 + minute % 60)
}

pub fn booking<'a>() -> Option<Input<'a>> {
    keyed("b1", "book\n020-12345675\nFRA\nJFK\n10\n1000\nCARGO")
}

pub fn receipt<'a>() -> Option<Input<'a>> {
    keyed("r1", "receive\n020-12345675\n10\n1000\nACME")
}

/// Returns booking, receipt, a manifest of four pieces, and the departure of their flight.
pub fn day<'a>(alloc: Global) -> Option<Vec<(Input<'a>, Moment)>> {
    let manifest = keyed("m1", "manifest\n020-12345675\nLH400\n2026-01-12\nJFK\n4")?;
    let departure = keyed("d1", "depart\nLH400\n2026-01-12")?;
    let mut inputs = Vec::new(alloc);
    inputs.push((booking()?, at(10, 0)?)).ok()?;
    inputs.push((receipt()?, at(10, 30)?)).ok()?;
    inputs.push((manifest, at(12, 0)?)).ok()?;
    inputs.push((departure, at(12, 0)?)).ok()?;
    Some(inputs)
}

/// Passes inputs to a station. Returns `None` if it doesn't accept one.
pub fn all_done<K: Keeper>(station: &mut K, inputs: &[(Input<'_>, Moment)]) -> Option<()> {
    for (input, at) in inputs {
        if !is_done(station, input, *at) {
            return None;
        }
    }
    Some(())
}

pub fn pieces_taken<K: Keeper>(station: &mut K) -> Option<u32> {
    let number = Awb::read(b"020-12345675").ok()?;
    match station.waybill(&number) {
        Ok(Some(waybill)) => Some(waybill.taken.pieces),
        _ => None,
    }
}

/// Returns the number of rows that the book hands out, and whether these are all.
pub fn book_told<K: Keeper>(station: &mut K) -> (u64, bool) {
    let mut sink = RowCount { rows: 0 };
    let is_given = station.book(&mut sink).is_ok();
    (sink.rows, is_given)
}

pub fn trail_told<K: Keeper>(station: &mut K) -> (u64, bool) {
    let mut sink = RowCount { rows: 0 };
    let is_given = station.trail(&mut sink).is_ok();
    (sink.rows, is_given)
}
