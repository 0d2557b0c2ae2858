//! Rows that the readers of a station hand out to a sink that may stop, as text.
use station_core::{BookRow, Keeper, Message, TrailRow};
use std::alloc::Global;
use test_kit::{RowCount, Taken, shown};

/// Returns the number of moves that a sink of this size takes, and for each its number, its
/// waybill, its pieces and their weight.
pub fn book<K: Keeper>(alloc: Global, station: &mut K, most: usize) -> Option<String> {
    let mut sink: Taken<BookRow> = Taken::new(alloc, most);
    station.book(&mut sink).ok()?;
    let mut said = format!(in alloc; "{}", sink.rows.len()).ok()?;
    for row in &sink.rows {
        let moved = &row.movement;
        let (pieces, tenths) = (moved.pieces.number(), moved.tenths.number());
        let text = format!(in alloc; "; {} {} {pieces} at {tenths}", row.number, moved.awb).ok()?;
        said.push_str(text.as_str()).ok()?;
    }
    Some(said)
}

/// Returns the number of unconfirmed messages that a sink of this size takes, and for each its
/// number and its text.
pub fn pending<K: Keeper>(alloc: Global, station: &mut K, most: usize) -> Option<String> {
    let mut sink: Taken<Message> = Taken::new(alloc, most);
    station.pending(&mut sink).ok()?;
    let mut said = format!(in alloc; "{}", sink.rows.len()).ok()?;
    for message in &sink.rows {
        let body = shown(message.text.as_bytes());
        let text = format!(in alloc; "; {} {body}", message.number).ok()?;
        said.push_str(text.as_str()).ok()?;
    }
    Some(said)
}

/// Returns the number of trail lines that a sink of this size takes, and each with its waybill.
pub fn trail<K: Keeper>(alloc: Global, station: &mut K, most: usize) -> Option<String> {
    let mut sink: Taken<TrailRow> = Taken::new(alloc, most);
    station.trail(&mut sink).ok()?;
    let mut said = format!(in alloc; "{}", sink.rows.len()).ok()?;
    for row in &sink.rows {
        let line = shown(row.line.as_bytes());
        let text = format!(in alloc; "; {} {line}", row.awb).ok()?;
        said.push_str(text.as_str()).ok()?;
    }
    Some(said)
}

/// Returns the number of rows that the readers of cargo hand out in all.
pub fn cargo_rows<K: Keeper>(alloc: Global, station: &mut K) -> Option<String> {
    let mut seen = RowCount { rows: 0 };
    station.irregular(&mut seen).ok()?;
    station.book(&mut seen).ok()?;
    station.pending(&mut seen).ok()?;
    station.trail(&mut seen).ok()?;
    format!(in alloc; "{}", seen.rows).ok()
}
