//! Queries of tables for queries of a station.

ghost use Rattle.std.specs.Prelude.{◌≡◌, ◌≤◌, ◌∷◌, ◌++◌, [], pos, length, List, map, filter, IfOk, OnOk, ℕ, is_some, IsTrue, IfSome};
ghost use Rattle.row_codec.specs.Common.{FinMap, entries, prefix_len, int_eq, balances_of, AreAllBalances, Count, count_cmp, count_meant, counts_for, Reads, kept_meant, is_key, kept_of};
ghost use Rattle.row_codec.specs.Stored.{AreCounts, AsksMoves, AsksLines, kept_by, is_kept_row};

use crate::columns::{awb_by, count_of};
use crate::counting::balances_by;
use crate::flights::{awb_key, day_number, flight_text};
use shipment_machine::Move;
use station_core::{BookQuery, KeptReply, TrailQuery, WaybillBalances};
use station_rows::{AllCounts, CountRow, KeptRow, LineQuery, MoveQuery, StoreFault, TableStore};
use std::alloc::Global;

/// Returns the number of rows in front that are a waybill's.
fn rows_in_front(rows: &[CountRow], awb: i64) -> usize
    ensures count { result ≡ prefix_len (λ row. int_eq row.awb awb) rows.now }
    ensures within { result ≤ length rows.now }
{
    rows.iter().take_while(|row| row.awb == awb).count()
}

/// A waybill and its balances, by its rows.
fn waybill_by(awb: i64, rows: &[CountRow]) -> Result<WaybillBalances, StoreFault>
    ensures awb { IfOk result (λ one. awb ≡ pos one.awb) }
    ensures value { (counts : FinMap count_cmp Count) (book : List Move)
        → map count_meant rows.now ≡ filter (counts_for awb) (entries counts)
        → AreCounts counts book
        → IfOk result (λ one. one.balances ≡ balances_of book one.awb) }
{
    let Some(awb) = awb_by(awb) else {
        return Err(StoreFault);
    };
    let balances = balances_by(rows)?;
    Ok(WaybillBalances { awb, balances })
}

/// Lists a waybill.
fn add(all: &mut Vec<WaybillBalances>, one: WaybillBalances) -> Result<(), StoreFault>
    ensures { OnOk result (all.new.items ≡ all.old.items ++ one ∷ []) }
{
    match all.push(one) {
        Ok(()) => Ok(()),
        Err(_) => Err(StoreFault),
    }
}

/// The balances of each waybill that has rows, by all rows in the order of their key.
fn waybills_by(alloc: Global, rows: &[CountRow]) -> Result<Vec<WaybillBalances>, StoreFault>
    ensures { (counts : FinMap count_cmp Count) (book : List Move)
        → map count_meant rows.now ≡ entries counts
        → AreCounts counts book
        → IfOk result (λ all. AreAllBalances book all.items) }
{
    let mut all = Vec::new(alloc);
    let mut start = 0;
    while start < rows.len() {
        let rest = &rows[start..];
        let awb = rows[start].awb;
        let count = rows_in_front(rest, awb);
        let one = waybill_by(awb, &rest[..count])?;
        add(&mut all, one)?;
        start += count;
    }
    Ok(all)
}

/// Lists the sum of each waybill's moves, by waybill, inside a transaction or outside. A waybill
/// without a row isn't listed: it has nothing at any place but on flights. A fault: the database
/// call failed, memory ran out, or a row is out of range. A fault outside changes nothing while the
/// store is open.
pub fn all_balances<S: TableStore>(
    alloc: Global,
    store: &mut S,
) -> Result<Vec<WaybillBalances>, StoreFault>
    ensures { Reads (S.view store.old) (S.view store.new) result
        (λ tables rows. (book : List Move) → AreCounts tables.counts book
        → AreAllBalances book rows.items) }
{
    let rows = store.read(AllCounts)?;
    Ok(waybills_by(alloc, &rows)?)
}

/// Returns the query of `moves` for a query of the book with `count` moves. It fails if memory runs
/// out.
#[tactic(auto, using(crate::proofs::Asking::asks_all, crate::proofs::Asking::asks_after, crate::proofs::Asking::asks_last))]
pub fn move_query(alloc: Global, query: BookQuery, count: u32) -> Result<MoveQuery, StoreFault>
    ensures { IfOk result (λ asked. AsksMoves query count asked) }
{
    match query {
        BookQuery::All => Ok(MoveQuery::All),
        BookQuery::After(number) => Ok(MoveQuery::After(i64::from(number))),
        BookQuery::Last(most) => Ok(MoveQuery::After(i64::from(count.saturating_sub(most)))),
        BookQuery::Of(awb) => Ok(MoveQuery::Of(awb_key(&awb))),
        BookQuery::On(flight) => {
            let text = flight_text(alloc, &flight.flight)?;
            Ok(MoveQuery::On(text, day_number(flight.day)))
        }
    }
}

/// Returns the query of `trail` for a query of the trail with `count` lines.
#[tactic(auto, using(crate::proofs::Asking::asks_all_lines, crate::proofs::Asking::asks_lines_after, crate::proofs::Asking::asks_last_lines))]
pub fn line_query(query: TrailQuery, count: u32) -> LineQuery
    ensures { AsksLines query count result }
{
    match query {
        TrailQuery::All => LineQuery::All,
        TrailQuery::After(number) => LineQuery::After(i64::from(number)),
        TrailQuery::Last(most) => LineQuery::After(i64::from(count.saturating_sub(most))),
        TrailQuery::Of(awb) => LineQuery::Of(awb_key(&awb)),
    }
}

/// Returns the entry under a key, or `None` if the count is out of range.
pub fn kept_by(row: KeptRow) -> Option<KeptReply>
    ensures exact { (key : List ℕ) → IsTrue (is_key key)
        → is_some result ≡ is_kept_row (key, kept_meant row) }
    ensures value { IfSome result (λ kept. kept_of kept ≡ kept_by (kept_meant row)) }
{
    let count = count_of(row.count)?;
    Some(KeptReply {
        request: row.command,
        count,
    })
}
