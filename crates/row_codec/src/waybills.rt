ghost use Rattle.std.specs.Prelude.{◌≡◌, is_some, IsTrue, IfSome, IfOk};
ghost use Rattle.row_codec.specs.Common.{waybill_meant};
ghost use Rattle.row_codec.specs.Flights.{natural, since_of, since_column, is_since, declared_by, waybill_row, is_waybill_row};

use crate::columns::{airport_of, awb_by, day_by, flag_by, goods_of, pieces_by, tenths_by, text};
use crate::flights::{awb_key, day_number};
use awb_number::Awb;
use shipment_machine::Declared;
use station_days::LocalDay;
use station_rows::{StoreFault, WaybillRow};
use std::alloc::Global;

/// Returns the day in a column `since`, which may be absent, or `None` if it is out of range.
fn since_by(column: i64) -> Option<Option<LocalDay>>
    ensures exact { is_some result ≡ is_since column }
    ensures value { IfSome result (λ since. since ≡ since_of column) }
{
    if column == 0 {
        return Some(None);
    }
    let day = day_by(column)?;
    Some(Some(day))
}

/// Returns the column of a day, which may be absent.
#[tactic(auto, using(crate::proofs::Fits::since_fits, crate::proofs::Fits::day_column))]
fn since_number(since: Option<LocalDay>) -> i64
    ensures value { result ≡ since_column since }
    ensures in_range { IsTrue (is_since (since_column since)) }
{
    match since {
        None => 0,
        Some(day) => day_number(day),
    }
}

/// Returns the waybill in a row with its declaration, or `None` if a column is out of range.
pub fn waybill_by(row: &WaybillRow) -> Option<(Awb, Declared)>
    ensures exact { is_some result ≡ is_waybill_row (waybill_meant row.now) }
    ensures awb { IfSome result (λ found. found.0 ≡ natural row.now.awb) }
    ensures declared { IfSome result (λ found. found.1 ≡ declared_by (waybill_meant row.now)) }
{
    let awb = awb_by(row.awb)?;
    let declared = Declared {
        origin: airport_of(&row.origin)?,
        destination: airport_of(&row.destination)?,
        pieces: pieces_by(row.pieces)?,
        tenths: tenths_by(row.tenths)?,
        goods: goods_of(&row.goods)?,
        notified: flag_by(row.notified)?,
        since: since_by(row.since)?,
    };
    Some((awb, declared))
}

/// Returns the row of a waybill's declaration, which is in range. It fails if memory runs out.
#[tactic(auto, using(crate::proofs::Fits::waybill_fits))]
pub fn waybill_row(alloc: Global, awb: &Awb, declared: &Declared) -> Result<WaybillRow, StoreFault>
    ensures value { IfOk result (λ row. waybill_meant row ≡ waybill_row awb.now declared.now) }
    ensures lawful { IsTrue (is_waybill_row (waybill_row awb.now declared.now)) }
{
    let number = awb_key(awb);
    let (origin, destination) = (declared.origin.letters(), declared.destination.letters());
    let (pieces, tenths) = (declared.pieces.number(), declared.tenths.number());
    let goods = declared.goods.as_bytes();
    let since = since_number(declared.since);
    Ok(WaybillRow {
        awb: number,
        origin: text(alloc, &origin)?,
        destination: text(alloc, &destination)?,
        pieces: i64::from(pieces),
        tenths: i64::from(tenths),
        goods: text(alloc, goods)?,
        notified: i64::from(declared.notified),
        since,
    })
}
