//! Reading the columns of a row. The result is `None` if the value is out of range.

ghost use Rattle.std.specs.Prelude.{◌≡◌, pos, is_some, IfSome, IfOk, OnOk, IsTrue, string_bytes};
ghost use Rattle.row_codec.specs.Common.{is_airport, is_goods, most_tenths, most_pieces, most_parts, is_utf8};
ghost use Rattle.row_codec.specs.Flights.{natural, is_within, is_number, is_count, is_day, is_set, is_flag};

use awb_number::Awb;
use imp_fields::{Airport, BookTenths, Goods, PartNumber, Pieces};
use station_days::LocalDay;
use station_rows::StoreFault;
use std::alloc::Global;

/// Reads a waybill number from its key.
#[tactic(auto, using(crate::proofs::Exact::within_number))]
pub(crate) fn awb_by(column: i64) -> Option<Awb>
    ensures exact { is_some result ≡ is_number column }
    ensures value { IfSome result (λ awb. awb ≡ natural column) }
    ensures again { IfSome result (λ awb. column ≡ pos awb) }
{
    Awb::of_key(u64::try_from(column).ok()?)
}

#[tactic(auto, using(crate::proofs::Exact::within_both))]
pub(crate) fn pieces_by(column: i64) -> Option<Pieces>
    ensures exact { is_some result ≡ is_within 1 most_pieces column }
    ensures value { IfSome result (λ pieces. pieces ≡ natural column) }
{
    Pieces::new(u32::try_from(column).ok()?)
}

/// Reads a book weight in tenths of a kilogram.
#[tactic(auto, using(crate::proofs::Exact::within_most))]
pub(crate) fn tenths_by(column: i64) -> Option<BookTenths>
    ensures exact { is_some result ≡ is_within 0 most_tenths column }
    ensures value { IfSome result (λ tenths. tenths ≡ natural column) }
{
    BookTenths::new(u32::try_from(column).ok()?)
}

#[tactic(auto, using(crate::proofs::Exact::within_both))]
pub(crate) fn part_number_by(column: i64) -> Option<PartNumber>
    ensures exact { is_some result ≡ is_within 1 most_parts column }
    ensures value { IfSome result (λ number. number ≡ natural column) }
{
    PartNumber::new(u32::try_from(column).ok()?)
}

#[tactic(auto, using(crate::proofs::Exact::within_both))]
pub(crate) fn day_by(column: i64) -> Option<LocalDay>
    ensures exact { is_some result ≡ is_day column }
    ensures value { IfSome result (λ day. day ≡ natural column) }
{
    LocalDay::new(u32::try_from(column).ok()?)
}

/// Reads a flag: 1 or 0.
pub(crate) fn flag_by(column: i64) -> Option<bool>
    ensures exact { is_some result ≡ is_flag column }
    ensures value { IfSome result (λ set. set ≡ is_set column) }
{
    match column {
        0 => Some(false),
        1 => Some(true),
        _ => None,
    }
}

#[tactic(auto, using(crate::proofs::Exact::some_where))]
pub(crate) fn airport_of(text: &str) -> Option<Airport>
    ensures exact { is_some result ≡ is_airport text.now }
    ensures value { IfSome result (λ airport. airport ≡ text.now) }
{
    Airport::read(text.as_bytes())
}

#[tactic(auto, using(crate::proofs::Exact::same_tests))]
pub(crate) fn goods_of(text: &str) -> Option<Goods>
    ensures exact { is_some result ≡ is_goods text.now }
    ensures value { IfSome result (λ goods. goods ≡ text.now) }
{
    Goods::read(text.as_bytes())
}

/// Reads a count. It is `None` if negative, or above 4,294,967,295.
pub fn count_of(column: i64) -> Option<u32>
    ensures exact { is_some result ≡ is_count column }
    ensures value { IfSome result (λ count. count ≡ natural column) }
{
    u32::try_from(column).ok()
}

/// Copies bytes as a text. It fails if they aren't UTF-8, or memory runs out.
pub fn text(alloc: Global, bytes: &[u8]) -> Result<String, StoreFault>
    ensures value { IfOk result (λ text. string_bytes text ≡ bytes.now) }
    ensures valid { OnOk result (IsTrue (is_utf8 bytes.now)) }
{
    let Ok(text) = std::str::from_utf8(bytes) else {
        return Err(StoreFault);
    };
    match String::from_str(alloc, text) {
        Ok(text) => Ok(text),
        Err(_) => Err(StoreFault),
    }
}
