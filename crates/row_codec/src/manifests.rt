ghost use Rattle.std.specs.Prelude.{◌≡◌, ◌&&◌, is_some, IsTrue, IfSome, Some};
ghost use Rattle.row_codec.specs.Common.{expected_meant, listed_waybill_meant, ExpectedKey, most_pieces, most_tenths};
ghost use Rattle.row_codec.specs.Flights.{is_within, is_flag, is_expected_key, expectation_by, expected_by, expected_row, is_expected_row, is_part_key, part_by};

use crate::columns::{airport_of, awb_by, flag_by, part_number_by, pieces_by, tenths_by};
use crate::flights::flight_date_by;
use shipment_machine::{Expected, Part};
use station_core::Expectation;
use station_rows::{ExpectedRow, ListedWaybillRow};

fn expected_of(pieces: i64, tenths: i64, checked: i64) -> Option<Expected>
    ensures exact { is_some result
        ≡ is_within 1 most_pieces pieces && is_within 0 most_tenths tenths && is_flag checked }
    ensures value { IfSome result (λ expected. expected
        ≡ expected_by (record { pieces = pieces; tenths = tenths; checked = checked })) }
{
    let pieces = pieces_by(pieces)?;
    let tenths = tenths_by(tenths)?;
    let checked = flag_by(checked)?;
    Some(Expected {
        pieces,
        tenths,
        checked,
    })
}

/// Returns the expectation in a row, or `None` if a column is out of range.
#[tactic(auto, using(crate::proofs::Exact::under_expected))]
pub fn expected_by(row: &ExpectedRow) -> Option<Expected>
    ensures exact { (key : ExpectedKey) → IsTrue (is_expected_key key)
        → is_some result ≡ is_expected_row (key, expected_meant row.now) }
    ensures value { IfSome result (λ expected. expected ≡ expected_by (expected_meant row.now)) }
{
    expected_of(row.pieces, row.tenths, row.checked)
}

/// Returns the expectation in a row with this key, with its flight and waybill, or `None` if a
/// column is out of range.
pub fn expectation_of(flight: &str, day: i64, awb: i64, row: &ExpectedRow) -> Option<Expectation>
    ensures exact { is_some result ≡ is_expected_row
        ((flight.now, (day, awb)), expected_meant row.now) }
    ensures value { IfSome result (λ one. Some one
        ≡ expectation_by ((flight.now, (day, awb)), expected_meant row.now)) }
{
    let flight = flight_date_by(flight, day)?;
    let awb = awb_by(awb)?;
    let expected = expected_of(row.pieces, row.tenths, row.checked)?;
    Some(Expectation {
        flight,
        awb,
        expected,
    })
}

/// Returns the expectation in a row, with its flight and waybill, or `None` if a column is out of
/// range.
pub fn expectation_by(row: &ListedWaybillRow) -> Option<Expectation>
    ensures exact { is_some result ≡ is_expected_row (listed_waybill_meant row.now) }
    ensures value { IfSome result (λ one. Some one
        ≡ expectation_by (listed_waybill_meant row.now)) }
{
    let columns = ExpectedRow {
        pieces: row.pieces,
        tenths: row.tenths,
        checked: row.checked,
    };
    expectation_of(&row.flight, row.day, row.awb, &columns)
}

/// Returns the row of an expectation, in range for the key of any flight and waybill.
#[tactic(auto, using(crate::proofs::Fits::expected_fits))]
pub fn expected_row(expected: &Expected) -> ExpectedRow
    ensures value { expected_meant result ≡ expected_row expected.now }
    ensures lawful { (key : ExpectedKey) → IsTrue (is_expected_key key)
        → IsTrue (is_expected_row (key, expected_row expected.now)) }
{
    ExpectedRow {
        pieces: i64::from(expected.pieces.number()),
        tenths: i64::from(expected.tenths.number()),
        checked: i64::from(expected.checked),
    }
}

/// Returns the part of a manifest with this key, or `None` if a column is out of range.
pub fn part_by(flight: &str, day: i64, airport: &str, number: i64) -> Option<Part>
    ensures exact { is_some result ≡ is_part_key (flight.now, (day, (airport.now, number))) }
    ensures value { IfSome result (λ part. Some part
        ≡ part_by (flight.now, (day, (airport.now, number)))) }
{
    let flight = flight_date_by(flight, day)?;
    let airport = airport_of(airport)?;
    let number = part_number_by(number)?;
    Some(Part {
        flight,
        airport,
        number,
    })
}
