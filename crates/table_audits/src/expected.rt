ghost use Rattle.std.specs.Prelude.{◌≡◌, map, nat_le, is_some, IfSome, Some};
ghost use Rattle.table_audits.specs.Common.{waybill_meant, expected_entry, is_expected_row, expectation_by, Survives, state};
ghost use Rattle.table_audits.specs.Moves.{RisesByNumber, is_lawful_expected};
ghost use Rattle.table_audits.specs.declared.name.TableName.TheVariants as table;
ghost use Rattle.table_audits.specs.Verdict.{Audits};

use crate::lookups::is_declared;
use crate::rows::Known;
use row_codec::{awb_key, expectation_of};
use shipment_machine::Expected;
use sqlite::{Alter, Connection, Error};
use station_core::Expectation;
use station_rows::{ExpectedRow, WaybillRow};
use std::alloc::Global;
use table_load::{ExpectedEntry, found_rows};

/// Returns the expectation of a row that is in range.
fn listed(row: &ExpectedEntry) -> Option<Expectation>
    ensures exact { is_some result ≡ is_expected_row (expected_entry row.now) }
    ensures value { IfSome result (λ one. Some one ≡ expectation_by (expected_entry row.now)) }
{
    let columns = ExpectedRow {
        pieces: row.pieces,
        tenths: row.tenths,
        checked: row.checked,
    };
    expectation_of(&row.flight, row.day, row.awb, &columns)
}

/// Returns whether the weight is at least a tenth a piece.
fn is_enough(expected: &Expected) -> bool
    ensures { result ≡ nat_le expected.now.pieces expected.now.tenths }
{
    expected.pieces.number() <= expected.tenths.number()
}

/// Returns whether the row is in range, its weight at least a tenth a piece, and its waybill
/// declared.
fn is_lawful(row: &ExpectedEntry, waybills: &[WaybillRow]) -> bool
    ensures { RisesByNumber (map waybill_meant waybills.now)
        → result ≡ is_lawful_expected (map waybill_meant waybills.now) (expected_entry row.now) }
{
    let Some(one) = listed(row) else {
        return false;
    };
    if !is_enough(&one.expected) {
        return false;
    }
    is_declared(waybills, awb_key(&one.awb))
}

/// Reads `expected`. Returns whether it exists and is lawful.
pub(crate) fn is_good<S: Alter>(
    alloc: Global,
    conn: &mut Connection<S>,
    known: &Known,
) -> Result<bool, Error>
    ensures read { Audits S.Store conn.old conn.new result table.Expected known.now known.now }
    ensures survives { Survives (state S.Store conn.old) (state S.Store conn.new) (λ _. ⊥) }
{
    let Some(rows) = found_rows::<S, ExpectedEntry>(alloc, conn)? else {
        return Ok(false);
    };
    let waybills = &known.beside.waybills;
    Ok(rows.iter().all(|row| is_lawful(row, waybills)))
}
