ghost use Rattle.std.specs.Prelude.{◌≡◌, map, IfOk};
ghost use Rattle.table_audits.specs.Common.{FindsTable, undated_row, HoldsWaybills, waybill_meant, Survives, state};
ghost use Rattle.table_audits.specs.declared.name.TableName.TheVariants as table;
ghost use Rattle.table_audits.specs.Moves.{is_lawful_waybill};
ghost use Rattle.table_audits.specs.Verdict.{Audits};

use crate::rows::Known;
use row_codec::waybill_by;
use sqlite::{Alter, Connection, Error};
use station_rows::WaybillRow;
use std::alloc::{AllocError, Global};
use table_load::{FileVersion, OldWaybillEntry, found_rows};

/// Returns whether the row is in range, and its weight at least a tenth a piece.
fn is_lawful(row: &WaybillRow) -> bool
    ensures { result ≡ is_lawful_waybill (waybill_meant row.now) }
{
    let Some((_, declared)) = waybill_by(row) else {
        return false;
    };
    declared.pieces.number() <= declared.tenths.number()
}

/// Returns the waybills of a file of version 1, without a day.
fn undated_rows(alloc: Global, olds: Vec<OldWaybillEntry>) -> Result<Vec<WaybillRow>, AllocError>
    ensures { IfOk result (λ rows. rows.items ≡ map undated_row olds.items) }
{
    olds.into_iter()
        .map(|old| WaybillRow {
            awb: old.awb,
            origin: old.origin,
            destination: old.destination,
            pieces: old.pieces,
            tenths: old.tenths,
            goods: old.goods,
            notified: old.notified,
            since: 0,
        })
        .collect(alloc)
}

/// Reads the waybills, as a file of version 2 has them.
fn read_rows<S: Alter>(
    alloc: Global,
    conn: &mut Connection<S>,
    version: FileVersion,
) -> Result<Option<Vec<WaybillRow>>, Error>
    ensures read { FindsTable S.Store conn.old conn.new result waybill_meant
        (HoldsWaybills version) }
    ensures survives { Survives (state S.Store conn.old) (state S.Store conn.new) (λ _. ⊥) }
{
    match version {
        FileVersion::First => match found_rows::<S, OldWaybillEntry>(alloc, conn)? {
            None => Ok(None),
            Some(olds) => Ok(Some(undated_rows(alloc, olds)?)),
        },
        FileVersion::Second => found_rows(alloc, conn),
    }
}

/// Reads the waybills. Returns whether they exist and are lawful.
pub(crate) fn is_good<S: Alter>(
    alloc: Global,
    conn: &mut Connection<S>,
    known: &mut Known,
) -> Result<bool, Error>
    ensures read { Audits S.Store conn.old conn.new result table.Waybill2 known.old known.new }
    ensures survives { Survives (state S.Store conn.old) (state S.Store conn.new) (λ _. ⊥) }
{
    let Some(rows) = read_rows(alloc, conn, known.version)? else {
        return Ok(false);
    };
    let is_lawful = rows.iter().all(|row| is_lawful(row));
    known.beside.waybills = rows;
    Ok(is_lawful)
}
