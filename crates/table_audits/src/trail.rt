ghost use Rattle.std.specs.Prelude.{◌≡◌, map};
ghost use Rattle.table_audits.specs.Common.{waybill_meant, trail_meant, Survives, state};
ghost use Rattle.table_audits.specs.declared.name.TableName.TheVariants as table;
ghost use Rattle.table_audits.specs.Moves.{RisesByNumber, is_lawful_line};
ghost use Rattle.table_audits.specs.Taken.{AreLinesTaken};
ghost use Rattle.table_audits.specs.Verdict.{Audits};

use crate::lookups::{NumberedRows, is_declared};
use crate::rows::Known;
use row_codec::{awb_key, waybill_of_line};
use sqlite::{Alter, Connection, Error};
use station_rows::{TrailRow, WaybillRow};
use std::alloc::Global;
use table_load::{RowFold, fold_rows};

fn is_lawful(row: &TrailRow, waybills: &[WaybillRow]) -> bool
    ensures { RisesByNumber (map waybill_meant waybills.now)
        → result ≡ is_lawful_line (map waybill_meant waybills.now) (trail_meant row.now) }
{
    match waybill_of_line(row) {
        Some(awb) => is_declared(waybills, awb_key(&awb)),
        None => false,
    }
}

/// The rows of `trail` are added in the order of their numbers, with the rows of `waybill2` in the
/// order of theirs.
impl RowFold<TrailRow> for NumberedRows {
    ghost use Rattle.std.specs.Prelude.{map};
    ghost use Rattle.station_rows.specs.Meant.{waybill_meant};
    ghost use Rattle.table_audits.specs.Taken.{AreLinesTaken};

    type Beside = Vec<WaybillRow>;

    ghost has = { λ waybills lines rows. AreLinesTaken (map waybill_meant waybills.items) lines
        rows };

    fn take(&mut self, waybills: &Vec<WaybillRow>, row: TrailRow) -> Result<(), Error> {
        let is_lawful = is_lawful(&row, waybills);
        self.add(row.number, is_lawful)
    }
}

/// Reads `trail`, row by row, and counts its lines. Returns whether it exists and is lawful. The
/// waybills aren't kept any longer.
pub(crate) fn is_good<S: Alter>(
    alloc: Global,
    conn: &mut Connection<S>,
    known: &mut Known,
) -> Result<bool, Error>
    ensures read { Audits S.Store conn.old conn.new result table.Trail known.old known.new }
    ensures survives { Survives (state S.Store conn.old) (state S.Store conn.new) (λ _. ⊥) }
{
    let none = NumberedRows::new();
    let beside = &known.beside.waybills;
    let Some(lines) = fold_rows::<S, TrailRow, NumberedRows>(alloc, conn, beside, none)? else {
        return Ok(false);
    };
    let Some(count) = lines.count else {
        return Ok(false);
    };
    known.lines = count;
    known.beside.waybills = Vec::new(alloc);
    Ok(true)
}
