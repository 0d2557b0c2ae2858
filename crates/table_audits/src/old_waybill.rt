ghost use Rattle.std.specs.Prelude.{◌≡◌, ◌↔◌, map, IsTrue};
ghost use Rattle.table_audits.specs.Common.{FindsTable, HoldsOldWaybills, Tables, old_waybill_entry, Survives, state};
ghost use Rattle.table_audits.specs.Lawful.{IsLawfulTable};
ghost use Rattle.table_audits.specs.declared.name.TableName.TheVariants as table;
ghost use Rattle.table_audits.specs.Verdict.{Audits};

use crate::rows::Known;
use sqlite::{Alter, Connection, Error};
use std::alloc::Global;
use table_load::{FileVersion, OldWaybillEntry, found_rows};

/// Returns whether the rows of `waybill` are lawful: there are none.
fn are_old_waybills_lawful(rows: &[OldWaybillEntry]) -> bool
    ensures exact { (t : Tables) → t.old_waybills ≡ map old_waybill_entry rows.now
        → (IsTrue result ↔ IsLawfulTable table.Waybill t) }
{
    rows.is_empty()
}

/// Reads the rows of `waybill`, of which there must be none.
fn read_rows<S: Alter>(
    alloc: Global,
    conn: &mut Connection<S>,
    version: FileVersion,
) -> Result<Option<Vec<OldWaybillEntry>>, Error>
    ensures read { FindsTable S.Store conn.old conn.new result old_waybill_entry
        (HoldsOldWaybills version) }
    ensures survives { Survives (state S.Store conn.old) (state S.Store conn.new) (λ _. ⊥) }
{
    match version {
        FileVersion::First => Ok(Some(Vec::new(alloc))),
        FileVersion::Second => found_rows(alloc, conn),
    }
}

/// Reads `waybill`. Returns whether it exists and is lawful.
pub(crate) fn is_good<S: Alter>(
    alloc: Global,
    conn: &mut Connection<S>,
    known: &Known,
) -> Result<bool, Error>
    ensures read { Audits S.Store conn.old conn.new result table.Waybill known.now known.now }
    ensures survives { Survives (state S.Store conn.old) (state S.Store conn.new) (λ _. ⊥) }
{
    let Some(rows) = read_rows(alloc, conn, known.version)? else {
        return Ok(false);
    };
    Ok(are_old_waybills_lawful(&rows))
}
