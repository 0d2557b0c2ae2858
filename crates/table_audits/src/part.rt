ghost use Rattle.std.specs.Prelude.{◌≡◌};
ghost use Rattle.table_audits.specs.Common.{part_entry, is_part_row, Survives, state};
ghost use Rattle.table_audits.specs.declared.name.TableName.TheVariants as table;
ghost use Rattle.table_audits.specs.Verdict.{Audits};

use crate::rows::Known;
use row_codec::part_by;
use sqlite::{Alter, Connection, Error};
use std::alloc::Global;
use table_load::{PartEntry, found_rows};

/// Returns whether the row is in range. Its telegram is a text by its type.
fn is_lawful(row: &PartEntry) -> bool
    ensures { result ≡ is_part_row (part_entry row.now) }
{
    part_by(&row.flight, row.day, &row.airport, row.seq).is_some()
}

/// Reads `part`. Returns whether it exists and is lawful.
pub(crate) fn is_good<S: Alter>(
    alloc: Global,
    conn: &mut Connection<S>,
    known: &mut Known,
) -> Result<bool, Error>
    ensures read { Audits S.Store conn.old conn.new result table.Part known.old known.new }
    ensures survives { Survives (state S.Store conn.old) (state S.Store conn.new) (λ _. ⊥) }
{
    let Some(rows) = found_rows::<S, PartEntry>(alloc, conn)? else {
        return Ok(false);
    };
    let is_lawful = rows.iter().all(|row| is_lawful(row));
    known.parts = rows;
    Ok(is_lawful)
}
