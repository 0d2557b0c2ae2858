ghost use Rattle.std.specs.Prelude.{◌≡◌};
ghost use Rattle.table_audits.specs.declared.name.TableName.TheVariants as table;
ghost use Rattle.table_audits.specs.Taken.{if_confirmed, AreMessagesTaken};
ghost use Rattle.table_audits.specs.Common.{Survives, state};
ghost use Rattle.table_audits.specs.Verdict.{Audits};

use crate::lookups::NumberedRows;
use crate::rows::Known;
use sqlite::{Alter, Connection, Error};
use station_rows::MessageRow;
use std::alloc::Global;
use table_load::{RowFold, fold_rows};

/// The rows of `outbox` are added in the order of their numbers. Each is a text by its type.
impl RowFold<MessageRow> for NumberedRows {
    ghost use Rattle.table_audits.specs.Taken.{AreMessagesTaken};

    type Beside = ();

    ghost has = { λ _ messages rows. AreMessagesTaken messages rows };

    fn take(&mut self, beside: &(), row: MessageRow) -> Result<(), Error> {
        let _ = beside;
        self.add(row.number, true)
    }
}

/// Returns the number of messages, if at least `confirmed` exist.
fn if_confirmed(count: Option<u32>, confirmed: u32) -> Option<u32>
    ensures { result ≡ if_confirmed confirmed count }
{
    match count {
        Some(count) if confirmed <= count => Some(count),
        _ => None,
    }
}

/// Reads `outbox`, row by row, and counts its messages. Returns whether it exists and is lawful.
pub(crate) fn is_good<S: Alter>(
    alloc: Global,
    conn: &mut Connection<S>,
    known: &mut Known,
) -> Result<bool, Error>
    ensures read { Audits S.Store conn.old conn.new result table.Outbox known.old known.new }
    ensures survives { Survives (state S.Store conn.old) (state S.Store conn.new) (λ _. ⊥) }
{
    let none = NumberedRows::new();
    let Some(messages) = fold_rows::<S, MessageRow, NumberedRows>(alloc, conn, &(), none)? else {
        return Ok(false);
    };
    let Some(count) = if_confirmed(messages.count, known.confirmed) else {
        return Ok(false);
    };
    known.messages = count;
    Ok(true)
}
