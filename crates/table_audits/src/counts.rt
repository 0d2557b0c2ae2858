ghost use Rattle.std.specs.Prelude.{◌≡◌, ◌↔◌, IsTrue, map};
ghost use Rattle.table_audits.specs.Common.{IsOrdered, count_meant, Survives, state};
ghost use Rattle.table_audits.specs.Moves.{count_entry, count_place_cmp};
ghost use Rattle.table_audits.specs.Verdict.{Audits};
ghost use Rattle.table_audits.specs.declared.name.TableName.TheVariants as table;

use crate::rows::Known;
use crate::sums::{BookSums, CountPlace};
use row_codec::Tally;
use sqlite::{Alter, Connection, Error};
use station_rows::CountRow;
use std::alloc::Global;
use table_load::found_rows;

/// Returns whether a row has this tally of a place.
fn is_row(row: &CountRow, place: &CountPlace, tally: &Tally) -> bool
    ensures { IsTrue result ↔ (count_meant row.now ≡ count_entry (place.now, tally.now)) }
{
    row.awb == place.awb
        && row.place == place.place
        && row.pieces == tally.pieces
        && row.tenths == tally.tenths
}

/// Returns whether the rows of `counts` are the sums, both in the order of their keys.
fn are_same(sums: &BookSums, rows: &[CountRow]) -> bool
    ensures same { IsTrue result ↔
        (map count_meant rows.now ≡ map count_entry sums.now.counts.entries) }
    ensures ordered { IsOrdered count_place_cmp sums.now.counts }
{
    let mut ahead = sums.counts.iter();
    for row in rows {
        let Some((place, tally)) = ahead.next() else {
            return false;
        };
        if !is_row(row, place, tally) {
            return false;
        }
    }
    ahead.next().is_none()
}

/// Reads `counts`. Returns whether it exists and is lawful.
pub(crate) fn is_good<S: Alter>(
    alloc: Global,
    conn: &mut Connection<S>,
    known: &Known,
) -> Result<bool, Error>
    ensures read { Audits S.Store conn.old conn.new result table.Counts known.now known.now }
    ensures survives { Survives (state S.Store conn.old) (state S.Store conn.new) (λ _. ⊥) }
{
    let Some(rows) = found_rows::<S, CountRow>(alloc, conn)? else {
        return Ok(false);
    };
    Ok(are_same(&known.book.sums, &rows))
}
