ghost use Rattle.table_audits.specs.Common.{Survives, state};
ghost use Rattle.table_audits.specs.declared.name.TableName.TheVariants as table;
ghost use Rattle.table_audits.specs.Verdict.{AreJudged, Audits, JudgesOn};

use crate::rows::Known;
use crate::{
    FoundState, TableName, book, builds, counts, expected, flight, kept_key, kept_text,
    old_waybill, outbox, part, stock, trail, waybill,
};
use sqlite::{Alter, Connection, Error};
use station_core::Sizes;
use std::alloc::Global;

/// Audits one table with those before it. Returns whether it exists and is lawful; then `known` has
/// what later audits need of it.
fn is_good<S: Alter>(
    alloc: Global,
    conn: &mut Connection<S>,
    name: TableName,
    known: &mut Known,
) -> Result<bool, Error>
    ensures read { Audits S.Store conn.old conn.new result name known.old known.new }
    ensures survives { Survives (state S.Store conn.old) (state S.Store conn.new) (λ _. ⊥) }
{
    match name {
        // `known` starts with its row, once that is audited.
        TableName::Station => Ok(true),
        TableName::Waybill => old_waybill::is_good(alloc, conn, known),
        TableName::Waybill2 => waybill::is_good(alloc, conn, known),
        TableName::Stock => stock::is_good(alloc, conn, known),
        TableName::Flight => flight::is_good(alloc, conn, known),
        TableName::Moves => book::is_good(alloc, conn, known),
        TableName::Expected => expected::is_good(alloc, conn, known),
        TableName::Part => part::is_good(alloc, conn, known),
        TableName::Trail => trail::is_good(alloc, conn, known),
        TableName::Outbox => outbox::is_good(alloc, conn, known),
        TableName::KeptKey => kept_key::is_good(alloc, conn, known),
        TableName::KeptText => kept_text::is_good(alloc, conn, known),
        TableName::Counts => counts::is_good(alloc, conn, known),
        TableName::Build => builds::is_good(alloc, conn, known),
    }
}

/// Audits the tables one after another, each with those before it. Returns the findings, or the
/// first table that is missing or unlawful.
pub(crate) fn judged_tables<S: Alter>(
    alloc: Global,
    conn: &mut Connection<S>,
    known: &mut Known,
) -> Result<Result<FoundState, TableName>, Error>
    ensures read { JudgesOn S.Store conn.old conn.new result table.Station known.old AreJudged }
    ensures survives { Survives (state S.Store conn.old) (state S.Store conn.new) (λ _. ⊥) }
{
    let mut ahead = Some(TableName::Station);
    while let Some(name) = ahead {
        if !is_good(alloc, conn, name, known)? {
            return Ok(Err(name));
        }
        ahead = name.next();
    }
    Ok(Ok(FoundState {
        here: known.here,
        confirmed: known.confirmed,
        sizes: Sizes {
            moves: known.book.moves,
            lines: known.lines,
            messages: known.messages,
        },
    }))
}
