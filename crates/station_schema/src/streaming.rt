ghost use Rattle.std.specs.Prelude.{◌≡◌, ℕ, [], List, IsTrue};
ghost use Rattle.station_schema.specs.Common.{IsPlain, HasGiven, state, understood, HasCleanDisk, Survives, CommitsShowing, bound, HandedOut};
ghost use Rattle.sqlite.specs.Order.{Row as AnyRow};
ghost use Rattle.station_schema.specs.Connection.{Moves, Streams, taking};

use row_sinks::Sink;
use sqlite::types::ValueRef;
use sqlite::{Alter, Connection, Error, ErrorCode, Row, Rows};

/// A value that is read from a row of a result.
pub trait ReadRow {
    ghost use Rattle.std.specs.Prelude.{IfOk};
    ghost use Rattle.sqlite.specs.Order.{Row as AnyRow};

    /// The relation of a row to its value.
    ghost reads: { AnyRow → Self → Type 0 };

    /// Reads a row.
    fn read(row: &Row) -> Result<Self, Error>
        ensures { IfOk result (reads row.now) };
}

/// Moves to the next row and reads it. There is none at the end.
fn next_value<S: Alter, T: ReadRow>(rows: &mut Rows<'_, S>) -> Result<Option<T>, Error>
    ensures same_reference { rows.new.conn.ghost_name ≡ rows.old.conn.ghost_name }
    ensures moves { HasCleanDisk (state S.Store rows.new.conn.now)
        → (sql : List ℕ) (params : AnyRow) (given : List AnyRow)
        → HasGiven S.Store sql params rows.old.conn.now given
        → Moves S.Store sql params T.reads rows.old.conn.now rows.new.conn.now given result }
    ensures survives { Survives (state S.Store rows.old.conn.now) (state S.Store rows.new.conn.now)
        (λ _. ⊥) }
{
    rows.advance()?;
    match rows.get() {
        None => Ok(None),
        Some(row) => Ok(Some(T::read(row)?)),
    }
}

/// Hands out the rows of a query, until the sink stops.
fn hand_rows<S: Alter, T: ReadRow + Drop, K: Sink<T>>(
    rows: &mut Rows<'_, S>,
    sink: &mut K,
) -> Result<(), Error>
    ensures same_reference { rows.new.conn.ghost_name ≡ rows.old.conn.ghost_name }
    ensures streams { HasCleanDisk (state S.Store rows.new.conn.now)
        → (sql : List ℕ) (params : AnyRow) → HasGiven S.Store sql params rows.old.conn.now []
        → IsTrue (state S.Store rows.old.conn.now).is_open
        → Streams sql params (state S.Store rows.old.conn.now) (state S.Store rows.new.conn.now)
        (taking T.reads K.takes) sink.old sink.new result }
    ensures took { (rows : List T) × HandedOut K.takes rows sink.old sink.new }
    ensures survives { Survives (state S.Store rows.old.conn.now) (state S.Store rows.new.conn.now)
        (λ _. ⊥) }
{
    for _ in 0..u64::MAX {
        match next_value::<S, T>(rows)? {
            None => return Ok(()),
            Some(value) => {
                if !sink.take(value) {
                    return Ok(());
                }
            }
        }
    }
    Err(Error::SqliteFailure(ErrorCode::TooBig))
}

/// Hands out the rows of a query, in order, until the sink stops, which ends the query. An error
/// ends it too, after a prefix.
pub fn stream<S: Alter, T: ReadRow + Drop, K: Sink<T>>(
    conn: &mut Connection<S>,
    sql: &str,
    params: &[ValueRef<'_>],
    sink: &mut K,
) -> Result<(), Error>
    ensures streams { HasCleanDisk (state S.Store conn.new)
        → IsPlain (understood (state S.Store conn.old).now.schema sql.now)
        → Streams sql.now (bound params.now) (state S.Store conn.old) (state S.Store conn.new)
        (taking T.reads K.takes) sink.old sink.new result }
    ensures took { (rows : List T) × HandedOut K.takes rows sink.old sink.new }
    ensures survives { Survives (state S.Store conn.old) (state S.Store conn.new)
        (CommitsShowing sql.now (bound params.now) (state S.Store conn.old)) }
{
    let mut rows = conn.query(sql, params)?;
    hand_rows::<S, T, K>(&mut rows, sink)
}
