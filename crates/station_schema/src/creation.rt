ghost use Rattle.std.specs.Prelude.{◌≡◌, map, OnOk, OnErr};
ghost use Rattle.station_schema.specs.Common.{HasCleanDisk, Survives, state};
ghost use Rattle.station_schema.specs.Schema.{IsMade, IsSettled, IsUndone, Makes, no_schema, station_schema};
ghost use Rattle.station_schema.specs.Connection.{IsVacant, IsNewStation, IsInside, Changes, Fills, Founds, IsFounded, with_station};

use crate::connection::{begin, commit, roll_back};
use crate::declarations::DECLARATIONS;
use crate::names::shows_own;
use sqlite::{Alter, Connection, Error, params};

/// Runs the declarations, up to the first that fails, inside a transaction.
fn declare<S: Alter>(conn: &mut Connection<S>, texts: &[&str]) -> Result<(), Error>
    requires { map (λ t. t.now) texts.now ≡ map (λ t. t.now) DECLARATIONS }
    ensures made { HasCleanDisk (state S.Store conn.new) → IsMade no_schema (state S.Store conn.old)
        → Makes (state S.Store conn.old) (state S.Store conn.new) result station_schema }
    ensures survives { Survives (state S.Store conn.old) (state S.Store conn.new)
        (λ _. ¬ IsMade no_schema (state S.Store conn.old)) }
{
    for text in texts {
        conn.execute(text, &[])?;
    }
    Ok(())
}

fn insert_station<S: Alter>(conn: &mut Connection<S>, airport: &str) -> Result<usize, Error>
    ensures made { HasCleanDisk (state S.Store conn.new) → IsInside (state S.Store conn.old)
        → Changes (state S.Store conn.old) (state S.Store conn.new) result
        (with_station airport.now) }
    ensures survives { Survives (state S.Store conn.old) (state S.Store conn.new)
        (λ _. ¬ IsInside (state S.Store conn.old)) }
{
    conn.execute(
        "INSERT INTO station (id, airport, version, confirmed) VALUES (1, ?1, 2, 0)",
        params![airport],
    )
}

/// Makes the tables and the row of `station`, inside a transaction.
fn fill_tables<S: Alter>(conn: &mut Connection<S>, airport: &str) -> Result<(), Error>
    ensures made { HasCleanDisk (state S.Store conn.new) → IsMade no_schema (state S.Store conn.old)
        → Fills (state S.Store conn.old) (state S.Store conn.new) result airport.now }
    ensures survives { Survives (state S.Store conn.old) (state S.Store conn.new)
        (λ _. ¬ IsMade no_schema (state S.Store conn.old)) }
{
    declare(conn, &DECLARATIONS)?;
    insert_station(conn, airport)?;
    Ok(())
}

/// Makes the tables of a new station and commits them.
fn commit_tables<S: Alter>(conn: &mut Connection<S>, airport: &str) -> Result<(), Error>
    ensures made { HasCleanDisk (state S.Store conn.new) → IsMade no_schema (state S.Store conn.old)
        → Founds (state S.Store conn.old) (state S.Store conn.new) result airport.now }
    ensures survives { Survives (state S.Store conn.old) (state S.Store conn.new)
        (λ db. IsMade no_schema (state S.Store conn.old) → IsNewStation airport.now db) }
{
    fill_tables(conn, airport)?;
    shows_own(conn);
    commit(conn)?;
    Ok(())
}

/// Makes the tables of a new station in an empty store, in one transaction. If it fails, the
/// connection is outside a transaction and, if it is open, at the last commit. It fails if a
/// transaction is open, or the store fails.
pub fn create_schema<S: Alter>(conn: &mut Connection<S>, airport: &str) -> Result<(), Error>
    ensures made { HasCleanDisk (state S.Store conn.new) → IsVacant S.Store conn.old
        → OnOk result (IsFounded (state S.Store conn.new) airport.now) }
    ensures undone { HasCleanDisk (state S.Store conn.new) → IsVacant S.Store conn.old
        → IsSettled (state S.Store conn.old)
        → OnErr result (IsUndone (state S.Store conn.old) (state S.Store conn.new)) }
    ensures survives { Survives (state S.Store conn.old) (state S.Store conn.new)
        (λ db. IsVacant S.Store conn.old → IsNewStation airport.now db) }
{
    begin(conn)?;
    match commit_tables(conn, airport) {
        Ok(()) => Ok(()),
        Err(error) => {
            roll_back(conn);
            Err(error)
        }
    }
}
