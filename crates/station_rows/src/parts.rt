ghost use Rattle.std.specs.Prelude.{◌≡◌, map, option_map, option_to_list, string_bytes, IfOk};
ghost use Rattle.station_rows.specs.Common.{get, LeavesAll, Tells, part_row};
ghost use Rattle.station_rows.specs.Meant.{with_part, insert_part_text};
ghost use Rattle.station_rows.specs.Shown.{part_shown, part_read};

use crate::statements::{Read, Write};
use sqlite::{Alter, Connection, Error, Row, params};

/// Adds the text of one part of a manifest, which must not be there yet.
#[derive(Drop)]
pub struct InsertPart<'a> {
    /// The flight, as it is written.
    pub flight: &'a str,
    /// Its day.
    pub day: i64,
    /// The airport.
    pub airport: &'a str,
    /// The number of the part.
    pub seq: i64,
    /// The text.
    pub body: &'a str,
}

impl Write for InsertPart<'_> {
    ghost change = { λ it. with_part (it.flight.now, (it.day, (it.airport.now, it.seq)))
        it.body.now };

    ghost runs = { λ it Ran. Ran insert_part_text
        (part_row ((it.flight.now, (it.day, (it.airport.now, it.seq))), it.body.now)) };

    fn run<S: Alter>(self, conn: &mut Connection<S>) -> Result<usize, Error> {
        conn.execute(
            "INSERT INTO part (flight, day, airport, seq, body) VALUES (?1, ?2, ?3, ?4, ?5)",
            params![self.flight, &self.day, self.airport, &self.seq, self.body],
        )
    }
}

fn shown_part<S: Alter>(conn: &mut Connection<S>, part: &PartBody<'_>) -> Result<Vec<Row>, Error>
    ensures read { Tells S.Store conn.old conn.new result
        (λ tables rows. rows.items
        ≡ map part_shown (option_to_list
        (get tables.parts (
          part.now.flight.now,
          (part.now.day, (part.now.airport.now, part.now.seq)),
        )))) }
    ensures survives { LeavesAll S.Store conn.old conn.new }
{
    conn.query_all(
        "SELECT body FROM part WHERE flight = ?1 AND day = ?2 AND airport = ?3 AND seq = ?4",
        params![part.flight, &part.day, part.airport, &part.seq],
    )
}

fn read_part(row: &Row) -> Result<String, Error>
    ensures { IfOk result (λ body. string_bytes body ≡ part_read row.now) }
{
    Ok(row.get(0)?)
}

/// The text of one part of a manifest.
#[derive(Drop)]
pub struct PartBody<'a> {
    /// The flight, as it is written.
    pub flight: &'a str,
    /// Its day.
    pub day: i64,
    /// The airport.
    pub airport: &'a str,
    /// The number of the part.
    pub seq: i64,
}

impl Read for PartBody<'_> {
    type Found = Option<String>;

    ghost tells = { λ it tables found. option_map string_bytes found
        ≡ get tables.parts (it.flight.now, (it.day, (it.airport.now, it.seq))) };

    fn run<S: Alter>(self, conn: &mut Connection<S>) -> Result<Option<String>, Error> {
        let rows = shown_part(conn, &self)?;
        match rows.first() {
            Some(row) => Ok(Some(read_part(row)?)),
            None => Ok(None),
        }
    }
}
