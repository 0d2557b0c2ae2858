ghost use Rattle.std.specs.Prelude.{◌≡◌};
ghost use Rattle.station_rows.specs.Common.{TrailLine};
ghost use Rattle.station_rows.specs.Meant.{trail_meant, with_trail_line, lines_for, insert_trail_text};
ghost use Rattle.station_rows.specs.Shown.{trail_shown, trail_read};

use crate::statements::{Listing, Write};
use row_sinks::Sink;
use sqlite::{Alter, Connection, Error, Row, params};
use station_schema::{ReadRow, stream};

/// A row of `trail`: what a line of a status message says of a waybill.
#[derive(Drop)]
pub struct TrailRow {
    /// Its number, from 1. It is the key.
    pub number: i64,
    /// The waybill's number.
    pub awb: i64,
    /// The line as it came.
    pub line: String,
}

/// The lines of the trail that are asked for.
#[derive(Clone, Copy)]
pub enum LineQuery {
    /// All of them.
    All,
    /// Those with a greater number.
    After(i64),
    /// Those of a waybill, by its number.
    Of(i64),
}

impl ReadRow for TrailRow {
    ghost reads = { λ row r. trail_meant r ≡ trail_read row };

    fn read(row: &Row) -> Result<TrailRow, Error> {
        Ok(TrailRow {
            number: row.get(0)?,
            awb: row.get(1)?,
            line: row.get(2)?,
        })
    }
}

/// Adds a line of a waybill's trail, whose number must be free.
#[derive(Drop)]
pub struct InsertTrailLine<'a> {
    /// The row.
    pub row: &'a TrailRow,
}

impl Write for InsertTrailLine<'_> {
    ghost change = { λ it. with_trail_line (trail_meant it.row.now) };

    ghost runs = { λ it Ran. Ran insert_trail_text (trail_shown (trail_meant it.row.now)) };

    fn run<S: Alter>(self, conn: &mut Connection<S>) -> Result<usize, Error> {
        conn.execute(
            "INSERT INTO trail (number, awb, line) VALUES (?1, ?2, ?3)",
            params![&self.row.number, &self.row.awb, &self.row.line],
        )
    }
}

/// The lines of the trail that are asked for, in order.
#[derive(Drop)]
pub struct LinesFor {
    /// The lines.
    pub query: LineQuery,
}

impl Listing for LinesFor {
    type Row = TrailRow;

    ghost Item = { TrailLine };

    ghost means = { λ line row. trail_meant row ≡ line };

    ghost lists = { λ it tables. lines_for it.query tables.trail };

    fn run<S: Alter, K: Sink<TrailRow>>(
        self,
        conn: &mut Connection<S>,
        sink: &mut K,
    ) -> Result<(), Error> {
        match &self.query {
            LineQuery::All => stream::<S, TrailRow, K>(
                conn,
                "SELECT number, awb, line FROM trail ORDER BY number",
                &[],
                sink,
            ),
            LineQuery::After(number) => stream::<S, TrailRow, K>(
                conn,
                "SELECT number, awb, line FROM trail WHERE number > ?1 ORDER BY number",
                params![number],
                sink,
            ),
            LineQuery::Of(awb) => stream::<S, TrailRow, K>(
                conn,
                "SELECT number, awb, line FROM trail WHERE awb = ?1 ORDER BY number",
                params![awb],
                sink,
            ),
        }
    }
}
