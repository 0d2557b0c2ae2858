ghost use Rattle.std.specs.Prelude.{◌≡◌, map, filter};
ghost use Rattle.station_rows.specs.Common.{Move};
ghost use Rattle.station_rows.specs.Meant.{move_meant, with_move, is_of, moves_for, insert_move_text, is_flown_within};
ghost use Rattle.station_rows.specs.Shown.{move_shown, move_read};

use crate::statements::{Listing, Read, Write, all_rows};
use row_sinks::Sink;
use sqlite::{Alter, Connection, Error, Row, params};
use station_schema::{ReadRow, stream};

/// A row of `moves`: pieces of a waybill that went from one place to another.
#[derive(Drop)]
pub struct MoveRow {
    /// Its number in the book, from 1. It is the key.
    pub number: i64,
    /// The waybill's number.
    pub awb: i64,
    /// The place that the pieces left, by its number.
    pub src: i64,
    /// The place that they came to, by its number.
    pub dst: i64,
    /// The number of pieces.
    pub pieces: i64,
    /// Their weight in tenths of a kilogram.
    pub tenths: i64,
    /// The flight, or an empty text.
    pub flight: String,
    /// The day of the flight, or 0.
    pub fday: i64,
    /// The day of the move.
    pub day: i64,
    /// The minute of that day.
    pub minute: i64,
}

/// The moves that are asked for.
#[derive(Drop)]
pub enum MoveQuery {
    /// All of them.
    All,
    /// Those with a greater number.
    After(i64),
    /// Those of a waybill, by its number.
    Of(i64),
    /// Those of a flight, by the text and the day of their columns.
    On(String, i64),
}

impl ReadRow for MoveRow {
    ghost reads = { λ row r. move_meant r ≡ move_read row };

    fn read(row: &Row) -> Result<MoveRow, Error> {
        Ok(MoveRow {
            number: row.get(0)?,
            awb: row.get(1)?,
            src: row.get(2)?,
            dst: row.get(3)?,
            pieces: row.get(4)?,
            tenths: row.get(5)?,
            flight: row.get(6)?,
            fday: row.get(7)?,
            day: row.get(8)?,
            minute: row.get(9)?,
        })
    }
}

/// Adds a move, whose number must be free.
#[derive(Drop)]
pub struct InsertMove<'a> {
    /// The row.
    pub row: &'a MoveRow,
}

impl Write for InsertMove<'_> {
    ghost change = { λ it. with_move (move_meant it.row.now) };

    ghost runs = { λ it Ran. Ran insert_move_text (move_shown (move_meant it.row.now)) };

    fn run<S: Alter>(self, conn: &mut Connection<S>) -> Result<usize, Error> {
        conn.execute(
            "INSERT INTO moves (number, awb, src, dst, pieces, tenths, flight, fday, day, minute) VALUES (?1, ?2, ?3, ?4, ?5, ?6, ?7, ?8, ?9, ?10)",
            params![
                &self.row.number,
                &self.row.awb,
                &self.row.src,
                &self.row.dst,
                &self.row.pieces,
                &self.row.tenths,
                &self.row.flight,
                &self.row.fday,
                &self.row.day,
                &self.row.minute
            ],
        )
    }
}

/// The moves of a waybill, in order.
#[derive(Drop)]
pub struct MovesOf {
    /// The waybill's number.
    pub awb: i64,
}

impl Read for MovesOf {
    type Found = Vec<MoveRow>;

    ghost tells = { λ it tables rows. map move_meant rows.items
        ≡ filter (is_of it.awb) tables.moves };

    fn run<S: Alter>(self, conn: &mut Connection<S>) -> Result<Vec<MoveRow>, Error> {
        all_rows(
            conn,
            "SELECT number, awb, src, dst, pieces, tenths, flight, fday, day, minute FROM moves WHERE awb = ?1 ORDER BY number",
            params![&self.awb],
        )
    }
}

/// The moves that are asked for, in order.
#[derive(Drop)]
pub struct MovesFor<'a> {
    /// The moves.
    pub query: &'a MoveQuery,
}

impl Listing for MovesFor<'_> {
    type Row = MoveRow;

    ghost Item = { Move };

    ghost means = { λ movement row. move_meant row ≡ movement };

    ghost lists = { λ it tables. moves_for it.query.now tables.moves };

    fn run<S: Alter, K: Sink<MoveRow>>(
        self,
        conn: &mut Connection<S>,
        sink: &mut K,
    ) -> Result<(), Error> {
        match self.query {
            MoveQuery::All => stream::<S, MoveRow, K>(
                conn,
                "SELECT number, awb, src, dst, pieces, tenths, flight, fday, day, minute FROM moves ORDER BY number",
                &[],
                sink,
            ),
            MoveQuery::After(number) => stream::<S, MoveRow, K>(
                conn,
                "SELECT number, awb, src, dst, pieces, tenths, flight, fday, day, minute FROM moves WHERE number > ?1 ORDER BY number",
                params![number],
                sink,
            ),
            MoveQuery::Of(awb) => stream::<S, MoveRow, K>(
                conn,
                "SELECT number, awb, src, dst, pieces, tenths, flight, fday, day, minute FROM moves WHERE awb = ?1 ORDER BY number",
                params![awb],
                sink,
            ),
            MoveQuery::On(flight, day) => stream::<S, MoveRow, K>(
                conn,
                "SELECT number, awb, src, dst, pieces, tenths, flight, fday, day, minute FROM moves WHERE flight = ?1 AND fday = ?2 ORDER BY number",
                params![flight, day],
                sink,
            ),
        }
    }
}

/// Lists the moves of a flight whose numbers lie in a range, in order.
#[derive(Drop)]
pub struct MovesWithin<'a> {
    /// The flight, as it is written.
    pub flight: &'a str,
    /// Its day.
    pub day: i64,
    /// The number before the range.
    pub after: i64,
    /// The last number of the range.
    pub last: i64,
}

impl Listing for MovesWithin<'_> {
    type Row = MoveRow;

    ghost Item = { Move };

    ghost means = { λ movement row. move_meant row ≡ movement };

    ghost lists = { λ it tables.
        filter (is_flown_within it.flight.now it.day it.after it.last) tables.moves };

    fn run<S: Alter, K: Sink<MoveRow>>(
        self,
        conn: &mut Connection<S>,
        sink: &mut K,
    ) -> Result<(), Error> {
        stream::<S, MoveRow, K>(
            conn,
            "SELECT number, awb, src, dst, pieces, tenths, flight, fday, day, minute FROM moves WHERE number > ?3 AND number <= ?4 AND flight = ?1 AND fday = ?2 ORDER BY number",
            params![self.flight, &self.day, &self.after, &self.last],
            sink,
        )
    }
}
