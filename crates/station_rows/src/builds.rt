ghost use Rattle.std.specs.Prelude.{◌≡◌, map, filter, option_map, IfOk};
ghost use Rattle.station_rows.specs.Common.{entries, get, LeavesAll, Tells, build_row};
ghost use Rattle.station_rows.specs.Meant.{build_meant, with_build, changing_build, without_build, is_on, pieces_in, insert_build_text, update_build_text, delete_build_text, build_key_params};
ghost use Rattle.station_rows.specs.Shown.{build_read, pieces_shown, pieces_read};

use crate::statements::{Read, Write, all_rows, first_row};
use sqlite::{Alter, Connection, Error, Row, params};
use station_schema::ReadRow;
use std::alloc::Global;

/// A row of `build`: what a flight carries of a waybill. Its key is flight, day and waybill.
#[derive(Drop)]
pub struct BuildRow {
    /// The flight.
    pub flight: String,
    /// The day of the flight.
    pub day: i64,
    /// The waybill's number.
    pub awb: i64,
    /// The pieces that are built on it.
    pub pieces: i64,
    /// Their weight in tenths of a kilogram.
    pub tenths: i64,
}

impl ReadRow for BuildRow {
    ghost reads = { λ row r. build_meant r ≡ build_read row };

    fn read(row: &Row) -> Result<BuildRow, Error> {
        Ok(BuildRow {
            flight: row.get(0)?,
            day: row.get(1)?,
            awb: row.get(2)?,
            pieces: row.get(3)?,
            tenths: row.get(4)?,
        })
    }
}

/// Adds what a flight carries of a waybill, which must not have a row yet.
#[derive(Drop)]
pub struct InsertBuild<'a> {
    /// The row.
    pub row: &'a BuildRow,
}

impl Write for InsertBuild<'_> {
    ghost change = { λ it. with_build (build_meant it.row.now) };

    ghost runs = { λ it Ran. Ran insert_build_text (build_row (build_meant it.row.now)) };

    fn run<S: Alter>(self, conn: &mut Connection<S>) -> Result<usize, Error> {
        conn.execute(
            "INSERT INTO build (flight, day, awb, pieces, tenths) VALUES (?1, ?2, ?3, ?4, ?5)",
            params![
                &self.row.flight,
                &self.row.day,
                &self.row.awb,
                &self.row.pieces,
                &self.row.tenths
            ],
        )
    }
}

/// Gives what the flight carries of the waybill other amounts, if there is a row.
#[derive(Drop)]
pub struct UpdateBuild<'a> {
    /// The row.
    pub row: &'a BuildRow,
}

impl Write for UpdateBuild<'_> {
    ghost change = { λ it. changing_build (build_meant it.row.now) };

    ghost runs = { λ it Ran. Ran update_build_text (build_row (build_meant it.row.now)) };

    fn run<S: Alter>(self, conn: &mut Connection<S>) -> Result<usize, Error> {
        conn.execute(
            "UPDATE build SET pieces = ?4, tenths = ?5 WHERE flight = ?1 AND day = ?2 AND awb = ?3",
            params![
                &self.row.flight,
                &self.row.day,
                &self.row.awb,
                &self.row.pieces,
                &self.row.tenths
            ],
        )
    }
}

/// Removes what the flight carries of the waybill, if there is a row.
#[derive(Drop)]
pub struct DeleteBuild<'a> {
    /// The flight, as it is written.
    pub flight: &'a str,
    /// Its day.
    pub day: i64,
    /// The waybill's number.
    pub awb: i64,
}

impl Write for DeleteBuild<'_> {
    ghost change = { λ it. without_build (it.flight.now, (it.day, it.awb)) };

    ghost runs = { λ it Ran. Ran delete_build_text
        (build_key_params (it.flight.now, (it.day, it.awb))) };

    fn run<S: Alter>(self, conn: &mut Connection<S>) -> Result<usize, Error> {
        conn.execute(
            "DELETE FROM build WHERE flight = ?1 AND day = ?2 AND awb = ?3",
            params![self.flight, &self.day, &self.awb],
        )
    }
}

/// The row of a waybill on a flight.
#[derive(Drop)]
pub struct BuildOn<'a> {
    /// The flight, as it is written.
    pub flight: &'a str,
    /// Its day.
    pub day: i64,
    /// The waybill's number.
    pub awb: i64,
}

impl Read for BuildOn<'_> {
    type Found = Option<BuildRow>;

    ghost tells = { λ it tables found. option_map build_meant found
        ≡ option_map (λ v. ((it.flight.now, (it.day, it.awb)), v))
        (get tables.builds (it.flight.now, (it.day, it.awb))) };

    fn run<S: Alter>(self, conn: &mut Connection<S>) -> Result<Option<BuildRow>, Error> {
        first_row(
            conn,
            "SELECT flight, day, awb, pieces, tenths FROM build WHERE flight = ?1 AND day = ?2 AND awb = ?3",
            params![self.flight, &self.day, &self.awb],
        )
    }
}

/// The rows of a flight of a day, by waybill.
#[derive(Drop)]
pub struct BuildsOn<'a> {
    /// The flight, as it is written.
    pub flight: &'a str,
    /// Its day.
    pub day: i64,
}

impl Read for BuildsOn<'_> {
    type Found = Vec<BuildRow>;

    ghost tells = { λ it tables rows. map build_meant rows.items
        ≡ filter (is_on it.flight.now it.day) (entries tables.builds) };

    fn run<S: Alter>(self, conn: &mut Connection<S>) -> Result<Vec<BuildRow>, Error> {
        all_rows(
            conn,
            "SELECT flight, day, awb, pieces, tenths FROM build WHERE flight = ?1 AND day = ?2 ORDER BY awb",
            params![self.flight, &self.day],
        )
    }
}

fn shown_pieces_on<S: Alter>(conn: &mut Connection<S>, on: &PiecesOn<'_>) -> Result<Vec<Row>, Error>
    ensures read { Tells S.Store conn.old conn.new result
        (λ tables rows. rows.items
        ≡ map pieces_shown (map pieces_in
        (filter (is_on on.now.flight.now on.now.day) (entries tables.builds)))) }
    ensures survives { LeavesAll S.Store conn.old conn.new }
{
    conn.query_all(
        "SELECT pieces FROM build WHERE flight = ?1 AND day = ?2 ORDER BY awb",
        params![on.flight, &on.day],
    )
}

fn read_pieces(row: &Row) -> Result<i64, Error>
    ensures { IfOk result (λ pieces. pieces ≡ pieces_read row.now) }
{
    Ok(row.get(0)?)
}

fn read_all_pieces(alloc: Global, rows: &[Row]) -> Result<Vec<i64>, Error>
    ensures { IfOk result (λ all. all.items ≡ map pieces_read rows.now) }
{
    let mut all = Vec::new(alloc);
    for row in rows {
        all.push(read_pieces(row)?)?;
    }
    Ok(all)
}

/// The pieces of what a flight of a day carries, by waybill: one column alone.
#[derive(Drop)]
pub struct PiecesOn<'a> {
    /// The flight, as it is written.
    pub flight: &'a str,
    /// Its day.
    pub day: i64,
}

impl Read for PiecesOn<'_> {
    type Found = Vec<i64>;

    ghost tells = { λ it tables all. all.items
        ≡ map pieces_in (filter (is_on it.flight.now it.day) (entries tables.builds)) };

    fn run<S: Alter>(self, conn: &mut Connection<S>) -> Result<Vec<i64>, Error> {
        let rows = shown_pieces_on(conn, &self)?;
        read_all_pieces(*rows.allocator(), &rows)
    }
}
