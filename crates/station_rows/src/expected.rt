ghost use Rattle.std.specs.Prelude.{◌≡◌, map, filter, option_map};
ghost use Rattle.station_rows.specs.Common.{entries, get, expected_row};
ghost use Rattle.station_rows.specs.Meant.{expected_meant, listed_waybill_meant, with_expected, changing_expected, is_listed_on, insert_expected_text, update_expected_text};
ghost use Rattle.station_rows.specs.Shown.{expected_read, listed_waybill_read};

use crate::statements::{Read, Write, all_rows, first_row};
use sqlite::{Alter, Connection, Error, Row, params};
use station_schema::ReadRow;

/// A row of `expected`, apart from its key: flight, day and waybill.
#[derive(Drop)]
pub struct ExpectedRow {
    /// The pieces that the manifest lists.
    pub pieces: i64,
    /// Their weight in tenths of a kilogram.
    pub tenths: i64,
    /// 1 where the waybill was checked in from this flight, else 0.
    pub checked: i64,
}

/// A row of `expected` with its key: flight, day and waybill.
#[derive(Drop)]
pub struct ListedWaybillRow {
    /// The flight.
    pub flight: String,
    /// The day of the flight.
    pub day: i64,
    /// The waybill's number.
    pub awb: i64,
    /// The pieces that the manifest lists.
    pub pieces: i64,
    /// Their weight in tenths of a kilogram.
    pub tenths: i64,
    /// 1 where the waybill was checked in from this flight, else 0.
    pub checked: i64,
}

impl ReadRow for ExpectedRow {
    ghost reads = { λ row r. expected_meant r ≡ expected_read row };

    fn read(row: &Row) -> Result<ExpectedRow, Error> {
        Ok(ExpectedRow {
            pieces: row.get(0)?,
            tenths: row.get(1)?,
            checked: row.get(2)?,
        })
    }
}

impl ReadRow for ListedWaybillRow {
    ghost reads = { λ row r. listed_waybill_meant r ≡ listed_waybill_read row };

    fn read(row: &Row) -> Result<ListedWaybillRow, Error> {
        Ok(ListedWaybillRow {
            flight: row.get(0)?,
            day: row.get(1)?,
            awb: row.get(2)?,
            pieces: row.get(3)?,
            tenths: row.get(4)?,
            checked: row.get(5)?,
        })
    }
}

/// Adds what a flight is to bring of a waybill, which must not have a row yet.
#[derive(Drop)]
pub struct InsertExpected<'a> {
    /// The flight, as it is written.
    pub flight: &'a str,
    /// Its day.
    pub day: i64,
    /// The waybill's number.
    pub awb: i64,
    /// The row.
    pub row: &'a ExpectedRow,
}

impl Write for InsertExpected<'_> {
    ghost change = { λ it. with_expected (it.flight.now, (it.day, it.awb))
        (expected_meant it.row.now) };

    ghost runs = { λ it Ran. Ran insert_expected_text
        (expected_row ((it.flight.now, (it.day, it.awb)), expected_meant it.row.now)) };

    fn run<S: Alter>(self, conn: &mut Connection<S>) -> Result<usize, Error> {
        let row = self.row;
        conn.execute(
            "INSERT INTO expected (flight, day, awb, pieces, tenths, checked) VALUES (?1, ?2, ?3, ?4, ?5, ?6)",
            params![
                self.flight,
                &self.day,
                &self.awb,
                &row.pieces,
                &row.tenths,
                &row.checked
            ],
        )
    }
}

/// Gives what the flight is to bring of the waybill these columns, if there is a row.
#[derive(Drop)]
pub struct UpdateExpected<'a> {
    /// The flight, as it is written.
    pub flight: &'a str,
    /// Its day.
    pub day: i64,
    /// The waybill's number.
    pub awb: i64,
    /// The row.
    pub row: &'a ExpectedRow,
}

impl Write for UpdateExpected<'_> {
    ghost change = { λ it. changing_expected (it.flight.now, (it.day, it.awb))
        (expected_meant it.row.now) };

    ghost runs = { λ it Ran. Ran update_expected_text
        (expected_row ((it.flight.now, (it.day, it.awb)), expected_meant it.row.now)) };

    fn run<S: Alter>(self, conn: &mut Connection<S>) -> Result<usize, Error> {
        let row = self.row;
        conn.execute(
            "UPDATE expected SET pieces = ?4, tenths = ?5, checked = ?6 WHERE flight = ?1 AND day = ?2 AND awb = ?3",
            params![
                self.flight,
                &self.day,
                &self.awb,
                &row.pieces,
                &row.tenths,
                &row.checked
            ],
        )
    }
}

/// The row of a waybill that a flight is to bring.
#[derive(Drop)]
pub struct ExpectedOn<'a> {
    /// The flight, as it is written.
    pub flight: &'a str,
    /// Its day.
    pub day: i64,
    /// The waybill's number.
    pub awb: i64,
}

impl Read for ExpectedOn<'_> {
    type Found = Option<ExpectedRow>;

    ghost tells = { λ it tables found. option_map expected_meant found
        ≡ get tables.expected (it.flight.now, (it.day, it.awb)) };

    fn run<S: Alter>(self, conn: &mut Connection<S>) -> Result<Option<ExpectedRow>, Error> {
        first_row(
            conn,
            "SELECT pieces, tenths, checked FROM expected WHERE flight = ?1 AND day = ?2 AND awb = ?3",
            params![self.flight, &self.day, &self.awb],
        )
    }
}

/// The rows of what a flight of a day is to bring, by waybill.
#[derive(Drop)]
pub struct ExpectedOnFlight<'a> {
    /// The flight, as it is written.
    pub flight: &'a str,
    /// Its day.
    pub day: i64,
}

impl Read for ExpectedOnFlight<'_> {
    type Found = Vec<ListedWaybillRow>;

    ghost tells = { λ it tables rows. map listed_waybill_meant rows.items
        ≡ filter (is_listed_on it.flight.now it.day) (entries tables.expected) };

    fn run<S: Alter>(self, conn: &mut Connection<S>) -> Result<Vec<ListedWaybillRow>, Error> {
        all_rows(
            conn,
            "SELECT flight, day, awb, pieces, tenths, checked FROM expected WHERE flight = ?1 AND day = ?2 ORDER BY awb",
            params![self.flight, &self.day],
        )
    }
}

/// All rows of expectations, by flight, then by day, then by waybill.
#[derive(Drop)]
pub struct AllExpected;

impl Read for AllExpected {
    type Found = Vec<ListedWaybillRow>;

    ghost tells = { λ _ tables rows. map listed_waybill_meant rows.items
        ≡ entries tables.expected };

    fn run<S: Alter>(self, conn: &mut Connection<S>) -> Result<Vec<ListedWaybillRow>, Error> {
        all_rows(
            conn,
            "SELECT flight, day, awb, pieces, tenths, checked FROM expected ORDER BY flight, day, awb",
            &[],
        )
    }
}
