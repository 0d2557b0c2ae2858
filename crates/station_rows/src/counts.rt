ghost use Rattle.std.specs.Prelude.{◌≡◌, map, filter, option_map};
ghost use Rattle.station_rows.specs.Common.{entries, count_row, get};
ghost use Rattle.station_rows.specs.Meant.{count_meant, with_count, changing_count, without_count, counts_for, insert_count_text, update_count_text, delete_count_text, count_key_params};
ghost use Rattle.station_rows.specs.Shown.{count_read};

use crate::statements::{Read, Write, all_rows, first_row};
use sqlite::{Alter, Connection, Error, Row, params};
use station_schema::ReadRow;

/// A row of `counts`: what a waybill has at a place. Its key is waybill and place.
#[derive(Drop)]
pub struct CountRow {
    /// The waybill's number.
    pub awb: i64,
    /// The place, by its number.
    pub place: i64,
    /// The pieces there.
    pub pieces: i64,
    /// Their weight in tenths of a kilogram.
    pub tenths: i64,
}

impl ReadRow for CountRow {
    ghost reads = { λ row r. count_meant r ≡ count_read row };

    fn read(row: &Row) -> Result<CountRow, Error> {
        Ok(CountRow {
            awb: row.get(0)?,
            place: row.get(1)?,
            pieces: row.get(2)?,
            tenths: row.get(3)?,
        })
    }
}

/// Adds what a waybill has at a place, where it has no row yet.
#[derive(Drop)]
pub struct InsertCount<'a> {
    /// The row.
    pub row: &'a CountRow,
}

impl Write for InsertCount<'_> {
    ghost change = { λ it. with_count (count_meant it.row.now) };

    ghost runs = { λ it Ran. Ran insert_count_text (count_row (count_meant it.row.now)) };

    fn run<S: Alter>(self, conn: &mut Connection<S>) -> Result<usize, Error> {
        conn.execute(
            "INSERT INTO counts (awb, place, pieces, tenths) VALUES (?1, ?2, ?3, ?4)",
            params![
                &self.row.awb,
                &self.row.place,
                &self.row.pieces,
                &self.row.tenths
            ],
        )
    }
}

/// Gives what the waybill has at the place other amounts, if it has a row.
#[derive(Drop)]
pub struct UpdateCount<'a> {
    /// The row.
    pub row: &'a CountRow,
}

impl Write for UpdateCount<'_> {
    ghost change = { λ it. changing_count (count_meant it.row.now) };

    ghost runs = { λ it Ran. Ran update_count_text (count_row (count_meant it.row.now)) };

    fn run<S: Alter>(self, conn: &mut Connection<S>) -> Result<usize, Error> {
        conn.execute(
            "UPDATE counts SET pieces = ?3, tenths = ?4 WHERE awb = ?1 AND place = ?2",
            params![
                &self.row.awb,
                &self.row.place,
                &self.row.pieces,
                &self.row.tenths
            ],
        )
    }
}

/// Removes what the waybill has at the place, if it has a row.
#[derive(Drop)]
pub struct DeleteCount {
    /// The waybill's number.
    pub awb: i64,
    /// The place, by its number.
    pub place: i64,
}

impl Write for DeleteCount {
    ghost change = { λ it. without_count (it.awb, it.place) };

    ghost runs = { λ it Ran. Ran delete_count_text (count_key_params (it.awb, it.place)) };

    fn run<S: Alter>(self, conn: &mut Connection<S>) -> Result<usize, Error> {
        conn.execute(
            "DELETE FROM counts WHERE awb = ?1 AND place = ?2",
            params![&self.awb, &self.place],
        )
    }
}

/// The amounts of a waybill, by place.
#[derive(Drop)]
pub struct CountsOf {
    /// The waybill's number.
    pub awb: i64,
}

impl Read for CountsOf {
    type Found = Vec<CountRow>;

    ghost tells = { λ it tables rows. map count_meant rows.items
        ≡ filter (counts_for it.awb) (entries tables.counts) };

    fn run<S: Alter>(self, conn: &mut Connection<S>) -> Result<Vec<CountRow>, Error> {
        all_rows(
            conn,
            "SELECT awb, place, pieces, tenths FROM counts WHERE awb = ?1 ORDER BY place",
            params![&self.awb],
        )
    }
}

/// The amounts of all waybills, by waybill and then by place.
#[derive(Drop)]
pub struct AllCounts;

impl Read for AllCounts {
    type Found = Vec<CountRow>;

    ghost tells = { λ _ tables rows. map count_meant rows.items ≡ entries tables.counts };

    fn run<S: Alter>(self, conn: &mut Connection<S>) -> Result<Vec<CountRow>, Error> {
        all_rows(
            conn,
            "SELECT awb, place, pieces, tenths FROM counts ORDER BY awb, place",
            &[],
        )
    }
}

/// Reads the balance of a waybill at a place.
#[derive(Drop)]
pub struct CountAt {
    /// The waybill's number.
    pub awb: i64,
    /// The place, by its number.
    pub place: i64,
}

impl Read for CountAt {
    type Found = Option<CountRow>;

    ghost tells = { λ it tables found. option_map count_meant found
        ≡ option_map (λ v. ((it.awb, it.place), v)) (get tables.counts (it.awb, it.place)) };

    fn run<S: Alter>(self, conn: &mut Connection<S>) -> Result<Option<CountRow>, Error> {
        first_row(
            conn,
            "SELECT awb, place, pieces, tenths FROM counts WHERE awb = ?1 AND place = ?2",
            params![&self.awb, &self.place],
        )
    }
}
