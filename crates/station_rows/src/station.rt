ghost use Rattle.std.specs.Prelude.{◌≡◌, pos, option_map};
ghost use Rattle.station_rows.specs.Common.{get_by, station_id};
ghost use Rattle.station_rows.specs.Meant.{station_meant, confirming, confirm_text, confirm_params};
ghost use Rattle.station_rows.specs.Shown.{station_read};

use crate::statements::{Read, Write, first_row};
use sqlite::{Alter, Connection, Error, Row, params};
use station_schema::ReadRow;

/// The row of `station`.
#[derive(Drop)]
pub struct StationRow {
    /// Always 1.
    pub id: i64,
    /// The airport of the station.
    pub airport: String,
    /// The version of the tables.
    pub version: i64,
    /// The number of the last message that was confirmed, or 0.
    pub confirmed: i64,
}

impl ReadRow for StationRow {
    ghost reads = { λ row r. station_meant r ≡ station_read row };

    fn read(row: &Row) -> Result<StationRow, Error> {
        Ok(StationRow {
            id: row.get(0)?,
            airport: row.get(1)?,
            version: row.get(2)?,
            confirmed: row.get(3)?,
        })
    }
}

/// Sets the number of the last message that was confirmed.
#[derive(Drop)]
pub struct UpdateConfirmed {
    /// The number.
    pub confirmed: i64,
}

impl Write for UpdateConfirmed {
    ghost change = { λ it. confirming it.confirmed };

    ghost runs = { λ it Ran. Ran confirm_text (confirm_params it.confirmed) };

    fn run<S: Alter>(self, conn: &mut Connection<S>) -> Result<usize, Error> {
        conn.execute(
            "UPDATE station SET confirmed = ?1 WHERE id = 1",
            params![&self.confirmed],
        )
    }
}

/// The row of `station`.
#[derive(Drop)]
pub struct TheStation;

impl Read for TheStation {
    type Found = Option<StationRow>;

    ghost tells = { λ _ tables found. option_map station_meant found
        ≡ get_by station_id tables.stations (pos 1) };

    fn run<S: Alter>(self, conn: &mut Connection<S>) -> Result<Option<StationRow>, Error> {
        first_row(
            conn,
            "SELECT id, airport, version, confirmed FROM station WHERE id = 1",
            &[],
        )
    }
}
