ghost use Rattle.std.specs.Prelude.{◌≡◌, map, option_map};
ghost use Rattle.station_rows.specs.Common.{entries, get, flight_row};
ghost use Rattle.station_rows.specs.Meant.{flight_meant, noted_flight_meant, with_flight, changing_flight, insert_flight_text, update_flight_text};
ghost use Rattle.station_rows.specs.Shown.{flight_read, noted_flight_read};

use crate::statements::{Read, Write, all_rows, first_row};
use sqlite::{Alter, Connection, Error, Row, params};
use station_schema::ReadRow;

/// A row of `flight`, apart from its key: flight and day.
#[derive(Drop)]
pub struct FlightRow {
    /// The airport of unloading.
    pub unload: String,
    /// 1 where the flight has departed, else 0.
    pub closed: i64,
}

/// A row of `flight` with its key: flight and day.
#[derive(Drop)]
pub struct NotedFlightRow {
    /// The flight.
    pub flight: String,
    /// The day of the flight.
    pub day: i64,
    /// The airport of unloading.
    pub unload: String,
    /// 1 where the flight has departed, else 0.
    pub closed: i64,
}

impl ReadRow for FlightRow {
    ghost reads = { λ row r. flight_meant r ≡ flight_read row };

    fn read(row: &Row) -> Result<FlightRow, Error> {
        Ok(FlightRow {
            unload: row.get(0)?,
            closed: row.get(1)?,
        })
    }
}

impl ReadRow for NotedFlightRow {
    ghost reads = { λ row r. noted_flight_meant r ≡ noted_flight_read row };

    fn read(row: &Row) -> Result<NotedFlightRow, Error> {
        Ok(NotedFlightRow {
            flight: row.get(0)?,
            day: row.get(1)?,
            unload: row.get(2)?,
            closed: row.get(3)?,
        })
    }
}

/// Adds what is noted of a flight of a day, which must not have a row yet.
#[derive(Drop)]
pub struct InsertFlight<'a> {
    /// The flight, as it is written.
    pub flight: &'a str,
    /// Its day.
    pub day: i64,
    /// The row.
    pub row: &'a FlightRow,
}

impl Write for InsertFlight<'_> {
    ghost change = { λ it. with_flight (it.flight.now, it.day) (flight_meant it.row.now) };

    ghost runs = { λ it Ran. Ran insert_flight_text
        (flight_row ((it.flight.now, it.day), flight_meant it.row.now)) };

    fn run<S: Alter>(self, conn: &mut Connection<S>) -> Result<usize, Error> {
        let row = self.row;
        conn.execute(
            "INSERT INTO flight (flight, day, unload, closed) VALUES (?1, ?2, ?3, ?4)",
            params![self.flight, &self.day, &row.unload, &row.closed],
        )
    }
}

/// Gives the row of the flight of the day these columns, if there is one.
#[derive(Drop)]
pub struct UpdateFlight<'a> {
    /// The flight, as it is written.
    pub flight: &'a str,
    /// Its day.
    pub day: i64,
    /// The row.
    pub row: &'a FlightRow,
}

impl Write for UpdateFlight<'_> {
    ghost change = { λ it. changing_flight (it.flight.now, it.day) (flight_meant it.row.now) };

    ghost runs = { λ it Ran. Ran update_flight_text
        (flight_row ((it.flight.now, it.day), flight_meant it.row.now)) };

    fn run<S: Alter>(self, conn: &mut Connection<S>) -> Result<usize, Error> {
        let row = self.row;
        conn.execute(
            "UPDATE flight SET unload = ?3, closed = ?4 WHERE flight = ?1 AND day = ?2",
            params![self.flight, &self.day, &row.unload, &row.closed],
        )
    }
}

/// The row of a flight of a day.
#[derive(Drop)]
pub struct FlightOn<'a> {
    /// The flight, as it is written.
    pub flight: &'a str,
    /// Its day.
    pub day: i64,
}

impl Read for FlightOn<'_> {
    type Found = Option<FlightRow>;

    ghost tells = { λ it tables found. option_map flight_meant found
        ≡ get tables.flights (it.flight.now, it.day) };

    fn run<S: Alter>(self, conn: &mut Connection<S>) -> Result<Option<FlightRow>, Error> {
        first_row(
            conn,
            "SELECT unload, closed FROM flight WHERE flight = ?1 AND day = ?2",
            params![self.flight, &self.day],
        )
    }
}

/// Each flight of each day, by flight and then by day.
#[derive(Drop)]
pub struct AllFlights;

impl Read for AllFlights {
    type Found = Vec<NotedFlightRow>;

    ghost tells = { λ _ tables rows. map noted_flight_meant rows.items ≡ entries tables.flights };

    fn run<S: Alter>(self, conn: &mut Connection<S>) -> Result<Vec<NotedFlightRow>, Error> {
        all_rows(
            conn,
            "SELECT flight, day, unload, closed FROM flight ORDER BY flight, day",
            &[],
        )
    }
}
