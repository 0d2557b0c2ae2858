ghost use Rattle.std.specs.Prelude.{◌≡◌, map, option_map};
ghost use Rattle.station_rows.specs.Common.{IsKeyedBy, get_by, waybill_id};
ghost use Rattle.station_rows.specs.Meant.{waybill_meant, with_waybill, changing_waybill, insert_waybill_text, update_waybill_text};
ghost use Rattle.station_rows.specs.Shown.{waybill_shown, waybill_read};

use crate::statements::{Read, Write, all_rows, first_row};
use sqlite::{Alter, Connection, Error, Row, params};
use station_schema::ReadRow;

/// A row of `waybill2`: what is declared of a waybill.
#[derive(Drop)]
pub struct WaybillRow {
    /// The waybill's number, prefix and serial in one. It is the key.
    pub awb: i64,
    /// The airport of origin.
    pub origin: String,
    /// The airport of destination.
    pub destination: String,
    /// The declared pieces.
    pub pieces: i64,
    /// The declared weight in tenths of a kilogram.
    pub tenths: i64,
    /// The nature of the goods.
    pub goods: String,
    /// 1 where the consignee was notified, else 0.
    pub notified: i64,
    /// The day on which it was last declared, or 0 where none is known.
    pub since: i64,
}

impl ReadRow for WaybillRow {
    ghost reads = { λ row r. waybill_meant r ≡ waybill_read row };

    fn read(row: &Row) -> Result<WaybillRow, Error> {
        Ok(WaybillRow {
            awb: row.get(0)?,
            origin: row.get(1)?,
            destination: row.get(2)?,
            pieces: row.get(3)?,
            tenths: row.get(4)?,
            goods: row.get(5)?,
            notified: row.get(6)?,
            since: row.get(7)?,
        })
    }
}

/// Adds what is declared of a waybill, which must not have a row yet.
#[derive(Drop)]
pub struct InsertWaybill<'a> {
    /// The row.
    pub row: &'a WaybillRow,
}

impl Write for InsertWaybill<'_> {
    ghost change = { λ it. with_waybill (waybill_meant it.row.now) };

    ghost runs = { λ it Ran. Ran insert_waybill_text (waybill_shown (waybill_meant it.row.now)) };

    fn run<S: Alter>(self, conn: &mut Connection<S>) -> Result<usize, Error> {
        conn.execute(
            "INSERT INTO waybill2 (awb, origin, destination, pieces, tenths, goods, notified, since) VALUES (?1, ?2, ?3, ?4, ?5, ?6, ?7, ?8)",
            params![
                &self.row.awb,
                &self.row.origin,
                &self.row.destination,
                &self.row.pieces,
                &self.row.tenths,
                &self.row.goods,
                &self.row.notified,
                &self.row.since
            ],
        )
    }
}

/// Gives the row of the waybill the other columns of this one, if there is one.
#[derive(Drop)]
pub struct UpdateWaybill<'a> {
    /// The row.
    pub row: &'a WaybillRow,
}

impl Write for UpdateWaybill<'_> {
    ghost change = { λ it. changing_waybill (waybill_meant it.row.now) };

    ghost runs = { λ it Ran. Ran update_waybill_text (waybill_shown (waybill_meant it.row.now)) };

    fn run<S: Alter>(self, conn: &mut Connection<S>) -> Result<usize, Error> {
        conn.execute(
            "UPDATE waybill2 SET origin = ?2, destination = ?3, pieces = ?4, tenths = ?5, goods = ?6, notified = ?7, since = ?8 WHERE awb = ?1",
            params![
                &self.row.awb,
                &self.row.origin,
                &self.row.destination,
                &self.row.pieces,
                &self.row.tenths,
                &self.row.goods,
                &self.row.notified,
                &self.row.since
            ],
        )
    }
}

/// The row of a waybill.
#[derive(Drop)]
pub struct WaybillOf {
    /// The waybill's number.
    pub awb: i64,
}

impl Read for WaybillOf {
    type Found = Option<WaybillRow>;

    ghost tells = { λ it tables found. option_map waybill_meant found
        ≡ get_by waybill_id tables.waybills it.awb };

    fn run<S: Alter>(self, conn: &mut Connection<S>) -> Result<Option<WaybillRow>, Error> {
        first_row(
            conn,
            "SELECT awb, origin, destination, pieces, tenths, goods, notified, since FROM waybill2 WHERE awb = ?1",
            params![&self.awb],
        )
    }
}

/// The row of each waybill. Their numbers ascend.
#[derive(Drop)]
pub struct AllWaybills;

impl Read for AllWaybills {
    type Found = Vec<WaybillRow>;

    ghost tells = { λ _ tables rows. (map waybill_meant rows.items ≡ tables.waybills)
        × IsKeyedBy waybill_id tables.waybills };

    fn run<S: Alter>(self, conn: &mut Connection<S>) -> Result<Vec<WaybillRow>, Error> {
        all_rows(
            conn,
            "SELECT awb, origin, destination, pieces, tenths, goods, notified, since FROM waybill2 ORDER BY awb",
            &[],
        )
    }
}
