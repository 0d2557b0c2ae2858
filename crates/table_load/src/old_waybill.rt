ghost use Rattle.table_load.specs.Held.{old_waybill_entry};

use crate::{Cells, KeyedRow, RowError, TableQuery};

/// A row of `waybill`, in a file of version 1. Its key is `awb`.
#[derive(Drop)]
pub struct OldWaybillEntry {
    /// The waybill's number without its check digit.
    pub awb: i64,
    pub origin: String,
    pub destination: String,
    pub pieces: i64,
    /// The weight in tenths of a kilogram.
    pub tenths: i64,
    pub goods: String,
    /// 1 if the consignee was notified, otherwise 0.
    pub notified: i64,
}

impl KeyedRow for OldWaybillEntry {
    ghost use Rattle.std.specs.Prelude.{ℕ, ℤ, List, refl};
    ghost use Rattle.station_schema.specs.Tables.{OldWaybill, old_waybill_id};
    ghost use Rattle.table_load.specs.Held.{by_number, HasOldWaybillTexts, old_waybill_columns, old_waybill_name, old_waybill_shown, old_waybill_back};

    ghost Entry = { OldWaybill };

    ghost meant = { old_waybill_entry };

    ghost name = { old_waybill_name };

    ghost columns = { old_waybill_columns };

    ghost to_row = { old_waybill_shown };

    ghost from_row = { old_waybill_back };

    ghost cmp = { by_number old_waybill_id };

    ghost IsLawful = { HasOldWaybillTexts };

    ghost back = { λ _. refl };

    #[tactic(auto, using(crate::proofs::Texts::old_waybill_is, crate::proofs::Orders::old_waybill_agrees))]
    fn query() -> TableQuery<'static> {
        TableQuery {
            text: "SELECT awb, origin, destination, pieces, tenths, goods, notified FROM waybill ORDER BY awb",
            name: "waybill",
            columns: &[
                "awb",
                "origin",
                "destination",
                "pieces",
                "tenths",
                "goods",
                "notified",
            ],
            keys: 1,
        }
    }

    fn typed(cells: &mut Cells<'_>) -> Result<OldWaybillEntry, RowError> {
        let row = OldWaybillEntry {
            awb: cells.number()?,
            origin: cells.text()?,
            destination: cells.text()?,
            pieces: cells.number()?,
            tenths: cells.number()?,
            goods: cells.text()?,
            notified: cells.number()?,
        };
        cells.end()?;
        Ok(row)
    }

    fn is_below(&self, next: &OldWaybillEntry) -> bool {
        self.awb < next.awb
    }
}
