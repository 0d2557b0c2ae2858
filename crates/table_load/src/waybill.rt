ghost use Rattle.table_load.specs.Common.{waybill_meant};

use crate::{Cells, KeyedRow, RowError, TableQuery};
use station_rows::WaybillRow;

impl KeyedRow for WaybillRow {
    ghost use Rattle.std.specs.Prelude.{ℕ, ℤ, List, refl};
    ghost use Rattle.station_schema.specs.Tables.{Waybill, waybill_id};
    ghost use Rattle.station_rows.specs.Shown.{waybill_shown, waybill_read};
    ghost use Rattle.table_load.specs.Held.{by_number, HasWaybillTexts, waybill_columns, waybill_name};

    ghost Entry = { Waybill };

    ghost meant = { waybill_meant };

    ghost name = { waybill_name };

    ghost columns = { waybill_columns };

    ghost to_row = { waybill_shown };

    ghost from_row = { waybill_read };

    ghost cmp = { by_number waybill_id };

    ghost IsLawful = { HasWaybillTexts };

    ghost back = { λ _. refl };

    #[tactic(auto, using(crate::proofs::Texts::waybill_is, crate::proofs::Orders::waybill_agrees))]
    fn query() -> TableQuery<'static> {
        TableQuery {
            text: "SELECT awb, origin, destination, pieces, tenths, goods, notified, since FROM waybill2 ORDER BY awb",
            name: "waybill2",
            columns: &[
                "awb",
                "origin",
                "destination",
                "pieces",
                "tenths",
                "goods",
                "notified",
                "since",
            ],
            keys: 1,
        }
    }

    fn typed(cells: &mut Cells<'_>) -> Result<WaybillRow, RowError> {
        let row = WaybillRow {
            awb: cells.number()?,
            origin: cells.text()?,
            destination: cells.text()?,
            pieces: cells.number()?,
            tenths: cells.number()?,
            goods: cells.text()?,
            notified: cells.number()?,
            since: cells.number()?,
        };
        cells.end()?;
        Ok(row)
    }

    fn is_below(&self, next: &WaybillRow) -> bool {
        self.awb < next.awb
    }
}
