ghost use Rattle.table_load.specs.Common.{count_meant};

use crate::{Cells, KeyedRow, RowError, TableQuery};
use station_rows::CountRow;

impl KeyedRow for CountRow {
    ghost use Rattle.std.specs.Prelude.{ℕ, ℤ, List, refl};
    ghost use Rattle.station_schema.specs.Tables.{Count, CountKey, count_cmp, count_row};
    ghost use Rattle.station_rows.specs.Shown.{count_read};
    ghost use Rattle.table_load.specs.Held.{by_key, HasCountsTexts, counts_columns, counts_name};

    ghost Entry = { CountKey × Count };

    ghost meant = { count_meant };

    ghost name = { counts_name };

    ghost columns = { counts_columns };

    ghost to_row = { count_row };

    ghost from_row = { count_read };

    ghost cmp = { by_key count_cmp };

    ghost IsLawful = { HasCountsTexts };

    ghost back = { λ _. refl };

    #[tactic(auto, using(crate::proofs::Texts::counts_is, crate::proofs::Orders::counts_agrees))]
    fn query() -> TableQuery<'static> {
        TableQuery {
            text: "SELECT awb, place, pieces, tenths FROM counts ORDER BY awb, place",
            name: "counts",
            columns: &["awb", "place", "pieces", "tenths"],
            keys: 2,
        }
    }

    fn typed(cells: &mut Cells<'_>) -> Result<CountRow, RowError> {
        let row = CountRow {
            awb: cells.number()?,
            place: cells.number()?,
            pieces: cells.number()?,
            tenths: cells.number()?,
        };
        cells.end()?;
        Ok(row)
    }

    fn is_below(&self, next: &CountRow) -> bool {
        (self.awb, self.place) < (next.awb, next.place)
    }
}
