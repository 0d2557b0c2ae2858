ghost use Rattle.table_load.specs.Common.{trail_meant};

use crate::{Cells, KeyedRow, RowError, TableQuery};
use station_rows::TrailRow;

impl KeyedRow for TrailRow {
    ghost use Rattle.std.specs.Prelude.{ℕ, ℤ, List, refl};
    ghost use Rattle.station_schema.specs.Tables.{TrailLine, trail_id};
    ghost use Rattle.station_rows.specs.Shown.{trail_shown, trail_read};
    ghost use Rattle.table_load.specs.Held.{by_number, HasTrailTexts, trail_columns, trail_name};

    ghost Entry = { TrailLine };

    ghost meant = { trail_meant };

    ghost name = { trail_name };

    ghost columns = { trail_columns };

    ghost to_row = { trail_shown };

    ghost from_row = { trail_read };

    ghost cmp = { by_number trail_id };

    ghost IsLawful = { HasTrailTexts };

    ghost back = { λ _. refl };

    #[tactic(auto, using(crate::proofs::Texts::trail_is, crate::proofs::Orders::trail_agrees))]
    fn query() -> TableQuery<'static> {
        TableQuery {
            text: "SELECT number, awb, line FROM trail ORDER BY number",
            name: "trail",
            columns: &["number", "awb", "line"],
            keys: 1,
        }
    }

    fn typed(cells: &mut Cells<'_>) -> Result<TrailRow, RowError> {
        let row = TrailRow {
            number: cells.number()?,
            awb: cells.number()?,
            line: cells.text()?,
        };
        cells.end()?;
        Ok(row)
    }

    fn is_below(&self, next: &TrailRow) -> bool {
        self.number < next.number
    }
}
