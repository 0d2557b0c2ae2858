ghost use Rattle.table_load.specs.Common.{build_meant};

use crate::{Cells, KeyedRow, RowError, TableQuery};
use station_rows::BuildRow;

impl KeyedRow for BuildRow {
    ghost use Rattle.std.specs.Prelude.{ℕ, ℤ, List, refl};
    ghost use Rattle.station_schema.specs.Tables.{Build, BuildKey, build_cmp, build_row};
    ghost use Rattle.station_rows.specs.Shown.{build_read};
    ghost use Rattle.table_load.specs.Held.{by_key, HasBuildTexts, build_columns, build_name};

    ghost Entry = { BuildKey × Build };

    ghost meant = { build_meant };

    ghost name = { build_name };

    ghost columns = { build_columns };

    ghost to_row = { build_row };

    ghost from_row = { build_read };

    ghost cmp = { by_key build_cmp };

    ghost IsLawful = { HasBuildTexts };

    ghost back = { λ _. refl };

    #[tactic(auto, using(crate::proofs::Texts::build_is, crate::proofs::Orders::build_agrees))]
    fn query() -> TableQuery<'static> {
        TableQuery {
            text: "SELECT flight, day, awb, pieces, tenths FROM build ORDER BY flight, day, awb",
            name: "build",
            columns: &["flight", "day", "awb", "pieces", "tenths"],
            keys: 3,
        }
    }

    fn typed(cells: &mut Cells<'_>) -> Result<BuildRow, RowError> {
        let row = BuildRow {
            flight: cells.text()?,
            day: cells.number()?,
            awb: cells.number()?,
            pieces: cells.number()?,
            tenths: cells.number()?,
        };
        cells.end()?;
        Ok(row)
    }

    fn is_below(&self, next: &BuildRow) -> bool {
        (self.flight.as_str(), (self.day, self.awb)) < (next.flight.as_str(), (next.day, next.awb))
    }
}
