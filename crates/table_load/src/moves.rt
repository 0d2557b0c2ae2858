ghost use Rattle.table_load.specs.Common.{move_meant};

use crate::{Cells, KeyedRow, RowError, TableQuery};
use station_rows::MoveRow;

impl KeyedRow for MoveRow {
    ghost use Rattle.std.specs.Prelude.{ℕ, ℤ, List, refl};
    ghost use Rattle.station_schema.specs.Tables.{Move, move_id};
    ghost use Rattle.station_rows.specs.Shown.{move_shown, move_read};
    ghost use Rattle.table_load.specs.Held.{by_number, HasMovesTexts, moves_columns, moves_name};

    ghost Entry = { Move };

    ghost meant = { move_meant };

    ghost name = { moves_name };

    ghost columns = { moves_columns };

    ghost to_row = { move_shown };

    ghost from_row = { move_read };

    ghost cmp = { by_number move_id };

    ghost IsLawful = { HasMovesTexts };

    ghost back = { λ _. refl };

    #[tactic(auto, using(crate::proofs::Texts::moves_is, crate::proofs::Orders::moves_agrees))]
    fn query() -> TableQuery<'static> {
        TableQuery {
            text: "SELECT number, awb, src, dst, pieces, tenths, flight, fday, day, minute FROM moves ORDER BY number",
            name: "moves",
            columns: &[
                "number", "awb", "src", "dst", "pieces", "tenths", "flight", "fday", "day",
                "minute",
            ],
            keys: 1,
        }
    }

    fn typed(cells: &mut Cells<'_>) -> Result<MoveRow, RowError> {
        let row = MoveRow {
            number: cells.number()?,
            awb: cells.number()?,
            src: cells.number()?,
            dst: cells.number()?,
            pieces: cells.number()?,
            tenths: cells.number()?,
            flight: cells.text()?,
            fday: cells.number()?,
            day: cells.number()?,
            minute: cells.number()?,
        };
        cells.end()?;
        Ok(row)
    }

    fn is_below(&self, next: &MoveRow) -> bool {
        self.number < next.number
    }
}
