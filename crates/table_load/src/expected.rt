ghost use Rattle.table_load.specs.Held.{expected_entry};

use crate::{Cells, KeyedRow, RowError, TableQuery};

/// A row of `expected`. Its key is `flight`, `day` and `awb`.
#[derive(Drop)]
pub struct ExpectedEntry {
    /// The flight, in its written form.
    pub flight: String,
    /// The day of the flight.
    pub day: i64,
    /// The waybill's number.
    pub awb: i64,
    /// The pieces that the manifest lists.
    pub pieces: i64,
    /// Their weight in tenths of a kilogram.
    pub tenths: i64,
    /// 1 if the waybill was checked in from this flight, otherwise 0.
    pub checked: i64,
}

impl KeyedRow for ExpectedEntry {
    ghost use Rattle.std.specs.Prelude.{ℕ, ℤ, List, refl};
    ghost use Rattle.station_schema.specs.Tables.{Expected, ExpectedKey, expected_cmp, expected_row};
    ghost use Rattle.table_load.specs.Held.{by_key, HasExpectedTexts, expected_columns, expected_name, expected_back};

    ghost Entry = { ExpectedKey × Expected };

    ghost meant = { expected_entry };

    ghost name = { expected_name };

    ghost columns = { expected_columns };

    ghost to_row = { expected_row };

    ghost from_row = { expected_back };

    ghost cmp = { by_key expected_cmp };

    ghost IsLawful = { HasExpectedTexts };

    ghost back = { λ _. refl };

    #[tactic(auto, using(crate::proofs::Texts::expected_is, crate::proofs::Orders::expected_agrees))]
    fn query() -> TableQuery<'static> {
        TableQuery {
            text: "SELECT flight, day, awb, pieces, tenths, checked FROM expected ORDER BY flight, day, awb",
            name: "expected",
            columns: &["flight", "day", "awb", "pieces", "tenths", "checked"],
            keys: 3,
        }
    }

    fn typed(cells: &mut Cells<'_>) -> Result<ExpectedEntry, RowError> {
        let row = ExpectedEntry {
            flight: cells.text()?,
            day: cells.number()?,
            awb: cells.number()?,
            pieces: cells.number()?,
            tenths: cells.number()?,
            checked: cells.number()?,
        };
        cells.end()?;
        Ok(row)
    }

    fn is_below(&self, next: &ExpectedEntry) -> bool {
        (self.flight.as_str(), (self.day, self.awb)) < (next.flight.as_str(), (next.day, next.awb))
    }
}
