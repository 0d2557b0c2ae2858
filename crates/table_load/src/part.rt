ghost use Rattle.table_load.specs.Held.{part_entry};

use crate::{Cells, KeyedRow, RowError, TableQuery};

/// A row of `part`. Its key is `flight`, `day`, `airport` and `seq`.
#[derive(Drop)]
pub struct PartEntry {
    /// The flight, in its written form.
    pub flight: String,
    /// The day of the flight.
    pub day: i64,
    /// The airport of departure.
    pub airport: String,
    /// The number of the part, from 1.
    pub seq: i64,
    /// The text of the part.
    pub body: String,
}

impl KeyedRow for PartEntry {
    ghost use Rattle.std.specs.Prelude.{ℕ, ℤ, List, refl};
    ghost use Rattle.station_schema.specs.Tables.{PartKey, part_cmp, part_row};
    ghost use Rattle.table_load.specs.Held.{by_key, HasPartTexts, part_columns, part_name, part_back};

    ghost Entry = { PartKey × List ℕ };

    ghost meant = { part_entry };

    ghost name = { part_name };

    ghost columns = { part_columns };

    ghost to_row = { part_row };

    ghost from_row = { part_back };

    ghost cmp = { by_key part_cmp };

    ghost IsLawful = { HasPartTexts };

    ghost back = { λ _. refl };

    #[tactic(auto, using(crate::proofs::Texts::part_is, crate::proofs::Orders::part_agrees))]
    fn query() -> TableQuery<'static> {
        TableQuery {
            text: "SELECT flight, day, airport, seq, body FROM part ORDER BY flight, day, airport, seq",
            name: "part",
            columns: &["flight", "day", "airport", "seq", "body"],
            keys: 4,
        }
    }

    fn typed(cells: &mut Cells<'_>) -> Result<PartEntry, RowError> {
        let row = PartEntry {
            flight: cells.text()?,
            day: cells.number()?,
            airport: cells.text()?,
            seq: cells.number()?,
            body: cells.text()?,
        };
        cells.end()?;
        Ok(row)
    }

    fn is_below(&self, next: &PartEntry) -> bool {
        (
            self.flight.as_str(),
            (self.day, (self.airport.as_str(), self.seq)),
        ) < (
            next.flight.as_str(),
            (next.day, (next.airport.as_str(), next.seq)),
        )
    }
}
