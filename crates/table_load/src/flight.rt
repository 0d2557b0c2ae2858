ghost use Rattle.table_load.specs.Held.{flight_entry};

use crate::{Cells, KeyedRow, RowError, TableQuery};

/// A row of `flight`. Its key is `flight` and `day`.
#[derive(Drop)]
pub struct FlightEntry {
    /// The flight, in its written form.
    pub flight: String,
    /// The day of the flight.
    pub day: i64,
    /// The airport of unloading.
    pub unload: String,
    /// 1 if the flight has departed, otherwise 0.
    pub closed: i64,
}

impl KeyedRow for FlightEntry {
    ghost use Rattle.std.specs.Prelude.{ℕ, ℤ, List, refl};
    ghost use Rattle.station_schema.specs.Tables.{Flight, FlightKey, flight_cmp, flight_row};
    ghost use Rattle.table_load.specs.Held.{by_key, HasFlightTexts, flight_columns, flight_name, flight_back};

    ghost Entry = { FlightKey × Flight };

    ghost meant = { flight_entry };

    ghost name = { flight_name };

    ghost columns = { flight_columns };

    ghost to_row = { flight_row };

    ghost from_row = { flight_back };

    ghost cmp = { by_key flight_cmp };

    ghost IsLawful = { HasFlightTexts };

    ghost back = { λ _. refl };

    #[tactic(auto, using(crate::proofs::Texts::flight_is, crate::proofs::Orders::flight_agrees))]
    fn query() -> TableQuery<'static> {
        TableQuery {
            text: "SELECT flight, day, unload, closed FROM flight ORDER BY flight, day",
            name: "flight",
            columns: &["flight", "day", "unload", "closed"],
            keys: 2,
        }
    }

    fn typed(cells: &mut Cells<'_>) -> Result<FlightEntry, RowError> {
        let row = FlightEntry {
            flight: cells.text()?,
            day: cells.number()?,
            unload: cells.text()?,
            closed: cells.number()?,
        };
        cells.end()?;
        Ok(row)
    }

    fn is_below(&self, next: &FlightEntry) -> bool {
        (self.flight.as_str(), self.day) < (next.flight.as_str(), next.day)
    }
}
