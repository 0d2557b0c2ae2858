ghost use Rattle.table_load.specs.Held.{kept_text_entry};

use crate::{Cells, KeyedRow, RowError, TableQuery};

/// A row of `kept_text`. Its key is `body`.
#[derive(Drop)]
pub struct KeptTextEntry {
    /// The text that was accepted.
    pub body: String,
    /// The count in the reply.
    pub count: i64,
}

impl KeyedRow for KeptTextEntry {
    ghost use Rattle.std.specs.Prelude.{ℕ, ℤ, List, refl};
    ghost use Rattle.station_schema.specs.Tables.{kept_text_cmp, kept_text_row};
    ghost use Rattle.table_load.specs.Held.{by_key, HasKeptTextTexts, kept_text_columns, kept_text_name, kept_text_back};

    ghost Entry = { List ℕ × ℤ };

    ghost meant = { kept_text_entry };

    ghost name = { kept_text_name };

    ghost columns = { kept_text_columns };

    ghost to_row = { kept_text_row };

    ghost from_row = { kept_text_back };

    ghost cmp = { by_key kept_text_cmp };

    ghost IsLawful = { HasKeptTextTexts };

    ghost back = { λ _. refl };

    #[tactic(auto, using(crate::proofs::Texts::kept_text_is, crate::proofs::Orders::kept_text_agrees))]
    fn query() -> TableQuery<'static> {
        TableQuery {
            text: "SELECT body, count FROM kept_text ORDER BY body",
            name: "kept_text",
            columns: &["body", "count"],
            keys: 1,
        }
    }

    fn typed(cells: &mut Cells<'_>) -> Result<KeptTextEntry, RowError> {
        let row = KeptTextEntry {
            body: cells.text()?,
            count: cells.number()?,
        };
        cells.end()?;
        Ok(row)
    }

    fn is_below(&self, next: &KeptTextEntry) -> bool {
        self.body.as_str() < next.body.as_str()
    }
}
