ghost use Rattle.table_load.specs.Held.{kept_key_entry};

use crate::{Cells, KeyedRow, RowError, TableQuery};

/// A row of `kept_key`. Its key is `id`.
#[derive(Drop)]
pub struct KeptKeyEntry {
    /// The key of the request.
    pub id: String,
    /// The text of the request.
    pub command: String,
    /// The count in the reply.
    pub count: i64,
}

impl KeyedRow for KeptKeyEntry {
    ghost use Rattle.std.specs.Prelude.{ℕ, ℤ, List, refl};
    ghost use Rattle.station_schema.specs.Tables.{Kept, kept_cmp, kept_row};
    ghost use Rattle.table_load.specs.Held.{by_key, HasKeptKeyTexts, kept_key_columns, kept_key_name, kept_key_back};

    ghost Entry = { List ℕ × Kept };

    ghost meant = { kept_key_entry };

    ghost name = { kept_key_name };

    ghost columns = { kept_key_columns };

    ghost to_row = { kept_row };

    ghost from_row = { kept_key_back };

    ghost cmp = { by_key kept_cmp };

    ghost IsLawful = { HasKeptKeyTexts };

    ghost back = { λ _. refl };

    #[tactic(auto, using(crate::proofs::Texts::kept_key_is, crate::proofs::Orders::kept_key_agrees))]
    fn query() -> TableQuery<'static> {
        TableQuery {
            text: "SELECT id, command, count FROM kept_key ORDER BY id",
            name: "kept_key",
            columns: &["id", "command", "count"],
            keys: 1,
        }
    }

    fn typed(cells: &mut Cells<'_>) -> Result<KeptKeyEntry, RowError> {
        let row = KeptKeyEntry {
            id: cells.text()?,
            command: cells.text()?,
            count: cells.number()?,
        };
        cells.end()?;
        Ok(row)
    }

    fn is_below(&self, next: &KeptKeyEntry) -> bool {
        self.id.as_str() < next.id.as_str()
    }
}
