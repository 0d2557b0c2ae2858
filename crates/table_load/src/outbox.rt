ghost use Rattle.table_load.specs.Common.{message_meant};

use crate::{Cells, KeyedRow, RowError, TableQuery};
use station_rows::MessageRow;

impl KeyedRow for MessageRow {
    ghost use Rattle.std.specs.Prelude.{ℕ, ℤ, List, refl};
    ghost use Rattle.station_schema.specs.Tables.{Message, message_id};
    ghost use Rattle.station_rows.specs.Shown.{message_shown, message_read};
    ghost use Rattle.table_load.specs.Held.{by_number, HasOutboxTexts, outbox_columns, outbox_name};

    ghost Entry = { Message };

    ghost meant = { message_meant };

    ghost name = { outbox_name };

    ghost columns = { outbox_columns };

    ghost to_row = { message_shown };

    ghost from_row = { message_read };

    ghost cmp = { by_number message_id };

    ghost IsLawful = { HasOutboxTexts };

    ghost back = { λ _. refl };

    #[tactic(auto, using(crate::proofs::Texts::outbox_is, crate::proofs::Orders::outbox_agrees))]
    fn query() -> TableQuery<'static> {
        TableQuery {
            text: "SELECT number, body FROM outbox ORDER BY number",
            name: "outbox",
            columns: &["number", "body"],
            keys: 1,
        }
    }

    fn typed(cells: &mut Cells<'_>) -> Result<MessageRow, RowError> {
        let row = MessageRow {
            number: cells.number()?,
            body: cells.text()?,
        };
        cells.end()?;
        Ok(row)
    }

    fn is_below(&self, next: &MessageRow) -> bool {
        self.number < next.number
    }
}
