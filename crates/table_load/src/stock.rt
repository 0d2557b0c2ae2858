ghost use Rattle.table_load.specs.Common.{stock_meant};

use crate::{Cells, KeyedRow, RowError, TableQuery};
use station_rows::StockRow;

impl KeyedRow for StockRow {
    ghost use Rattle.std.specs.Prelude.{ℕ, ℤ, List, refl};
    ghost use Rattle.station_schema.specs.Tables.{Stock, StockKey, stock_cmp, stock_row};
    ghost use Rattle.station_rows.specs.Shown.{stock_read};
    ghost use Rattle.table_load.specs.Held.{by_key, HasStockTexts, stock_columns, stock_name};

    ghost Entry = { StockKey × Stock };

    ghost meant = { stock_meant };

    ghost name = { stock_name };

    ghost columns = { stock_columns };

    ghost to_row = { stock_row };

    ghost from_row = { stock_read };

    ghost cmp = { by_key stock_cmp };

    ghost IsLawful = { HasStockTexts };

    ghost back = { λ _. refl };

    #[tactic(auto, using(crate::proofs::Texts::stock_is, crate::proofs::Orders::stock_agrees))]
    fn query() -> TableQuery<'static> {
        TableQuery {
            text: "SELECT prefix, low, high, holder, agent FROM stock ORDER BY prefix, low",
            name: "stock",
            columns: &["prefix", "low", "high", "holder", "agent"],
            keys: 2,
        }
    }

    fn typed(cells: &mut Cells<'_>) -> Result<StockRow, RowError> {
        let row = StockRow {
            prefix: cells.number()?,
            low: cells.number()?,
            high: cells.number()?,
            holder: cells.number()?,
            agent: cells.text()?,
        };
        cells.end()?;
        Ok(row)
    }

    fn is_below(&self, next: &StockRow) -> bool {
        (self.prefix, self.low) < (next.prefix, next.low)
    }
}
