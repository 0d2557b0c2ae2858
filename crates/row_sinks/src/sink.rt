ghost use Rattle.std.specs.Prelude.{Bool};
ghost use Rattle.row_sinks.specs.Handed.{HandedOut};

/// A sink for the rows that a reader hands out, one after another.
pub trait Sink<Row> {
    /// The effect of a row on the sink, and whether to continue.
    ghost takes: { Self → Row → Bool → Self → Type 0 };

    /// Takes a row, and returns whether to continue.
    fn take(&mut self, row: Row) -> bool
        ensures { takes self.old row result self.new };
}

/// Hands out rows in order, until the sink stops.
pub fn hand_out<Row: Drop, S: Sink<Row>>(sink: &mut S, rows: Vec<Row>)
    ensures { HandedOut S.takes rows.items sink.old sink.new }
{
    for row in rows {
        if !sink.take(row) {
            return;
        }
    }
}
