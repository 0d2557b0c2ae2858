//! Rows of tables, handed on as readers are given them.
ghost use Rattle.std.specs.Prelude.{◌≡◌, false, IsOk, OnOk};
ghost use Rattle.table_state.specs.Common.{move_meant, message_meant, trail_meant, message, trail_row_by, book_row_by, natural};

use row_codec::{book_row_by, line_by, message_by};
use state_store::StoreFault;
use station_core::{BookRow, Message, Sink, TrailRow as ReaderLine};
use station_rows::{MessageRow, MoveRow, TrailRow};

/// Returns the result of a reader whose rows were handed on, by that of the read.
pub(crate) fn ended(read: Result<(), StoreFault>, stuck: bool) -> Result<(), StoreFault>
    ensures { OnOk result (IsOk read × (stuck ≡ false)) }
{
    read?;
    if stuck { Err(StoreFault) } else { Ok(()) }
}

/// A row of a table that readers are given in another form.
pub(crate) trait ForReaders {
    ghost use Rattle.std.specs.Prelude.{IfSome};

    /// The form that readers are given.
    type Form;

    ghost told: { Self → Self.Form };

    /// `None`: a column is out of range.
    fn told(self) -> Option<Self::Form>
        ensures { IfSome result (λ form. form ≡ told self) };
}

impl ForReaders for MoveRow {
    type Form = BookRow;

    ghost told = { λ row. book_row_by (move_meant row) };

    fn told(self) -> Option<BookRow> {
        book_row_by(&self)
    }
}

impl ForReaders for MessageRow {
    type Form = Message;

    ghost told = { λ row. message (natural row.number) (message_meant row).body };

    fn told(self) -> Option<Message> {
        message_by(self)
    }
}

impl ForReaders for TrailRow {
    type Form = ReaderLine;

    ghost told = { λ row. trail_row_by (trail_meant row) };

    fn told(self) -> Option<ReaderLine> {
        line_by(self)
    }
}

/// Hands rows on to a sink, up to the first that can't be told.
#[derive(Drop)]
pub(crate) struct Telling<'a, K> {
    sink: &'a mut K,
    // A row couldn't be told.
    stuck: bool,
}

impl<'a, K> Telling<'a, K> {
    /// Nothing was handed on yet.
    pub(crate) fn new(sink: &'a mut K) -> Telling<'a, K>
        ensures sink { result.sink.ghost_name ≡ sink.entry.ghost_name }
        ensures same { result.sink.now ≡ sink.old }
        ensures well { result.stuck ≡ false }
    {
        Telling { sink, stuck: false }
    }

    /// Returns whether a row had no meaning.
    pub(crate) fn is_stuck(&self) -> bool
        ensures { result ≡ self.now.stuck }
    {
        self.stuck
    }
}

impl<'a, Row: ForReaders + Drop, K: Sink<Row::Form>> Sink<Row> for Telling<'a, K> {
    ghost use Rattle.table_state.specs.Handing.{Tells};

    ghost takes = { λ old row go new. Tells K.takes (Row.told row) old go new };

    fn take(&mut self, row: Row) -> bool {
        match row.told() {
            None => {
                self.stuck = true;
                false
            }
            Some(form) => self.sink.take(form),
        }
    }
}
