ghost use Rattle.std.specs.Prelude.{◌≡◌, filter};
ghost use Rattle.station_rows.specs.Common.{Message};
ghost use Rattle.station_rows.specs.Meant.{message_meant, with_message, is_message_after, insert_message_text};
ghost use Rattle.station_rows.specs.Shown.{message_shown, message_read};

use crate::statements::{Listing, Write};
use row_sinks::Sink;
use sqlite::{Alter, Connection, Error, Row, params};
use station_schema::{ReadRow, stream};

/// A row of `outbox`: a message that the station sent.
#[derive(Drop)]
pub struct MessageRow {
    /// Its number, from 1. It is the key.
    pub number: i64,
    /// The text of the message.
    pub body: String,
}

impl ReadRow for MessageRow {
    ghost reads = { λ row r. message_meant r ≡ message_read row };

    fn read(row: &Row) -> Result<MessageRow, Error> {
        Ok(MessageRow {
            number: row.get(0)?,
            body: row.get(1)?,
        })
    }
}

/// Adds a message to the outbox, whose number must be free.
#[derive(Drop)]
pub struct InsertMessage<'a> {
    /// The row.
    pub row: &'a MessageRow,
}

impl Write for InsertMessage<'_> {
    ghost change = { λ it. with_message (message_meant it.row.now) };

    ghost runs = { λ it Ran. Ran insert_message_text (message_shown (message_meant it.row.now)) };

    fn run<S: Alter>(self, conn: &mut Connection<S>) -> Result<usize, Error> {
        conn.execute(
            "INSERT INTO outbox (number, body) VALUES (?1, ?2)",
            params![&self.row.number, &self.row.body],
        )
    }
}

/// The messages with a higher number, in order.
#[derive(Drop)]
pub struct MessagesAfter {
    /// The number.
    pub number: i64,
}

impl Listing for MessagesAfter {
    type Row = MessageRow;

    ghost Item = { Message };

    ghost means = { λ message row. message_meant row ≡ message };

    ghost lists = { λ it tables. filter (is_message_after it.number) tables.outbox };

    fn run<S: Alter, K: Sink<MessageRow>>(
        self,
        conn: &mut Connection<S>,
        sink: &mut K,
    ) -> Result<(), Error> {
        stream::<S, MessageRow, K>(
            conn,
            "SELECT number, body FROM outbox WHERE number > ?1 ORDER BY number",
            params![&self.number],
            sink,
        )
    }
}
