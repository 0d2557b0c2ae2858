ghost use Rattle.std.specs.Prelude.{◌≡◌, ◌&&◌, is_some, IsTrue, IfSome, IfOk, OnOk};
ghost use Rattle.row_codec.specs.Common.{list_all, is_printable, is_line, message, trail_meant, message_meant};
ghost use Rattle.row_codec.specs.Flights.{natural, is_count};
ghost use Rattle.row_codec.specs.Stored.{trail_row_by, line_row, is_trail_row, message_row, is_message_row};

use crate::columns::{awb_by, count_of, text};
use crate::flights::awb_key;
use awb_number::Awb;
use shipment_machine::TrailLine;
use station_core::{Message, RowText, TrailRow as ReaderLine};
use station_rows::{MessageRow, StoreFault, TrailRow};
use std::alloc::Global;

fn prints(text: &[u8]) -> bool
    ensures { result ≡ list_all is_printable text.now }
{
    text.iter().all(|byte| 32 <= *byte && *byte <= 126)
}

/// Returns whether the text is a line of a message.
fn is_line(text: &str) -> bool
    ensures { result ≡ is_line text.now }
{
    prints(text.as_bytes()) && text.len() <= 255
}

/// Returns the row of a waybill's trail line, with its number from 1. It fails if memory runs out.
#[tactic(auto, using(crate::proofs::Fits::line_fits))]
pub fn trail_row(
    alloc: Global,
    number: u32,
    awb: &Awb,
    line: &TrailLine<'_>,
) -> Result<TrailRow, StoreFault>
    ensures value { IfOk result (λ row. trail_meant row ≡ line_row number awb.now line.now) }
    ensures lawful { IsTrue (is_trail_row (line_row number awb.now line.now)) }
{
    let (awb, line) = (awb_key(awb), line.as_bytes());
    Ok(TrailRow {
        number: i64::from(number),
        awb,
        line: text(alloc, line)?,
    })
}

/// Returns the row of a message, with its number from 1. It fails if the text isn't UTF-8, or
/// memory runs out.
pub fn message_row(alloc: Global, number: u32, message: &[u8]) -> Result<MessageRow, StoreFault>
    ensures value { IfOk result (λ row. message_meant row ≡ message_row number message.now) }
    ensures lawful { OnOk result (IsTrue (is_message_row (message_row number message.now))) }
{
    Ok(MessageRow {
        number: i64::from(number),
        body: text(alloc, message)?,
    })
}

/// Returns the waybill of a trail row, or `None` if a column is out of range.
pub fn waybill_of_line(row: &TrailRow) -> Option<Awb>
    ensures exact { is_some result ≡ is_trail_row (trail_meant row.now) }
    ensures value { IfSome result (λ awb. awb ≡ natural row.now.awb) }
{
    let awb = awb_by(row.awb)?;
    if is_line(&row.line) { Some(awb) } else { None }
}

/// Returns a trail line with its number, as readers do, or `None` if a column is out of range.
pub fn line_by(row: TrailRow) -> Option<ReaderLine>
    ensures exact { is_some result ≡ is_count row.number && is_trail_row (trail_meant row) }
    ensures value { IfSome result (λ line. line ≡ trail_row_by (trail_meant row)) }
{
    let number = count_of(row.number)?;
    let awb = waybill_of_line(&row)?;
    Some(ReaderLine {
        number,
        awb,
        line: RowText::new(row.line.into_bytes()),
    })
}

/// Returns a message, as readers do, or `None` if its number is out of range.
pub fn message_by(row: MessageRow) -> Option<Message>
    ensures exact { is_some result ≡ is_count row.number }
    ensures value { IfSome result (λ one. one
        ≡ message (natural row.number) (message_meant row).body) }
{
    let number = count_of(row.number)?;
    Some(Message {
        number,
        text: RowText::new(row.body.into_bytes()),
    })
}
