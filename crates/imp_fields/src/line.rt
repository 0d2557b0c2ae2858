ghost use Rattle.std.specs.Prelude.{◌≡◌, ◌≤◌, length, IsTrue};
ghost use Rattle.imp_fields.specs.Fields.{IsSlice, is_line_token, most_lines};
ghost use Rattle.imp_fields.specs.Common.{list_all};

use crate::airport::Airport;
use crate::amount::{BookTenths, Pieces, Quantity};
use awb_number::Awb;

/// A slice of a source text, with its position. The end is exclusive.
///
/// The source of a line of `Lines` is the telegram; that of a field is its line.
#[derive(Clone, Copy, Debug)]
pub struct Token<'a> {
    pub start: usize,
    pub end: usize,
    pub text: &'a [u8],
}

impl<'a> Token<'a> {
    /// Returns the slice of a source from `start` to `end`.
    pub fn new(source: &'a [u8], start: usize, end: usize) -> Token<'a>
        requires ordered { start ≤ end }
        requires within { end ≤ length source.now }
        ensures slice { IsSlice source.now result }
        ensures start { result.start ≡ start }
        ensures end { result.end ≡ end }
    {
        Token {
            start,
            end,
            text: &source[start..end],
        }
    }
}

/// A discrepancy between goods and documents.
#[derive(Clone, Copy, Debug)]
pub enum Discrepancy {
    /// OFLD, offloaded.
    Offloaded,
    /// MSCA, missing.
    Missing,
    /// FDCA, found.
    Found,
}

/// A waybill as written messages name it: its number and route, and the declared pieces and weight,
/// without the goods.
#[derive(Clone, Copy)]
pub struct WaybillSummary {
    pub awb: Awb,
    pub origin: Airport,
    pub destination: Airport,
    pub pieces: Pieces,
    pub tenths: BookTenths,
}

/// The kind of a message.
#[derive(Clone, Copy, Debug)]
pub enum MessageKind {
    /// FWB, waybill data.
    Fwb,
    /// FFM, the manifest of a flight.
    Ffm,
    /// FSU, a status update.
    Fsu,
}

/// The normal text of a telegram: its lines from the message line on, as slices of its bytes. There
/// are at most 1,000, each of at most 255 bytes of printable ASCII.
#[derive(Drop)]
pub struct Lines<'a> {
    pub kind: MessageKind,
    pub lines: Vec<Token<'a>>,
    pub ghost few: { length lines.items ≤ most_lines },
    pub ghost printable: { IsTrue (list_all is_line_token lines.items) },
}

/// A consignment line: the values of its fields, and their positions in the line.
#[derive(Clone, Copy, Debug)]
pub struct Consignment<'a> {
    pub awb: Awb,
    pub origin: Airport,
    pub destination: Airport,
    pub quantity: Quantity,
    pub number_text: Token<'a>,
    pub origin_text: Token<'a>,
    pub destination_text: Token<'a>,
    pub quantity_text: Token<'a>,
    /// The text after the second slash.
    pub goods: Token<'a>,
}
