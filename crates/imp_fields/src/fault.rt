//! Faults of texts.
ghost use Rattle.std.specs.Prelude.{◌≡◌, Some};
ghost use Rattle.imp_fields.specs.Message.{why_word, fault_at};

use std::fmt;

/// The reason why a telegram can't be read.
#[derive(Clone, Copy, Debug, PartialEq, Eq)]
pub enum Why {
    /// The text has more than 65,536 bytes.
    Size,
    /// The text has more than 1,000 lines.
    Lines,
    /// The line has a byte that isn't printable ASCII.
    Byte,
    /// The line has more than 255 bytes.
    Long,
    /// None of the first eleven lines begins an FWB, an FFM or an FSU.
    Kind,
    /// A required line is missing.
    Ending,
    /// The message line isn't three letters, a slash and one to three digits.
    Head,
    /// The line doesn't have the form of a consignment line.
    Consignment,
    /// The waybill number has a wrong check digit.
    Number,
    /// The quantity of a consignment line can't be read.
    Quantity,
    /// The consignment line of an FWB gives no weight.
    Weight,
    /// The date of a flight line can't be read.
    Date,
    /// Another field of a flight line is missing or can't be read.
    Flight,
    /// A consignment line comes before the first airport of unloading.
    Order,
    /// Memory ran out, which says nothing about the text.
    Memory,
}

/// Written as a word such as `ending`, and for `Memory` as an empty text.
impl fmt::Display for Why {
    ghost output = { λ why. Some (why_word why) };

    fn fmt<W: fmt::Write>(&self, f: &mut fmt::Formatter<W>) -> fmt::Result {
        f.write_str(match self {
            Why::Size => "size",
            Why::Lines => "lines",
            Why::Byte => "byte",
            Why::Long => "long",
            Why::Kind => "kind",
            Why::Ending => "ending",
            Why::Head => "head",
            Why::Consignment => "consignment",
            Why::Number => "number",
            Why::Quantity => "quantity",
            Why::Weight => "weight",
            Why::Date => "date",
            Why::Flight => "flight",
            Why::Order => "order",
            Why::Memory => "",
        })
    }
}

/// The first fault of a text, with its line, counted from 1. Line 0 is the whole text.
#[derive(Clone, Copy, PartialEq, Eq)]
pub struct TextFault {
    pub line: u32,
    pub why: Why,
}

/// Returns the fault of a line, counted from 1, or of the whole text as line 0.
pub fn fault_at(line: u32, why: Why) -> TextFault
    ensures { result ≡ fault_at line why }
{
    TextFault { line, why }
}
