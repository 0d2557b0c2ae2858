ghost use Rattle.std.specs.Prelude.{◌≡◌, ◌≤◌, IsTrue, length};
ghost use Rattle.shipment_machine.specs.Common.{list_all, is_line, most_lines};

use std::marker::Model;

/// A borrowed line of a waybill's trail, as in a status message (Cargo-IMP FSU): 0 to 255 bytes of
/// printable ASCII.
#[derive(Drop)]
pub struct TrailLine<'a> {
    bytes: &'a [u8],
}

impl<'a> Model for TrailLine<'a> {
    ghost use Rattle.std.specs.Prelude.{List, ℕ, IsTrue};
    ghost use Rattle.imp_fields.specs.Fields.{is_line};

    ghost Value = { List ℕ };

    ghost view = { λ a. a.bytes.now };

    ghost invariant = { λ a. IsTrue (is_line a.bytes.now) };
}

impl<'a> TrailLine<'a> {
    /// Wraps borrowed bytes.
    pub fn new(bytes: &'a [u8]) -> TrailLine<'a>
        requires printable { IsTrue (is_line bytes.now) }
        ensures value { result ≡ bytes.now }
    {
        TrailLine { bytes }
    }

    /// The bytes of the line.
    pub fn as_bytes(&self) -> &'a [u8]
        ensures value { result.now ≡ self.now }
        ensures printable { IsTrue (is_line result.now) }
    {
        self.bytes
    }
}

/// The lines after the consignment line of a status message, at most 1,000.
#[derive(Drop)]
pub struct TrailLines<'a> {
    lines: &'a [TrailLine<'a>],
}

impl<'a> Model for TrailLines<'a> {
    ghost use Rattle.std.specs.Prelude.{List, ℕ, ◌≤◌, IsTrue, length};
    ghost use Rattle.std.specs.List.{list_all};
    ghost use Rattle.imp_fields.specs.Fields.{is_line, most_lines};

    ghost Value = { List (List ℕ) };

    ghost view = { λ a. a.lines.now };

    ghost invariant = { λ a. (length a.lines.now ≤ most_lines)
        × IsTrue (list_all is_line a.lines.now) };
}

impl<'a> TrailLines<'a> {
    /// Wraps borrowed lines.
    pub fn new(lines: &'a [TrailLine<'a>]) -> TrailLines<'a>
        requires few { length lines.now ≤ most_lines }
        requires printable { IsTrue (list_all is_line lines.now) }
        ensures value { result ≡ lines.now }
    {
        TrailLines { lines }
    }

    /// The lines, in order.
    pub fn as_slice(&self) -> &'a [TrailLine<'a>]
        ensures value { result.now ≡ self.now }
        ensures in_range { length result.now ≤ most_lines }
        ensures printable { IsTrue (list_all is_line result.now) }
    {
        self.lines
    }
}
