ghost use Rattle.std.specs.Prelude.{◌≡◌, ◌≤◌, ◌↔◌, IsTrue, length};
ghost use Rattle.telegrams.specs.Common.{list_all, is_line, most_lines};
ghost use Rattle.telegrams.specs.Meaning.{is_text_byte};

use awb_number::Awb;
use imp_fields::{Airport, Flight, PartNumber};
use shipment_machine::{CargoLine, InboundLine, Refusal, TrailLine};
use station_days::DayMonth;
use std::marker::Model;

/// The normal text of a telegram: lines of printable ASCII, joined by newlines.
#[derive(Drop)]
pub struct NormalText {
    bytes: Vec<u8>,
}

impl Model for NormalText {
    ghost use Rattle.std.specs.Prelude.{List, ℕ, IsTrue};
    ghost use Rattle.std.specs.List.{list_all};
    ghost use Rattle.telegrams.specs.Meaning.{is_text_byte};

    ghost Value = { List ℕ };

    ghost view = { λ a. a.bytes.items };

    ghost invariant = { λ a. IsTrue (list_all is_text_byte a.bytes.items) };
}

impl NormalText {
    pub(crate) fn new(bytes: Vec<u8>) -> NormalText
        requires { IsTrue (list_all is_text_byte bytes.items) }
        ensures { result ≡ bytes.items }
    {
        NormalText { bytes }
    }

    /// The bytes of the text.
    pub fn as_bytes(&self) -> &[u8]
        ensures value { result.now ≡ self.now }
        ensures printable { IsTrue (list_all is_text_byte result.now) }
    {
        self.bytes.as_slice()
    }
}

/// The lines of a flight manifest that was read, at most 1,000.
#[derive(Drop)]
pub struct PartLines {
    lines: Vec<InboundLine>,
}

impl Model for PartLines {
    ghost use Rattle.std.specs.Prelude.{List, ◌≤◌, length};
    ghost use Rattle.shipment_machine.specs.declared.command.InboundLine.{InboundLine};
    ghost use Rattle.imp_fields.specs.Fields.{most_lines};

    ghost Value = { List InboundLine };

    ghost view = { λ a. a.lines.items };

    ghost invariant = { λ a. length a.lines.items ≤ most_lines };
}

impl PartLines {
    pub(crate) fn new(lines: Vec<InboundLine>) -> PartLines
        requires { length lines.items ≤ most_lines }
        ensures { result ≡ lines.items }
    {
        PartLines { lines }
    }

    /// The lines, in order.
    pub fn as_slice(&self) -> &[InboundLine]
        ensures value { result.now ≡ self.now }
        ensures in_range { length result.now ≤ most_lines }
    {
        self.lines.as_slice()
    }
}

/// A part of a flight manifest that was read.
#[derive(Drop)]
pub struct PartContent {
    pub sequence: PartNumber,
    pub flight: Flight,
    pub date: DayMonth,
    /// The airport of loading.
    pub loaded: Airport,
    pub lines: PartLines,
}

/// The lines after the consignment line of a status message that was read: at most 1,000, each of
/// at most 255 bytes of printable ASCII. They borrow the telegram's bytes.
#[derive(Drop)]
pub struct StatusLines<'a> {
    texts: Vec<TrailLine<'a>>,
}

impl<'a> Model for StatusLines<'a> {
    ghost use Rattle.std.specs.Prelude.{List, ℕ, ◌≤◌, IsTrue, length};
    ghost use Rattle.std.specs.List.{list_all};
    ghost use Rattle.imp_fields.specs.Fields.{is_line, most_lines};

    ghost Value = { List (List ℕ) };

    ghost view = { λ a. a.texts.items };

    ghost invariant = { λ a. (length a.texts.items ≤ most_lines)
        × IsTrue (list_all is_line a.texts.items) };
}

impl<'a> StatusLines<'a> {
    pub(crate) fn new(lines: Vec<TrailLine<'a>>) -> StatusLines<'a>
        requires few { length lines.items ≤ most_lines }
        requires printable { IsTrue (list_all is_line lines.items) }
        ensures { result ≡ lines.entry.items }
    {
        StatusLines { texts: lines }
    }

    /// The lines, in order.
    pub fn as_slice(&self) -> &[TrailLine<'a>]
        ensures value { result.now ≡ self.now }
        ensures in_range { length result.now ≤ most_lines }
        ensures printable { IsTrue (list_all is_line result.now) }
    {
        self.texts.as_slice()
    }
}

/// A status message that was read.
#[derive(Drop)]
pub struct StatusContent<'a> {
    pub awb: Awb,
    pub lines: StatusLines<'a>,
}

/// The content of a telegram.
#[derive(Drop)]
pub enum Content<'a> {
    /// FWB, waybill data.
    Fwb(CargoLine),
    /// FFM, a part of a flight's manifest.
    Ffm(PartContent),
    /// FSU, a status update.
    Fsu(StatusContent<'a>),
}

/// A telegram that was read. Its normal text is a copy; its content borrows the bytes.
#[derive(Drop)]
pub struct Telegram<'a> {
    text: NormalText,
    content: Content<'a>,
}

impl<'a> Model for Telegram<'a> {
    ghost use Rattle.telegrams.specs.Meaning.{Meant, IsMeant};

    ghost Value = { Meant };

    ghost view = { λ t. record { text = t.text; content = t.content } };

    ghost invariant = { λ t. IsMeant (record { text = t.text; content = t.content }) };
}

impl<'a> Telegram<'a> {
    ghost use Rattle.telegrams.specs.Meaning.{Meant, IsMeant};

    pub(crate) fn new(text: NormalText, content: Content<'a>) -> Telegram<'a>
        requires { IsMeant (record { text = text; content = content }) }
        ensures { result ≡ record { text = text; content = content.entry } }
    {
        Telegram { text, content }
    }

    /// The normal text.
    pub fn text(&self) -> &NormalText
        ensures value { result.now ≡ self.now.text }
    {
        &self.text
    }

    /// The content of the text.
    pub fn content(&self) -> &Content<'a>
        ensures value { result.now ≡ self.now.content }
        ensures meant { IsMeant self.now }
    {
        &self.content
    }
}

/// The reason why a telegram can't be read.
#[derive(Clone, Copy, PartialEq, Eq)]
pub enum TelegramFault {
    /// 302 if the kind of message is unknown; otherwise 301, with the line and the reason.
    Refused(Refusal),
    /// Memory ran out, which says nothing about the bytes.
    Memory,
}
