//! Dry runs of telegrams.
//! The lines of a telegram, and how they are read.

ghost use Rattle.std.specs.Prelude.{◌≡◌, IfOk, IfErr};
ghost use Rattle.input_reasons.specs.Common.{list_any, kind_said};
ghost use Rattle.input_reasons.specs.Look.{IsLook, RefusesLook, has_doubt, has_no_day};

use crate::dropped::dropped_lines;
use crate::seen::seen_lines;
use imp_fields::{MessageKind, Why, normal_text};
use shipment_machine::{CargoLine, Detail, InboundLine, Refusal, TrailLine};
use station_days::day_in_year;
use std::alloc::Global;
use telegrams::{Content, Telegram, TelegramFault, read_telegram};

/// Returns whether a line before the message is doubtful.
fn is_dropped_doubtful(lines: &[DroppedLine<'_>]) -> bool
    ensures { result ≡ list_any (λ line. line.doubtful) lines.now }
{
    lines.iter().any(|line| line.doubtful)
}

fn is_seen_doubtful(lines: &[SeenLine<'_>]) -> bool
    ensures { result ≡ list_any (λ line. line.doubtful) lines.now }
{
    lines.iter().any(|line| line.doubtful)
}

/// A telegram, and how each of its lines is read.
#[derive(Drop)]
pub struct Look<'a> {
    /// The telegram as it would be taken.
    pub telegram: Telegram<'a>,
    /// The lines before the message line, which are dropped.
    pub dropped: Vec<DroppedLine<'a>>,
    /// The lines of the normal text, each once. The message line is the first.
    pub lines: Vec<SeenLine<'a>>,
}

impl<'a> Look<'a> {
    /// The kind of the message.
    pub fn kind(&self) -> MessageKind
        ensures { result ≡ kind_said self.now.telegram.content }
    {
        match self.telegram.content() {
            Content::Fwb(_) => MessageKind::Fwb,
            Content::Ffm(_) => MessageKind::Ffm,
            Content::Fsu(_) => MessageKind::Fsu,
        }
    }

    /// Returns whether any line is doubtful.
    pub fn is_doubtful(&self) -> bool
        ensures { result ≡ has_doubt self.now }
    {
        is_dropped_doubtful(self.dropped.as_slice()) || is_seen_doubtful(self.lines.as_slice())
    }
}

/// The refusal of a manifest whose flight's day no year has, on its second line.
const NO_DAY: Refusal = Refusal {
    number: 301,
    detail: Detail::Line {
        line: 2,
        why: Why::Date,
    },
};

/// Returns whether no year has the day of a manifest's flight, as 31FEB. 2000 is a leap year.
fn has_no_day(content: &Content<'_>) -> bool
    ensures { result ≡ has_no_day content.now }
{
    match content {
        Content::Ffm(part) => day_in_year(part.date, 2000).is_none(),
        Content::Fwb(_) | Content::Fsu(_) => false,
    }
}

/// Reads bytes as a telegram, and returns how each of its lines is read. The telegram and the
/// errors are those of `read_telegram`; a manifest whose flight's day no year has is refused as the
/// station refuses it.
pub fn look_at<'a>(alloc: Global, bytes: &'a [u8]) -> Result<Look<'a>, TelegramFault>
    ensures seen { IfOk result (IsLook bytes.now) }
    ensures refused { IfErr result (RefusesLook bytes.now) }
{
    let telegram = match read_telegram(alloc, bytes) {
        Ok(telegram) => telegram,
        Err(fault) => return Err(fault),
    };
    if has_no_day(telegram.content()) {
        return Err(TelegramFault::Refused(NO_DAY));
    }
    let Ok(normal) = normal_text(alloc, bytes) else {
        return Err(TelegramFault::Memory);
    };
    let Ok(dropped) = dropped_lines(alloc, bytes) else {
        return Err(TelegramFault::Memory);
    };
    match seen_lines(alloc, telegram.content(), &normal) {
        Ok(lines) => Ok(Look {
            telegram,
            dropped,
            lines,
        }),
        Err(_) => Err(TelegramFault::Memory),
    }
}

/// A line before the message line, without trailing spaces. It isn't part of the message.
#[derive(Drop)]
pub struct DroppedLine<'a> {
    pub text: TrailLine<'a>,
    /// True if the line begins with `FNA` or `FMA`: a message that answers another one may quote it
    /// below.
    pub doubtful: bool,
}

/// The reading of a line.
#[derive(Clone, Copy)]
pub enum LinePart {
    /// The message line.
    Head,
    /// The flight line of an FFM.
    Flight,
    /// A point of unloading in an FFM.
    Point,
    /// The consignment line of an FWB, and its cargo.
    Declared(CargoLine),
    /// A consignment line of an FFM, its cargo, and its point of unloading.
    Loaded(InboundLine),
    /// The consignment line of an FSU. Only its waybill number is used.
    Waybill,
    /// A line after the consignment line of an FSU. It is stored unchanged.
    Status,
    /// The last line of an FFM, `LAST` or `CONT`.
    Last,
    /// A line that is ignored.
    Passed,
}

/// A line of the normal text.
#[derive(Drop)]
pub struct SeenLine<'a> {
    /// The number of the line. The message line is 1.
    pub number: u32,
    pub part: LinePart,
    pub text: TrailLine<'a>,
    /// True if the line is ignored, or a status line, although it begins a message or resembles a
    /// consignment line.
    pub doubtful: bool,
}
