//! A dry run as lines for people.

ghost use Rattle.std.specs.Prelude.{◌≡◌, ◌++◌, IfOk, OnOk, flat_map, string_bytes};
ghost use Rattle.input_reasons.specs.Look.{cargo_text, doubt_text, dropped_text, heading, line_text, look_text, total_text};

use crate::look::{DroppedLine, LinePart, Look, SeenLine};
use awb_number::ascii_text;
use imp_fields::Pieces;
use shipment_machine::{Amount, CargoLine};
use std::alloc::{AllocError, Global};
use telegrams::Content;

fn heading(alloc: Global, says: &Content<'_>) -> Result<String, AllocError>
    ensures { IfOk result (λ text. string_bytes text ≡ heading says.now) }
{
    match says {
        Content::Fwb(_) => String::from_str(alloc, "FWB\n"),
        Content::Ffm(part) => {
            let (flight, date, loaded) = (part.flight, part.date.write(), part.loaded);
            let (date, number) = (ascii_text(&date), part.sequence.number());
            format!(in alloc; "FFM {flight}/{date} from {loaded}, part {number}\n")
        }
        Content::Fsu(status) => {
            let awb = status.awb;
            format!(in alloc; "FSU {awb}\n")
        }
    }
}

fn total_text(alloc: Global, total: Option<Pieces>) -> Result<String, AllocError>
    ensures { IfOk result (λ text. string_bytes text ≡ total_text total) }
{
    match total {
        Some(total) => format!(in alloc; " (of {total})"),
        None => Ok(String::new(alloc)),
    }
}

fn cargo_text(alloc: Global, cargo: &CargoLine) -> Result<String, AllocError>
    ensures { IfOk result (λ text. string_bytes text ≡ cargo_text cargo.now) }
{
    let amount = Amount {
        pieces: cargo.pieces.number(),
        tenths: cargo.tenths.number(),
    };
    let total = total_text(alloc, cargo.total)?;
    let (awb, origin, destination) = (cargo.awb, cargo.origin, cargo.destination);
    format!(in alloc; "{awb} {origin}{destination} {amount}{total}")
}

/// Returns the text after the name of a line that may be doubtful.
fn doubt_text(doubtful: bool) -> &'static str
    ensures { result.now ≡ doubt_text doubtful }
{
    if doubtful { ", doubtful: " } else { ": " }
}

/// Returns the text of a line that is read, or the line itself if it is ignored or stored. It is
/// empty for other lines.
fn line_text(alloc: Global, line: &SeenLine<'_>) -> Result<String, AllocError>
    ensures { IfOk result (λ text. string_bytes text ≡ line_text line.now) }
{
    let (number, doubt) = (line.number, doubt_text(line.doubtful));
    let text = ascii_text(line.text.as_bytes());
    match &line.part {
        LinePart::Declared(cargo) => {
            let cargo = cargo_text(alloc, cargo)?;
            format!(in alloc; "line {number}: {cargo}\n")
        }
        LinePart::Loaded(loaded) => {
            let (cargo, unload) = (cargo_text(alloc, &loaded.cargo)?, loaded.unload);
            format!(in alloc; "line {number}: {cargo} to {unload}\n")
        }
        LinePart::Status => format!(in alloc; "line {number}{doubt}{text}\n"),
        LinePart::Passed => format!(in alloc; "line {number} is passed over{doubt}{text}\n"),
        _ => Ok(String::new(alloc)),
    }
}

fn dropped_texts(alloc: Global, lines: &[DroppedLine<'_>]) -> Result<String, AllocError>
    ensures { IfOk result (λ text. string_bytes text ≡ flat_map dropped_text lines.now) }
{
    let mut text = String::new(alloc);
    for line in lines {
        let (doubt, line) = (doubt_text(line.doubtful), ascii_text(line.text.as_bytes()));
        text.push_str(format!(in alloc; "in front{doubt}{line}\n")?.as_str())?;
    }
    Ok(text)
}

fn line_texts(alloc: Global, lines: &[SeenLine<'_>]) -> Result<String, AllocError>
    ensures { IfOk result (λ text. string_bytes text ≡ flat_map line_text lines.now) }
{
    let mut text = String::new(alloc);
    for line in lines {
        text.push_str(line_text(alloc, line)?.as_str())?;
    }
    Ok(text)
}

/// Returns a dry run as lines for people, each ended by a newline: the message; each line before
/// it; each consignment, with its weight in kilograms; each status line; each line that is ignored.
///
/// ```text
/// FFM LH400/12JAN from FRA, part 1
/// in front: QK FRACGXX
/// line 4: 020-12345675 FRAJFK 4 pieces, 40.0 kg (of 10) to JFK
/// line 5 is passed over: DIM/K40
/// line 6 is passed over, doubtful:  020-12345686FRAJFK/T10K100
/// ```
pub fn look_text(alloc: Global, look: &Look<'_>) -> Result<String, AllocError>
    ensures text { IfOk result (λ text. string_bytes text ≡ look_text look.now) }
{
    let heading = heading(alloc, look.telegram.content())?;
    let dropped = dropped_texts(alloc, look.dropped.as_slice())?;
    let lines = line_texts(alloc, look.lines.as_slice())?;
    format!(in alloc; "{heading}{dropped}{lines}")
}
