//! The content of a normal text.
//! Ranges that the types of a notice guarantee, for the proof that it is read back. The functions
//! do nothing.

ghost use Rattle.std.specs.Prelude.{◌≡◌, ◌≤◌, ◌++◌, ◌∷◌, [], Option, Some, IsTrue, IfOk, IfErr, OnOk, length, map, All};
ghost use Rattle.telegrams.specs.Common.{unwrap_or, list_all, TextFault, shipment_of, line_texts, IsFaultOf, most_lines, fwb_fault, ffm_fault, unloaded_of, fsu_fault, is_plain, date_on, IsLoad, AreWritten, most_waybills};
ghost use Rattle.imp_fields.specs.declared.line.MessageKind.TheVariants as kinds;
ghost use Rattle.telegrams.specs.Meaning.{has_plain_goods, has_plain_cargo, cargo_line, inbound_line, message_fault, SaysAs, RefusesAs, sent_load, IsNormalManifest, IsManifestAgain};

use crate::notice::load_of;
use crate::telegram::{Content, PartContent, PartLines, StatusContent, StatusLines, TelegramFault};
use ffm_text::FfmLine;
use fsu_text::StatusLine;
use imp_fields::{Airport, Consignment, Goods, Lines, MessageKind, Tenths, TextFault, Why};
use shipment_machine::{
    CargoLine, Detail, FlightDate, InboundLine, ManifestLine, ManifestLines, Refusal, TrailLine,
};
use station_days::DayMonth;
use std::alloc::{AllocError, Global};
use std::slice;

/// Returns the refusal for a reader's fault.
pub(crate) fn refusal(told: TextFault) -> TelegramFault
    requires { told.line ≤ most_lines }
    ensures reader { (due : Option TextFault) → IsFaultOf due told → RefusesAs due result }
    ensures text { (due : Option TextFault) → due ≡ Some told → RefusesAs due result }
{
    match told.why {
        Why::Memory => TelegramFault::Memory,
        Why::Kind => TelegramFault::Refused(Refusal {
            number: 302,
            detail: Detail::Nothing,
        }),
        why => TelegramFault::Refused(Refusal {
            number: 301,
            detail: Detail::Line {
                line: told.line as u16,
                why,
            },
        }),
    }
}

/// Returns the weight, 0 if it isn't given.
fn weight_told(weight: Option<Tenths>) -> Tenths
    ensures { result ≡ unwrap_or weight 0 }
{
    match weight {
        Some(tenths) => tenths,
        None => match Tenths::new(0) {
            Some(nothing) => nothing,
            None => unreachable!(),
        },
    }
}

fn cargo_line(consignment: &Consignment<'_>) -> CargoLine
    requires { IsTrue (has_plain_goods consignment.now) }
    ensures { result ≡ cargo_line (shipment_of consignment.now) }
{
    CargoLine {
        awb: consignment.awb,
        origin: consignment.origin,
        destination: consignment.destination,
        pieces: consignment.quantity.pieces,
        tenths: weight_told(consignment.quantity.weight),
        total: consignment.quantity.total,
        goods: Goods::kept(consignment.goods.text),
    }
}

fn inbound_line(line: &FfmLine<'_>) -> InboundLine
    requires { IsTrue (has_plain_cargo line.now) }
    ensures { result ≡ inbound_line (unloaded_of line.now) }
{
    InboundLine {
        unload: line.unload,
        cargo: cargo_line(&line.consignment),
    }
}

fn put_line(lines: &mut Vec<InboundLine>, line: &FfmLine<'_>) -> Result<(), AllocError>
    requires { IsTrue (has_plain_cargo line.now) }
    ensures { OnOk result (lines.new.items ≡ lines.old.items ++ inbound_line (unloaded_of line.now)
        ∷ []) }
{
    let said = inbound_line(line);
    lines.extend_from_slice(slice::from_ref(&said))
}

fn inbound_lines(alloc: Global, cargo: &[FfmLine<'_>]) -> Result<Vec<InboundLine>, AllocError>
    requires { IsTrue (list_all has_plain_cargo cargo.now) }
    ensures { IfOk result (λ lines. lines.items ≡ map (λ l. inbound_line (unloaded_of l))
        cargo.now) }
{
    let mut lines = Vec::new(alloc);
    for line in cargo {
        put_line(&mut lines, line)?;
    }
    Ok(lines)
}

/// Returns the unchanged lines of a status message.
fn trail_lines<'a>(
    alloc: Global,
    trail: &[StatusLine<'a>],
) -> Result<Vec<TrailLine<'a>>, AllocError>
    requires { IsTrue (list_all is_plain trail.now) }
    ensures { IfOk result (λ lines. lines.items ≡ map (λ l. l.text.text.now) trail.now) }
{
    let mut lines = Vec::new(alloc);
    for line in trail {
        lines.push(TrailLine::new(line.text.text))?;
    }
    Ok(lines)
}

fn fwb_content<'a>(lines: &Lines<'a>) -> Result<Content<'a>, TelegramFault>
    ensures said { IfOk result (SaysAs kinds.Fwb (line_texts lines.now)) }
    ensures refused { IfErr result (RefusesAs (fwb_fault (line_texts lines.now))) }
{
    match fwb_text::read(lines) {
        Ok(message) => Ok(Content::Fwb(cargo_line(&message.consignment))),
        Err(told) => Err(refusal(told)),
    }
}

fn ffm_content<'a>(alloc: Global, lines: &Lines<'a>) -> Result<Content<'a>, TelegramFault>
    ensures said { IfOk result (SaysAs kinds.Ffm (line_texts lines.now)) }
    ensures refused { IfErr result (RefusesAs (ffm_fault (line_texts lines.now))) }
{
    let part = match ffm_text::read(alloc, lines) {
        Ok(part) => part,
        Err(told) => return Err(refusal(told)),
    };
    match inbound_lines(alloc, part.cargo.as_slice()) {
        Ok(cargo) => Ok(Content::Ffm(PartContent {
            sequence: part.sequence,
            flight: part.flight,
            date: part.date,
            loaded: part.loaded,
            lines: PartLines::new(cargo),
        })),
        Err(_) => Err(TelegramFault::Memory),
    }
}

fn fsu_content<'a>(alloc: Global, lines: &Lines<'a>) -> Result<Content<'a>, TelegramFault>
    ensures said { IfOk result (SaysAs kinds.Fsu (line_texts lines.now)) }
    ensures refused { IfErr result (RefusesAs (fsu_fault (line_texts lines.now))) }
{
    let message = match fsu_text::read(alloc, lines) {
        Ok(message) => message,
        Err(told) => return Err(refusal(told)),
    };
    match trail_lines(alloc, message.trail.as_slice()) {
        Ok(trail) => Ok(Content::Fsu(StatusContent {
            awb: message.consignment.awb,
            lines: StatusLines::new(trail),
        })),
        Err(_) => Err(TelegramFault::Memory),
    }
}

pub(crate) fn content<'a>(alloc: Global, lines: &Lines<'a>) -> Result<Content<'a>, TelegramFault>
    ensures said { IfOk result (SaysAs lines.now.kind (line_texts lines.now)) }
    ensures refused { IfErr result
        (RefusesAs (message_fault (Some lines.now.kind) (line_texts lines.now))) }
{
    match lines.kind {
        MessageKind::Fwb => fwb_content(lines),
        MessageKind::Ffm => ffm_content(alloc, lines),
        MessageKind::Fsu => fsu_content(alloc, lines),
    }
}

fn line_known(line: &ManifestLine)
    ensures { IsLoad (sent_load line.now) }
{
    let load = load_of(line);
    let _origin = load.origin.letters();
    let _destination = load.destination.letters();
    let _key = load.awb.key();
    let _pieces = load.pieces.number();
    let _tenths = load.tenths.number();
    let _declared = load.declared.number();
    let _goods = load.goods.as_bytes();
}

fn lines_known(lines: &[ManifestLine])
    ensures { All (λ l. IsLoad (sent_load l)) lines.now }
{
    for line in lines {
        line_known(line);
    }
}

fn parts_known(here: &Airport, flight: &FlightDate, unload: &Airport, lines: &[ManifestLine])
    requires few { length lines.now ≤ most_waybills }
    ensures { AreWritten flight.now.flight (date_on flight.now.day) here.now unload.now
        (map sent_load lines.now) }
{
    let _flight = flight.flight.write(&mut [0; 7]);
    let _date = DayMonth::on(flight.day).write();
    let _here = here.letters();
    let _unload = unload.letters();
    lines_known(lines);
}

pub(crate) fn manifest_known(
    here: &Airport,
    flight: &FlightDate,
    unload: &Airport,
    lines: &ManifestLines,
)
    ensures normal { IsNormalManifest here.now flight.now unload.now lines.now }
    ensures read_again { IsManifestAgain here.now flight.now unload.now lines.now }
{
    parts_known(here, flight, unload, lines.as_slice());
}
