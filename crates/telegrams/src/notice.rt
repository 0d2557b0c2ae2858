//! The texts of notices.

ghost use Rattle.std.specs.Prelude.{◌≡◌, Ok, IfOk, map};
ghost use Rattle.telegrams.specs.Common.{date_on, when_at, sent_text, normal_lines, fsu_lines};
ghost use Rattle.fsu_text.specs.declared.sent.SentStatus.TheVariants as sent;
ghost use Rattle.telegrams.specs.Meaning.{status_of_event, sent_update, sent_load, manifest_lines, notice_lines, notice_text, IsUpdateAgain, IsReadAgain};

use crate::content::manifest_known;
use ffm_text::{Load, write_ffm};
use fsu_text::{Handling, SentCarriage, SentStatus, SentUpdate, write_fsu};
use imp_fields::{Airport, Name};
use shipment_machine::{Event, FlightDate, ManifestLine, ManifestLines, Notice};
use station_days::{DayMonth, DayTime, Moment};
use std::alloc::{AllocError, Global};

/// Returns an RCS, NFD or DLV, with its moment.
fn handled(event: Handling, name: Name, at: Moment) -> SentStatus
    ensures { result ≡ sent.Handled event (when_at at) name }
{
    SentStatus::Handled {
        event,
        at: DayTime::at(at),
        name,
    }
}

/// Returns a MAN or DEP, with the flight's date.
fn carried(event: SentCarriage, flight: &FlightDate, unload: Airport) -> SentStatus
    ensures { result ≡ sent.Carried event flight.now.flight (date_on flight.now.day) unload }
{
    SentStatus::Carried {
        event,
        flight: flight.flight,
        date: DayMonth::on(flight.day),
        to: unload,
    }
}

/// Returns an event as a sent status: with the flight's date if a flight leaves, otherwise with the
/// moment.
fn status_of(event: &Event) -> SentStatus
    ensures { result ≡ status_of_event event.now }
{
    match event {
        Event::ReceivedFromShipper { name, at } => {
            handled(Handling::ReceivedFromShipper, *name, *at)
        }
        Event::Manifested { flight, unload } => carried(SentCarriage::Manifested, flight, *unload),
        Event::Departed { flight, unload } => carried(SentCarriage::Departed, flight, *unload),
        Event::ReceivedFromFlight { flight, at } => SentStatus::ReceivedFromFlight {
            flight: flight.flight,
            at: DayTime::at(*at),
        },
        Event::Notified { name, at } => handled(Handling::Notified, *name, *at),
        Event::Delivered { name, at } => handled(Handling::Delivered, *name, *at),
        Event::Differs {
            flight,
            at: seen,
            discrepancy,
        } => SentStatus::Differs {
            discrepancy: *discrepancy,
            flight: flight.flight,
            at: DayTime::at(*seen),
        },
    }
}

pub(crate) fn load_of(line: &ManifestLine) -> Load
    ensures { result ≡ sent_load line.now }
{
    Load {
        awb: line.consigned.awb,
        origin: line.consigned.origin,
        destination: line.consigned.destination,
        pieces: line.pieces,
        tenths: line.tenths,
        declared: line.consigned.pieces,
        goods: line.goods,
    }
}

fn loads_of(alloc: Global, lines: &[ManifestLine]) -> Result<Vec<Load>, AllocError>
    ensures { IfOk result (λ loads. loads.items ≡ map sent_load lines.now) }
{
    let mut loads = Vec::new(alloc);
    for line in lines {
        loads.push(load_of(line))?;
    }
    Ok(loads)
}

fn status_text(alloc: Global, update: &SentUpdate) -> Result<Vec<u8>, AllocError>
    ensures text { IfOk result (λ text. text.items ≡ sent_text (fsu_lines update.now)) }
    ensures normal { normal_lines (sent_text (fsu_lines update.now)) ≡ Ok (fsu_lines update.now) }
    ensures read_again { IsUpdateAgain update.now }
{
    let mut text = Vec::new(alloc);
    write_fsu(&mut text, update)?;
    Ok(text)
}

fn manifest_text(
    alloc: Global,
    here: Airport,
    flight: &FlightDate,
    unload: Airport,
    lines: &ManifestLines,
) -> Result<Vec<u8>, AllocError>
    ensures { IfOk result (λ text. text.items ≡ sent_text
        (manifest_lines here flight.now unload lines.now)) }
{
    let loads = loads_of(alloc, lines.as_slice())?;
    let mut text = Vec::new(alloc);
    write_ffm(
        &mut text,
        flight.flight,
        DayMonth::on(flight.day),
        here,
        unload,
        loads.as_slice(),
    )?;
    Ok(text)
}

/// Returns the text of a notice, an FSU with one status line or an FFM with one part. Each line
/// ends with CR LF. A quantity has code T if its pieces equal the declared total, otherwise P. MAN,
/// DEP and the manifest have the flight's date without its year; every other status has the moment.
/// The lines are normal, and are read back as the values written.
pub fn notice_text(alloc: Global, notice: &Notice) -> Result<Vec<u8>, AllocError>
    ensures text { IfOk result (λ text. text.items ≡ notice_text notice.now) }

    // The sent lines are normal, and are read back as the values written.
    ensures normal { normal_lines (notice_text notice.now) ≡ Ok (notice_lines notice.now) }
    ensures read_again { IsReadAgain notice.now }
{
    match notice {
        Notice::Status {
            here,
            consigned,
            event,
            pieces,
            tenths,
        } => {
            let update = SentUpdate {
                of: *consigned,
                status: status_of(event),
                here: *here,
                pieces: *pieces,
                tenths: *tenths,
            };
            status_text(alloc, &update)
        }
        Notice::Manifest {
            here,
            flight,
            unload,
            lines,
        } => {
            manifest_known(here, flight, unload, lines);
            manifest_text(alloc, *here, flight, *unload, lines)
        }
    }
}
