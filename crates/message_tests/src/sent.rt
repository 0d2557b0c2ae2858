//! Messages that are sent: notices and status updates about ten pieces from FRA to JFK.
use crate::fsu::message;
use crate::given::{airport, flight_date, next_number, next_small_number, pieces};
use awb_number::Awb;
use fsu_text::{Handling, SentCarriage, SentStatus, SentUpdate, write_fsu};
use imp_fields::{Airport, BookTenths, Discrepancy, Flight, Goods, Name, Pieces, WaybillSummary};
use shipment_machine::{Event, FlightDate, ManifestLine, ManifestLines, Notice};
use station_days::{DayMonth, DayTime, Moment};
use std::alloc::Global;
use std::str::SplitWhitespace;
use telegrams::notice_text;
use test_kit::shown;

pub fn notices(alloc: Global, asked: &str, text: &[u8]) -> Option<String> {
    let notice = notice(alloc, asked, shown(text))?;
    String::from_utf8(notice_text(alloc, &notice).ok()?).ok()
}

/// Returns a notice. The words give this airport, its pieces, their tenths and the event. The
/// flight is LH400 on 2026-01-12, day number 20465.
pub fn notice(alloc: Global, asked: &str, words: &str) -> Option<Notice> {
    let mut words = words.split_whitespace();
    let here = airport(&mut words)?;
    let pieces = pieces(&mut words)?;
    let tenths = BookTenths::new(next_number(&mut words)?)?;
    let flight = flight_date(&mut "LH400 20465".split_whitespace())?;
    match asked {
        "FFM" => {
            let line = ManifestLine {
                consigned: consigned()?,
                pieces,
                tenths,
                goods: Goods::read(b"CARGO")?,
            };
            let mut lines = Vec::new(alloc);
            lines.push(line).ok()?;
            Some(Notice::Manifest {
                here,
                flight,
                unload: Airport::read(b"JFK")?,
                lines: ManifestLines::new(lines)?,
            })
        }
        _ => Some(Notice::Status {
            here,
            consigned: consigned()?,
            event: event(asked, flight, &mut words)?,
            pieces,
            tenths,
        }),
    }
}

/// Returns ten pieces of 100 kilograms from FRA to JFK.
pub fn consigned() -> Option<WaybillSummary> {
    Some(WaybillSummary {
        awb: Awb::read(b"020-12345675").ok()?,
        origin: Airport::read(b"FRA")?,
        destination: Airport::read(b"JFK")?,
        pieces: Pieces::new(10)?,
        tenths: BookTenths::new(1000)?,
    })
}

fn discrepancy(code: &str) -> Option<Discrepancy> {
    match code {
        "OFLD" => Some(Discrepancy::Offloaded),
        "MSCA" => Some(Discrepancy::Missing),
        "FDCA" => Some(Discrepancy::Found),
        _ => None,
    }
}

/// Reads an event, by its moment and an optional name. The flight leaves for JFK.
fn event(asked: &str, flight: FlightDate, words: &mut SplitWhitespace<'_>) -> Option<Event> {
    let unload = Airport::read(b"JFK")?;
    match asked {
        "MAN" => return Some(Event::Manifested { flight, unload }),
        "DEP" => return Some(Event::Departed { flight, unload }),
        _ => {}
    }
    let at = Moment::new(next_number(words)?, next_small_number(words)?)?;
    let name = Name::read(words.next().unwrap_or("").as_bytes())?;
    match asked {
        "RCS" => Some(Event::ReceivedFromShipper { name, at }),
        "NFD" => Some(Event::Notified { name, at }),
        "DLV" => Some(Event::Delivered { name, at }),
        "RCF" => Some(Event::ReceivedFromFlight { flight, at }),
        _ => Some(Event::Differs {
            flight,
            at,
            discrepancy: discrepancy(asked)?,
        }),
    }
}

/// Returns the text of an update, written after a letter X and read back.
pub fn updates(alloc: Global, asked: &str, text: &[u8]) -> Option<String> {
    let mut words = shown(text).split_whitespace();
    let update = SentUpdate {
        here: airport(&mut words)?,
        pieces: pieces(&mut words)?,
        tenths: BookTenths::new(next_number(&mut words)?)?,
        of: consigned()?,
        status: status(asked, &mut words)?,
    };
    let mut out = b"X".to_vec(alloc).ok()?;
    write_fsu(&mut out, &update).ok()?;
    let (_, text) = out.split_first()?;
    if message(alloc, text).ok()?.trail.is_empty() {
        return None;
    }
    String::from_utf8(out).ok()
}

/// Reads a status: its moment and an optional name, or its flight and what `of_flight` reads.
fn status(asked: &str, words: &mut SplitWhitespace<'_>) -> Option<SentStatus> {
    let first = words.next()?.as_bytes();
    let second = words.next().unwrap_or("").as_bytes();
    let event = match asked {
        "RCS" => Handling::ReceivedFromShipper,
        "NFD" => Handling::Notified,
        "DLV" => Handling::Delivered,
        _ => return of_flight(asked, Flight::read(first)?, second, airport(words)),
    };
    Some(SentStatus::Handled {
        event,
        at: DayTime::read(first)?,
        name: Name::read(second)?,
    })
}

/// Reads the date of a flight that leaves for an airport, or the moment of another status.
fn of_flight(asked: &str, flight: Flight, day: &[u8], to: Option<Airport>) -> Option<SentStatus> {
    let event = match (asked, DayTime::read(day)) {
        ("MAN", _) => SentCarriage::Manifested,
        ("DEP", _) => SentCarriage::Departed,
        ("RCF", at) => return Some(SentStatus::ReceivedFromFlight { flight, at: at? }),
        (_, at) => {
            return Some(SentStatus::Differs {
                discrepancy: discrepancy(asked)?,
                flight,
                at: at?,
            });
        }
    };
    Some(SentStatus::Carried {
        event,
        flight,
        date: DayMonth::read(day)?,
        to: to?,
    })
}
