//! The ranges of a telegram's fields, guaranteed by their types.

ghost use Rattle.std.specs.Prelude.{◌≤◌, IsTrue, IfSome};
ghost use Rattle.station_core.specs.Common.{AllByRecursion, list_all, IsNumber, is_airport, IsPieces, most_parts, is_line, IsCalendarDay, IsDesignator};
ghost use Rattle.station_core.specs.Retries.{IsCargoLine, IsInboundLine, IsContent};

use awb_number::Awb;
use imp_fields::{Airport, Pieces};
use shipment_machine::{CargoLine, InboundLine};
use telegrams::{Content, PartContent, StatusContent};

fn airport_range(airport: &Airport)
    ensures { IsTrue (is_airport airport.now) }
{
    let _letters = airport.letters();
}

fn waybill_range(awb: &Awb)
    ensures { IsNumber awb.now }
{
    let _number = awb.key();
}

fn total_range(total: &Option<Pieces>)
    ensures { IfSome total.now IsPieces }
{
    match total {
        Some(total) => {
            let _total = total.number();
        }
        None => {}
    }
}

fn cargo_range(line: &CargoLine)
    ensures { IsCargoLine line.now }
{
    waybill_range(&line.awb);
    airport_range(&line.origin);
    airport_range(&line.destination);
    let _pieces = line.pieces.number();
    let _tenths = line.tenths.number();
    total_range(&line.total);
    let _goods = line.goods.as_bytes();
}

fn inbound_range(line: &InboundLine)
    ensures { IsInboundLine line.now }
{
    airport_range(&line.unload);
    cargo_range(&line.cargo);
}

fn lines_range(lines: &[InboundLine])
    ensures { AllByRecursion IsInboundLine lines.now }
{
    for line in lines {
        inbound_range(line);
    }
}

fn part_range(part: &PartContent)
    ensures sequence { (1 ≤ part.now.sequence) × (part.now.sequence ≤ most_parts) }
    ensures flight { IsDesignator part.now.flight }
    ensures date { IsCalendarDay part.now.date }
    ensures loaded { IsTrue (is_airport part.now.loaded) }
    ensures lines { AllByRecursion IsInboundLine part.now.lines }
{
    let _sequence = part.sequence.number();
    let _flight = part.flight.write(&mut [0; 7]);
    let _date = part.date.write();
    airport_range(&part.loaded);
    lines_range(part.lines.as_slice());
}

fn status_range(status: &StatusContent<'_>)
    ensures awb { IsNumber status.now.awb }
    ensures lines { IsTrue (list_all is_line status.now.lines) }
{
    waybill_range(&status.awb);
    let _lines = status.lines.as_slice();
}

/// The fields of a telegram are in range, as are keys ([`Key::as_bytes`](crate::Key::as_bytes)) and
/// commands ([`command_text`](desk_commands::command_text)). So [`step_law`](crate::step_law) and
/// [`run_law`](crate::run_law) hold for every input.
pub fn content_range_law(content: &Content<'_>)
    ensures { IsContent content.now }
{
    match content {
        Content::Fwb(line) => cargo_range(line),
        Content::Ffm(part) => part_range(part),
        Content::Fsu(status) => status_range(status),
    }
}
