//! The writer of status update messages. Each helper returns the index after what it wrote.

ghost use Rattle.std.specs.Prelude.{◌≡◌, ◌≤◌, ◌+◌, ◌++◌, ◌∷◌, [], length, take, None, Ok, Some, OnOk, OnErr};
ghost use Rattle.fsu_text.specs.Common.{date_text, when_text, flight_text, quantity_text, written_code, consignment_text, normal_lines, sent_text};
ghost use Rattle.fsu_text.specs.Status.{status_of, handling_code, carriage_code, discrepancy_code, name_tail};
ghost use Rattle.fsu_text.specs.Fsu.{IsFsu, fsu_lines, declared_cargo, amount_of, told_as, sent_status_text, sent_status_reading, update_written};
ghost use Rattle.fsu_text.specs.declared.sent.SentStatus.TheVariants as sent;

use crate::sent::{SentCarriage, SentStatus, SentUpdate, update_known};
use crate::status::Handling;
use imp_fields::{
    Airport, BookTenths, Discrepancy, Flight, Name, Pieces, ShipmentCode, WaybillSummary,
    put_quantity,
};
use station_days::{DayMonth, DayTime};
use std::alloc::AllocError;

/// Writes a text at `at`.
fn put(out: &mut [u8], at: usize, text: &[u8]) -> usize
    requires { at + length text.now ≤ length out.old }
    ensures place { result ≡ at + length text.now }
    ensures text { take result out.new ≡ take at out.old ++ text.now }
{
    out[at..at + text.len()].copy_from_slice(text);
    at + text.len()
}

fn put_field(out: &mut [u8], at: usize, text: &[u8]) -> usize
    requires { at + length text.now + 1 ≤ length out.old }
    ensures place { result ≡ at + length text.now + 1 }
    ensures text { take result out.new ≡ take at out.old ++ (47 ∷ text.now) }
{
    let at = put(out, at, b"/");
    put(out, at, text)
}

fn put_flight(out: &mut [u8], at: usize, flight: &Flight) -> usize
    requires { at + 8 ≤ length out.old }
    ensures bound { result ≤ at + 8 }
    ensures text { take result out.new ≡ take at out.old ++ (47 ∷ flight_text flight.now) }
{
    let mut text = [0; 7];
    let len = flight.write(&mut text);
    put_field(out, at, &text[..len])
}

/// Writes a slash and a quantity without a total.
fn put_amount(
    out: &mut [u8],
    at: usize,
    code: ShipmentCode,
    pieces: Pieces,
    tenths: BookTenths,
) -> usize
    requires { at + 19 ≤ length out.old }
    ensures bound { result ≤ at + 19 }
    ensures text { take result out.new ≡ take at out.old
        ++ (47 ∷ quantity_text code pieces tenths None) }
{
    let mut text = [0; 18];
    let len = put_quantity(&mut text, code, pieces, tenths, None);
    put_field(out, at, &text[..len])
}

/// Returns the code for `pieces`: T if they are all that were declared, otherwise P.
fn code(pieces: Pieces, declared: Pieces) -> ShipmentCode
    ensures { result ≡ written_code pieces declared }
{
    if pieces.number() == declared.number() {
        ShipmentCode::Total
    } else {
        ShipmentCode::Part
    }
}

/// Writes a slash and the quantity of an update.
fn put_update(out: &mut [u8], at: usize, update: &SentUpdate) -> usize
    requires { at + 19 ≤ length out.old }
    ensures bound { result ≤ at + 19 }
    ensures text { take result out.new ≡ take at out.old ++ (47 ∷ amount_of update.now) }
{
    let code = code(update.pieces, update.of.pieces);
    put_amount(out, at, code, update.pieces, update.tenths)
}

fn put_consignment(out: &mut [u8], at: usize, of: &WaybillSummary) -> usize
    requires { at + 37 ≤ length out.old }
    ensures bound { result ≤ at + 37 }
    ensures text { take result out.new ≡ take at out.old ++ consignment_text
        (declared_cargo of.now) }
{
    let at = put(out, at, &of.awb.write());
    let at = put(out, at, &of.origin.letters());
    let at = put(out, at, &of.destination.letters());
    put_amount(out, at, ShipmentCode::Total, of.pieces, of.tenths)
}

/// Returns RCS, NFD or DLV.
fn handling_code(event: Handling) -> [u8; 3]
    ensures { result ≡ handling_code event }
{
    match event {
        Handling::ReceivedFromShipper => *b"RCS",
        Handling::Notified => *b"NFD",
        Handling::Delivered => *b"DLV",
    }
}

fn carriage_code(event: SentCarriage) -> [u8; 3]
    ensures { result ≡ carriage_code (told_as event) }
{
    match event {
        SentCarriage::Manifested => *b"MAN",
        SentCarriage::Departed => *b"DEP",
    }
}

/// Returns OFLD, MSCA or FDCA.
fn discrepancy_code(discrepancy: Discrepancy) -> [u8; 4]
    ensures { result ≡ discrepancy_code discrepancy }
{
    match discrepancy {
        Discrepancy::Offloaded => *b"OFLD",
        Discrepancy::Missing => *b"MSCA",
        Discrepancy::Found => *b"FDCA",
    }
}

/// Writes a slash and a name, or nothing for an empty name.
#[tactic(auto, using(crate::proofs::PutLaws::name_short, crate::proofs::PutLaws::no_name, crate::proofs::PutLaws::some_name))]
fn put_name(out: &mut [u8], at: usize, name: &Name) -> usize
    requires { at + 36 ≤ length out.old }
    ensures bound { result ≤ at + 36 }
    ensures text { take result out.new ≡ take at out.old ++ name_tail name.now }
{
    let name = name.as_bytes();
    if name.is_empty() {
        at
    } else {
        put_field(out, at, name)
    }
}

/// Writes a status line of RCS, NFD or DLV.
fn put_handled(
    out: &mut [u8],
    at: usize,
    event: Handling,
    when: &DayTime,
    name: &Name,
    update: &SentUpdate,
) -> usize
    requires { at + 72 ≤ length out.old }
    ensures bound { result ≤ at + 72 }
    ensures text { take result out.new ≡ take at out.old ++ sent_status_text
        (sent.Handled event when.now name.now) update.now }
{
    let at = put(out, at, &handling_code(event));
    let at = put_field(out, at, &when.write());
    let at = put_field(out, at, &update.here.letters());
    let at = put_update(out, at, update);
    put_name(out, at, name)
}

/// Writes a status line of RCF.
fn put_received(
    out: &mut [u8],
    at: usize,
    flight: &Flight,
    when: &DayTime,
    update: &SentUpdate,
) -> usize
    requires { at + 44 ≤ length out.old }
    ensures bound { result ≤ at + 44 }
    ensures text { take result out.new ≡ take at out.old ++ sent_status_text
        (sent.ReceivedFromFlight flight.now when.now) update.now }
{
    let at = put(out, at, b"RCF");
    let at = put_flight(out, at, flight);
    let at = put_field(out, at, &when.write());
    let at = put_field(out, at, &update.here.letters());
    put_update(out, at, update)
}

/// Writes a status line of MAN or DEP.
fn put_carried(
    out: &mut [u8],
    at: usize,
    event: SentCarriage,
    flight: &Flight,
    date: &DayMonth,
    to: &Airport,
    update: &SentUpdate,
) -> usize
    requires { at + 43 ≤ length out.old }
    ensures bound { result ≤ at + 43 }
    ensures text { take result out.new ≡ take at out.old ++ sent_status_text
        (sent.Carried event flight.now date.now to.now) update.now }
{
    let at = put(out, at, &carriage_code(event));
    let at = put_flight(out, at, flight);
    let at = put_field(out, at, &date.write());
    let at = put_field(out, at, &update.here.letters());
    let at = put(out, at, &to.letters());
    put_update(out, at, update)
}

/// Writes a status line of DIS.
fn put_differs(
    out: &mut [u8],
    at: usize,
    discrepancy: Discrepancy,
    flight: &Flight,
    when: &DayTime,
    update: &SentUpdate,
) -> usize
    requires { at + 49 ≤ length out.old }
    ensures bound { result ≤ at + 49 }
    ensures text { take result out.new ≡ take at out.old ++ sent_status_text
        (sent.Differs discrepancy flight.now when.now) update.now }
{
    let at = put(out, at, b"DIS");
    let at = put_flight(out, at, flight);
    let at = put_field(out, at, &when.write());
    let at = put_field(out, at, &update.here.letters());
    let at = put_field(out, at, &discrepancy_code(discrepancy));
    put_update(out, at, update)
}

fn put_status(out: &mut [u8], at: usize, update: &SentUpdate) -> usize
    requires { at + 72 ≤ length out.old }
    ensures bound { result ≤ at + 72 }
    ensures text { take result out.new ≡ take at out.old ++ sent_status_text update.now.status
        update.now }
{
    match &update.status {
        SentStatus::Handled {
            event,
            at: when,
            name,
        } => put_handled(out, at, *event, when, name, update),
        SentStatus::ReceivedFromFlight { flight, at: when } => {
            put_received(out, at, flight, when, update)
        }
        SentStatus::Carried {
            event,
            flight,
            date,
            to,
        } => put_carried(out, at, *event, flight, date, to, update),
        SentStatus::Differs {
            discrepancy,
            flight,
            at: when,
        } => put_differs(out, at, *discrepancy, flight, when, update),
    }
}

/// Writes the three lines, each ended by CR LF.
fn put_lines(out: &mut [u8; 128], update: &SentUpdate) -> usize
    ensures bound { result ≤ 128 }
    ensures text { take result out.new ≡ sent_text (fsu_lines update.now) }
{
    let at = put(out, 0, b"FSU/12\r\n");
    let at = put_consignment(out, at, &update.of);
    let at = put(out, at, b"\r\n");
    let at = put_status(out, at, update);
    put(out, at, b"\r\n")
}

/// Appends a status update to a buffer: the head `FSU/12`, the consignment line with all that is
/// declared, and the status line, each ended by CR LF.
///
/// If memory runs out, the buffer is unchanged.
pub fn write_fsu(out: &mut Vec<u8>, update: &SentUpdate) -> Result<(), AllocError>
    ensures ok { OnOk result (out.new.items ≡ out.old.items ++ sent_text (fsu_lines update.now)) }
    ensures err { OnErr result (out.new.items ≡ out.old.items) }

    // The sent lines are normal, and are read back as the values written.
    ensures normal { normal_lines (sent_text (fsu_lines update.now)) ≡ Ok (fsu_lines update.now) }
    ensures read_again { IsFsu (fsu_lines update.now) (update_written update.now) }
    ensures status { status_of (sent_status_text update.now.status update.now)
        ≡ Some (sent_status_reading update.now.status update.now) }
{
    update_known(update);
    let mut text = [0; 128];
    let len = put_lines(&mut text, update);
    out.extend_from_slice(&text[..len])
}
