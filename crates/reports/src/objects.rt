//! Members of the rows' objects.
//! Texts as JSON strings.

ghost use Rattle.std.specs.Prelude.{◌≡◌, ◌+◌, ◌-◌, IfOk, string_bytes, ◌++◌, ◌<◌, ◌≤◌, OnOk, take};
ghost use Rattle.reports.specs.Common.{IsAscii, padded, number_text, serial_of, day_line, flight_text, boolean, string, compact_text, digit_char, escape_letter, escape_byte, escape, quoted};
ghost use Rattle.reports.specs.Reports.{cell_text, clock_text, place_text, amount_data, flight_or_null, holder_name, holder_word, since_text};
ghost use Rattle.reports.specs.declared.cells.Cell.TheVariants as cell;

use crate::layout::{clock, place_name, seven_digits};
use agent_stock::{Holder, StockRun};
use awb_number::{Awb, ascii_text};
use imp_fields::Airport;
use serde_json::json;
use shipment_machine::{Amount, FlightDate, Place};
use station_days::{LocalDay, Moment};
use std::alloc::{AllocError, Global};

pub(crate) fn awb_text(alloc: Global, awb: &Awb) -> Result<String, AllocError>
    ensures { IfOk result (λ text. string_bytes text ≡ compact_text
        (string (number_text awb.now))) }
{
    quoted(alloc, awb.to_string(alloc)?.as_str())
}

pub(crate) fn airport_text(alloc: Global, airport: &Airport) -> Result<String, AllocError>
    ensures { IfOk result (λ text. string_bytes text ≡ compact_text (string airport.now)) }
{
    quoted(alloc, airport.to_string(alloc)?.as_str())
}

fn date_text(alloc: Global, day: LocalDay) -> Result<String, AllocError>
    ensures { IfOk result (λ text. string_bytes text ≡ compact_text (string (day_line day))) }
{
    quoted(alloc, day.to_string(alloc)?.as_str())
}

pub(crate) fn route_members(
    alloc: Global,
    origin: &Airport,
    destination: &Airport,
) -> Result<String, AllocError>
    ensures { IfOk result (λ text. string_bytes text ≡ cell_text
        (cell.Route origin.now destination.now)) }
{
    let origin = airport_text(alloc, origin)?;
    let destination = airport_text(alloc, destination)?;
    format!(in alloc; "\"origin\":{origin},\"destination\":{destination}")
}

pub(crate) fn flight_members(alloc: Global, flight: &FlightDate) -> Result<String, AllocError>
    ensures { IfOk result (λ text. string_bytes text ≡ cell_text (cell.Flight flight.now)) }
{
    let date = date_text(alloc, flight.day)?;
    let flight = quoted(alloc, flight.flight.to_string(alloc)?.as_str())?;
    format!(in alloc; "\"flight\":{flight},\"date\":{date}")
}

fn day_text(alloc: Global, at: &Moment) -> Result<String, AllocError>
    ensures { IfOk result (λ text. string_bytes text ≡ compact_text
        (string (day_line at.now.day))) }
{
    let Some(day) = LocalDay::new(at.day) else {
        unreachable!();
    };
    date_text(alloc, day)
}

pub(crate) fn moment_members(alloc: Global, at: &Moment) -> Result<String, AllocError>
    ensures { IfOk result (λ text. string_bytes text ≡ cell_text (cell.Moment at.now)) }
{
    let date = day_text(alloc, at)?;
    let time = quoted(alloc, ascii_text(&clock(at.minute)))?;
    format!(in alloc; "\"date\":{date},\"time\":{time}")
}

pub(crate) fn place_members(alloc: Global, from: &Place, to: &Place) -> Result<String, AllocError>
    ensures { IfOk result (λ text. string_bytes text ≡ cell_text (cell.Places from.now to.now)) }
{
    let from = quoted(alloc, place_name(from))?;
    let to = quoted(alloc, place_name(to))?;
    format!(in alloc; "\"from\":{from},\"to\":{to}")
}

pub(crate) fn amount_members(alloc: Global, pieces: u64, tenths: u64) -> Result<String, AllocError>
    ensures { IfOk result (λ text. string_bytes text ≡ cell_text (cell.Amount pieces tenths)) }
{
    format!(in alloc; "\"pieces\":{pieces},\"tenths\":{tenths}")
}

pub(crate) fn amount_object(alloc: Global, amount: &Amount) -> Result<String, AllocError>
    ensures { IfOk result (λ text. string_bytes text ≡ compact_text (amount_data amount.now)) }
{
    let (pieces, tenths) = (amount.pieces, amount.tenths);
    format!(in alloc; "{{\"pieces\":{pieces},\"tenths\":{tenths}}}")
}

pub(crate) fn flag(yes: bool) -> &'static str
    ensures { result.now ≡ compact_text (boolean yes) }
{
    if yes { "true" } else { "false" }
}

/// Returns the word of a holder: `desk`, `agent`, `used` or `void`.
pub fn holder_word(holder: &Holder) -> &'static str
    ensures { result.now ≡ holder_word holder.now }
{
    match holder {
        Holder::Desk => "desk",
        Holder::Agent(_) => "agent",
        Holder::Used => "used",
        Holder::Void => "void",
    }
}

/// Returns the code of an agent, or an empty text.
pub fn holder_name(holder: &Holder) -> &str
    ensures { result.now ≡ holder_name holder.now }
{
    match holder {
        Holder::Agent(code) => code.as_str(),
        _ => "",
    }
}

pub(crate) fn flight_or_null(
    alloc: Global,
    flight: &Option<FlightDate>,
) -> Result<String, AllocError>
    ensures { IfOk result (λ text. string_bytes text ≡ compact_text (flight_or_null flight.now)) }
{
    match flight {
        Some(flight) => quoted(alloc, flight.to_string(alloc)?.as_str()),
        None => format!(in alloc; "null"),
    }
}

pub(crate) fn last_serial(run: &StockRun) -> [u8; 7]
    ensures value { result ≡ padded 7 (serial_of run.now.first + run.now.count - 1) }
    ensures ascii { IsAscii result }
{
    let behind = u64::from(run.first.serial()) + u64::from(run.count);
    seven_digits(behind.saturating_sub(1))
}

/// Returns the members of a run's prefix, first and last serial.
pub(crate) fn serial_members(alloc: Global, run: &StockRun) -> Result<String, AllocError>
    ensures { IfOk result (λ text. string_bytes text ≡ cell_text (cell.Serials run.now)) }
{
    let number = run.first.write();
    let prefix = quoted(alloc, ascii_text(&number[..3]))?;
    let first = quoted(alloc, ascii_text(&number[4..11]))?;
    let last = last_serial(run);
    let last = quoted(alloc, ascii_text(&last))?;
    format!(in alloc; "\"prefix\":{prefix},\"first\":{first},\"last\":{last}")
}

pub(crate) fn holder_members(alloc: Global, holder: &Holder) -> Result<String, AllocError>
    ensures { IfOk result (λ text. string_bytes text ≡ cell_text (cell.Holder holder.now)) }
{
    let word = quoted(alloc, holder_word(holder))?;
    let name = quoted(alloc, holder_name(holder))?;
    format!(in alloc; "\"holder\":{word},\"name\":{name}")
}

/// Returns a day as a JSON string such as `"2026-01-12"`, `""` where there is none.
pub fn since_text(alloc: Global, since: Option<LocalDay>) -> Result<String, AllocError>
    ensures { IfOk result (λ text. string_bytes text ≡ compact_text (string (since_text since))) }
{
    match since {
        Some(day) => date_text(alloc, day),
        None => quoted(alloc, ""),
    }
}

pub(crate) fn quoted(alloc: Global, text: &str) -> Result<String, AllocError>
    ensures { IfOk result (λ quoted. string_bytes quoted ≡ compact_text (string text.now)) }
{
    json!(in alloc; text)?.to_string(alloc)
}

/// Returns the letter of a byte's short escape, or 0 if it has none.
fn escape_letter(byte: u8) -> u8
    ensures { result ≡ escape_letter byte }
{
    match byte {
        b'"' | b'\\' => byte,
        8 => b'b',
        12 => b'f',
        b'\n' => b'n',
        b'\r' => b'r',
        b'\t' => b't',
        _ => 0,
    }
}

fn hex_digit(digit: u8) -> u8
    requires { digit < 16 }
    ensures { result ≡ digit_char digit }
{
    if digit < 10 {
        b'0' + digit
    } else {
        b'a' + (digit - 10)
    }
}

/// Appends a byte as in a JSON string.
#[tactic(auto, unfolding(json::specs::Print::escape_byte))]
fn put_escaped(out: &mut Vec<u8>, byte: u8) -> Result<(), AllocError>
    ensures { OnOk result (out.new.items ≡ out.old.items ++ escape_byte byte) }
{
    let letter = escape_letter(byte);
    if letter > 0 {
        return out.extend_from_slice(&[b'\\', letter]);
    }
    if byte < 0x20 {
        let (high, low) = (hex_digit(byte / 16), hex_digit(byte % 16));
        return out.extend_from_slice(&[b'\\', b'u', b'0', b'0', high, low]);
    }
    out.extend_from_slice(&[byte])
}

/// Appends bytes as in a JSON string.
fn put_all_escaped(out: &mut Vec<u8>, text: &[u8]) -> Result<(), AllocError>
    ensures { OnOk result (out.new.items ≡ out.old.items ++ escape text.now) }
{
    for byte in text {
        put_escaped(out, *byte)?;
    }
    Ok(())
}

/// Appends bytes as a JSON string.
pub(crate) fn put_quoted(out: &mut Vec<u8>, text: &[u8]) -> Result<(), AllocError>
    ensures { OnOk result (out.new.items ≡ out.old.items ++ compact_text (string text.now)) }
{
    out.extend_from_slice(b"\"")?;
    put_all_escaped(out, text)?;
    out.extend_from_slice(b"\"")
}
