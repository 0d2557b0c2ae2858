//! The reader of manifests.
//! Ranges that the types of a written manifest guarantee, for the proof that it is read back. The
//! functions do nothing else.
//! Points of unloading: `JFK`, `JFK/NIL` or `JFK/13JAN1430`.

ghost use Rattle.std.specs.Prelude.{◌≡◌, IfOk, IfErr, ◌≤◌, All, length, is_some, slice_index, slice_range, ◌&&◌, ◌==◌};
ghost use Rattle.ffm_text.specs.Common.{line_texts, IsFaultOf, most_waybills, month_of, two_digits_of};
ghost use Rattle.ffm_text.specs.Ffm.{IsFfm, ffm_fault, manifest_of, HasFfmSpans, has_last_line, texts_of, IsLoad, AreWritten, is_remark, may_follow_point, unloading_point};

use crate::cargo::cargo;
use crate::flight_line::flight_line;
use crate::{Ffm, Load};
use imp_fields::{Airport, Flight, Lines, TextFault, Token, Why, fault_at, is_head};
use station_days::DayMonth;
use std::alloc::Global;

/// Returns whether the last line is `LAST` or `CONT`.
fn has_last_line(lines: &[Token<'_>]) -> bool
    ensures { result ≡ has_last_line (texts_of lines.now) }
{
    match lines.last() {
        Some(line) => line.text == b"LAST".as_slice() || line.text == b"CONT".as_slice(),
        None => false,
    }
}

/// Reads a part of a manifest.
///
/// # Errors
///
/// The fault of the first faulty line:
///
/// - `Head`: the first line isn't `FFM/` and one to three digits.
/// - `Flight` or `Date`: the second line, the flight line, is bad.
/// - the fault of a consignment line, for a line after it that begins with three digits and a
///   hyphen, and then `Order` if there is no point of unloading above it.
/// - `Ending`, at the last line: there is no flight line, or no line after it, or the last one is
///   neither `LAST` nor `CONT`.
///
/// `Memory`, line 0, says nothing about the lines.
pub fn read<'a>(alloc: Global, lines: &Lines<'a>) -> Result<Ffm<'a>, TextFault>
    ensures read { IfOk result (λ m. IsFfm (line_texts lines.now) (manifest_of m)) }
    ensures fault { IfErr result (IsFaultOf (ffm_fault (line_texts lines.now))) }
    ensures spans { IfOk result (HasFfmSpans (line_texts lines.now)) }
{
    let tokens = lines.lines.as_slice();
    if tokens.is_empty() {
        return Err(fault_at(0, Why::Ending));
    }
    if !is_head(b"FFM", tokens[0].text) {
        return Err(fault_at(1, Why::Head));
    }
    if tokens.len() < 2 {
        return Err(fault_at(1, Why::Ending));
    }
    let part = match flight_line(tokens[1].text) {
        Ok(part) => part,
        Err(why) => return Err(fault_at(2, why)),
    };
    let below = &tokens[2..];
    let cargo = match cargo(alloc, below) {
        Ok(cargo) => cargo,
        Err(fault) => return Err(fault),
    };
    if !has_last_line(below) {
        return Err(fault_at(tokens.len() as u32, Why::Ending));
    }
    Ok(Ffm {
        sequence: part.sequence,
        flight: part.flight,
        date: part.date,
        loaded: part.loaded,
        cargo,
    })
}

fn load_known(load: &Load)
    ensures { IsLoad load.now }
{
    let _origin = load.origin.letters();
    let _destination = load.destination.letters();
    let _key = load.awb.key();
    let _pieces = load.pieces.number();
    let _tenths = load.tenths.number();
    let _declared = load.declared.number();
    let _goods = load.goods.as_bytes();
}

fn loads_known(loads: &[Load])
    ensures { All IsLoad loads.now }
{
    for load in loads {
        load_known(load);
    }
}

#[tactic(auto, using(crate::proofs::KnownLoads::are_loads))]
pub(crate) fn written_known(
    flight: &Flight,
    date: &DayMonth,
    here: &Airport,
    unload: &Airport,
    loads: &[Load],
)
    requires count { length loads.now ≤ most_waybills }
    ensures { AreWritten flight.now date.now here.now unload.now loads.now }
{
    let _flight = flight.write(&mut [0; 7]);
    let _date = date.write();
    let _here = here.letters();
    let _unload = unload.letters();
    loads_known(loads);
}

/// Returns whether a line begins like one that is never a point of unloading.
fn is_remark(line: &[u8]) -> bool
    ensures { result ≡ is_remark line.now }
{
    line.starts_with(b"ULD/")
        || line.starts_with(b"DIM/")
        || line.starts_with(b"OSI/")
        || line.starts_with(b"SCI/")
        || line.starts_with(b"OCI/")
        || line.starts_with(b"COR/")
}

/// Returns whether three bytes are the name of a month.
fn is_month(name: &[u8; 3]) -> bool
    ensures { result ≡ is_some (month_of name.now) }
{
    let [first, second, third] = *name;
    DayMonth::read(&[b'0', b'1', first, second, third]).is_some()
}

/// Returns whether a text begins with a slash, two digits and the name of a month.
fn begins_with_date(rest: &[u8]) -> bool
    ensures { result ≡ ((slice_index rest.now 0 == 47)
        && is_some (two_digits_of (slice_range rest.now 1 3))
        && is_some (month_of (slice_range rest.now 3 6))) }
{
    match rest {
        [b'/', tens, ones, first, second, third, ..] => {
            tens.is_ascii_digit() && ones.is_ascii_digit() && is_month(&[*first, *second, *third])
        }
        _ => false,
    }
}

/// Returns whether a text may follow the three letters of a point of unloading.
fn may_follow_point(rest: &[u8]) -> bool
    ensures { result ≡ may_follow_point rest.now }
{
    rest.is_empty() || rest == b"/NIL".as_slice() || begins_with_date(rest)
}

/// Returns the point of unloading in a line, if it is one.
pub fn unloading_point(line: &[u8]) -> Option<Airport>
    ensures { result ≡ unloading_point line.now }
{
    let (letters, rest) = line.split_at_checked(3)?;
    let point = Airport::read(letters)?;
    if !may_follow_point(rest) {
        return None;
    }
    if is_remark(line) { None } else { Some(point) }
}
