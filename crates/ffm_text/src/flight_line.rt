//! The flight line of a manifest: `1/LH400/12JAN/FRA`.

ghost use Rattle.std.specs.Prelude.{◌≡◌, Ok, Err, Some, None, IfOk, IfErr, IfSome, option_copied, option_and_then};
ghost use Rattle.ffm_text.specs.Common.{airport_of};
ghost use Rattle.ffm_text.specs.Ffm.{field, date_in, flight_line_of, part_of};

use imp_fields::{Airport, Flight, PartNumber, Why, cut_at_slash, first_field};
use station_days::{DayMonth, DayTime};

/// The values of a flight line.
#[derive(Clone, Copy, PartialEq, Eq)]
pub(crate) struct Part {
    pub(crate) sequence: PartNumber,
    pub(crate) flight: Flight,
    pub(crate) date: DayMonth,
    pub(crate) loaded: Airport,
}

/// The fields of a flight line: the first three, and the fourth if there is one.
#[derive(Clone, Copy)]
struct LineFields<'a> {
    sequence: &'a [u8],
    flight: &'a [u8],
    day: &'a [u8],
    loaded: Option<&'a [u8]>,
}

/// Returns the fields of a line that has at least three.
fn fields(line: &[u8]) -> Option<LineFields<'_>>
    ensures sequence { IfSome result (λ f. field line.now 0 ≡ Some f.sequence.now) }
    ensures flight { IfSome result (λ f. field line.now 1 ≡ Some f.flight.now) }
    ensures day { IfSome result (λ f. field line.now 2 ≡ Some f.day.now) }
    ensures loaded { IfSome result (λ f. field line.now 3 ≡ option_copied f.loaded) }
    ensures none { result ≡ None → field line.now 2 ≡ None }
{
    let (sequence, rest) = cut_at_slash(line)?;
    let (flight, rest) = cut_at_slash(rest)?;
    match cut_at_slash(rest) {
        Some((day, rest)) => {
            let (loaded, _) = first_field(rest);
            Some(LineFields {
                sequence,
                flight,
                day,
                loaded: Some(loaded),
            })
        }
        None => Some(LineFields {
            sequence,
            flight,
            day: rest,
            loaded: None,
        }),
    }
}

fn loaded(field: Option<&[u8]>) -> Option<Airport>
    ensures { result ≡ option_and_then airport_of (option_copied field.entry) }
{
    Airport::read(field?)
}

/// Reads a date such as `12JAN` or `12JAN1030`. The time is tested and dropped.
fn date(text: &[u8]) -> Option<DayMonth>
    ensures { result ≡ date_in text.now }
{
    if text.len() == 5 {
        return DayMonth::read(text);
    }
    let time = DayTime::read(text)?;
    Some(time.date)
}

/// Reads a flight line. Anything after the fourth field is ignored.
///
/// The fields are tested from the left. The error is `Date` for a bad date or time, and `Flight`
/// for any other field that is bad or missing.
pub(crate) fn flight_line(line: &[u8]) -> Result<Part, Why>
    ensures read { IfOk result (λ p. flight_line_of line.now ≡ Ok (part_of p)) }
    ensures fault { IfErr result (λ why. flight_line_of line.now ≡ Err why) }
{
    let Some(fields) = fields(line) else {
        return Err(Why::Flight);
    };
    let Some(sequence) = PartNumber::read(fields.sequence) else {
        return Err(Why::Flight);
    };
    let Some(flight) = Flight::read(fields.flight) else {
        return Err(Why::Flight);
    };
    let Some(date) = date(fields.day) else {
        return Err(Why::Date);
    };
    let Some(loaded) = loaded(fields.loaded) else {
        return Err(Why::Flight);
    };
    Ok(Part {
        sequence,
        flight,
        date,
        loaded,
    })
}
