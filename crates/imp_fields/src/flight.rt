ghost use Rattle.std.specs.Prelude.{◌≡◌, ◌+◌, ◌≤◌, ◌++◌, ℕ, List, Option, IsTrue, IfSome, Some, length, take, nat_lt, if◌then◌else◌};
ghost use Rattle.imp_fields.specs.Common.{is_letter, padded};
ghost use Rattle.imp_fields.specs.Fields.{Designator, IsDesignator, flight_of, flight_text, is_carrier, same_flight, same_letter, suffix_of};

use crate::field::put;
use crate::run;
use awb_number::ascii_text;
use std::fmt;
use std::marker::Model;

/// A flight, by its designator: a carrier, a number and an optional letter.
#[derive(Clone, Copy, Debug, PartialEq, Eq)]
pub struct Flight {
    carrier: [u8; 2],
    number: u16,
    suffix: Option<u8>,
}

impl Model for Flight {
    ghost Value = { Designator };

    ghost view = { λ f. record { carrier = f.carrier; number = f.number; suffix = f.suffix } };

    ghost invariant = { λ f. IsDesignator
        (record { carrier = f.carrier; number = f.number; suffix = f.suffix }) };

    ghost inverse = { λ f. record { carrier = f.carrier; number = f.number; suffix = f.suffix } };
}

fn is_carrier(carrier: [u8; 2]) -> bool
    ensures { result ≡ is_carrier carrier }
{
    let [first, second] = carrier;
    (first.is_ascii_uppercase() || first.is_ascii_digit())
        && (second.is_ascii_uppercase() || second.is_ascii_digit())
        && (first.is_ascii_uppercase() || second.is_ascii_uppercase())
}

/// Returns the optional letter after a flight's number, or `None` for any other text.
fn suffix(text: &[u8]) -> Option<Option<u8>>
    ensures value { result ≡ suffix_of text.now }
    ensures letter { IfSome result (λ suffix. IfSome suffix (λ b. IsTrue (is_letter b))) }
{
    match text {
        [] => Some(None),
        [letter] if letter.is_ascii_uppercase() => Some(Some(*letter)),
        _ => None,
    }
}

fn is_same_letter(a: Option<u8>, b: Option<u8>) -> bool
    ensures { result ≡ same_letter a b }
{
    match (a, b) {
        (None, None) => true,
        (Some(a), Some(b)) => a == b,
        _ => false,
    }
}

impl Flight {
    /// Returns whether the two have the same carrier, number and letter.
    pub fn is_same(&self, other: &Flight) -> bool
        ensures { result ≡ same_flight self.now other.now }
    {
        self.carrier == other.carrier
            && self.number == other.number
            && is_same_letter(self.suffix, other.suffix)
    }

    /// Reads a flight such as `LH400`: a carrier of two upper-case letters or digits, at least one
    /// of them a letter, one to four digits of value at least 1, and an optional letter. Leading
    /// zeros don't count.
    pub fn read(text: &[u8]) -> Option<Flight>
        ensures { result ≡ flight_of text.now }
    {
        let [first, second, after @ ..] = text else {
            return None;
        };
        let carrier = [*first, *second];
        if !is_carrier(carrier) {
            return None;
        }
        let (digits, letter) = after.split_at(run::digits_in_front(after));
        let number = run::count(digits)?;
        let suffix = suffix(letter)?;
        Some(Flight {
            carrier,
            number: number as u16,
            suffix,
        })
    }

    /// Writes the flight to the start of a buffer, its number with at least three digits: `LH004`.
    /// Returns its length.
    pub fn write(&self, out: &mut [u8; 7]) -> usize
        ensures bound { result ≤ 7 }
        ensures text { take result out.new ≡ flight_text self.now }
        ensures designator { IsDesignator self.now }
    {
        let at = put(out, 0, self.carrier[0]);
        let at = put(out, at, self.carrier[1]);
        let at = put_number(out, at, self.number);
        match self.suffix {
            Some(letter) => put(out, at, letter),
            None => at,
        }
    }
}

/// Written like `LH004`.
impl fmt::Display for Flight {
    ghost output = { λ flight. Some (flight_text flight) };

    fn fmt<W: fmt::Write>(&self, f: &mut fmt::Formatter<W>) -> fmt::Result {
        let mut bytes = [0; 7];
        let len = self.write(&mut bytes);
        f.write_str(ascii_text(&bytes[..len]))
    }
}

/// Writes a flight's number with three digits, or four if it needs them.
fn put_number(out: &mut [u8], at: usize, number: u16) -> usize
    requires { at + 4 ≤ length out.old }
    ensures bound { result ≤ at + 4 }
    ensures text { take result out.new ≡ take at out.old
        ++ (if nat_lt number 1000 then padded 3 number else padded 4 number) }
{
    if number < 1000 {
        put_three(out, at, number)
    } else {
        let at = put(out, at, b'0' + (number / 1000 % 10) as u8);
        put_three(out, at, number)
    }
}

fn put_three(out: &mut [u8], at: usize, number: u16) -> usize
    requires { at + 3 ≤ length out.old }
    ensures place { result ≡ at + 3 }
    ensures text { take result out.new ≡ take at out.old ++ padded 3 number }
{
    let at = put(out, at, b'0' + (number / 100 % 10) as u8);
    let at = put(out, at, b'0' + (number / 10 % 10) as u8);
    put(out, at, b'0' + (number % 10) as u8)
}
