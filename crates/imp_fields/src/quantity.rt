//! Quantities in messages, such as `T10K100MC0.5`, and their weights.

ghost use Rattle.std.specs.Prelude.{◌≡◌, ◌+◌, ◌++◌, take, decimal, ◌≤◌, ◌<◌, ◌*◌, ◌^◌, ℕ, length, filter, count_by, is_some, IfSome, Some, None};
ghost use Rattle.imp_fields.specs.Common.{list_all, position_or_len, is_digit, decimal_value, where_true};
ghost use Rattle.imp_fields.specs.Fields.{is_point, IsTenths, is_digit_or_point, is_weight_numeral, rounded_tenths, numerator_of, denominator_of, tenths_of};
ghost use Rattle.imp_fields.specs.Message.{code_letter, code_of, weight_text, total_text, quantity_text, unit_of, weight_of, weight_at_front, left_of_weight, total_at_end, is_unread, quantity_of};

use crate::amount::{BookTenths, Pieces, Quantity, ShipmentCode, Tenths, WeightUnit};
use crate::field::{put, put_decimal};
use crate::run;

/// Returns the number that the digits of a numeral make, and the number of points. It is `None` if
/// there is any other byte.
#[tactic(auto, using(crate::proofs::WeightLaws::ten_pow_of_seven))]
fn digits_and_points(numeral: &[u8]) -> Option<(u64, u32)>
    requires { length numeral.now ≤ 7 }
    ensures number { IfSome result (λ r. r.0 ≡ numerator_of numeral.now) }
    ensures points { IfSome result (λ r. r.1 ≡ count_by is_point numeral.now) }
    ensures bound { IfSome result (λ r. r.0 < 10_000_000) }
    ensures all { is_some result ≡ list_all is_digit_or_point numeral.now }
{
    let (mut number, mut points) = (0, 0);
    for &b in numeral {
        if b.is_ascii_digit() {
            number = number * 10 + u64::from(b - b'0');
        } else if b == b'.' {
            points += 1;
        } else {
            return None;
        }
    }
    Some((number, points))
}

/// Returns the number that the digits of a weight's numeral make: one to seven digits and points,
/// at most one of them a point, which isn't first or last.
fn numerator(numeral: &[u8]) -> Option<u64>
    ensures value { result ≡ where_true (is_weight_numeral numeral.now) (numerator_of numeral.now) }
    ensures bound { IfSome result (λ n. n < 10_000_000) }
{
    if numeral.is_empty() || numeral.len() > 7 {
        return None;
    }
    let read = digits_and_points(numeral)?;
    if read.1 > 1 || numeral[0] == b'.' || numeral[numeral.len() - 1] == b'.' {
        return None;
    }
    Some(read.0)
}

/// Returns the number of bytes before the point.
fn whole_len(numeral: &[u8]) -> usize
    ensures place { result ≡ position_or_len is_point numeral.now }
    ensures bound { result ≤ length numeral.now }
{
    numeral.iter().take_while(|b| **b != b'.').count()
}

/// Returns the power of ten by which to divide: ten for each digit after the point.
#[tactic(auto, using(crate::proofs::WeightLaws::ten_pow_positive, crate::proofs::WeightLaws::ten_pow_small))]
fn denominator(numeral: &[u8]) -> u64
    requires { length numeral.now ≤ 7 }
    ensures value { result ≡ denominator_of numeral.now }
    ensures positive { 1 ≤ result }
    ensures bound { result ≤ 1_000_000 }
{
    let places = numeral.len().saturating_sub(whole_len(numeral) + 1);
    10_u64.pow(places as u32)
}

fn rounded_tenths(numerator: u64, denominator: u64) -> Option<Tenths>
    requires positive { 1 ≤ denominator }
    requires numerator { numerator < 10 ^ 16 }
    requires denominator { denominator ≤ 10 ^ 14 }
    requires in_range { IsTenths (rounded_tenths numerator denominator) }
    ensures { result ≡ Some (rounded_tenths numerator denominator) }
{
    let tenths = (numerator * 20 + denominator) / (denominator * 2);
    Tenths::new(tenths as u32)
}

/// Returns the weight of a numeral in a unit. A pound is 0.45359237 kilograms, and the product is
/// rounded once.
#[tactic(auto, using(crate::proofs::WeightLaws::kilograms_in_range, crate::proofs::WeightLaws::pounds_in_range))]
fn tenths(unit: WeightUnit, numeral: &[u8]) -> Option<Tenths>
    ensures { result ≡ where_true (is_weight_numeral numeral.now) (tenths_of unit numeral.now) }
{
    let numerator = numerator(numeral)?;
    let denominator = denominator(numeral);
    match unit {
        WeightUnit::Kilograms => rounded_tenths(numerator, denominator),
        WeightUnit::Pounds => rounded_tenths(numerator * 45_359_237, denominator * 100_000_000),
    }
}

fn unit(letter: u8) -> Option<WeightUnit>
    ensures { result ≡ unit_of letter }
{
    match letter {
        b'K' => Some(WeightUnit::Kilograms),
        b'L' => Some(WeightUnit::Pounds),
        _ => None,
    }
}

fn code(letter: u8) -> Option<ShipmentCode>
    ensures { result ≡ code_of letter }
{
    match letter {
        b'T' => Some(ShipmentCode::Total),
        b'P' => Some(ShipmentCode::Part),
        b'S' => Some(ShipmentCode::Split),
        b'D' => Some(ShipmentCode::Divided),
        b'M' => Some(ShipmentCode::Multi),
        _ => None,
    }
}

/// Returns the weight at the start of the text after the pieces, if a K or an L comes first, and
/// the rest of the text.
fn weight_and_left(text: &[u8]) -> Option<(Option<Tenths>, &[u8])>
    ensures weight { IfSome result (λ r. weight_at_front text.now ≡ Some r.0) }
    ensures left { IfSome result (λ r. r.1.now ≡ left_of_weight text.now) }
    ensures none { result ≡ None → weight_at_front text.now ≡ None }
{
    let Some((first, behind)) = text.split_first() else {
        return Some((None, text));
    };
    let Some(unit) = unit(*first) else {
        return Some((None, text));
    };
    let (numeral, left) = behind.split_at(run::numeral_in_front(behind));
    let weight = tenths(unit, numeral)?;
    Some((Some(weight), left))
}

/// Returns whether a text has only what a quantity may have unread: letters, digits and points.
fn is_unread(text: &[u8]) -> bool
    ensures { result ≡ list_all is_unread text.now }
{
    text.iter().all(|b| b.is_ascii_uppercase() || b.is_ascii_digit() || *b == b'.')
}

/// Returns the total at the end of the text after the weight: a T and the longest run of digits.
fn total_at_end(left: &[u8]) -> Option<Pieces>
    ensures { result ≡ total_at_end left.now }
{
    let (before, digits) = left.split_at(left.len() - run::digits_at_end(left));
    if before.last() == Some(&b'T') {
        Pieces::read(digits)
    } else {
        None
    }
}

/// Reads a weight field such as `K0.25` or `L100` in tenths of a kilogram, with a half rounded up.
/// A pound is 0.45359237 kilograms, and the exact product is rounded once.
pub fn weight_of(field: &[u8]) -> Option<Tenths>
    ensures { result ≡ weight_of field.now }
{
    let (letter, numeral) = field.split_first()?;
    tenths(unit(*letter)?, numeral)
}

/// Reads a quantity such as `T10K100MC0.5`: a code, one to four digits of value at least 1, an
/// optional weight, and letters, digits and points, which are ignored except for a total at their
/// end.
pub fn read_quantity(text: &[u8]) -> Option<Quantity>
    ensures { result ≡ quantity_of text.now }
{
    let (letter, text) = text.split_first()?;
    let code = code(*letter)?;
    let (digits, rest) = text.split_at(run::digits_in_front(text));
    let pieces = Pieces::read(digits)?;
    let Some((weight, left)) = weight_and_left(rest) else {
        return None;
    };
    if is_unread(left) {
        Some(Quantity {
            code,
            pieces,
            weight,
            total: total_at_end(left),
        })
    } else {
        None
    }
}

fn letter(code: ShipmentCode) -> u8
    ensures { result ≡ code_letter code }
{
    match code {
        ShipmentCode::Total => b'T',
        ShipmentCode::Part => b'P',
        ShipmentCode::Split => b'S',
        ShipmentCode::Divided => b'D',
        ShipmentCode::Multi => b'M',
    }
}

#[tactic(auto, using(crate::proofs::PutLaws::length_decimal_short))]
fn put_count(out: &mut [u8], at: usize, count: Pieces) -> usize
    requires { at + 4 ≤ length out.old }
    ensures bound { result ≤ at + 4 }
    ensures text { take result out.new ≡ take at out.old ++ decimal count }
{
    put_decimal(out, at, count.number())
}

/// Writes a number of at most 99,999.
#[tactic(auto, using(crate::proofs::PutLaws::length_decimal_five))]
fn put_kilograms(out: &mut [u8], at: usize, kilograms: u32) -> usize
    requires small { kilograms ≤ 99_999 }
    requires room { at + 5 ≤ length out.old }
    ensures bound { result ≤ at + 5 }
    ensures text { take result out.new ≡ take at out.old ++ decimal kilograms }
{
    put_decimal(out, at, kilograms)
}

/// Writes a weight: whole kilograms, a point and one digit.
fn put_weight(out: &mut [u8], at: usize, tenths: BookTenths) -> usize
    requires { at + 7 ≤ length out.old }
    ensures bound { result ≤ at + 7 }
    ensures text { take result out.new ≡ take at out.old ++ weight_text tenths }
{
    let tenths = tenths.number();
    let at = put_kilograms(out, at, tenths / 10);
    let at = put(out, at, b'.');
    put(out, at, b'0' + (tenths % 10) as u8)
}

/// Writes the total, if there is one: a T and its digits.
fn put_total(out: &mut [u8], at: usize, total: Option<Pieces>) -> usize
    requires { at + 5 ≤ length out.old }
    ensures bound { result ≤ at + 5 }
    ensures text { take result out.new ≡ take at out.old ++ total_text total }
{
    match total {
        Some(total) => {
            let at = put(out, at, b'T');
            put_count(out, at, total)
        }
        None => at,
    }
}

/// Writes a quantity such as `P4K40.0T10` to the start of a buffer: the code, the pieces, the
/// weight in kilograms and the optional total. Returns its length.
pub fn put_quantity(
    out: &mut [u8; 18],
    code: ShipmentCode,
    pieces: Pieces,
    tenths: BookTenths,
    total: Option<Pieces>,
) -> usize
    ensures bound { result ≤ 18 }
    ensures text { take result out.new ≡ quantity_text code pieces tenths total }
{
    let at = put(out, 0, letter(code));
    let at = put_count(out, at, pieces);
    let at = put(out, at, b'K');
    let at = put_weight(out, at, tenths);
    put_total(out, at, total)
}
