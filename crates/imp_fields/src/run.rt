//! Runs of bytes of one kind at either end of a text, and the numbers in them.

ghost use Rattle.std.specs.Prelude.{◌≡◌, ◌<◌, ◌≤◌, ◌^◌, ℕ, length, take, is_some, IfSome};
ghost use Rattle.imp_fields.specs.Common.{list_all, position_or_len, prefix_len, suffix_len, is_digit, decimal_value};
ghost use Rattle.imp_fields.specs.Fields.{IsPieces, count_of, is_digit_or_point, is_blank, is_printable, is_slash};
ghost use Rattle.imp_fields.specs.Message.{is_newline};

pub(crate) fn digits_in_front(text: &[u8]) -> usize
    ensures run { result ≡ prefix_len is_digit text.now }
    ensures bound { result ≤ length text.now }
{
    text.iter().take_while(|b| b.is_ascii_digit()).count()
}

pub(crate) fn digits_at_end(text: &[u8]) -> usize
    ensures run { result ≡ suffix_len is_digit text.now }
    ensures bound { result ≤ length text.now }
{
    text.iter().rev().take_while(|b| b.is_ascii_digit()).count()
}

/// Returns the number of trailing spaces.
pub(crate) fn blanks_at_end(text: &[u8]) -> usize
    ensures run { result ≡ suffix_len is_blank text.now }
    ensures bound { result ≤ length text.now }
{
    text.iter().rev().take_while(|b| **b == b' ').count()
}

/// Returns the number of leading digits and points.
pub(crate) fn numeral_in_front(text: &[u8]) -> usize
    ensures run { result ≡ prefix_len is_digit_or_point text.now }
    ensures bound { result ≤ length text.now }
{
    text.iter()
        .take_while(|b| b.is_ascii_digit() || **b == b'.')
        .count()
}

pub(crate) fn is_printable(text: &[u8]) -> bool
    ensures { result ≡ list_all is_printable text.now }
{
    text.iter().all(|b| (b' '..=b'~').contains(b))
}

/// Returns [`is_printable`] of eight bytes. It tests all of them, so that they can be tested at
/// once.
fn are_printable(eight: &[u8; 8]) -> bool
    ensures { result ≡ list_all is_printable eight.now }
{
    let mut all = true;
    for b in eight {
        all = all & (b' '..=b'~').contains(b);
    }
    all
}

/// Returns the number of leading printable bytes, tested one by one.
fn few_printable_in_front(text: &[u8]) -> usize
    ensures run { result ≡ prefix_len is_printable text.now }
    ensures bound { result ≤ length text.now }
{
    text.iter()
        .take_while(|b| (b' '..=b'~').contains(*b))
        .count()
}

/// Returns the number of leading printable bytes and spaces.
pub(crate) fn printable_in_front(text: &[u8]) -> usize
    ensures run { result ≡ prefix_len is_printable text.now }
    ensures bound { result ≤ length text.now }
{
    let mut len = 0;
    while let Some(eight) = text[len..].first_chunk() {
        if !are_printable(eight) {
            break;
        }
        len += 8;
    }
    len + few_printable_in_front(&text[len..])
}

pub(crate) fn count(digits: &[u8]) -> Option<u32>
    ensures value { result ≡ count_of digits.now }
    ensures bound { IfSome result IsPieces }
{
    if digits.is_empty() || digits.len() > 4 {
        return None;
    }
    let mut number = 0;
    for &b in digits {
        if !b.is_ascii_digit() {
            return None;
        }
        number = number * 10 + u32::from(b - b'0');
    }
    if number == 0 { None } else { Some(number) }
}

pub(crate) fn is_digits(text: &[u8]) -> bool
    ensures { result ≡ list_all is_digit text.now }
{
    text.iter().all(|b| b.is_ascii_digit())
}

/// Returns the number of bytes before the first slash, or of all bytes without one.
pub(crate) fn before_slash(text: &[u8]) -> usize
    ensures place { result ≡ position_or_len is_slash text.now }
    ensures bound { result ≤ length text.now }
{
    text.iter().take_while(|b| **b != b'/').count()
}

/// Returns the number of bytes before the first newline, or of all bytes without one.
pub(crate) fn before_newline(text: &[u8]) -> usize
    ensures place { result ≡ position_or_len is_newline text.now }
    ensures bound { result ≤ length text.now }
{
    text.iter().take_while(|b| **b != b'\n').count()
}
