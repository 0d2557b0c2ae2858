//! The fields of a line, separated by slashes.
//! Writing text into a buffer. Each call returns the index after what it wrote.

ghost use Rattle.std.specs.Prelude.{◌≡◌, ◌∷◌, [], drop, IfSome, None, ◌+◌, ◌≤◌, ◌<◌, ◌++◌, length, take, decimal};
ghost use Rattle.imp_fields.specs.Common.{join_with_byte};
ghost use Rattle.imp_fields.specs.Fields.{fields};

use crate::run;

/// Returns the first field of a text and the text after its slash, or `None` without a slash.
#[tactic(auto, using(crate::proofs::Cuts::cut_at, crate::proofs::Cuts::uncut))]
pub fn cut_at_slash(text: &[u8]) -> Option<(&[u8], &[u8])>
    ensures some { IfSome result (λ parts. fields text.now ≡ parts.0.now ∷ fields parts.1.now) }
    ensures none { result ≡ None → fields text.now ≡ text.now ∷ [] }
{
    let place = run::before_slash(text);
    if place == text.len() {
        return None;
    }
    let (_, rest) = text.split_at(place + 1);
    Some((&text[..place], rest))
}

/// Returns the first field of a text and the text after its slash, which is empty without a slash.
#[tactic(auto, using(crate::proofs::Cuts::joined_again))]
pub fn first_field(text: &[u8]) -> (&[u8], &[u8])
    ensures first { fields text.now ≡ result.0.now ∷ drop 1 (fields text.now) }
    ensures rest { result.1.now ≡ join_with_byte 47 (drop 1 (fields text.now)) }
{
    match cut_at_slash(text) {
        Some(parts) => parts,
        None => (text, &[]),
    }
}

/// Writes a byte at `at`.
pub(crate) fn put(out: &mut [u8], at: usize, byte: u8) -> usize
    requires { at < length out.old }
    ensures place { result ≡ at + 1 }
    ensures text { take result out.new ≡ take at out.old ++ byte ∷ [] }
{
    out[at] = byte;
    at + 1
}

/// Writes a number without leading zeros at `at`, and returns the index after it.
#[tactic(auto, using(std::proofs::lemmas::Fmt::decimal_digit))]
pub fn put_decimal(out: &mut [u8], at: usize, number: u32) -> usize
    requires { at + length (decimal number) ≤ length out.old }
    ensures place { result ≡ at + length (decimal number) }
    ensures text { take result out.new ≡ take at out.old ++ decimal number }
{
    let last = b'0' + (number % 10) as u8;
    if number < 10 {
        return put(out, at, last);
    }
    let at = put_decimal(out, at, number / 10);
    put(out, at, last)
}
