//! Texts of the input as a reason repeats them.
ghost use Rattle.std.specs.Prelude.{◌≤◌, ◌<◌, OnOk, IfOk, IsTrue, string_bytes, codes};
ghost use Rattle.input_reasons.specs.Common.{list_all, is_printable};
ghost use Rattle.input_reasons.specs.Reason.{IsReason, numbered_head};

use std::alloc::{AllocError, Global};

/// The number of bytes of a text that a reason repeats.
const MOST: usize = 40;

/// The hexadecimal digit of a number.
fn hex_digit(n: u8) -> u8
    requires { n < 16 }
    ensures least { 48 ≤ result }
    ensures most { result ≤ 102 }
{
    if n < 10 { b'0' + n } else { b'a' + (n - 10) }
}

/// Appends a character of printable ASCII.
#[tactic(auto, using(crate::proofs::Printable::grown))]
fn push_printable(text: &mut String, byte: u8) -> Result<(), AllocError>
    requires least { 32 ≤ byte }
    requires most { byte ≤ 126 }
    ensures { OnOk result (IsTrue (list_all is_printable (string_bytes text.old))
        → IsTrue (list_all is_printable (string_bytes text.new))) }
{
    text.push(byte as char)
}

/// Appends a byte: itself where it is printable ASCII, else as `\x..`.
fn push_shown(text: &mut String, byte: u8) -> Result<(), AllocError>
    ensures { OnOk result (IsTrue (list_all is_printable (string_bytes text.old))
        → IsTrue (list_all is_printable (string_bytes text.new))) }
{
    if 32 <= byte && byte <= 126 {
        return push_printable(text, byte);
    }
    push_printable(text, b'\\')?;
    push_printable(text, b'x')?;
    push_printable(text, hex_digit(byte / 16))?;
    push_printable(text, hex_digit(byte % 16))
}

/// Bytes as printable ASCII: each that isn't is written as `\x..`.
pub(crate) fn printable(alloc: Global, bytes: &[u8]) -> Result<String, AllocError>
    ensures { IfOk result (λ text. IsTrue (list_all is_printable (string_bytes text))) }
{
    let mut text = String::new(alloc);
    for byte in bytes {
        push_shown(&mut text, *byte)?;
    }
    Ok(text)
}

/// The line of a head and of words behind it.
pub(crate) fn reason_line(alloc: Global, head: &str, words: &str) -> Result<String, AllocError>
    ensures { IfOk result (λ line. IsReason head.now (string_bytes line)) }
{
    let words = printable(alloc, words.as_bytes())?;
    format!(in alloc; "{head}{words}\n")
}

/// The reason of a line with this number.
pub(crate) fn numbered(alloc: Global, number: u64, words: &str) -> Result<String, AllocError>
    ensures number { IfOk result (λ line. IsReason (numbered_head number) (string_bytes line)) }
    ensures line { IfOk result (λ line. IsReason (codes "line ") (string_bytes line)) }
{
    let head = format!(in alloc; "line {number}: ")?;
    reason_line(alloc, head.as_str(), words)
}

/// A text of the input, cut to forty bytes.
pub(crate) fn cut(alloc: Global, text: &[u8]) -> Result<String, AllocError> {
    let front = printable(alloc, &text[..text.len().min(MOST)])?;
    if text.len() > MOST {
        format!(in alloc; "{front}..")
    } else {
        Ok(front)
    }
}

/// The same in quotes.
pub(crate) fn quoted(alloc: Global, text: &[u8]) -> Result<String, AllocError> {
    let text = cut(alloc, text)?;
    format!(in alloc; "\"{text}\"")
}

/// The words for a text at `place` that isn't the wanted one.
pub(crate) fn expected(
    alloc: Global,
    place: &str,
    wanted: &str,
    text: &[u8],
) -> Result<String, AllocError> {
    let text = quoted(alloc, text)?;
    format!(in alloc; "{place}: expected {wanted}, found {text}")
}

/// Returns the words for a text at `place`, if it isn't `least` to `most` digits.
pub(crate) fn digits_words(
    alloc: Global,
    place: &str,
    text: &[u8],
    least: usize,
    most: usize,
) -> Result<Option<String>, AllocError> {
    if least <= text.len() && text.len() <= most && text.iter().all(|b| b.is_ascii_digit()) {
        return Ok(None);
    }
    let wanted = if least == most {
        format!(in alloc; "{most} digits")?
    } else {
        format!(in alloc; "{least} to {most} digits")?
    };
    Ok(Some(expected(alloc, place, wanted.as_str(), text)?))
}
