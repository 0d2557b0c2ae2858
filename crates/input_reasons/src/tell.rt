//! Writing a reason.
//! A law about the definitions.
//! Doubtful lines.

ghost use Rattle.std.specs.Prelude.{◌≡◌, ℕ, List, IfOk, OnErr, string_bytes, ◌++◌, filter_map};
ghost use Rattle.input_reasons.specs.Common.{SendsLine, lines_of, PartContent, list_all, is_letter, is_message_line};
ghost use Rattle.input_reasons.specs.Reason.{HasReason, IsReason};
ghost use Rattle.telegrams.specs.declared.telegram.Content.TheVariants as content;
ghost use Rattle.input_reasons.specs.Look.{AreNumbered, AreRead, IsLook, dropped_texts, loaded_by, seen_texts, begins_answer, begins_consignment, is_digit_or_o, is_doubtful, is_gap, resembles_consignment, without_gaps};
ghost use Rattle.input_reasons.specs.declared.look.Look.{Look};

use station_core::{ByteOut, send};
use std::alloc::{AllocError, Global};

/// Writes a line: all of it, or as much as the writer takes.
fn send_reason<E: ByteOut>(errors: &mut E, line: &str)
    ensures sends { SendsLine line.now (E.taken errors.old) (E.taken errors.new) }
    ensures reason { (head : List ℕ) → IsReason head line.now
        → HasReason head (E.taken errors.old).bytes (E.taken errors.new).bytes }
{
    let _sent = send(errors, line.as_bytes());
}

/// Writes a reason: all of it, or as much as the writer takes. Where memory ran out while it was
/// made, there is none, and nothing is written.
pub fn tell_reason<E: ByteOut>(errors: &mut E, reason: Result<String, AllocError>)
    ensures sends { IfOk reason (λ line.
        SendsLine (string_bytes line) (E.taken errors.old) (E.taken errors.new)) }
    ensures none { OnErr reason (errors.new ≡ errors.old) }
    ensures reason { (head : List ℕ) → IfOk reason (λ line. IsReason head (string_bytes line))
        → HasReason head (E.taken errors.old).bytes (E.taken errors.new).bytes }
{
    match reason {
        Ok(line) => send_reason(errors, line.as_str()),
        Err(_) => {}
    }
}

/// Each line of a telegram occurs once in its dry run, in order, and the lines of its message are
/// numbered from 1. The cargo of a consignment line is that of its own text. The lines of a
/// manifest have exactly the manifest's cargo, in order.
pub fn look_law()
    ensures once { (bytes : List ℕ) (look : Look) → IsLook bytes look
        → dropped_texts look.dropped.items ++ seen_texts look.lines.items ≡ lines_of bytes }
    ensures numbered { (bytes : List ℕ) (look : Look) → IsLook bytes look
        → AreNumbered 1 look.lines.items }
    ensures read { (bytes : List ℕ) (look : Look) → IsLook bytes look → AreRead look.lines.items }
    ensures loaded { (bytes : List ℕ) (look : Look) (part : PartContent) → IsLook bytes look
        → look.telegram.content ≡ content.Ffm part
        → filter_map loaded_by look.lines.items ≡ part.lines }
{}

fn is_gap(b: u8) -> bool
    ensures { result ≡ is_gap b }
{
    b == b' ' || b == b'-' || b == b'/'
}

fn without_gaps(alloc: Global, line: &[u8]) -> Result<Vec<u8>, AllocError>
    ensures { IfOk result (λ bare. bare.items ≡ without_gaps line.now) }
{
    line.iter().copied().filter(|b| !is_gap(*b)).collect(alloc)
}

/// Returns whether a byte is a digit, or the letter that is mistaken for one.
fn is_digit_or_o(b: u8) -> bool
    ensures { result ≡ is_digit_or_o b }
{
    b.is_ascii_digit() || b == b'O'
}

fn is_digits(text: &[u8]) -> bool
    ensures { result ≡ list_all is_digit_or_o text.now }
{
    text.iter().all(|b| is_digit_or_o(*b))
}

fn is_letters(text: &[u8]) -> bool
    ensures { result ≡ list_all is_letter text.now }
{
    text.iter().all(|b| b.is_ascii_uppercase())
}

fn begins_consignment(bare: &[u8]) -> bool
    ensures { result ≡ begins_consignment bare.now }
{
    bare.len() >= 15 && is_digits(&bare[..11]) && is_letters(&bare[11..15])
}

fn resembles_consignment(alloc: Global, line: &[u8]) -> Result<bool, AllocError>
    ensures { IfOk result (λ answer. answer ≡ resembles_consignment line.now) }
{
    let bare = without_gaps(alloc, line)?;
    Ok(begins_consignment(bare.as_slice()))
}

/// Returns whether a line begins an FWB, an FFM or an FSU.
pub(crate) fn is_message_line(line: &[u8]) -> bool
    ensures { result ≡ is_message_line line.now }
{
    line.starts_with(b"FWB/") || line.starts_with(b"FFM/") || line.starts_with(b"FSU/")
}

pub(crate) fn is_doubtful(alloc: Global, line: &[u8]) -> Result<bool, AllocError>
    ensures { IfOk result (λ answer. answer ≡ is_doubtful line.now) }
{
    if is_message_line(line) {
        Ok(true)
    } else {
        resembles_consignment(alloc, line)
    }
}

pub(crate) fn begins_answer(line: &[u8]) -> bool
    ensures { result ≡ begins_answer line.now }
{
    line.starts_with(b"FNA") || line.starts_with(b"FMA")
}
