//! The lines before the message line.

ghost use Rattle.std.specs.Prelude.{◌≡◌, ◌<◌, ◌≤◌, ◌∷◌, [], None, IsTrue, IfOk, IfSome, length, map};
ghost use Rattle.input_reasons.specs.Common.{list_all, position_or_len, slice_split, suffix_len, is_blank, is_line, is_newline, line_without_end};
ghost use Rattle.input_reasons.specs.Look.{dropped_line, front_lines};

use crate::look::DroppedLine;
use crate::tell::{begins_answer, is_message_line};
use shipment_machine::TrailLine;
use std::alloc::{AllocError, Global};

/// Returns the number of trailing spaces.
fn blanks_at_end(text: &[u8]) -> usize
    ensures run { result ≡ suffix_len is_blank text.now }
    ensures bound { result ≤ length text.now }
{
    text.iter().rev().take_while(|b| **b == b' ').count()
}

/// Returns a line without one trailing CR, and then without trailing spaces.
fn without_end(line: &[u8]) -> &[u8]
    ensures { result.now ≡ line_without_end line.now }
{
    let stripped = match line.split_last() {
        Some((b'\r', front)) => front,
        _ => line,
    };
    &stripped[..stripped.len() - blanks_at_end(stripped)]
}

/// Returns the number of bytes before the first newline, or of all bytes without one.
fn before_newline(text: &[u8]) -> usize
    ensures place { result ≡ position_or_len is_newline text.now }
    ensures bound { result ≤ length text.now }
{
    text.iter().take_while(|b| **b != b'\n').count()
}

/// Returns the first line of a text and the text after its newline, or `None` without a newline.
#[tactic(auto, using(crate::proofs::Front::cut_at, crate::proofs::Front::uncut))]
fn cut_at_newline(text: &[u8]) -> Option<(&[u8], &[u8])>
    ensures some { IfSome result (λ parts. slice_split is_newline text.now
        ≡ parts.0.now ∷ slice_split is_newline parts.1.now) }
    ensures shorter { IfSome result (λ parts. length parts.1.now < length text.now) }
    ensures none { result ≡ None → slice_split is_newline text.now ≡ text.now ∷ [] }
{
    let place = before_newline(text);
    if place == text.len() {
        return None;
    }
    let (_, rest) = text.split_at(place + 1);
    Some((&text[..place], rest))
}

#[tactic(auto, using(crate::proofs::Front::next_front, crate::proofs::Front::no_front, crate::proofs::Front::last_front))]
fn front_lines<'a>(alloc: Global, bytes: &'a [u8]) -> Result<Vec<&'a [u8]>, AllocError>
    ensures { IfOk result (λ front. map (λ line. line.now) front.items ≡ front_lines bytes.now) }
{
    let mut front = Vec::new(alloc);
    let mut rest = bytes;
    while let Some((line, behind)) = cut_at_newline(rest) {
        let text = without_end(line);
        if is_message_line(text) {
            return Ok(front);
        }
        front.push(text)?;
        rest = behind;
    }
    let text = without_end(rest);
    if !is_message_line(text) {
        front.push(text)?;
    }
    Ok(front)
}

/// Returns lines before the message line.
fn put_dropped<'a>(alloc: Global, front: &[&'a [u8]]) -> Result<Vec<DroppedLine<'a>>, AllocError>
    requires { IsTrue (list_all (λ line. is_line line.now) front.now) }
    ensures { IfOk result (λ dropped. dropped.items ≡ map (λ line. dropped_line line.now)
        front.now) }
{
    let mut dropped = Vec::new(alloc);
    for line in front {
        dropped.push(DroppedLine {
            text: TrailLine::new(line),
            doubtful: begins_answer(line),
        })?;
    }
    Ok(dropped)
}

/// Returns all lines before the message line.
#[tactic(auto, using(crate::proofs::Front::all_lines, crate::proofs::Front::all_dropped))]
pub(crate) fn dropped_lines<'a>(
    alloc: Global,
    bytes: &'a [u8],
) -> Result<Vec<DroppedLine<'a>>, AllocError>
    requires { IsTrue (list_all is_line (front_lines bytes.now)) }
    ensures { IfOk result (λ dropped. dropped.items ≡ map dropped_line (front_lines bytes.now)) }
{
    let front = front_lines(alloc, bytes)?;
    put_dropped(alloc, front.as_slice())
}
