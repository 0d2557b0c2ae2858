//! The lines of a message, from its message line on.

ghost use Rattle.std.specs.Prelude.{◌≡◌, ◌≤◌, ◌++◌, IsTrue, IfOk, OnOk, length, map};
ghost use Rattle.input_reasons.specs.Common.{list_all, is_line, line_texts, most_lines, is_line_token, is_cargo_line};
ghost use Rattle.input_reasons.specs.Look.{cargo_of, is_unread, left_behind, loaded_part, lower_lines, lower_part, manifest_part, second_part, seen_line, seen_lines};

use crate::look::{LinePart, SeenLine};
use crate::tell::is_doubtful;
use ffm_text::unloading_point;
use imp_fields::{Lines, Token};
use shipment_machine::{InboundLine, TrailLine};
use std::alloc::{AllocError, Global};
use telegrams::Content;

fn is_unread(part: &LinePart) -> bool
    ensures { result ≡ is_unread part.now }
{
    matches!(part, LinePart::Status | LinePart::Passed)
}

fn seen_line<'a>(
    alloc: Global,
    number: u32,
    part: LinePart,
    text: &'a [u8],
) -> Result<SeenLine<'a>, AllocError>
    requires { IsTrue (is_line text.now) }
    ensures { IfOk result (λ line. line ≡ seen_line number part text.now) }
{
    Ok(SeenLine {
        number,
        part,
        text: TrailLine::new(text),
        doubtful: is_unread(&part) && is_doubtful(alloc, text)?,
    })
}

fn second_part(says: &Content<'_>) -> LinePart
    ensures { result ≡ second_part says.now }
{
    match says {
        Content::Fwb(cargo) => LinePart::Declared(*cargo),
        Content::Ffm(_) => LinePart::Flight,
        Content::Fsu(_) => LinePart::Waybill,
    }
}

/// Returns how a cargo line is read: as the next of the remaining lines.
fn loaded_part(left: &[InboundLine]) -> LinePart
    ensures { result ≡ loaded_part left.now }
{
    left.first()
        .map_or(LinePart::Passed, |cargo| LinePart::Loaded(*cargo))
}

/// Returns whether a line begins with three digits and a hyphen, so that it is a consignment line.
fn is_cargo_line(line: &[u8]) -> bool
    ensures { result ≡ is_cargo_line line.now }
{
    match line {
        [first, second, third, b'-', ..] => {
            first.is_ascii_digit() && second.is_ascii_digit() && third.is_ascii_digit()
        }
        _ => false,
    }
}

fn manifest_part(left: &[InboundLine], line: &[u8], is_last: bool) -> LinePart
    ensures { result ≡ manifest_part left.now line.now is_last }
{
    if is_cargo_line(line) {
        loaded_part(left)
    } else if unloading_point(line).is_some() {
        LinePart::Point
    } else if is_last {
        LinePart::Last
    } else {
        LinePart::Passed
    }
}

fn lower_part(says: &Content<'_>, left: &[InboundLine], line: &[u8], is_last: bool) -> LinePart
    ensures { result ≡ lower_part says.now left.now line.now is_last }
{
    match says {
        Content::Fwb(_) => LinePart::Passed,
        Content::Ffm(_) => manifest_part(left, line, is_last),
        Content::Fsu(_) => LinePart::Status,
    }
}

fn left_behind<'c>(line: &[u8], left: &'c [InboundLine]) -> &'c [InboundLine]
    ensures { result.now ≡ left_behind line.now left.now }
{
    match left.split_first() {
        Some((_, behind)) if is_cargo_line(line) => behind,
        _ => left,
    }
}

fn cargo_of<'c>(says: &'c Content<'_>) -> &'c [InboundLine]
    ensures { result.now ≡ cargo_of says.now }
{
    match says {
        Content::Ffm(part) => part.lines.as_slice(),
        _ => &[],
    }
}

/// Appends the lines after the second. The first of them is line 3.
fn put_lower<'a>(
    alloc: Global,
    says: &Content<'_>,
    lower: &[Token<'a>],
    seen: &mut Vec<SeenLine<'a>>,
) -> Result<(), AllocError>
    requires few { length lower.now ≤ most_lines }
    requires printable { IsTrue (list_all is_line_token lower.now) }
    ensures { OnOk result (seen.new.items ≡ seen.old.items ++ lower_lines says.now 3
        (cargo_of says.now) (map (λ t. t.text.now) lower.now)) }
{
    let mut left = cargo_of(says);
    let mut number = 2;
    for line in lower {
        number += 1;
        let part = lower_part(says, left, line.text, number == lower.len() + 2);
        seen.push(seen_line(alloc, number as u32, part, line.text)?)?;
        left = left_behind(line.text, left);
    }
    Ok(())
}

/// Returns how each line of a message is read.
pub(crate) fn seen_lines<'a>(
    alloc: Global,
    says: &Content<'_>,
    lines: &Lines<'a>,
) -> Result<Vec<SeenLine<'a>>, AllocError>
    ensures { IfOk result (λ seen. seen.items ≡ seen_lines says.now (line_texts lines.now)) }
{
    let mut seen = Vec::new(alloc);
    let Some((head, behind)) = lines.lines.as_slice().split_first() else {
        return Ok(seen);
    };
    seen.push(seen_line(alloc, 1, LinePart::Head, head.text)?)?;
    let Some((second, lower)) = behind.split_first() else {
        return Ok(seen);
    };
    seen.push(seen_line(alloc, 2, second_part(says), second.text)?)?;
    put_lower(alloc, says, lower, &mut seen)?;
    Ok(seen)
}
