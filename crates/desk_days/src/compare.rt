//! Comparing the output with a script.
use crate::day::Step;
use crate::desk::Kind;
use std::alloc::{AllocError, Global};
use test_kit::shown;

fn without_cr(line: &[u8]) -> &[u8] {
    match line.split_last() {
        Some((b'\r', rest)) => rest,
        _ => line,
    }
}

fn next_line(text: &[u8]) -> Option<(&[u8], &[u8])> {
    if text.is_empty() {
        return None;
    }
    match text.iter().position(|b| *b == b'\n') {
        Some(end) => {
            let (line, rest) = text.split_at(end);
            Some((without_cr(line), &rest[1..]))
        }
        None => Some((text, b"")),
    }
}

#[derive(Clone, Copy)]
struct Place<'a> {
    name: &'a str,
    line: u32,
    kind: Kind,
}

fn note(
    alloc: Global,
    log: &mut String,
    at: &Place<'_>,
    wanted: &str,
    came: &str,
) -> Result<(), AllocError> {
    let (name, line, kind) = (at.name, at.line, at.kind.name());
    let text = format!(in alloc;
        "{name}:{line}: on {kind}\n  wanted: {wanted}\n  came:   {came}\n"
    )?;
    log.push_str(text.as_str())
}

/// Returns the number of lines that differ at a statement, and records each.
pub fn compare(
    alloc: Global,
    name: &str,
    kind: Kind,
    step: &Step<'_>,
    printed: &[u8],
    log: &mut String,
) -> Result<u64, AllocError> {
    let mut rest = printed;
    let mut differences: u64 = 0;
    for wanted in &step.wanted {
        let at = Place {
            name,
            line: wanted.line,
            kind,
        };
        let Some((line, more)) = next_line(rest) else {
            note(alloc, log, &at, wanted.text, "no line")?;
            differences = differences.saturating_add(1);
            continue;
        };
        rest = more;
        if line != wanted.text.as_bytes() {
            note(alloc, log, &at, wanted.text, shown(line))?;
            differences = differences.saturating_add(1);
        }
    }
    let at = Place {
        name,
        line: step.line,
        kind,
    };
    if let Some((line, _)) = next_line(rest) {
        note(alloc, log, &at, "no further line", shown(line))?;
        differences = differences.saturating_add(1);
    }
    Ok(differences)
}
