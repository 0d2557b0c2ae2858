//! A line in a file of cases.
use std::alloc::Global;

#[derive(Drop)]
pub struct Case<'a> {
    pub asked: &'a str,
    pub text: Vec<u8>,
    pub wanted: Vec<u8>,
}

fn byte(high: u8, low: u8) -> Option<u8> {
    let digits = [high, low];
    u8::from_str_radix(std::str::from_utf8(&digits).ok()?, 16).ok()
}

/// Appends the text after a backslash: `n`, `r`, `t` or `x` with two digits, and then text.
fn push_escaped(bytes: &mut Vec<u8>, escaped: &[u8]) -> Option<()> {
    let (first, rest) = match escaped {
        [b'n', rest @ ..] => (b'\n', rest),
        [b'r', rest @ ..] => (b'\r', rest),
        [b't', rest @ ..] => (b'\t', rest),
        [b'x', high, low, rest @ ..] => (byte(*high, *low)?, rest),
        _ => return None,
    };
    bytes.push(first).ok()?;
    bytes.extend_from_slice(rest).ok()
}

fn unescaped(alloc: Global, text: &str) -> Option<Vec<u8>> {
    let mut bytes = Vec::new(alloc);
    let mut parts = text.split('\\');
    if let Some(first) = parts.next() {
        bytes.extend_from_slice(first.as_bytes()).ok()?;
    }
    for escaped in parts {
        push_escaped(&mut bytes, escaped.as_bytes())?;
    }
    Some(bytes)
}

/// Reads how often the next piece is repeated: `12*`, or once.
fn times(word: &str) -> Option<u32> {
    if word.is_empty() {
        return Some(1);
    }
    word.strip_suffix('*')?.parse::<u32>().ok()
}

/// Returns the bytes of pieces in single quotes, such as `'FWB/16' 3*'\n'`.
fn joined(alloc: Global, source: &str) -> Option<Vec<u8>> {
    let mut bytes = Vec::new(alloc);
    let mut count = 1;
    let mut is_quoted = false;
    for part in source.split('\'') {
        if is_quoted {
            let piece = unescaped(alloc, part)?;
            for _ in 0..count {
                bytes.extend_from_slice(&piece).ok()?;
            }
        } else {
            count = times(part.trim())?;
        }
        is_quoted = !is_quoted;
    }
    if is_quoted { Some(bytes) } else { None }
}

pub fn read_case<'a>(alloc: Global, line: &'a str) -> Option<Case<'a>> {
    let (given, wanted) = line.split_once(" = ")?;
    let (asked, source) = given.split_once(' ')?;
    Some(Case {
        asked,
        text: joined(alloc, source)?,
        wanted: unescaped(alloc, wanted)?,
    })
}
