//! Status update messages.
use crate::said::{fault_said, token_said};
use fsu_text::{Fsu, read};
use imp_fields::{TextFault, normal_text};
use std::alloc::Global;
use test_kit::shown;

pub fn answer(alloc: Global, asked: &str, text: &[u8]) -> Option<String> {
    match asked {
        "trail" => trail(alloc, &message(alloc, text).ok()?),
        "fault" => fault_said(alloc, message(alloc, text)),
        "status" => status(alloc, text),
        _ => None,
    }
}

pub fn message<'a>(alloc: Global, text: &'a [u8]) -> Result<Fsu<'a>, TextFault> {
    read(alloc, &normal_text(alloc, text)?)
}

/// Returns each line of the trail, with whether its layout is known.
fn trail(alloc: Global, message: &Fsu<'_>) -> Option<String> {
    let mut said = format!(in alloc; "{}", message.consignment.awb).ok()?;
    for line in &message.trail {
        let token = token_said(alloc, &line.text)?;
        let known = match line.status {
            Some(_) => "read",
            None => "kept",
        };
        write!(said, " {token} {known}").ok()?;
    }
    Some(said)
}

/// Returns the values of a status line, or `None` if it is stored unread.
fn status(alloc: Global, line: &[u8]) -> Option<String> {
    let front = b"FSU/12\r\n020-12345675FRAJFK/T10K100.0\r\n".as_slice();
    let text = [front, line].concat(alloc).ok()?;
    let message = message(alloc, &text).ok()?;
    let line = message.trail.first()?;
    readable(alloc, format!(in alloc; "{:?}", line.status).ok()?.as_str())
}

/// Returns a debug form with its arrays of bytes as texts: `[70, 82, 65]` as `[FRA]`. The zeros
/// after a text aren't printed.
fn readable(alloc: Global, written: &str) -> Option<String> {
    let mut said = String::new(alloc);
    let mut parts = written.split('[');
    said.push_str(parts.next()?).ok()?;
    for part in parts {
        let (array, rest) = part.split_once(']')?;
        let mut bytes = Vec::new(alloc);
        for number in array.split(", ") {
            bytes.push(number.parse::<u8>().ok()?).ok()?;
        }
        let text = shown(&bytes).trim_end_matches('\0');
        write!(said, "[{text}]{rest}").ok()?;
    }
    Some(said)
}
