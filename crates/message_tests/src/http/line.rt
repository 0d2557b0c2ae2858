//! The bytes of a script's line.
use crate::http::script::ScriptFault;
use std::alloc::{AllocError, Global};
use test_kit::first_word;

#[derive(Clone, Copy)]
enum End {
    CrLf,
    Lf,
    Nothing,
}

impl End {
    fn bytes(self) -> &'static [u8] {
        match self {
            End::CrLf => b"\r\n",
            End::Lf => b"\n",
            End::Nothing => b"",
        }
    }
}

fn repeated(rest: &str) -> Option<(u32, &str)> {
    let (times, text) = first_word(rest);
    if times.is_empty() {
        return Some((1, text));
    }
    Some((times.parse::<u32>().ok()?, text))
}

fn put(bytes: &mut Vec<u8>, times: u32, text: &[u8], end: End) -> Result<(), AllocError> {
    for _ in 0..times {
        bytes.extend_from_slice(text)?;
        bytes.extend_from_slice(end.bytes())?;
    }
    Ok(())
}

fn put_text(bytes: &mut Vec<u8>, line: u32, rest: &str, end: End) -> Result<(), ScriptFault> {
    match repeated(rest) {
        Some((times, text)) => {
            put(bytes, times, text.as_bytes(), end)?;
            Ok(())
        }
        None => Err(ScriptFault::Bad {
            line,
            why: "no text stands behind the sign",
        }),
    }
}

fn put_digits(
    alloc: Global,
    bytes: &mut Vec<u8>,
    line: u32,
    rest: &str,
) -> Result<(), ScriptFault> {
    let told = match repeated(rest) {
        Some((times, digits)) => match hex::decode(alloc, digits) {
            Ok(told) => Some((times, told)),
            Err(_) => None,
        },
        None => None,
    };
    match told {
        Some((times, told)) => {
            put(bytes, times, &told, End::Nothing)?;
            Ok(())
        }
        None => Err(ScriptFault::Bad {
            line,
            why: "these are no digits of bytes",
        }),
    }
}

pub fn put_line(
    alloc: Global,
    bytes: &mut Vec<u8>,
    line: u32,
    rest: &str,
) -> Result<(), ScriptFault> {
    if let Some(digits) = rest.strip_prefix('x') {
        return put_digits(alloc, bytes, line, digits);
    }
    if let Some(text) = rest.strip_prefix('/') {
        return put_text(bytes, line, text, End::Lf);
    }
    if let Some(text) = rest.strip_prefix('+') {
        return put_text(bytes, line, text, End::Nothing);
    }
    put_text(bytes, line, rest, End::CrLf)
}
