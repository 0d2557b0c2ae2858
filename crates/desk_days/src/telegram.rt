//! The bytes of a telegram.
use crate::day::{DayFault, Form, Repeated};
use std::alloc::{AllocError, Global};

fn put_line(bytes: &mut Vec<u8>, line: &Repeated<'_>, end: &[u8]) -> Result<(), AllocError> {
    for _ in 0..line.times {
        bytes.extend_from_slice(line.text.as_bytes())?;
        bytes.extend_from_slice(end)?;
    }
    Ok(())
}

fn put_digits(alloc: Global, bytes: &mut Vec<u8>, line: &Repeated<'_>) -> Result<(), DayFault> {
    let Ok(told) = hex::decode(alloc, line.text) else {
        return Err(DayFault::Bad {
            line: line.line,
            why: "these are no digits of bytes",
        });
    };
    for _ in 0..line.times {
        bytes.extend_from_slice(&told)?;
    }
    Ok(())
}

pub fn bytes_of(alloc: Global, form: Form, lines: &[Repeated<'_>]) -> Result<Vec<u8>, DayFault> {
    let mut bytes = Vec::new(alloc);
    for line in lines {
        match form {
            Form::CrLf => put_line(&mut bytes, line, b"\r\n")?,
            Form::Lf => put_line(&mut bytes, line, b"\n")?,
            Form::Hex => put_digits(alloc, &mut bytes, line)?,
        }
    }
    Ok(bytes)
}
