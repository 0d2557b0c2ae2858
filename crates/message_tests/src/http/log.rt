//! The outcome of a script.
use crate::http::ends::Stop;
use std::alloc::{AllocError, Global};
use std::fmt;
use test_kit::shown;

/// A way of playing a request.
#[derive(Clone, Copy)]
pub enum Way {
    InOnePiece,
    ByteByByte,
    InPieces,
    Interrupted,
    Beginning(usize),
    Beginnings,
    Room(usize, Stop),
    Rooms,
    Again(usize),
    After(u32),
}

impl fmt::Display for Way {
    fn fmt<W: fmt::Write>(&self, f: &mut fmt::Formatter<W>) -> fmt::Result {
        match self {
            Way::InOnePiece => write!(f, "in one piece"),
            Way::ByteByByte => write!(f, "byte by byte"),
            Way::InPieces => write!(f, "in pieces"),
            Way::Interrupted => write!(f, "interrupted"),
            Way::Beginning(count) => write!(f, "its first {count} bytes"),
            Way::Beginnings => write!(f, "its beginnings"),
            Way::Rooms => write!(f, "writers that stop"),
            Way::Room(count, Stop::Fails) => write!(f, "a writer that fails behind {count} bytes"),
            Way::Room(count, Stop::TakesNone) => write!(f, "a writer with room for {count} bytes"),
            Way::Again(count) => write!(f, "again, behind {count} bytes"),
            Way::After(count) => write!(f, "behind {count} interrupted reads"),
        }
    }
}

#[derive(Drop)]
pub struct Log {
    alloc: Global,
    pub text: String,
    pub differences: u64,
    /// The number of requests played.
    pub answers: u64,
}

impl Log {
    pub fn new(alloc: Global) -> Log {
        Log {
            alloc,
            text: String::new(alloc),
            differences: 0,
            answers: 0,
        }
    }

    fn note(
        &mut self,
        line: u32,
        way: Way,
        what: &str,
        wanted: &str,
        came: &str,
    ) -> Result<(), AllocError> {
        self.differences = self.differences.saturating_add(1);
        let text = format!(in self.alloc;
            "line {line}, {way}: {what}\n  wanted: {wanted:?}\n  came:   {came:?}\n"
        )?;
        self.text.push_str(text.as_str())
    }

    pub fn compare(
        &mut self,
        line: u32,
        way: Way,
        what: &str,
        wanted: &[u8],
        came: &[u8],
    ) -> Result<(), AllocError> {
        if wanted == came {
            return Ok(());
        }
        self.note(line, way, what, shown(wanted), shown(came))
    }
}
