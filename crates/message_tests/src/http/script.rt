//! The steps of a script, and the expected answers.
use desk_commands::Verb;
use imp_fields::Airport;
use station_core::Key;
use station_days::Moment;
use std::alloc::AllocError;

#[derive(Clone, Copy)]
pub enum ScriptFault {
    /// A line of the script, counted from 1, is malformed.
    Bad { line: u32, why: &'static str },
    Memory,
}

impl From<AllocError> for ScriptFault {
    fn from(_: AllocError) -> ScriptFault {
        ScriptFault::Memory
    }
}

#[derive(Clone, Copy)]
pub enum Care {
    Whole,
    Every,
    Early,
    Long,
    After(u32),
}

#[derive(Clone, Copy)]
pub enum Ask {
    Act(Verb, Key),
    Request(Care),
}

#[derive(Drop)]
pub struct Step<'a> {
    pub line: u32,
    pub at: Moment,
    pub ask: Ask,
    pub body: &'a str,
    pub sent: Vec<u8>,
    /// The number of bytes needed for its answer.
    pub needed: usize,
    pub answer: Vec<u8>,
}

impl Step<'_> {
    /// Returns whether it may change the station: a command, or a POST that is answered 200.
    pub fn may_change(&self) -> bool {
        match self.ask {
            Ask::Act(_, _) => true,
            Ask::Request(_) => {
                self.sent.starts_with(b"POST") && self.answer.starts_with(b"HTTP/1.1 200")
            }
        }
    }
}

#[derive(Drop)]
pub struct Story<'a> {
    pub here: Airport,
    pub steps: Vec<Step<'a>>,
}
