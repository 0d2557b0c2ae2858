//! The statements of a script, and their expected output.
use awb_number::Awb;
use desk_commands::Verb;
use imp_fields::Airport;
use reports::Report;
use station_core::Key;
use station_days::Moment;
use station_tables::AttachFault;
use std::alloc::AllocError;

#[derive(Clone, Copy)]
pub enum DayFault {
    /// A line of the script, counted from 1, is malformed.
    Bad { line: u32, why: &'static str },
    /// The tables at the statement on this line aren't a station's.
    Unopened { line: u32, fault: AttachFault },
    Memory,
}

impl From<AllocError> for DayFault {
    fn from(_: AllocError) -> DayFault {
        DayFault::Memory
    }
}

/// The encoding of a telegram's lines.
#[derive(Clone, Copy)]
pub enum Form {
    CrLf,
    Lf,
    Hex,
}

#[derive(Clone, Copy)]
pub enum Ask {
    Station(Airport),
    Act(Verb, Key),
    Take(Form),
    Beginnings,
    Stock,
    Waybill(Awb),
    Holder(Awb),
    Report(Report),
    /// Write the messages to a writer that fails after this many bytes.
    CutOutbox(usize),
    Request,
}

#[derive(Clone, Copy)]
pub struct Repeated<'a> {
    pub line: u32,
    pub times: u32,
    pub text: &'a str,
}

#[derive(Clone, Copy)]
pub struct Wanted<'a> {
    pub line: u32,
    pub text: &'a str,
}

#[derive(Drop)]
pub struct Step<'a> {
    pub line: u32,
    pub at: Moment,
    pub ask: Ask,
    pub body: &'a str,
    pub lines: Vec<Repeated<'a>>,
    pub wanted: Vec<Wanted<'a>>,
}

#[derive(Drop)]
pub struct Day<'a> {
    /// The airport of its first station.
    pub here: Airport,
    pub steps: Vec<Step<'a>>,
}

impl Day<'_> {
    pub fn told(&self) -> u64 {
        let mut told: u64 = 0;
        for step in &self.steps {
            told = told.saturating_add(step.wanted.len() as u64);
        }
        told
    }
}
