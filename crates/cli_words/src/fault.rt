use std::alloc::{AllocError, Global};

/// The reason why words aren't a command line.
#[derive(Drop)]
pub enum WordsFault {
    /// The help was requested: its text.
    Help(String),
    /// The program's version was requested.
    Version,
    /// Wrong usage: the fault, and how to call the program.
    Usage(String),
    /// Memory ran out.
    Memory,
}

impl From<AllocError> for WordsFault {
    fn from(_: AllocError) -> WordsFault {
        WordsFault::Memory
    }
}

/// A word that `clap` accepted, and that isn't valid in its place.
#[derive(Clone, Copy)]
pub(crate) enum BadValue<'a> {
    /// A text that isn't valid in its place: the place, the text and what is expected.
    Invalid(&'a str, &'a str, &'a str),
    Verb(&'a str),
    /// The key of `act`, which reads a body.
    Key(&'a str),
    ReportName(&'a str),
    /// The report doesn't have this part.
    Part(&'a str),
    /// A call without an option that it needs before its command.
    Lacks(&'a str),
    /// Rows of a flight, by their name, without the flight.
    Flightless(&'a str),
    /// `--at` with an option or a command that needs the station's own file.
    Beside,
}

pub(crate) const KEY: &str = "expected 1 to 40 printable characters without spaces";

/// The expectation for the number of a row.
pub(crate) const ROW: &str = "expected a number from 0 to 4294967295";

const REPORT_NAME: &str =
    "expected stock, announced, shed, shed-days, flights, expected, irregularities, \
    irregularity-days, movements, trail, sent, station, manifest or arrivals";

const PART: &str =
    "only flights, expected and irregularities take --open, only stock takes --agent, only \
    movements, trail and sent take --awb or --after, only movements and trail --last, only \
    manifest and arrivals take FLIGHT; a report takes one of them";

/// The options and commands that exclude `--at`.
const BESIDE: &str =
    "--at can't be used with --db, --station, --zone, init, migrate or serve: the service has its \
    own file, airport and zone";

impl BadValue<'_> {
    fn told(self, alloc: Global) -> Result<String, AllocError> {
        match self {
            BadValue::Invalid(place, text, expected) => {
                format!(in alloc; "invalid {place} '{text}': {expected}")
            }
            BadValue::Key(text) => {
                format!(in alloc;
                    "invalid KEY '{text}': {KEY}; the body is read from standard input"
                )
            }
            BadValue::Verb(text) => {
                format!(in alloc; "unknown verb '{text}'; `cargo_desk act --help` lists the verbs")
            }
            BadValue::ReportName(text) => {
                format!(in alloc; "unknown report '{text}'; {REPORT_NAME}")
            }
            BadValue::Part(name) => format!(in alloc; "report {name}: {PART}"),
            BadValue::Lacks(told) => String::from_str(alloc, told),
            BadValue::Flightless(name) => {
                format!(in alloc; "report {name} needs FLIGHT after it")
            }
            BadValue::Beside => String::from_str(alloc, BESIDE),
        }
    }
}

pub(crate) fn value_fault(alloc: Global, bad: BadValue<'_>) -> WordsFault {
    match bad.told(alloc) {
        Ok(told) => usage_fault(alloc, told.as_str()),
        Err(_) => WordsFault::Memory,
    }
}

/// Returns the fault with this message, and how to call the program.
pub fn usage_fault(alloc: Global, told: &str) -> WordsFault {
    match format!(in alloc;
        "error: {told}\n\nUsage: cargo_desk [OPTIONS] <COMMAND>\n\n\
        For more information, try '--help'.\n"
    ) {
        Ok(text) => WordsFault::Usage(text),
        Err(_) => WordsFault::Memory,
    }
}
