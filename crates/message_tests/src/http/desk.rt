//! Stations, and the outcomes of connections to them.
use crate::http::ends::{Sent, Stop, Taken};
use crate::http::script::{Ask, ScriptFault, Step, Story};
use desk_commands::{Verb, read_command};
use http_desk::{ServeFault, Served, serve_one};
use plain_station::PlainStation;
use serde_json::Value;
use station_core::{Answer, Counted, Input, Key, answer_one};
use station_days::Moment;
use std::alloc::{AllocError, Global};

/// The requests that show the state of a station.
const LOOKS: [&str; 11] = [
    "reports/stock",
    "reports/shed",
    "reports/flights",
    "reports/expected",
    "reports/irregularities",
    "reports/movements",
    "reports/trail",
    "outbox",
    "waybills/020-12345675",
    "waybills/020-12345675/history",
    "stock/020-12345723",
];

#[derive(Drop)]
pub struct Came {
    pub served: Result<Served, ServeFault>,
    pub written: Vec<u8>,
    pub unread: usize,
}

/// Returns a reader that returns at most `most` bytes a read.
pub fn sent(bytes: &[u8], most: usize) -> Sent<'_> {
    Sent {
        rest: bytes,
        most,
        pauses: 0,
        pauses_between: 0,
    }
}

/// Returns a writer that takes at most `most` bytes a write.
pub fn taken(alloc: Global, most: usize) -> Taken {
    Taken {
        bytes: Vec::new(alloc),
        room: usize::MAX,
        most,
        stop: Stop::Fails,
    }
}

pub fn connect(
    alloc: Global,
    station: &mut PlainStation,
    at: Moment,
    sent: Sent<'_>,
    taken: Taken,
) -> Came {
    let mut reader = Counted::new(sent);
    let mut writer = Counted::new(taken);
    let served = serve_one(alloc, station, &mut reader, &mut writer, at);
    let unread = reader.into_inner().rest.len();
    let Taken { bytes, .. } = writer.into_inner();
    Came {
        served,
        written: bytes,
        unread,
    }
}

/// Serves a connection on which the bytes arrive in one piece.
pub fn connect_at_once(
    alloc: Global,
    station: &mut PlainStation,
    at: Moment,
    bytes: &[u8],
) -> Came {
    let reader = sent(bytes, usize::MAX);
    let writer = taken(alloc, usize::MAX);
    connect(alloc, station, at, reader, writer)
}

pub fn state_of(
    alloc: Global,
    station: &mut PlainStation,
    at: Moment,
) -> Result<Vec<u8>, AllocError> {
    let mut state = Vec::new(alloc);
    for look in LOOKS {
        let request = format!(in alloc; "GET /v1/{look} HTTP/1.1\r\n\r\n")?;
        let came = connect_at_once(alloc, station, at, request.as_bytes());
        state.extend_from_slice(&came.written)?;
    }
    Ok(state)
}

fn acts(
    alloc: Global,
    station: &mut PlainStation,
    verb: Verb,
    key: Key,
    body: &str,
    at: Moment,
) -> bool {
    let Ok(value) = Value::from_str(alloc, body) else {
        return false;
    };
    let Ok(command) = read_command(verb, &value) else {
        return false;
    };
    let input = Input::Keyed(key, command);
    matches!(answer_one(station, &input, at), Ok(Answer::Done(_)))
}

fn do_step(alloc: Global, station: &mut PlainStation, step: &Step<'_>) -> Result<(), ScriptFault> {
    match step.ask {
        Ask::Act(verb, key) => {
            if acts(alloc, station, verb, key, step.body, step.at) {
                return Ok(());
            }
            Err(ScriptFault::Bad {
                line: step.line,
                why: "the station didn't do it",
            })
        }
        Ask::Request(_) => {
            let _came = connect_at_once(alloc, station, step.at, &step.sent);
            Ok(())
        }
    }
}

/// Returns a new station after the first steps of a story.
pub fn station_after(
    alloc: Global,
    story: &Story<'_>,
    count: usize,
) -> Result<PlainStation, ScriptFault> {
    let mut station = PlainStation::new(alloc, story.here);
    for step in story.steps.iter().take(count) {
        if step.may_change() {
            do_step(alloc, &mut station, step)?;
        }
    }
    Ok(station)
}
