//! A day, played on a station.
use crate::asking::{cut_pending, report_text, served};
use crate::compare::compare;
use crate::day::{Ask, Day, DayFault, Form, Repeated, Step};
use crate::desk::{Desk, Kind};
use crate::objects::{holder_object, waybill_object};
use crate::telegram::bytes_of;
use awb_number::Awb;
use desk_commands::{Verb, read_command, read_command_text};
use imp_fields::Airport;
use serde_json::Value;
use station_core::{ActFault, Answer, Input, Keeper, Key, answer_one, refusal_text, reply_text};
use station_days::Moment;
use std::alloc::{AllocError, Global};
use telegrams::{TelegramFault, read_telegram};
use test_kit::Job;

/// The number of expected lines above which a day is long.
const LONG: u64 = 300;

#[derive(Drop)]
pub struct Played {
    pub differences: u64,
    pub log: String,
    pub openings: u64,
}

impl Played {
    pub fn new(alloc: Global) -> Played {
        Played {
            differences: 0,
            log: String::new(alloc),
            openings: 0,
        }
    }
}

fn fault_text(alloc: Global, fault: &ActFault) -> Result<String, AllocError> {
    match fault {
        ActFault::Refused(refusal) => refusal_text(alloc, refusal),
        ActFault::Store => String::from_str(alloc, "fault store"),
        ActFault::Reopen => String::from_str(alloc, "fault reopen"),
        _ => String::from_str(alloc, "fault memory"),
    }
}

fn answer_text(alloc: Global, answer: &Result<Answer, ActFault>) -> Result<String, AllocError> {
    match answer {
        Ok(Answer::Done(reply)) => reply_text(alloc, reply),
        Ok(Answer::Refused(refusal)) => refusal_text(alloc, refusal),
        Err(fault) => fault_text(alloc, fault),
    }
}

fn act<K: Keeper>(
    alloc: Global,
    keeper: &mut K,
    input: &Input<'_>,
    at: Moment,
) -> Result<String, AllocError> {
    let answer = answer_one(keeper, input, at);
    answer_text(alloc, &answer)
}

fn act_body<K: Keeper>(
    alloc: Global,
    keeper: &mut K,
    verb: Verb,
    key: Key,
    body: &str,
    at: Moment,
) -> Result<String, AllocError> {
    let value = match Value::from_str(alloc, body) {
        Ok(value) => value,
        Err(e) if e.is_memory() => return Err(AllocError),
        Err(_) => return String::from_str(alloc, "body bad"),
    };
    match read_command(verb, &value) {
        Ok(command) => act(alloc, keeper, &Input::Keyed(key, command), at),
        Err(_) => String::from_str(alloc, "body bad"),
    }
}

fn take<K: Keeper>(
    alloc: Global,
    keeper: &mut K,
    bytes: &[u8],
    at: Moment,
) -> Result<String, AllocError> {
    match read_telegram(alloc, bytes) {
        Ok(telegram) => act(alloc, keeper, &Input::Wire(telegram), at),
        Err(TelegramFault::Refused(refusal)) => refusal_text(alloc, &refusal),
        Err(TelegramFault::Memory) => Err(AllocError),
    }
}

fn put_run(
    alloc: Global,
    out: &mut Vec<u8>,
    from: usize,
    to: usize,
    answer: &str,
) -> Result<(), AllocError> {
    let line = format!(in alloc; "{from} to {to}: {answer}\n")?;
    out.extend_from_slice(line.as_bytes())
}

fn take_beginnings<K: Keeper>(
    alloc: Global,
    keeper: &mut K,
    bytes: &[u8],
    at: Moment,
    out: &mut Vec<u8>,
) -> Result<(), AllocError> {
    let mut from = 0;
    let mut before = take(alloc, keeper, b"", at)?;
    for to in 1..=bytes.len() {
        let answer = take(alloc, keeper, &bytes[..to], at)?;
        if answer.as_str() != before.as_str() {
            put_run(alloc, out, from, to - 1, before.as_str())?;
            from = to;
            before = answer;
        }
    }
    put_run(alloc, out, from, bytes.len(), before.as_str())
}

/// Returns the key of a stock row of six fields and the text of its command.
fn row_text(alloc: Global, row: &str) -> Result<Option<(Key, String)>, AllocError> {
    if row.split(',').count() != 6 {
        return Ok(None);
    }
    let Some((key, rest)) = row.split_once(',') else {
        return Ok(None);
    };
    let Some(key) = Key::read(key.as_bytes()) else {
        return Ok(None);
    };
    // Take-in and void have no agent.
    let fields = match rest.strip_suffix(',') {
        Some(fields) => fields,
        None => rest,
    };
    let mut text = String::new(alloc);
    for field in fields.split(',') {
        if !text.is_empty() {
            text.push('\n')?;
        }
        text.push_str(field)?;
    }
    Ok(Some((key, text)))
}

fn act_row<K: Keeper>(
    alloc: Global,
    keeper: &mut K,
    number: u32,
    row: &str,
    at: Moment,
) -> Result<String, AllocError> {
    if let Some((key, text)) = row_text(alloc, row)?
        && let Some(command) = read_command_text(text.as_bytes())
    {
        let answer = act(alloc, keeper, &Input::Keyed(key, command), at)?;
        return format!(in alloc; "{key} {answer}");
    }
    format!(in alloc; "row {number} bad")
}

fn act_rows<K: Keeper>(
    alloc: Global,
    keeper: &mut K,
    rows: &[Repeated<'_>],
    at: Moment,
    out: &mut Vec<u8>,
) -> Result<(), AllocError> {
    let mut number: u32 = 0;
    for row in rows {
        for _ in 0..row.times {
            number = number.saturating_add(1);
            let answer = act_row(alloc, keeper, number, row.text, at)?;
            put_text(out, &answer)?;
        }
    }
    Ok(())
}

pub fn holder_text<K: Keeper>(
    alloc: Global,
    keeper: &mut K,
    number: &Awb,
) -> Result<String, AllocError> {
    match keeper.holder(number) {
        Ok(Some(holder)) => holder_object(alloc, number, &holder),
        Ok(None) => String::from_str(alloc, "none"),
        Err(fault) => fault_text(alloc, &fault),
    }
}

pub fn waybill_text<K: Keeper>(
    alloc: Global,
    keeper: &mut K,
    number: &Awb,
) -> Result<String, AllocError> {
    match keeper.waybill(number) {
        Ok(Some(waybill)) => waybill_object(alloc, number, &waybill),
        Ok(None) => String::from_str(alloc, "none"),
        Err(fault) => fault_text(alloc, &fault),
    }
}

pub fn put_text(out: &mut Vec<u8>, text: &str) -> Result<(), AllocError> {
    out.extend_from_slice(text.as_bytes())?;
    out.extend_from_slice(b"\n")
}

fn answered<K: Keeper>(
    alloc: Global,
    keeper: &mut K,
    lines: &[Repeated<'_>],
    at: Moment,
) -> Result<Vec<u8>, DayFault> {
    let request = bytes_of(alloc, Form::CrLf, lines)?;
    match served(alloc, keeper, &request, at) {
        Some(answer) => Ok(answer),
        None => Ok(b"no answer".to_vec(alloc)?),
    }
}

/// Returns the messages as written to a writer that fails after `room` bytes, and a line about the
/// fault.
fn cut_outbox<K: Keeper>(
    alloc: Global,
    keeper: &mut K,
    room: usize,
) -> Result<Vec<u8>, AllocError> {
    let (mut out, sent) = cut_pending(alloc, keeper, room);
    let line = match sent {
        Some(sent) => format!(in alloc; "fault after {sent}\n")?,
        None => String::from_str(alloc, "no fault\n")?,
    };
    out.extend_from_slice(line.as_bytes())?;
    Ok(out)
}

fn printed<K: Keeper>(alloc: Global, keeper: &mut K, step: &Step<'_>) -> Result<Vec<u8>, DayFault> {
    let mut out = Vec::new(alloc);
    match &step.ask {
        Ask::Station(_) => {}
        Ask::Act(verb, key) => {
            put_text(
                &mut out,
                &act_body(alloc, keeper, *verb, *key, step.body, step.at)?,
            )?;
        }
        Ask::Take(form) => {
            let bytes = bytes_of(alloc, *form, &step.lines)?;
            put_text(&mut out, &take(alloc, keeper, &bytes, step.at)?)?;
        }
        Ask::Beginnings => {
            let bytes = bytes_of(alloc, Form::Lf, &step.lines)?;
            take_beginnings(alloc, keeper, &bytes, step.at, &mut out)?;
        }
        Ask::Stock => act_rows(alloc, keeper, &step.lines, step.at, &mut out)?,
        Ask::Waybill(number) => put_text(&mut out, &waybill_text(alloc, keeper, number)?)?,
        Ask::Holder(number) => put_text(&mut out, &holder_text(alloc, keeper, number)?)?,
        Ask::CutOutbox(room) => return Ok(cut_outbox(alloc, keeper, *room)?),
        Ask::Request => return answered(alloc, keeper, &step.lines, step.at),
        Ask::Report(report) => match report_text(alloc, keeper, *report) {
            Ok(text) => return Ok(text),
            Err(fault) => put_text(&mut out, &fault_text(alloc, &fault)?)?,
        },
    }
    Ok(out)
}

#[derive(Drop)]
struct Printing<'a> {
    alloc: Global,
    step: &'a Step<'a>,
}

impl Job for Printing<'_> {
    type Out = Result<Vec<u8>, DayFault>;

    fn run<K: Keeper>(self, keeper: &mut K) -> Result<Vec<u8>, DayFault> {
        printed(self.alloc, keeper, self.step)
    }
}

fn new_desk(alloc: Global, kind: Kind, here: Airport, line: u32) -> Result<Desk, DayFault> {
    match Desk::new(alloc, kind, here) {
        Ok(desk) => Ok(desk),
        Err(_) => Err(DayFault::Bad {
            line,
            why: "no station could be made",
        }),
    }
}

/// Returns whether the station is opened again before a statement: in a long day before each tenth.
fn is_opened_again(kind: Kind, day_is_long: bool, statement: usize) -> bool {
    matches!(kind, Kind::Reopened) && (!day_is_long || statement % 10 == 9)
}

fn opened_again(
    alloc: Global,
    desk: Desk,
    step: &Step<'_>,
    played: &mut Played,
) -> Result<Desk, DayFault> {
    match desk.opened_again(alloc) {
        Ok(desk) => {
            played.openings = played.openings.saturating_add(1);
            Ok(desk)
        }
        Err(fault) => Err(DayFault::Unopened {
            line: step.line,
            fault,
        }),
    }
}

/// Plays a day on a kind of keeper, and records the differences.
pub fn play(
    alloc: Global,
    name: &str,
    day: &Day<'_>,
    kind: Kind,
    played: &mut Played,
) -> Result<(), DayFault> {
    let mut desk = new_desk(alloc, kind, day.here, 1)?;
    let day_is_long = day.told() > LONG;
    for (statement, step) in day.steps.iter().enumerate() {
        if is_opened_again(kind, day_is_long, statement) {
            desk = opened_again(alloc, desk, step, played)?;
        }
        if let Ask::Station(here) = step.ask {
            desk = new_desk(alloc, kind, here, step.line)?;
        }
        let printed = desk.ask(Printing { alloc, step })?;
        let differences = compare(alloc, name, kind, step, &printed, &mut played.log)?;
        played.differences = played.differences.saturating_add(differences);
    }
    Ok(())
}
