//! Inputs by a fixed rule, for which all keepers return the same answers and rows, one by one and
//! as a list.
use crate::asking::report_text;
use crate::desk::{Desk, Kind};
use crate::play::{holder_text, put_text, waybill_text};
use awb_number::Awb;
use desk_commands::read_command_text;
use imp_fields::Airport;
use reports::Report;
use station_core::{
    ActFault, Answer, Input, Keeper, Key, act_all, answer_one, refusal_text, reply_text,
};
use station_days::Moment;
use std::alloc::{AllocError, Global};
use telegrams::read_telegram;
use test_kit::Job;

#[derive(Clone, Copy)]
pub enum Inputs {
    Mixed,
    Orders,
}

impl Inputs {
    pub fn name(self) -> &'static str {
        match self {
            Inputs::Mixed => "by-rule",
            Inputs::Orders => "orders-by-rule",
        }
    }
}

const MIXED: u32 = 200;

const ORDERS: u32 = 2_000;

const FIRST: u32 = 1_234_560;

const LAST: u32 = 1_234_565;

#[derive(Drop)]
struct Rule {
    state: u64,
}

impl Rule {
    fn between(&mut self, low: u32, high: u32) -> u32 {
        self.state = self
            .state
            .wrapping_mul(6_364_136_223_846_793_005)
            .wrapping_add(1_442_695_040_888_963_407);
        let span = u64::from(high.saturating_sub(low)) + 1;
        let step = u32::try_from((self.state >> 33) % span).unwrap_or(0);
        low.saturating_add(step)
    }

    fn awb(&mut self) -> Option<Awb> {
        Awb::new(20, self.between(FIRST, LAST))
    }
}

/// A command under a key, or a telegram without one.
#[derive(Drop)]
struct Asked {
    key: Option<String>,
    text: String,
}

fn order_text(alloc: Global, rule: &mut Rule) -> Option<String> {
    let serial = rule.between(FIRST, FIRST + 11);
    let count = rule.between(1, 4);
    match rule.between(0, 4) {
        0 | 1 => format!(in alloc; "take-in\n020\n{serial}\n{count}").ok(),
        2 => format!(in alloc; "issue\n020\n{serial}\n{count}\nACME").ok(),
        3 => format!(in alloc; "return\n020\n{serial}\n{count}\nACME").ok(),
        _ => format!(in alloc; "void\n020\n{serial}\n1").ok(),
    }
}

fn booking_text(alloc: Global, awb: Awb) -> Option<String> {
    if awb.serial() % 2 == 0 {
        format!(in alloc; "book\n{awb}\nFRA\nJFK\n10\n1000\nCARGO").ok()
    } else {
        format!(in alloc; "book\n{awb}\nJFK\nFRA\n9\n77\nTOOLS").ok()
    }
}

fn outbound_text(alloc: Global, rule: &mut Rule, awb: Awb) -> Option<String> {
    let pieces = rule.between(1, 5);
    let day = rule.between(12, 13);
    match rule.between(0, 9) {
        0 | 1 => format!(in alloc; "receive\n{awb}\n{pieces}\n250\nACME").ok(),
        2 | 3 => { format!(in alloc; "manifest\n{awb}\nLH400\n2026-01-{day}\nJFK\n{pieces}").ok() }
        4 => format!(in alloc; "offload\n{awb}\nLH400\n2026-01-{day}\n{pieces}").ok(),
        5 => format!(in alloc; "transfer\n{awb}\n{pieces}\nBA").ok(),
        6 => format!(in alloc; "withdraw\n{awb}\n{pieces}\nACME").ok(),
        7 => format!(in alloc; "reroute\nLH400\n2026-01-{day}\nCDG").ok(),
        8 => format!(in alloc; "amend\n{awb}\nFRA\nCDG\n{pieces}\n500\nCARGO").ok(),
        _ => format!(in alloc; "depart\nLH400\n2026-01-{day}").ok(),
    }
}

fn inbound_text(alloc: Global, rule: &mut Rule, awb: Awb) -> Option<String> {
    let pieces = rule.between(1, 6);
    match rule.between(0, 7) {
        0 | 1 => format!(in alloc; "check-in\n{awb}\nLH401\n2026-01-12\n{pieces}").ok(),
        2 => format!(in alloc; "notify\n{awb}\nSMITH").ok(),
        3 => format!(in alloc; "deliver\n{awb}\n{pieces}\nSMITH").ok(),
        4 => format!(in alloc; "missing\n{awb}\n1\nLH401\n2026-01-12").ok(),
        5 => format!(in alloc; "found\n{awb}\n{pieces}\n33\n\n").ok(),
        6 => format!(in alloc; "strike\n{awb}\nLH401\n2026-01-12\n1").ok(),
        _ => format!(in alloc; "confirm\n{pieces}").ok(),
    }
}

fn telegram_text(alloc: Global, rule: &mut Rule, awb: Awb) -> Option<String> {
    let pieces = rule.between(1, 5);
    match rule.between(0, 3) {
        0 => format!(in alloc; "FWB/16\r\n{awb}FRAJFK/T10K100MC0.5\r\nSHP\r\n/ACME\r\n").ok(),
        1 | 2 => format!(in alloc;
            "FFM/8\r\n{pieces}/LH401/12JAN/JFK\r\nFRA\r\n{awb}JFKFRA/P{pieces}K20.0T9/TOOLS\r\nLAST\r\n"
        ).ok(),
        _ => format!(in alloc; "FSU/12\r\n{awb}FRAJFK/T10K100.0\r\nARR/LH400/12JAN/JFK\r\n").ok(),
    }
}

/// Returns the n-th input. The first ones declare the waybills; each eighth has the key of an
/// earlier one.
fn next_asked(alloc: Global, rule: &mut Rule, n: u32) -> Option<Asked> {
    if n <= LAST - FIRST {
        let text = booking_text(alloc, Awb::new(20, FIRST + n)?)?;
        let key = Some(format!(in alloc; "k{n}").ok()?);
        return Some(Asked { key, text });
    }
    let awb = rule.awb()?;
    let text = match rule.between(0, 8) {
        0 | 1 => order_text(alloc, rule)?,
        2 => booking_text(alloc, awb)?,
        3 | 4 | 5 => outbound_text(alloc, rule, awb)?,
        6 | 7 => inbound_text(alloc, rule, awb)?,
        _ => {
            let text = telegram_text(alloc, rule, awb)?;
            return Some(Asked { key: None, text });
        }
    };
    let number = if n % 8 == 7 { n / 2 } else { n };
    let key = Some(format!(in alloc; "k{number}").ok()?);
    Some(Asked { key, text })
}

fn copied(alloc: Global, asked: &Asked) -> Option<Asked> {
    let key = match &asked.key {
        Some(key) => Some(String::from_str(alloc, key.as_str()).ok()?),
        None => None,
    };
    let text = String::from_str(alloc, asked.text.as_str()).ok()?;
    Some(Asked { key, text })
}

fn stock_text(alloc: Global, rule: &mut Rule) -> Option<String> {
    let serial = rule.between(FIRST, FIRST + 999);
    let count = rule.between(1, 3);
    match rule.between(0, 99) {
        0..=29 => format!(in alloc; "take-in\n020\n{serial}\n{count}").ok(),
        30..=64 => format!(in alloc; "issue\n020\n{serial}\n{count}\nACME").ok(),
        65..=97 => format!(in alloc; "return\n020\n{serial}\n{count}\nACME").ok(),
        _ => format!(in alloc; "void\n020\n{serial}\n1").ok(),
    }
}

fn all_orders(alloc: Global) -> Option<Vec<Asked>> {
    let mut rule = Rule { state: 20_260_112 };
    let mut all = Vec::new(alloc);
    for n in 0..ORDERS {
        let key = Some(format!(in alloc; "k{n}").ok()?);
        let text = stock_text(alloc, &mut rule)?;
        all.push(Asked { key, text }).ok()?;
    }
    Some(all)
}

/// Returns inputs of every kind. Some repeat the one before them.
fn all_mixed(alloc: Global) -> Option<Vec<Asked>> {
    let mut rule = Rule { state: 20_260_112 };
    let mut all = Vec::new(alloc);
    for n in 0..MIXED {
        let next = match all.last() {
            Some(last) if n % 8 == 3 && n > 8 => copied(alloc, last)?,
            _ => next_asked(alloc, &mut rule, n)?,
        };
        all.push(next).ok()?;
    }
    Some(all)
}

fn input_of<'a>(alloc: Global, asked: &'a Asked) -> Option<Input<'a>> {
    match &asked.key {
        Some(key) => Some(Input::Keyed(
            Key::read(key.as_bytes())?,
            read_command_text(asked.text.as_bytes())?,
        )),
        None => match read_telegram(alloc, asked.text.as_bytes()) {
            Ok(telegram) => Some(Input::Wire(telegram)),
            Err(_) => None,
        },
    }
}

/// Returns the inputs, a minute apart from ten o'clock to midnight and again.
fn inputs_of<'a>(alloc: Global, all: &'a [Asked]) -> Option<Vec<(Input<'a>, Moment)>> {
    let mut inputs = Vec::new(alloc);
    for (n, asked) in all.iter().enumerate() {
        let minute = u16::try_from(n % 840).unwrap_or(0).saturating_add(600);
        let at = Moment::new(20465, minute)?;
        inputs.push((input_of(alloc, asked)?, at)).ok()?;
    }
    Some(inputs)
}

fn answer_told(alloc: Global, answer: &Answer, out: &mut Vec<u8>) -> Option<bool> {
    let text = match answer {
        Answer::Done(reply) => reply_text(alloc, reply).ok()?,
        Answer::Refused(refusal) => refusal_text(alloc, refusal).ok()?,
    };
    out.extend_from_slice(text.as_bytes()).ok()?;
    out.push(b'\n').ok()?;
    Some(matches!(answer, Answer::Done(_)))
}

#[derive(Drop)]
struct Given<'a> {
    alloc: Global,
    input: &'a Input<'a>,
    at: Moment,
}

impl Job for Given<'_> {
    type Out = Option<(Vec<u8>, bool)>;

    fn run<K: Keeper>(self, keeper: &mut K) -> Option<(Vec<u8>, bool)> {
        let answer = answer_one(keeper, self.input, self.at).ok()?;
        let mut line = Vec::new(self.alloc);
        let accepts = answer_told(self.alloc, &answer, &mut line)?;
        Some((line, accepts))
    }
}

#[derive(Drop)]
struct List<'a> {
    alloc: Global,
    inputs: &'a [(Input<'a>, Moment)],
}

impl Job for List<'_> {
    type Out = Option<Vec<Answer>>;

    fn run<K: Keeper>(self, keeper: &mut K) -> Option<Vec<Answer>> {
        let all = act_all(self.alloc, keeper, self.inputs);
        match all.fault {
            None => Some(all.answers),
            Some(_) => None,
        }
    }
}

#[derive(Drop)]
struct AllRows {
    alloc: Global,
}

impl Job for AllRows {
    type Out = Result<Vec<u8>, ActFault>;

    fn run<K: Keeper>(self, keeper: &mut K) -> Result<Vec<u8>, ActFault> {
        rows_told(self.alloc, keeper)
    }
}

/// Returns the station, and how many inputs it accepts.
fn one_by_one(
    alloc: Global,
    mut desk: Desk,
    kind: Kind,
    inputs: &[(Input<'_>, Moment)],
    out: &mut Vec<u8>,
) -> Option<(Desk, usize)> {
    let mut accepted: usize = 0;
    for (input, at) in inputs {
        if matches!(kind, Kind::Reopened) {
            desk = desk.opened_again(alloc).ok()?;
        }
        let (line, accepts) = desk.ask(Given {
            alloc,
            input,
            at: *at,
        })?;
        out.extend_from_slice(line.as_slice()).ok()?;
        if accepts {
            accepted = accepted.saturating_add(1);
        }
    }
    Some((desk, accepted))
}

/// Returns how many inputs the station accepts as one list.
fn at_once(
    alloc: Global,
    desk: &mut Desk,
    inputs: &[(Input<'_>, Moment)],
    out: &mut Vec<u8>,
) -> Option<usize> {
    let answers = desk.ask(List { alloc, inputs })?;
    let mut accepted: usize = 0;
    for answer in &answers {
        if answer_told(alloc, answer, out)? {
            accepted = accepted.saturating_add(1);
        }
    }
    Some(accepted)
}

fn rows_told<K: Keeper>(alloc: Global, keeper: &mut K) -> Result<Vec<u8>, ActFault> {
    let mut out = Vec::new(alloc);
    for report in [
        Report::Stock,
        Report::Announced,
        Report::Shed,
        Report::ShedDays,
        Report::Flights,
        Report::Expected,
        Report::Irregularities,
        Report::IrregularityDays,
        Report::Movements,
        Report::Trail,
        Report::Pending,
        Report::Sent,
        Report::Station,
    ] {
        let text = report_text(alloc, keeper, report)?;
        if out.extend_from_slice(&text).is_err() {
            return Err(ActFault::Memory);
        }
    }
    for serial in FIRST..FIRST + 16 {
        if number_told(alloc, keeper, serial, &mut out).is_err() {
            return Err(ActFault::Memory);
        }
    }
    Ok(out)
}

/// Returns whether a text is an object or `none`, and no fault.
fn is_told(text: &str) -> bool {
    matches!(text.as_bytes(), [b'{', ..] | b"none")
}

fn number_told<K: Keeper>(
    alloc: Global,
    keeper: &mut K,
    serial: u32,
    out: &mut Vec<u8>,
) -> Result<(), AllocError> {
    let Some(number) = Awb::new(20, serial) else {
        return Ok(());
    };
    let waybill = waybill_text(alloc, keeper, &number)?;
    let holder = holder_text(alloc, keeper, &number)?;
    if !is_told(waybill.as_str()) || !is_told(holder.as_str()) {
        return Err(AllocError);
    }
    put_text(out, waybill.as_str())?;
    put_text(out, holder.as_str())
}

/// Returns all answers and rows of a kind of keeper, or `None` if too few inputs are accepted or
/// refused.
fn told(
    alloc: Global,
    kind: Kind,
    inputs: &[(Input<'_>, Moment)],
    as_list: bool,
) -> Option<Vec<u8>> {
    let mut desk = Desk::new(alloc, kind, Airport::read(b"FRA")?).ok()?;
    let mut out = Vec::new(alloc);
    let (mut desk, accepted) = if as_list {
        let accepted = at_once(alloc, &mut desk, inputs, &mut out)?;
        (desk, accepted)
    } else {
        one_by_one(alloc, desk, kind, inputs, &mut out)?
    };
    let fifth = inputs.len() / 5;
    if accepted < fifth || inputs.len().saturating_sub(accepted) < fifth {
        return None;
    }
    let rows = desk.ask(AllRows { alloc }).ok()?;
    out.extend_from_slice(&rows).ok()?;
    Some(out)
}

/// Returns whether all keepers answer alike. If there are few inputs, a station is opened again
/// before each.
pub fn are_equal(alloc: Global, given: Inputs) -> Option<bool> {
    let all = match given {
        Inputs::Mixed => all_mixed(alloc)?,
        Inputs::Orders => all_orders(alloc)?,
    };
    let inputs = inputs_of(alloc, &all)?;
    let first = told(alloc, Kind::Plain, &inputs, false)?;
    for (kind, as_list) in [
        (Kind::Plain, true),
        (Kind::Maps, false),
        (Kind::Maps, true),
        (Kind::Tables, false),
        (Kind::Tables, true),
        (Kind::Reopened, false),
    ] {
        if matches!((kind, given), (Kind::Reopened, Inputs::Orders)) {
            continue;
        }
        let other = told(alloc, kind, &inputs, as_list)?;
        if other.as_slice() != first.as_slice() {
            return Some(false);
        }
    }
    Some(true)
}
