//! The rows of a stock list, one after another.

ghost use Rattle.std.specs.Prelude.{◌≡◌, ◌^◌, ◌<◌, ◌≤◌, length, Some, IfSome, true, Err, IfOk, OnOk, string_bytes};
ghost use Rattle.cli_run.specs.Common.{fields_of, field_at, HasReason, numbered_head};
ghost use Rattle.cli_run.specs.Lines.{digits_of, run_of, order_of, asked_by, row_asks, bad_line, row_head, stock_rows, HasAnsweredRow, HasToldUnread};
ghost use Rattle.cli_run.specs.Ends.{call};
ghost use Rattle.cli_run.specs.Requests.{IsReadToEnd};
ghost use Rattle.cli_run.specs.Done.{HaveBeenAnswered};

use crate::answer::answer_input;
use crate::answering::{Answering, send_part};
use crate::input::Watched;
use crate::takes::{LineCount, line_by_line};
use crate::telling::{RunFault, list_fault, told_by};
use agent_stock::{AgentCode, Order, Run, RunCount};
use awb_number::{Awb, decimal};
use csv::{ByteRecord, ReaderBuilder};
use desk_commands::Command;
use input_reasons::{row_reason, tell_reason};
use station_core::{ByteOut, Input, Keeper, Key};
use station_days::Moment;
use std::alloc::{AllocError, Global};
use std::io::Read;

fn digits(text: &[u8], least: usize, most: usize) -> Option<u32>
    requires { most ≤ 9 }
    ensures value { result ≡ digits_of least most text.now }
    ensures bound { IfSome result (λ n. (n < 10 ^ length text.now) × (least ≤ length text.now)
        × (length text.now ≤ most)) }
{
    if text.len() < least || text.len() > most {
        return None;
    }
    decimal(text)
}

/// Reads a count of one to seven digits.
fn read_count(text: &[u8]) -> Option<RunCount>
    ensures { result ≡ digits_of 1 7 text.now }
{
    let number = digits(text, 1, 7)?;
    RunCount::new(number)
}

fn run(prefix: &[u8], serial: &[u8], count: &[u8]) -> Option<Run>
    ensures { result ≡ run_of prefix.now serial.now count.now }
{
    let prefix = digits(prefix, 3, 3)?;
    let serial = digits(serial, 7, 7)?;
    let count = read_count(count)?;
    let first = Awb::new(prefix as u16, serial)?;
    Some(Run { first, count })
}

/// Returns the order of a verb on a run. Only issue and return have an agent.
fn order(verb: &[u8], run: Run, agent: &[u8]) -> Option<Order>
    ensures { result ≡ order_of verb.now run agent.now }
{
    if verb == b"take-in".as_slice() {
        if agent.is_empty() {
            Some(Order::TakeIn(run))
        } else {
            None
        }
    } else if verb == b"void".as_slice() {
        if agent.is_empty() {
            Some(Order::Void(run))
        } else {
            None
        }
    } else if verb == b"issue".as_slice() {
        match AgentCode::read(agent) {
            Some(agent) => Some(Order::Issue(run, agent)),
            None => None,
        }
    } else if verb == b"return".as_slice() {
        match AgentCode::read(agent) {
            Some(agent) => Some(Order::GiveBack(run, agent)),
            None => None,
        }
    } else {
        None
    }
}

/// Returns the key and the order in six fields: key, verb, prefix, serial, count and agent.
fn asked(
    key: &[u8],
    verb: &[u8],
    prefix: &[u8],
    serial: &[u8],
    count: &[u8],
    agent: &[u8],
) -> Option<(Key, Order)>
    ensures { result ≡ asked_by key.now verb.now prefix.now serial.now count.now agent.now }
{
    let key = Key::read(key)?;
    let run = run(prefix, serial, count)?;
    let order = order(verb, run, agent)?;
    Some((key, order))
}

fn field(row: &ByteRecord, place: usize) -> &[u8]
    requires { place < length (fields_of row.now) }
    ensures { field_at (fields_of row.now) place ≡ Some result.now }
{
    match row.get(place) {
        Some(field) => field,
        None => unreachable!(),
    }
}

/// Returns the key and the order of a row, if it is well formed.
pub fn read_row(row: &ByteRecord) -> Option<(Key, Order)>
    ensures { result ≡ row_asks (fields_of row.now) }
{
    if row.len() != 6 {
        return None;
    }
    asked(
        field(row, 0),
        field(row, 1),
        field(row, 2),
        field(row, 3),
        field(row, 4),
        field(row, 5),
    )
}

/// The position of a row in its list.
#[derive(Clone, Copy)]
pub struct RowPlace {
    /// The number of the record, from 1.
    pub number: u64,
    /// The line on which the record begins, from 1.
    pub line: u64,
}

fn bad_line(alloc: Global, number: u64) -> Result<String, AllocError>
    ensures { IfOk result (λ line. string_bytes line ≡ bad_line number) }
{
    format!(in alloc; "row {number} bad\n")
}

/// Writes the reason why a row is malformed, as far as the writer takes it. If memory runs out,
/// nothing is written.
fn tell_row<E: ByteOut>(alloc: Global, errors: &mut E, row: &ByteRecord, line: u64)
    ensures own { HasReason (numbered_head line) (E.taken errors.old).bytes
        (E.taken errors.new).bytes }
    ensures line { HasReason row_head (E.taken errors.old).bytes (E.taken errors.new).bytes }
{
    tell_reason(errors, row_reason(alloc, row, line));
}

/// Writes the line of a malformed row, and the reason.
///
/// Returns [`RunFault::Write`] if the writer fails, and [`RunFault::Memory`] if memory runs out. A
/// prefix of the line is written, perhaps empty.
pub fn answer_bad_row<W: ByteOut, E: ByteOut>(
    alloc: Global,
    writer: &mut W,
    errors: &mut E,
    place: RowPlace,
    row: &ByteRecord,
) -> Result<bool, RunFault>
    ensures told { HasToldUnread E.taken (bad_line place.number) true row_head
        (W.taken writer.old, errors.old) (W.taken writer.new, errors.new) result }
    ensures own { OnOk result (HasReason (numbered_head place.line) (E.taken errors.old).bytes
        (E.taken errors.new).bytes) }
{
    let Ok(line) = bad_line(alloc, place.number) else {
        return Err(RunFault::Memory);
    };
    // The line is written before its reason.
    writer.expect_more(false);
    send_part(writer, line.as_bytes())?;
    tell_row(alloc, errors, row, place.line);
    Ok(false)
}

/// Acts on a row's order at a moment, and writes the answer. `Ok` says whether it was accepted. The
/// reason for a malformed row is written to `errors`, after its line.
pub fn answer_row<K: Keeper, W: ByteOut, E: ByteOut>(
    alloc: Global,
    keeper: &mut K,
    writer: &mut W,
    errors: &mut E,
    place: RowPlace,
    row: &ByteRecord,
    at: Moment,
) -> Result<bool, RunFault>
    ensures answered { HasAnsweredRow K.keeping at E.taken place.number (fields_of row.now)
        (call keeper.old (W.taken writer.old) errors.old)
        (call keeper.new (W.taken writer.new) errors.new) result }
    ensures unread { result ≡ Err RunFault.Read → ⊥ }
{
    match read_row(row) {
        Some((key, order)) => {
            let number = Some(place.number);
            let input = Input::Keyed(key, Command::Stock(order));
            answer_input(alloc, keeper, writer, errors, number, &input, at)
        }
        None => answer_bad_row(alloc, writer, errors, place, row),
    }
}

/// Answers the rows of a reader up to its end or an error.
fn answer_rows<P: Answering<D, E>, D, R: Read + Drop, W: ByteOut, E: ByteOut>(
    way: &P,
    alloc: Global,
    desk: &mut D,
    reader: R,
    writer: &mut W,
    errors: &mut E,
    lines: &LineCount,
) -> Result<bool, RunFault>
    ensures { HaveBeenAnswered stock_rows (P.answered_row way.now) (R.remaining reader)
        (call desk.old (W.taken writer.old) errors.old)
        (call desk.new (W.taken writer.new) errors.new) result }
{
    let rdr = ReaderBuilder::new()
        .has_headers(false)
        .flexible(true)
        .from_reader(alloc, reader);
    let mut number: u64 = 0;
    let mut good = true;
    for row in rdr.into_byte_records() {
        number += 1;
        match row {
            Ok(row) => {
                let accepted = way.answer_row(alloc, desk, writer, errors, number, lines, &row)?;
                good &= accepted;
            }
            Err(e) => return Err(list_fault(e)),
        }
    }
    Ok(good)
}

/// Answers the rows of a stock list one after another, all at one moment. `Ok` says whether all
/// were accepted.
pub fn answer_list<P: Answering<D, E>, D, R: Watched + Read, W: ByteOut, E: ByteOut>(
    way: &P,
    alloc: Global,
    desk: &mut D,
    reader: &mut R,
    writer: &mut W,
    errors: &mut E,
) -> Result<bool, RunFault>
    ensures answered { HaveBeenAnswered stock_rows (P.answered_row way.now) (R.remaining reader.old)
        (call desk.old (W.taken writer.old) errors.old)
        (call desk.new (W.taken writer.new) errors.new) result }
    ensures read { IsReadToEnd (R.given reader.new) result }
{
    let count = LineCount::new();
    let Ok(lines) = line_by_line(alloc, &mut *reader, &count) else {
        return Err(RunFault::Memory);
    };
    let ended = answer_rows(way, alloc, desk, lines, writer, errors, &count);
    told_by(ended, reader.has_failed())
}
