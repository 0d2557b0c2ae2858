//! Commands and telegrams, one a line.
//! Reading a line of `acts`.

ghost use Rattle.std.specs.Prelude.{◌≡◌, ◌<◌, Err, IfOk, List, ℕ, IfSome, None, option_map};
ghost use Rattle.cli_run.specs.Common.{reader_remaining, option_and_then, member_count, Data, as_str, get, view};
ghost use Rattle.cli_run.specs.Ends.{call};
ghost use Rattle.cli_run.specs.Requests.{IsReadersFault, IsReadToEnd};
ghost use Rattle.cli_run.specs.Done.{HaveBeenAnswered, kept_lines};
ghost use Rattle.cli_run.specs.Lines.{is_blank, HasAnsweredLine, Asks, IsActAsked, IsFrame, IsWired, IsWritten};
ghost use Rattle.desk_commands.specs.declared.verb.Verb.{Verb as AnyVerb};

use crate::answer::answer_asked;
use crate::answering::Answering;
use crate::input::Watched;
use crate::request::Request;
use crate::takes::kept_line;
use crate::telling::{RunFault, told_by};
use desk_commands::{BadBody, Verb, read_command};
use input_reasons::MOST_LINE;
use serde_json::Value;
use station_core::{ByteOut, Input, Keeper, Key};
use station_days::Moment;
use std::alloc::{AllocError, Global};
use std::io;
use std::io::{BufRead, BufReader, ErrorKind, Read};
use telegrams::{TelegramFault, read_telegram};

/// Returns whether a line has only its end: LF, or CR and LF.
pub fn is_blank(line: &[u8]) -> bool
    ensures { result ≡ is_blank line.now }
{
    line == b"\n".as_slice() || line == b"\r\n".as_slice()
}

/// Answers a line, and writes the reason if it can't be read.
pub(crate) fn answer_line<K: Keeper, W: ByteOut, E: ByteOut>(
    alloc: Global,
    keeper: &mut K,
    writer: &mut W,
    errors: &mut E,
    number: u64,
    line: &[u8],
    at: Moment,
) -> Result<bool, RunFault>
    ensures answered { HasAnsweredLine K.keeping at E.taken number line.now
        (call keeper.old (W.taken writer.old) errors.old)
        (call keeper.new (W.taken writer.new) errors.new) result }
    ensures unread { result ≡ Err RunFault.Read → ⊥ }
{
    if is_blank(line) {
        return Ok(true);
    }
    let Ok(value) = line_value(alloc, line) else {
        return Err(RunFault::Memory);
    };
    match line_asked(alloc, &value, line) {
        Ok(asked) => answer_asked(alloc, keeper, writer, errors, Some(number), &asked, at),
        Err(_) => Err(RunFault::Memory),
    }
}

/// Returns the fault of a run that couldn't read a line.
fn line_fault(error: &io::Error) -> RunFault
    ensures { IsReadersFault result }
{
    match error.kind() {
        ErrorKind::OutOfMemory => RunFault::Memory,
        _ => RunFault::Read,
    }
}

/// Buffers a reader.
fn buffered<R: Read + Drop>(alloc: Global, reader: R) -> Result<BufReader<R>, AllocError>
    ensures { IfOk result (λ lines. reader_remaining R.remaining lines ≡ R.remaining reader) }
{
    match BufReader::new(alloc, reader) {
        Ok(lines) => Ok(lines),
        Err(_) => Err(AllocError),
    }
}

/// Answers the lines of a reader up to its end or an error.
fn answer_lines<P: Answering<D, E>, D, R: BufRead + Drop, W: ByteOut, E: ByteOut>(
    way: &P,
    alloc: Global,
    desk: &mut D,
    mut reader: R,
    writer: &mut W,
    errors: &mut E,
) -> Result<bool, RunFault>
    ensures { HaveBeenAnswered kept_lines (P.answered_line way.now) (R.remaining reader)
        (call desk.old (W.taken writer.old) errors.old)
        (call desk.new (W.taken writer.new) errors.new) result }
{
    let mut good = true;
    for number in 1..u64::MAX {
        let line = match kept_line(alloc, &mut reader) {
            Ok(line) => line,
            Err(error) => return Err(line_fault(&error)),
        };
        if line.is_empty() {
            return Ok(good);
        }
        let accepted = way.answer_line(alloc, desk, writer, errors, number, line.as_slice())?;
        good &= accepted;
    }
    Err(RunFault::Memory)
}

/// Reads lines, each a command under its key or a telegram as JSON, has them answered one after
/// another, all at one moment, and writes the line of each answer: `r1 ok 3`, `line 2 refused 301 4
/// ending`, or `line 3 bad` for any other line, also for one that is too long, of which at most
/// 69,633 bytes are kept. Empty lines are skipped. If a line can't be read, the reason is written
/// to `errors` after its answer. `Ok` says whether all were accepted.
///
/// # Errors
///
/// The lines before the fault are answered. To the line itself applies what [`answer_input`] says.
///
/// - [`RunFault::Read`]: the reader fails.
/// - [`RunFault::Write`]: the writer fails or writes 0 bytes.
/// - [`RunFault::Memory`]: memory runs out.
/// - [`RunFault::Store`]: the store fails, or failed before.
pub fn answer_acts<P: Answering<D, E>, D, R: Watched + Read, W: ByteOut, E: ByteOut>(
    way: &P,
    alloc: Global,
    desk: &mut D,
    reader: &mut R,
    writer: &mut W,
    errors: &mut E,
) -> Result<bool, RunFault>
    // All lines that were read were answered in order; for a known reader these are all lines of
    // its text, each as far as it is kept. After a fault, all but the last were.
    ensures answered { HaveBeenAnswered kept_lines (P.answered_line way.now)
        (R.remaining reader.old) (call desk.old (W.taken writer.old) errors.old)
        (call desk.new (W.taken writer.new) errors.new) result }
    ensures read { IsReadToEnd (R.given reader.new) result }
{
    let Ok(lines) = buffered(alloc, &mut *reader) else {
        return Err(RunFault::Memory);
    };
    let ended = answer_lines(way, alloc, desk, lines, writer, errors);
    told_by(ended, reader.has_failed())
}

fn member_count(value: &Value) -> Option<usize>
    ensures { result ≡ member_count (view value.now) }
{
    let members = value.as_object()?;
    Some(members.len())
}

/// Returns the member of an object, if it is a text.
fn text_at<'a>(value: &'a Value, name: &str) -> Option<&'a str>
    ensures { option_map (λ text. text.now) result
        ≡ option_and_then as_str (get name.now (view value.entry.now)) }
{
    value.get(name)?.as_str()
}

/// Returns verb, key and body of a command's line, and `None` for any other line.
pub fn frame(value: &Value) -> Option<(Verb, Key, &Value)>
    ensures some { IfSome result (λ f. IsFrame (view value.now) f.0 f.1 (view f.2.now)) }
    ensures none { result ≡ None → (verb : AnyVerb) (key : List ℕ) (body : Data)
        → ¬ (IsFrame (view value.now) verb key body) }
{
    if member_count(value)? != 3 {
        return None;
    }
    let verb = Verb::read(text_at(value, "verb")?.as_bytes())?;
    let key = Key::read(text_at(value, "key")?.as_bytes())?;
    let body = value.get("body")?;
    Some((verb, key, body))
}

/// Returns the telegram of a telegram's line, and `None` for any other line.
pub fn wired<'a>(value: &'a Value) -> Option<&'a str>
    ensures some { IfSome result (λ text. IsWired (view value.entry.now) text.now) }
    ensures none { result ≡ None → (text : List ℕ) → ¬ (IsWired (view value.entry.now) text) }
{
    if member_count(value)? != 1 {
        return None;
    }
    text_at(value, "telegram")
}

/// Returns the JSON value of a line that isn't too long.
pub fn line_value(alloc: Global, line: &[u8]) -> Result<Option<Value>, AllocError>
    ensures some { IfOk result (λ v. IfSome v (λ value. IsWritten line.now (view value))) }
    ensures none { IfOk result (λ v. v ≡ None → (d : Data) → ¬ (IsWritten line.now d)) }
{
    if line.len() > MOST_LINE {
        return Ok(None);
    }
    match Value::from_slice(alloc, line) {
        Ok(value) => Ok(Some(value)),
        Err(e) => {
            if e.is_memory() {
                Err(AllocError)
            } else {
                Ok(None)
            }
        }
    }
}

/// Returns the request in the value of a line.
fn value_asked<'a>(
    alloc: Global,
    value: &'a Value,
    line: &'a [u8],
) -> Result<Request<'a>, AllocError>
    ensures { IfOk result (Asks line.entry.now (view value.entry.now)) }
{
    if let Some((verb, key, body)) = frame(value) {
        return match read_command(verb, body) {
            Ok(command) => Ok(Request::Input(Input::Keyed(key, command))),
            Err(BadBody) => Ok(Request::BadLine(line)),
        };
    }
    let Some(text) = wired(value) else {
        return Ok(Request::BadLine(line));
    };
    match read_telegram(alloc, text.as_bytes()) {
        Ok(telegram) => Ok(Request::Input(Input::Wire(telegram))),
        Err(TelegramFault::Refused(refusal)) => Ok(Request::Refused(refusal)),
        Err(TelegramFault::Memory) => Err(AllocError),
    }
}

/// Returns the request in a line, from its value.
pub fn line_asked<'a>(
    alloc: Global,
    value: &'a Option<Value>,
    line: &'a [u8],
) -> Result<Request<'a>, AllocError>
    requires some { IfSome value.now (λ v. IsWritten line.now (view v)) }
    requires none { value.now ≡ None → (d : Data) → ¬ (IsWritten line.now d) }
    ensures { IfOk result (IsActAsked line.entry.now) }
{
    match value {
        Some(value) => value_asked(alloc, value, line),
        None => Ok(Request::BadLine(line)),
    }
}
