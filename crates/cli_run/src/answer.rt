//! Answers to the input of a command.

ghost use Rattle.std.specs.Prelude.{◌≡◌, ◌++◌, ◌∷◌, [], true, false, IfOk, codes, decimal, string_bytes};
ghost use Rattle.cli_run.specs.Common.{refusal_text, is_unread};
ghost use Rattle.cli_run.specs.Ends.{call};
ghost use Rattle.cli_run.specs.Requests.{answer_text, keyed, named, numbered};
ghost use Rattle.cli_run.specs.Lines.{HasAnswered, HasToldUnread};
ghost use Rattle.cli_run.specs.Seen.{line_head, reason_head};

use crate::answering::send_part;
use crate::request::Request;
use crate::telling::{RunFault, keeper_fault, tell_answer, tell_bad_line, tell_body, tell_refusal};
use desk_commands::Verb;
use shipment_machine::Refusal;
use station_core::{Answer, ByteOut, Input, Keeper, Key, answer_one, refusal_text, reply_text};
use station_days::Moment;
use std::alloc::{AllocError, Global};

/// The line for a body that isn't a command of the verb.
const BAD_BODY: &[u8] = b"body bad\n";

/// Returns an answer as it is printed: `ok 10`, or `refused 102 020-12345723`.
fn answer_text(alloc: Global, answer: &Answer) -> Result<String, AllocError>
    ensures { IfOk result (λ text. string_bytes text ≡ answer_text answer.now) }
{
    match answer {
        Answer::Done(reply) => reply_text(alloc, reply),
        Answer::Refused(refusal) => refusal_text(alloc, refusal),
    }
}

fn plain_line(alloc: Global, text: &str) -> Result<String, AllocError>
    ensures { IfOk result (λ line. string_bytes line ≡ text.now ++ 10 ∷ []) }
{
    format!(in alloc; "{text}\n")
}

fn line_of_number(alloc: Global, number: u64, text: &str) -> Result<String, AllocError>
    ensures { IfOk result (λ line. string_bytes line
        ≡ codes "line " ++ (decimal number ++ (32 ∷ (text.now ++ 10 ∷ [])))) }
{
    format!(in alloc; "line {number} {text}\n")
}

fn line_of_key(alloc: Global, key: &Key, text: &str) -> Result<String, AllocError>
    ensures { IfOk result
        (λ line. string_bytes line ≡ key.now ++ (32 ∷ (text.now ++ 10 ∷ []))) }
{
    format!(in alloc; "{key} {text}\n")
}

/// Returns the line of an answer after its number, if it has one.
fn numbered_line(alloc: Global, number: Option<u64>, text: &str) -> Result<String, AllocError>
    ensures { IfOk result (λ line. string_bytes line ≡ numbered number (text.now ++ 10 ∷ [])) }
{
    match number {
        Some(number) => line_of_number(alloc, number, text),
        None => plain_line(alloc, text),
    }
}

/// Returns the line of an answer after its key, if it has a number.
fn keyed_line(
    alloc: Global,
    number: Option<u64>,
    key: &Key,
    text: &str,
) -> Result<String, AllocError>
    ensures { IfOk result
        (λ line. string_bytes line ≡ keyed number key.now (text.now ++ 10 ∷ [])) }
{
    match number {
        Some(_) => line_of_key(alloc, key, text),
        None => plain_line(alloc, text),
    }
}

/// Returns the line with the answer to an input. With a `number`, that of the line of `acts`, it
/// begins with the key of a command or with the number of a telegram.
pub fn named_line(
    alloc: Global,
    number: Option<u64>,
    input: &Input<'_>,
    text: &str,
) -> Result<String, AllocError>
    ensures { IfOk result (λ line. string_bytes line
        ≡ named number (Request.Input input.now) (text.now ++ 10 ∷ [])) }
{
    match input {
        Input::Keyed(key, _) => keyed_line(alloc, number, key, text),
        Input::Wire(_) => numbered_line(alloc, number, text),
    }
}

fn answer_line(
    alloc: Global,
    number: Option<u64>,
    input: &Input<'_>,
    answer: &Answer,
) -> Result<String, AllocError>
    ensures { IfOk result (λ line. string_bytes line
        ≡ named number (Request.Input input.now) (answer_text answer.now ++ 10 ∷ [])) }
{
    let text = answer_text(alloc, answer)?;
    named_line(alloc, number, input, text.as_str())
}

pub(crate) fn refusal_line(
    alloc: Global,
    number: Option<u64>,
    refusal: &Refusal,
) -> Result<String, AllocError>
    ensures { IfOk result
        (λ line. string_bytes line ≡ numbered number (refusal_text refusal.now ++ 10 ∷ [])) }
{
    let text = refusal_text(alloc, refusal)?;
    numbered_line(alloc, number, text.as_str())
}

/// Passes an input to the station, writes the line of its answer, and the reason if a telegram
/// can't be read.
#[tactic(auto, using(crate::proofs::Reasons::command_read))]
pub(crate) fn answer_input<K: Keeper, O: ByteOut, E: ByteOut>(
    alloc: Global,
    keeper: &mut K,
    writer: &mut O,
    errors: &mut E,
    number: Option<u64>,
    input: &Input<'_>,
    at: Moment,
) -> Result<bool, RunFault>
    ensures { HasAnswered K.keeping at E.taken number (Request.Input input.now)
        (call keeper.old (O.taken writer.old) errors.old)
        (call keeper.new (O.taken writer.new) errors.new) result }
{
    let answer = match answer_one(keeper, input, at) {
        Ok(answer) => answer,
        Err(fault) => return Err(keeper_fault(fault)),
    };
    let Ok(line) = answer_line(alloc, number, input, &answer) else {
        return Err(RunFault::Memory);
    };
    send_part(writer, line.as_bytes())?;
    tell_answer(alloc, errors, number, input, &answer);
    Ok(matches!(answer, Answer::Done(_)))
}

/// Writes the line of a telegram that can't be read, and the reason.
///
/// Returns [`RunFault::Write`] if the writer fails, and [`RunFault::Memory`] if memory runs out. A
/// prefix of the line is written, perhaps empty.
pub fn answer_refusal<O: ByteOut, E: ByteOut>(
    alloc: Global,
    writer: &mut O,
    errors: &mut E,
    number: Option<u64>,
    refusal: &Refusal,
) -> Result<bool, RunFault>
    ensures { HasToldUnread E.taken (numbered number (refusal_text refusal.now ++ 10 ∷ []))
        (is_unread refusal.now) (reason_head number (Request.Refused refusal.now))
        (O.taken writer.old, errors.old) (O.taken writer.new, errors.new) result }
{
    let Ok(line) = refusal_line(alloc, number, refusal) else {
        return Err(RunFault::Memory);
    };
    send_part(writer, line.as_bytes())?;
    tell_refusal(alloc, errors, number, refusal);
    Ok(false)
}

/// Writes the line of a body that isn't a command of the verb, and the reason.
///
/// Returns [`RunFault::Write`] if the writer fails. A prefix of the line is written.
pub fn answer_bad<O: ByteOut, E: ByteOut>(
    alloc: Global,
    writer: &mut O,
    errors: &mut E,
    verb: Verb,
    body: &[u8],
) -> Result<bool, RunFault>
    ensures { HasToldUnread E.taken (codes "body bad\n") true (codes "body: ")
        (O.taken writer.old, errors.old) (O.taken writer.new, errors.new) result }
{
    send_part(writer, BAD_BODY)?;
    tell_body(alloc, errors, verb, body);
    Ok(false)
}

/// Writes the answer to a line of `acts` that is neither a command nor a telegram, and the reason.
///
/// Returns [`RunFault::Write`] if the writer fails, and [`RunFault::Memory`] if memory runs out. A
/// prefix of the line is written, perhaps empty.
pub fn answer_bad_line<O: ByteOut, E: ByteOut>(
    alloc: Global,
    writer: &mut O,
    errors: &mut E,
    number: Option<u64>,
    text: &[u8],
) -> Result<bool, RunFault>
    ensures { HasToldUnread E.taken (numbered number (codes "bad\n")) true (line_head number)
        (O.taken writer.old, errors.old) (O.taken writer.new, errors.new) result }
{
    let Ok(line) = numbered_line(alloc, number, "bad") else {
        return Err(RunFault::Memory);
    };
    send_part(writer, line.as_bytes())?;
    tell_bad_line(alloc, errors, number, text);
    Ok(false)
}

/// Does what is requested, writes the line of the answer, and the reason if it can't be read. With
/// a `number`, that of the line of `acts`, the answer begins with the key or with the number.
pub(crate) fn answer_asked<K: Keeper, O: ByteOut, E: ByteOut>(
    alloc: Global,
    keeper: &mut K,
    writer: &mut O,
    errors: &mut E,
    number: Option<u64>,
    asked: &Request<'_>,
    at: Moment,
) -> Result<bool, RunFault>
    ensures { HasAnswered K.keeping at E.taken number asked.now
        (call keeper.old (O.taken writer.old) errors.old)
        (call keeper.new (O.taken writer.new) errors.new) result }
{
    match asked {
        Request::Input(input) => answer_input(alloc, keeper, writer, errors, number, input, at),
        Request::Refused(refusal) => answer_refusal(alloc, writer, errors, number, refusal),
        Request::BadLine(text) => answer_bad_line(alloc, writer, errors, number, text),
        Request::Bad { verb, body } => answer_bad(alloc, writer, errors, *verb, body),
    }
}
