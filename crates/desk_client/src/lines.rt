//! The lines of `acts`, each a command or a telegram.
//! The line of an answer.

ghost use Rattle.std.specs.Prelude.{◌≡◌, Err, IfOk, IfSome, None, string_bytes};
ghost use Rattle.desk_client.specs.Common.{reason_head, HasToldWhy, call, word, Data, view, IsWritten};
ghost use Rattle.cli_run.specs.declared.request.Request.{Request as AnyRequest};
ghost use Rattle.desk_client.specs.Content.{body_of, is_late, service_fault, HasAnswered, HasAnsweredInput, HasHeard, HasUnderstoodLine};
ghost use Rattle.desk_client.specs.Try.{most_of, request_of, command_request, most_answer};
ghost use Rattle.desk_client.specs.Done.{posted_request, request_by, HasAnsweredLine, HasHeardValue, IsPosted};

use crate::ask::{Ask, AskFault, Response};
use crate::content::{Content, content_of};
use crate::question::Question;
use cli_run::{
    Request, RunFault, answer_bad, answer_bad_line, answer_refusal, frame, is_blank, line_asked,
    line_value, named_line, send_part, tell_refusal, wired,
};
use desk_commands::Verb;
use imp_fields::Why;
use serde_json::Value;
use shipment_machine::{Detail, Refusal};
use station_core::{ByteOut, Input, Key};
use std::alloc::{AllocError, Global};

/// The only answer that refuses a telegram as unreadable although it was read: the date of the
/// flight on its second line isn't an existing day.
const LATE: &str = "refused 301 2 date";

/// The line in the service's answer, without its end, and whether the input was accepted.
#[derive(Drop)]
pub(crate) struct Heard {
    pub(crate) good: bool,
    pub(crate) text: String,
}

impl Response {
    pub(crate) fn body(&self) -> &[u8]
        ensures { result.now ≡ body_of self.now }
    {
        self.bytes.as_slice().get(self.start..).unwrap_or(&[])
    }
}

/// Returns the fault of a call that the service didn't answer. [`RunFault::Store`] means the
/// service.
pub(crate) fn service_fault(fault: AskFault) -> RunFault
    ensures { result ≡ service_fault fault }
{
    match fault {
        AskFault::Memory => RunFault::Memory,
        _ => RunFault::Store,
    }
}

/// Returns the line in an answer.
fn heard_of(alloc: Global, answer: &Response) -> Result<Heard, RunFault>
    ensures { HasUnderstoodLine answer.now result }
{
    match content_of(alloc, answer.status, answer.body()) {
        Ok(Content::Line { good, text }) => Ok(Heard { good, text }),
        Ok(Content::Nothing) => Err(RunFault::Store),
        Err(_) => Err(RunFault::Memory),
    }
}

fn hear<S: Ask>(alloc: Global, service: &mut S, question: &Question<'_>) -> Result<Heard, RunFault>
    ensures answered { HasHeard (request_of question.now) (most_of question.now)
        (S.talk service.old) (S.talk service.new) result }
    ensures unread { result ≡ Err RunFault.Read → ⊥ }
{
    match service.ask(alloc, question) {
        Ok(answer) => heard_of(alloc, &answer),
        Err(fault) => Err(service_fault(fault)),
    }
}

/// Writes the reason why a telegram can't be read, if that is its answer although it was read.
fn tell_late<E: ByteOut>(
    alloc: Global,
    errors: &mut E,
    number: Option<u64>,
    input: &Input<'_>,
    text: &str,
)
    ensures { HasToldWhy E.taken (is_late input.now text.now)
        (reason_head number (AnyRequest.Input input.now)) errors.old errors.new }
{
    if !matches!(input, Input::Wire(_)) || text != LATE {
        return;
    }
    let detail = Detail::Line {
        line: 2,
        why: Why::Date,
    };
    let refusal = Refusal {
        number: 301,
        detail,
    };
    tell_refusal(alloc, errors, number, &refusal);
}

/// Sends an input to the service, writes the line of its answer, and the reason if a telegram can't
/// be read.
pub(crate) fn answer_input<S: Ask, W: ByteOut, E: ByteOut>(
    alloc: Global,
    service: &mut S,
    output: &mut W,
    errors: &mut E,
    number: Option<u64>,
    input: &Input<'_>,
    question: &Question<'_>,
) -> Result<bool, RunFault>
    ensures answered { HasAnsweredInput E.taken number input.now (request_of question.now)
        (most_of question.now) (call (S.talk service.old) (W.taken output.old) errors.old)
        (call (S.talk service.new) (W.taken output.new) errors.new) result }
    ensures unread { result ≡ Err RunFault.Read → ⊥ }
{
    let heard = hear(alloc, service, question)?;
    let text = heard.text.as_str();
    let Ok(line) = named_line(alloc, number, input, text) else {
        return Err(RunFault::Memory);
    };
    send_part(output, line.as_bytes())?;
    tell_late(alloc, errors, number, input, text);
    Ok(heard.good)
}

/// Answers a request, and writes the reason if it can't be read. Only an input is sent to the
/// service, as the given question.
pub(crate) fn answer_asked<S: Ask, W: ByteOut, E: ByteOut>(
    alloc: Global,
    service: &mut S,
    output: &mut W,
    errors: &mut E,
    number: Option<u64>,
    asked: &Request<'_>,
    question: &Question<'_>,
) -> Result<bool, RunFault>
    ensures answered { HasAnswered E.taken number asked.now (request_of question.now)
        (most_of question.now) (call (S.talk service.old) (W.taken output.old) errors.old)
        (call (S.talk service.new) (W.taken output.new) errors.new) result }
    ensures unread { result ≡ Err RunFault.Read → ⊥ }
{
    match asked {
        Request::Input(input) => {
            answer_input(alloc, service, output, errors, number, input, question)
        }
        Request::Refused(refusal) => answer_refusal(alloc, output, errors, number, refusal),
        Request::BadLine(text) => answer_bad_line(alloc, output, errors, number, text),
        Request::Bad { verb, body } => answer_bad(alloc, output, errors, *verb, body),
    }
}

/// The content of a line for the service: a body under the verb and the key of a command, or a
/// telegram.
#[derive(Drop)]
pub(crate) struct Posted {
    pub(crate) head: Option<(Verb, Key)>,
    pub(crate) text: String,
}

fn command_posted(verb: Verb, key: Key, text: String) -> Posted
    ensures { posted_request result ≡ command_request (word verb) key (string_bytes text) }
{
    Posted {
        head: Some((verb, key)),
        text,
    }
}

/// Returns the content in a value, an empty text if it is neither a command nor a telegram.
fn value_posted(alloc: Global, value: &Value) -> Result<Posted, AllocError>
    ensures { IfOk result (λ posted. IsPosted (view value.now) (posted_request posted)) }
{
    if let Some(framed) = frame(value) {
        let text = framed.2.to_string(alloc)?;
        return Ok(command_posted(framed.0, framed.1, text));
    }
    match wired(value) {
        Some(text) => {
            let text = String::from_str(alloc, text)?;
            Ok(Posted { head: None, text })
        }
        None => Ok(Posted {
            head: None,
            text: String::new(alloc),
        }),
    }
}

/// Returns the content of a line, from its value.
fn line_posted(alloc: Global, value: &Option<Value>) -> Result<Posted, AllocError>
    ensures { IfOk result
        (λ posted. IfSome value.now (λ v. IsPosted (view v) (posted_request posted))) }
{
    match value {
        Some(value) => value_posted(alloc, value),
        None => Ok(Posted {
            head: None,
            text: String::new(alloc),
        }),
    }
}

/// Returns the question of a command's body under its verb and its key, or of a telegram.
pub(crate) fn question_by<'a>(head: Option<(Verb, Key)>, text: &'a [u8]) -> Question<'a>
    ensures request { request_of result ≡ request_by head text.entry.now }
    ensures most { most_of result ≡ most_answer }
{
    match head {
        Some((verb, key)) => Question::Command(verb, key, text),
        None => Question::Telegram(text),
    }
}

fn question_of<'a>(posted: &'a Posted) -> Question<'a>
    ensures request { request_of result ≡ posted_request posted.entry.now }
    ensures most { most_of result ≡ most_answer }
{
    question_by(posted.head, posted.text.as_str().as_bytes())
}

fn answer_value<S: Ask, W: ByteOut, E: ByteOut>(
    alloc: Global,
    service: &mut S,
    output: &mut W,
    errors: &mut E,
    number: u64,
    line: &[u8],
    value: &Option<Value>,
) -> Result<bool, RunFault>
    requires some { IfSome value.now (λ v. IsWritten line.now (view v)) }
    requires none { value.now ≡ None → (d : Data) → ¬ (IsWritten line.now d) }
    ensures answered { HasHeardValue E.taken number line.now
        (call (S.talk service.old) (W.taken output.old) errors.old)
        (call (S.talk service.new) (W.taken output.new) errors.new) result }
    ensures unread { result ≡ Err RunFault.Read → ⊥ }
{
    let Ok(asked) = line_asked(alloc, value, line) else {
        return Err(RunFault::Memory);
    };
    let Ok(posted) = line_posted(alloc, value) else {
        return Err(RunFault::Memory);
    };
    let query = question_of(&posted);
    answer_asked(alloc, service, output, errors, Some(number), &asked, &query)
}

/// Answers a line, and writes the reason if it can't be read.
pub(crate) fn answer_line<S: Ask, W: ByteOut, E: ByteOut>(
    alloc: Global,
    service: &mut S,
    output: &mut W,
    errors: &mut E,
    number: u64,
    line: &[u8],
) -> Result<bool, RunFault>
    ensures answered { HasAnsweredLine E.taken number line.now
        (call (S.talk service.old) (W.taken output.old) errors.old)
        (call (S.talk service.new) (W.taken output.new) errors.new) result }
    ensures unread { result ≡ Err RunFault.Read → ⊥ }
{
    if is_blank(line) {
        return Ok(true);
    }
    match line_value(alloc, line) {
        Ok(value) => answer_value(alloc, service, output, errors, number, line, &value),
        Err(_) => Err(RunFault::Memory),
    }
}
