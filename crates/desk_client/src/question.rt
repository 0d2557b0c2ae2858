//! Questions to a service, and their requests.
//! A service as what answers the inputs of a command line.

ghost use Rattle.std.specs.Prelude.{◌≡◌, ◌++◌, [], IfOk, length, string_bytes};
ghost use Rattle.desk_client.specs.Common.{rows_path};
ghost use Rattle.desk_client.specs.Try.{command_lines, key_line, command_head, get_request, history_path, holder_path, length_line, most_of, request_of, telegram_head, waybill_path, talked};
ghost use Rattle.desk_client.specs.Done.{HasAnsweredRow, HasAnsweredLine, HasAnsweredText};

use crate::ask::Ask;
use crate::lines::{answer_asked, answer_line, question_by};
use crate::rows::answer_row;
use awb_number::Awb;
use cli_run::{Answering, LineCount, Request, RowPlace, RunFault};
use csv::ByteRecord;
use desk_commands::Verb;
use http_desk::rows_path;
use reports::{Form, Listing};
use station_core::{ByteOut, Key};
use std::alloc::{AllocError, Global};

/// The largest size of an answer that is one JSON object.
const MOST_ANSWER: usize = 65_536;

/// A question to a service.
#[derive(Clone, Copy)]
pub enum Question<'a> {
    /// A command's body under its key.
    Command(Verb, Key, &'a [u8]),
    /// A telegram.
    Telegram(&'a [u8]),
    /// The record of a waybill.
    Waybill(Awb),
    /// The history of a waybill.
    History(Awb),
    /// The holder of a number.
    Holder(Awb),
    /// A report, or a part of one.
    Rows(Listing, Form),
}

/// Returns the largest size of the answer to a question. Only rows and histories are unlimited.
pub(crate) fn most_of(question: &Question<'_>) -> usize
    ensures { result ≡ most_of question.now }
{
    match question {
        Question::Rows(_, _) | Question::History(_) => usize::MAX,
        _ => MOST_ANSWER,
    }
}

fn command_lines(alloc: Global, word: &str) -> Result<String, AllocError>
    ensures { IfOk result (λ text. string_bytes text ≡ command_lines word.now) }
{
    format!(in alloc; "POST /v1/act/{word} HTTP/1.1\r\nHost: 127.0.0.1\r\nConnection: close\r\n")
}

fn key_line(alloc: Global, key: &Key) -> Result<String, AllocError>
    ensures { IfOk result (λ text. string_bytes text ≡ key_line key.now) }
{
    format!(in alloc; "Request-Key: {key}\r\n")
}

/// Returns the line of a body's length, and the empty line after it.
fn length_line(alloc: Global, len: usize) -> Result<String, AllocError>
    ensures { IfOk result (λ text. string_bytes text ≡ length_line len) }
{
    format!(in alloc; "Content-Length: {len}\r\n\r\n")
}

/// Returns the head before a command's body.
fn command_head(alloc: Global, word: &str, key: &Key, len: usize) -> Result<String, AllocError>
    ensures { IfOk result (λ text. string_bytes text ≡ command_head word.now key.now len) }
{
    let lines = command_lines(alloc, word)?;
    let key = key_line(alloc, key)?;
    let length = length_line(alloc, len)?;
    format!(in alloc; "{lines}{key}{length}")
}

fn telegram_head(alloc: Global, len: usize) -> Result<String, AllocError>
    ensures { IfOk result (λ text. string_bytes text ≡ telegram_head len) }
{
    format!(in alloc;
        "POST /v1/telegrams HTTP/1.1\r\nHost: 127.0.0.1\r\nConnection: close\r\nContent-Length: {len}\r\n\r\n"
    )
}

/// Returns the request of a path, without a body.
fn get_request(alloc: Global, path: &str) -> Result<Vec<u8>, AllocError>
    ensures { IfOk result (λ bytes. bytes.items ≡ get_request path.now ++ []) }
{
    let head = format!(in alloc;
        "GET {path} HTTP/1.1\r\nHost: 127.0.0.1\r\nConnection: close\r\n\r\n"
    )?;
    with_body(alloc, head.as_str(), &[])
}

fn waybill_path(alloc: Global, number: &Awb) -> Result<String, AllocError>
    ensures { IfOk result (λ text. string_bytes text ≡ waybill_path number.now) }
{
    format!(in alloc; "/v1/waybills/{number}")
}

fn history_path(alloc: Global, number: &Awb) -> Result<String, AllocError>
    ensures { IfOk result (λ text. string_bytes text ≡ history_path number.now) }
{
    format!(in alloc; "/v1/waybills/{number}/history")
}

fn holder_path(alloc: Global, number: &Awb) -> Result<String, AllocError>
    ensures { IfOk result (λ text. string_bytes text ≡ holder_path number.now) }
{
    format!(in alloc; "/v1/stock/{number}")
}

fn with_body(alloc: Global, head: &str, body: &[u8]) -> Result<Vec<u8>, AllocError>
    ensures { IfOk result (λ bytes. bytes.items ≡ head.now ++ body.now) }
{
    let mut bytes = Vec::new(alloc);
    bytes.extend_from_slice(head.as_bytes())?;
    bytes.extend_from_slice(body)?;
    Ok(bytes)
}

pub(crate) fn request_of(alloc: Global, question: &Question<'_>) -> Result<Vec<u8>, AllocError>
    ensures { IfOk result (λ bytes. bytes.items ≡ request_of question.now) }
{
    match question {
        Question::Command(verb, key, body) => {
            let head = command_head(alloc, verb.word(), key, body.len())?;
            with_body(alloc, head.as_str(), body)
        }
        Question::Telegram(text) => {
            let head = telegram_head(alloc, text.len())?;
            with_body(alloc, head.as_str(), text)
        }
        Question::Waybill(number) => get_request(alloc, waybill_path(alloc, number)?.as_str()),
        Question::History(number) => get_request(alloc, history_path(alloc, number)?.as_str()),
        Question::Holder(number) => get_request(alloc, holder_path(alloc, number)?.as_str()),
        Question::Rows(listing, form) => {
            let path = rows_path(alloc, listing, *form)?;
            get_request(alloc, path.as_str())
        }
    }
}

/// The way of a service: each input is sent as a question.
#[derive(Clone, Copy)]
pub(crate) struct ByService;

impl<S: Ask, E: ByteOut> Answering<S, E> for ByService {
    ghost answered_row = { λ way number row old new result.
        HasAnsweredRow E.taken number row (talked S.talk old) (talked S.talk new) result };

    ghost answered_line = { λ way number line old new result.
        HasAnsweredLine E.taken number line (talked S.talk old) (talked S.talk new) result };

    ghost answered = { λ way head text asked old new result.
        HasAnsweredText S.talk E.taken head text asked old new result };

    fn answer_row<W: ByteOut>(
        &self,
        alloc: Global,
        desk: &mut S,
        writer: &mut W,
        errors: &mut E,
        number: u64,
        lines: &LineCount,
        row: &ByteRecord,
    ) -> Result<bool, RunFault> {
        let line = lines.first_line(row);
        let place = RowPlace { number, line };
        answer_row(alloc, desk, writer, errors, place, row)
    }

    fn answer_line<W: ByteOut>(
        &self,
        alloc: Global,
        desk: &mut S,
        writer: &mut W,
        errors: &mut E,
        number: u64,
        line: &[u8],
    ) -> Result<bool, RunFault> {
        answer_line(alloc, desk, writer, errors, number, line)
    }

    fn answer<W: ByteOut>(
        &self,
        alloc: Global,
        desk: &mut S,
        writer: &mut W,
        errors: &mut E,
        head: Option<(Verb, Key)>,
        text: &[u8],
        asked: &Request<'_>,
    ) -> Result<bool, RunFault> {
        let question = question_by(head, text);
        answer_asked(alloc, desk, writer, errors, None, asked, &question)
    }
}
