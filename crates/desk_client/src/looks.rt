//! Look-ups of numbers, and histories of waybills.
ghost use Rattle.std.specs.Prelude.{◌≡◌, ◌++◌, []};
ghost use Rattle.desk_client.specs.Common.{list_all, is_printable};
ghost use Rattle.desk_client.specs.Done.{has_found, has_object_front, history_look, is_text_byte, is_unknown, object_look, shown, HasLooked, HasShownFound, HasShownUnknown};
ghost use Rattle.desk_client.specs.Try.{get_request, history_path, most_of, most_row_bytes, request_of};

use crate::ask::{Ask, Response};
use crate::ended::behind;
use crate::lines::service_fault;
use crate::question::Question;
use awb_number::Awb;
use cli_run::{RunFault, send_part, send_word};
use station_core::ByteOut;
use std::alloc::Global;

/// The answer of a desk for an unknown number.
const UNKNOWN_BODY: &[u8] = b"{\"detail\":\"\",\"refused\":404}";

fn is_unknown(answer: &Response) -> bool
    ensures { result ≡ is_unknown answer.now }
{
    answer.status == 404 && answer.body() == UNKNOWN_BODY
}

fn has_object_front(number: &Awb, text: &[u8]) -> bool
    ensures { result ≡ has_object_front number.now text.now }
{
    let Some(rest) = behind(b"{\"awb\":\"", text) else {
        return false;
    };
    let Some(rest) = behind(&number.write(), rest) else {
        return false;
    };
    behind(b"\",", rest).is_some()
}

fn are_printable(text: &[u8]) -> bool
    ensures { result ≡ list_all is_printable text.now }
{
    text.iter().all(|b| 32 <= *b && *b <= 126)
}

/// Returns whether a text has only printable bytes and the ends of lines.
fn are_lines(text: &[u8]) -> bool
    ensures { result ≡ list_all is_text_byte text.now }
{
    text.iter()
        .all(|b| (32 <= *b && *b <= 126) || *b == b'\n' || *b == b'\r')
}

fn has_object(number: &Awb, answer: &Response) -> bool
    ensures { result ≡ has_found (object_look number.now) answer.now }
{
    let text = answer.body();
    answer.status == 200 && has_object_front(number, text) && are_printable(text)
}

fn has_history(number: &Awb, answer: &Response) -> bool
    ensures { result ≡ has_found (history_look number.now) answer.now }
{
    let text = answer.body();
    answer.status == 200 && has_object_front(number, text) && are_lines(text)
}

/// Writes that a number is unknown, if the answer says so.
fn show_unknown<W: ByteOut>(answer: &Response, output: &mut W) -> Result<bool, RunFault>
    ensures { HasShownUnknown answer.now (W.taken output.old) (W.taken output.new) result }
{
    if !is_unknown(answer) {
        return Err(RunFault::Store);
    }
    send_word(output, "", b"unknown")?;
    Ok(false)
}

/// Writes the object in the answer to a look-up, or that the number is unknown.
fn show_object<W: ByteOut>(
    number: &Awb,
    answer: &Response,
    output: &mut W,
) -> Result<bool, RunFault>
    ensures { HasShownFound (object_look number.now) answer.now (W.taken output.old)
        (W.taken output.new) result }
{
    if !has_object(number, answer) {
        return show_unknown(answer, output);
    }
    send_word(output, "", answer.body())?;
    Ok(true)
}

/// Writes the history in an answer, or that the waybill is unknown.
fn show_history<W: ByteOut>(
    number: &Awb,
    answer: &Response,
    output: &mut W,
) -> Result<bool, RunFault>
    ensures { HasShownFound (history_look number.now) answer.now (W.taken output.old)
        (W.taken output.new) result }
{
    if !has_history(number, answer) {
        return show_unknown(answer, output);
    }
    send_part(output, answer.body())?;
    Ok(true)
}

/// Looks up a waybill or a number, and writes the object, or that the number is unknown.
pub(crate) fn ask_number<S: Ask, W: ByteOut>(
    alloc: Global,
    service: &mut S,
    question: &Question<'_>,
    number: &Awb,
    output: &mut W,
) -> Result<bool, RunFault>
    ensures { HasLooked (HasShownFound (object_look number.now)) (most_of question.now)
        (request_of question.now) (shown (S.talk service.old) (W.taken output.old))
        (shown (S.talk service.new) (W.taken output.new)) result }
{
    match service.ask(alloc, question) {
        Ok(answer) => show_object(number, &answer, output),
        Err(fault) => Err(service_fault(fault)),
    }
}

/// Runs `history AWB`: writes the record of a waybill, its moves, its trail and its status
/// messages, all from one answer.
pub(crate) fn ask_history<S: Ask, W: ByteOut>(
    alloc: Global,
    service: &mut S,
    number: &Awb,
    output: &mut W,
) -> Result<bool, RunFault>
    ensures { HasLooked (HasShownFound (history_look number.now)) most_row_bytes
        (get_request (history_path number.now) ++ [])
        (shown (S.talk service.old) (W.taken output.old))
        (shown (S.talk service.new) (W.taken output.new)) result }
{
    match service.ask(alloc, &Question::History(*number)) {
        Ok(answer) => show_history(number, &answer, output),
        Err(fault) => Err(service_fault(fault)),
    }
}
