//! Writing an answer.
//! The line on standard error for a request whose body is refused.

ghost use Rattle.std.specs.Prelude.{◌≡◌, Bool, true, false, Err, IfOk, IfSome, string_bytes};
ghost use Rattle.http_desk.specs.Common.{IfWorks, IsReadersFault, OnlyReads, StaysIfBroken, State};
ghost use Rattle.http_desk.specs.Reply.{ok_answer, unavailable, StopsServing, HasSent, HasReported, HasWritten, HasWrittenShut};
ghost use Rattle.http_desk.specs.declared.printout.Printout.{Printout as AnyPrintout};
ghost use Rattle.http_desk.specs.Came.{IsRefusalLine};

use crate::answer::report_head;
use crate::asking::{Body, Response};
use crate::printout::Printout;
use crate::request::{Came, read_request};
use crate::serve::{ReadEnd, ServeFault, Served};
use crate::wanted::{HeadWants, Post, ROOM, asked, put_accepted};
use desk_commands::Verb;
use imp_fields::Why;
use input_reasons::{body_reason, telegram_reason};
use reports::{ReportCause, ReportFault, write_listing};
use shipment_machine::{Detail, Refusal};
use station_core::{ActFault, ByteOut, Counted, Keeper, Key, send};
use std::alloc::{AllocError, Global};

/// The answer of a station that is unavailable. Writing it allocates nothing.
const UNAVAILABLE: &str =
    "HTTP/1.1 503 Service Unavailable\r\nContent-Type: application/json\r\nContent-Length: 27\r\nConnection: close\r\n\r\n{\"detail\":\"\",\"refused\":503}";

fn unavailable() -> &'static [u8]
    ensures { result.now ≡ unavailable }
{
    UNAVAILABLE.as_bytes()
}

/// Writes an answer, up to the first write that fails.
#[tactic(auto, using(crate::proofs::Reporting::cause_of))]
fn send_answer<O: ByteOut>(
    writer: &mut O,
    status: u16,
    bytes: &[u8],
    reopen: bool,
) -> Result<Served, ServeFault>
    ensures sent { HasSent status reopen bytes.now (O.taken writer.old) (O.taken writer.new)
        result }
    ensures writes { StopsServing (O.taken writer.old) (O.taken writer.new) result }
{
    match send(writer, bytes) {
        Ok(()) => Ok(Served { status, reopen }),
        Err(sent) => Err(ServeFault::Write { sent: sent as u64 }),
    }
}

fn send_accepted<O: ByteOut>(writer: &mut O, count: u32) -> Result<Served, ServeFault>
    ensures sent { HasSent 200 false (ok_answer count) (O.taken writer.old) (O.taken writer.new)
        result }
    ensures writes { StopsServing (O.taken writer.old) (O.taken writer.new) result }
{
    let mut room = [0; ROOM];
    let len = put_accepted(&mut room, count);
    send_answer(writer, 200, &room[..len], false)
}

/// Returns whether the station must be opened again.
fn is_reopen(fault: &ActFault) -> bool
    ensures { IsReadersFault (Unit {0}) fault.now → result ≡ false }
{
    match fault {
        ActFault::Reopen => true,
        _ => false,
    }
}

fn answer_report<K: Keeper, O: ByteOut>(
    alloc: Global,
    keeper: &mut K,
    writer: &mut O,
    printout: Printout,
) -> Result<Served, ServeFault>
    ensures reads { OnlyReads K.keeping keeper.old keeper.new }
    ensures writes { StopsServing (O.taken writer.old) (O.taken writer.new) result }
    ensures reported { IfWorks K.keeping keeper.old keeper.new
        (λ s. HasReported s printout (O.taken writer.old) (O.taken writer.new) result) }
    ensures same { StaysIfBroken K.keeping keeper.old keeper.new }
    ensures shut { K.keeping.is_broken keeper.old ≡ true → (reopen : Bool) × HasSent 503 reopen
        unavailable (O.taken writer.old) (O.taken writer.new) result }
    ensures read { result ≡ Err ServeFault.Read → ⊥ }
{
    let Ok(head) = report_head(alloc, &printout) else {
        return send_answer(writer, 503, unavailable(), false);
    };
    match write_listing(
        alloc,
        keeper,
        &printout.listing,
        printout.form,
        writer,
        head.as_bytes(),
    ) {
        Ok(()) => Ok(Served {
            status: 200,
            reopen: false,
        }),
        Err(ReportFault { sent, cause }) => match cause {
            ReportCause::Write => Err(ServeFault::Write { sent }),
            ReportCause::Act(fault) => {
                if sent > 0 {
                    return Ok(Served {
                        status: 200,
                        reopen: false,
                    });
                }
                send_answer(writer, 503, unavailable(), is_reopen(&fault))
            }
        },
    }
}

pub(crate) fn write_told<K: Keeper, O: ByteOut>(
    alloc: Global,
    keeper: &mut K,
    writer: &mut O,
    told: &Response,
) -> Result<Served, ServeFault>
    ensures reads { OnlyReads K.keeping keeper.old keeper.new }
    ensures writes { StopsServing (O.taken writer.old) (O.taken writer.new) result }
    ensures written { (s : State) → ((name : AnyPrintout) → told.now ≡ Response.Report name
        → K.keeping.keeps keeper.old s × (K.keeping.is_broken keeper.old ≡ false))
        → K.keeping.is_sound keeper.new → HasWritten told.now s (O.taken writer.old)
        (O.taken writer.new) result }
    ensures same { StaysIfBroken K.keeping keeper.old keeper.new }
    ensures shut { K.keeping.is_broken keeper.old ≡ true → HasWrittenShut told.now
        (O.taken writer.old) (O.taken writer.new) result }
    ensures read { result ≡ Err ServeFault.Read → ⊥ }
{
    match told {
        Response::Accepted(count) => send_accepted(writer, *count),
        Response::Whole(status, bytes) => send_answer(writer, *status, bytes.as_slice(), false),
        Response::Report(printout) => answer_report(alloc, keeper, writer, *printout),
        Response::Unavailable(reopen) => send_answer(writer, 503, unavailable(), *reopen),
    }
}

/// The only refusal of a readable telegram that is answered with 400: its date isn't an existing
/// day.
const NO_DAY: Refusal = Refusal {
    number: 301,
    detail: Detail::Line {
        line: 2,
        why: Why::Date,
    },
};

/// Returns the line for a body that isn't a command of the verb.
fn command_line(alloc: Global, verb: Verb, bytes: &[u8]) -> Result<String, AllocError>
    ensures { IfOk result (λ line. IsRefusalLine (string_bytes line)) }
{
    let reason = body_reason(alloc, verb, bytes)?;
    let word = verb.word();
    format!(in alloc; "POST /v1/act/{word}: {reason}")
}

/// Returns the line for a telegram that is refused.
fn telegram_line(alloc: Global, refusal: &Refusal) -> Result<String, AllocError>
    ensures { IfOk result (λ line. IsRefusalLine (string_bytes line)) }
{
    let reason = telegram_reason(alloc, refusal)?;
    format!(in alloc; "POST /v1/telegrams: {reason}")
}

/// Returns the line for a command's body, if it is refused.
fn act_line(
    alloc: Global,
    verb: Verb,
    bytes: &[u8],
    body: &Body<'_>,
) -> Result<Option<String>, AllocError>
    ensures { IfOk result (λ line. IfSome line (λ line. IsRefusalLine (string_bytes line))) }
{
    match body {
        Body::Bad(_) => Ok(Some(command_line(alloc, verb, bytes)?)),
        _ => Ok(None),
    }
}

/// Returns the line for a telegram that was answered with 400.
fn wire_line(alloc: Global, body: &Body<'_>) -> Result<Option<String>, AllocError>
    ensures { IfOk result (λ line. IfSome line (λ line. IsRefusalLine (string_bytes line))) }
{
    match body {
        Body::Unreadable(refusal) => Ok(Some(telegram_line(alloc, refusal)?)),
        Body::Input(_) => Ok(Some(telegram_line(alloc, &NO_DAY)?)),
        _ => Ok(None),
    }
}

/// Returns the line for a body that was posted under a key, or without one.
fn body_line(
    alloc: Global,
    post: Post,
    key: Option<Key>,
    bytes: &[u8],
) -> Result<Option<String>, AllocError>
    ensures { IfOk result (λ line. IfSome line (λ line. IsRefusalLine (string_bytes line))) }
{
    let body = asked(alloc, post, key, bytes)?;
    match post {
        Post::Command(verb) if key.is_some() => act_line(alloc, verb, bytes, &body),
        Post::Telegram => wire_line(alloc, &body),
        _ => Ok(None),
    }
}

/// Returns the line for a received request.
fn request_line(alloc: Global, came: &Came, bytes: &[u8]) -> Result<Option<String>, AllocError>
    ensures { IfOk result (λ line. IfSome line (λ line. IsRefusalLine (string_bytes line))) }
{
    let Came::Head(HeadWants::Body(post, _), key, start) = came else {
        return Ok(None);
    };
    match bytes.get(*start..) {
        Some(body) => body_line(alloc, *post, *key, body),
        None => Ok(None),
    }
}

/// Returns the line for standard error about an answered request: its method, its path, and the
/// reason why its body was refused. Returns `None` if it wasn't, or isn't a command or a telegram.
///
/// Returns [`AllocError`] if memory runs out.
pub fn refusal_line(
    alloc: Global,
    bytes: &[u8],
    served: &Served,
) -> Result<Option<String>, AllocError>
    ensures line { IfOk result (λ line. IfSome line (λ line. IsRefusalLine (string_bytes line))) }
    ensures refused { IfOk result (λ line. IfSome line (λ _. served.now.status ≡ 400)) }
{
    if served.status != 400 {
        return Ok(None);
    }
    let mut reader = Counted::new(bytes);
    let mut received = Vec::new(alloc);
    match read_request(&mut reader, &mut received) {
        Ok(came) => request_line(alloc, &came, received.as_slice()),
        Err(ReadEnd::Memory) => Err(AllocError),
        Err(_) => Ok(None),
    }
}
