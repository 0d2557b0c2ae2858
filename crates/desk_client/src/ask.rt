//! Sending a question, in up to three tries.

ghost use Rattle.std.specs.Prelude.{◌≡◌};
ghost use Rattle.desk_client.specs.Try.{by_time, HasAsked, HasRead, HasSent, HasUnderstood, is_vain, last_of, talk, Talk, IsRefusedOrTalked, HasTried, HasTriedTwice, HasTriedThrice, IsAnswered, most_of, request_of};
ghost use Rattle.desk_client.specs.Done.{shown, HasAskedRows};
ghost use Rattle.desk_client.specs.Common.{rows_path};

use crate::ended::begun_in;
use crate::lines::service_fault;
use crate::question::{Question, most_of, request_of};
use crate::reading::{Connect, LastTry, RemoteDesk, read_all, read_more};
use crate::report::show_answer;
use crate::whole::{Found, found_in};
use cli_run::RunFault;
use reports::{Form, Listing};
use station_core::{ByteIn, ByteOut, send};
use std::alloc::Global;

/// The reason why a question wasn't answered.
#[derive(Clone, Copy)]
pub enum AskFault {
    /// The connection was refused.
    Refused,
    /// The writer failed or wrote 0 bytes. A prefix of the request was sent.
    Write,
    /// The reader failed.
    Read,
    /// The reader timed out.
    Late,
    /// Memory ran out.
    Memory,
    /// The connection ended before the whole answer.
    Cut,
    /// The answer is longer than allowed.
    Long,
    /// The bytes aren't a prefix of any answer of a desk.
    Foreign,
}

/// An answer that was received.
#[derive(Drop)]
pub struct Response {
    pub status: u16,
    /// All bytes received.
    pub bytes: Vec<u8>,
    /// The index at which its body starts.
    pub start: usize,
    /// `None` for a whole answer. For a report whose rest is still to be read, the length of the
    /// printable prefix of its body.
    pub begun: Option<usize>,
}

/// The extent to which an answer is read.
#[derive(Clone, Copy)]
pub enum Until {
    /// To the end of the connection, or until more than this many bytes were received.
    End(usize),
    /// Until printable rows of a report in this form were received, or else to the end of the
    /// connection.
    Rows(Form),
}

/// Returns the bytes as an answer, if they are one and not too long.
fn understood(bytes: Vec<u8>, most: usize) -> Result<Response, AskFault>
    ensures { HasUnderstood most bytes.items result }
{
    if bytes.len() > most {
        return Err(AskFault::Long);
    }
    match found_in(bytes.as_slice()) {
        Found::Whole(place) => Ok(Response {
            status: place.status,
            bytes,
            start: place.start,
            begun: None,
        }),
        Found::Cut => Err(AskFault::Cut),
        Found::Foreign => Err(AskFault::Foreign),
    }
}

fn send_request<O: ByteOut>(writer: &mut O, request: &[u8]) -> Result<(), AskFault>
    ensures { HasSent request.now (O.taken writer.old) (O.taken writer.new) result }
{
    match send(writer, request) {
        Ok(()) => Ok(()),
        Err(_sent) => Err(AskFault::Write),
    }
}

/// Reads an answer to the end of its connection, or until it is too long.
fn read_whole<I: ByteIn>(alloc: Global, reader: &mut I, most: usize) -> Result<Response, AskFault>
    ensures { HasRead (Until.End most) (I.given reader.old) (I.given reader.new) result }
{
    let bytes = read_all(alloc, reader, most)?;
    understood(bytes, most)
}

/// Reads an answer until printable rows were received, or else to the end of its connection.
#[tactic(auto, using(cli_run::proofs::Grown::grown_more, crate::proofs::Grown::come_more))]
fn read_rows<I: ByteIn>(alloc: Global, reader: &mut I, form: Form) -> Result<Response, AskFault>
    ensures { HasRead (Until.Rows form) (I.given reader.old) (I.given reader.new) result }
{
    let mut bytes = Vec::new(alloc);
    for _turn in 0..u64::MAX {
        let from = bytes.len().saturating_sub(2);
        if read_more(reader, &mut bytes)? {
            return understood(bytes, usize::MAX);
        }
        if let Some((start, end)) = begun_in(bytes.as_slice(), from, form) {
            return Ok(Response {
                status: 200,
                bytes,
                start,
                begun: Some(end),
            });
        }
    }
    Err(AskFault::Read)
}

/// Reads an answer as far as `until`.
fn read_until<I: ByteIn>(alloc: Global, reader: &mut I, until: Until) -> Result<Response, AskFault>
    ensures { HasRead until (I.given reader.old) (I.given reader.new) result }
{
    match until {
        Until::End(most) => read_whole(alloc, reader, most),
        Until::Rows(form) => read_rows(alloc, reader, form),
    }
}

/// Sends a request, and reads its answer.
#[tactic(auto, using(crate::proofs::Asking::not_sent, crate::proofs::Asking::request_sent))]
fn ask_one<I: ByteIn, O: ByteOut>(
    alloc: Global,
    reader: &mut I,
    writer: &mut O,
    request: &[u8],
    until: Until,
) -> Result<Response, AskFault>
    ensures { HasAsked until request.now (O.taken writer.old) (O.taken writer.new)
        (I.given reader.old) (I.given reader.new) result }
{
    send_request(writer, request)?;
    read_until(alloc, reader, until)
}

impl AskFault {
    fn is_vain(self) -> bool
        ensures { result ≡ is_vain self }
    {
        !matches!(self, AskFault::Memory | AskFault::Long | AskFault::Foreign)
    }

    pub(crate) fn by_time(self, is_late: bool) -> AskFault
        ensures { result ≡ by_time is_late self }
    {
        match self {
            AskFault::Read if is_late => AskFault::Late,
            fault => fault,
        }
    }
}

/// Returns the outcome of a try.
fn last_of(ended: &Result<Response, AskFault>) -> LastTry
    ensures { result ≡ last_of ended.now }
{
    match ended {
        Ok(answer) => LastTry::Answered(answer.status),
        Err(fault) => LastTry::Failed(*fault),
    }
}

/// Sends a request over a new connection, and reads its answer.
#[tactic(auto, using(crate::proofs::Asking::timed))]
fn ask_over_new<C: Connect, I: ByteIn, O: ByteOut>(
    alloc: Global,
    desk: &mut RemoteDesk<C, I, O>,
    request: &[u8],
    until: Until,
) -> Result<Response, AskFault>
    ensures { IsRefusedOrTalked until request.now
        (talk C.tried C.opened I.given O.taken desk.old)
        (talk C.tried C.opened I.given O.taken desk.new) result }
{
    if !desk.connections.connect() {
        return Err(AskFault::Refused);
    }
    match ask_one(alloc, &mut desk.reader, &mut desk.writer, request, until) {
        Ok(answer) => Ok(answer),
        Err(fault) => Err(fault.by_time(desk.connections.is_late())),
    }
}

/// Sends a request over a new connection, reads its answer, and records the outcome.
fn try_once<C: Connect, I: ByteIn, O: ByteOut>(
    alloc: Global,
    service: &mut RemoteDesk<C, I, O>,
    request: &[u8],
    until: Until,
) -> Result<Response, AskFault>
    ensures { HasTried until request.now (talk C.tried C.opened I.given O.taken service.old)
        (talk C.tried C.opened I.given O.taken service.new) result }
{
    let ended = ask_over_new(alloc, service, request, until);
    service.last = last_of(&ended);
    ended
}

/// Sends a request, and once more if the first try is in vain.
fn try_twice<C: Connect, I: ByteIn, O: ByteOut>(
    alloc: Global,
    service: &mut RemoteDesk<C, I, O>,
    request: &[u8],
    until: Until,
) -> Result<Response, AskFault>
    ensures { HasTriedTwice until request.now (talk C.tried C.opened I.given O.taken service.old)
        (talk C.tried C.opened I.given O.taken service.new) result }
{
    match try_once(alloc, service, request, until) {
        Err(fault) if fault.is_vain() => try_once(alloc, service, request, until),
        ended => ended,
    }
}

/// Sends a request, and up to twice more if tries are in vain.
fn try_thrice<C: Connect, I: ByteIn, O: ByteOut>(
    alloc: Global,
    service: &mut RemoteDesk<C, I, O>,
    request: &[u8],
    until: Until,
) -> Result<Response, AskFault>
    ensures { HasTriedThrice until request.now (talk C.tried C.opened I.given O.taken service.old)
        (talk C.tried C.opened I.given O.taken service.new) result }
{
    match try_once(alloc, service, request, until) {
        Err(fault) if fault.is_vain() => try_twice(alloc, service, request, until),
        ended => ended,
    }
}

/// A service that answers questions.
pub trait Ask {
    /// The history: how many connections were tried and opened, what was sent, and what was
    /// received.
    ghost talk: { Self → Talk };

    /// Asks a question in up to three tries. Each try sends the same bytes. It tries again only if
    /// the connection was refused or broke, or ended before the whole answer.
    ///
    /// `Ok` is a whole answer. Returns [`AskFault::Memory`] if memory runs out, and
    /// [`AskFault::Long`] or [`AskFault::Foreign`] at once if the answer isn't a desk's. Otherwise
    /// returns the fault of the third try. `talk` keeps the outcome of the last try. The desk may
    /// have done a command or a telegram even then: ask again, under the same key.
    fn ask(&mut self, alloc: Global, question: &Question<'_>) -> Result<Response, AskFault>
        ensures { IsAnswered (most_of question.now) (request_of question.now) (talk self.old)
            (talk self.new) result };

    /// Asks for rows, a report or a part of one, in up to three tries, and prints them as they
    /// arrive. It tries again only if nothing was printed.
    ///
    /// `Ok` says that the whole report was received and printed.
    ///
    /// # Errors
    ///
    /// - [`RunFault::Write`]: the output fails or writes 0 bytes. Nothing more is read.
    /// - [`RunFault::Memory`]: memory runs out.
    /// - [`RunFault::Store`]: the service doesn't answer, or not like a desk, or the report breaks
    ///   off. Then a prefix of complete rows was printed, without the report's end.
    fn ask_rows<W: ByteOut>(
        &mut self,
        alloc: Global,
        listing: &Listing,
        form: Form,
        output: &mut W,
    ) -> Result<bool, RunFault>
        ensures { HasAskedRows (rows_path listing.now form) form
            (shown (talk self.old) (W.taken output.old))
            (shown (talk self.new) (W.taken output.new)) result };
}

impl<C: Connect, I: ByteIn, O: ByteOut> Ask for RemoteDesk<C, I, O> {
    ghost talk = { talk C.tried C.opened I.given O.taken };

    fn ask(&mut self, alloc: Global, question: &Question<'_>) -> Result<Response, AskFault> {
        let Ok(request) = request_of(alloc, question) else {
            return Err(AskFault::Memory);
        };
        let until = Until::End(most_of(question));
        try_thrice(alloc, self, request.as_slice(), until)
    }

    #[tactic(auto, using(crate::proofs::RowsAsked::taken_rows))]
    fn ask_rows<W: ByteOut>(
        &mut self,
        alloc: Global,
        listing: &Listing,
        form: Form,
        output: &mut W,
    ) -> Result<bool, RunFault> {
        let Ok(request) = request_of(alloc, &Question::Rows(*listing, form)) else {
            return Err(RunFault::Memory);
        };
        match try_thrice(alloc, self, request.as_slice(), Until::Rows(form)) {
            Ok(answer) => show_answer(alloc, self, &answer, form, output),
            Err(fault) => Err(service_fault(fault)),
        }
    }
}
