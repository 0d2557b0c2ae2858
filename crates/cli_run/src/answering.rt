//! The desk that answers the inputs of a command line: a station, or a service.
//! Reading the input of a command.
//! Lines written in parts.

ghost use Rattle.std.specs.Prelude.{◌≡◌, ℕ, Bool, Err, List, None, Option, Result, ◌⊎◌, ◌+◌, ◌<◌, true, IfOk, IfErr, OnOk, ◌++◌, ◌∷◌, [], OnErr};
ghost use Rattle.cli_run.specs.Common.{fields_of, most_bytes, HasCause, HasSent, NoneFailed, SendsLine};
ghost use Rattle.desk_commands.specs.declared.verb.Verb.{Verb as AnyVerb};
ghost use Rattle.cli_run.specs.declared.telling.RunFault.{RunFault as Fault};
ghost use Rattle.cli_run.specs.Lines.{HasAnsweredRow, Row, HasAnsweredLine, HasAnswered};
ghost use Rattle.cli_run.specs.Ends.{call, Call, HasGrown, HasCome, HasFailed, IsWithin, most_come, most_read};
ghost use Rattle.cli_run.specs.declared.request.Request.{Request as AnyRequest};
ghost use Rattle.cli_run.specs.Requests.{IsReadersFault};

use crate::acts::answer_line;
use crate::answer::answer_asked;
use crate::request::Request;
use crate::rows::{RowPlace, answer_row};
use crate::takes::LineCount;
use crate::telling::RunFault;
use csv::ByteRecord;
use desk_commands::Verb;
use imp_fields::MOST_BYTES;
use station_core::{ByteIn, ByteOut, Keeper, Key, ReadFault, send};
use station_days::Moment;
use std::alloc::Global;

/// A way to answer inputs with a desk `D`: a station, or a service. Each call writes the line of
/// one answer, and to `errors` the reason why an input can't be read.
pub trait Answering<D, E: ByteOut> {
    /// The relation of an answered row of a stock list, by its number.
    ghost answered_row: { Self → ℕ → Row → Call D E → Call D E → Result Bool Fault
        → Type 0 };

    /// The relation of an answered line of `acts`, by its number.
    ghost answered_line: { Self → ℕ → List ℕ → Call D E → Call D E → Result Bool Fault
        → Type 0 };

    /// The relation of an answered request, by the bytes that it was read from: a body under a
    /// verb and a key, or a telegram.
    ghost answered: { Self → Option (AnyVerb × List ℕ) → List ℕ → AnyRequest → Call D E
        → Call D E → Result Bool Fault → Type 0 };

    /// Answers a row.
    fn answer_row<W: ByteOut>(
        &self,
        alloc: Global,
        desk: &mut D,
        writer: &mut W,
        errors: &mut E,
        number: u64,
        lines: &LineCount,
        row: &ByteRecord,
    ) -> Result<bool, RunFault>
        ensures answered { answered_row self.now number (fields_of row.now)
            (call desk.old (W.taken writer.old) errors.old)
            (call desk.new (W.taken writer.new) errors.new) result }
        ensures unread { result ≡ Err Fault.Read → ⊥ };

    /// Answers a line, as far as it is kept.
    fn answer_line<W: ByteOut>(
        &self,
        alloc: Global,
        desk: &mut D,
        writer: &mut W,
        errors: &mut E,
        number: u64,
        line: &[u8],
    ) -> Result<bool, RunFault>
        ensures answered { answered_line self.now number line.now
            (call desk.old (W.taken writer.old) errors.old)
            (call desk.new (W.taken writer.new) errors.new) result }
        ensures unread { result ≡ Err Fault.Read → ⊥ };

    /// Answers a request that was read from a text, by the verb and the key of a command.
    fn answer<W: ByteOut>(
        &self,
        alloc: Global,
        desk: &mut D,
        writer: &mut W,
        errors: &mut E,
        head: Option<(Verb, Key)>,
        text: &[u8],
        asked: &Request<'_>,
    ) -> Result<bool, RunFault>
        ensures answered { answered self.now head text.now asked.now
            (call desk.old (W.taken writer.old) errors.old)
            (call desk.new (W.taken writer.new) errors.new) result }
        ensures unread { result ≡ Err Fault.Read → ⊥ };
}

/// The way of a station: inputs are done at this moment.
#[derive(Clone, Copy)]
pub struct ByStation {
    pub at: Moment,
}

impl<K: Keeper, E: ByteOut> Answering<K, E> for ByStation {
    ghost answered_row = { λ way number row old new result.
        HasAnsweredRow K.keeping way.at E.taken number row old new result };

    ghost answered_line = { λ way number line old new result.
        HasAnsweredLine K.keeping way.at E.taken number line old new result };

    ghost answered = { λ way head text asked old new result.
        HasAnswered K.keeping way.at E.taken None asked old new result };

    fn answer_row<W: ByteOut>(
        &self,
        alloc: Global,
        desk: &mut K,
        writer: &mut W,
        errors: &mut E,
        number: u64,
        lines: &LineCount,
        row: &ByteRecord,
    ) -> Result<bool, RunFault> {
        let line = lines.first_line(row);
        let place = RowPlace { number, line };
        // The answer may be buffered until the next row is read.
        writer.expect_more(lines.has_more());
        answer_row(alloc, desk, writer, errors, place, row, self.at)
    }

    fn answer_line<W: ByteOut>(
        &self,
        alloc: Global,
        desk: &mut K,
        writer: &mut W,
        errors: &mut E,
        number: u64,
        line: &[u8],
    ) -> Result<bool, RunFault> {
        answer_line(alloc, desk, writer, errors, number, line, self.at)
    }

    fn answer<W: ByteOut>(
        &self,
        alloc: Global,
        desk: &mut K,
        writer: &mut W,
        errors: &mut E,
        _head: Option<(Verb, Key)>,
        _text: &[u8],
        asked: &Request<'_>,
    ) -> Result<bool, RunFault> {
        answer_asked(alloc, desk, writer, errors, None, asked, self.at)
    }
}

/// The size of one read.
const CHUNK: usize = 4096;

/// Reads once and appends the bytes. Returns true at the end of the input. An interrupted read
/// appends nothing.
#[tactic(auto, using(crate::proofs::Grown::read_within))]
fn read_more<I: ByteIn>(reader: &mut I, bytes: &mut Vec<u8>) -> Result<bool, RunFault>
    ensures come { OnOk result
        (HasGrown (I.given reader.old) (I.given reader.new) bytes.old.items bytes.new.items) }
    ensures calls { OnOk result ((I.given reader.new).calls ≡ (I.given reader.old).calls + 1) }
    ensures ended { IfOk result (λ ended. ended ≡ true
        → (I.given reader.old).idle < (I.given reader.new).idle) }
    ensures fault { IfErr result IsReadersFault }
    ensures failed { result ≡ Err RunFault.Read
        → (I.given reader.old).failures < (I.given reader.new).failures }
    ensures told { IfErr result (λ e. (e ≡ RunFault.Read)
        ⊎ ((I.given reader.new).failures ≡ (I.given reader.old).failures)) }
    ensures part { IsWithin most_read (I.given reader.old) (I.given reader.new) }
{
    let mut room = [0; CHUNK];
    match reader.read(&mut room) {
        Ok(0) => Ok(true),
        Ok(n) => match bytes.extend_from_slice(&room[..n]) {
            Ok(()) => Ok(false),
            Err(_) => Err(RunFault::Memory),
        },
        Err(ReadFault::Interrupted) => Ok(false),
        Err(ReadFault::Failed) => Err(RunFault::Read),
    }
}

/// Reads an input to its end, or until it is longer than any telegram or body.
///
/// Returns [`RunFault::Read`] if the reader fails, and [`RunFault::Memory`] if memory runs out.
#[tactic(auto, using(crate::proofs::Grown::more_within, crate::proofs::Grown::still_within))]
pub fn read_input<I: ByteIn>(alloc: Global, reader: &mut I) -> Result<Vec<u8>, RunFault>
    ensures come { IfOk result
        (λ bytes. HasCome most_bytes (I.given reader.old) (I.given reader.new) bytes.items) }
    ensures fault { IfErr result IsReadersFault }
    ensures failed { result ≡ Err RunFault.Read
        → HasFailed (I.given reader.old) (I.given reader.new) }
    ensures told { IfErr result (λ e. (e ≡ RunFault.Read)
        ⊎ ((I.given reader.new).failures ≡ (I.given reader.old).failures)) }
    ensures most { IsWithin most_come (I.given reader.old) (I.given reader.new) }
{
    let mut bytes = Vec::new(alloc);
    for _turn in 0..u64::MAX {
        if read_more(reader, &mut bytes)? {
            return Ok(bytes);
        }
        if bytes.len() > MOST_BYTES {
            return Ok(bytes);
        }
    }
    Err(RunFault::Read)
}

/// Writes a line, or a part of one.
///
/// Returns [`RunFault::Write`] if the writer fails or writes 0 bytes. A prefix is written.
pub fn send_part<W: ByteOut>(writer: &mut W, part: &[u8]) -> Result<(), RunFault>
    ensures all { OnOk result
        ((W.taken writer.new).bytes ≡ (W.taken writer.old).bytes ++ part.now) }
    ensures sent { HasSent part.now (W.taken writer.old) (W.taken writer.new) }
    ensures untroubled { OnOk result (NoneFailed (W.taken writer.old) (W.taken writer.new)) }
    ensures why { IfErr result (λ e. e ≡ RunFault.Write) }
    ensures cause { OnErr result (HasCause (W.taken writer.old) (W.taken writer.new)) }
{
    match send(writer, part) {
        Ok(()) => Ok(()),
        Err(_sent) => Err(RunFault::Write),
    }
}

/// Writes a line of a head and a word.
///
/// Returns [`RunFault::Write`] if the writer fails or writes 0 bytes. A prefix is written.
#[tactic(auto, using(crate::proofs::Parts::cause_behind, crate::proofs::Parts::cause_behind_two))]
pub fn send_word<W: ByteOut>(writer: &mut W, head: &str, word: &[u8]) -> Result<(), RunFault>
    ensures all { OnOk result
        ((W.taken writer.new).bytes ≡ (W.taken writer.old).bytes ++
        (head.now ++ word.now ++ 10 ∷ [])) }
    ensures sent { HasSent (head.now ++ word.now ++ 10 ∷ []) (W.taken writer.old)
        (W.taken writer.new) }
    ensures why { IfErr result (λ e. e ≡ RunFault.Write) }
    ensures cause { OnErr result (HasCause (W.taken writer.old) (W.taken writer.new)) }
{
    send_part(writer, head.as_bytes())?;
    send_part(writer, word)?;
    send_part(writer, b"\n")
}

/// Writes a line, or as much of it as the writer takes. A failure can't be reported anywhere.
pub fn tell_line<E: ByteOut>(errors: &mut E, line: &str)
    ensures { SendsLine line.now (E.taken errors.old) (E.taken errors.new) }
{
    match send_part(errors, line.as_bytes()) {
        Ok(()) => {}
        Err(_unreported) => {}
    }
}

/// Writes a line of a head and a word in the same way.
pub fn tell_word<E: ByteOut>(errors: &mut E, head: &str, word: &str)
    ensures { SendsLine (head.now ++ word.now ++ 10 ∷ []) (E.taken errors.old)
        (E.taken errors.new) }
{
    match send_word(errors, head, word.as_bytes()) {
        Ok(()) => {}
        Err(_unreported) => {}
    }
}
