//! Reasons on standard error why an input can't be read.
//! Faults of a run.

ghost use Rattle.std.specs.Prelude.{◌≡◌, codes};
ghost use Rattle.cli_run.specs.Common.{error_kind, HasReason, is_unread};
ghost use Rattle.cli_run.specs.Requests.{reader_fault, run_fault, told_by};
ghost use Rattle.cli_run.specs.Seen.{answered_unread, line_head, reason_head, HasToldWhy};

use crate::request::Request;
use csv::{Error, ErrorKind};
use desk_commands::Verb;
use input_reasons::{
    act_line_reason, body_reason, is_unread, telegram_line_reason, telegram_reason, tell_reason,
};
use shipment_machine::Refusal;
use station_core::{ActFault, Answer, ByteOut, Input};
use std::alloc::Global;

/// The reason why a run stopped early.
#[derive(Clone, Copy)]
pub enum RunFault {
    /// The reader failed.
    Read,
    /// The writer failed, or wrote 0 bytes.
    Write,
    /// Memory ran out.
    Memory,
    /// The store failed, in this input or earlier.
    Store,
}

/// Returns the fault of a run whose keeper doesn't answer: `Memory` if memory ran out, otherwise
/// `Store`.
pub fn keeper_fault(fault: ActFault) -> RunFault
    ensures { result ≡ run_fault fault }
{
    match fault {
        ActFault::Memory => RunFault::Memory,
        _ => RunFault::Store,
    }
}

/// Returns the fault of a run that couldn't read a row: the reader failed, or memory ran out.
pub fn list_fault(e: Error) -> RunFault
    ensures { result ≡ reader_fault (error_kind e) }
{
    match e.kind() {
        ErrorKind::Io(_) => RunFault::Read,
        _ => RunFault::Memory,
    }
}

/// Corrects the result of a run over a buffered reader, once it is known whether the reader failed.
/// A buffer can take a reader's failure for the end of the input, or end because memory runs out.
///
/// Returns [`RunFault::Read`] if the reader failed and the run reached its end or stopped with
/// `Read`, and [`RunFault::Memory`] if the run stopped with `Read` and the reader didn't fail. Any
/// other result is unchanged.
pub fn told_by(ended: Result<bool, RunFault>, failed: bool) -> Result<bool, RunFault>
    ensures { result ≡ told_by ended failed }
{
    match ended {
        Ok(good) => {
            if failed {
                Err(RunFault::Read)
            } else {
                Ok(good)
            }
        }
        Err(RunFault::Read) => {
            if failed {
                Err(RunFault::Read)
            } else {
                Err(RunFault::Memory)
            }
        }
        Err(fault) => Err(fault),
    }
}

/// Writes the reason why a body is bad.
pub(crate) fn tell_body<E: ByteOut>(alloc: Global, errors: &mut E, verb: Verb, body: &[u8])
    ensures { HasReason (codes "body: ") (E.taken errors.old).bytes (E.taken errors.new).bytes }
{
    tell_reason(errors, body_reason(alloc, verb, body));
}

/// Writes the reason why a line of `acts` is neither a command nor a telegram.
pub(crate) fn tell_bad_line<E: ByteOut>(
    alloc: Global,
    errors: &mut E,
    number: Option<u64>,
    text: &[u8],
)
    ensures { HasReason (line_head number) (E.taken errors.old).bytes (E.taken errors.new).bytes }
{
    match number {
        Some(number) => tell_reason(errors, act_line_reason(alloc, text, number)),
        None => tell_reason(errors, act_line_reason(alloc, text, 0)),
    }
}

/// Writes the reason why a telegram can't be read.
fn tell_unread<E: ByteOut>(alloc: Global, errors: &mut E, number: Option<u64>, refusal: &Refusal)
    ensures { HasReason (reason_head number (Request.Refused refusal.now))
        (E.taken errors.old).bytes (E.taken errors.new).bytes }
{
    match number {
        Some(number) => tell_reason(errors, telegram_line_reason(alloc, refusal, number)),
        None => tell_reason(errors, telegram_reason(alloc, refusal)),
    }
}

/// Writes the reason why a telegram can't be read, if that is its refusal, as far as the writer
/// takes it.
pub fn tell_refusal<E: ByteOut>(
    alloc: Global,
    errors: &mut E,
    number: Option<u64>,
    refusal: &Refusal,
)
    ensures { HasToldWhy E.taken (is_unread refusal.now)
        (reason_head number (Request.Refused refusal.now)) errors.old errors.new }
{
    if !is_unread(refusal) {
        return;
    }
    tell_unread(alloc, errors, number, refusal);
}

/// Writes the reason why a telegram can't be read, if that is its answer. For a command it writes
/// nothing.
pub(crate) fn tell_answer<E: ByteOut>(
    alloc: Global,
    errors: &mut E,
    number: Option<u64>,
    input: &Input<'_>,
    answer: &Answer,
)
    ensures { HasToldWhy E.taken (answered_unread input.now answer.now)
        (reason_head number (Request.Input input.now)) errors.old errors.new }
{
    match input {
        Input::Keyed(_, _) => {}
        Input::Wire(_) => match answer {
            Answer::Done(_) => {}
            Answer::Refused(refusal) => tell_refusal(alloc, errors, number, refusal),
        },
    }
}
