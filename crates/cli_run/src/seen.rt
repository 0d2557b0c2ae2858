//! Dry runs of telegrams.

ghost use Rattle.std.specs.Prelude.{◌≡◌, ◌⊎◌, ◌++◌, ◌∷◌, [], None, Some, false, not, Err, IfOk, IfErr, OnOk, OnErr, string_bytes};
ghost use Rattle.cli_run.specs.Common.{refusal_text, NoneFailed, has_doubt, look_text};
ghost use Rattle.cli_run.specs.Requests.{TellsWriting, WriteHasCause, HasToldPart};
ghost use Rattle.cli_run.specs.Ends.{HasFailed, IsWithin, most_come};
ghost use Rattle.cli_run.specs.Seen.{telegram_head, HasToldWhy, has_reason, HasSeen, HasStoppedLook, IsSeen};

use crate::answer::refusal_line;
use crate::answering::{read_input, send_part};
use crate::telling::{RunFault, tell_refusal};
use input_reasons::{Look, look_at, look_text};
use shipment_machine::Refusal;
use station_core::{ByteIn, ByteOut};
use std::alloc::{AllocError, Global};
use telegrams::TelegramFault;

/// The text of a dry run, whether nothing is doubtful, and the refusal if the telegram can't be
/// read.
#[derive(Drop)]
struct Seen {
    text: String,
    good: bool,
    refusal: Option<Refusal>,
}

/// Returns the dry run of a telegram.
fn seen_look(alloc: Global, look: &Look<'_>) -> Result<Seen, AllocError>
    ensures { IfOk result (λ seen. (string_bytes seen.text ≡ look_text look.now)
        × (seen.good ≡ not (has_doubt look.now)) × (seen.refusal ≡ None)) }
{
    let text = look_text(alloc, look)?;
    Ok(Seen {
        text,
        good: !look.is_doubtful(),
        refusal: None,
    })
}

/// Returns the dry run of bytes that aren't a telegram.
fn seen_refusal(alloc: Global, refusal: Refusal) -> Result<Seen, AllocError>
    ensures { IfOk result (λ seen. (string_bytes seen.text ≡ refusal_text refusal ++ 10 ∷ [])
        × (seen.good ≡ false) × (seen.refusal ≡ Some refusal)) }
{
    let text = refusal_line(alloc, None, &refusal)?;
    Ok(Seen {
        text,
        good: false,
        refusal: Some(refusal),
    })
}

fn seen_of(alloc: Global, bytes: &[u8]) -> Result<Seen, AllocError>
    ensures { IfOk result (λ seen. IsSeen bytes.now (string_bytes seen.text) seen.good
        (has_reason seen.refusal)) }
{
    match look_at(alloc, bytes) {
        Ok(look) => seen_look(alloc, &look),
        Err(TelegramFault::Refused(refusal)) => seen_refusal(alloc, refusal),
        Err(TelegramFault::Memory) => Err(AllocError),
    }
}

/// Writes the reason if the telegram was refused.
fn tell_seen<E: ByteOut>(alloc: Global, errors: &mut E, refusal: &Option<Refusal>)
    ensures { HasToldWhy E.taken (has_reason refusal.now) (telegram_head None) errors.old
        errors.new }
{
    match refusal {
        Some(refusal) => tell_refusal(alloc, errors, None, refusal),
        None => {}
    }
}

/// Writes a dry run, and the reason if the telegram can't be read.
fn write_seen<O: ByteOut, E: ByteOut>(
    alloc: Global,
    writer: &mut O,
    errors: &mut E,
    seen: &Seen,
) -> Result<bool, RunFault>
    ensures good { IfOk result (λ good. good ≡ seen.now.good) }
    ensures written { OnOk result ((O.taken writer.new).bytes ≡ (O.taken writer.old).bytes ++
        string_bytes seen.now.text) }
    ensures reason { OnOk result (HasToldWhy E.taken (has_reason seen.now.refusal)
        (telegram_head None) errors.old errors.new) }
    ensures untroubled { OnOk result (NoneFailed (O.taken writer.old) (O.taken writer.new)) }
    ensures why { IfErr result (λ e. e ≡ RunFault.Write) }
    ensures part { IfErr result (HasToldPart (string_bytes seen.now.text) (O.taken writer.old)
        (O.taken writer.new)) }
    ensures write_cause { WriteHasCause result (O.taken writer.old) (O.taken writer.new) }
    ensures quiet { OnErr result (errors.new ≡ errors.old) }
{
    send_part(writer, seen.text.as_bytes())?;
    tell_seen(alloc, errors, &seen.refusal);
    Ok(seen.good)
}

/// Reads one telegram and writes a dry run, in lines for people, or the refusal that the telegram
/// would get, with its reason on `errors` after the line. The station isn't called. `Ok` says
/// whether it is a telegram in which nothing is doubtful.
///
/// # Errors
///
/// Nothing is written to `errors`.
///
/// - [`RunFault::Read`]: the reader fails. Nothing is written.
/// - [`RunFault::Memory`]: memory runs out. Nothing is written.
/// - [`RunFault::Write`]: the writer fails. A prefix of the text or of the refusal's line is
///   written.
pub fn run_read<I: ByteIn, O: ByteOut, E: ByteOut>(
    alloc: Global,
    reader: &mut I,
    writer: &mut O,
    errors: &mut E,
) -> Result<bool, RunFault>
    // The text of the bytes was written, and the reason of a refusal that has one, or a prefix of
    // the reason.
    ensures seen { IfOk result (HasSeen (I.given reader.old) (I.given reader.new)
        (O.taken writer.old) (O.taken writer.new) E.taken errors.old errors.new) }

    // After a fault nothing was written, or a prefix of that text, and nothing to `errors`.
    ensures stopped { IfErr result (HasStoppedLook (I.given reader.old) (I.given reader.new)
        (O.taken writer.old) (O.taken writer.new)) }
    ensures quiet { OnErr result (errors.new ≡ errors.old) }
    ensures read_cause { result ≡ Err RunFault.Read
        → HasFailed (I.given reader.old) (I.given reader.new) }
    ensures read_told { IfErr result (λ e. (e ≡ RunFault.Read)
        ⊎ ((I.given reader.new).failures ≡ (I.given reader.old).failures)) }
    ensures writing { TellsWriting (O.taken writer.old) (O.taken writer.new) result }

    // After any fault except the writer's, nothing was written.
    ensures unwritten { IfErr result (λ e. (e ≡ RunFault.Write)
        ⊎ (O.taken writer.new ≡ O.taken writer.old)) }

    // Only a prefix of an input that is too long is read.
    ensures most { IsWithin most_come (I.given reader.old) (I.given reader.new) }
{
    let bytes = read_input(alloc, reader)?;
    match seen_of(alloc, bytes.as_slice()) {
        Ok(seen) => write_seen(alloc, writer, errors, &seen),
        Err(_) => Err(RunFault::Memory),
    }
}
