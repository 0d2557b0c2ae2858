//! One connection.
//! Reading a request.

ghost use Rattle.std.specs.Prelude.{◌≡◌, ◌+◌, ◌≤◌, true, false, Err, IfOk, ◌<◌, ◌-◌, ◌++◌, [], length, OnOk};
ghost use Rattle.http_desk.specs.Common.{IfWorks, KeepsSound, StaysIfBroken, State, IsRequestOf, IsRequestWithin, HasCause};
ghost use Rattle.http_desk.specs.Reply.{tells_reopen, HasEndedEarly, most_reads, station_after, added, HasServed, HasServedShut, IsUnfinished, StopsServing, IsPosted, BeginsAs200, BeginsAs503, IsAfterStep, IsUnchangedOrBroken, IsToldFor, IsToldShut, HasCome, HasGrown, HasMore, HasEndedAfter, HasNoHead, HasNoHeadYet};
ghost use Rattle.http_desk.specs.Came.{HasRequest};

use crate::asking::{Response, ask};
use crate::request::{Came, read_request, wanted};
use crate::writing::write_told;
use httparse::Status;
use httparse::spans::{HeaderSpan, RequestSpans, parse_request};
use station_core::{ByteIn, ByteOut, Keeper, ReadFault};
use station_days::Moment;
use std::alloc::Global;

/// A fault for which a request is refused without calling the station.
#[derive(Clone, Copy)]
pub(crate) struct FaultTold {
    pub(crate) status: u16,
    /// The word for the fault, or an empty text.
    pub(crate) word: &'static str,
    /// The allowed method, if the request had a different one.
    pub(crate) allow: Option<&'static str>,
}

/// The outcome of a connection that was answered.
#[derive(Clone, Copy, Debug, PartialEq, Eq)]
pub struct Served {
    pub status: u16,
    /// True if the keeper was called and must be opened again.
    pub reopen: bool,
}

/// The reason why a connection wasn't answered in full.
#[derive(Clone, Copy, Debug, PartialEq, Eq)]
pub enum ServeFault {
    /// The reader failed, the input ended within the request, or 100,000 reads were made. Nothing
    /// was written or changed.
    Read,
    /// The writer failed or wrote 0 bytes, after `sent` bytes of the answer.
    Write { sent: u64 },
}

/// Calls the station for a received request.
fn told_for<K: Keeper>(
    alloc: Global,
    keeper: &mut K,
    bytes: &[u8],
    came: Came,
    at: Moment,
) -> Response
    requires request { HasRequest bytes.now came }
    ensures premise { KeepsSound K.keeping keeper.old keeper.new }
    ensures told { IfWorks K.keeping keeper.old keeper.new
        (λ s. IsToldFor bytes.now s at result (station_after K.keeping keeper.new)) }
    ensures tells { K.keeping.is_broken keeper.old ≡ false → tells_reopen result
        ≡ K.keeping.is_broken keeper.new }
    ensures same { StaysIfBroken K.keeping keeper.old keeper.new }
    ensures shut { K.keeping.is_broken keeper.old ≡ true → IsToldShut bytes.now at result }
{
    match wanted(alloc, bytes, came) {
        Ok(wanted) => ask(alloc, keeper, &wanted, at),
        Err(_) => Response::Unavailable(false),
    }
}

/// Serves one connection: reads a request, calls the keeper, and writes the answer.
pub fn serve_one<K: Keeper, I: ByteIn, O: ByteOut>(
    alloc: Global,
    keeper: &mut K,
    reader: &mut I,
    writer: &mut O,
    at: Moment,
) -> Result<Served, ServeFault>
    ensures premise { KeepsSound K.keeping keeper.old keeper.new }

    // If reading ends within the request, nothing is written or changed. The number of reads is
    // limited in every case.
    ensures unread { result ≡ Err ServeFault.Read → (O.taken writer.new ≡ O.taken writer.old)
        × (keeper.new ≡ keeper.old) }
    ensures read_cause { result ≡ Err ServeFault.Read
        → HasEndedEarly (I.given reader.old) (I.given reader.new) }
    ensures unfinished { result ≡ Err ServeFault.Read
        → IsUnfinished (added (I.given reader.old) (I.given reader.new)) }
    ensures most { (I.given reader.new).calls ≤ (I.given reader.old).calls + most_reads }

    // Exactly one write failed if the writer's fault is returned, otherwise none.
    ensures writes { StopsServing (O.taken writer.old) (O.taken writer.new) result }

    // The answer to the received bytes was written, or a prefix of it, and the keeper keeps the
    // state after it.
    ensures served { IfWorks K.keeping keeper.old keeper.new (λ s. HasServed s at
        (added (I.given reader.old) (I.given reader.new)) (O.taken writer.old) (O.taken writer.new)
        (station_after K.keeping keeper.new) result) }

    // Once a 200 to a POST has begun, reopening finds the state after that step, and no other.
    ensures begun { IfWorks K.keeping keeper.old keeper.new (λ s. IsPosted
        (added (I.given reader.old) (I.given reader.new)) → BeginsAs200
        (added (O.taken writer.old) (O.taken writer.new)) → IsAfterStep
        (added (I.given reader.old) (I.given reader.new)) s at (K.keeping.may_find keeper.new)) }

    // Once 503 has begun, the station works and nothing has changed, or it broke at the request's
    // own input.
    ensures unavailable { IfWorks K.keeping keeper.old keeper.new (λ s. BeginsAs503
        (added (O.taken writer.old) (O.taken writer.new)) → IsUnchangedOrBroken
        (added (I.given reader.old) (I.given reader.new)) s at
        (station_after K.keeping keeper.new)) }

    // It reports that the station must be opened again exactly if this connection broke it.
    ensures told { IfWorks K.keeping keeper.old keeper.new
        (λ s. IfOk result (λ served. served.reopen ≡ K.keeping.is_broken keeper.new)) }

    // A broken station stays as it is, and no answer depends on its state.
    ensures same { StaysIfBroken K.keeping keeper.old keeper.new }
    ensures reopen { K.keeping.is_broken keeper.old ≡ true → HasServedShut at
        (added (I.given reader.old) (I.given reader.new)) (O.taken writer.old) (O.taken writer.new)
        result }
{
    let mut bytes = Vec::new(alloc);
    match read_request(reader, &mut bytes) {
        Ok(came) => {
            let told = told_for(alloc, keeper, bytes.as_slice(), came, at);
            write_told(alloc, keeper, writer, &told)
        }
        Err(ReadEnd::Memory) => write_told(alloc, keeper, writer, &Response::Unavailable(false)),
        Err(ReadEnd::Read) => Err(ServeFault::Read),
        Err(ReadEnd::Head) => unreachable!(),
    }
}

const HEAD_ROOM: usize = 16_384;

const MOST_READS: u32 = 100_000;

/// The size of one read.
const CHUNK: usize = 4096;

/// The reason why a request is incomplete.
#[derive(Clone, Copy)]
pub(crate) enum ReadEnd {
    /// The reader failed, the input ended, or the limit of reads was reached.
    Read,
    /// The head is malformed.
    Head,
    Memory,
}

/// Reads once and appends the bytes. An interrupted read appends nothing.
fn read_more<I: ByteIn>(reader: &mut I, bytes: &mut Vec<u8>, most: usize) -> Result<(), ReadEnd>
    requires { length bytes.old.items < most }
    ensures come { OnOk result
        (HasCome (I.given reader.old) (I.given reader.new) bytes.old.items bytes.new.items) }
    ensures room { OnOk result (length bytes.new.items ≤ most) }
    ensures calls { (I.given reader.new).calls ≡ (I.given reader.old).calls + 1 }
    ensures read { result ≡ Err ReadEnd.Read → HasCause (I.given reader.old) (I.given reader.new) }
    ensures still { result ≡ Err ReadEnd.Read → (bytes.new.items ≡ bytes.old.items)
        × ((I.given reader.new).bytes ≡ (I.given reader.old).bytes) }
    ensures no_head { result ≡ Err ReadEnd.Head → ⊥ }
{
    let mut room = [0; CHUNK];
    let space = (most - bytes.len()).min(CHUNK);
    match reader.read(&mut room[..space]) {
        Ok(0) => Err(ReadEnd::Read),
        Ok(n) => match bytes.extend_from_slice(&room[..n]) {
            Ok(()) => Ok(()),
            Err(_) => Err(ReadEnd::Memory),
        },
        Err(ReadFault::Interrupted) => Ok(()),
        Err(ReadFault::Failed) => Err(ReadEnd::Read),
    }
}

/// Reads until a head is complete. Returns the positions of the head's parts, and the number of
/// reads.
pub(crate) fn read_head<I: ByteIn>(
    reader: &mut I,
    bytes: &mut Vec<u8>,
    headers: &mut [HeaderSpan],
) -> Result<(RequestSpans, u32), ReadEnd>
    requires empty { bytes.old.items ≡ [] }
    requires room { length headers.old ≡ 64 }
    ensures come { OnOk result
        ((I.given reader.new).bytes ≡ (I.given reader.old).bytes ++ bytes.new.items) }
    ensures within { IfOk result (λ head. IsRequestWithin bytes.new.items headers.new head.0) }
    ensures head { IfOk result (λ head. IsRequestOf bytes.new.items headers.new head.0) }
    ensures room { OnOk result (length bytes.new.items ≤ 16_384) }
    ensures few { OnOk result (length headers.new ≡ 64) }
    ensures turns { IfOk result (λ head. head.1 ≤ 100_000) }
    ensures calls { IfOk result
        (λ head. (I.given reader.new).calls ≡ (I.given reader.old).calls + head.1) }
    ensures most { (I.given reader.new).calls ≤ (I.given reader.old).calls + most_reads }
    ensures failures { OnOk result ((I.given reader.new).failures ≡ (I.given reader.old).failures) }
    ensures idle { OnOk result ((I.given reader.new).idle ≡ (I.given reader.old).idle) }
    ensures none { result ≡ Err ReadEnd.Head → HasNoHead bytes.new.items
        × ((I.given reader.new).bytes ≡ (I.given reader.old).bytes ++ bytes.new.items) }
    ensures read { result ≡ Err ReadEnd.Read
        → HasEndedEarly (I.given reader.old) (I.given reader.new) }
    ensures unfinished { result ≡ Err ReadEnd.Read
        → HasNoHeadYet bytes.new.items
        × ((I.given reader.new).bytes ≡ (I.given reader.old).bytes ++ bytes.new.items) }
{
    for turn in 0..MOST_READS {
        read_more(reader, bytes, HEAD_ROOM)?;
        match parse_request(bytes.as_slice(), headers) {
            Ok(Status::Complete(spans)) => return Ok((spans, turn + 1)),
            Ok(Status::Partial) => {
                if bytes.len() >= HEAD_ROOM {
                    return Err(ReadEnd::Head);
                }
            }
            Err(_) => return Err(ReadEnd::Head),
        }
    }
    Err(ReadEnd::Read)
}

/// Reads until `whole` bytes have been received; `turns` reads were made before.
pub(crate) fn read_on<I: ByteIn>(
    reader: &mut I,
    bytes: &mut Vec<u8>,
    whole: usize,
    turns: u32,
) -> Result<(), ReadEnd>
    requires { turns ≤ 100_000 }
    ensures come { OnOk result
        (HasGrown (I.given reader.old) (I.given reader.new) bytes.old.items bytes.new.items) }
    ensures whole { OnOk result (whole ≤ length bytes.new.items) }
    ensures most { (I.given reader.new).calls ≤ (I.given reader.old).calls + (most_reads - turns) }
    ensures read { result ≡ Err ReadEnd.Read
        → HasEndedAfter turns (I.given reader.old) (I.given reader.new) }
    ensures unfinished { result ≡ Err ReadEnd.Read
        → (length bytes.new.items < whole)
        × HasMore (I.given reader.old) (I.given reader.new) bytes.old.items bytes.new.items }
    ensures no_head { result ≡ Err ReadEnd.Head → ⊥ }
{
    for _turn in turns..MOST_READS {
        if bytes.len() >= whole {
            return Ok(());
        }
        read_more(reader, bytes, whole)?;
    }
    if bytes.len() >= whole {
        return Ok(());
    }
    Err(ReadEnd::Read)
}
