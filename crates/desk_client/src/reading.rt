//! Reading an answer to its end.
//! Connections to a service.

ghost use Rattle.std.specs.Prelude.{◌≡◌, ◌<◌, ◌+◌, true, Err, IfOk, OnOk, ℕ, false};
ghost use Rattle.desk_client.specs.Printed.{HasGiven, IsReadersFault};
ghost use Rattle.desk_client.specs.Common.{HasCome, HasFailed, HasGrown};
ghost use Rattle.desk_client.specs.Try.{one_more};

use crate::ask::AskFault;
use station_core::{ByteIn, ReadFault};
use std::alloc::Global;

/// The size of one read.
const CHUNK: usize = 16_384;

/// Reads once and appends the bytes. Returns true at the end of the input. An interrupted read
/// appends nothing.
pub(crate) fn read_more<I: ByteIn>(reader: &mut I, bytes: &mut Vec<u8>) -> Result<bool, AskFault>
    ensures come { OnOk result
        (HasGrown (I.given reader.old) (I.given reader.new) bytes.old.items bytes.new.items) }
    ensures calls { OnOk result ((I.given reader.new).calls ≡ (I.given reader.old).calls + 1) }
    ensures given { HasGiven (I.given reader.old) (I.given reader.new) }
    ensures ended { IfOk result (λ ended. ended ≡ true
        → (I.given reader.old).idle < (I.given reader.new).idle) }
    ensures fault { IsReadersFault result }
    ensures failed { result ≡ Err AskFault.Read
        → (I.given reader.old).failures < (I.given reader.new).failures }
{
    let mut room = [0; CHUNK];
    match reader.read(&mut room) {
        Ok(0) => Ok(true),
        Ok(n) => match bytes.extend_from_slice(&room[..n]) {
            Ok(()) => Ok(false),
            Err(_) => Err(AskFault::Memory),
        },
        Err(ReadFault::Interrupted) => Ok(false),
        Err(ReadFault::Failed) => Err(AskFault::Read),
    }
}

/// Reads an input to its end, or until more than `most` bytes were received.
#[tactic(auto, using(cli_run::proofs::Grown::grown_more, crate::proofs::Grown::come_more, crate::proofs::Grown::come_over))]
pub(crate) fn read_all<I: ByteIn>(
    alloc: Global,
    reader: &mut I,
    most: usize,
) -> Result<Vec<u8>, AskFault>
    ensures come { IfOk result
        (λ bytes. HasCome most (I.given reader.old) (I.given reader.new) bytes.items) }
    ensures fault { IsReadersFault result }
    ensures failed { result ≡ Err AskFault.Read
        → HasFailed (I.given reader.old) (I.given reader.new) }
{
    let mut bytes = Vec::new(alloc);
    for _turn in 0..u64::MAX {
        if read_more(reader, &mut bytes)? {
            return Ok(bytes);
        }
        if bytes.len() > most {
            return Ok(bytes);
        }
    }
    Err(AskFault::Read)
}

/// A service to which connections can be opened, one after another.
pub trait Connect {
    /// The number of connections tried, including refused ones. It stays at the largest `u64`.
    ghost tried: { Self → ℕ };

    /// The number of connections opened.
    ghost opened: { Self → ℕ };

    /// Closes the connection and opens another. Returns false if it was refused.
    fn connect(&mut self) -> bool
        ensures tried { tried self.new ≡ one_more (tried self.old) }
        ensures one { result ≡ true → opened self.new ≡ opened self.old + 1 }
        ensures none { result ≡ false → opened self.new ≡ opened self.old };

    /// Returns whether the last read of the open connection timed out. No contract covers what a
    /// network does.
    fn is_late(&self) -> bool;
}

/// The outcome of the last try of a question.
#[derive(Clone, Copy)]
pub enum LastTry {
    /// Nothing was tried yet.
    Nothing,
    /// An answer with this status was received: a whole one, or a report of which the output took
    /// no more.
    Answered(u16),
    /// No whole answer was received.
    Failed(AskFault),
}

/// A service on a port, with the reader and the writer of its last connection, and the outcome of
/// the last try.
#[derive(Drop)]
pub struct RemoteDesk<C, I, O> {
    pub connections: C,
    pub reader: I,
    pub writer: O,
    pub last: LastTry,
}
