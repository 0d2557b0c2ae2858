//! Readers and writers with contracts about what they did.
ghost use Rattle.std.specs.Prelude.{◌≡◌, ℕ, ◌<◌, length, OnOk, IfErr};
ghost use Rattle.station_core.specs.Common.{ReadConsumes, WriteAppends};
ghost use Rattle.station_core.specs.Ends.{given_of, inner_of, ReadStep, WriteStep, Sent, HasCause, NoneFailed, OneFailed};
ghost use Rattle.station_core.specs.Given.{Given, nothing_given};

use crate::tally::{Call, Tally};
use std::io::{ErrorKind, Read, Stdin, Write};

/// The reason why a read moved nothing.
#[derive(Clone, Copy)]
pub enum ReadFault {
    /// Interrupted: call again.
    Interrupted,
    /// The reader failed.
    Failed,
}

/// A write failed.
#[derive(Clone, Copy)]
pub struct WriteFault;

/// A reader, described by what it gave: the bytes, the calls, the failures, and the calls that
/// moved 0 bytes.
pub trait ByteIn {
    ghost given: { Self → Given };

    /// Reads once. An interrupted call moves nothing and isn't a failure.
    fn read(&mut self, buf: &mut [u8]) -> Result<usize, ReadFault>
        ensures { ReadStep (given self.old) (given self.new) result buf.new };
}

/// A writer, described by what it took: the bytes, the calls, the failures, and the calls that
/// moved 0 bytes.
pub trait ByteOut {
    ghost taken: { Self → Given };

    /// Writes once. An interrupted call counts as a failure.
    fn write(&mut self, buf: &[u8]) -> Result<usize, WriteFault>
        ensures { WriteStep (taken self.old) (taken self.new) result buf.now };

    /// Announces whether more input is at hand. If it is, later writes may be buffered until the
    /// next read of the input.
    fn expect_more(&mut self, _more: bool)
        ensures { taken self.new ≡ taken self.old }
    {}
}

/// A reader of several inputs, one after another.
pub trait InputReader: Read {
    /// The relation of the reader to itself at the next input.
    ghost begun: { Self → Self → Type 0 };

    /// Begins the next input, also the first one. Nothing is read.
    fn begin_input(&mut self)
        ensures { begun self.old self.new };
}

/// Standard input is one input, whichever is begun.
impl InputReader for Stdin {
    ghost begun = { λ old new. new ≡ old };

    fn begin_input(&mut self) {}
}

/// A reader or a writer of std, with a count of its calls that only contracts see.
#[derive(Drop)]
pub struct Counted<T> {
    inner: T,
    tally: Tally,
}

impl<T> Counted<T> {
    /// Wraps a reader or a writer before its first call.
    pub fn new(inner: T) -> Counted<T>
        ensures inner { inner_of result ≡ inner }
        ensures nothing { given_of result ≡ nothing_given }
    {
        Counted {
            inner,
            tally: Tally::new(),
        }
    }

    /// Returns the reader or writer.
    pub fn into_inner(self) -> T
        ensures { result ≡ inner_of self }
    {
        let Counted { inner, tally: _ } = self;
        inner
    }
}

impl<T: InputReader> Counted<T> {
    /// Begins the next input of the reader, which isn't a call that counts.
    pub fn begin_input(&mut self)
        ensures begun { T.begun (inner_of self.old) (inner_of self.new) }
        ensures unread { given_of self.new ≡ given_of self.old }
    {
        self.inner.begin_input();
    }
}

impl<T: Read> ByteIn for Counted<T> {
    ghost given = { λ c. c.tally.given };

    fn read(&mut self, buf: &mut [u8]) -> Result<usize, ReadFault>
        ensures step { ReadStep (given_of self.old) (given_of self.new) result buf.new }
        // If the reader's remaining bytes are known, exactly these bytes were removed.
        ensures inner { ReadConsumes (T.remaining (inner_of self.old))
            (T.remaining (inner_of self.new)) result buf.new }
    {
        let room = buf.len();
        match self.inner.read(buf) {
            Ok(n) => {
                self.tally = self.tally.then(&Call::Moved(&buf[..n], room));
                Ok(n)
            }
            Err(e) => {
                if e.kind() == ErrorKind::Interrupted {
                    self.tally = self.tally.then(&Call::Again);
                    return Err(ReadFault::Interrupted);
                }
                self.tally = self.tally.then(&Call::Failed);
                Err(ReadFault::Failed)
            }
        }
    }
}

impl<T: Write> ByteOut for Counted<T> {
    ghost taken = { λ c. c.tally.given };

    fn write(&mut self, buf: &[u8]) -> Result<usize, WriteFault>
        ensures step { WriteStep (given_of self.old) (given_of self.new) result buf.now }
        // If the writer's contents are known, exactly these bytes were appended.
        ensures inner { WriteAppends (T.contents (inner_of self.old))
            (T.contents (inner_of self.new)) result buf.now }
    {
        match self.inner.write(buf) {
            Ok(n) => {
                self.tally = self.tally.then(&Call::Moved(&buf[..n], buf.len()));
                Ok(n)
            }
            Err(_) => {
                self.tally = self.tally.then(&Call::Failed);
                Err(WriteFault)
            }
        }
    }
}

/// Writes all bytes. If the writer fails or writes 0 bytes, it returns how many were written.
pub fn send<W: ByteOut>(writer: &mut W, bytes: &[u8]) -> Result<(), usize>
    ensures all { OnOk result
        (Sent (W.taken writer.old) (W.taken writer.new) bytes.now (length bytes.now)) }
    ensures part { IfErr result (Sent (W.taken writer.old) (W.taken writer.new) bytes.now) }
    ensures none { OnOk result (NoneFailed (W.taken writer.old) (W.taken writer.new)) }
    ensures once { IfErr result (λ _. OneFailed (W.taken writer.old) (W.taken writer.new)) }
    ensures cause { IfErr result (λ _. HasCause (W.taken writer.old) (W.taken writer.new)) }
{
    let mut sent = 0;
    while sent < bytes.len() {
        match writer.write(&bytes[sent..]) {
            Ok(0) => return Err(sent),
            Ok(n) => sent += n,
            Err(WriteFault) => return Err(sent),
        }
    }
    Ok(())
}
