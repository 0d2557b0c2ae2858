//! A writer that buffers while more input is at hand.
ghost use Rattle.std.specs.Prelude.{◌≡◌, ◌++◌, true, false};

use crate::ends::{ByteOut, WriteFault};
use crate::tally::{Call, Tally};
use std::alloc::Global;

const ROOM: usize = 8192;

/// A buffered writer. While more input is at hand, bytes are buffered as long as there is room.
/// Otherwise the buffer is flushed, and bytes are written at once.
#[derive(Drop)]
pub struct Gathered<W> {
    inner: W,
    // The buffer. Its first `gone` bytes are written, the rest is pending.
    pending: Vec<u8>,
    gone: usize,
    // True if more input is at hand.
    more: bool,
    // A count of its calls that only contracts see.
    tally: Tally,
}

impl<W> Gathered<W> {
    ghost use Rattle.station_core.specs.Ends.{waiting};

    /// Returns the writer without flushing.
    fn into_inner(self) -> W
        ensures { result ≡ self.inner }
    {
        let Gathered {
            inner,
            pending: _,
            gone: _,
            more: _,
            tally: _,
        } = self;
        inner
    }

    /// Buffers bytes, if more input is at hand and there is room for all of them. Returns whether
    /// it did.
    fn keep(&mut self, bytes: &[u8]) -> bool
        ensures inner { self.new.inner ≡ self.old.inner }
        ensures tally { self.new.tally ≡ self.old.tally }
        ensures kept { result ≡ true → waiting self.new ≡ waiting self.old ++ bytes.now }
        ensures not { result ≡ false → waiting self.new ≡ waiting self.old }
    {
        if !self.more || self.gone > 0 {
            return false;
        }
        if self.pending.len().saturating_add(bytes.len()) > ROOM {
            return false;
        }
        self.pending.extend_from_slice(bytes).is_ok()
    }
}

impl<W: ByteOut> Gathered<W> {
    ghost use Rattle.station_core.specs.Ends.{taken_of, begun, GoesOut, HasGone, IsCutShort};

    /// Wraps a writer, with an empty buffer. The buffer is allocated when it is first needed. If
    /// that fails, the bytes are written at once.
    pub fn new(alloc: Global, inner: W) -> Gathered<W>
        ensures { taken_of W.taken result ≡ begun (W.taken inner) }
    {
        Gathered {
            inner,
            pending: Vec::new(alloc),
            gone: 0,
            more: false,
            tally: Tally::new(),
        }
    }

    /// Flushes the buffer. Returns `Ok(true)` if everything is written, and `Ok(false)` if the
    /// writer wrote 0 bytes. Unwritten bytes stay in the buffer.
    fn flush(&mut self) -> Result<bool, WriteFault>
        ensures tally { self.new.tally ≡ self.old.tally }
        ensures gone { HasGone W.taken self.old self.new result }
    {
        while self.gone < self.pending.len() {
            match self.inner.write(&self.pending[self.gone..]) {
                Ok(0) => return Ok(false),
                Ok(n) => self.gone += n,
                Err(WriteFault) => return Err(WriteFault),
            }
        }
        self.pending.clear();
        self.gone = 0;
        Ok(true)
    }

    /// Flushes the buffer, and returns the writer.
    ///
    /// Returns [`WriteFault`] if the writer fails or writes 0 bytes. A prefix was written.
    pub fn end(mut self) -> (W, Result<(), WriteFault>)
        ensures { GoesOut (taken_of W.taken self) (W.taken result.0) result.1 }
    {
        match self.flush() {
            Ok(true) => (self.into_inner(), Ok(())),
            _ => (self.into_inner(), Err(WriteFault)),
        }
    }

    /// Returns a failed writer without flushing. Buffered bytes are lost.
    pub fn give_up(self) -> W
        ensures { IsCutShort (taken_of W.taken self) (W.taken result) }
    {
        self.into_inner()
    }
}

impl<W: ByteOut> ByteOut for Gathered<W> {
    ghost use Rattle.station_core.specs.Ends.{taken_of};

    ghost taken = { taken_of W.taken };

    fn expect_more(&mut self, more: bool) {
        self.more = more;
    }

    fn write(&mut self, buf: &[u8]) -> Result<usize, WriteFault> {
        self.tally = self.tally.then(&Call::Again);
        if buf.is_empty() || self.keep(buf) {
            return Ok(buf.len());
        }
        match self.flush() {
            Ok(true) => self.inner.write(buf),
            Ok(false) => Ok(0),
            Err(WriteFault) => Err(WriteFault),
        }
    }
}
