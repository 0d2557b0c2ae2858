//! A writer that drops a line rather than wait until somebody reads.

use mio::unix::SourceFd;
use mio::{Events, Interest, Poll, Token};
use std::alloc::Global;
use std::io;
use std::io::{ErrorKind, Write};
use std::net::Net;
use std::os::fd::AsRawFd;
use std::time::Duration;

/// The most bytes of a write. A pipe that takes any takes as many without waiting.
const MOST_BYTES: usize = 4096;

/// The token of the writer. There is no other.
const WRITER: Token = Token(0);

/// A writer of lines over a file, a terminal or a pipe. A line for which it has no room now is
/// dropped, so that no service waits for a reader of its standard error. The next line that it
/// writes is preceded by the number of lines dropped.
#[derive(Drop)]
pub struct Unblocked<'a, N: Net, W> {
    net: &'a N,
    alloc: Global,
    inner: W,
    /// The number of lines that were dropped since the last one that was written.
    dropped: u64,
    /// `true` if the last line that was written has no end.
    is_cut: bool,
}

impl<'a, N: Net, W: Write + AsRawFd> Unblocked<'a, N, W> {
    /// A writer that has dropped nothing yet.
    pub fn new(net: &'a N, alloc: Global, inner: W) -> Unblocked<'a, N, W> {
        Unblocked {
            net,
            alloc,
            inner,
            dropped: 0,
            is_cut: false,
        }
    }

    /// Returns whether a write wouldn't wait. A file never waits, and can't be registered.
    fn takes_more(&self) -> io::Result<bool> {
        let mut poll = Poll::new(self.net)?;
        let raw_fd = self.inner.as_raw_fd();
        let mut source = SourceFd(&raw_fd);
        match poll
            .registry()
            .register(&mut source, WRITER, Interest::WRITABLE)
        {
            Ok(()) => {}
            Err(error) => return Ok(error.kind() == ErrorKind::PermissionDenied),
        }
        let mut events = Events::with_capacity(self.alloc, 1)?;
        poll.poll(&mut events, Some(Duration::ZERO))?;
        Ok(!events.is_empty())
    }

    /// Ends a line that was cut, and says how many were dropped.
    fn tell_dropped(&mut self) -> io::Result<()> {
        if self.is_cut && self.dropped > 0 {
            self.inner.write_all(b"\n")?;
            self.is_cut = false;
        }
        if self.dropped > 0 {
            let dropped = self.dropped;
            self.dropped = 0;
            let lines = if dropped == 1 {
                "line was"
            } else {
                "lines were"
            };
            writeln!(
                self.inner,
                "{dropped} {lines} dropped here: nobody read them"
            )?;
        }
        Ok(())
    }
}

impl<N: Net, W: Write + AsRawFd> Write for Unblocked<'_, N, W> {
    fn write(&mut self, buf: &[u8]) -> io::Result<usize> {
        if !self.takes_more().unwrap_or(false) {
            self.dropped = self.dropped.saturating_add(1);
            return Err(io::Error::from(ErrorKind::WouldBlock));
        }
        self.tell_dropped()?;
        let count = self.inner.write(&buf[..buf.len().min(MOST_BYTES)])?;
        self.is_cut = buf.get(..count).and_then(<[u8]>::last) != Some(&b'\n');
        Ok(count)
    }

    fn flush(&mut self) -> io::Result<()> {
        self.inner.flush()
    }
}
