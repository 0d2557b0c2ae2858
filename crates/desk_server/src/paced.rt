//! The writer of an answer: it is held until its peer takes it, or written if it is too long.
ghost use Rattle.std.specs.Prelude.{◌≡◌, ◌⊎◌, ◌≤◌, ◌/◌};

use crate::outgoing::Outgoing;
use std::io;
use std::io::{ErrorKind, Write};
use std::net::TcpStream;
use std::time::{Clock, Duration};

/// The most bytes of answers that are held for their peers. An answer that is longer is written as
/// its peer reads it, until no more of it is left.
pub(crate) const MOST_WAITING: usize = 67_108_864;

/// The longest time in which a peer takes nothing of its answer, in seconds. The system has room
/// again only once the peer took a third of what it buffers, which may be 4 MiB.
pub(crate) const MOST_STILL: u64 = 30;

/// The longest time of an answer from its first byte on, in seconds.
const MOST_ANSWER: u64 = 30;

/// The rate at which an answer that takes longer has to be read, in bytes a second.
const LEAST_RATE: u64 = 65_536;

/// The seconds that an answer may take from its first byte on, once so many bytes are written.
pub(crate) fn seconds_for(sent: u64) -> u64
    ensures least { 30 ≤ result }
    ensures paced { sent / 65536 ≤ result }
    ensures only { (result ≡ 30) ⊎ (result ≡ sent / 65536) }
{
    MOST_ANSWER.max(sent / LEAST_RATE)
}

/// A writer of a connection's answer, which holds its bytes. While as many bytes wait as may be
/// held, each write waits until the peer has taken some: no longer than 30 seconds, nor past the
/// time that the answer has: 30 seconds from its first wait, or more if the peer reads 64 KiB a
/// second.
#[derive(Drop)]
pub(crate) struct Paced<'a, C: Clock> {
    clock: &'a C,
    stream: &'a TcpStream,
    outgoing: &'a mut Outgoing,
    /// When the first wait began, on the clock that never goes back.
    begun: Option<Duration>,
}

impl<'a, C: Clock> Paced<'a, C> {
    /// A writer that holds its bytes in `outgoing`.
    pub(crate) fn new(
        clock: &'a C,
        stream: &'a TcpStream,
        outgoing: &'a mut Outgoing,
    ) -> Paced<'a, C> {
        Paced {
            clock,
            stream,
            outgoing,
            begun: None,
        }
    }

    /// The time of the first wait. From then on writes wait.
    fn begin(&mut self, now: Duration) -> io::Result<Duration> {
        if let Some(begun) = self.begun {
            return Ok(begun);
        }
        self.stream.set_nonblocking(false)?;
        self.begun = Some(now);
        Ok(now)
    }

    /// Returns the longest wait of the next write.
    ///
    /// Returns an error if no time is left, or the clock can't be read.
    fn wait(&mut self) -> io::Result<Duration> {
        let now = self.clock.monotonic()?;
        let begun = self.begin(now)?;
        let gone = now.saturating_sub(begun);
        let all = Duration::from_secs(seconds_for(self.outgoing.sent()));
        if gone >= all {
            return Err(io::Error::from(ErrorKind::TimedOut));
        }
        Ok(Duration::from_secs(MOST_STILL).min(all.saturating_sub(gone)))
    }

    /// Waits until fewer bytes wait than may be held.
    ///
    /// Returns an error if the peer doesn't take them in time, or the connection fails.
    fn make_room(&mut self) -> io::Result<()> {
        for _ in 0..usize::MAX {
            if self.outgoing.waiting() < MOST_WAITING {
                break;
            }
            let wait = self.wait()?;
            self.stream.set_write_timeout(Some(wait))?;
            self.outgoing.write_once(self.stream)?;
        }
        Ok(())
    }
}

impl<C: Clock> Write for Paced<'_, C> {
    fn write(&mut self, buf: &[u8]) -> io::Result<usize> {
        self.make_room()?;
        self.outgoing.push(buf)?;
        Ok(buf.len())
    }

    fn flush(&mut self) -> io::Result<()> {
        Ok(())
    }
}
