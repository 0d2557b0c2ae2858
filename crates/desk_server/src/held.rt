//! A connection that the service holds: its request so far, its answer, or its end.

use crate::outgoing::Outgoing;
use crate::paced::{MOST_STILL, seconds_for};
use std::alloc::Global;
use std::io;
use std::io::{ErrorKind, Read};
use std::net::{Shutdown, TcpStream};
use std::os::fd::{AsRawFd, RawFd};
use std::time::Duration;

/// The longest silence of a new connection, in seconds.
const MOST_SILENCE: u64 = 5;

/// The longest silence within a request, in seconds.
const MOST_WAIT: u64 = 10;

/// The longest time in which a request arrives, in seconds.
const MOST_REQUEST: u64 = 30;

/// The longest time in which the peer closes after its answer, in seconds.
const MOST_CLOSE: u64 = 2;

/// The most bytes that are held of a request: a head has at most 16,384, and a body at most 65,536.
const MOST_BYTES: usize = 81_920;

/// The most bytes that are read at once.
const CHUNK: usize = 4096;

/// The most reads at a time after the answer.
const MOST_LEFT: u32 = 64;

/// The state of a connection after a read.
#[derive(Clone, Copy)]
pub(crate) enum Arrival {
    /// More may come.
    Open,
    /// The peer sends no more, or there is no room for more.
    Ended,
    /// The connection failed, memory ran out, or its time is over.
    Lost,
}

/// What a connection is held for.
#[derive(Clone, Copy)]
enum Stage {
    /// Its request comes.
    Request,
    /// Its answer is sent.
    Answer,
    /// It is read to its end.
    End,
}

/// A connection that was accepted. Its times are on the clock of the service, which stands while
/// the service doesn't wait.
#[derive(Drop)]
pub(crate) struct Held {
    stream: TcpStream,
    /// The bytes of its request so far.
    bytes: Vec<u8>,
    /// The rest of its answer.
    outgoing: Outgoing,
    stage: Stage,
    /// The time at which its stage began.
    begun: Duration,
    /// The time of its last byte.
    last: Duration,
}

impl Held {
    /// A connection that was accepted at a time. None of its reads and writes waits.
    ///
    /// Returns the system's error if the socket can't be set up.
    pub(crate) fn new(alloc: Global, stream: TcpStream, now: Duration) -> io::Result<Held> {
        stream.set_nodelay(true)?;
        stream.set_nonblocking(true)?;
        Ok(Held {
            stream,
            bytes: Vec::new(alloc),
            outgoing: Outgoing::new(alloc),
            stage: Stage::Request,
            begun: now,
            last: now,
        })
    }

    /// The number by which the system knows the connection.
    pub(crate) fn raw_fd(&self) -> RawFd {
        self.stream.as_raw_fd()
    }

    /// The bytes of its request so far, the connection, and the rest of its answer.
    pub(crate) fn parts(&mut self) -> (&[u8], &TcpStream, &mut Outgoing) {
        (self.bytes.as_slice(), &self.stream, &mut self.outgoing)
    }

    /// The bytes of its request so far.
    pub(crate) fn bytes(&self) -> &[u8] {
        self.bytes.as_slice()
    }

    /// Returns whether its request is still to be answered.
    pub(crate) fn is_asking(&self) -> bool {
        matches!(self.stage, Stage::Request)
    }

    /// The number of bytes of its answer that wait.
    pub(crate) fn waiting(&self) -> usize {
        self.outgoing.waiting()
    }

    /// The time at which its stage began.
    pub(crate) fn begun(&self) -> Duration {
        self.begun
    }

    /// The time of its last byte, or of its acceptance.
    pub(crate) fn last(&self) -> Duration {
        self.last
    }

    /// The time at which it is given up.
    pub(crate) fn deadline(&self) -> Duration {
        let (silence, all) = match self.stage {
            Stage::Request if self.bytes.is_empty() => (MOST_SILENCE, MOST_REQUEST),
            Stage::Request => (MOST_WAIT, MOST_REQUEST),
            Stage::Answer => (MOST_STILL, seconds_for(self.outgoing.sent())),
            Stage::End => (MOST_CLOSE, MOST_CLOSE),
        };
        let next = self.last.saturating_add(Duration::from_secs(silence));
        next.min(self.begun.saturating_add(Duration::from_secs(all)))
    }

    /// Reads what has come of its request, up to the room that a request has.
    pub(crate) fn read_request(&mut self, now: Duration) -> Arrival {
        if now >= self.deadline() {
            return Arrival::Lost;
        }
        for _ in 0..=MOST_BYTES {
            match self.read_once(now) {
                Ok(Some(Arrival::Open)) => {}
                Ok(Some(end)) => return end,
                Ok(None) => return Arrival::Open,
                Err(_) => return Arrival::Lost,
            }
        }
        Arrival::Lost
    }

    /// Reads once. Returns `None` if nothing more is there now.
    ///
    /// Returns the system's error if the connection fails, or memory runs out.
    fn read_once(&mut self, now: Duration) -> io::Result<Option<Arrival>> {
        let mut room = [0; CHUNK];
        let most = MOST_BYTES.saturating_sub(self.bytes.len()).min(CHUNK);
        if most == 0 {
            return Ok(Some(Arrival::Ended));
        }
        let mut stream = &self.stream;
        match stream.read(&mut room[..most]) {
            Ok(0) => Ok(Some(Arrival::Ended)),
            Ok(count) => {
                self.bytes.extend_from_slice(&room[..count])?;
                self.last = now;
                Ok(Some(Arrival::Open))
            }
            Err(error) if error.kind() == ErrorKind::Interrupted => Ok(Some(Arrival::Open)),
            Err(error) if error.kind() == ErrorKind::WouldBlock => Ok(None),
            Err(error) => Err(error),
        }
    }

    /// Begins to send the answer, whose bytes wait.
    ///
    /// Returns the system's error if the connection can't be set up for it.
    pub(crate) fn begin_answer(&mut self, now: Duration) -> io::Result<()> {
        self.bytes = Vec::new(*self.bytes.allocator());
        self.begin(Stage::Answer, now);
        self.stream.set_nonblocking(true)
    }

    fn begin(&mut self, stage: Stage, now: Duration) {
        self.stage = stage;
        self.begun = now;
        self.last = now;
    }

    /// Sends what the system takes of its answer, and reads it to its end once all is sent: a close
    /// over unread bytes would take the answer back. Returns false at its end.
    pub(crate) fn go_on(&mut self, now: Duration) -> bool {
        if now >= self.deadline() {
            return false;
        }
        if self.stage == Stage::Answer && !self.send(now) {
            return false;
        }
        self.stage != Stage::End || self.drain()
    }

    /// Sends what the system takes of its answer. Returns false if the connection fails.
    fn send(&mut self, now: Duration) -> bool {
        let waiting = self.outgoing.waiting();
        match self.outgoing.send(&self.stream) {
            Ok(true) => {
                if self.outgoing.waiting() < waiting {
                    self.last = now;
                }
                true
            }
            Ok(false) => {
                self.begin(Stage::End, now);
                self.stream.shutdown(Shutdown::Write).is_ok()
            }
            Err(_) => false,
        }
    }

    /// Discards what the peer sends after its answer. Returns false at its end.
    fn drain(&mut self) -> bool {
        let mut room = [0; CHUNK];
        for _ in 0..MOST_LEFT {
            let mut stream = &self.stream;
            match stream.read(&mut room) {
                Ok(0) => return false,
                Ok(_) => {}
                Err(error) => {
                    return matches!(error.kind(), ErrorKind::WouldBlock | ErrorKind::Interrupted);
                }
            }
        }
        false
    }
}
