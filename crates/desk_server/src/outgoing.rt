//! The bytes of an answer that its peer has yet to take.

use std::alloc::{AllocError, Global};
use std::io;
use std::io::{ErrorKind, Write};
use std::net::TcpStream;

/// The most bytes of a piece. A write that is longer makes a longer piece.
const PIECE: usize = 65_536;

/// An answer in the order in which it is sent, piece by piece. A piece that was sent is empty.
#[derive(Drop)]
pub(crate) struct Outgoing {
    alloc: Global,
    pieces: Vec<Vec<u8>>,
    /// The number of pieces that were sent whole.
    gone: usize,
    /// The bytes of the next piece that were sent.
    at: usize,
    /// The bytes that wait.
    waiting: usize,
    /// The bytes that were sent.
    sent: u64,
}

impl Outgoing {
    /// No bytes yet.
    pub(crate) fn new(alloc: Global) -> Outgoing {
        Outgoing {
            alloc,
            pieces: Vec::new(alloc),
            gone: 0,
            at: 0,
            waiting: 0,
            sent: 0,
        }
    }

    /// The number of bytes that wait.
    pub(crate) fn waiting(&self) -> usize {
        self.waiting
    }

    /// The number of bytes that were sent.
    pub(crate) fn sent(&self) -> u64 {
        self.sent
    }

    /// Adds bytes to the last piece if it has room, or else as a new piece.
    pub(crate) fn push(&mut self, bytes: &[u8]) -> Result<(), AllocError> {
        match self.pieces.last_mut() {
            Some(piece) if piece.len().saturating_add(bytes.len()) <= PIECE => {
                piece.extend_from_slice(bytes)?;
            }
            _ => {
                let mut piece = Vec::new(self.alloc);
                piece.extend_from_slice(bytes)?;
                self.pieces.push(piece)?;
            }
        }
        self.waiting = self.waiting.saturating_add(bytes.len());
        Ok(())
    }

    /// Writes once, as many bytes as the system takes, and returns whether more wait.
    ///
    /// Returns the system's error, among them `WouldBlock` where it takes none now.
    pub(crate) fn write_once(&mut self, mut stream: &TcpStream) -> io::Result<bool> {
        let Some(piece) = self.pieces.get_mut(self.gone) else {
            return Ok(false);
        };
        let count = match piece.as_slice().get(self.at..) {
            Some([]) | None => 0,
            Some(rest) => match stream.write(rest)? {
                0 => return Err(io::Error::from(ErrorKind::WriteZero)),
                count => count,
            },
        };
        self.at = self.at.saturating_add(count);
        self.sent = self.sent.saturating_add(count as u64);
        self.waiting = self.waiting.saturating_sub(count);
        if self.at >= piece.len() {
            *piece = Vec::new(self.alloc);
            self.gone = self.gone.saturating_add(1);
            self.at = 0;
        }
        Ok(self.gone < self.pieces.len())
    }

    /// Sends as many bytes as the system takes without waiting, and returns whether more wait.
    ///
    /// Returns the system's error if the connection fails.
    pub(crate) fn send(&mut self, stream: &TcpStream) -> io::Result<bool> {
        for _ in 0..usize::MAX {
            match self.write_once(stream) {
                Ok(true) => {}
                Ok(false) => return Ok(false),
                Err(error) if error.kind() == ErrorKind::Interrupted => {}
                Err(error) if error.kind() == ErrorKind::WouldBlock => return Ok(true),
                Err(error) => return Err(error),
            }
        }
        Ok(true)
    }
}
