//! Inputs and outputs that fail.
use std::alloc::Global;
use std::io;
use std::io::{Read, Write};

/// An input that returns its bytes, and then ends or fails.
#[derive(Drop)]
pub struct Torn<'a> {
    bytes: &'a [u8],
    is_torn: bool,
}

impl<'a> Torn<'a> {
    pub fn whole(bytes: &'a [u8]) -> Torn<'a> {
        Torn {
            bytes,
            is_torn: false,
        }
    }

    pub fn torn(bytes: &'a [u8]) -> Torn<'a> {
        Torn {
            bytes,
            is_torn: true,
        }
    }
}

impl Read for Torn<'_> {
    fn read(&mut self, buf: &mut [u8]) -> io::Result<usize> {
        if self.bytes.is_empty() && self.is_torn {
            return Err(io::Error::from(io::ErrorKind::Other));
        }
        self.bytes.read(buf)
    }
}

/// An output that takes a limited number of bytes, and then fails.
#[derive(Drop)]
pub struct Narrow {
    taken: Vec<u8>,
    room: usize,
}

impl Narrow {
    pub fn new(alloc: Global, room: usize) -> Narrow {
        Narrow {
            taken: Vec::new(alloc),
            room,
        }
    }

    pub fn into_taken(self) -> Vec<u8> {
        let Narrow { taken, room: _ } = self;
        taken
    }
}

impl Write for Narrow {
    fn write(&mut self, buf: &[u8]) -> io::Result<usize> {
        let count = buf.len().min(self.room);
        if count == 0 && !buf.is_empty() {
            return Err(io::Error::from(io::ErrorKind::Other));
        }
        match self.taken.extend_from_slice(&buf[..count]) {
            Ok(()) => {
                self.room = self.room.saturating_sub(count);
                Ok(count)
            }
            Err(_) => Err(io::Error::from(io::ErrorKind::OutOfMemory)),
        }
    }

    fn flush(&mut self) -> io::Result<()> {
        Ok(())
    }
}
