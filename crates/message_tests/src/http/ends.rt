//! The two ends of a connection.
use std::io;
use std::io::{Read, Write};

#[derive(Drop)]
pub struct Sent<'a> {
    pub rest: &'a [u8],
    /// The largest number of bytes in one read.
    pub most: usize,
    /// The number of interrupted reads at the start.
    pub pauses: u32,
    /// The number of interrupted reads after each one that returned bytes.
    pub pauses_between: u32,
}

impl Read for Sent<'_> {
    fn read(&mut self, buf: &mut [u8]) -> io::Result<usize> {
        if self.pauses > 0 {
            self.pauses = self.pauses.saturating_sub(1);
            return Err(io::Error::from(io::ErrorKind::Interrupted));
        }
        self.pauses = self.pauses_between;
        let count = self.most.min(buf.len()).min(self.rest.len());
        let (now, later) = self.rest.split_at(count);
        buf[..count].copy_from_slice(now);
        self.rest = later;
        Ok(count)
    }
}

#[derive(Clone, Copy)]
pub enum Stop {
    Fails,
    TakesNone,
}

#[derive(Drop)]
pub struct Taken {
    pub bytes: Vec<u8>,
    /// The number of bytes that it still takes.
    pub room: usize,
    /// The largest number of bytes in one write.
    pub most: usize,
    pub stop: Stop,
}

impl Write for Taken {
    fn write(&mut self, buf: &[u8]) -> io::Result<usize> {
        if self.room == 0 && matches!(self.stop, Stop::Fails) {
            return Err(io::Error::from(io::ErrorKind::Other));
        }
        let count = self.most.min(buf.len()).min(self.room);
        if self.bytes.extend_from_slice(&buf[..count]).is_err() {
            return Err(io::Error::from(io::ErrorKind::OutOfMemory));
        }
        self.room = self.room.saturating_sub(count);
        Ok(count)
    }

    fn flush(&mut self) -> io::Result<()> {
        Ok(())
    }
}
