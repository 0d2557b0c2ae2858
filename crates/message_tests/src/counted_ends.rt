//! Readers and writers that count their calls.
use station_core::{ByteIn, ByteOut, Counted, ReadFault, WriteFault, send};
use std::alloc::Global;
use std::io;
use std::io::Read;
use test_kit::{Narrow, say, shown};

pub fn answer(alloc: Global, asked: &str, text: &[u8]) -> Option<String> {
    match asked {
        "sent" => sent(alloc, shown(text)),
        "sent-to-four-bytes" => {
            let mut room = [0u8; 4];
            let mut writer = Counted::new(room.as_mut_slice());
            sent_said(alloc, send(&mut writer, text))
        }
        "read-haltingly" => read_haltingly(alloc, text),
        "sent-in-vain" => {
            let mut writer = Counted::new(Narrow::new(alloc, 0));
            match ByteOut::write(&mut writer, text) {
                Ok(_) => None,
                Err(WriteFault) => sent_said(alloc, send(&mut writer, text)),
            }
        }
        _ => None,
    }
}

/// Sends each line of a text, and an empty text after it.
fn sent(alloc: Global, text: &str) -> Option<String> {
    let mut writer = Counted::new(Vec::new(alloc));
    for line in text.split_inclusive('\n') {
        send(&mut writer, line.as_bytes()).ok()?;
        send(&mut writer, b"").ok()?;
    }
    say(alloc, shown(writer.into_inner().as_slice()))
}

fn sent_said(alloc: Global, sent: Result<(), usize>) -> Option<String> {
    match sent {
        Ok(()) => say(alloc, "all went out"),
        Err(count) => format!(in alloc; "{count} went out").ok(),
    }
}

/// Is interrupted, then returns its bytes, and then fails.
#[derive(Drop)]
struct Halting<'a> {
    calls: u8,
    bytes: &'a [u8],
}

impl Read for Halting<'_> {
    fn read(&mut self, buf: &mut [u8]) -> io::Result<usize> {
        self.calls = self.calls.saturating_add(1);
        match self.calls {
            1 => Err(io::Error::from(io::ErrorKind::Interrupted)),
            2 => self.bytes.read(buf),
            _ => Err(io::Error::from(io::ErrorKind::Other)),
        }
    }
}

fn read_haltingly(alloc: Global, bytes: &[u8]) -> Option<String> {
    let mut reader = Counted::new(Halting { calls: 0, bytes });
    let mut buf = [b'-'; 8];
    let mut said = String::new(alloc);
    for _ in 0..3 {
        match ByteIn::read(&mut reader, &mut buf) {
            Ok(count) => write!(said, "{count} ").ok()?,
            Err(ReadFault::Interrupted) => said.push_str("interrupted ").ok()?,
            Err(ReadFault::Failed) => said.push_str("failed ").ok()?,
        }
    }
    format!(in alloc; "{said}[{}]", shown(&buf)).ok()
}
