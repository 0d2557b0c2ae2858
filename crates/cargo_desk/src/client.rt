//! A call to the service on a port.
ghost use Rattle.std.specs.Io.{ReadsAtMost};

use cli_run::Feed;
use cli_words::LineCommand;
use desk_client::{Connect, LastTry, RemoteDesk, ask_command, end_asked};
use station_core::{Counted, InputReader};
use std::cell::{Cell, RefCell};
use std::io;
use std::io::{ErrorKind, Read, Write};
use std::net::{Ipv4Addr, SocketAddr, TcpStream};
use std::time::Duration;

/// The timeout of a connection's reads and writes, in seconds. The service gives up on a request
/// after 30 seconds.
const MOST_WAIT: u64 = 40;

/// The open connection, if there is one, and whether its last read timed out.
#[derive(Drop)]
struct Link {
    open: RefCell<Option<TcpStream>>,
    is_late: Cell<bool>,
}

impl Link {
    /// Starts without a connection.
    fn new() -> Link {
        Link {
            open: RefCell::new(None),
            is_late: Cell::new(false),
        }
    }

    fn read_open(&self, buf: &mut [u8]) -> io::Result<usize>
        ensures { ReadsAtMost result buf.new }
    {
        let Ok(open) = self.open.try_borrow() else {
            return Err(not_open());
        };
        match &*open {
            Some(stream) => {
                let mut stream = stream;
                stream.read(buf)
            }
            None => Err(not_open()),
        }
    }

    /// Records whether a read timed out.
    fn note(&self, read: &io::Result<usize>) {
        let is_late = match read {
            Ok(_) => false,
            Err(error) => matches!(error.kind(), ErrorKind::WouldBlock | ErrorKind::TimedOut),
        };
        self.is_late.set(is_late);
    }
}

/// Connections to a port of this machine, one after another.
#[derive(Drop)]
struct Connections<'a> {
    rt: &'a HostRuntime,
    port: u16,
    link: &'a Link,
    tried: u64,
    opened: u64,
}

/// Opens a connection to a port of this machine, with timeouts.
fn connected(rt: &HostRuntime, port: u16) -> io::Result<TcpStream> {
    let stream = TcpStream::connect(rt, SocketAddr::from((Ipv4Addr::LOCALHOST, port)))?;
    let wait = Some(Duration::from_secs(MOST_WAIT));
    stream.set_nodelay(true)?;
    stream.set_read_timeout(wait)?;
    stream.set_write_timeout(wait)?;
    Ok(stream)
}

impl Connections<'_> {
    /// Opens the next connection, and closes the one before it.
    fn open_next(&self) -> bool {
        let Ok(stream) = connected(self.rt, self.port) else {
            return false;
        };
        match self.link.open.try_borrow_mut() {
            Ok(mut open) => {
                *open = Some(stream);
                self.link.is_late.set(false);
                true
            }
            Err(_) => false,
        }
    }
}

impl Connect for Connections<'_> {
    ghost tried = { λ c. c.tried };

    ghost opened = { λ c. c.opened };

    fn connect(&mut self) -> bool {
        self.tried = self.tried.saturating_add(1);
        let Some(opened) = self.opened.checked_add(1) else {
            return false;
        };
        if !self.open_next() {
            return false;
        }
        self.opened = opened;
        true
    }

    fn is_late(&self) -> bool {
        self.link.is_late.get()
    }
}

/// One end of the open connection.
#[derive(Drop)]
struct End<'a> {
    link: &'a Link,
}

/// Returns the error of a missing connection. It never occurs: a question opens one first.
fn not_open() -> io::Error {
    ErrorKind::NotConnected.into()
}

impl Read for End<'_> {
    fn read(&mut self, buf: &mut [u8]) -> io::Result<usize> {
        let read = self.link.read_open(buf);
        self.link.note(&read);
        read
    }
}

impl Write for End<'_> {
    fn write(&mut self, buf: &[u8]) -> io::Result<usize> {
        let Ok(open) = self.link.open.try_borrow() else {
            return Err(not_open());
        };
        match &*open {
            Some(stream) => {
                let mut stream = stream;
                stream.write(buf)
            }
            None => Err(not_open()),
        }
    }

    fn flush(&mut self) -> io::Result<()> {
        Ok(())
    }
}

/// Runs a command with the service on a port, on the inputs of a reader, and ends the call. Each
/// line is written when its answer arrives.
pub fn ask_port<R: InputReader + Drop>(
    rt: &HostRuntime,
    command: &LineCommand<'_>,
    port: u16,
    reader: R,
) -> u8 {
    let link = Link::new();
    let mut service = RemoteDesk {
        connections: Connections {
            rt,
            port,
            link: &link,
            tried: 0,
            opened: 0,
        },
        reader: Counted::new(End { link: &link }),
        writer: Counted::new(End { link: &link }),
        last: LastTry::Nothing,
    };
    let mut output = Counted::new(rt.stdout());
    let mut errors = Counted::new(rt.stderr());
    let mut feed = Feed::new(reader);
    let ended = ask_command(
        rt.alloc(),
        &mut service,
        command,
        &mut feed,
        &mut output,
        &mut errors,
    );
    end_asked(&mut errors, ended, port, service.last)
}
