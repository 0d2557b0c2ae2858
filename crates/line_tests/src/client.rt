//! Calls of a service, over connections that a script plays.
ghost use Rattle.std.specs.Prelude.{◌≤◌, length, IfSome};
ghost use Rattle.std.specs.Io.{ReadsAtMost};

use crate::calls::{Parts, ended_said};
use crate::words::{fault_said, words_of};
use cli_run::Feed;
use cli_words::{Line, parse_words};
use desk_client::{Connect, LastTry, RemoteDesk, ask_command, end_asked};
use station_core::Counted;
use std::alloc::Global;
use std::cell::{Cell, RefCell};
use std::io;
use std::io::{ErrorKind, Read, Write};
use test_kit::{Narrow, shown};

const NEXT: &str = "\n==\n";

#[derive(Clone, Copy, Drop)]
enum End {
    Closed,
    Broken,
    Late,
}

/// A connection: the bytes left to read, at most `step` in one read, and the bytes that it takes.
#[derive(Clone, Copy, Drop)]
struct Play<'a> {
    left: &'a [u8],
    step: usize,
    end: End,
    room: usize,
}

fn played(part: &str) -> Option<Play<'_>> {
    let (words, bytes) = part.split_once(':')?;
    let whole = usize::MAX;
    let (word, step) = match words.split_once(" by ") {
        Some((word, step)) => (word, step.parse::<usize>().ok()?),
        None => (words, whole),
    };
    let (end, room) = match word {
        "ends" => (End::Closed, whole),
        "breaks" => (End::Broken, whole),
        "late" => (End::Late, whole),
        _ => (
            End::Broken,
            word.strip_prefix("takes ")?.parse::<usize>().ok()?,
        ),
    };
    Some(Play {
        left: bytes.as_bytes(),
        step,
        end,
        room,
    })
}

/// The bytes sent at a try, unless it was refused.
type Try = Option<Vec<u8>>;

#[derive(Drop)]
struct Wire<'a> {
    alloc: Global,
    open: RefCell<Option<Play<'a>>>,
    tries: RefCell<Vec<Try>>,
    is_late: Cell<bool>,
}

fn failure() -> io::Error {
    ErrorKind::Other.into()
}

impl<'a> Wire<'a> {
    fn new(alloc: Global) -> Wire<'a> {
        Wire {
            alloc,
            open: RefCell::new(None),
            tries: RefCell::new(Vec::new(alloc)),
            is_late: Cell::new(false),
        }
    }

    fn open_next(&self, next: Option<Play<'a>>) -> Option<()> {
        let sent = next.map(|_| Vec::new(self.alloc));
        self.tries.try_borrow_mut().ok()?.push(sent).ok()?;
        *self.open.try_borrow_mut().ok()? = next;
        next.map(|_| ())
    }

    fn read_open(&self, buf: &mut [u8]) -> io::Result<usize>
        ensures { ReadsAtMost result buf.new }
    {
        let Ok(mut open) = self.open.try_borrow_mut() else {
            return Err(failure());
        };
        let Some(play) = open.as_mut() else {
            return Err(failure());
        };
        if !play.left.is_empty() {
            let len = buf.len().min(play.step);
            return play.left.read(&mut buf[..len]);
        }
        self.is_late.set(matches!(play.end, End::Late));
        match play.end {
            End::Closed => Ok(0),
            End::Broken | End::Late => Err(failure()),
        }
    }

    fn take(&self, len: usize) -> Option<usize>
        ensures { IfSome result (λ count. count ≤ len) }
    {
        let mut open = self.open.try_borrow_mut().ok()?;
        let play = open.as_mut()?;
        let count = len.min(play.room);
        play.room = play.room.saturating_sub(count);
        if count == 0 && len > 0 {
            None
        } else {
            Some(count)
        }
    }

    fn note(&self, bytes: &[u8]) -> Option<()> {
        let mut tries = self.tries.try_borrow_mut().ok()?;
        let sent = tries.last_mut()?.as_mut()?;
        sent.extend_from_slice(bytes).ok()
    }

    fn write_open(&self, buf: &[u8]) -> Option<usize>
        ensures { IfSome result (λ count. count ≤ length buf.now) }
    {
        let count = self.take(buf.len())?;
        self.note(&buf[..count])?;
        Some(count)
    }
}

#[derive(Drop)]
struct Scripted<'w, 'a> {
    wire: &'w Wire<'a>,
    rest: Option<&'a str>,
    tried: u64,
    opened: u64,
}

fn next_play<'a>(script: &mut Option<&'a str>) -> Option<Play<'a>> {
    let left = (*script)?;
    match left.split_once(NEXT) {
        Some((part, rest)) => {
            *script = Some(rest);
            played(part)
        }
        None => {
            *script = None;
            played(left)
        }
    }
}

impl Connect for Scripted<'_, '_> {
    ghost tried = { λ c. c.tried };

    ghost opened = { λ c. c.opened };

    fn connect(&mut self) -> bool {
        self.tried = self.tried.saturating_add(1);
        let Some(opened) = self.opened.checked_add(1) else {
            return false;
        };
        let next = next_play(&mut self.rest);
        if self.wire.open_next(next).is_none() {
            return false;
        }
        self.opened = opened;
        true
    }

    fn is_late(&self) -> bool {
        self.wire.is_late.get()
    }
}

#[derive(Drop)]
struct PlayedEnd<'w, 'a> {
    wire: &'w Wire<'a>,
}

impl Read for PlayedEnd<'_, '_> {
    fn read(&mut self, buf: &mut [u8]) -> io::Result<usize> {
        self.wire.read_open(buf)
    }
}

impl Write for PlayedEnd<'_, '_> {
    fn write(&mut self, buf: &[u8]) -> io::Result<usize> {
        match self.wire.write_open(buf) {
            Some(count) => Ok(count),
            None => Err(failure()),
        }
    }

    fn flush(&mut self) -> io::Result<()> {
        Ok(())
    }
}

pub fn answer(alloc: Global, asked: &str, text: &[u8]) -> Option<String> {
    match asked {
        "ask" => ask(alloc, shown(text), usize::MAX),
        _ => {
            let room = asked.strip_prefix("ask-room-for-")?.parse::<usize>().ok()?;
            ask(alloc, shown(text), room)
        }
    }
}

/// Runs a call: its words are on the first line, then its input and its connections.
fn ask(alloc: Global, text: &str, room: usize) -> Option<String> {
    let (call, script) = match text.split_once(NEXT) {
        Some((call, script)) => (call, Some(script)),
        None => (text, None),
    };
    let (first, input) = call.split_once('\n').unwrap_or((call, ""));
    let words = words_of(alloc, first)?;
    match parse_words(alloc, words.as_slice()) {
        Ok(line) => run(alloc, &line, input, script, room),
        Err(fault) => fault_said(alloc, &fault),
    }
}

fn run(
    alloc: Global,
    line: &Line<'_>,
    input: &str,
    script: Option<&str>,
    room: usize,
) -> Option<String> {
    let port = line.at?;
    let mut feed = Feed::new(Parts::new(input, false));
    let wire = Wire::new(alloc);
    let mut service = RemoteDesk {
        connections: Scripted {
            wire: &wire,
            rest: script,
            tried: 0,
            opened: 0,
        },
        reader: Counted::new(PlayedEnd { wire: &wire }),
        writer: Counted::new(PlayedEnd { wire: &wire }),
        last: LastTry::Nothing,
    };
    let mut output = Counted::new(Narrow::new(alloc, room));
    let mut errors = Counted::new(Vec::new(alloc));
    let ended = ask_command(
        alloc,
        &mut service,
        &line.command,
        &mut feed,
        &mut output,
        &mut errors,
    );
    let status = end_asked(&mut errors, ended, port, service.last);
    let (printed, told) = (output.into_inner().into_taken(), errors.into_inner());
    let printed = shown(printed.as_slice());
    let said = ended_said(alloc, status, printed, shown(told.as_slice()))?;
    let tries = wire.tries.try_borrow().ok()?;
    with_tries(said, tries.as_slice())
}

/// Appends the bytes sent at each try, or that they are those of the try before.
fn with_tries(mut said: String, tries: &[Try]) -> Option<String> {
    let mut before: Option<&[u8]> = None;
    for one in tries {
        match one {
            Some(sent) => {
                push_sent(&mut said, sent.as_slice(), before)?;
                before = Some(sent.as_slice());
            }
            None => said.push_str(" refused").ok()?,
        }
    }
    Some(said)
}

fn push_sent(said: &mut String, sent: &[u8], before: Option<&[u8]>) -> Option<()> {
    if before == Some(sent) {
        return said.push_str(" again").ok();
    }
    said.push_str(" sent [").ok()?;
    said.push_str(shown(sent)).ok()?;
    said.push_str("]").ok()
}
