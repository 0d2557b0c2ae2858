//! Answering one input of a command line.
//! Readers that remember if they failed, and readers of several inputs.

ghost use Rattle.cli_run.specs.Ends.{call};
ghost use Rattle.cli_run.specs.Lines.{HasRunInput};
ghost use Rattle.cli_run.specs.Requests.{IsAskedUnder};
ghost use Rattle.std.specs.Prelude.{◌≡◌, ◌↔◌, ◌<◌, true};
ghost use Rattle.cli_run.specs.Common.{ReadsAtMost, ReadConsumes, ReadStep, nothing_given, given_of, inner_of, Counted};

use crate::answering::{Answering, read_input};
use crate::request::asked_under;
use crate::telling::RunFault;
use desk_commands::Verb;
use station_core::{ByteIn, ByteOut, Counted, InputReader, Key, ReadFault};
use std::alloc::Global;
use std::io;
use std::io::{ErrorKind, Read};
use std::marker::Model;

/// Reads one input, has it answered at a moment, and writes the line of its answer: `ok 3`,
/// `refused 213 LH400/2026-01-12/FRA/1`, `refused 301 4 ending` if a telegram can't be read, or
/// `body bad` if a body isn't JSON of a command of the verb. The input is a body under the verb and
/// the key of `head`, or without them a telegram. One of more than 65,536 bytes is bad or refused,
/// and only a prefix of it is read. After the line, the reason why an input can't be read is
/// written to `errors`. `Ok` says whether the input was accepted.
///
/// # Errors
///
/// - [`RunFault::Read`]: the reader fails. Nothing is done or written.
/// - [`RunFault::Memory`]: memory runs out before the station is called, and nothing is done or
///   written; or it runs out for the line, after the input was answered, and nothing is written.
/// - [`RunFault::Store`]: the store fails, or failed before. Nothing is written, and the input acts
///   wholly or not at all.
/// - [`RunFault::Write`]: the writer fails. The input was answered, and a prefix of the line is
///   written.
pub fn answer_input<P: Answering<D, E>, D, I: ByteIn, O: ByteOut, E: ByteOut>(
    way: &P,
    alloc: Global,
    desk: &mut D,
    head: &Option<(Verb, Key)>,
    reader: &mut I,
    writer: &mut O,
    errors: &mut E,
) -> Result<bool, RunFault>
    ensures { HasRunInput (IsAskedUnder head.now) (P.answered way.now head.now) (I.given reader.old)
        (I.given reader.new) (call desk.old (O.taken writer.old) errors.old)
        (call desk.new (O.taken writer.new) errors.new) result }
{
    let bytes = read_input(alloc, reader)?;
    let text = bytes.as_slice();
    match asked_under(alloc, head, text) {
        Ok(asked) => way.answer(alloc, desk, writer, errors, *head, text, &asked),
        Err(_) => Err(RunFault::Memory),
    }
}

/// A reader that remembers whether a read failed.
pub trait Watched: ByteIn {
    /// Returns whether a read failed.
    fn has_failed(&self) -> bool
        ensures { (result ≡ true) ↔ (0 < (Self.given self.now).failures) };
}

/// A reader of several inputs, one after another.
pub trait Inputs: Watched {
    /// The relation of the reader to itself at the next input.
    ghost turned: { Self → Self → Type 0 };

    /// Begins the next input, also the first one. Nothing is read.
    fn next_input(&mut self)
        ensures turned { turned self.old self.new }
        ensures unread { Self.given self.new ≡ Self.given self.old };
}

/// The input of a command: a reader of std, with a count of its calls that only contracts see. It
/// remembers whether a read failed.
#[derive(Drop)]
pub struct Feed<R> {
    counted: Counted<R>,
    failed: bool,
}

impl<R> Model for Feed<R> {
    ghost Value = { Counted R };

    ghost view = { λ f. f.counted };

    ghost invariant = { λ f. (f.failed ≡ true) ↔ (0 < f.counted.tally.given.failures) };
}

impl<R> Feed<R> {
    /// Wraps a reader before its first call.
    pub fn new(reader: R) -> Feed<R>
        ensures reader { inner_of result ≡ reader }
        ensures nothing { given_of result ≡ nothing_given }
    {
        Feed {
            counted: Counted::new(reader),
            failed: false,
        }
    }
}

impl<R: Read> ByteIn for Feed<R> {
    ghost given = { given_of };

    fn read(&mut self, buf: &mut [u8]) -> Result<usize, ReadFault>
        ensures step { ReadStep (given_of self.old) (given_of self.new) result buf.new }
        // If the reader's remaining bytes are known, exactly these bytes were removed.
        ensures inner { ReadConsumes (R.remaining (inner_of self.old))
            (R.remaining (inner_of self.new)) result buf.new }
    {
        match self.counted.read(buf) {
            Ok(n) => Ok(n),
            Err(ReadFault::Interrupted) => Err(ReadFault::Interrupted),
            Err(ReadFault::Failed) => {
                self.failed = true;
                Err(ReadFault::Failed)
            }
        }
    }
}

impl<R: Read> Watched for Feed<R> {
    fn has_failed(&self) -> bool {
        self.failed
    }
}

impl<R: InputReader> Inputs for Feed<R> {
    ghost turned = { λ old new. R.begun (inner_of old) (inner_of new) };

    fn next_input(&mut self) {
        self.counted.begin_input();
    }
}

impl<R: Read> Read for Feed<R> {
    ghost remaining = { λ f. R.remaining (inner_of f) };

    /// Reads once, and again if interrupted.
    fn read(&mut self, buf: &mut [u8]) -> io::Result<usize> {
        for _ in 0..u64::MAX {
            match ByteIn::read(self, buf) {
                Ok(n) => return Ok(n),
                Err(ReadFault::Interrupted) => {}
                Err(ReadFault::Failed) => return Err(ErrorKind::Other.into()),
            }
        }
        Err(ErrorKind::Interrupted.into())
    }
}
