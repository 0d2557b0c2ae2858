//! Taking several telegrams.
//! Reading a list line by line, so that the line of each record is known.
//! Reading a line of `acts`, as far as it is kept.

ghost use Rattle.std.specs.Prelude.{None, ◌≡◌, ◌<◌, IfOk, ◌≢◌, ◌≤◌, ◌+◌, ◌++◌, List, ℕ, All, length, true, false, IfSome, OnSome, Some};
ghost use Rattle.cli_run.specs.Ends.{call};
ghost use Rattle.cli_run.specs.Done.{HasTakenNext, HaveBeenMade};
ghost use Rattle.cli_run.specs.Common.{reader_remaining, IsEmptyOrEndsWith, StopsAt, drop_through, take_through, Consumes, IsAtEnd};
ghost use Rattle.cli_run.specs.Lines.{kept, most_line};

use crate::answering::Answering;
use crate::input::{Inputs, Watched, answer_input};
use crate::telling::RunFault;
use csv::ByteRecord;
use input_reasons::MOST_LINE;
use station_core::{ByteIn, ByteOut};
use std::alloc::{AllocError, Global};
use std::cell::Cell;
use std::io;
use std::io::{BufRead, BufReader, Read};

/// Begins the next input, and has its telegram answered.
fn take_next<P: Answering<D, E>, D, I: Inputs, W: ByteOut, E: ByteOut>(
    way: &P,
    alloc: Global,
    desk: &mut D,
    reader: &mut I,
    writer: &mut W,
    errors: &mut E,
) -> Result<bool, RunFault>
    ensures { HasTakenNext (P.answered way.now None) I.given I.turned
        (call desk.old (W.taken writer.old) errors.old, reader.old)
        (call desk.new (W.taken writer.new) errors.new, reader.new) result }
{
    reader.next_input();
    answer_input(way, alloc, desk, &None, reader, writer, errors)
}

/// Has the telegrams of `count` inputs answered one after another, all at one moment, and writes
/// the line of each answer. `Ok` says whether all were accepted.
///
/// A fault ends the run, as described at [`answer_input`]. The telegrams before it are answered,
/// and those after it aren't read.
pub fn answer_takes<P: Answering<D, E>, D, I: Inputs, W: ByteOut, E: ByteOut>(
    way: &P,
    alloc: Global,
    desk: &mut D,
    count: usize,
    reader: &mut I,
    writer: &mut W,
    errors: &mut E,
) -> Result<bool, RunFault>
    ensures { HaveBeenMade (HasTakenNext (P.answered way.now None) I.given I.turned) count
        (call desk.old (W.taken writer.old) errors.old, reader.old)
        (call desk.new (W.taken writer.new) errors.new, reader.new) result }
{
    let mut good = true;
    for _turn in 0..count {
        let accepted = take_next(way, alloc, desk, reader, writer, errors)?;
        good &= accepted;
    }
    Ok(good)
}

/// The progress of reading a list.
#[derive(Drop)]
pub struct LineCount {
    /// The number of lines read to their end.
    ended: Cell<u64>,
    /// The line of the last byte, from 1; the next line at the end of the list.
    line: Cell<u64>,
    /// True if another row is at hand.
    more: Cell<bool>,
}

/// Returns the number of line ends in the fields of a record.
fn ends_within(row: &ByteRecord) -> u64 {
    let ends = row.as_slice().iter().filter(|b| **b == b'\n').count();
    ends as u64
}

impl LineCount {
    /// Starts before the first read.
    pub fn new() -> LineCount {
        LineCount {
            ended: Cell::new(0),
            line: Cell::new(1),
            more: Cell::new(false),
        }
    }

    /// Counts a read, in which only the last byte may end a line. A read of 0 bytes is the end of
    /// the list.
    fn pass(&self, part: &[u8]) {
        let next = self.ended.get().saturating_add(1);
        self.line.set(next);
        if part.last() == Some(&b'\n') {
            self.ended.set(next);
        }
    }

    /// Records whether a row was read ahead.
    fn note_ahead(&self, ahead: &[u8]) {
        self.more.set(begins_with_row(ahead));
    }

    /// Returns whether another row is at hand: reading it needs no read of the list's own reader.
    pub fn has_more(&self) -> bool {
        self.more.get()
    }

    /// Returns the line on which the last record begins.
    pub fn first_line(&self, row: &ByteRecord) -> u64 {
        self.line.get().saturating_sub(ends_within(row))
    }
}

/// A reader whose reads end at the end of a line.
#[derive(Drop)]
pub struct LineByLine<'a, R> {
    reader: BufReader<R>,
    count: &'a LineCount,
}

/// Returns the length of the first line with its end, at least 1.
fn line_len(ahead: &[u8]) -> usize
    ensures { 0 < result }
{
    match ahead.iter().position(|b| *b == b'\n') {
        Some(place) => place.saturating_add(1),
        None => ahead.len().max(1),
    }
}

/// Returns whether a text begins with a whole line that is a row by itself: it isn't empty, and its
/// quotes are paired.
fn begins_with_row(ahead: &[u8]) -> bool {
    let Some(end) = ahead.iter().position(|b| *b == b'\n') else {
        return false;
    };
    let line = &ahead[..end];
    let quotes = line.iter().filter(|b| **b == b'"').count();
    quotes % 2 == 0 && line.iter().any(|b| *b != b'\r')
}

impl<R: Read> Read for LineByLine<'_, R> {
    ghost remaining = { λ l. reader_remaining R.remaining l.reader };

    /// Reads once, at most to the end of the line.
    fn read(&mut self, buf: &mut [u8]) -> io::Result<usize> {
        let most = line_len(self.reader.buffer()).min(buf.len());
        let n = self.reader.read(&mut buf[..most])?;
        self.count.pass(&buf[..n]);
        self.count.note_ahead(self.reader.buffer());
        Ok(n)
    }
}

/// Wraps a list, to read it line by line.
pub fn line_by_line<'a, R: Read + Drop>(
    alloc: Global,
    reader: R,
    count: &'a LineCount,
) -> Result<LineByLine<'a, R>, AllocError>
    ensures { IfOk result
        (λ lines. reader_remaining R.remaining lines.reader ≡ R.remaining reader) }
{
    match BufReader::new(alloc, reader) {
        Ok(reader) => Ok(LineByLine { reader, count }),
        Err(_) => Err(AllocError),
    }
}

/// Appends the buffered bytes of a line, as far as it is kept. Returns whether the line ends there.
fn keep_part<R: BufRead>(reader: &mut R, line: &mut Vec<u8>) -> io::Result<bool>
    requires room { length line.old.items ≤ most_line }
    ensures room { length line.new.items ≤ most_line + 1 }
    ensures part { IfOk result (λ ends. (part : List ℕ)
        × (line.new.items ≡ line.old.items ++ part)
        × Consumes (R.remaining reader.old) (R.remaining reader.new) part
        × (ends ≡ false → (0 < length part) × All (λ x. x ≢ 10) part)
        × (ends ≡ true → StopsAt part 10 × IsEmptyOrEndsWith part 10
        × (length part ≡ 0 → OnSome (R.remaining reader.old) (IsAtEnd (R.remaining reader.new))))) }
{
    let available = reader.fill_buf()?;
    let most = available.len().min(MOST_LINE + 1 - line.len());
    let shown = &available[..most];
    let mut part = shown;
    let read = part.read_until(b'\n', line)?;
    let ends = read == 0 || shown[read - 1] == b'\n';
    reader.consume(read);
    Ok(ends)
}

/// Reads a line, and returns it as far as it is kept, with its end. At the end of the input the
/// line is empty.
pub(crate) fn kept_line<R: BufRead>(alloc: Global, reader: &mut R) -> io::Result<Vec<u8>>
    ensures few { IfOk result (λ line. length line.items ≤ most_line + 1) }
    ensures read { IfOk result (λ line. IfSome (R.remaining reader.old)
        (λ xs. (line.items ≡ kept (take_through 10 xs))
        × (R.remaining reader.new ≡ Some (drop_through 10 xs)))) }
{
    let mut line = Vec::new(alloc);
    while line.len() <= MOST_LINE {
        if keep_part(reader, &mut line)? {
            return Ok(line);
        }
    }
    reader.skip_until(b'\n')?;
    Ok(line)
}
