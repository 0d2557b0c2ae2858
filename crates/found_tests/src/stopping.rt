//! A call that is stopped at each call of a file.
use crate::disks::{Calls, FailingFile, FileBytes, Visited, found_in, said_of, visit};
use crate::errands::Came;
use crate::work::Work;
use awb_number::Awb;
use std::alloc::Global;

const MOST_CALLS: u64 = 5_000;

/// The state before the work: the files, and the waybills whose records are compared.
#[derive(Drop)]
pub struct Before {
    pub bytes: FileBytes,
    pub numbers: Vec<Awb>,
}

/// The progress of an attempt.
#[derive(Clone, Copy, Debug)]
enum Attempt {
    /// The files couldn't be opened, or their station couldn't be read.
    NotBegun,
    /// It failed.
    Stopped,
    /// It was acknowledged, but the log couldn't be copied into the database file.
    Done,
    /// Nothing failed.
    Closed,
}

/// An attempt, its reply if there was one, and the crash state.
#[derive(Drop)]
struct Ended {
    attempt: Attempt,
    reply: String,
    bytes: FileBytes,
}

/// The remains of an attempt.
#[derive(Clone, Copy, Debug)]
enum Remains {
    Before,
    After,
    Other,
}

/// Work that nothing stops: the findings before and after it, and its reply.
#[derive(Drop)]
struct Whole {
    before: String,
    after: String,
    reply: String,
}

/// The outcome of a stop: the files, the findings, and whether repeating the work gets the same
/// reply.
#[derive(Drop)]
struct Left {
    bytes: FileBytes,
    remains: Remains,
    is_repeated: bool,
}

fn try_work(alloc: Global, before: &Before, work: &Work<'_>, calls: Calls) -> Option<Ended> {
    let Visited {
        came,
        is_closed,
        bytes,
    } = visit(alloc, &before.bytes, calls, work, &before.numbers)?;
    let (attempt, reply) = match came {
        Came::NotBegun => (Attempt::NotBegun, String::new(alloc)),
        Came::Stopped => (Attempt::Stopped, String::new(alloc)),
        Came::Done(reply) if is_closed => (Attempt::Closed, reply),
        Came::Done(reply) => (Attempt::Done, reply),
        Came::Played(_) => return None,
    };
    Some(Ended {
        attempt,
        reply,
        bytes,
    })
}

fn undisturbed(alloc: Global, before: &Before, work: &Work<'_>) -> Option<Whole> {
    let first = found_in(alloc, &before.bytes, &before.numbers)?;
    let ended = try_work(alloc, before, work, Calls::all())?;
    let after = found_in(alloc, &ended.bytes, &before.numbers)?;
    if ended.attempt != Attempt::Closed || first.as_str() == after.as_str() {
        return None;
    }
    Some(Whole {
        before: first,
        after,
        reply: ended.reply,
    })
}

fn remains_of(whole: &Whole, found: &str) -> Remains {
    if found == whole.before.as_str() {
        Remains::Before
    } else if found == whole.after.as_str() {
        Remains::After
    } else {
        Remains::Other
    }
}

fn may_remain(attempt: Attempt, remains: Remains) -> bool {
    match attempt {
        Attempt::NotBegun => remains == Remains::Before,
        Attempt::Stopped => remains != Remains::Other,
        Attempt::Done | Attempt::Closed => remains == Remains::After,
    }
}

fn is_replied(
    alloc: Global,
    before: &Before,
    work: &Work<'_>,
    reply: &str,
    whole: &Whole,
    left: &FileBytes,
) -> Option<bool> {
    let (said, bytes) = said_of(alloc, left, work, &before.numbers)?;
    let found = found_in(alloc, &bytes, &before.numbers)?;
    Some(said.as_str() == reply && found.as_str() == whole.after.as_str())
}

fn is_repeated(
    alloc: Global,
    before: &Before,
    work: &Work<'_>,
    whole: &Whole,
    remains: Remains,
    left: &FileBytes,
) -> Option<bool> {
    let reply = whole.reply.as_str();
    match work {
        Work::Give(form, text, at) => {
            let repeat = Work::Repeat(*form, text, *at);
            is_replied(alloc, before, &repeat, reply, whole, left)
        }
        Work::Migrate if remains == Remains::After => {
            is_replied(alloc, before, work, "603 2", whole, left)
        }
        Work::Migrate => is_replied(alloc, before, work, reply, whole, left),
        _ => Some(true),
    }
}

fn looked_at(
    alloc: Global,
    before: &Before,
    work: &Work<'_>,
    whole: &Whole,
    last: Option<Left>,
    bytes: FileBytes,
) -> Option<Left> {
    if let Some(last) = last {
        if last.bytes.is_same(&bytes) {
            return Some(last);
        }
    }
    let found = found_in(alloc, &bytes, &before.numbers)?;
    let remains = remains_of(whole, found.as_str());
    let is_repeated = is_repeated(alloc, before, work, whole, remains, &bytes)?;
    Some(Left {
        bytes,
        remains,
        is_repeated,
    })
}

fn difference(whole: &Whole, attempt: Attempt, reply: &str, left: &Left) -> Option<&'static str> {
    let is_answered = matches!(attempt, Attempt::Done | Attempt::Closed);
    if is_answered && reply != whole.reply.as_str() {
        Some("answered otherwise")
    } else if !may_remain(attempt, left.remains) {
        Some("not before or after")
    } else if !left.is_repeated {
        Some("repeated otherwise")
    } else {
        None
    }
}

fn stops_of(
    alloc: Global,
    before: &Before,
    work: &Work<'_>,
    whole: &Whole,
    file: FailingFile,
) -> Option<Option<String>> {
    let mut last = None;
    for calls in 0..MOST_CALLS {
        let ended = try_work(alloc, before, work, Calls::of(file, calls))?;
        let (attempt, reply) = (ended.attempt, ended.reply);
        let left = looked_at(alloc, before, work, whole, last, ended.bytes)?;
        if let Some(told) = difference(whole, attempt, reply.as_str(), &left) {
            let remains = left.remains;
            let told = format!(in alloc;
                "{file:?}, {calls} calls, {attempt:?}, {remains:?}: {told}"
            );
            return Some(Some(told.ok()?));
        }
        if attempt == Attempt::Closed {
            return Some(None);
        }
        last = Some(left);
    }
    Some(Some(format!(in alloc; "{file:?}: it never came to its end").ok()?))
}

/// Runs the stops of both files.
pub fn stops(alloc: Global, before: &Before, work: &Work<'_>) -> Option<String> {
    let whole = undisturbed(alloc, before, work)?;
    if !is_repeated(alloc, before, work, &whole, Remains::Before, &before.bytes)? {
        return String::from_str(alloc, "otherwise at its first coming").ok();
    }
    for file in [FailingFile::Log, FailingFile::Database] {
        if let Some(told) = stops_of(alloc, before, work, &whole, file)? {
            return Some(told);
        }
    }
    Some(whole.reply)
}
