//! Calls over two files in memory, opened like the program opens a station's file.
use crate::calls::{Parts, ended_said, now};
use crate::words::{fault_said, words_of};
use cli_call::{FileEnd, run_file};
use cli_run::{Feed, is_migration, is_opening};
use cli_words::{Line, parse_words};
use sqlite::{Alter, Connection, FileStore, Files, Options};
use sqlite_disk::{Disk, Memory};
use sqlite_wal::PageSize;
use station_core::Counted;
use station_files::{
    FileBacked, OLD_TREES, OwnTrees, open_beside, open_listed, open_new, station_trees,
};
use std::alloc::Global;
use test_kit::{Narrow, say, shown};

#[derive(Drop)]
pub struct FileBytes {
    log: Vec<u8>,
    db: Vec<u8>,
}

/// A disk that holds bytes.
pub trait HeldDisk: Disk + Drop {
    fn holding(alloc: Global, bytes: &[u8]) -> Option<Self>;

    fn copied(&self, alloc: Global) -> Option<Vec<u8>>;
}

impl HeldDisk for Memory {
    fn holding(alloc: Global, bytes: &[u8]) -> Option<Memory> {
        let mut file = Memory::new(alloc);
        file.write_at(0, bytes).ok()?;
        file.sync().ok()?;
        Some(file)
    }

    fn copied(&self, alloc: Global) -> Option<Vec<u8>> {
        self.bytes().to_vec(alloc).ok()
    }
}

impl FileBytes {
    pub fn new(alloc: Global) -> FileBytes {
        FileBytes {
            log: Vec::new(alloc),
            db: Vec::new(alloc),
        }
    }

    fn files<D: HeldDisk>(&self, alloc: Global) -> Option<Files<D>> {
        Some(Files {
            log: D::holding(alloc, self.log.as_slice())?,
            db: D::holding(alloc, self.db.as_slice())?,
        })
    }

    fn take<D: HeldDisk>(&mut self, alloc: Global, files: &Files<D>) -> Option<()> {
        self.log = files.log.copied(alloc)?;
        self.db = files.db.copied(alloc)?;
        Some(())
    }

    fn open_any<D: HeldDisk>(&self, alloc: Global) -> Option<Connection<FileStore<D>>> {
        let files = self.files(alloc)?;
        if !files.may_be_used() {
            return None;
        }
        Connection::open_files(alloc, files, Options::new(7)).ok()
    }

    /// Opens the files by the first `made` trees of a station, in any order.
    fn open_beside<D: HeldDisk>(
        &self,
        alloc: Global,
        made: usize,
    ) -> Option<Connection<OwnTrees<FileStore<D>>>> {
        let files = self.files(alloc)?;
        if !files.may_be_used() {
            return None;
        }
        open_beside(alloc, files, Options::new(7), &station_trees(), made).ok()
    }

    /// Opens the files by the first `made` trees of a station, in order.
    fn open_in_order<D: HeldDisk>(
        &self,
        alloc: Global,
        made: usize,
    ) -> Option<Connection<FileStore<D>>> {
        let files = self.files(alloc)?;
        if !files.may_be_used() {
            return None;
        }
        let trees = station_trees();
        let first = &trees[..made.min(trees.len())];
        open_listed(alloc, files, Options::new(7), first).ok()
    }

    /// Opens files without a database.
    fn open_new<D: HeldDisk>(&self, alloc: Global) -> Option<Connection<FileStore<D>>> {
        let files = self.files(alloc)?;
        if !files.may_be_used() {
            return None;
        }
        open_new(alloc, files, PageSize::new(1024)?, Options::new(7)).ok()?
    }
}

pub fn answer<D: HeldDisk>(
    alloc: Global,
    bytes: &mut FileBytes,
    asked: &str,
    text: &[u8],
) -> Option<String> {
    match asked {
        "new-files" => {
            *bytes = FileBytes::new(alloc);
            say(alloc, "made")
        }
        "sql" => statements::<D>(alloc, bytes, shown(text)),
        "call" => call::<D>(alloc, bytes, shown(text)),
        _ => None,
    }
}

/// Runs SQL statements like another program. Returns the number of rows that the last one wrote.
fn statements<D: HeldDisk>(alloc: Global, bytes: &mut FileBytes, text: &str) -> Option<String> {
    let mut conn = bytes.open_any::<D>(alloc)?;
    let mut rows = 0;
    for statement in text.split("; ") {
        rows = conn.execute(statement, &[]).ok()?;
    }
    let files = conn.close_files().ok()?;
    bytes.take(alloc, &files)?;
    format!(in alloc; "{rows}").ok()
}

/// Runs a call, and returns how the files were opened, and its end.
fn call<D: HeldDisk>(alloc: Global, bytes: &mut FileBytes, text: &str) -> Option<String> {
    let (first, input) = text.split_once('\n').unwrap_or((text, ""));
    let words = words_of(alloc, first)?;
    match parse_words(alloc, words.as_slice()) {
        Ok(line) => run::<D>(alloc, bytes, &line, input),
        Err(fault) => fault_said(alloc, &fault),
    }
}

/// Runs a call over a connection, and returns how the files were opened, its end, and the files.
fn run_over<F: Drop, L: Drop, S: Alter + Drop>(
    alloc: Global,
    line: &Line<'_>,
    input: &str,
    how: &str,
    conn: Connection<S>,
) -> Option<(String, Result<F, L>)>
where
    Connection<S>: FileBacked<F, L>,
{
    let mut feed = Feed::new(Parts::new(input, false));
    let mut output = Counted::new(Narrow::new(alloc, usize::MAX));
    let mut errors = Counted::new(Vec::new(alloc));
    let at = now()?;
    let FileEnd {
        status,
        is_declared,
        files,
    } = run_file(alloc, line, conn, &mut feed, &mut output, &mut errors, at);
    let (taken, told) = (output.into_inner().into_taken(), errors.into_inner());
    let ended = ended_said(
        alloc,
        status,
        shown(taken.as_slice()),
        shown(told.as_slice()),
    )?;
    let declared = if is_declared { "as init" } else { "otherwise" };
    let said = format!(in alloc; "{how}, {declared}: {ended}").ok()?;
    Some((said, files))
}

/// Keeps the files of a call that closed them.
fn keep<D: HeldDisk>(
    alloc: Global,
    bytes: &mut FileBytes,
    ran: Option<(String, Result<Files<D>, FileStore<D>>)>,
) -> Option<String> {
    let (said, files) = ran?;
    if let Ok(files) = files {
        bytes.take(alloc, &files)?;
    }
    Some(said)
}

/// Runs a call over files with the first `made` trees of a station.
fn run_first<D: HeldDisk>(
    alloc: Global,
    bytes: &mut FileBytes,
    line: &Line<'_>,
    input: &str,
    made: usize,
) -> Option<String> {
    if let Some(conn) = bytes.open_in_order::<D>(alloc, made) {
        return keep(alloc, bytes, run_over(alloc, line, input, "in order", conn));
    }
    let conn = bytes.open_beside::<D>(alloc, made)?;
    keep(alloc, bytes, run_over(alloc, line, input, "beside", conn))
}

/// Runs a call over files that are opened by a list: for `migrate` also those of version 1.
fn run_by_list<D: HeldDisk>(
    alloc: Global,
    bytes: &mut FileBytes,
    line: &Line<'_>,
    input: &str,
) -> Option<String> {
    if is_opening(line) {
        return match bytes.open_new::<D>(alloc) {
            Some(conn) => keep(alloc, bytes, run_over(alloc, line, input, "new", conn)),
            None => run_first::<D>(alloc, bytes, line, input, 0),
        };
    }
    let all = station_trees().len();
    match run_first::<D>(alloc, bytes, line, input, all) {
        None if is_migration(line) => run_first::<D>(alloc, bytes, line, input, OLD_TREES),
        said => said,
    }
}

fn run<D: HeldDisk>(
    alloc: Global,
    bytes: &mut FileBytes,
    line: &Line<'_>,
    input: &str,
) -> Option<String> {
    if let Some(said) = run_by_list::<D>(alloc, bytes, line, input) {
        return Some(said);
    }
    let conn = bytes.open_any::<D>(alloc)?;
    keep(alloc, bytes, run_over(alloc, line, input, "library", conn))
}
