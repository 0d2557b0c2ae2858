//! Files in memory that fail from a call on, and work over them.
use crate::errands::Came;
use crate::work::Work;
use awb_number::Awb;
use sqlite::{Connection, FileStore, Files, Options};
use sqlite_disk::{Crash, Disk, Fuse, Memory};
use std::alloc::Global;

/// A file in memory that serves a number of calls, and whose bytes can be read.
trait FailingDisk: Crash + Drop {
    fn holding(alloc: Global, bytes: &[u8], calls: u64) -> Option<Self>;

    fn crashed(self, alloc: Global) -> Option<Vec<u8>>;
}

impl FailingDisk for Fuse<Memory> {
    fn holding(alloc: Global, bytes: &[u8], calls: u64) -> Option<Fuse<Memory>> {
        let mut memory = Memory::new(alloc);
        memory.write_at(0, bytes).ok()?;
        memory.sync().ok()?;
        Some(Fuse::new(memory, calls))
    }

    fn crashed(self, alloc: Global) -> Option<Vec<u8>> {
        let mut file = self;
        file.crash();
        file.inner().bytes().to_vec(alloc).ok()
    }
}

/// The bytes of a log and of a database file.
#[derive(Drop)]
pub struct FileBytes {
    pub log: Vec<u8>,
    pub db: Vec<u8>,
}

impl FileBytes {
    /// Returns empty files.
    pub fn new(alloc: Global) -> FileBytes {
        FileBytes {
            log: Vec::new(alloc),
            db: Vec::new(alloc),
        }
    }

    /// Returns whether both files have the same bytes as others.
    pub fn is_same(&self, other: &FileBytes) -> bool {
        self.log.as_slice() == other.log.as_slice() && self.db.as_slice() == other.db.as_slice()
    }
}

/// The number of calls that each of two files serves.
#[derive(Clone, Copy)]
pub struct Calls {
    log: u64,
    db: u64,
}

impl Calls {
    /// Never fails.
    pub fn all() -> Calls {
        Calls {
            log: u64::MAX,
            db: u64::MAX,
        }
    }

    /// Fails one file after this many calls.
    pub fn of(file: FailingFile, calls: u64) -> Calls {
        match file {
            FailingFile::Log => Calls {
                log: calls,
                db: u64::MAX,
            },
            FailingFile::Database => Calls {
                log: u64::MAX,
                db: calls,
            },
        }
    }
}

/// The file that fails.
#[derive(Clone, Copy, Debug)]
pub enum FailingFile {
    Log,
    Database,
}

/// The result of work over files, and their bytes after a crash.
#[derive(Drop)]
pub struct Visited {
    pub came: Came,
    /// True if the log was copied into the database file.
    pub is_closed: bool,
    pub bytes: FileBytes,
}

fn bytes_of<D: FailingDisk>(alloc: Global, files: Files<D>) -> Option<FileBytes> {
    let Files { log, db } = files;
    Some(FileBytes {
        log: log.crashed(alloc)?,
        db: db.crashed(alloc)?,
    })
}

fn open_files<D: FailingDisk>(
    alloc: Global,
    bytes: &FileBytes,
    calls: Calls,
) -> Option<Result<Connection<FileStore<D>>, FileBytes>> {
    let files: Files<D> = Files {
        log: D::holding(alloc, bytes.log.as_slice(), calls.log)?,
        db: D::holding(alloc, bytes.db.as_slice(), calls.db)?,
    };
    if !files.may_be_used() {
        return Some(Err(bytes_of(alloc, files)?));
    }
    match Connection::open_files(alloc, files, Options::new(7)) {
        Ok(conn) => Some(Ok(conn)),
        Err((_, left)) => Some(Err(bytes_of(alloc, left.into_files())?)),
    }
}

fn ended<D: FailingDisk>(conn: Connection<FileStore<D>>, is_closed: bool) -> (bool, Files<D>) {
    if !is_closed {
        return (false, conn.into_store().close());
    }
    match conn.close_files() {
        Ok(files) => (true, files),
        Err((_, store)) => (false, store.close()),
    }
}

fn visit_over<D: FailingDisk>(
    alloc: Global,
    bytes: &FileBytes,
    calls: Calls,
    work: &Work<'_>,
    numbers: &[Awb],
) -> Option<Visited> {
    let conn = match open_files::<D>(alloc, bytes, calls)? {
        Ok(conn) => conn,
        Err(bytes) => {
            return Some(Visited {
                came: Came::NotBegun,
                is_closed: false,
                bytes,
            });
        }
    };
    let (came, conn) = work.run(alloc, conn, numbers);
    let (is_closed, files) = ended(conn, work.is_closed_after(&came));
    let bytes = bytes_of(alloc, files)?;
    Some(Visited {
        came: came?,
        is_closed,
        bytes,
    })
}

/// Does the same over files in memory that serve this many calls.
pub fn visit(
    alloc: Global,
    bytes: &FileBytes,
    calls: Calls,
    work: &Work<'_>,
    numbers: &[Awb],
) -> Option<Visited> {
    visit_over::<Fuse<Memory>>(alloc, bytes, calls, work, numbers)
}

/// Returns the result of work that nothing stops, and the crash state afterwards.
pub fn said_of(
    alloc: Global,
    bytes: &FileBytes,
    work: &Work<'_>,
    numbers: &[Awb],
) -> Option<(String, FileBytes)> {
    let Visited {
        came,
        is_closed: _,
        bytes,
    } = visit(alloc, bytes, Calls::all(), work, numbers)?;
    match came {
        Came::Done(said) => Some((said, bytes)),
        _ => None,
    }
}

/// Returns what an opening finds in files.
pub fn found_in(alloc: Global, bytes: &FileBytes, numbers: &[Awb]) -> Option<String> {
    Some(said_of(alloc, bytes, &Work::Find, numbers)?.0)
}
