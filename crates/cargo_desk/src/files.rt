//! The file of a station.

use cli_call::DeskFault;
use cli_run::RunFault;
use sqlite::{Connection, Error, ErrorCode, File, Leftover, Options, Unknown};
use sqlite_disk::Tally;
use sqlite_wal::PageSize;
use station_files::{Connected, StationFiles, open_new, open_station, open_vacant};
use station_tables::AttachFault;
use std::hash::{BuildHasher, RandomState};
use std::io::{ErrorKind, Read};
use std::{fs, io};

/// The page size of a new file in bytes. The library's default is 4,096, but a commit logs each
/// changed page in full.
const PAGE_LEN: usize = 1024;

/// The smallest and the largest number of pages in the cache.
const LEAST_CACHE: u64 = 2000;

const MOST_CACHE: u64 = 65_536;

/// A connection to a station's file.
pub type FileConnection = StationFiles<File>;

/// The reason why a file isn't opened.
#[derive(Clone, Copy)]
pub enum FileFault {
    /// The file is missing or empty, or a database was only started in it.
    NoStation,
    /// Another program has it open.
    Busy,
    /// Memory ran out.
    Memory,
    /// The file can't be read or written, or isn't a database.
    Store(ErrorCode),
}

impl FileFault {
    /// Returns the fault of the call.
    pub fn ended(self) -> DeskFault {
        match self {
            FileFault::NoStation => DeskFault::Attach(AttachFault::NoStation),
            FileFault::Memory => DeskFault::Run(RunFault::Memory),
            FileFault::Busy | FileFault::Store(_) => DeskFault::Run(RunFault::Store),
        }
    }
}

/// The two files of a path aren't opened.
impl From<sqlite_std_file::OpenError> for FileFault {
    fn from(error: sqlite_std_file::OpenError) -> FileFault {
        match error {
            sqlite_std_file::OpenError::OutOfMemory => FileFault::Memory,
            sqlite_std_file::OpenError::Busy => FileFault::Busy,
            _ => FileFault::Store(ErrorCode::CannotOpen),
        }
    }
}

/// The library opens no database.
impl From<Error> for FileFault {
    fn from(error: Error) -> FileFault {
        match error {
            Error::SqliteFailure(ErrorCode::OutOfMemory) => FileFault::Memory,
            Error::SqliteFailure(ErrorCode::DatabaseBusy) => FileFault::Busy,
            Error::SqliteFailure(code) => FileFault::Store(code),
            _ => FileFault::Store(ErrorCode::NotADatabase),
        }
    }
}

/// Opens a path that the library doesn't take as that of a file.
fn open_named(rt: &HostRuntime, path: &str) -> Result<FileConnection, FileFault> {
    Ok(Connected::Whole(Connection::open(rt, path)?))
}

/// Returns whether the library doesn't take the name as that of a file.
fn is_no_file(path: &str) -> bool {
    path == ":memory:" || path.starts_with("file:")
}

/// Gives an opened connection the clock, or returns the fault.
fn connected(
    rt: &HostRuntime,
    opened: Result<FileConnection, (Error, Leftover<File>)>,
) -> Result<FileConnection, FileFault> {
    match opened {
        Ok(Connected::Whole(mut conn)) => {
            conn.set_clock(rt);
            Ok(Connected::Whole(conn))
        }
        Ok(Connected::Beside(mut conn)) => {
            conn.set_clock(rt);
            Ok(Connected::Beside(conn))
        }
        Err((error, _left)) => Err(FileFault::from(error)),
    }
}

/// Opens a file with a database.
fn open(rt: &HostRuntime, path: &str, is_migration: bool) -> Result<FileConnection, FileFault> {
    if is_no_file(path) {
        return open_named(rt, path);
    }
    let options = options(rt, path)?;
    let files = sqlite_std_file::open(rt, path, Unknown)?;
    connected(rt, open_station(rt.alloc(), files, options, is_migration))
}

/// Returns whether the first byte of a file is 0.
fn begins_with_zero(rt: &HostRuntime, path: &str) -> io::Result<bool> {
    let mut first = [1];
    fs::File::open(rt, path)?.read(&mut first)?;
    Ok(first[0] == 0)
}

/// Returns whether a path has no file, an empty one, or one in which a database was started: its
/// first byte is written last.
fn is_blank(rt: &HostRuntime, path: &str) -> io::Result<bool> {
    match fs::metadata(rt, path) {
        Ok(found) if !found.is_file() || found.len() > PAGE_LEN as u64 => Ok(false),
        Ok(found) => Ok(found.len() == 0 || begins_with_zero(rt, path)?),
        Err(error) if error.kind() == ErrorKind::NotFound => Ok(true),
        Err(error) => Err(error),
    }
}

/// Returns the number of pages in the cache: a fifth of the file's. An opening finds each row by
/// its key, so the keys must fit, or each look-up reads a page again.
fn cache_for(rt: &HostRuntime, path: &str) -> usize {
    let pages = match fs::metadata(rt, path) {
        Ok(found) => found.len() / PAGE_LEN as u64,
        Err(_) => 0,
    };
    (pages / 5).max(LEAST_CACHE).min(MOST_CACHE) as usize
}

/// Returns the options of a file: the size of the cache, and a random number for the salts of its
/// log.
fn options(rt: &HostRuntime, path: &str) -> Result<Options, FileFault> {
    match RandomState::new(rt) {
        Ok(state) => {
            let usual = Options::new(state.hash_one(&0u8));
            Ok(Options {
                cache_pages: cache_for(rt, path),
                spill_pages: usual.spill_pages,
                checkpoint_frames: usual.checkpoint_frames,
                seed: usual.seed,
            })
        }
        Err(_) => Err(FileFault::Store(ErrorCode::SystemIoFailure)),
    }
}

/// Opens a file in which something stands, so that the trees of a station can be made in it.
fn open_unfinished(rt: &HostRuntime, path: &str) -> Result<FileConnection, FileFault> {
    let options = options(rt, path)?;
    let files = sqlite_std_file::open(rt, path, Unknown)?;
    connected(rt, open_vacant(rt.alloc(), files, options))
}

/// Opens a file for a new station, or creates it if it is missing or empty. Whatever stops it, the
/// file has no database or the whole one, and the next call continues from there.
pub fn make_file(rt: &HostRuntime, path: &str) -> Result<FileConnection, FileFault> {
    if is_no_file(path) {
        return open_named(rt, path);
    }
    let size = PageSize::new(PAGE_LEN).unwrap();
    let options = options(rt, path)?;
    let files = sqlite_std_file::open(rt, path, Unknown)?;
    match open_new(rt.alloc(), files, size, options) {
        Ok(Some(conn)) => connected(rt, Ok(Connected::Whole(conn))),
        Ok(None) => open_unfinished(rt, path),
        Err((ErrorCode::OutOfMemory, _left)) => Err(FileFault::Memory),
        Err((code, _left)) => Err(FileFault::Store(code)),
    }
}

/// Opens an existing file. A missing or empty one has no station, and is left as it is.
pub fn open_file(
    rt: &HostRuntime,
    path: &str,
    is_migration: bool,
) -> Result<FileConnection, FileFault> {
    match is_blank(rt, path) {
        Ok(true) => Err(FileFault::NoStation),
        Ok(false) => open(rt, path, is_migration),
        Err(_) => Err(FileFault::Store(ErrorCode::CannotOpen)),
    }
}

/// Returns the folder of a path, if it doesn't exist.
fn missing_folder<'a>(rt: &HostRuntime, path: &'a str) -> Option<&'a str> {
    let (folder, _) = path.rsplit_once('/')?;
    if folder.is_empty() || fs::metadata(rt, folder).is_ok() {
        return None;
    }
    Some(folder)
}

/// Writes that a file has no station, or that there is no such folder.
fn tell_no_station(rt: &HostRuntime, path: &str) -> io::Result<()> {
    match missing_folder(rt, path) {
        Some(folder) => eprint!(rt; "{path}: there is no folder {folder}\n"),
        None => eprint!(rt; "{path}: no station is in this file; init makes one\n"),
    }
}

/// Writes the reason why a file isn't opened, after the line of its fault. The library doesn't keep
/// the system's reason, so the file is opened again to get it.
pub fn tell_unopened(rt: &HostRuntime, path: &str, fault: FileFault) {
    let _told = match fault {
        FileFault::Memory => Ok(()),
        FileFault::NoStation => tell_no_station(rt, path),
        FileFault::Busy => eprint!(rt;
            "{path}: another program has this file; wait until that ends, or ask the service that has \
            it by --at PORT\n"
        ),
        FileFault::Store(ErrorCode::CannotOpen) => match fs::File::open(rt, path) {
            Ok(_) => eprint!(rt; "{path}: it can't be opened for reading and writing\n"),
            Err(error) => eprint!(rt; "{path}: {error}\n"),
        },
        FileFault::Store(code) => eprint!(rt; "{path}: {code}\n"),
    };
}

/// Writes where to find what to do, after the line of a fault of a file without a station for the
/// command.
pub fn tell_help(rt: &HostRuntime, path: &str) {
    let _told = eprint!(rt; "{path}: `cargo_desk help` with this number says what to do\n");
}

/// Writes how the disk failed, after the line of a store's fault: a write found no room, or a read
/// gave other bytes than were written. Writes nothing if the library saw neither.
pub fn tell_disk(rt: &HostRuntime, path: &str, tally: Tally) {
    let _told = if tally.caught > 0 {
        eprint!(rt; "{path}: the disk returned other bytes than were written; restore a back-up\n")
    } else if tally.refused > 0 {
        eprint!(rt; "{path}: the disk is full; make room, and start again\n")
    } else {
        Ok(())
    };
}
