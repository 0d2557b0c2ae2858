//! Opening files by a list of their trees.
//! Closing files.
//! Starting a database in two empty files.

ghost use Rattle.std.specs.Prelude.{◌≡◌, ◌%◌, ℕ, false, IsTrue, IfErr, IfOk, ◌↔◌, IfSome};
ghost use Rattle.station_files.specs.Common.{outcomes, bytes_of, Image, faults, recovers, view, is_shielded, files_of, state_of, wanted_by, Describes, HasCleanDisk, IsClean, IsNew, IsFresh, IsQuiet, file_state, Finds, IsCleanLeft, IsOpened, AreClean, OnlyReads, IsBlankFile, image_of, IsEmpty, IsSound, Schema};
ghost use Rattle.station_files.specs.Listed.{FindsByList, HoldsListed, HoldsPages, IsReadByList, IsUnopened};
ghost use Rattle.station_files.specs.Opened.{IsOver, SparesFiles, IsInside, IsBegun, LeavesUnstarted};
ghost use Rattle.sqlite.specs.Held.{state};
ghost use Rattle.station_files.specs.Backing.{own_files, whole_files};

use crate::own_trees::OwnTrees;
use crate::trees::{begins_plain, named_size};
use sqlite::{Alter, Connection, Error, ErrorCode, FileStore, Leftover, Options};
use sqlite_disk::{Disk, Files};
use sqlite_pager::Pager;
use sqlite_pool::probe_blank;
use sqlite_store::{OpenError, Unopened};
use sqlite_trees::schema::Object;
use sqlite_trees::store::Store;
use sqlite_wal::PageSize;
use std::alloc::{AllocFailed, Global};

/// Returns files with pages of a size and a list of their trees, or the files if memory runs out.
pub(crate) fn with_list<D: Disk>(
    alloc: Global,
    files: Files<D>,
    size: PageSize,
    options: Options,
    objects: &[Object<'_>],
) -> Result<Unopened<D>, Files<D>>
    ensures back { IfErr result (λ left. (left.log ≡ files.log) × (left.db ≡ files.db)) }
    ensures files { IfOk result (λ it. files_of it ≡ (files.log, files.db)) }
    ensures size { IfOk result (λ it. (state_of it).page_size ≡ bytes_of size) }
    ensures list { IfOk result (λ it. Describes (wanted_by it) objects.now) }
{
    let pager = match Pager::new(alloc, files, size, options) {
        Ok(pager) => pager,
        Err(AllocFailed { value }) => return Err(value),
    };
    match Unopened::new(alloc, pager, objects) {
        Ok(it) => Ok(it),
        Err(AllocFailed { value }) => Err(value.close()),
    }
}

/// Returns files with a list of their trees, ready to be opened. Returns the files with the reason
/// if memory or the disk fails. Refuses files whose pages have checksums, or that name no page size.
pub(crate) fn unopened<D: Disk>(
    alloc: Global,
    mut files: Files<D>,
    options: Options,
    objects: &[Object<'_>],
) -> Result<Unopened<D>, (OpenError, Files<D>)>
    requires log { IsTrue (D.Disk.is_usable files.log) }
    requires db { IsTrue (D.Disk.is_usable files.db) }
    ensures unopened { IfOk result (IsUnopened files objects.now) }
    ensures back { IfErr result (λ e. (at : Image) → outcomes D.Disk e.1.log e.1.db at
        → outcomes D.Disk files.log files.db at) }
    ensures refused { IfErr result (λ e. e.0 ≡ OpenError.Refused
        → AreClean D.Disk e.1.log e.1.db
        → (n : ℕ) → HoldsPages n (image_of D.Disk files) → n % 16 ≡ 8) }
    ensures honest { IfErr result (λ e. AreClean D.Disk e.1.log e.1.db
        → AreClean D.Disk files.log files.db) }
{
    let size = match named_size(&mut files) {
        Ok(size) => size,
        Err(error) => return Err((error, files)),
    };
    match begins_plain(alloc, &mut files, size) {
        Ok(true) => {}
        Ok(false) => return Err((OpenError::Refused, files)),
        Err(error) => return Err((error, files)),
    }
    match with_list(alloc, files, size, options, objects) {
        Ok(it) => Ok(it),
        Err(left) => Err((OpenError::OutOfMemory, left)),
    }
}

/// Returns the store over two files with a database of exactly these trees, in this order, without
/// checksums.
fn store_by_list<D: Disk>(
    alloc: Global,
    files: Files<D>,
    options: Options,
    objects: &[Object<'_>],
) -> Result<FileStore<D>, (OpenError, Leftover<D>)>
    requires log { IsTrue (D.Disk.is_usable files.log) }
    requires db { IsTrue (D.Disk.is_usable files.db) }
    ensures listed { IfOk result (λ it. IsTrue (view it).is_clean
        → IsReadByList files objects.now it) }
    ensures plain { IfOk result (λ it. IsTrue (view it).is_clean → (view it).has_sums ≡ false) }
    ensures guarded { IfOk result (λ it. IsTrue (view it).is_clean → is_shielded it) }
    ensures others { IfErr result (λ e. e.0 ≡ OpenError.Refused → IsCleanLeft e.1
        → ¬ HoldsListed D.Disk files objects.now) }
    ensures spared { IfErr result (λ e. IsCleanLeft e.1 → SparesFiles files objects.now e.1) }
{
    match unopened(alloc, files, options, objects) {
        Ok(unopened) => match unopened.open_numbered() {
            Ok(it) => Ok(it),
            Err((error, left)) => Err((error, Leftover::Unopened(left))),
        },
        Err((error, left)) => Err((error, Leftover::Files(left))),
    }
}

/// Returns the reason why the library doesn't connect to a store.
pub(crate) fn unconnected(error: Error) -> OpenError
    ensures { result ≡ OpenError.Refused
        → error ≡ Error.SqliteFailure ErrorCode.NotADatabase }
{
    match error {
        Error::SqliteFailure(ErrorCode::NotADatabase) => OpenError::Refused,
        Error::SqliteFailure(ErrorCode::OutOfMemory) => OpenError::OutOfMemory,
        Error::SqliteFailure(ErrorCode::DiskFull) => OpenError::Full,
        _ => OpenError::Io,
    }
}

/// Connects to a store that was just opened, or returns the store with the error.
// One call at the concrete store, as each one costs a proof of the whole `impl Store`.
pub(crate) fn connect<D: Disk + Drop>(
    alloc: Global,
    store: FileStore<D>,
) -> Result<Connection<FileStore<D>>, (Error, FileStore<D>)>
    requires { IsClean (view store) → IsFresh (view store) }
    ensures over { IfOk result (IsOver store) }
    ensures left { IfErr result (λ e. IsQuiet view faults recovers is_shielded store e.1) }
    ensures refused { IfErr result (λ e. IsClean (view e.1)
        → e.0 ≡ Error.SqliteFailure ErrorCode.NotADatabase
        → (schema : Schema) → ¬ IsSound schema (view store).trees) }
{
    match Connection::over(alloc, store) {
        Ok(over) => Ok(over),
        Err(left) => Err(left),
    }
}

/// Opens two files with a database of exactly these trees, in this order, whose pages have no
/// checksums. It recovers the log once, while `Connection::open_files` recovers it twice: first to
/// read the list of trees.
///
/// Returns the reason, with the remains of the files; opening these finds the same content, or
/// fails again.
///
/// # Errors
///
/// `Refused` for other files, or files that aren't a database. `Io`, `Full` or `OutOfMemory` if the
/// disk, its room or memory fails: which trees the files have isn't known then.
pub fn open_listed<D: Disk + Drop>(
    alloc: Global,
    files: Files<D>,
    options: Options,
    objects: &[Object<'_>],
) -> Result<Connection<FileStore<D>>, (OpenError, Leftover<D>)>
    requires log { IsTrue (D.Disk.is_usable files.log) }
    requires db { IsTrue (D.Disk.is_usable files.db) }
    ensures opened { IfOk result (λ c. HasCleanDisk (file_state c) → IsOpened c) }
    ensures found { IfOk result (λ c. HasCleanDisk (file_state c) → Finds files c) }
    ensures by_list { IfOk result (λ c. HasCleanDisk (file_state c)
        → FindsByList files objects.now c) }
    ensures plain { IfOk result (λ c. HasCleanDisk (file_state c)
        → (view c.store).has_sums ≡ false) }
    ensures fresh { IfOk result IsNew }
    ensures guarded { IfOk result (λ c. HasCleanDisk (file_state c)
        → (file_state c).IsShielded) }
    ensures others { IfErr result (λ e. e.0 ≡ OpenError.Refused → IsCleanLeft e.1
        → ¬ HoldsListed D.Disk files objects.now) }
    ensures spared { IfErr result (λ e. IsCleanLeft e.1 → SparesFiles files objects.now e.1) }
{
    let store = store_by_list(alloc, files, options, objects)?;
    match connect(alloc, store) {
        Ok(conn) => Ok(conn),
        Err((error, store)) => Err((unconnected(error), Leftover::Store(store))),
    }
}

/// A connection over files. They are closed as `F`, or left behind in a store `L`.
pub trait FileBacked<F, L> {
    ghost use Rattle.station_files.specs.Backing.{Backing, HasEnded, IsGivenBack};

    /// The files as contracts see them: whether their disk returned what was written, what they
    /// hold once closed, and what a store that is left may leave.
    ghost backing: { Backing Self F L };

    /// Rolls back, copies the log into the database file, and returns the files.
    ///
    /// Returns the store if the log can't be copied. There is no new crash state, and each one is a
    /// database.
    fn into_files(self) -> Result<F, L>
        ensures { HasEnded backing self result };

    /// Rolls back and returns the store, without copying the log. Its crash states are among those
    /// of the connection.
    fn give_back(self) -> L
        ensures { IsGivenBack backing self result };
}

impl<D: Disk + Drop> FileBacked<Files<D>, FileStore<D>> for Connection<FileStore<D>> {
    ghost backing = { whole_files D.Disk };

    fn into_files(self) -> Result<Files<D>, FileStore<D>> {
        match self.close_files() {
            Ok(files) => Ok(files),
            Err((_, store)) => Err(store),
        }
    }

    fn give_back(self) -> FileStore<D> {
        self.into_store()
    }
}

/// Rolls back and returns the store inside.
fn inside<S: Alter + Drop>(conn: Connection<OwnTrees<S>>) -> S
    ensures { IsInside S.Store (state ⟦<OwnTrees<S> as Store>⟧ conn) result }
{
    conn.into_store().into_inner()
}

// One call at the concrete store, as each one costs a proof of the whole `impl Store`.
fn file_inside<D: Disk + Drop>(conn: Connection<OwnTrees<FileStore<D>>>) -> FileStore<D>
    ensures { IsInside ⟦<FileStore<D> as Store>⟧
        (state ⟦<OwnTrees<FileStore<D>> as Store>⟧ conn) result }
{
    inside(conn)
}

impl<D: Disk + Drop> FileBacked<Files<D>, FileStore<D>> for Connection<OwnTrees<FileStore<D>>> {
    ghost backing = { own_files D.Disk ⟦<OwnTrees<FileStore<D>> as Store>⟧ };

    fn into_files(self) -> Result<Files<D>, FileStore<D>> {
        let mut store = file_inside(self);
        // Rolls back again, as only this store's rollback has a contract about the log.
        store.rollback();
        match store.checkpoint() {
            Ok(()) => Ok(store.close()),
            Err(_) => Err(store),
        }
    }

    fn give_back(self) -> FileStore<D> {
        file_inside(self)
    }
}

/// Returns the error code if the library started no database.
fn begin_code(error: OpenError) -> ErrorCode {
    match error {
        OpenError::OutOfMemory => ErrorCode::OutOfMemory,
        OpenError::Full => ErrorCode::DiskFull,
        _ => ErrorCode::SystemIoFailure,
    }
}

/// Returns the error code if a started database can't be opened.
fn open_code(error: Error) -> ErrorCode {
    match error {
        Error::SqliteFailure(code) => code,
        _ => ErrorCode::NotADatabase,
    }
}

/// Returns the store over a database without tables, started in two files.
fn store_begun<D: Disk>(
    alloc: Global,
    files: Files<D>,
    size: PageSize,
    options: Options,
) -> Result<FileStore<D>, (ErrorCode, Leftover<D>)>
    requires log { IsTrue (D.Disk.is_usable files.log) }
    requires db { IsTrue (D.Disk.is_usable files.db) }
    ensures begun { IfOk result (λ it. IsTrue (view it).is_clean → IsBegun files it) }
    ensures plain { IfOk result (λ it. IsTrue (view it).is_clean → (view it).has_sums ≡ false) }
    ensures guarded { IfOk result (λ it. IsTrue (view it).is_clean → is_shielded it) }
    ensures unstarted { IfErr result (λ e. IsCleanLeft e.1
        → (AreClean D.Disk files.log files.db → IsBlankFile (bytes_of size) (image_of D.Disk files))
        → LeavesUnstarted (bytes_of size) files e.1) }
{
    let unopened = match with_list(alloc, files, size, options, &[]) {
        Ok(unopened) => unopened,
        Err(left) => return Err((ErrorCode::OutOfMemory, Leftover::Files(left))),
    };
    match unopened.create() {
        Ok(it) => Ok(it),
        Err((error, left)) => Err((begin_code(error), Leftover::Unopened(left))),
    }
}

/// Returns whether no database has been made in two files yet, with pages of this size.
fn is_blank<D: Disk>(alloc: Global, files: &mut Files<D>, size: PageSize) -> Result<bool, ErrorCode>
    requires log { IsTrue (D.Disk.is_usable files.old.log) }
    requires db { IsTrue (D.Disk.is_usable files.old.db) }
    ensures blank { IfOk result (λ is. AreClean D.Disk files.new.log files.new.db
        → IsTrue is ↔ IsBlankFile (bytes_of size) (image_of D.Disk files.old)) }
    ensures log { OnlyReads D.Disk files.old.log files.new.log }
    ensures db { OnlyReads D.Disk files.old.db files.new.db }
{
    match probe_blank(alloc, files, size, false) {
        Ok(is) => Ok(is),
        Err(sqlite_wal::Error::OutOfMemory) => Err(ErrorCode::OutOfMemory),
        Err(_) => Err(ErrorCode::SystemIoFailure),
    }
}

/// Starts a database without tables in two empty files, with pages of this size, and opens it.
/// Whatever stops it, the files have no database or the whole one, and the next call continues from
/// there.
///
/// Returns `None` for files that aren't empty, and leaves them as they are. The error code says
/// whether memory ran out, the disk is full, or it failed; the remains of the files are returned
/// with it.
pub fn open_new<D: Disk + Drop>(
    alloc: Global,
    mut files: Files<D>,
    size: PageSize,
    options: Options,
) -> Result<Option<Connection<FileStore<D>>>, (ErrorCode, Leftover<D>)>
    requires log { IsTrue (D.Disk.is_usable files.log) }
    requires db { IsTrue (D.Disk.is_usable files.db) }
    ensures nothing { IfOk result (λ made. IfSome made (λ c. HasCleanDisk (file_state c)
        → IsBlankFile (bytes_of size) (image_of D.Disk files))) }
    ensures empty { IfOk result (λ made. IfSome made (λ c. HasCleanDisk (file_state c)
        → IsEmpty (file_state c).committed.trees)) }
    ensures opened { IfOk result (λ made. IfSome made (λ c. HasCleanDisk (file_state c)
        → IsOpened c)) }
    ensures plain { IfOk result (λ made. IfSome made (λ c. HasCleanDisk (file_state c)
        → (view c.store).has_sums ≡ false)) }
    ensures fresh { IfOk result (λ made. IfSome made IsNew) }
    ensures guarded { IfOk result (λ made. IfSome made (λ c. HasCleanDisk (file_state c)
        → (file_state c).IsShielded)) }
    ensures unstarted { IfErr result (λ e. IsCleanLeft e.1
        → LeavesUnstarted (bytes_of size) files e.1) }
{
    match is_blank(alloc, &mut files, size) {
        Ok(true) => {}
        Ok(false) => return Ok(None),
        Err(code) => return Err((code, Leftover::Files(files))),
    }
    let store = store_begun(alloc, files, size, options)?;
    match connect(alloc, store) {
        Ok(conn) => Ok(Some(conn)),
        Err((error, store)) => Err((open_code(error), Leftover::Store(store))),
    }
}
