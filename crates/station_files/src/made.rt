//! Opening a station's files by the list of its trees: in order, or else among other trees; and as
//! the library does, if they have none of these.
ghost use Rattle.std.specs.Prelude.{◌≡◌, ◌≤◌, ◌∷◌, IfErr, IfOk, List, [], length, take};
ghost use Rattle.sqlite.specs.Closing.{files_left};
ghost use Rattle.station_files.specs.Common.{AreClean, IsCleanLeft, Object};
ghost use Rattle.station_files.specs.Opened.{ListsStation, SparesFiles, WereRefused};
ghost use Rattle.station_files.specs.Ways.{IsConnected, IsOpened, SparesAll, SparesStation, is_listed, tries};

use crate::beside::open_beside;
use crate::opening::open_listed;
use crate::own_trees::OwnTrees;
use crate::trees::{OLD_TREES, station_trees};
use sqlite::{Connection, Error, ErrorCode, FileStore, Leftover, Options};
use sqlite_disk::{Disk, Files, Tally};
use sqlite_store::OpenError;
use sqlite_trees::schema::Object;
use sqlite_trees::store::Store;
use std::alloc::Global;

/// Two files `F` that were opened by a list of trees, as a connection `W` or `B`.
pub enum Shown<W, B, F> {
    /// Shows the whole file, in the order of the list.
    Whole(W),
    /// Shows the trees of the list, in any order and beside others.
    Beside(B),
    /// The files have other trees.
    Neither(F),
}

/// What `open_made` returns.
pub type ShownFiles<D> = Shown<
    Connection<FileStore<D>>,
    Connection<OwnTrees<FileStore<D>>>,
    Files<D>,
>;

/// Returns whether an opening that gave up had accepted the list of trees.
fn is_listed<D: Disk>(left: &Leftover<D>) -> bool
    ensures { result ≡ is_listed left.now }
{
    matches!(left, Leftover::Store(_))
}

/// Returns the files that an opening refused; `Err` if it had accepted their list.
fn refused<D: Disk + Drop>(left: Leftover<D>) -> Result<Files<D>, Files<D>>
    ensures again { IfOk result (λ now. (files : _) (objects : _)
        → (IsCleanLeft left → SparesFiles files objects left) → WereRefused D.Disk files now) }
    ensures clean { IfOk result (λ now. AreClean D.Disk now.log now.db → IsCleanLeft left) }
    ensures last { IfErr result (λ last. (last.log, last.db) ≡ files_left left) }
{
    let listed = is_listed(&left);
    let files = left.into_files();
    if listed { Err(files) } else { Ok(files) }
}

/// Opens two files with a database of the first `made` objects, whose pages have no checksums. If
/// they are all that it has, in order, it recovers the log once. Otherwise it opens the same files
/// again, as `open_beside` does. Nothing is closed in between, so no other program gets the files.
///
/// Returns the files if they have other trees.
///
/// # Errors
///
/// `Io`, `Full` or `OutOfMemory` if the disk, its room or memory fails: which trees the files have
/// isn't known then, and no other way is tried. Opening the remains finds the same content, or
/// fails again.
pub fn open_made<D: Disk + Drop>(
    alloc: Global,
    files: Files<D>,
    options: Options,
    objects: &[Object<'_>],
    made: usize,
) -> Result<ShownFiles<D>, (OpenError, Leftover<D>)>
    requires { made ≤ length objects.now }
    ensures opened { IfOk result (IsOpened
        ⟦<OwnTrees<FileStore<D>> as Store>⟧ files objects.now made) }
    ensures spared { IfErr result (λ e. SparesStation files (take made objects.now) e.1) }
{
    if !files.may_be_used() {
        return Err((OpenError::Io, Leftover::Files(files)));
    }
    let left = match open_listed(alloc, files, options, &objects[..made]) {
        Ok(conn) => return Ok(Shown::Whole(conn)),
        Err((OpenError::Refused, left)) => left,
        Err(failed) => return Err(failed),
    };
    let again = match refused(left) {
        Ok(again) => again,
        Err(last) => return Ok(Shown::Neither(last)),
    };
    if !again.may_be_used() {
        return Err((OpenError::Io, Leftover::Files(again)));
    }
    match open_beside(alloc, again, options, objects, made) {
        Ok(conn) => Ok(Shown::Beside(conn)),
        Err((OpenError::Refused, left)) => Ok(Shown::Neither(left.into_files())),
        Err(failed) => Err(failed),
    }
}

/// A connection to two files: `W` or `B`.
pub enum Connected<W, B> {
    /// Shows the whole file.
    Whole(W),
    /// Shows the trees of a list, in any order and beside others.
    Beside(B),
}

/// What `open_station` returns.
pub type StationFiles<D> = Connected<Connection<FileStore<D>>, Connection<OwnTrees<FileStore<D>>>>;

/// Returns what the failed calls of the files met.
fn tally_of<D: Disk>(left: &Leftover<D>) -> Tally {
    match left {
        Leftover::Files(files) => files.tally(),
        Leftover::Unopened(files) => files.tally(),
        Leftover::Store(store) => store.tally(),
    }
}

/// Returns the library's error if memory or the disk failed at an opening by a list of trees. What
/// the calls of the disk met names it.
fn error_of<D: Disk>(error: OpenError, left: &Leftover<D>) -> Error {
    let tally = tally_of(left);
    Error::SqliteFailure(match error {
        OpenError::OutOfMemory => ErrorCode::OutOfMemory,
        OpenError::Refused => ErrorCode::NotADatabase,
        OpenError::Full => ErrorCode::DiskFull,
        OpenError::Io if tally.caught > 0 => ErrorCode::DatabaseCorrupt,
        OpenError::Io if tally.refused > 0 => ErrorCode::DiskFull,
        OpenError::Io => ErrorCode::SystemIoFailure,
    })
}

/// Opens two files with a database, whatever its trees.
fn open_any<D: Disk + Drop>(
    alloc: Global,
    files: Files<D>,
    options: Options,
) -> Result<StationFiles<D>, (Error, Leftover<D>)>
    ensures opened { IfOk result (λ it. (objects : List Object) → IsConnected
        ⟦<OwnTrees<FileStore<D>> as Store>⟧ files objects [] it) }
    ensures spared { IfErr result (λ e. (objects : List Object) → SparesAll files objects [] e.1) }
{
    if !files.may_be_used() {
        let failed = Error::SqliteFailure(ErrorCode::SystemIoFailure);
        return Err((failed, Leftover::Files(files)));
    }
    match Connection::open_files(alloc, files, options) {
        Ok(conn) => Ok(Connected::Whole(conn)),
        Err(failed) => Err(failed),
    }
}

/// Opens two files by the first `made` trees of a list, and any other ones as the library does.
fn open_first<D: Disk + Drop>(
    alloc: Global,
    files: Files<D>,
    options: Options,
    objects: &[Object<'_>],
    made: usize,
) -> Result<StationFiles<D>, (Error, Leftover<D>)>
    requires { made ≤ length objects.now }
    ensures opened { IfOk result (IsConnected ⟦<OwnTrees<FileStore<D>> as Store>⟧ files
        objects.now (made ∷ [])) }
    ensures spared { IfErr result (λ e. SparesAll files
        objects.now (made ∷ []) e.1) }
{
    match open_made(alloc, files, options, objects, made) {
        Ok(Shown::Whole(conn)) => Ok(Connected::Whole(conn)),
        Ok(Shown::Beside(conn)) => Ok(Connected::Beside(conn)),
        Ok(Shown::Neither(files)) => open_any(alloc, files, options),
        Err((error, left)) => Err((error_of(error, &left), left)),
    }
}

/// Opens two files for a new station: as ones without trees, or beside those of other programs; and
/// any others as the library does.
///
/// # Errors
///
/// As for `open_station`.
pub fn open_vacant<D: Disk + Drop>(
    alloc: Global,
    files: Files<D>,
    options: Options,
) -> Result<StationFiles<D>, (Error, Leftover<D>)>
    ensures opened { IfOk result (λ it. (trees : List Object) × ListsStation trees × IsConnected
        ⟦<OwnTrees<FileStore<D>> as Store>⟧ files trees (0 ∷ []) it) }
    ensures spared { IfErr result (λ e. (trees : List Object) × ListsStation trees
        × SparesAll files trees (0 ∷ []) e.1) }
{
    let trees = station_trees();
    open_first(alloc, files, options, &trees, 0)
}

/// Opens two files of a station: by the trees that `init` makes; for an upgrade, if they have
/// others, by those of version 1; and last, if they have others still, as the library does. Nothing
/// is closed in between.
///
/// # Errors
///
/// The library's error if the disk, its room or memory fails, or if it refuses the files. Opening
/// the remains finds the same content, or fails again.
pub fn open_station<D: Disk + Drop>(
    alloc: Global,
    files: Files<D>,
    options: Options,
    is_upgrade: bool,
) -> Result<StationFiles<D>, (Error, Leftover<D>)>
    ensures opened { IfOk result (λ it. (trees : List Object) × ListsStation trees × IsConnected
        ⟦<OwnTrees<FileStore<D>> as Store>⟧ files trees (tries is_upgrade) it) }
    ensures spared { IfErr result (λ e. (trees : List Object) × ListsStation trees
        × SparesAll files trees (tries is_upgrade) e.1) }
{
    let trees = station_trees();
    if !is_upgrade {
        return open_first(alloc, files, options, &trees, trees.len());
    }
    match open_made(alloc, files, options, &trees, trees.len()) {
        Ok(Shown::Whole(conn)) => Ok(Connected::Whole(conn)),
        Ok(Shown::Beside(conn)) => Ok(Connected::Beside(conn)),
        Ok(Shown::Neither(files)) => open_first(alloc, files, options, &trees, OLD_TREES),
        Err((error, left)) => Err((error_of(error, &left), left)),
    }
}
