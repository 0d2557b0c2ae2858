//! Files with trees of other programs besides those of a list.
ghost use Rattle.std.specs.Prelude.{◌≡◌, ◌⊎◌, ◌<◌, ◌≤◌, false, ℕ, List, length, take, IsTrue, IfErr, IfOk};
ghost use Rattle.station_files.specs.Common.{PageMap, Recovers, view, is_shielded, IsReady, image, state_of, AreUsable, Opens, catalog_tree, Trees, doubt, IsClean, IsShielded, IsCleanLeft, IsNew, HasCleanDisk, IsLive, IsFresh, as_numbered, own_trees, AreLow};
ghost use Rattle.sqlite_store.specs.FileStore.{state as store_state};
ghost use Rattle.sqlite.specs.Held.{state};
ghost use Rattle.sqlite.specs.State.{Opens as IsAtRest};
ghost use Rattle.station_files.specs.Opened.{AreBeside, FindsOwn, IsReadByTheirs, SparesOwn};

use crate::opening::{unconnected, unopened};
use crate::own_listing::are_beside;
use crate::own_trees::OwnTrees;
use crate::tree_list::all_trees;
use sqlite::{Alter, Connection, FileStore, Leftover, Options};
use sqlite_disk::{Disk, Files};
use sqlite_store::{OpenError, Unopened};
use sqlite_trees::schema::Object;
use sqlite_trees::store::Store;
use sqlite_value::row::Row;
use std::alloc::Global;

/// Returns the rows of sqlite_schema, and for each whether its root begins an index.
fn read_entries<D: Disk>(files: &mut Unopened<D>) -> Result<(Vec<Row>, Vec<bool>), OpenError>
    requires { AreUsable files.old }
    ensures usable { IfOk result (λ _. AreUsable files.new) }
    ensures honest { IsTrue (state_of files.new).is_clean → IsTrue (state_of files.old).is_clean }
    ensures found { IsTrue (state_of files.new).is_clean → IfOk result (λ _. (pages : PageMap)
        × Recovers (state_of files.old).page_size (image files.old) pages
        × Recovers (state_of files.old).page_size (image files.new) pages) }
    ensures kept { IsTrue (state_of files.new).is_clean → Opens files.old (state_of files.new) }
{
    let entries = files.read_catalog()?;
    let roots = files.index_roots(entries.as_slice())?;
    Ok((entries, roots))
}

/// Gives the files the list of all their trees. Returns the numbers of the first `made` objects,
/// and free ones for the rest, which can be made. Refuses files without one of the first, and fails
/// if memory or the disk does.
fn list_trees<D: Disk>(
    alloc: Global,
    files: &mut Unopened<D>,
    objects: &[Object<'_>],
    made: usize,
) -> Result<Vec<u32>, OpenError>
    requires { AreUsable files.old }
    ensures usable { IfOk result (λ _. AreUsable files.new) }
    ensures honest { IsTrue (state_of files.new).is_clean → IsTrue (state_of files.old).is_clean }
    ensures found { IsTrue (state_of files.new).is_clean → IfOk result (λ _. (pages : PageMap)
        × Recovers (state_of files.old).page_size (image files.old) pages
        × Recovers (state_of files.old).page_size (image files.new) pages) }
    ensures kept { IsTrue (state_of files.new).is_clean → Opens files.old (state_of files.new) }
{
    let (entries, roots) = read_entries(files)?;
    let all = match all_trees(alloc, objects, made, entries.as_slice(), roots.as_slice()) {
        Ok(Some(all)) => all,
        Ok(None) => return Err(OpenError::Refused),
        Err(_) => return Err(OpenError::OutOfMemory),
    };
    if all.list.layouts.len() != all.list.rows.len() {
        return Err(OpenError::Refused);
    }
    match files.list_schema(all.list.rows.as_slice(), all.list.layouts.as_slice()) {
        Ok(true) => Ok(all.numbers),
        Ok(false) => Err(OpenError::Refused),
        Err(_) => Err(OpenError::OutOfMemory),
    }
}

/// Opens files by their list. If `makes`, the list is numbered like the files, and trees can be
/// made.
fn open_as<D: Disk>(
    files: Unopened<D>,
    makes: bool,
) -> Result<FileStore<D>, (OpenError, Unopened<D>)>
    requires { AreUsable files }
    ensures ready { IfOk result IsReady }
    ensures numbered { IfOk result (λ it. IsTrue makes → IsTrue (view it).is_numbered) }
    ensures honest { IfOk result (λ it. IsTrue (store_state it).is_clean
        → IsTrue (state_of files).is_clean) }
    ensures guarded { IfOk result (λ it. IsTrue (store_state it).is_clean
        → IsShielded (store_state it)) }
    ensures found { IfOk result (λ it. IsTrue (store_state it).is_clean
        → Recovers (state_of files).page_size (image files) (store_state it).committed) }
    ensures kept { IfOk result (λ it. IsTrue (store_state it).is_clean
        → Opens files (store_state it)) }
    ensures unharmed { IfErr result (λ e. IsTrue (state_of e.1).is_clean
        → Opens files (state_of e.1)) }
    ensures falls { IfErr result (λ e. IsTrue (state_of e.1).is_clean
        → IsTrue (state_of files).is_clean) }
{
    if makes {
        files.open_numbered()
    } else {
        files.open()
    }
}

/// Opens files with a database of the first `made` objects and other trees. Returns their numbers
/// too.
fn open_all<D: Disk>(
    alloc: Global,
    mut files: Unopened<D>,
    objects: &[Object<'_>],
    made: usize,
) -> Result<(FileStore<D>, Vec<u32>), (OpenError, Unopened<D>)>
    requires { AreUsable files }
    ensures ready { IfOk result (λ r. IsReady r.0) }
    ensures numbered { IfOk result (λ r. made < length objects.now
        → IsTrue (view r.0).is_numbered) }
    ensures honest { IfOk result (λ r. IsTrue (store_state r.0).is_clean
        → IsTrue (state_of files).is_clean) }
    ensures guarded { IfOk result (λ r. IsTrue (store_state r.0).is_clean
        → IsShielded (store_state r.0)) }
    ensures found { IfOk result (λ r. IsTrue (store_state r.0).is_clean
        → Recovers (state_of files).page_size (image files) (store_state r.0).committed) }
    ensures kept { IfOk result (λ r. IsTrue (store_state r.0).is_clean
        → Opens files (store_state r.0)) }
    ensures unharmed { IfErr result (λ e. IsTrue (state_of e.1).is_clean
        → Opens files (state_of e.1)) }
    ensures falls { IfErr result (λ e. IsTrue (state_of e.1).is_clean
        → IsTrue (state_of files).is_clean) }
{
    let numbers = match list_trees(alloc, &mut files, objects, made) {
        Ok(numbers) => numbers,
        Err(error) => return Err((error, files)),
    };
    match open_as(files, made < objects.len()) {
        Ok(it) => Ok((it, numbers)),
        Err(left) => Err(left),
    }
}

/// Returns the store over two files with a database of the first `made` objects and other trees,
/// without checksums, and their numbers.
fn store_beside<D: Disk>(
    alloc: Global,
    files: Files<D>,
    options: Options,
    objects: &[Object<'_>],
    made: usize,
) -> Result<(FileStore<D>, Vec<u32>), (OpenError, Leftover<D>)>
    requires log { IsTrue (D.Disk.is_usable files.log) }
    requires db { IsTrue (D.Disk.is_usable files.db) }
    ensures read { IfOk result (λ r. IsTrue (view r.0).is_clean → IsReadByTheirs files r.0) }
    ensures numbered { IfOk result (λ r. made < length objects.now
        → IsTrue (view r.0).is_numbered) }
    ensures plain { IfOk result (λ r. IsTrue (view r.0).is_clean
        → (view r.0).has_sums ≡ false) }
    ensures guarded { IfOk result (λ r. IsTrue (view r.0).is_clean → is_shielded r.0) }
    ensures spared { IfErr result (λ e. IsCleanLeft e.1
        → SparesOwn files (take made objects.now) e.1) }
{
    match unopened(alloc, files, options, &[]) {
        Ok(unopened) => match open_all(alloc, unopened, objects, made) {
            Ok(found) => Ok(found),
            Err((error, left)) => Err((error, Leftover::Unopened(left))),
        },
        Err((error, left)) => Err((error, Leftover::Files(left))),
    }
}

/// Connects to the trees with these numbers in a store that was just opened. Refuses them if they
/// aren't the first `made` objects, if another tree belongs to one of their tables, or if the
/// library does. Returns the store with the reason.
fn connect_own<S: Alter + Drop>(
    alloc: Global,
    store: S,
    objects: &[Object<'_>],
    made: usize,
    numbers: Vec<u32>,
) -> Result<Connection<OwnTrees<S>>, (OpenError, S)>
    requires fresh { IsClean (S.Store.view store)
        → IsFresh (as_numbered (S.Store.view store)) }
    requires numbered { made < length objects.now → IsClean (S.Store.view store)
        → IsTrue (S.Store.view store).is_numbered }
    ensures opens { IfOk result (λ c. HasCleanDisk (state ⟦<OwnTrees<S> as Store>⟧ c)
        → IsAtRest (state ⟦<OwnTrees<S> as Store>⟧ c)
        × IsLive (state ⟦<OwnTrees<S> as Store>⟧ c)) }
    ensures clean { IfOk result (λ c. doubt (S.Store.view store).is_clean
        ≤ doubt (state ⟦<OwnTrees<S> as Store>⟧ c).is_clean) }
    ensures shield { IfOk result (λ c. S.Store.is_shielded store
        → (state ⟦<OwnTrees<S> as Store>⟧ c).IsShielded) }
    ensures trees { IfOk result (λ c. HasCleanDisk (state ⟦<OwnTrees<S> as Store>⟧ c)
        → (state ⟦<OwnTrees<S> as Store>⟧ c).now.trees
        ≡ own_trees numbers.items (S.Store.view store).trees) }
    ensures few { IfOk result (λ _. length numbers.items < 65536) }
    ensures low { IfOk result (λ _. AreLow numbers.items) }
    ensures beside { IfOk result (λ c. HasCleanDisk (state ⟦<OwnTrees<S> as Store>⟧ c)
        → AreBeside objects.now made numbers.items ((S.Store.view store).trees catalog_tree)) }
    ensures sums { IfOk result (λ c. HasCleanDisk (state ⟦<OwnTrees<S> as Store>⟧ c)
        → (⟦<OwnTrees<S> as Store>⟧.view c.store).has_sums ≡ (S.Store.view store).has_sums) }
    ensures fresh { IfOk result IsNew }
    ensures clean_left { IfErr result (λ e. doubt (S.Store.view store).is_clean
        ≤ doubt (S.Store.view e.1).is_clean) }
    ensures left { IfErr result (λ e. IsClean (S.Store.view e.1) → (db : Trees)
        → S.Store.recovers e.1 db → S.Store.recovers store db ⊎ ((kept : List ℕ) × (whole : Trees)
        × S.Store.recovers store whole × (own_trees kept db ≡ own_trees numbers.items whole)
        × (length numbers.items < 65536) × AreLow numbers.items
        × AreBeside objects.now made numbers.items ((S.Store.view store).trees catalog_tree))) }
{
    match are_beside(alloc, &store, objects, made, numbers.as_slice()) {
        Ok(true) => {}
        Ok(false) => return Err((OpenError::Refused, store)),
        Err(_) => return Err((OpenError::OutOfMemory, store)),
    }
    let own = match OwnTrees::new(alloc, store, numbers, made < objects.len()) {
        Ok(own) => own,
        Err(left) => return Err(left),
    };
    match Connection::over(alloc, own) {
        Ok(conn) => Ok(conn),
        Err((error, left)) => Err((unconnected(error), left.into_inner())),
    }
}

/// Opens two files with a database of the first `made` objects, in any order, none of the rest, and
/// trees of other programs, whose pages have no checksums. It shows only the first ones, numbered
/// by their list. The rest can be made, in order; no other tree is made or dropped. It gives up if
/// another tree has a name of these, or belongs to one of their tables, such as an index: a write
/// wouldn't update it.
///
/// Returns the reason, with the remains of the files; opening these finds the same content, or
/// fails again.
///
/// # Errors
///
/// As for `open_listed`.
pub fn open_beside<D: Disk + Drop>(
    alloc: Global,
    files: Files<D>,
    options: Options,
    objects: &[Object<'_>],
    made: usize,
) -> Result<Connection<OwnTrees<FileStore<D>>>, (OpenError, Leftover<D>)>
    requires log { IsTrue (D.Disk.is_usable files.log) }
    requires db { IsTrue (D.Disk.is_usable files.db) }
    ensures opened { IfOk result (λ c.
        HasCleanDisk (state ⟦<OwnTrees<FileStore<D>> as Store>⟧ c)
        → IsAtRest (state ⟦<OwnTrees<FileStore<D>> as Store>⟧ c)
        × IsLive (state ⟦<OwnTrees<FileStore<D>> as Store>⟧ c)) }
    ensures found { IfOk result (λ c.
        HasCleanDisk (state ⟦<OwnTrees<FileStore<D>> as Store>⟧ c)
        → FindsOwn D.Disk files objects.now made
        (state ⟦<OwnTrees<FileStore<D>> as Store>⟧ c)) }
    ensures plain { IfOk result (λ c.
        HasCleanDisk (state ⟦<OwnTrees<FileStore<D>> as Store>⟧ c)
        → (⟦<OwnTrees<FileStore<D>> as Store>⟧.view c.store).has_sums ≡ false) }
    ensures fresh { IfOk result IsNew }
    ensures guarded { IfOk result (λ c.
        HasCleanDisk (state ⟦<OwnTrees<FileStore<D>> as Store>⟧ c)
        → (state ⟦<OwnTrees<FileStore<D>> as Store>⟧ c).IsShielded) }
    ensures spared { IfErr result (λ e. IsCleanLeft e.1
        → SparesOwn files (take made objects.now) e.1) }
{
    let (store, numbers) = store_beside(alloc, files, options, objects, made)?;
    match connect_own(alloc, store, objects, made, numbers) {
        Ok(conn) => Ok(conn),
        Err((error, store)) => Err((error, Leftover::Store(store))),
    }
}
