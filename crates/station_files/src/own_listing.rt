//! Comparing the trees of a store with a list.
ghost use Rattle.std.specs.Prelude.{◌≡◌, ◌<◌, ◌+◌, pos, false, map, take, length, find, if◌then◌else◌, [], IsTrue, IfOk};
ghost use Rattle.station_files.specs.Common.{list_all, catalog_tree, has_rowid, IsClean, wanted_of, listed, listed_from, rows_from, shown_row};
ghost use Rattle.station_files.specs.Opened.{is_about, is_known, is_one_of, AreBeside};

use crate::tree_list::{has_number, is_object, is_present, row_of};
use sqlite_trees::schema::Object;
use sqlite_trees::sound::{bytes_of, same_name};
use sqlite_trees::store::Alter;
use sqlite_value::row::Row;
use std::alloc::{AllocError, Global};

fn is_there<S: Alter>(store: &S, rows: &[Row], object: &Object<'_>, number: u32) -> bool
    ensures { IsTrue result → IsClean (S.Store.view store.now)
        → (S.Store.view store.now).is_broken ≡ false
        → rows.now ≡ map (take 5) ((S.Store.view store.now).trees catalog_tree) → (tree : _)
        → shown_row tree (find (has_rowid (pos (number + 1)))
        ((S.Store.view store.now).trees catalog_tree))
        ≡ listed tree (wanted_of object.now) object.now.shape }
{
    match row_of(rows, number) {
        Some(row) => {
            is_present(object.shape)
                && is_object(object, row)
                && store.shape(number) == object.shape
                && store.reals(number) == object.reals
        }
        None => false,
    }
}

/// Returns whether a store has this object under this number, or no tree there if it isn't made
/// yet.
fn is_placed<S: Alter>(
    store: &S,
    rows: &[Row],
    object: &Object<'_>,
    number: u32,
    is_made: bool,
) -> bool
    ensures { IsTrue result → IsClean (S.Store.view store.now)
        → (S.Store.view store.now).is_broken ≡ false
        → rows.now ≡ map (take 5) ((S.Store.view store.now).trees catalog_tree) → (tree : _)
        → shown_row tree (find (has_rowid (pos (number + 1)))
        ((S.Store.view store.now).trees catalog_tree))
        ≡ (if is_made then listed tree (wanted_of object.now) object.now.shape else []) }
{
    if is_made {
        is_there(store, rows, object, number)
    } else {
        row_of(rows, number).is_none()
    }
}

/// Returns whether the first `made` objects are in the store under `numbers`, in order, and the
/// others aren't in it.
fn are_there<S: Alter>(
    store: &S,
    rows: &[Row],
    objects: &[Object<'_>],
    made: usize,
    numbers: &[u32],
) -> bool
    requires { length numbers.now ≡ length objects.now }
    ensures { IsTrue result → IsClean (S.Store.view store.now)
        → (S.Store.view store.now).is_broken ≡ false
        → rows.now ≡ map (take 5) ((S.Store.view store.now).trees catalog_tree)
        → rows_from 0 numbers.now ((S.Store.view store.now).trees catalog_tree)
        ≡ listed_from 0 (map wanted_of (take made objects.now)) }
{
    for (at, object) in objects.iter().enumerate() {
        if !is_placed(store, rows, object, numbers[at], at < made) {
            return false;
        }
    }
    true
}

fn is_about(objects: &[Object<'_>], row: &Row) -> bool
    ensures { result ≡ is_about objects.now row.now }
{
    let (table, name) = (bytes_of(row.get(3)), bytes_of(row.get(2)));
    objects.iter().any(|o| same_name(o.table.as_bytes(), table)
        || same_name(o.name.as_bytes(), name))
}

fn is_one_of(numbers: &[u32], row: &Row) -> bool
    ensures { result ≡ is_one_of numbers.now row.now }
{
    numbers.iter().any(|n| has_number(row, *n))
}

fn is_known(row: &Row, objects: &[Object<'_>], numbers: &[u32]) -> bool
    ensures { result ≡ is_known objects.now numbers.now row.now }
{
    is_one_of(numbers, row) || !is_about(objects, row)
}

/// Returns whether `is_known` holds for every row.
fn are_known(rows: &[Row], objects: &[Object<'_>], numbers: &[u32]) -> bool
    ensures { result ≡ list_all (is_known objects.now numbers.now) rows.now }
{
    rows.iter().all(|row| is_known(row, objects, numbers))
}

/// Returns whether the first `made` objects are in the store under `numbers`, in order, the others
/// aren't in it, and no other tree belongs to their tables. Fails if memory runs out.
pub(crate) fn are_beside<S: Alter>(
    alloc: Global,
    store: &S,
    objects: &[Object<'_>],
    made: usize,
    numbers: &[u32],
) -> Result<bool, AllocError>
    ensures { IfOk result (λ are. IsTrue are → IsClean (S.Store.view store.now)
        → (S.Store.view store.now).is_broken ≡ false
        → AreBeside objects.now made numbers.now ((S.Store.view store.now).trees catalog_tree)) }
{
    let rows = store.objects(alloc)?;
    if numbers.len() != objects.len() {
        return Ok(false);
    }
    if !are_there(store, rows.as_slice(), objects, made, numbers) {
        return Ok(false);
    }
    Ok(are_known(rows.as_slice(), objects, numbers))
}
