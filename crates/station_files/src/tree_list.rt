//! Lists of trees: those of a list, and those of other programs.
ghost use Rattle.std.specs.Prelude.{◌≡◌, ◌+◌, pos, ◌∷◌, [], find, option_copied, IsTrue};
ghost use Rattle.station_files.specs.Common.{column, owned, has_rowid, is_present, text_or_null, wanted_of};

use sqlite_trees::schema::Object;
use sqlite_trees::sound::{is_text_only, is_word};
use sqlite_trees::store::Shape;
use sqlite_value::keys::Order;
use sqlite_value::order::{compare, is_same};
use sqlite_value::row::Row;
use sqlite_value::value::ValueRef;
use std::alloc::{AllocError, Global};

/// The rows of a list of trees without their roots, and the layout of each tree.
#[derive(Drop)]
pub(crate) struct TreeList {
    pub(crate) rows: Vec<Row>,
    pub(crate) layouts: Vec<(Shape, u64)>,
}

/// The list of all trees of files, and the numbers of the objects.
#[derive(Drop)]
pub(crate) struct AllTrees {
    pub(crate) list: TreeList,
    pub(crate) numbers: Vec<u32>,
}

pub(crate) fn is_present(shape: Shape) -> bool
    ensures { result ≡ is_present shape }
{
    !matches!(shape, Shape::Absent)
}

fn text_or_null(sql: Option<&str>) -> ValueRef<'_>
    ensures { owned result ≡ text_or_null sql.entry }
{
    match sql {
        Some(text) => ValueRef::Text(text.as_bytes()),
        None => ValueRef::Null,
    }
}

/// Returns whether a row has the type, name, table and text of an object.
pub(crate) fn is_object(object: &Object<'_>, row: &Row) -> bool
    ensures { IsTrue result → column row.now 1 ∷ column row.now 2 ∷ column row.now 3
        ∷ column row.now 4 ∷ [] ≡ (wanted_of object.now).row }
{
    is_same(row.get(1), ValueRef::Text(object.kind.as_bytes()))
        && is_same(row.get(2), ValueRef::Text(object.name.as_bytes()))
        && is_same(row.get(3), ValueRef::Text(object.table.as_bytes()))
        && is_same(row.get(4), text_or_null(object.sql))
}

pub(crate) fn has_number(row: &Row, number: u32) -> bool
    ensures { result ≡ has_rowid (pos (number + 1)) row.now }
{
    compare(row.get(0), ValueRef::Int(i64::from(number) + 1)).is_eq()
}

pub(crate) fn row_of(rows: &[Row], number: u32) -> Option<&Row>
    ensures { option_copied result ≡ find (has_rowid (pos (number + 1))) rows.now }
{
    rows.iter().find(|row| has_number(row, number))
}

/// Returns the number of a row's tree.
fn number_of(row: &Row) -> Option<u32> {
    match row.get(0) {
        ValueRef::Int(id) if 1 <= id && id <= 65536 => Some((id - 1) as u32),
        _ => None,
    }
}

/// Returns the rowid of the tree at a position of a list.
fn id_at(place: usize) -> i64 {
    i64::try_from(place).map_or(i64::MAX, |at| at.saturating_add(1))
}

/// Returns the row of a tree with this rowid, type, name, table and text.
fn described(
    alloc: Global,
    id: i64,
    kind: ValueRef<'_>,
    name: ValueRef<'_>,
    table: ValueRef<'_>,
    sql: ValueRef<'_>,
) -> Result<Row, AllocError> {
    let mut row = Row::new(alloc);
    row.push(ValueRef::Int(id))?;
    row.push(kind)?;
    row.push(name)?;
    row.push(table)?;
    row.push(sql)?;
    Ok(row)
}

fn row_for(alloc: Global, id: i64, object: &Object<'_>) -> Result<Row, AllocError> {
    described(
        alloc,
        id,
        ValueRef::Text(object.kind.as_bytes()),
        ValueRef::Text(object.name.as_bytes()),
        ValueRef::Text(object.table.as_bytes()),
        text_or_null(object.sql),
    )
}

/// Returns a row of sqlite_schema without its root.
fn without_root(alloc: Global, id: i64, entry: &Row) -> Result<Row, AllocError> {
    described(
        alloc,
        id,
        entry.get(1),
        entry.get(2),
        entry.get(3),
        entry.get(5),
    )
}

/// Returns the shape of another program's tree, which is only read. A tree without pages that isn't
/// described fully by its text, such as a virtual table, has none.
fn other_shape(entry: &Row, has_index_root: bool) -> Option<Shape> {
    if is_text_only(entry.get(1)) {
        return Some(Shape::Pageless);
    }
    if is_same(entry.get(4), ValueRef::Int(0)) {
        return None;
    }
    if has_index_root || is_word(b"index", entry.get(1)) {
        return Some(Shape::FrozenIndex(Order::PLAIN));
    }
    Some(Shape::FrozenTable)
}

impl TreeList {
    fn new(alloc: Global) -> TreeList {
        TreeList {
            rows: Vec::new(alloc),
            layouts: Vec::new(alloc),
        }
    }

    fn add(&mut self, row: Row, shape: Shape, reals: u64) -> Result<(), AllocError> {
        self.rows.push(row)?;
        self.layouts.push((shape, reals))?;
        Ok(())
    }
}

/// Returns the list of the objects, followed by the other trees in sqlite_schema. It is made from
/// its rows, and from whether the root of each begins an index.
fn list_own_first(
    alloc: Global,
    objects: &[Object<'_>],
    entries: &[Row],
    index_roots: &[bool],
) -> Result<TreeList, AllocError> {
    let mut list = TreeList::new(alloc);
    for (at, object) in objects.iter().enumerate() {
        let row = row_for(alloc, id_at(at), object)?;
        list.add(row, object.shape, object.reals)?;
    }
    for (at, entry) in entries.iter().enumerate() {
        let row = without_root(alloc, id_at(list.rows.len()), entry)?;
        if objects.iter().any(|object| is_object(object, &row)) {
            continue;
        }
        let has_index_root = index_roots.get(at).copied().unwrap_or(false);
        if let Some(shape) = other_shape(entry, has_index_root) {
            list.add(row, shape, 0)?;
        }
    }
    Ok(list)
}

/// Returns the layout of a tree: as an object, or as one of another program.
fn layout_of(
    objects: &[Object<'_>],
    row: &Row,
    entry: &Row,
    has_index_root: bool,
) -> Option<(Shape, u64)> {
    match objects.iter().find(|object| is_object(object, row)) {
        Some(object) => Some((object.shape, object.reals)),
        None => Some((other_shape(entry, has_index_root)?, 0)),
    }
}

/// Returns the list of all trees in sqlite_schema, in its order and with its numbers. It is `None`
/// if one of them has neither pages nor a text that describes it fully.
fn list_in_order(
    alloc: Global,
    objects: &[Object<'_>],
    entries: &[Row],
    index_roots: &[bool],
) -> Result<Option<TreeList>, AllocError> {
    let mut list = TreeList::new(alloc);
    for (at, entry) in entries.iter().enumerate() {
        let Some(number) = number_of(entry) else {
            return Ok(None);
        };
        let row = without_root(alloc, i64::from(number) + 1, entry)?;
        let has_index_root = index_roots.get(at).copied().unwrap_or(false);
        let Some((shape, reals)) = layout_of(objects, &row, entry, has_index_root) else {
            return Ok(None);
        };
        list.add(row, shape, reals)?;
    }
    Ok(Some(list))
}

/// Returns the numbers of the first `made` objects in the rows, and free ones for the rest.
fn numbers_of(
    alloc: Global,
    objects: &[Object<'_>],
    made: usize,
    rows: &[Row],
) -> Result<Option<Vec<u32>>, AllocError> {
    let mut numbers = Vec::new(alloc);
    let mut free = rows
        .iter()
        .filter_map(number_of)
        .max()
        .map_or(0, |last| last.saturating_add(1));
    for (at, object) in objects.iter().enumerate() {
        if at >= made {
            numbers.push(free)?;
            free = free.saturating_add(1);
            continue;
        }
        let Some(number) = rows
            .iter()
            .find(|row| is_object(object, row))
            .and_then(number_of)
        else {
            return Ok(None);
        };
        numbers.push(number)?;
    }
    Ok(Some(numbers))
}

/// Returns the list of all trees in sqlite_schema, made from its rows, and from whether the root of
/// each begins an index. It is in the order of sqlite_schema if trees are to be made, otherwise
/// with the objects first. It is `None` if one of the first `made` is missing.
pub(crate) fn all_trees(
    alloc: Global,
    objects: &[Object<'_>],
    made: usize,
    entries: &[Row],
    index_roots: &[bool],
) -> Result<Option<AllTrees>, AllocError> {
    let list = if made < objects.len() {
        list_in_order(alloc, objects, entries, index_roots)?
    } else {
        Some(list_own_first(alloc, objects, entries, index_roots)?)
    };
    let Some(list) = list else {
        return Ok(None);
    };
    match numbers_of(alloc, objects, made, list.rows.as_slice())? {
        Some(numbers) => Ok(Some(AllTrees { list, numbers })),
        None => Ok(None),
    }
}
