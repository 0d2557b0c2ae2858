//! Files with trees of other programs besides those of a list.
ghost use Rattle.std.specs.Prelude.{◌≡◌, ◌≢◌, ◌⊎◌, ◌<◌, ℕ, ◌+◌, map, take, length, slice_index, false, [], ◌∷◌, ◌++◌, IsTrue, IfOk, IfErr, IfSome, OnOk};
ghost use Rattle.station_files.specs.Common.{AllByRecursion, Text, column, catalog_tree, Trees, IsClean, OutOfMemory, Absent, IsFresh, as_numbered, number_inside, own_trees, own_view, renumbered, rows_from, AreApart, AreLaidOut, IsNumberOf, IsShown, GoBack};
ghost use Rattle.sqlite_trees.specs.declared.error.StoreError.{StoreError as Failure};
ghost use Rattle.station_files.specs.Others.{SparesOthers};

use crate::tree_list::row_of;
use shown_trees::Layout;
use sqlite_store::OpenError;
use sqlite_trees::error::StoreError;
use sqlite_trees::schema::Object;
use sqlite_trees::store::{Alter, Direction, Shape, Store};
use sqlite_value::order::is_same;
use sqlite_value::row::Row;
use sqlite_value::value::ValueRef;
use std::alloc::{AllocError, Global};

/// A store that shows some trees of another, numbered by their position in a list, and hides the
/// rest. It makes trees of the list that are missing, if the other store is numbered, and drops
/// none.
pub struct OwnTrees<S: Alter> {
    store: S,
    /// The number of each tree in the other store.
    numbers: Vec<u32>,
    /// The layouts of the trees now, and at the last commit.
    layouts: Vec<Layout>,
    before: Vec<Layout>,
    makes: bool,
    alloc: Global,
    ghost inside: { IsShown numbers.items layouts.items before.items makes (S.Store.view store) },
}

// Written out, so that callers needn't prove again how each part is dropped.
impl<S: Alter + Drop> Drop for OwnTrees<S> {
    fn drop(self) {
        let OwnTrees {
            store: _,
            numbers: _,
            layouts: _,
            before: _,
            makes: _,
            alloc: _,
        } = self;
    }
}

/// Returns whether the number at `at` occurs before it.
fn comes_before(numbers: &[u32], at: usize) -> bool
    requires { at < length numbers.now }
    ensures { result ≡ false → (s : ℕ) → s < at
        → slice_index numbers.now s ≢ slice_index numbers.now at }
{
    numbers[..at].contains(&numbers[at])
}

fn are_apart(numbers: &[u32]) -> bool
    ensures { IsTrue result → AreApart numbers.now }
{
    if numbers.len() >= 65536 {
        return false;
    }
    for at in 0..numbers.len() {
        if numbers[at] >= 65536 || comes_before(numbers, at) {
            return false;
        }
    }
    true
}

fn layout_of<S: Alter>(store: &S, number: u32) -> Layout
    ensures shaped { result.shape ≡ (S.Store.view store.now).shape number }
    ensures typed { result.reals ≡ (S.Store.view store.now).reals number }
{
    let (shape, reals) = (store.shape(number), store.reals(number));
    Layout { shape, reals }
}

fn lay_out_each<S: Alter>(store: &S, numbers: &[u32], layouts: &mut [Layout])
    requires few { length numbers.now < 65536 }
    requires all { length layouts.old ≡ length numbers.now }
    ensures all { length layouts.new ≡ length layouts.old }
    ensures shown { AreLaidOut numbers.now layouts.new
        (S.Store.view store.now).shape (S.Store.view store.now).reals }
{
    for at in 0..numbers.len() {
        layouts[at] = layout_of(store, numbers[at]);
    }
}

fn lay_out<S: Alter>(store: &S, numbers: &Vec<u32>, layouts: &mut Vec<Layout>)
    requires few { length numbers.now.items < 65536 }
    requires all { length layouts.old.items ≡ length numbers.now.items }
    ensures all { length layouts.new.items ≡ length layouts.old.items }
    ensures shown { AreLaidOut numbers.now.items layouts.new.items
        (S.Store.view store.now).shape (S.Store.view store.now).reals }
{
    lay_out_each(store, numbers, layouts);
}

fn layouts_of<S: Alter>(
    alloc: Global,
    store: &S,
    numbers: &Vec<u32>,
) -> Result<Vec<Layout>, AllocError>
    requires { length numbers.now.items < 65536 }
    ensures all { IfOk result (λ layouts. length layouts.items ≡ length numbers.now.items) }
    ensures shown { IfOk result (λ layouts. AreLaidOut numbers.now.items layouts.items
        (S.Store.view store.now).shape (S.Store.view store.now).reals) }
{
    let none = Layout {
        shape: Shape::Absent,
        reals: 0,
    };
    let mut layouts = Vec::from_elem(alloc, none, numbers.len())?;
    lay_out(store, numbers, &mut layouts);
    Ok(layouts)
}

/// Restores the layouts of the last commit, unless the store is shut.
fn go_back<S: Alter>(store: &S, layouts: &mut Vec<Layout>, before: &Vec<Layout>)
    requires { length layouts.old.items ≡ length before.now.items }
    ensures { GoBack layouts.old.items before.now.items layouts.new.items (S.Store.view store.now) }
{
    if !store.is_broken() {
        layouts.copy_from_slice(before);
    }
}

/// Returns the first five columns of a tree's row, under this number.
fn renumber(alloc: Global, tree: usize, row: &Row) -> Result<Row, AllocError>
    requires { tree < 65536 }
    ensures { IfOk result (λ new. new ≡ take 5 (renumbered tree row.now)) }
{
    let mut new = Row::new(alloc);
    new.push(ValueRef::Int(tree as i64 + 1))?;
    new.push(row.get(1))?;
    new.push(row.get(2))?;
    new.push(row.get(3))?;
    new.push(row.get(4))?;
    Ok(new)
}

fn is_named(rows: &[Row], name: &str) -> bool
    ensures { result ≡ false → AllByRecursion (λ r. column r 2 ≢ Text name.now) rows.now }
{
    rows.iter()
        .any(|row| is_same(row.get(2), ValueRef::Text(name.as_bytes())))
}

/// Appends the first five columns of a tree's row, if there is one.
fn push_row(
    alloc: Global,
    own: &mut Vec<Row>,
    tree: usize,
    number: u32,
    rows: &[Row],
) -> Result<(), AllocError>
    requires { tree < 65536 }
    ensures { OnOk result ((all : _) → rows.now ≡ map (take 5) all → own.new.items
        ≡ own.old.items ++ map (take 5) (rows_from tree (number ∷ []) all)) }
{
    match row_of(rows, number) {
        None => Ok(()),
        Some(row) => {
            own.push(renumber(alloc, tree, row)?)?;
            Ok(())
        }
    }
}

/// Returns the first five columns of the rows of the trees with these numbers, numbered by their
/// position.
fn own_rows(alloc: Global, numbers: &[u32], rows: &[Row]) -> Result<Vec<Row>, AllocError>
    requires { length numbers.now < 65536 }
    ensures { IfOk result (λ own. (all : _) → rows.now ≡ map (take 5) all
        → own.items ≡ map (take 5) (rows_from 0 numbers.now all)) }
{
    let mut own = Vec::new(alloc);
    for tree in 0..numbers.len() {
        push_row(alloc, &mut own, tree, numbers[tree], rows)?;
    }
    Ok(own)
}

impl<S: Alter> OwnTrees<S> {
    /// Shows the trees with these numbers of a store that was just opened. If `makes`, trees can be
    /// made at numbers that are free there. Refuses numbers of which two are the same, or one is too
    /// large. Returns the store with the reason.
    pub fn new(
        alloc: Global,
        store: S,
        numbers: Vec<u32>,
        makes: bool,
    ) -> Result<OwnTrees<S>, (OpenError, S)>
        requires fresh { IsClean (S.Store.view store)
            → IsFresh (as_numbered (S.Store.view store)) }
        requires numbered { IsTrue makes → IsClean (S.Store.view store)
            → IsTrue (S.Store.view store).is_numbered }
        ensures same { IfOk result (λ it. it.store ≡ store) }
        ensures numbers { IfOk result (λ it. it.numbers ≡ numbers) }
        ensures back { IfErr result (λ e. e.1 ≡ store) }
    {
        if !are_apart(&numbers) {
            return Err((OpenError::Refused, store));
        }
        let Ok(layouts) = layouts_of(alloc, &store, &numbers) else {
            return Err((OpenError::OutOfMemory, store));
        };
        let Ok(before) = layouts_of(alloc, &store, &numbers) else {
            return Err((OpenError::OutOfMemory, store));
        };
        Ok(OwnTrees {
            store,
            numbers,
            layouts,
            before,
            makes,
            alloc,
        })
    }

    /// Returns the store inside.
    pub fn into_inner(self) -> S
        ensures { result ≡ self.store }
    {
        let OwnTrees {
            store,
            numbers: _,
            layouts: _,
            before: _,
            makes: _,
            alloc: _,
        } = self;
        store
    }

    /// Returns the inner number of a tree that is shown.
    fn number_of(&self, tree: u32) -> Option<u32>
        ensures { IfSome result (IsNumberOf self.now.numbers.items self.now.layouts.items
            (S.Store.view self.now.store) tree) }
    {
        let number = *self.numbers.get(tree as usize)?;
        let layout = self.layouts.get(tree as usize)?;
        if self.store.shape(number) == layout.shape && self.store.reals(number) == layout.reals {
            Some(number)
        } else {
            None
        }
    }

    /// Returns the inner number of a tree that can be made: no tree of another program has its
    /// name.
    fn free_number(&self, tree: u32, name: &str) -> Option<u32>
        ensures number { IfSome result (IsNumberOf self.now.numbers.items self.now.layouts.items
            (S.Store.view self.now.store) tree) }
        ensures numbered { IfSome result (λ _. IsClean (S.Store.view self.now.store)
            → IsTrue (S.Store.view self.now.store).is_numbered) }
        ensures unnamed { IfSome result (λ _. IsClean (S.Store.view self.now.store)
            → AllByRecursion (λ r. column r 2 ≢ Text name.now)
            ((S.Store.view self.now.store).trees catalog_tree)) }
    {
        if !self.makes {
            return None;
        }
        let Ok(rows) = self.store.objects(self.alloc) else {
            return None;
        };
        if is_named(rows.as_slice(), name) {
            return None;
        }
        self.number_of(tree)
    }
}

impl<S: Alter> Store for OwnTrees<S> {
    ghost use Rattle.std.proofs.Common.{refl, ap, ◌∙◌};
    ghost use Rattle.std.proofs.Math.Logic.{∥∥₁_map};
    ghost use Rattle.shown_trees.proofs.Laws.{own_nothing, view_ordered, view_unaltered};

    ghost view = { λ it. own_view it.numbers.items it.layouts.items it.before.items
        (S.Store.view it.store) };

    ghost faults = { λ it. S.Store.faults it.store };

    ghost recovers = { λ it db. (whole : Trees) × S.Store.recovers it.store whole
        × (db ≡ own_trees it.numbers.items whole) };

    ghost is_shielded = { λ it. S.Store.is_shielded it.store };

    ghost is_step = { λ old new tree.
        (S.Store.is_step old.store new.store (number_inside old.numbers.items tree)
        ⊎ (new.store ≡ old.store)) × SparesOthers S.Store old.numbers.items old.store new.store
        × (new.numbers ≡ old.numbers) };

    ghost blamed = { λ it. S.Store.blamed it.store };

    ghost names = { λ old new e. S.Store.names old.store new.store e ⊎ (e ≡ OutOfMemory) };

    ghost ordered = { λ it sound. view_ordered it.inside (S.Store.shut_if_dirty it.store)
        (S.Store.broken_if_shut it.store) sound (S.Alter.listed it.store sound)
        (S.Store.ordered it.store sound) };

    ghost shut_if_dirty = { λ it. S.Store.shut_if_dirty it.store };

    ghost empty_if_dirty = { λ it dirty. let empty = S.Store.empty_if_dirty it.store dirty in
        let nothing = own_nothing it.numbers.items in (
          ap (own_trees it.numbers.items) empty.0 ∙ nothing,
          ap (own_trees it.numbers.items) empty.1 ∙ nothing,
        ) };

    ghost broken_if_shut = { λ it. S.Store.broken_if_shut it.store };

    ghost settled = { λ it db is_open may. may.2
        ∙ ap (own_trees it.numbers.items) (S.Store.settled it.store may.0 is_open may.1) };

    ghost stays = { λ it is_open. (
      (S.Store.view it.store).committed,
      S.Store.stays it.store is_open,
      refl,
    ) };

    ghost survives = { λ it clean. ∥∥₁_map (S.Store.survives it.store clean)
        (λ left. (own_trees it.numbers.items left.0, (left.0, left.1, refl))) };

    ghost unaltered = { λ it sound. view_unaltered it.inside (S.Store.shut_if_dirty it.store)
        (S.Store.broken_if_shut it.store) sound (S.Alter.listed it.store sound) };

    fn is_broken(&self) -> bool {
        self.store.is_broken()
    }

    fn shape(&self, tree: u32) -> Shape {
        match self.layouts.get(tree as usize) {
            Some(layout) => layout.shape,
            None => Shape::Absent,
        }
    }

    fn tree_count(&self) -> u64 {
        let mut count = self.layouts.len();
        while count > 0 && self.layouts[count - 1].shape == Shape::Absent {
            count -= 1;
        }
        count as u64
    }

    fn reals(&self, tree: u32) -> u64 {
        match self.layouts.get(tree as usize) {
            Some(layout) => layout.reals,
            None => 0,
        }
    }

    fn seek(
        &mut self,
        cursor: u16,
        tree: u32,
        key: &Row,
        direction: Direction,
    ) -> Result<(), StoreError> {
        let Some(number) = self.number_of(tree) else {
            return Err(StoreError::OutOfMemory);
        };
        self.store.seek(cursor, number, key, direction)
    }

    fn next(&mut self, cursor: u16, row: &mut Row) -> Result<bool, StoreError> {
        self.store.next(cursor, row)
    }

    fn get(&mut self, table: u32, id: i64, row: &mut Row) -> Result<bool, StoreError> {
        let Some(number) = self.number_of(table) else {
            return Err(StoreError::OutOfMemory);
        };
        self.store.get(number, id, row)
    }

    #[tactic(auto, using(crate::proofs::Others::spares_set))]
    fn put(&mut self, table: u32, row: &Row) -> Result<(), StoreError> {
        let Some(number) = self.number_of(table) else {
            return Err(StoreError::OutOfMemory);
        };
        self.store.put(number, row)
    }

    #[tactic(auto, using(crate::proofs::Others::spares_set))]
    fn delete(&mut self, table: u32, id: i64) -> Result<(), StoreError> {
        let Some(number) = self.number_of(table) else {
            return Err(StoreError::OutOfMemory);
        };
        self.store.delete(number, id)
    }

    #[tactic(auto, using(crate::proofs::Others::spares_set))]
    fn insert(&mut self, index: u32, entry: &Row) -> Result<(), StoreError> {
        let Some(number) = self.number_of(index) else {
            return Err(StoreError::OutOfMemory);
        };
        self.store.insert(number, entry)
    }

    #[tactic(auto, using(crate::proofs::Others::spares_set))]
    fn remove(&mut self, index: u32, entry: &Row) -> Result<(), StoreError> {
        let Some(number) = self.number_of(index) else {
            return Err(StoreError::OutOfMemory);
        };
        self.store.remove(number, entry)
    }

    fn commit(&mut self) -> Result<(), StoreError> {
        match self.store.commit() {
            Ok(()) => {
                self.before.copy_from_slice(&self.layouts);
                Ok(())
            }
            Err(error) => {
                go_back(&self.store, &mut self.layouts, &self.before);
                Err(error)
            }
        }
    }

    fn rollback(&mut self) {
        self.store.rollback();
        go_back(&self.store, &mut self.layouts, &self.before);
    }

    fn savepoint(&mut self) -> Result<(), StoreError> {
        self.store.savepoint()
    }

    fn release(&mut self) -> Result<(), StoreError> {
        self.store.release()
    }

    fn rollback_to(&mut self) -> Result<(), StoreError> {
        match self.store.rollback_to() {
            Ok(()) => {
                lay_out(&self.store, &self.numbers, &mut self.layouts);
                Ok(())
            }
            Err(error) => Err(error),
        }
    }
}

impl<S: Alter> Alter for OwnTrees<S> {
    ghost use Rattle.shown_trees.proofs.Laws.{view_listed};

    ghost listed = { λ it sound. view_listed it.inside (S.Store.shut_if_dirty it.store)
        (S.Store.broken_if_shut it.store) sound (S.Alter.listed it.store sound) };

    fn objects(&self, alloc: Global) -> Result<Vec<Row>, AllocError> {
        let rows = self.store.objects(alloc)?;
        own_rows(alloc, &self.numbers, rows.as_slice())
    }

    fn create(&mut self, tree: u32, object: &Object<'_>) -> Result<(), StoreError> {
        let Some(number) = self.free_number(tree, object.name) else {
            return Err(StoreError::OutOfMemory);
        };
        match self.store.create(number, object) {
            Ok(()) => {
                lay_out(&self.store, &self.numbers, &mut self.layouts);
                Ok(())
            }
            // The hidden rows may be the reason.
            Err(StoreError::Unstorable) => Err(StoreError::OutOfMemory),
            Err(error) => Err(error),
        }
    }

    fn destroy(&mut self, _tree: u32) -> Result<(), StoreError> {
        Err(StoreError::OutOfMemory)
    }

    fn relist(&mut self, _changes: &[(u32, Object<'_>)]) -> Result<(), StoreError> {
        Err(StoreError::OutOfMemory)
    }

    fn version(&self) -> u32 {
        self.store.version()
    }

    fn set_version(&mut self, version: u32) -> Result<(), StoreError> {
        self.store.set_version(version)
    }
}
