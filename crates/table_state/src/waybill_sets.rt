//! The waybills that may have pieces in store, those that may have pieces missing or found, and
//! those of which nothing may have come in.
ghost use Rattle.std.specs.Prelude.{◌≡◌, ◌∷◌, [], ◌++◌, true, map, ℕ, List, Some, IfOk, IfSome};
ghost use Rattle.table_state.specs.Common.{filter, insert_key, is_in, is_asked_for, nat_cmp, AreAnnounced, Cargo, Declared};
ghost use Rattle.shipment_machine.specs.declared.moves.Move as cargo;
ghost use Rattle.table_state.specs.Shown.{Declarations, HasAnnounced, HasAsked, HaveAsked, declaring, opens, takes_back};

use awb_number::Awb;
use shipment_machine::{Move, Place};
use state_store::{StoreFault, WaybillQuery};
use station_core::{AnnouncedRow, WaybillBalances};
use std::alloc::Global;
use std::collections::BTreeSet;

/// The numbers of the waybills with pieces in store, of those with pieces missing or found, and of
/// the announced ones, where this is known; others may be among them. A move or a declaration adds
/// its waybill. A reader, which reads the balances of each, keeps those that it lists. A number
/// takes 8 bytes, and up to as many again that are free in its node.
#[derive(Drop)]
pub(crate) struct WaybillSets {
    pub(crate) stored: Option<BTreeSet<u64>>,
    pub(crate) irregular: Option<BTreeSet<u64>>,
    pub(crate) announced: Option<BTreeSet<u64>>,
}

/// Returns whether a waybill may be asked for after a move and not before: pieces come in from
/// outside the store, or are missing or found.
fn opens(query: WaybillQuery, movement: &Move) -> bool
    ensures { result ≡ opens query movement.now }
{
    match query {
        WaybillQuery::Stored => !matches!(movement.from, Place::Free | Place::Built(_)),
        WaybillQuery::Irregular => {
            matches!(movement.from, Place::Surplus) || matches!(movement.to, Place::Missing)
        }
    }
}

/// Returns kept waybills with another one, or `None` if memory runs out.
fn with_waybill(kept: BTreeSet<u64>, awb: &Awb) -> Option<BTreeSet<u64>>
    ensures { IfSome result (λ waybills. waybills.keys ≡ insert_key nat_cmp kept.keys awb.now) }
{
    let mut waybills = kept;
    match waybills.insert(awb.key()) {
        Ok(_) => Some(waybills),
        Err(_) => None,
    }
}

/// Returns the kept waybills that are asked for, after a move. Without memory for the waybill of
/// the move nothing is kept.
fn after_move(
    kept: Option<BTreeSet<u64>>,
    query: WaybillQuery,
    movement: &Move,
) -> Option<BTreeSet<u64>>
    ensures { (book : List cargo.Move) → HasAsked query kept book
        → HasAsked query result (book ++ movement.now ∷ []) }
{
    let waybills = kept?;
    if !opens(query, movement) {
        return Some(waybills);
    }
    with_waybill(waybills, &movement.awb)
}

/// Returns whether pieces go back to where they come in from, so that their waybill may be
/// announced again.
fn takes_back(movement: &Move) -> bool
    ensures { result ≡ takes_back movement.now }
{
    matches!(movement.to, Place::Hand | Place::Surplus)
}

/// Returns the kept announced waybills after a move. Without memory for the waybill of the move
/// nothing is kept.
fn announced_after(kept: Option<BTreeSet<u64>>, movement: &Move) -> Option<BTreeSet<u64>>
    ensures { (book : List cargo.Move) (declared : Declarations) → HasAnnounced kept book declared
        → HasAnnounced result (book ++ movement.now ∷ []) declared }
{
    let waybills = kept?;
    if !takes_back(movement) {
        return Some(waybills);
    }
    with_waybill(waybills, &movement.awb)
}

/// Returns the kept announced waybills with one that is declared. Without memory for it nothing is
/// kept.
fn announced_with(kept: Option<BTreeSet<u64>>, awb: &Awb) -> Option<BTreeSet<u64>>
    ensures { (book : List cargo.Move) (declared : Declarations) (new : Declared)
        → HasAnnounced kept book declared
        → HasAnnounced result book (declaring awb.now new declared) }
{
    let waybills = kept?;
    with_waybill(waybills, awb)
}

/// The numbers of announced waybills.
fn numbers_announced(alloc: Global, rows: &[AnnouncedRow]) -> Result<BTreeSet<u64>, StoreFault>
    ensures { IfOk result (λ numbers. (w : ℕ)
        → is_in w (map (λ row. row.awb) rows.now) ≡ true → is_in w numbers.keys ≡ true) }
{
    let mut numbers = BTreeSet::new(alloc);
    for row in rows {
        numbers.insert(row.awb.key())?;
    }
    Ok(numbers)
}

/// Returns the announced waybills that a reader lists, to be kept, or `None` if memory runs out.
fn announced_listed(alloc: Global, rows: &[AnnouncedRow]) -> Option<BTreeSet<u64>>
    ensures { (s : Cargo) → AreAnnounced s rows.now → HasAnnounced result s.book s.declared }
{
    match numbers_announced(alloc, rows) {
        Ok(numbers) => Some(numbers),
        Err(_fault) => None,
    }
}

impl WaybillSets {
    /// Nothing is known yet.
    pub(crate) fn none() -> WaybillSets
        ensures { (book : List cargo.Move) (declared : Declarations)
            → HaveAsked result book declared }
    {
        WaybillSets {
            stored: None,
            irregular: None,
            announced: None,
        }
    }

    /// Returns whether the waybills with pieces in store and the irregular ones are kept.
    pub(crate) fn were_listed(&self) -> bool {
        self.stored.is_some() && self.irregular.is_some()
    }

    /// Hands out what is kept of the waybills that are asked for. Nothing is known of them then.
    pub(crate) fn take(&mut self, query: WaybillQuery) -> Option<BTreeSet<u64>>
        ensures kept { (book : List cargo.Move) (declared : Declarations)
            → HaveAsked self.old book declared → HasAsked query result book }
        ensures rest { (book : List cargo.Move) (declared : Declarations)
            → HaveAsked self.old book declared → HaveAsked self.new book declared }
    {
        match query {
            WaybillQuery::Stored => self.stored.take(),
            WaybillQuery::Irregular => self.irregular.take(),
        }
    }

    /// Keeps the waybills that are asked for.
    pub(crate) fn keep(&mut self, query: WaybillQuery, waybills: BTreeSet<u64>)
        ensures { (book : List cargo.Move) (declared : Declarations)
            → HaveAsked self.old book declared → HasAsked query (Some waybills) book
            → HaveAsked self.new book declared }
    {
        match query {
            WaybillQuery::Stored => self.stored = Some(waybills),
            WaybillQuery::Irregular => self.irregular = Some(waybills),
        }
    }

    /// Hands out what is kept of the announced waybills. Nothing is known of them then.
    pub(crate) fn take_announced(&mut self) -> Option<BTreeSet<u64>>
        ensures kept { (book : List cargo.Move) (declared : Declarations)
            → HaveAsked self.old book declared → HasAnnounced result book declared }
        ensures rest { (book : List cargo.Move) (declared : Declarations)
            → HaveAsked self.old book declared → HaveAsked self.new book declared }
    {
        self.announced.take()
    }

    /// Keeps the announced waybills, which a reader lists. Without memory for them nothing is kept.
    pub(crate) fn keep_announced(&mut self, alloc: Global, rows: &[AnnouncedRow])
        ensures { (s : Cargo) → HaveAsked self.old s.book s.declared → AreAnnounced s rows.now
            → HaveAsked self.new s.book s.declared }
    {
        self.announced = announced_listed(alloc, rows);
    }

    /// The waybills after one is declared.
    pub(crate) fn declare(&mut self, awb: &Awb)
        ensures { (book : List cargo.Move) (declared : Declarations) (new : Declared)
            → HaveAsked self.old book declared
            → HaveAsked self.new book (declaring awb.now new declared) }
    {
        self.announced = announced_with(self.announced.take(), awb);
    }

    /// The waybills after a move.
    pub(crate) fn post(&mut self, movement: &Move)
        ensures { (book : List cargo.Move) (declared : Declarations)
            → HaveAsked self.old book declared
            → HaveAsked self.new (book ++ movement.now ∷ []) declared }
    {
        self.stored = after_move(self.stored.take(), WaybillQuery::Stored, movement);
        self.irregular = after_move(self.irregular.take(), WaybillQuery::Irregular, movement);
        self.announced = announced_after(self.announced.take(), movement);
    }
}

/// Those of some waybills that are asked for.
pub(crate) fn asked_among(
    alloc: Global,
    query: WaybillQuery,
    waybills: &[WaybillBalances],
) -> Result<Vec<WaybillBalances>, StoreFault>
    ensures { IfOk result (λ rows. rows.items
        ≡ filter (λ row. is_asked_for query row.balances) waybills.now) }
{
    let mut rows = Vec::new(alloc);
    for waybill in waybills {
        if query.asks_for(&waybill.balances) {
            rows.push(*waybill)?;
        }
    }
    Ok(rows)
}

/// The numbers of waybills.
pub(crate) fn numbers_of(
    alloc: Global,
    waybills: &[WaybillBalances],
) -> Result<BTreeSet<u64>, StoreFault>
    ensures { IfOk result (λ numbers. (w : ℕ)
        → is_in w (map (λ row. row.awb) waybills.now) ≡ true → is_in w numbers.keys ≡ true) }
{
    let mut numbers = BTreeSet::new(alloc);
    for waybill in waybills {
        numbers.insert(waybill.awb.key())?;
    }
    Ok(numbers)
}
