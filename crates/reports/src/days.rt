//! Since when waybills have had pieces in store, or missing or found ones.
ghost use Rattle.std.specs.Prelude.{◌≡◌, ℕ, ◌++◌, ◌∷◌, [], false, List, Option, IfErr, IfOk, IfSome};
ghost use Rattle.reports.specs.Common.{IfSound, IsReadersFault, OnlyReads, Reads};
ghost use Rattle.reports.specs.Passes.{AreDated, IsDayOf, flow_with, is_there, moved_spell, next_spell, since_after, spell_lasts, start_of};

use crate::readings::Reading;
use crate::tallies::{Count, ZERO};
use awb_number::Awb;
use shipment_machine::{Move, Place};
use station_core::{ActFault, BookQuery, BookRow, IrregularRow, Keeper, ShedRow, Sink, hand_out};
use station_days::LocalDay;
use std::alloc::Global;

/// A state that lasts: pieces in store, or missing or found ones.
#[derive(Clone, Copy)]
pub enum Lasting {
    Stored,
    Irregular,
}

/// A row with the day since which it has lasted, if it does.
#[derive(Drop)]
pub struct Dated<Row> {
    pub since: Option<LocalDay>,
    pub row: Row,
}

/// A row of a waybill.
pub(crate) trait HasAwb {
    ghost use Rattle.std.specs.Prelude.{ℕ};

    ghost number: { Self → ℕ };

    fn number(&self) -> Awb
        ensures { result ≡ number self.now };
}

impl HasAwb for ShedRow {
    ghost number = { λ row. row.awb };

    fn number(&self) -> Awb {
        self.awb
    }
}

impl HasAwb for IrregularRow {
    ghost number = { λ row. row.awb };

    fn number(&self) -> Awb {
        self.awb
    }
}

/// The sums of what moved to some places, and from them.
#[derive(Clone, Copy)]
struct Flow {
    came: Count,
    went: Count,
}

impl Flow {
    /// Returns the sums with another movement.
    fn with(self, comes: bool, goes: bool, movement: &Move) -> Option<Flow>
        ensures { IfSome result (λ flow. flow ≡ flow_with comes goes movement.now self) }
    {
        Some(Flow {
            came: self.came.with(comes, movement)?,
            went: self.went.with(goes, movement)?,
        })
    }
}

const STILL: Flow = Flow {
    came: ZERO,
    went: ZERO,
};

/// The sum of the movements of a waybill, and the day since which it has lasted.
#[derive(Clone, Copy)]
struct Spell {
    awb: Awb,
    lasting: Lasting,
    /// To the store and from it, or to what is missing and from it.
    kept: Flow,
    /// To what is surplus and from it.
    surplus: Flow,
    since: Option<LocalDay>,
    // True if a movement didn't fit.
    is_full: bool,
}

impl Lasting {
    /// Returns whether pieces at a place make it last.
    fn is_there(self, place: &Place) -> bool
        ensures { result ≡ is_there self place.now }
    {
        match self {
            Lasting::Stored => matches!(place, Place::Free | Place::Built(_)),
            Lasting::Irregular => Place::Missing.is_same(place),
        }
    }
}

/// Returns the day since which it lasts, by whether it does, the day before, and a movement's day.
fn since_after(lasts: bool, since: Option<LocalDay>, day: LocalDay) -> Option<LocalDay>
    ensures { result ≡ since_after lasts since day }
{
    if !lasts {
        return None;
    }
    match since {
        Some(since) => Some(since),
        None => Some(day),
    }
}

impl Spell {
    /// Starts without movements.
    fn new(awb: &Awb, lasting: Lasting) -> Spell
        ensures { result ≡ start_of awb.now lasting }
    {
        Spell {
            awb: *awb,
            lasting,
            kept: STILL,
            surplus: STILL,
            since: None,
            is_full: false,
        }
    }

    fn lasts(&self) -> bool
        ensures { result ≡ spell_lasts self.now }
    {
        let is_found = self.surplus.went.pieces > self.surplus.came.pieces;
        match self.lasting {
            Lasting::Stored => self.kept.came.pieces > self.kept.went.pieces,
            Lasting::Irregular => self.kept.came.pieces > self.kept.went.pieces || is_found,
        }
    }

    /// Returns the sums with another movement.
    fn moved(&self, movement: &Move) -> Option<Spell>
        ensures { IfSome result (λ spell. spell ≡ moved_spell movement.now self.now) }
    {
        let is_own = movement.awb == self.awb;
        let comes = is_own && self.lasting.is_there(&movement.to);
        let goes = is_own && self.lasting.is_there(&movement.from);
        let is_back = is_own && Place::Surplus.is_same(&movement.to);
        let is_found = is_own && Place::Surplus.is_same(&movement.from);
        Some(Spell {
            awb: self.awb,
            lasting: self.lasting,
            kept: self.kept.with(comes, goes, movement)?,
            surplus: self.surplus.with(is_back, is_found, movement)?,
            since: self.since,
            is_full: self.is_full,
        })
    }

    /// Returns the spell after another movement.
    fn next(&self, movement: &Move) -> Option<Spell>
        ensures { IfSome result (λ spell. spell ≡ next_spell movement.now self.now) }
    {
        let mut spell = self.moved(movement)?;
        let Some(day) = LocalDay::new(movement.at.day) else {
            unreachable!();
        };
        spell.since = since_after(spell.lasts(), self.since, day);
        Some(spell)
    }
}

impl Sink<BookRow> for Spell {
    ghost use Rattle.reports.specs.Passes.{TakesNext};

    ghost takes = { λ old row go new. TakesNext old row.movement go new };

    fn take(&mut self, row: BookRow) -> bool {
        match self.next(&row.movement) {
            Some(next) => {
                *self = next;
                true
            }
            None => {
                self.is_full = true;
                false
            }
        }
    }
}

/// Returns the day since which it has lasted for a waybill, by its movements.
fn day_of<K: Keeper>(
    keeper: &mut K,
    awb: &Awb,
    lasting: Lasting,
) -> Result<Option<LocalDay>, ActFault>
    ensures { Reads K.keeping keeper.old keeper.new result
        (λ s day. IsDayOf lasting s.cargo awb.now day) }
{
    let mut spell = Spell::new(awb, lasting);
    match keeper.book_by(&BookQuery::Of(*awb), &mut spell) {
        Ok(()) if spell.is_full => Err(ActFault::Memory),
        Ok(()) => Ok(spell.since),
        Err(fault) => Err(fault),
    }
}

/// The rows of a reader, kept.
#[derive(Drop)]
struct Gathering<Row> {
    rows: Vec<Row>,
    // True if memory ran out.
    is_full: bool,
}

impl<Row: Drop> Sink<Row> for Gathering<Row> {
    ghost use Rattle.reports.specs.Passes.{TakesRow};

    ghost takes = { λ old row go new. TakesRow old row go new };

    fn take(&mut self, row: Row) -> bool {
        if self.rows.push(row).is_err() {
            self.is_full = true;
            return false;
        }
        true
    }
}

/// Returns the rows of a reader.
pub(crate) fn gathered<Row: Drop, R: Reading<Row>, K: Keeper>(
    alloc: Global,
    keeper: &mut K,
    reading: &R,
) -> Result<Vec<Row>, ActFault>
    ensures { Reads K.keeping keeper.old keeper.new result
        (λ s rows. R.rows reading.now s rows.items) }
{
    let mut gathering = Gathering {
        rows: Vec::new(alloc),
        is_full: false,
    };
    match reading.hand_out(keeper, &mut gathering) {
        Ok(()) if gathering.is_full => Err(ActFault::Memory),
        Ok(()) => Ok(gathering.rows),
        Err(fault) => Err(fault),
    }
}

/// Puts a row behind the others, with its day.
fn put_dated<Row: HasAwb + Drop, K: Keeper>(
    keeper: &mut K,
    dated: &mut Vec<Dated<Row>>,
    row: Row,
    lasting: Lasting,
) -> Result<(), ActFault>
    ensures { Reads K.keeping keeper.old keeper.new result (λ s done. (since : Option ℕ)
        × IsDayOf lasting s.cargo (Row.number row) since
        × (dated.new.items ≡ dated.old.items ++ record { since = since; row = row } ∷ [])) }
{
    let since = day_of(keeper, &row.number(), lasting)?;
    match dated.push(Dated { since, row }) {
        Ok(()) => Ok(()),
        Err(_) => Err(ActFault::Memory),
    }
}

/// Returns the rows, each with its day.
fn all_dated<Row: HasAwb + Copy, K: Keeper>(
    alloc: Global,
    keeper: &mut K,
    rows: &[Row],
    lasting: Lasting,
) -> Result<Vec<Dated<Row>>, ActFault>
    ensures reads { OnlyReads K.keeping keeper.old keeper.new }
    ensures fault { K.keeping.is_broken keeper.old ≡ false
        → IfErr result (IsReadersFault K.keeping.may_fail) }
    ensures dated { IfSound K.keeping keeper.old keeper.new
        (λ s. IfOk result (λ dated. AreDated lasting Row.number s.cargo rows.now dated.items)) }
{
    let mut dated = Vec::new(alloc);
    for row in rows {
        put_dated(keeper, &mut dated, *row, lasting)?;
    }
    Ok(dated)
}

/// Returns the rows of a reader, each with its day.
fn dated_rows<Row: HasAwb + Copy + Drop, R: Reading<Row>, K: Keeper>(
    alloc: Global,
    keeper: &mut K,
    reading: &R,
    lasting: Lasting,
) -> Result<Vec<Dated<Row>>, ActFault>
    ensures { Reads K.keeping keeper.old keeper.new result (λ s dated. (rows : List Row)
        × R.rows reading.now s rows × AreDated lasting Row.number s.cargo rows dated.items) }
{
    let rows = gathered(alloc, keeper, reading)?;
    all_dated(alloc, keeper, &rows, lasting)
}

/// The rows of a reader, each with its day.
#[derive(Drop)]
pub(crate) struct DatedReading<R> {
    pub(crate) alloc: Global,
    pub(crate) reading: R,
    pub(crate) lasting: Lasting,
}

impl<Row: HasAwb + Copy + Drop, R: Reading<Row>> Reading<Dated<Row>> for DatedReading<R> {
    ghost use Rattle.std.specs.Prelude.{List};

    ghost rows = { λ dating s dated. (rows : List Row) × R.rows dating.reading s rows
        × AreDated dating.lasting Row.number s.cargo rows dated };

    fn hand_out<K: Keeper, S: Sink<Dated<Row>>>(
        &self,
        keeper: &mut K,
        sink: &mut S,
    ) -> Result<(), ActFault> {
        match dated_rows(self.alloc, keeper, &self.reading, self.lasting) {
            Ok(rows) => {
                hand_out(sink, rows);
                Ok(())
            }
            Err(fault) => Err(fault),
        }
    }
}
