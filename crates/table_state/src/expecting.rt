//! Expectations of flights.
//! The declared waybills of which nothing has come in.
#![tactic(auto, using(crate::proofs::Lifting::rests_on, crate::proofs::Lifting::survives_so))]

ghost use Rattle.std.specs.Prelude.{◌≡◌, ◌++◌, not, map, List, IfOk, OnOk, Some};
ghost use Rattle.table_state.specs.Common.{announced, contains, filter, nat_cmp, AreAnnounced, AreAllBalances, ReadsAtRest, waybill_meant, AreExpectations, expected_for, Open, StaysAtRest};
ghost use Rattle.state_store.specs.Store.{Survives};
ghost use Rattle.shipment_machine.specs.declared.moves.Move as cargo;
ghost use Rattle.station_core.specs.declared.rows.ExpectedQuery.TheVariants.{On};
ghost use Rattle.table_state.specs.Shown.{HasAnnounced, HaveCome, announced_by, announced_row, announcing, has_come_by, in_tables};

use crate::open_lines::OpenLines;
use crate::state::TableState;
use crate::writing::waybills_expected;
use awb_number::Awb;
use row_codec::{day_number, flight_text, waybill_by};
use shipment_machine::{Balances, Declared, FlightDate};
use state_store::{StateStore, StoreFault};
use station_core::{AnnouncedRow, Expectation, ExpectedQuery, WaybillBalances, expectations_for};
use station_rows::{AllExpected, AllWaybills, ExpectedOnFlight, TableStore, WaybillRow};
use std::alloc::Global;
use std::collections::BTreeSet;
use std::slice;

/// Returns whether pieces of a waybill with these balances have come in: received or found.
fn has_come(balances: &Balances) -> bool
    ensures { result ≡ has_come_by balances.now }
{
    balances.taken.pieces > 0 || balances.found.pieces > 0
}

/// Returns the numbers of the waybills of which pieces have come in, by all balances.
fn numbers_come(alloc: Global, waybills: &[WaybillBalances]) -> Result<BTreeSet<u64>, StoreFault>
    ensures { (book : List cargo.Move) → AreAllBalances book waybills.now
        → IfOk result (λ numbers. HaveCome numbers book) }
{
    let mut numbers = BTreeSet::new(alloc);
    for waybill in waybills {
        if has_come(&waybill.balances) {
            numbers.insert(waybill.awb.key())?;
        }
    }
    Ok(numbers)
}

/// Returns what rows declare of the waybills, except those of which pieces have come in.
fn announced_among(
    alloc: Global,
    come: &BTreeSet<u64>,
    rows: &[WaybillRow],
) -> Result<Vec<AnnouncedRow>, StoreFault>
    ensures { IfOk result (λ all. all.items
        ≡ filter (λ one. not (contains nat_cmp come.now one.awb))
        (map (λ row. announced_by (waybill_meant row)) rows.now)) }
{
    let mut all = Vec::new(alloc);
    for row in rows {
        let Some((awb, declared)) = waybill_by(row) else {
            return Err(StoreFault);
        };
        if !come.contains(&awb.key()) {
            all.push(AnnouncedRow { awb, declared })?;
        }
    }
    Ok(all)
}

/// Puts the row of a waybill behind the others, if it is announced.
fn put_row(
    rows: &mut Vec<AnnouncedRow>,
    awb: &Awb,
    found: &Option<Declared>,
) -> Result<(), StoreFault>
    ensures { OnOk result (rows.new.items ≡ rows.old.items ++ announced_row awb.now found.now) }
{
    if let Some(declared) = found {
        let row = AnnouncedRow {
            awb: *awb,
            declared: *declared,
        };
        rows.extend_from_slice(slice::from_ref(&row))?;
    }
    Ok(())
}

impl<S: TableStore> TableState<S> {
    /// Returns the numbers of the waybills of which pieces have come in: one pass over all
    /// balances.
    fn all_come(&mut self) -> Result<BTreeSet<u64>, StoreFault>
        ensures { ReadsAtRest (in_tables S.view) self.old self.new result
            (λ s numbers. HaveCome numbers s.cargo.book) }
    {
        let all = row_codec::all_balances(self.alloc, &mut self.store)?;
        numbers_come(self.alloc, &all)
    }

    /// Returns what is declared of the waybills, except these: one pass over all rows.
    fn declared_except(&mut self, come: &BTreeSet<u64>) -> Result<Vec<AnnouncedRow>, StoreFault>
        ensures { ReadsAtRest (in_tables S.view) self.old self.new result
            (λ s rows. HaveCome come.now s.cargo.book → AreAnnounced s.cargo rows.items) }
    {
        let rows = self.store.read(AllWaybills)?;
        announced_among(self.alloc, come, &rows)
    }

    /// Returns the declared waybills of which nothing has come in, ascending: one pass over all
    /// balances, and one over all declarations.
    fn announced_in_all(&mut self) -> Result<Vec<AnnouncedRow>, StoreFault>
        ensures { ReadsAtRest (in_tables S.view) self.old self.new result
            (λ s rows. AreAnnounced s.cargo rows.items) }
    {
        let come = self.all_come()?;
        self.declared_except(&come)
    }

    /// Returns what is declared of a waybill of which nothing has come in.
    fn announced_of(&mut self, awb: &Awb) -> Result<Option<Declared>, StoreFault>
        ensures { ReadsAtRest (in_tables S.view) self.old self.new result
            (λ s found. found ≡ announced s.cargo awb.now) }
    {
        let balances = self.balances(awb)?;
        if has_come(&balances) {
            return Ok(None);
        }
        self.declared(awb)
    }

    /// Puts the waybill of a number behind the others, if it is announced.
    fn put_announced(&mut self, rows: &mut Vec<AnnouncedRow>, number: u64) -> Result<(), StoreFault>
        ensures { ReadsAtRest (in_tables S.view) self.old self.new result
            (λ s done. rows.new.items ≡ rows.old.items ++ announcing s.cargo number) }
    {
        let awb = Awb::of_key(number).ok_or(StoreFault)?;
        let found = self.announced_of(&awb)?;
        put_row(rows, &awb, &found)
    }

    /// Returns the announced waybills, ascending, where all of them are among these numbers: two
    /// reads for each number.
    fn announced_in(&mut self, waybills: &BTreeSet<u64>) -> Result<Vec<AnnouncedRow>, StoreFault>
        ensures { ReadsAtRest (in_tables S.view) self.old self.new result
            (λ s rows. HasAnnounced (Some waybills.now) s.cargo.book s.cargo.declared
            → AreAnnounced s.cargo rows.items) }
    {
        let mut rows = Vec::new(self.alloc);
        for number in waybills {
            self.put_announced(&mut rows, *number)?;
        }
        Ok(rows)
    }

    /// Returns the announced waybills, ascending: two reads for each that is kept, or one pass over
    /// all. What is kept of them is handed out of `self` before.
    fn announced_rows(&mut self) -> Result<Vec<AnnouncedRow>, StoreFault>
        ensures { ReadsAtRest (in_tables S.view) self.old self.new result
            (λ s rows. AreAnnounced s.cargo rows.items) }
    {
        match self.counted.waybills.take_announced() {
            Some(kept) => self.announced_in(&kept),
            None => self.announced_in_all(),
        }
    }

    /// Returns the announced waybills, ascending. They are kept, unless memory runs out.
    pub(crate) fn list_announced(&mut self) -> Result<Vec<AnnouncedRow>, StoreFault>
        ensures { ReadsAtRest (in_tables S.view) self.old self.new result
            (λ s rows. AreAnnounced s.cargo rows.items) }
    {
        let rows = self.announced_rows()?;
        self.counted.waybills.keep_announced(self.alloc, &rows);
        Ok(rows)
    }
}

impl<S: TableStore> TableState<S> {
    /// All that flights are to bring: one pass over all rows.
    pub(crate) fn all_lines(&mut self) -> Result<Vec<Expectation>, StoreFault>
        ensures { ReadsAtRest (in_tables S.view) self.old self.new result
            (λ s rows. AreExpectations s.cargo.expected rows.items) }
    {
        let rows = self.store.read(AllExpected)?;
        waybills_expected(self.alloc, &rows)
    }

    /// What a flight is to bring: one read of its rows alone.
    pub(crate) fn lines_on(&mut self, flight: &FlightDate) -> Result<Vec<Expectation>, StoreFault>
        ensures { ReadsAtRest (in_tables S.view) self.old self.new result
            (λ s rows. AreExpectations (expected_for (On flight.now) s.cargo.expected)
            rows.items) }
    {
        let name = flight_text(self.alloc, &flight.flight)?;
        let rows = self.store.read(ExpectedOnFlight {
            flight: &name,
            day: day_number(flight.day),
        })?;
        waybills_expected(self.alloc, &rows)
    }

    /// Returns its open lines, from one pass over all rows. They are kept, unless memory runs out.
    fn open_in_all(&mut self) -> Result<Vec<Expectation>, StoreFault>
        ensures { ReadsAtRest (in_tables S.view) self.old self.new result
            (λ s rows. AreExpectations (expected_for Open s.cargo.expected) rows.items) }
    {
        let all = self.all_lines()?;
        let open = expectations_for(self.alloc, ExpectedQuery::Open, &all)?;
        self.counted.open_lines = OpenLines::of(self.alloc, &open);
        Ok(open)
    }

    /// Finds the spans of flights and of waybills, and the announced waybills, if both other lists
    /// of waybills are kept: a program that reads its third list, as a service does before its first request, goes
    /// on with reports and manifests. One that reads a single list doesn't pay for the others.
    fn fill_others(&mut self)
        ensures rests { StaysAtRest (in_tables S.view) self.old self.new }
        ensures survives { Survives (in_tables S.view) self.old self.new }
    {
        if !self.counted.waybills.were_listed() {
            return;
        }
        self.fill_spans();
        self.fill_statuses();
        let _announced = self.list_announced();
    }

    /// Returns its open lines, from one pass over all rows, and fills the lists that may be asked
    /// for next.
    fn open_at_first(&mut self) -> Result<Vec<Expectation>, StoreFault>
        ensures { ReadsAtRest (in_tables S.view) self.old self.new result
            (λ s rows. AreExpectations (expected_for Open s.cargo.expected) rows.items) }
    {
        let open = self.open_in_all()?;
        self.fill_others();
        Ok(open)
    }

    /// Returns its open lines: the kept ones, without a read, or from one pass over all rows.
    pub(crate) fn open_lines(&mut self) -> Result<Vec<Expectation>, StoreFault>
        ensures { ReadsAtRest (in_tables S.view) self.old self.new result
            (λ s rows. AreExpectations (expected_for Open s.cargo.expected) rows.items) }
    {
        match &self.counted.open_lines.kept {
            Some(kept) => kept.listed(self.alloc),
            None => self.open_at_first(),
        }
    }
}
