//! The rows of a flight: its loads, and the rows for each line of its manifest.
//! Expectations, in the order in which readers list them.

ghost use Rattle.std.specs.Prelude.{◌≡◌, ◌++◌, ◌∷◌, [], false, None, Some, map, IfOk, OnOk, OnErr};
ghost use Rattle.state_store.specs.Common.{rows_for, lines_for, loads_of, line_view_of, AreExpectations};
ghost use Rattle.shipment_machine.specs.declared.command.ShipmentCommand.TheVariants as order;
ghost use Rattle.shipment_machine.specs.declared.view.Rows.TheVariants as rows;
ghost use Rattle.state_store.specs.Asked.{aboard_of, part_rows_on};
ghost use Rattle.state_store.specs.Store.{Reads, Lines, lines_in, no_lines, with_line};

use crate::flight_key::FlightKey;
use crate::store::StateStore;
use awb_number::Awb;
use imp_fields::Airport;
use row_sinks::StoreFault;
use shipment_machine::{
    Expected, FlightDate, FlightLoad, InboundLine, InboundPart, LineView, LineViews, Loads, Part,
    Rows, day_meant,
};
use station_core::{Expectation, Load};
use station_days::{LocalDay, Moment};
use std::alloc::Global;
use std::collections::BTreeMap;

fn declared_load<S: StateStore>(store: &mut S, load: &Load) -> Result<FlightLoad, StoreFault>
    ensures { Reads S.storing store.old store.new result
        (λ s row. row ≡ aboard_of s.cargo load.now) }
{
    match store.declared(&load.awb)? {
        None => Err(StoreFault),
        Some(declared) => Ok(FlightLoad {
            awb: load.awb,
            declared,
            load: load.amount,
        }),
    }
}

fn declared_loads<S: StateStore>(
    alloc: Global,
    store: &mut S,
    loads: &[Load],
) -> Result<Vec<FlightLoad>, StoreFault>
    ensures { Reads S.storing store.old store.new result
        (λ s rows. rows.items ≡ map (aboard_of s.cargo) loads.now) }
{
    let mut rows = Vec::new(alloc);
    for load in loads {
        rows.push(declared_load(store, load)?)?;
    }
    Ok(rows)
}

pub(crate) fn loads_of<S: StateStore>(
    alloc: Global,
    store: &mut S,
    flight: &FlightDate,
) -> Result<Loads, StoreFault>
    ensures { Reads S.storing store.old store.new result
        (λ s loads. loads ≡ loads_of s.cargo flight.now) }
{
    let aboard = store.aboard(flight)?;
    let rows = declared_loads(alloc, store, &aboard)?;
    match Loads::new(rows) {
        Some(loads) => Ok(loads),
        None => Err(StoreFault),
    }
}

/// Returns the rows stored for the waybill of a line.
fn line_view<S: StateStore>(
    store: &mut S,
    flight: &FlightDate,
    line: &InboundLine,
) -> Result<LineView, StoreFault>
    ensures { Reads S.storing store.old store.new result
        (λ s row. row ≡ line_view_of s.cargo flight.now line.now.cargo) }
{
    let awb = &line.cargo.awb;
    let declared = store.declared(awb)?;
    let holder = store.holder(awb)?;
    let expected = store.expected(flight, awb)?;
    Ok(LineView {
        declared,
        holder,
        expected,
    })
}

/// Appends the rows stored for a line's waybill, if the line is for here.
fn put_line<S: StateStore>(
    store: &mut S,
    rows: &mut Vec<LineView>,
    here: Airport,
    flight: &FlightDate,
    line: &InboundLine,
) -> Result<(), StoreFault>
    ensures { Reads S.storing store.old store.new result
        (λ s done. rows.new.items ≡ rows.old.items
        ++ map (line_view_of s.cargo flight.now) (lines_for here (line.now ∷ []))) }
{
    if line.unload == here {
        rows.push(line_view(store, flight, line)?)?;
    }
    Ok(())
}

/// Returns the rows stored for each line of a manifest for here.
fn line_rows<S: StateStore>(
    alloc: Global,
    store: &mut S,
    here: Airport,
    flight: &FlightDate,
    lines: &[InboundLine],
) -> Result<LineViews, StoreFault>
    ensures { Reads S.storing store.old store.new result
        (λ s rows. rows ≡ map (line_view_of s.cargo flight.now) (lines_for here lines.now)) }
{
    let mut rows = Vec::new(alloc);
    for line in lines {
        put_line(store, &mut rows, here, flight, line)?;
    }
    Ok(LineViews::new(rows))
}

/// Returns the rows for a part of a manifest whose date isn't an existing day.
fn no_lines(alloc: Global) -> Rows
    ensures { result ≡ rows.Lines false [] }
{
    Rows::Lines {
        taken: false,
        lines: LineViews::new(Vec::new(alloc)),
    }
}

/// Returns the rows for a part of a manifest on this day.
fn rows_on<S: StateStore>(
    alloc: Global,
    store: &mut S,
    part: &InboundPart<'_>,
    day: LocalDay,
) -> Result<Rows, StoreFault>
    ensures { Reads S.storing store.old store.new result
        (λ s made. made ≡ part_rows_on s.cargo part.now day) }
{
    let flight = FlightDate {
        flight: part.flight,
        day,
    };
    let key = Part {
        flight,
        airport: part.loaded,
        number: part.number,
    };
    let here = store.here();
    let taken = store.has_part(&key)?;
    let lines = line_rows(alloc, store, here, &flight, part.lines.as_slice())?;
    Ok(Rows::Lines { taken, lines })
}

pub(crate) fn part_rows<S: StateStore>(
    alloc: Global,
    store: &mut S,
    part: &InboundPart<'_>,
    at: Moment,
) -> Result<Rows, StoreFault>
    ensures { Reads S.storing store.old store.new result
        (λ s made. made ≡ rows_for s.cargo (order.Ffm part.now) at) }
{
    match day_meant(part.date, at) {
        None => Ok(no_lines(alloc)),
        Some(day) => rows_on(alloc, store, part, day),
    }
}

/// Expectations, found by flight and waybill.
#[derive(Clone, Drop)]
pub struct ExpectedLines {
    entries: BTreeMap<(FlightKey, u64), Expected>,
}

impl ExpectedLines {
    /// Starts without lines.
    pub fn new(alloc: Global) -> ExpectedLines
        ensures { lines_in result ≡ no_lines }
    {
        ExpectedLines {
            entries: BTreeMap::new(alloc),
        }
    }

    /// Returns the lines that readers list. It fails only if memory runs out.
    pub fn of(alloc: Global, rows: &[Expectation]) -> Result<ExpectedLines, StoreFault>
        ensures { (lines : Lines) → AreExpectations lines rows.now
            → IfOk result (λ kept. lines_in kept ≡ lines) }
    {
        let mut kept = ExpectedLines::new(alloc);
        for row in rows {
            kept.put(&row.flight, &row.awb, &row.expected)?;
        }
        Ok(kept)
    }

    /// Returns the expectation of a waybill on a flight, if there is one.
    pub fn get(&self, flight: &FlightDate, awb: &Awb) -> Option<Expected>
        ensures { result ≡ lines_in self.now flight.now awb.now }
    {
        let key = (FlightKey::of(flight), awb.key());
        self.entries.get(&key).copied()
    }

    /// Sets the expectation of a waybill on a flight. If memory runs out, nothing changes.
    pub fn put(
        &mut self,
        flight: &FlightDate,
        awb: &Awb,
        expected: &Expected,
    ) -> Result<(), StoreFault>
        ensures put { OnOk result (lines_in self.new
            ≡ with_line (lines_in self.old) flight.now awb.now (Some expected.now)) }
        ensures kept { OnErr result (lines_in self.new ≡ lines_in self.old) }
    {
        let key = (FlightKey::of(flight), awb.key());
        self.entries.insert(key, *expected)?;
        Ok(())
    }

    /// Removes the expectation of a waybill on a flight, if there is one.
    pub fn remove(&mut self, flight: &FlightDate, awb: &Awb)
        ensures { lines_in self.new ≡ with_line (lines_in self.old) flight.now awb.now None }
    {
        let key = (FlightKey::of(flight), awb.key());
        self.entries.remove(&key);
    }

    /// Returns all lines, by the written form of the flight, then by day, and then by waybill. It
    /// fails only if memory runs out.
    pub fn listed(&self, alloc: Global) -> Result<Vec<Expectation>, StoreFault>
        ensures { IfOk result (λ rows. AreExpectations (lines_in self.now) rows.items) }
    {
        let mut rows = Vec::new(alloc);
        for (key, expected) in &self.entries {
            let Some(awb) = Awb::of_key(key.1) else {
                return Err(StoreFault);
            };
            rows.push(Expectation {
                flight: key.0.flight,
                awb,
                expected: *expected,
            })?;
        }
        Ok(rows)
    }
}
