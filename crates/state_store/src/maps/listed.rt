//! The waybills of a book, and those on a flight, in order.
ghost use Rattle.std.specs.Prelude.{◌≡◌, ◌++◌, ℕ, List, IfOk, OnOk};
ghost use Rattle.state_store.specs.Store.{waybills_for, asked_by, loaded, flow_of, IsSummed, flow_in};
ghost use Rattle.state_store.specs.Common.{loads_on, Built};
ghost use Rattle.shipment_machine.specs.declared.flight.FlightDate.{FlightDate as AnyFlightDate};
ghost use Rattle.shipment_machine.specs.declared.moves.Move.{Move as AnyMove};

use crate::maps::book::MovementBook;
use crate::maps::flow::Flow;
use crate::maps::waybill_flows::WaybillFlows;
use crate::{FlightKey, StoreFault, WaybillQuery};
use awb_number::Awb;
use shipment_machine::FlightDate;
use station_core::{Load, WaybillBalances};
use std::alloc::Global;
use std::collections::BTreeMap;

fn put_asked(
    rows: &mut Vec<WaybillBalances>,
    query: WaybillQuery,
    key: u64,
    flows: &WaybillFlows,
) -> Result<(), StoreFault>
    ensures { OnOk result (rows.new.items ≡ rows.old.items ++ asked_by query (key, flows.now)) }
{
    let balances = flows.balances()?;
    if !query.asks_for(&balances) {
        return Ok(());
    }
    let Some(awb) = Awb::of_key(key) else {
        return Err(StoreFault);
    };
    rows.push(WaybillBalances { awb, balances })?;
    Ok(())
}

/// Appends a waybill with its load, if it has pieces there.
fn put_load(rows: &mut Vec<Load>, key: u64, flow: &Flow) -> Result<(), StoreFault>
    ensures { OnOk result (rows.new.items ≡ rows.old.items ++ loaded (key, flow.now)) }
{
    let amount = flow.held()?;
    if amount.pieces == 0 {
        return Ok(());
    }
    let Some(awb) = Awb::of_key(key) else {
        return Err(StoreFault);
    };
    rows.push(Load { awb, amount })?;
    Ok(())
}

/// Returns the waybills with pieces on a flight, from its flows.
fn loads_in(alloc: Global, flows: &BTreeMap<u64, Flow>) -> Result<Vec<Load>, StoreFault>
    ensures { (book : List AnyMove) (f : AnyFlightDate)
        → ((w : ℕ) → flow_in flows.now w ≡ flow_of book w (Built f))
        → IfOk result (λ rows. rows.items ≡ loads_on book f) }
{
    let mut rows = Vec::new(alloc);
    for (key, flow) in flows {
        put_load(&mut rows, *key, flow)?;
    }
    Ok(rows)
}

impl MovementBook {
    /// Returns the queried waybills, ascending, each with its balances.
    pub(crate) fn waybills(
        &self,
        alloc: Global,
        query: WaybillQuery,
    ) -> Result<Vec<WaybillBalances>, StoreFault>
        ensures { IsSummed self.now → IfOk result (λ rows. rows.items
            ≡ waybills_for query self.now.moves.items) }
    {
        let mut rows = Vec::new(alloc);
        for (key, flows) in &self.flows {
            put_asked(&mut rows, query, *key, flows)?;
        }
        Ok(rows)
    }

    /// Returns the waybills built on a flight, ascending, each with its load.
    pub(crate) fn aboard(&self, alloc: Global, flight: &FlightDate) -> Result<Vec<Load>, StoreFault>
        ensures { IsSummed self.now → IfOk result (λ loads. loads.items
            ≡ loads_on self.now.moves.items flight.now) }
    {
        match self.loads.get(&FlightKey::of(flight)) {
            Some(flows) => loads_in(alloc, flows),
            None => Ok(Vec::new(alloc)),
        }
    }
}
