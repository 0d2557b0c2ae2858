ghost use Rattle.std.specs.Prelude.{◌≡◌, ◌&&◌, ◌==◌, ◌++◌, ◌∷◌, [], ℕ, false, if◌then◌else◌, IfOk, OnOk};
ghost use Rattle.state_store.specs.Common.{nat_cmp, get, is_at, unwrap_or, balances_of, built, has_moves, same_place, Built};
ghost use Rattle.state_store.specs.Store.{by_key, flow_with, IsSummed, IsWaybillSummed, flow_at, flow_in, no_flows};
ghost use Rattle.state_store.specs.declared.flight_key.FlightKey.{FlightKey as AnyFlightKey};

use crate::maps::flow::{Flow, STILL};
use crate::maps::waybill_flows::{NO_FLOWS, WaybillFlows};
use crate::{FlightKey, StoreFault};
use awb_number::Awb;
use shipment_machine::{Amount, Balances, FlightDate, Move, Place};
use std::alloc::Global;
use std::collections::BTreeMap;

/// The movement book, with the sums of its moves by waybill, and by flight and waybill.
#[derive(Clone, Drop)]
pub(crate) struct MovementBook {
    pub(crate) moves: Vec<Move>,
    pub(crate) flows: BTreeMap<u64, WaybillFlows>,
    pub(crate) loads: BTreeMap<FlightKey, BTreeMap<u64, Flow>>,
    pub(crate) alloc: Global,
}

fn flow_of(flows: &BTreeMap<u64, Flow>, awb: &Awb) -> Flow
    ensures { result ≡ flow_in flows.now awb.now }
{
    match flows.get(&awb.key()) {
        Some(flow) => *flow,
        None => STILL,
    }
}

fn post_flow(
    flows: &mut BTreeMap<u64, Flow>,
    place: &Place,
    movement: &Move,
) -> Result<(), StoreFault>
    ensures { OnOk result ((w : ℕ) → flow_in flows.new w ≡ (if movement.now.awb == w
        then flow_with place.now (flow_in flows.old w) movement.now else flow_in flows.old w)) }
{
    let flow = flow_of(flows, &movement.awb).with(place, movement)?;
    flows.insert(movement.awb.key(), flow)?;
    Ok(())
}

impl MovementBook {
    pub(crate) fn new(alloc: Global) -> MovementBook
        ensures moves { result.moves.items ≡ [] }
        ensures summed { IsSummed result }
    {
        MovementBook {
            moves: Vec::new(alloc),
            flows: BTreeMap::new(alloc),
            loads: BTreeMap::new(alloc),
            alloc,
        }
    }

    fn flows(&self, awb: &Awb) -> WaybillFlows
        ensures { result ≡ unwrap_or (get nat_cmp self.now.flows awb.now) no_flows }
    {
        match self.flows.get(&awb.key()) {
            Some(flows) => *flows,
            None => NO_FLOWS,
        }
    }

    fn flow(&self, flight: &FlightKey, awb: &Awb) -> Flow
        ensures { result ≡ flow_at self.now.loads flight.now awb.now }
    {
        match self.loads.get(flight) {
            Some(flows) => flow_of(flows, awb),
            None => STILL,
        }
    }

    fn post_flows(&mut self, movement: &Move) -> Result<(), StoreFault>
        ensures posted { IsSummed self.old → OnOk result ((w : ℕ)
            → IsWaybillSummed self.new.flows (self.old.moves.items ++ movement.now ∷ []) w) }
        ensures moves { self.new.moves ≡ self.old.moves }
        ensures loads { self.new.loads ≡ self.old.loads }
    {
        let flows = self.flows(&movement.awb).with(movement)?;
        self.flows.insert(movement.awb.key(), flows)?;
        Ok(())
    }

    /// Removes the flows of a flight, and returns them.
    fn take_flows(&mut self, flight: &FlightKey) -> BTreeMap<u64, Flow>
        ensures taken { (w : ℕ) → flow_in result w ≡ flow_at self.old.loads flight.now w }
        ensures others { (k : AnyFlightKey) → is_at (by_key flight.now) k ≡ false
            → get by_key self.new.loads k ≡ get by_key self.old.loads k }
        ensures moves { self.new.moves ≡ self.old.moves }
        ensures flows { self.new.flows ≡ self.old.flows }
    {
        match self.loads.remove(flight) {
            Some(flows) => flows,
            None => BTreeMap::new(self.alloc),
        }
    }

    /// Adds a move to the flow of a place, if it is on a flight.
    fn post_load(&mut self, place: &Place, movement: &Move) -> Result<(), StoreFault>
        ensures posted { OnOk result ((k : AnyFlightKey) (w : ℕ)
            → flow_at self.new.loads k w
            ≡ (if same_place place.now (Built k.flight) && (movement.now.awb == w)
            then flow_with place.now (flow_at self.old.loads k w) movement.now
            else flow_at self.old.loads k w)) }
        ensures moves { self.new.moves ≡ self.old.moves }
        ensures flows { self.new.flows ≡ self.old.flows }
    {
        let Place::Built(flight) = place else {
            return Ok(());
        };
        let key = FlightKey::of(flight);
        let mut flows = self.take_flows(&key);
        post_flow(&mut flows, place, movement)?;
        self.loads.insert(key, flows)?;
        Ok(())
    }

    pub(crate) fn add(&mut self, movement: &Move) -> Result<(), StoreFault>
        ensures moves { OnOk result
            (self.new.moves.items ≡ self.old.moves.items ++ movement.now ∷ []) }
        ensures summed { IsSummed self.old → OnOk result (IsSummed self.new) }
    {
        self.post_flows(movement)?;
        self.post_load(&movement.to, movement)?;
        if !movement.to.is_same(&movement.from) {
            self.post_load(&movement.from, movement)?;
        }
        self.moves.push(*movement)?;
        Ok(())
    }

    pub(crate) fn has_moves(&self, awb: &Awb) -> bool
        ensures { IsSummed self.now → result ≡ has_moves self.now.moves.items awb.now }
    {
        self.flows.contains_key(&awb.key())
    }

    pub(crate) fn balances(&self, awb: &Awb) -> Result<Balances, StoreFault>
        ensures { IsSummed self.now → IfOk result (λ balances. balances
            ≡ balances_of self.now.moves.items awb.now) }
    {
        self.flows(awb).balances()
    }

    pub(crate) fn load(&self, awb: &Awb, flight: &FlightDate) -> Result<Amount, StoreFault>
        ensures { IsSummed self.now → IfOk result (λ load. load
            ≡ built self.now.moves.items awb.now flight.now) }
    {
        self.flow(&FlightKey::of(flight), awb).held()
    }
}
