ghost use Rattle.std.specs.Prelude.{◌≡◌, IfOk};
ghost use Rattle.state_store.specs.Store.{balances_by, flows_with};

use crate::StoreFault;
use crate::maps::flow::{Flow, STILL};
use shipment_machine::{Balances, Move, Place};

/// The flows of a waybill at each place except the built ones.
#[derive(Clone, Copy)]
pub(crate) struct WaybillFlows {
    pub(crate) hand: Flow,
    pub(crate) surplus: Flow,
    pub(crate) free: Flow,
    pub(crate) missing: Flow,
    pub(crate) departed: Flow,
    pub(crate) delivered: Flow,
    pub(crate) transferred: Flow,
}

/// The flows of a waybill without moves.
pub(crate) const NO_FLOWS: WaybillFlows = WaybillFlows {
    hand: STILL,
    surplus: STILL,
    free: STILL,
    missing: STILL,
    departed: STILL,
    delivered: STILL,
    transferred: STILL,
};

impl WaybillFlows {
    pub(crate) fn with(&self, movement: &Move) -> Result<WaybillFlows, StoreFault>
        ensures { IfOk result (λ flows. flows ≡ flows_with self.now movement.now) }
    {
        Ok(WaybillFlows {
            hand: self.hand.with(&Place::Hand, movement)?,
            surplus: self.surplus.with(&Place::Surplus, movement)?,
            free: self.free.with(&Place::Free, movement)?,
            missing: self.missing.with(&Place::Missing, movement)?,
            departed: self.departed.with(&Place::Departed, movement)?,
            delivered: self.delivered.with(&Place::Delivered, movement)?,
            transferred: self.transferred.with(&Place::Transferred, movement)?,
        })
    }

    pub(crate) fn balances(&self) -> Result<Balances, StoreFault>
        ensures { IfOk result (λ balances. balances ≡ balances_by self.now) }
    {
        Ok(Balances {
            taken: self.hand.drawn()?,
            found: self.surplus.drawn()?,
            free: self.free.held()?,
            missing: self.missing.held()?,
            departed: self.departed.held()?,
            delivered: self.delivered.held()?,
            transferred: self.transferred.held()?,
        })
    }
}
