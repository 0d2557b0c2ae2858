ghost use Rattle.std.specs.Prelude.{◌≡◌, None, OnOk, OnErr, IfErr};
ghost use Rattle.state_store.specs.Common.{run_refusal, order_refusal, assigned, after_order, RefusesOrder};
ghost use Rattle.state_store.specs.Store.{holders_of};

use crate::maps::stock::MapStock;
use agent_stock::{Order, StockFault, Terms};
use std::alloc::AllocError;

impl MapStock {
    /// Gives the run of an order to its new holder, if each of its numbers passes the test.
    fn change(&mut self, terms: &Terms) -> Result<(), StockFault<AllocError>>
        ensures accepted { OnOk result (run_refusal (holders_of self.old) terms.now.run
            terms.now.test terms.now.refusal ≡ None) }
        ensures given { OnOk result (holders_of self.new
            ≡ assigned (holders_of self.old) terms.now.run terms.now.to) }
        ensures refused { IfErr result (RefusesOrder (run_refusal (holders_of self.old)
            terms.now.run terms.now.test terms.now.refusal) (holders_of self.old)
            (holders_of self.new)) }
        ensures err { OnErr result (holders_of self.new ≡ holders_of self.old) }
    {
        if !terms.run.is_run() {
            return Err(StockFault::Refused(105, None));
        }
        match self.lowest_failing(&terms.run, &terms.test) {
            Some(lowest) => Err(StockFault::Refused(terms.refusal, Some(lowest))),
            None => match self.assign(&terms.run, &terms.to) {
                Err(fault) => Err(StockFault::Rows(fault)),
                Ok(()) => Ok(()),
            },
        }
    }

    /// Carries out an order. After a fault, also if memory runs out, every number stays with its
    /// holder.
    pub(crate) fn carry_out(&mut self, order: &Order) -> Result<(), StockFault<AllocError>>
        ensures accepted { OnOk result (order_refusal (holders_of self.old) order.now ≡ None) }
        ensures given { OnOk result (holders_of self.new
            ≡ after_order (holders_of self.old) order.now) }
        ensures refused { IfErr result (RefusesOrder (order_refusal (holders_of self.old)
            order.now) (holders_of self.old) (holders_of self.new)) }
        ensures err { OnErr result (holders_of self.new ≡ holders_of self.old) }
    {
        self.change(&order.terms())
    }
}
