ghost use Rattle.std.specs.Prelude.{◌≡◌, None, OnOk, IfErr};
ghost use Rattle.agent_stock.specs.Stock.{run_refusal, order_refusal, assigned, after_order, RefusesOrder, UnlessRows, run_of, test_of, holder_after, refusal_number};

use crate::rows::StockRows;
use crate::stock::{AgentCode, Holder, Order, Run, StockFault, Test};

/// Gives the run of an order to its new holder, if each of its numbers passes the test.
fn change<R: StockRows>(rows: &mut R, terms: &Terms) -> Result<(), StockFault<R::Fault>>
    requires { R.is_sound rows.old → R.is_ready rows.old }
    ensures accepted { R.is_sound rows.new
        → OnOk result
        (run_refusal (R.holders rows.old) terms.now.run terms.now.test terms.now.refusal ≡ None) }
    ensures given { R.is_sound rows.new
        → OnOk result
        (R.holders rows.new ≡ assigned (R.holders rows.old) terms.now.run terms.now.to) }
    ensures beside { R.is_sound rows.new → OnOk result (R.beside rows.old rows.new) }
    ensures refused { R.is_sound rows.new
        → IfErr result
        (RefusesOrder
        (run_refusal (R.holders rows.old) terms.now.run terms.now.test terms.now.refusal)
        (R.holders rows.old) (R.holders rows.new)) }
    ensures as_before { R.is_sound rows.new
        → IfErr result (UnlessRows (R.as_before rows.old rows.new)) }
    ensures sound { R.is_sound rows.new → R.is_sound rows.old }
    ensures commits { R.commits_nothing rows.old rows.new }
{
    if !terms.run.is_run() {
        return Err(StockFault::Refused(105, None));
    }
    match rows.uniform(&terms.run, &terms.test) {
        Err(fault) => Err(StockFault::Rows(fault)),
        Ok(Some(lowest)) => Err(StockFault::Refused(terms.refusal, Some(lowest))),
        Ok(None) => match rows.assign(&terms.run, &terms.to) {
            Err(fault) => Err(StockFault::Rows(fault)),
            Ok(()) => Ok(()),
        },
    }
}

/// Carries out an order.
pub fn carry_out<R: StockRows>(rows: &mut R, order: &Order) -> Result<(), StockFault<R::Fault>>
    requires { R.is_sound rows.old → R.is_ready rows.old }
    ensures accepted { R.is_sound rows.new
        → OnOk result (order_refusal (R.holders rows.old) (order.now) ≡ None) }
    ensures given { R.is_sound rows.new
        → OnOk result (R.holders rows.new ≡ after_order (R.holders rows.old) (order.now)) }
    ensures beside { R.is_sound rows.new → OnOk result (R.beside rows.old rows.new) }
    ensures refused { R.is_sound rows.new
        → IfErr result
        (RefusesOrder (order_refusal (R.holders rows.old) (order.now)) (R.holders rows.old)
        (R.holders rows.new)) }
    ensures as_before { R.is_sound rows.new
        → IfErr result (UnlessRows (R.as_before rows.old rows.new)) }
    ensures sound { R.is_sound rows.new → R.is_sound rows.old }
    ensures commits { R.commits_nothing rows.old rows.new }
{
    change(rows, &order.terms())
}

/// Takes in numbers that aren't in stock, for the desk. Refuses with 105, then 101.
pub fn take_in<R: StockRows>(rows: &mut R, run: &Run) -> Result<(), StockFault<R::Fault>>
    requires { R.is_sound rows.old → R.is_ready rows.old }
    ensures accepted { R.is_sound rows.new
        → OnOk result (order_refusal (R.holders rows.old) (Order.TakeIn run.now) ≡ None) }
    ensures given { R.is_sound rows.new
        → OnOk result
        (R.holders rows.new ≡ after_order (R.holders rows.old) (Order.TakeIn run.now)) }
    ensures beside { R.is_sound rows.new → OnOk result (R.beside rows.old rows.new) }
    ensures refused { R.is_sound rows.new
        → IfErr result
        (RefusesOrder (order_refusal (R.holders rows.old) (Order.TakeIn run.now))
        (R.holders rows.old) (R.holders rows.new)) }
    ensures as_before { R.is_sound rows.new
        → IfErr result (UnlessRows (R.as_before rows.old rows.new)) }
    ensures sound { R.is_sound rows.new → R.is_sound rows.old }
    ensures commits { R.commits_nothing rows.old rows.new }
{
    carry_out(rows, &Order::TakeIn(*run))
}

/// Issues numbers of the desk to an agent. Refuses with 105, then 102.
pub fn issue<R: StockRows>(
    rows: &mut R,
    run: &Run,
    agent: AgentCode,
) -> Result<(), StockFault<R::Fault>>
    requires { R.is_sound rows.old → R.is_ready rows.old }
    ensures accepted { R.is_sound rows.new
        → OnOk result (order_refusal (R.holders rows.old) (Order.Issue run.now agent) ≡ None) }
    ensures given { R.is_sound rows.new
        → OnOk result
        (R.holders rows.new ≡ after_order (R.holders rows.old) (Order.Issue run.now agent)) }
    ensures beside { R.is_sound rows.new → OnOk result (R.beside rows.old rows.new) }
    ensures refused { R.is_sound rows.new
        → IfErr result
        (RefusesOrder (order_refusal (R.holders rows.old) (Order.Issue run.now agent))
        (R.holders rows.old) (R.holders rows.new)) }
    ensures as_before { R.is_sound rows.new
        → IfErr result (UnlessRows (R.as_before rows.old rows.new)) }
    ensures sound { R.is_sound rows.new → R.is_sound rows.old }
    ensures commits { R.commits_nothing rows.old rows.new }
{
    carry_out(rows, &Order::Issue(*run, agent))
}

/// Returns numbers of an agent to the desk. Refuses with 105, then 103.
pub fn give_back<R: StockRows>(
    rows: &mut R,
    run: &Run,
    agent: AgentCode,
) -> Result<(), StockFault<R::Fault>>
    requires { R.is_sound rows.old → R.is_ready rows.old }
    ensures accepted { R.is_sound rows.new
        → OnOk result (order_refusal (R.holders rows.old) (Order.GiveBack run.now agent) ≡ None) }
    ensures given { R.is_sound rows.new
        → OnOk result
        (R.holders rows.new ≡ after_order (R.holders rows.old) (Order.GiveBack run.now agent)) }
    ensures beside { R.is_sound rows.new → OnOk result (R.beside rows.old rows.new) }
    ensures refused { R.is_sound rows.new
        → IfErr result
        (RefusesOrder (order_refusal (R.holders rows.old) (Order.GiveBack run.now agent))
        (R.holders rows.old) (R.holders rows.new)) }
    ensures as_before { R.is_sound rows.new
        → IfErr result (UnlessRows (R.as_before rows.old rows.new)) }
    ensures sound { R.is_sound rows.new → R.is_sound rows.old }
    ensures commits { R.commits_nothing rows.old rows.new }
{
    carry_out(rows, &Order::GiveBack(*run, agent))
}

/// Voids numbers of the desk or of agents. Refuses with 105, then 104.
pub fn void_run<R: StockRows>(rows: &mut R, run: &Run) -> Result<(), StockFault<R::Fault>>
    requires { R.is_sound rows.old → R.is_ready rows.old }
    ensures accepted { R.is_sound rows.new
        → OnOk result (order_refusal (R.holders rows.old) (Order.Void run.now) ≡ None) }
    ensures given { R.is_sound rows.new
        → OnOk result (R.holders rows.new ≡ after_order (R.holders rows.old) (Order.Void run.now)) }
    ensures beside { R.is_sound rows.new → OnOk result (R.beside rows.old rows.new) }
    ensures refused { R.is_sound rows.new
        → IfErr result
        (RefusesOrder (order_refusal (R.holders rows.old) (Order.Void run.now)) (R.holders rows.old)
        (R.holders rows.new)) }
    ensures as_before { R.is_sound rows.new
        → IfErr result (UnlessRows (R.as_before rows.old rows.new)) }
    ensures sound { R.is_sound rows.new → R.is_sound rows.old }
    ensures commits { R.commits_nothing rows.old rows.new }
{
    carry_out(rows, &Order::Void(*run))
}

/// An order in normal form: the run, the test that each number must pass, and the new holder.
#[derive(Clone, Copy)]
pub struct Terms {
    /// The numbers. A run that can't be ordered is refused with 105.
    pub run: Run,
    /// The test of each number's holder.
    pub test: Test,
    /// The new holder.
    pub to: Holder,
    /// The number of the refusal for the lowest number that fails the test: 101 to 104.
    pub refusal: u16,
}

impl Order {
    /// Returns the order in normal form.
    pub fn terms(&self) -> Terms
        ensures run { result.run ≡ run_of self.now }
        ensures test { result.test ≡ test_of self.now }
        ensures holder { result.to ≡ holder_after self.now }
        ensures refusal { result.refusal ≡ refusal_number self.now }
    {
        let (run, test, to, refusal) = match self {
            Order::TakeIn(run) => (run, Test::Absent, Holder::Desk, 101),
            Order::Issue(run, agent) => (run, Test::Desk, Holder::Agent(*agent), 102),
            Order::GiveBack(run, agent) => (run, Test::With(*agent), Holder::Desk, 103),
            Order::Void(run) => (run, Test::DeskOrAgent, Holder::Void, 104),
        };
        Terms {
            run: *run,
            test,
            to,
            refusal,
        }
    }
}
