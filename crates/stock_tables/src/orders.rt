//! Orders on the stock.
//! The lowest number of a run that fails a test.

ghost use Rattle.std.specs.Prelude.{◌≡◌, true, false, Err, None, ◌+◌, ◌≤◌, ◌<◌, ◌⊎◌, ◌↔◌, ℕ, IsTrue};
ghost use Rattle.stock_tables.specs.Common.{is_run, lowest_failing, refused_by, run_refusal, order_refusal, run_of, assigned, after_order, Holders, passes, covers, StandFrom, holders_by};
ghost use Rattle.stock_tables.specs.Stocked.{Ordered};

use crate::giving::begin_giving;
use crate::near::near_of;
use crate::row::end_key;
use agent_stock::{Holder, Order, Run, StockFault, StockRun, Terms, Test};
use awb_number::Awb;
use station_rows::{StoreFault, TableStore};
use std::alloc::Global;

/// Carries out terms whose run can be ordered, where each of its numbers passes the test.
fn change_run<S: TableStore>(
    alloc: Global,
    store: &mut S,
    terms: &Terms,
) -> Result<(), StockFault<StoreFault>>
    requires { is_run terms.now.run ≡ true }
    ensures { Ordered (S.view store.old) (S.view store.new) result terms.now.run
        (λ h. refused_by (lowest_failing h terms.now.run terms.now.test) terms.now.refusal)
        (λ h. assigned h terms.now.run terms.now.to) }
{
    let near = match near_of(alloc, store, &terms.run) {
        Ok(near) => near,
        Err(fault) => return Err(StockFault::Rows(fault)),
    };
    match lowest_of(&near, &terms.run, &terms.test) {
        Some(lowest) => Err(StockFault::Refused(terms.refusal, Some(lowest))),
        None => match begin_giving(alloc, store, &terms.run, &near, &terms.to) {
            Ok(()) => Ok(()),
            Err(fault) => Err(StockFault::Rows(fault)),
        },
    }
}

/// Carries out the terms of an order, where each number of their run passes the test.
fn change<S: TableStore>(
    alloc: Global,
    store: &mut S,
    terms: &Terms,
) -> Result<(), StockFault<StoreFault>>
    ensures ordered { Ordered (S.view store.old) (S.view store.new) result terms.now.run
        (λ h. run_refusal h terms.now.run terms.now.test terms.now.refusal)
        (λ h. assigned h terms.now.run terms.now.to) }
    ensures size { is_run terms.now.run ≡ false → (result ≡ Err (StockFault.Refused 105 None))
        × (store.new ≡ store.old) }
{
    if !terms.run.is_run() {
        return Err(StockFault::Refused(105, None));
    }
    change_run(alloc, store, terms)
}

/// Does an order in a transaction that it begins, and leaves that open. Where the order is refused
/// none is begun, and nothing changes. `Rows`: a database call failed, a transaction was open
/// already, or memory runs out.
pub fn carry_out_order<S: TableStore>(
    alloc: Global,
    store: &mut S,
    order: &Order,
) -> Result<(), StockFault<StoreFault>>
    ensures ordered { Ordered (S.view store.old) (S.view store.new) result (run_of order.now)
        (λ h. order_refusal h order.now) (λ h. after_order h order.now) }

    // A run of a size that can't be ordered is refused at once.
    ensures size { is_run (run_of order.now) ≡ false → (result ≡ Err (StockFault.Refused 105 None))
        × (store.new ≡ store.old) }
{
    change(alloc, store, &order.terms())
}

/// The greater of two.
fn later(one: u64, other: u64) -> u64
    ensures first { one ≤ result }
    ensures second { other ≤ result }
    ensures one { (result ≡ one) ⊎ (result ≡ other) }
{
    if one < other { other } else { one }
}

/// Returns whether there is a number from `from` on, below `to` and `end`, whose holder, or none,
/// fails the test.
fn fails(test: &Test, holder: &Option<Holder>, from: u64, to: u64, end: u64) -> bool
    ensures { IsTrue result
        ↔ ((from < to) × ((from < end) × (passes test.now holder.now ≡ false))) }
{
    from < to && from < end && !test.passes(holder)
}

/// The lowest number of a run that fails a test, by rows that are in ascending order and have all
/// numbers of the run that are in stock. A number that is in no row has no holder.
pub fn lowest_of(near: &[StockRun], run: &Run, test: &Test) -> Option<Awb>
    requires { is_run run.now ≡ true }
    ensures { (h : Holders) → StandFrom 0 near.now
        → ((q : ℕ) → IsTrue (covers run.now q) → holders_by near.now q ≡ h q)
        → result ≡ lowest_failing h run.now test.now }
{
    let end = run.first.key() + u64::from(run.count.number());
    let mut next = run.first.key();
    for row in near {
        let from = later(next, row.first.key());
        if fails(test, &None, next, from, end) {
            return Awb::of_key(next);
        }
        let to = later(from, end_key(row));
        if fails(test, &Some(row.holder), from, to, end) {
            return Awb::of_key(from);
        }
        next = to;
    }
    if fails(test, &None, next, end, end) {
        return Awb::of_key(next);
    }
    None
}
