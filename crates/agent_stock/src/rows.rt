ghost use Rattle.std.specs.Prelude.{◌≡◌, true, IfOk, OnOk, ℕ, IsSome};
ghost use Rattle.std.specs.Ordering.{nat_cmp};
ghost use Rattle.std.specs.BTreeMap.{get};
ghost use Rattle.std.proofs.Props.{props};
ghost use Rattle.awb_number.specs.Number.{IsNumber};
ghost use Rattle.agent_stock.specs.Stock.{Holders, AreRuns, AreStockRuns, holders_by};

use crate::runs::{StockRun, maximal_runs};
use crate::stock::{Holder, Run, Test};
use awb_number::Awb;
use std::alloc::{AllocError, Global};
use std::collections::BTreeMap;

/// A store of the stock: a map from number to holder, which may fail. After a fault there is no
/// guarantee about what it holds.
pub trait StockRows {
    ghost use Rattle.agent_stock.specs.Stock.{Holders, is_run, lowest_failing, assigned};

    type Fault;

    /// The holder of each number.
    ghost holders: { Self → Holders };

    /// The premise of the contracts: the storage has worked so far.
    ghost is_sound: { Self → Type 0 };

    /// The store is ready to be read and changed.
    ghost is_ready: { Self → Type 0 };

    /// The second is like the first.
    ghost as_before: { Self → Self → Type 0 };

    /// The second is like the first, except for the holders.
    ghost beside: { Self → Self → Type 0 };

    /// Nothing was committed from the first to the second.
    ghost commits_nothing: { Self → Self → Type 0 };

    /// Returns the holder of a number.
    fn holder(&mut self, number: &Awb) -> Result<Option<Holder>, Self::Fault>
        requires { is_sound self.old → is_ready self.old }
        ensures answer { is_sound self.new
            → IfOk result (λ holder. holder ≡ holders self.old number.now) }
        ensures as_before { is_sound self.new → OnOk result (as_before self.old self.new) }
        ensures sound { is_sound self.new → is_sound self.old }
        ensures commits { commits_nothing self.old self.new };

    /// Returns the lowest number of a run that fails a test, if any.
    fn uniform(&mut self, run: &Run, test: &Test) -> Result<Option<Awb>, Self::Fault>
        requires run { is_run run.now ≡ true }
        requires ready { is_sound self.old → is_ready self.old }
        ensures answer { is_sound self.new
            → IfOk result
            (λ failing. failing ≡ lowest_failing (holders self.old) run.now test.now) }
        ensures as_before { is_sound self.new → OnOk result (as_before self.old self.new) }
        ensures sound { is_sound self.new → is_sound self.old }
        ensures commits { commits_nothing self.old self.new };

    /// Gives a run to a holder, and changes nothing else.
    fn assign(&mut self, run: &Run, holder: &Holder) -> Result<(), Self::Fault>
        requires run { is_run run.now ≡ true }
        requires ready { is_sound self.old → is_ready self.old }
        ensures answer { is_sound self.new
            → OnOk result (holders self.new ≡ assigned (holders self.old) run.now holder.now) }
        ensures beside { is_sound self.new → OnOk result (beside self.old self.new) }
        ensures sound { is_sound self.new → is_sound self.old }
        ensures commits { commits_nothing self.old self.new };

    ghost same_holders: { (a b : Self) → as_before a b → holders b ≡ holders a };

    ghost stays_ready: { (a b : Self) → as_before a b → is_ready a → is_ready b };

    ghost nothing_done: { (a : Self) → as_before a a };

    ghost stays_ready_beside: { (a b : Self) → beside a b → is_ready a → is_ready b };

    ghost goes_on: { (a b c : Self) → as_before a b → beside b c → beside a c };

    ghost beside_goes_on: { (a b c : Self) → beside a b → beside b c → beside a c };

    ghost nothing_to_commit: { (a : Self) → commits_nothing a a };

    ghost nothing_goes_on: { (a b c : Self) → commits_nothing a b → commits_nothing b c
        → commits_nothing a c };
}

/// The stock as a plain map in memory, with an entry for each number.
#[derive(Drop)]
pub struct PlainRows {
    by_number: BTreeMap<u64, Holder>,
    // Each key is that of a number.
    ghost are_numbers: { (q : ℕ) → IsSome (get nat_cmp by_number q) → IsNumber q } by { Prim.hlevel props },
}

impl PlainRows {
    ghost use Rattle.agent_stock.specs.Plain.{holders_of, nobody};

    /// Returns an empty stock.
    pub fn new(alloc: Global) -> PlainRows
        ensures { holders_of result ≡ nobody }
    {
        PlainRows {
            by_number: BTreeMap::new(alloc),
        }
    }

    /// Returns the holder of a number.
    pub fn get(&self, number: &Awb) -> Option<Holder>
        ensures { result ≡ holders_of self.now number.now }
    {
        self.by_number.get(&number.key()).copied()
    }

    /// Returns a copy with the same holders.
    pub fn try_clone(&self) -> Result<PlainRows, AllocError>
        ensures { IfOk result (λ copy. holders_of copy ≡ holders_of self.now) }
    {
        Ok(PlainRows {
            by_number: self.by_number.clone()?,
        })
    }

    /// Returns each number in stock as a row of one, ascending.
    fn in_stock(&self, alloc: Global) -> Result<Vec<StockRun>, AllocError>
        ensures rows { IfOk result (λ rows. AreRuns rows.items) }
        ensures holders { IfOk result (λ rows. holders_by rows.items ≡ holders_of self.now) }
    {
        let mut rows = Vec::new(alloc);
        for (key, holder) in &self.by_number {
            let first = Awb::of_key(*key).unwrap();
            rows.push(StockRun {
                first,
                count: 1,
                holder: *holder,
            })?;
        }
        Ok(rows)
    }

    /// Returns the maximal runs of the stock, ascending.
    pub fn runs(&self, alloc: Global) -> Result<Vec<StockRun>, AllocError>
        ensures { IfOk result (λ runs. AreStockRuns (holders_of self.now) runs.items) }
    {
        let rows = self.in_stock(alloc)?;
        maximal_runs(alloc, rows.as_slice())
    }
}

impl StockRows for PlainRows {
    ghost use Rattle.agent_stock.specs.Plain.{holders_of};

    type Fault = AllocError;

    ghost holders = { holders_of };

    ghost is_sound = { λ rows. Unit {0} };

    ghost is_ready = { λ rows. Unit {0} };

    ghost as_before = { λ a b. b ≡ a };

    ghost beside = { λ a b. Unit {0} };

    ghost commits_nothing = { λ a b. Unit {0} };

    ghost same_holders = { λ a b same i. holders_of (same i) };

    ghost stays_ready = { λ a b same ready. tt };

    ghost nothing_done = { λ a i. a };

    ghost stays_ready_beside = { λ a b beside ready. tt };

    ghost goes_on = { λ a b c same beside. tt };

    ghost beside_goes_on = { λ a b c first second. tt };

    ghost nothing_to_commit = { λ a. tt };

    ghost nothing_goes_on = { λ a b c first second. tt };

    fn holder(&mut self, number: &Awb) -> Result<Option<Holder>, AllocError> {
        Ok(self.get(number))
    }

    fn uniform(&mut self, run: &Run, test: &Test) -> Result<Option<Awb>, AllocError> {
        for key in run.first.key()..run.first.key() + u64::from(run.count.number()) {
            if !test.passes(&self.by_number.get(&key).copied()) {
                return Ok(Awb::of_key(key));
            }
        }
        Ok(None)
    }

    fn assign(&mut self, run: &Run, holder: &Holder) -> Result<(), AllocError> {
        for key in run.first.key()..run.first.key() + u64::from(run.count.number()) {
            self.by_number.insert(key, *holder)?;
        }
        Ok(())
    }
}
