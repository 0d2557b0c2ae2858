ghost use Rattle.std.specs.Prelude.{◌≡◌, ℕ, ◌≤◌, ◌<◌, true, None, Some, cond, ◌&&◌, nat_lt, nat_eq, IsSome, IfSome, OnOk, OnErr, IfOk};
ghost use Rattle.state_store.specs.Common.{nat_cmp, get, IsOrdered, Holders, is_run, assigned, lowest_failing};
ghost use Rattle.state_store.specs.Store.{holders_of, nobody};

use agent_stock::{Holder, Run, Test};
use awb_number::Awb;
use std::alloc::{AllocError, Global};
use std::collections::BTreeMap;

/// The stock by runs: an entry names the holder of the numbers from its key up to the next entry's.
/// Neighbours may name the same holder.
#[derive(Clone, Drop)]
pub(crate) struct MapStock {
    pub(crate) begins: BTreeMap<u64, Option<Holder>>,
}

impl MapStock {
    pub(crate) fn new(alloc: Global) -> MapStock
        ensures { holders_of result ≡ nobody }
    {
        MapStock {
            begins: BTreeMap::new(alloc),
        }
    }

    fn at(&self, key: u64) -> Option<Holder>
        ensures { result ≡ holders_of self.now key }
    {
        match self.begins.range(..=key).next_back() {
            Some((_, holder)) => *holder,
            None => None,
        }
    }

    pub(crate) fn get(&self, number: &Awb) -> Option<Holder>
        ensures { result ≡ holders_of self.now number.now }
    {
        self.at(number.key())
    }

    /// Returns the lowest number of a run that fails a test, if any. It allocates nothing, and
    /// tests the numbers of one entry only once.
    pub(crate) fn lowest_failing(&self, run: &Run, test: &Test) -> Option<Awb>
        requires run { is_run run.now ≡ true }
        ensures { result ≡ lowest_failing (holders_of self.now) run.now test.now }
    {
        let end = run.first.key() + u64::from(run.count.number());
        let mut key = run.first.key();
        while key < end {
            if !test.passes(&self.at(key)) {
                return Awb::of_key(key);
            }
            key = self.next_from(key, end);
        }
        None
    }

    /// Returns the key of the next entry after `key`, or `end` if there is none before it.
    fn next_from(&self, key: u64, end: u64) -> u64
        requires { key < end }
        ensures after { key < result }
        ensures within { result ≤ end }
        ensures ordered { IsOrdered nat_cmp self.now.begins }
        ensures none { (q : ℕ) → key < q → q < result → get nat_cmp self.now.begins q ≡ None }
    {
        match self.begins.range(key + 1..end).next() {
            Some((next, _)) => *next,
            None => end,
        }
    }

    /// Makes an entry begin at a key, without changing any holder.
    fn begin_at(&mut self, key: u64) -> Result<(), AllocError>
        ensures same { holders_of self.new ≡ holders_of self.old }
        ensures begun { OnOk result (IsSome (get nat_cmp self.new.begins key)) }
        ensures ordered { IsOrdered nat_cmp self.new.begins }
        ensures others { (q : ℕ) → IsSome (get nat_cmp self.old.begins q)
            → IsSome (get nat_cmp self.new.begins q) }
    {
        let holder = self.at(key);
        self.begins.insert(key, holder)?;
        Ok(())
    }

    /// Removes the entries that begin between two keys.
    fn join_between(&mut self, first: u64, end: u64)
        ensures { (q : ℕ) → get nat_cmp self.new.begins q
            ≡ cond (nat_lt first q && nat_lt q end) None (get nat_cmp self.old.begins q) }
    {
        while let Some(key) = self.next_between(first, end) {
            self.begins.remove(&key);
        }
    }

    /// Returns the key of the first entry between two keys.
    fn next_between(&self, first: u64, end: u64) -> Option<u64>
        ensures some { IfSome result (λ key. IsSome (get nat_cmp self.now.begins key)
            × (first < key) × (key < end)) }
        ensures none { result ≡ None → (q : ℕ) → first < q → q < end
            → get nat_cmp self.now.begins q ≡ None }
    {
        if end <= first {
            return None;
        }
        let (key, _) = self.begins.range(first + 1..end).next()?;
        Some(*key)
    }

    /// Gives a run to a holder. If memory runs out, every number stays with its holder.
    pub(crate) fn assign(&mut self, run: &Run, holder: &Holder) -> Result<(), AllocError>
        requires run { is_run run.now ≡ true }
        ensures ok { OnOk result (holders_of self.new
            ≡ assigned (holders_of self.old) run.now holder.now) }
        ensures err { OnErr result (holders_of self.new ≡ holders_of self.old) }
    {
        let first = run.first.key();
        let end = first + u64::from(run.count.number());
        self.begin_at(end)?;
        self.begin_at(first)?;
        self.join_between(first, end);
        let Ok(_) = self.begins.insert(first, Some(*holder)) else {
            unreachable!();
        };
        Ok(())
    }
}
