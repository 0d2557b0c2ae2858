//! The waybills that are asked for by what their moves add up to.
#![tactic(auto, using(crate::proofs::Lifting::rests_on, crate::proofs::Lifting::survives_so))]

ghost use Rattle.std.specs.Prelude.{◌≡◌, ◌++◌, Some};
ghost use Rattle.table_state.specs.Common.{ReadsAtRest, asked, waybills_for};
ghost use Rattle.table_state.specs.Shown.{HasAsked, in_tables};

use crate::state::TableState;
use crate::waybill_sets::asked_among;
use awb_number::Awb;
use state_store::{StoreFault, WaybillQuery};
use station_core::WaybillBalances;
use station_rows::TableStore;
use std::collections::BTreeSet;

impl<S: TableStore> TableState<S> {
    /// Puts the waybill of a number behind the others with its balances, if it is asked for.
    fn put_asked(
        &mut self,
        rows: &mut Vec<WaybillBalances>,
        query: WaybillQuery,
        number: u64,
    ) -> Result<(), StoreFault>
        ensures { ReadsAtRest (in_tables S.view) self.old self.new result
            (λ s done. rows.new.items ≡ rows.old.items ++ asked query s.cargo.book number) }
    {
        let awb = Awb::of_key(number).ok_or(StoreFault)?;
        let balances = row_codec::balances(&mut self.store, &mut self.counted.known, &awb)?;
        if !query.asks_for(&balances) {
            return Ok(());
        }
        rows.push(WaybillBalances { awb, balances })?;
        Ok(())
    }

    /// The waybills of the book that are asked for, ascending, each with its balances, where all of
    /// them are among these numbers: one read for each number.
    fn asked_in(
        &mut self,
        query: WaybillQuery,
        waybills: &BTreeSet<u64>,
    ) -> Result<Vec<WaybillBalances>, StoreFault>
        ensures { ReadsAtRest (in_tables S.view) self.old self.new result
            (λ s rows. HasAsked query (Some waybills.now) s.cargo.book
            → rows.items ≡ waybills_for query s.cargo.book) }
    {
        let mut rows = Vec::new(self.alloc);
        for number in waybills {
            self.put_asked(&mut rows, query, *number)?;
        }
        Ok(rows)
    }

    /// The waybills of the book that are asked for, ascending, each with its balances: one pass
    /// over all balances.
    fn asked_in_all(&mut self, query: WaybillQuery) -> Result<Vec<WaybillBalances>, StoreFault>
        ensures { ReadsAtRest (in_tables S.view) self.old self.new result
            (λ s rows. rows.items ≡ waybills_for query s.cargo.book) }
    {
        let all = row_codec::all_balances(self.alloc, &mut self.store)?;
        asked_among(self.alloc, query, &all)
    }

    /// The waybills of the book that are asked for, ascending, each with its balances: one read for
    /// each that is kept, or one pass over all balances. What is kept of them is handed out of
    /// `self` before.
    pub(crate) fn asked(&mut self, query: WaybillQuery) -> Result<Vec<WaybillBalances>, StoreFault>
        ensures { ReadsAtRest (in_tables S.view) self.old self.new result
            (λ s rows. rows.items ≡ waybills_for query s.cargo.book) }
    {
        match self.counted.waybills.take(query) {
            Some(kept) => self.asked_in(query, &kept),
            None => self.asked_in_all(query),
        }
    }
}
