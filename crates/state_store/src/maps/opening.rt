//! A new station in memory, and a copy of one.
ghost use Rattle.std.specs.Prelude.{IfOk};
ghost use Rattle.state_store.specs.Common.{State, opening};
ghost use Rattle.state_store.specs.Store.{Shows, at_rest};

use crate::maps::book::MovementBook;
use crate::maps::state::MapState;
use crate::maps::stock::MapStock;
use crate::{ExpectedLines, StateStore, StoreFault};
use imp_fields::Airport;
use std::alloc::Global;
use std::collections::{BTreeMap, HashMap};

impl MapState {
    /// Returns the state of a new station, outside a transaction.
    pub fn new(alloc: Global, here: Airport) -> MapState
        ensures shows { ⟦<MapState as StateStore>⟧.storing.shows result (at_rest (opening here)) }
        ensures sound { ⟦<MapState as StateStore>⟧.storing.is_sound result }
    {
        MapState {
            alloc,
            here,
            stock: MapStock::new(alloc),
            declared: BTreeMap::new(alloc),
            book: MovementBook::new(alloc),
            flights: BTreeMap::new(alloc),
            expected: ExpectedLines::new(alloc),
            parts: BTreeMap::new(alloc),
            trail: Vec::new(alloc),
            outbox: Vec::new(alloc),
            confirmed: 0,
            kept_keys: HashMap::new(alloc),
            kept_texts: HashMap::new(alloc),
        }
    }

    /// Returns a copy that shows the same state. It fails only if memory runs out.
    pub fn try_clone(&self) -> Result<MapState, StoreFault>
        ensures { (s : State) → Shows self.now s → IfOk result (λ copy. Shows copy s) }
    {
        Ok(self.clone()?)
    }
}
