//! New tables in memory, jobs over them as over any store of a station's state, and jobs on a
//! station over tables.
use imp_fields::Airport;
use sqlite::{Alter, Connection, MemStore};
use state_store::StateStore;
use station_rows::open_memory;
use station_tables::Station;
use std::alloc::Global;
use test_kit::Job;

/// A store of tables in memory.
pub trait Fresh: Alter + Drop {
    fn open(alloc: Global) -> Option<Connection<Self>>;
}

impl Fresh for MemStore {
    fn open(alloc: Global) -> Option<Connection<MemStore>> {
        open_memory(alloc).ok()
    }
}

/// Returns the airport of the stations.
pub fn here() -> Option<Airport> {
    Airport::read(b"FRA")
}

/// A job over any store of a station's state.
pub trait StoreJob {
    /// The result.
    type Out;

    fn run<T: StateStore>(self, alloc: Global, store: T) -> (Option<Self::Out>, T);
}

/// Runs a job over the new tables of a station at FRA.
pub fn over_tables<S: Fresh, J: StoreJob + Drop>(
    alloc: Global,
    job: J,
) -> Option<(J::Out, Connection<S>)> {
    let conn = S::open(alloc)?;
    let Ok(tables) = table_state::create(alloc, conn, here()?) else {
        return None;
    };
    let (out, tables) = job.run(alloc, tables);
    let conn = tables.release();
    Some((out?, conn))
}

/// Runs a job on a station.
pub fn ask<S: Alter, J: Job>(station: &mut Station<S>, job: J) -> J::Out {
    job.run(station)
}
