//! The keepers on which a day is played.
use imp_fields::Airport;
use plain_station::PlainStation;
use sqlite::MemStore;
use state_store::MapState;
use station_engine::StoredStation;
use station_rows::open_memory;
use station_tables::{AttachFault, Station, attach, create};
use std::alloc::Global;
use test_kit::Job;

#[derive(Clone, Copy)]
pub enum Kind {
    /// Maps in memory, copied for each input.
    Plain,
    /// Maps in memory.
    Maps,
    /// The tables of a store in memory.
    Tables,
    /// Tables that are opened again in the middle of the day.
    Reopened,
}

impl Kind {
    pub fn name(self) -> &'static str {
        match self {
            Kind::Plain => "the plain station",
            Kind::Maps => "maps",
            Kind::Tables => "tables",
            Kind::Reopened => "tables that were opened again",
        }
    }
}

#[derive(Drop)]
pub enum Desk {
    Plain(PlainStation),
    Maps(StoredStation<MapState>),
    Tables(Station<MemStore>),
}

fn tables(alloc: Global, here: Airport) -> Result<Desk, AttachFault> {
    let Ok(conn) = open_memory(alloc) else {
        return Err(AttachFault::Memory);
    };
    match create(alloc, conn, here) {
        Ok(station) => Ok(Desk::Tables(station)),
        Err((_, fault)) => Err(fault),
    }
}

impl Desk {
    /// Returns a new station. The fault is `Memory` if memory runs out before there are tables.
    pub fn new(alloc: Global, kind: Kind, here: Airport) -> Result<Desk, AttachFault> {
        match kind {
            Kind::Plain => Ok(Desk::Plain(PlainStation::new(alloc, here))),
            Kind::Maps => {
                let state = MapState::new(alloc, here);
                Ok(Desk::Maps(StoredStation::over(alloc, state)))
            }
            Kind::Tables | Kind::Reopened => tables(alloc, here),
        }
    }

    pub fn opened_again(self, alloc: Global) -> Result<Desk, AttachFault> {
        match self {
            Desk::Plain(station) => Ok(Desk::Plain(station)),
            Desk::Maps(station) => Ok(Desk::Maps(station)),
            Desk::Tables(station) => match attach(alloc, station.release()) {
                Ok(station) => Ok(Desk::Tables(station)),
                Err((_, fault)) => Err(fault),
            },
        }
    }

    /// Runs a job on the keeper. No other function hands out the station over tables: each that
    /// does costs the check as much as twenty others.
    pub fn ask<J: Job>(&mut self, job: J) -> J::Out {
        match self {
            Desk::Plain(station) => job.run(station),
            Desk::Maps(station) => job.run(station),
            Desk::Tables(station) => job.run(station),
        }
    }
}

/// Runs a job on a new station at FRA.
pub fn ask_new<J: Job + Drop>(alloc: Global, kind: Kind, job: J) -> Result<J::Out, AttachFault> {
    let Some(here) = Airport::read(b"FRA") else {
        return Err(AttachFault::NoStation);
    };
    let mut desk = Desk::new(alloc, kind, here)?;
    Ok(desk.ask(job))
}
