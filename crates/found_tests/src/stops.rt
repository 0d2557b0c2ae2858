//! A store that fails at its n-th call, for every n: an opening finds the station before or after
//! the interrupted step.
use crate::disks::{Calls, FailingFile, FileBytes, Visited, found_in, visit};
use crate::errands::{Asked, Came, Errand};
use crate::finding::found;
use crate::fused::Fused;
use crate::tables::{Fresh, StoreJob, here, over_tables};
use crate::work::Work;
use awb_number::Awb;
use state_store::StateStore;
use station_core::{ActFault, Keeper};
use station_engine::StoredStation;
use std::alloc::Global;
use test_kit::{Job, say};

const NO_STATION: &str = "602, 0 tables and indexes";

const STEPS: usize = 6;

fn play(alloc: Global, calls: Calls, wanted: usize) -> Option<(usize, FileBytes)> {
    let fresh = FileBytes::new(alloc);
    if wanted == 0 {
        return Some((0, fresh));
    }
    let commands = Errand::Day(wanted - 1);
    let Visited {
        came,
        is_closed: _,
        bytes,
    } = visit(alloc, &fresh, calls, &Work::Make(here()?, commands), &[])?;
    match came {
        Came::NotBegun | Came::Stopped => Some((0, bytes)),
        Came::Played(commands) => Some((commands.saturating_add(1), bytes)),
        Came::Done(_) => None,
    }
}

fn number() -> Option<Awb> {
    Awb::new(20, 1_234_567)
}

fn state(alloc: Global, wanted: usize) -> Option<String> {
    let (steps, left) = play(alloc, Calls::all(), wanted)?;
    if steps != wanted {
        return None;
    }
    found_in(alloc, &left, &[number()?])
}

fn states(alloc: Global) -> Option<Vec<String>> {
    let mut states = Vec::new(alloc);
    for wanted in 0..=STEPS {
        let found = state(alloc, wanted)?;
        if (found.as_str() == NO_STATION) != (wanted == 0) {
            return None;
        }
        if wanted > 0 && is_state(&states, wanted - 1, found.as_str()) {
            return None;
        }
        states.push(found).ok()?;
    }
    Some(states)
}

fn is_state(states: &[String], steps: usize, found: &str) -> bool {
    match states.get(steps) {
        Some(state) => state.as_str() == found,
        None => false,
    }
}

fn stops(alloc: Global, file: FailingFile) -> Option<String> {
    let states = states(alloc)?;
    for calls in 0..5000 {
        let (steps, left) = play(alloc, Calls::of(file, calls), STEPS)?;
        let found = found_in(alloc, &left, &[number()?])?;
        let found = found.as_str();
        if !is_state(&states, steps, found) && !is_state(&states, steps.saturating_add(1), found) {
            return format!(in alloc; "{calls} calls, {steps} steps: {found}").ok();
        }
        if steps == STEPS {
            return say(alloc, "before or after");
        }
    }
    say(alloc, "no day came to its end")
}

fn commands_done<K: Keeper>(alloc: Global, station: &mut K) -> Option<usize> {
    let errand = Errand::Day(STEPS - 1);
    let commands = match (Asked { alloc, errand }).run(station)? {
        Came::Played(commands) => commands,
        _ => return None,
    };
    let goes_on = !matches!(station.holder(&number()?), Err(ActFault::Reopen));
    if goes_on == (commands == STEPS - 1) {
        Some(commands)
    } else {
        None
    }
}

/// A day over a store that serves a number of calls.
#[derive(Drop)]
struct FailingDay {
    calls: u32,
}

impl StoreJob for FailingDay {
    /// The number of steps done.
    type Out = usize;

    fn run<T: StateStore>(self, alloc: Global, store: T) -> (Option<usize>, T) {
        let mut station = StoredStation::over(alloc, Fused::new(store, self.calls));
        let commands = commands_done(alloc, &mut station);
        let store = station.into_store().into_store();
        (commands.map(|commands| commands.saturating_add(1)), store)
    }
}

fn play_in_memory<S: Fresh>(alloc: Global, calls: u32) -> Option<(usize, String)> {
    let numbers = [number()?];
    let (steps, conn) = over_tables::<S, FailingDay>(alloc, FailingDay { calls })?;
    let (said, _) = found(alloc, conn, &numbers);
    Some((steps, said?))
}

fn failing_calls<S: Fresh>(alloc: Global) -> Option<String> {
    let states = states(alloc)?;
    for calls in 0..5000 {
        let (steps, found) = play_in_memory::<S>(alloc, calls)?;
        let found = found.as_str();
        if !is_state(&states, steps, found) {
            return format!(in alloc; "{calls} calls, {steps} steps: {found}").ok();
        }
        if steps == STEPS {
            return say(alloc, "as acknowledged");
        }
    }
    say(alloc, "no day came to its end")
}

/// Returns the findings after stops at each call of a file, or of a store of tables.
pub fn answer<S: Fresh>(alloc: Global, asked: &str) -> Option<String> {
    match asked {
        "calls" => failing_calls::<S>(alloc),
        "log" => stops(alloc, FailingFile::Log),
        "database" => stops(alloc, FailingFile::Database),
        _ => None,
    }
}
