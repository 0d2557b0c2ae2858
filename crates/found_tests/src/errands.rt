//! Errands for a station, and their outcomes.
use crate::readers::pending;
use awb_number::Awb;
use station_core::{ActFault, Input, Keeper, answer_one};
use station_days::Moment;
use std::alloc::Global;
use test_kit::{Job, answer_said, is_done, keyed, noon, say};

const DAY: [(&str, &str); 5] = [
    ("t1", "take-in\n055\n0000010\n10"),
    ("b1", "book\n020-12345675\nFRA\nJFK\n10\n1000\nCARGO"),
    ("r1", "receive\n020-12345675\n10\n1000\nACME"),
    ("m1", "manifest\n020-12345675\nLH400\n2026-01-12\nJFK\n4"),
    ("d1", "depart\nLH400\n2026-01-12"),
];

/// An errand for a station.
#[derive(Clone, Copy)]
pub enum Errand {
    /// Nothing.
    Nothing,
    /// The first commands of the day.
    Day(usize),
    /// Build two of three pieces of each of this many waybills on a flight.
    BuildUp(u32),
    /// List the unconfirmed messages.
    Outbox,
}

/// The outcome of work.
#[derive(Drop)]
pub enum Came {
    /// The files couldn't be opened, or their station couldn't be read.
    NotBegun,
    /// The store failed.
    Stopped,
    /// This many commands of the day were accepted.
    Played(usize),
    /// Everything was done, with this result.
    Done(String),
}

/// An errand to run on a keeper.
#[derive(Clone, Copy)]
pub struct Asked {
    pub alloc: Global,
    pub errand: Errand,
}

impl Job for Asked {
    /// The outcome; `None` if memory runs out or the errand can't be done.
    type Out = Option<Came>;

    fn run<K: Keeper>(self, station: &mut K) -> Option<Came> {
        let alloc = self.alloc;
        match self.errand {
            Errand::Nothing => Some(Came::Done(say(alloc, "ok")?)),
            Errand::Day(commands) => Some(Came::Played(act_on_day(station, commands))),
            Errand::BuildUp(waybills) => {
                build_up_all(alloc, station, waybills)?;
                Some(Came::Done(say(alloc, "ok")?))
            }
            Errand::Outbox => Some(Came::Done(pending(alloc, station, usize::MAX)?)),
        }
    }
}

fn accepts<K: Keeper>(station: &mut K, key: &str, command: &str) -> bool {
    let (Some(input), Some(noon)) = (keyed(key, command), noon()) else {
        return false;
    };
    is_done(station, &input, noon)
}

fn act_on_day<K: Keeper>(station: &mut K, wanted: usize) -> usize {
    for (done, (key, text)) in DAY.iter().take(wanted).enumerate() {
        if !accepts(station, key, text) {
            return done;
        }
    }
    wanted.min(DAY.len())
}

/// An input to pass to a station at a moment.
#[derive(Clone, Copy)]
pub struct Giving<'a> {
    pub alloc: Global,
    pub input: &'a Input<'a>,
    pub at: Moment,
}

impl Job for Giving<'_> {
    /// The answer; `None` for a failure other than the store's.
    type Out = Option<Came>;

    fn run<K: Keeper>(self, station: &mut K) -> Option<Came> {
        match answer_one(station, self.input, self.at) {
            Ok(answer) => Some(Came::Done(answer_said(self.alloc, &answer)?)),
            Err(ActFault::Store) => Some(Came::Stopped),
            Err(_) => None,
        }
    }
}

fn build_up<K: Keeper>(alloc: Global, station: &mut K, awb: Awb) -> Option<()> {
    let steps = [
        format!(in alloc; "book\n{awb}\nFRA\nJFK\n3\n100\nCARGO").ok()?,
        format!(in alloc; "receive\n{awb}\n3\n100\nACME").ok()?,
        format!(in alloc; "manifest\n{awb}\nLH400\n2026-01-12\nJFK\n2").ok()?,
    ];
    for (at, text) in steps.iter().enumerate() {
        let key = format!(in alloc; "{}-{at}", awb.serial()).ok()?;
        if !accepts(station, key.as_str(), text.as_str()) {
            return None;
        }
    }
    Some(())
}

/// Builds the first waybills of prefix 020.
pub fn build_up_all<K: Keeper>(alloc: Global, station: &mut K, waybills: u32) -> Option<()> {
    for serial in 1..=waybills {
        build_up(alloc, station, Awb::new(20, serial)?)?;
    }
    Some(())
}
