//! Cases about a waybill, on the plain station and over tables.
use crate::desk::{Kind, ask_new};
use crate::waybill::{all_done, at, booking, day, receipt};
use station_core::{BookRow, Input, Keeper, Message, act_all};
use station_days::Moment;
use std::alloc::Global;
use test_kit::{Answers, Job, Taken, answers_said, count_said, keyed, shown};

fn list_told<K: Keeper>(
    alloc: Global,
    station: &mut K,
    inputs: &[(Input<'_>, Moment)],
) -> Option<String> {
    let all = act_all(alloc, station, inputs);
    match all.fault {
        None => answers_said(alloc, &all.answers),
        Some(_) => None,
    }
}

/// Returns the answers to a list with a repeat and with a key that has another command.
fn at_once<K: Keeper>(alloc: Global, station: &mut K) -> Option<String> {
    let inputs = [
        (booking()?, at(10, 0)?),
        (receipt()?, at(10, 30)?),
        (receipt()?, at(11, 0)?),
        (keyed("r1", "confirm\n0")?, at(11, 0)?),
    ];
    list_told(alloc, station, &inputs)
}

/// Returns the number of moves that a sink of this size takes.
fn book_rows<K: Keeper>(alloc: Global, station: &mut K, most: usize) -> Option<String> {
    let mut sink: Taken<BookRow> = Taken::new(alloc, most);
    let is_given = station.book(&mut sink).is_ok();
    count_said(alloc, is_given, sink.rows.len())
}

fn pending_rows<K: Keeper>(alloc: Global, station: &mut K, most: usize) -> Option<String> {
    let mut sink: Taken<Message> = Taken::new(alloc, most);
    let is_given = station.pending(&mut sink).is_ok();
    count_said(alloc, is_given, sink.rows.len())
}

#[derive(Clone, Copy)]
struct CargoCase<'a> {
    alloc: Global,
    asked: &'a str,
    text: &'a [u8],
}

impl Job for CargoCase<'_> {
    type Out = Option<String>;

    fn run<K: Keeper>(self, keeper: &mut K) -> Option<String> {
        let alloc = self.alloc;
        if self.asked == "at-once" {
            return at_once(alloc, keeper);
        }
        let most = shown(self.text).parse::<usize>().ok()?;
        let inputs = day(alloc)?;
        match self.asked {
            "book" => {
                all_done(keeper, &inputs)?;
                book_rows(alloc, keeper, most)
            }
            "pending" => {
                all_done(keeper, &inputs)?;
                pending_rows(alloc, keeper, most)
            }
            "pending-of-a-list" => {
                list_told(alloc, keeper, &inputs)?;
                pending_rows(alloc, keeper, most)
            }
            _ => None,
        }
    }
}

#[derive(Drop)]
pub struct CargoAnswers {
    pub alloc: Global,
}

impl Answers for CargoAnswers {
    fn answer(&mut self, asked: &str, text: &[u8]) -> Option<String> {
        let alloc = self.alloc;
        let case = CargoCase { alloc, asked, text };
        let plain = ask_new(alloc, Kind::Plain, case).ok()??;
        let tables = ask_new(alloc, Kind::Tables, case).ok()??;
        if plain.as_str() == tables.as_str() {
            Some(plain)
        } else {
            format!(in alloc; "{plain}, and over tables {tables}").ok()
        }
    }
}
