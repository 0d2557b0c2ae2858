//! Databases that are opened as a station's: existing ones, right and damaged, and those of
//! stations that were stopped; and the calls of stations over tables, and of the tables themselves.
#![tactic(auto)]

mod databases;
mod disks;
mod errands;
mod faults;
mod finding;
mod fused;
mod listing;
mod memory;
mod readers;
mod repeats;
mod rows;
mod stopping;
mod stops;
mod tables;
mod work;

use databases::FoundAnswers;
use memory::{Run, Told, migration_told_at_last, told_at_last};
use repeats::RepeatAnswers;
use rows::RowAnswers;
use sqlite::MemStore;
use std::alloc::Global;
use std::io;
use tables::Fresh;
use test_kit::{Answers, go_through_file};

/// The files of the folder `found`, in the order in which they run.
pub const FILES: &[&str] = &["found", "stops", "repeats"];

/// The answers to the cases of a file.
#[derive(Drop)]
struct FileAnswers<'a, S: Fresh> {
    alloc: Global,
    file: &'a str,
    found: FoundAnswers<S>,
    repeats: RepeatAnswers,
    rows: RowAnswers<S>,
}

impl<S: Fresh> Answers for FileAnswers<'_, S> {
    fn answer(&mut self, asked: &str, text: &[u8]) -> Option<String> {
        match self.file {
            "found" => self.found.answer(asked, text),
            "stops" => stops::answer::<S>(self.alloc, asked),
            "repeats" => self.repeats.answer(asked, text),
            "rows" => self.rows.answer(asked, text),
            "tables" => match asked {
                "runs-of-row" => rows::runs_of_row::<S>(self.alloc, text),
                _ => self.found.answer(asked, text),
            },
            _ => None,
        }
    }
}

fn run_memory_over<S: Fresh>(rt: &HostRuntime) -> Result<bool, io::Error> {
    let mut all = true;
    for run in Run::ALL {
        let told = told_at_last::<S>(rt.alloc(), run);
        println!(rt; "{run:?}: {}", told.word())?;
        all &= told != Told::Otherwise;
    }
    let told = migration_told_at_last::<S>(rt.alloc());
    println!(rt; "Migration: {}", told.word())?;
    Ok(all && told != Told::Otherwise)
}

/// Does the same over tables in memory.
pub fn run_memory(rt: &HostRuntime) -> Result<bool, io::Error> {
    run_memory_over::<MemStore>(rt)
}

fn run_file_over<S: Fresh>(rt: &HostRuntime, folder: &str, file: &str) -> Result<bool, io::Error> {
    let mut answers: FileAnswers<'_, S> = FileAnswers {
        alloc: rt.alloc(),
        file,
        found: FoundAnswers::new(rt.alloc()),
        repeats: RepeatAnswers::new(rt.alloc()),
        rows: RowAnswers::new(rt.alloc()),
    };
    go_through_file(rt, folder, file, &mut answers)
}

/// Does the same over tables in memory.
pub fn run_file(rt: &HostRuntime, folder: &str, file: &str) -> Result<bool, io::Error> {
    run_file_over::<MemStore>(rt, folder, file)
}
