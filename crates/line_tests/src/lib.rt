//! Calls of the program: the meaning of their words, their output, and their end. All calls of a
//! file share the station of `--db`.
#![tactic(auto)]

mod calls;
mod client;
mod clock;
mod desk;
mod files;
mod samples;
mod words;

use desk::{Blank, Desk};
use files::FileBytes;
use sqlite::MemStore;
use sqlite_disk::Memory;
use std::alloc::Global;
use std::io;
use test_kit::{Answers, go_through_file};

/// The files of cases, in the order of their runs.
pub const FILES: &[&str] = &[
    "words",
    "clock",
    "calls",
    "cut-calls",
    "reasons",
    "many-inputs",
    "parts",
    "files",
    "client",
];

#[derive(Drop)]
struct FileAnswers<'a, S: Blank> {
    alloc: Global,
    file: &'a str,
    desk: Desk<S>,
    bytes: FileBytes,
}

impl<S: Blank> Answers for FileAnswers<'_, S> {
    fn answer(&mut self, asked: &str, text: &[u8]) -> Option<String> {
        match self.file {
            "words" => words::answer(self.alloc, asked, text),
            "clock" => clock::answer(self.alloc, asked, text),
            "calls" | "cut-calls" | "reasons" | "many-inputs" | "parts" => calls::answer(
                self.alloc,
                &mut self.desk,
                asked,
                text,
            ),
            "files" => files::answer::<Memory>(self.alloc, &mut self.bytes, asked, text),
            "client" => client::answer(self.alloc, asked, text),
            _ => None,
        }
    }
}

fn run_file_over<S: Blank>(rt: &HostRuntime, file: &str) -> Result<bool, io::Error> {
    let mut answers: FileAnswers<'_, S> = FileAnswers {
        alloc: rt.alloc(),
        file,
        desk: Desk::new(),
        bytes: FileBytes::new(rt.alloc()),
    };
    go_through_file(rt, "lines", file, &mut answers)
}

/// Runs a file of cases like `go_through_file`.
pub fn run_file(rt: &HostRuntime, file: &str) -> Result<bool, io::Error> {
    run_file_over::<MemStore>(rt, file)
}
