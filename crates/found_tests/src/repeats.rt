//! A station over files in memory that are opened again for each call, as after a crash.
use crate::databases::statements;
use crate::disks::{FileBytes, found_in, said_of};
use crate::errands::Errand;
use crate::stopping::{Before, stops};
use crate::tables::here;
use crate::work::{InputForm, Work};
use awb_number::Awb;
use station_days::Moment;
use std::alloc::Global;
use test_kit::{say, shown};

const DAY: u32 = 20_465;

const CALLED: u16 = 630;

const REPEATED: u16 = 645;

/// The files of a station between the calls of a file, and the waybills whose records are compared.
#[derive(Drop)]
pub struct RepeatAnswers {
    alloc: Global,
    before: Before,
}

fn nothing(alloc: Global) -> Before {
    Before {
        bytes: FileBytes::new(alloc),
        numbers: Vec::new(alloc),
    }
}

impl RepeatAnswers {
    /// Starts with empty files.
    pub fn new(alloc: Global) -> RepeatAnswers {
        RepeatAnswers {
            alloc,
            before: nothing(alloc),
        }
    }

    /// Runs one call and returns its result as text.
    pub fn answer(&mut self, asked: &str, text: &[u8]) -> Option<String> {
        match asked {
            "empty" => self.forget(),
            "new" => {
                self.forget()?;
                self.work_on(&Work::Make(here()?, Errand::Nothing))
            }
            "sql" => self.execute(text),
            "created" => self.stop(&Work::Make(here()?, Errand::Nothing)),
            "migrated" => self.stop(&Work::Migrate),
            "waybill" => self.note(text),
            "built-up" => self.build_up(shown(text).parse::<u32>().ok()?),
            "outbox" => self.work_on(&Work::Open(Errand::Outbox)),
            _ => self.ask(asked, text),
        }
    }

    fn execute(&mut self, text: &[u8]) -> Option<String> {
        let statements = statements(self.alloc, text)?;
        self.work_on(&Work::Execute(statements.as_str()))
    }

    fn ask(&mut self, asked: &str, text: &[u8]) -> Option<String> {
        let (word, form) = match asked.strip_suffix("-take") {
            Some(word) => (word, InputForm::Telegram),
            None => (asked, InputForm::Command),
        };
        match word {
            "give" => self.work_on(&Work::Give(form, text, moment(CALLED)?)),
            "stopped" => self.stop(&Work::Give(form, text, moment(CALLED)?)),
            "repeat" => self.repeat(form, text),
            _ => None,
        }
    }

    fn forget(&mut self) -> Option<String> {
        self.before = nothing(self.alloc);
        say(self.alloc, "ok")
    }

    fn work_on(&mut self, work: &Work<'_>) -> Option<String> {
        let (said, left) = said_of(self.alloc, &self.before.bytes, work, &self.before.numbers)?;
        self.before.bytes = left;
        Some(said)
    }

    fn stop(&self, work: &Work<'_>) -> Option<String> {
        stops(self.alloc, &self.before, work)
    }

    fn repeat(&mut self, form: InputForm, text: &[u8]) -> Option<String> {
        let alloc = self.alloc;
        let before = found_in(alloc, &self.before.bytes, &self.before.numbers)?;
        let said = self.work_on(&Work::Repeat(form, text, moment(REPEATED)?))?;
        let after = found_in(alloc, &self.before.bytes, &self.before.numbers)?;
        if before.as_str() == after.as_str() {
            format!(in alloc; "{said}, nothing changed").ok()
        } else {
            Some(said)
        }
    }

    fn note(&mut self, text: &[u8]) -> Option<String> {
        let number = Awb::read(text.first_chunk()?).ok()?;
        self.before.numbers.push(number).ok()?;
        say(self.alloc, "noted")
    }

    fn build_up(&mut self, waybills: u32) -> Option<String> {
        for serial in 1..=waybills {
            self.before.numbers.push(Awb::new(20, serial)?).ok()?;
        }
        self.work_on(&Work::Open(Errand::BuildUp(waybills)))
    }
}

fn moment(minute: u16) -> Option<Moment> {
    Moment::new(DAY, minute)
}
