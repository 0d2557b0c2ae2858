//! Scripts, line by line.
use crate::day::{Ask, Day, DayFault, Repeated, Step, Wanted};
use crate::statement::{Statement, read_statement};
use imp_fields::Airport;
use station_days::Moment;
use std::alloc::Global;
use test_kit::{body, first_word};

#[derive(Drop)]
struct Script<'a> {
    alloc: Global,
    here: Option<Airport>,
    at: Option<Moment>,
    steps: Vec<Step<'a>>,
}

fn bad<T>(line: u32, why: &'static str) -> Result<T, DayFault> {
    Err(DayFault::Bad { line, why })
}

/// Reads the line after a `|`, and the number of its repetitions.
fn repeated(line: u32, rest: &str) -> Option<Repeated<'_>> {
    let (times, text) = first_word(rest);
    let times = if times.is_empty() {
        1
    } else {
        times.parse::<u32>().ok()?
    };
    Some(Repeated { line, times, text })
}

fn behind(rest: &str) -> Option<&str> {
    if rest.is_empty() {
        return Some(rest);
    }
    rest.strip_prefix(' ')
}

fn has_lines(ask: Ask) -> bool {
    matches!(
        ask,
        Ask::Take(_) | Ask::Beginnings | Ask::Stock | Ask::Request
    )
}

impl<'a> Script<'a> {
    fn above(&mut self, line: u32) -> Result<&mut Step<'a>, DayFault> {
        match self.steps.last_mut() {
            Some(step) => Ok(step),
            None => Err(DayFault::Bad {
                line,
                why: "no statement stands above it",
            }),
        }
    }

    fn add_line(&mut self, line: u32, rest: &'a str) -> Result<(), DayFault> {
        let Some(repeated) = repeated(line, rest) else {
            return bad(line, "no line stands behind the bar");
        };
        let step = self.above(line)?;
        if !has_lines(step.ask) {
            return bad(line, "the statement above it has no lines");
        }
        if step.lines.push(repeated).is_err() {
            return Err(DayFault::Memory);
        }
        Ok(())
    }

    fn add_wanted(&mut self, line: u32, rest: &'a str) -> Result<(), DayFault> {
        let Some(text) = behind(rest) else {
            return bad(line, "a blank must stand behind the sign");
        };
        let step = self.above(line)?;
        if step.wanted.push(Wanted { line, text }).is_err() {
            return Err(DayFault::Memory);
        }
        Ok(())
    }

    fn begin(&mut self, line: u32, ask: Ask) -> Result<(), DayFault> {
        match ask {
            Ask::Station(here) => {
                self.here = Some(here);
                Ok(())
            }
            _ => bad(line, "there is no station yet"),
        }
    }

    fn add_ask(&mut self, line: u32, ask: Ask, body: &'a str) -> Result<(), DayFault> {
        if self.here.is_none() {
            return self.begin(line, ask);
        }
        let Some(at) = self.at else {
            return bad(line, "no moment was told yet");
        };
        let step = Step {
            line,
            at,
            ask,
            body,
            lines: Vec::new(self.alloc),
            wanted: Vec::new(self.alloc),
        };
        if self.steps.push(step).is_err() {
            return Err(DayFault::Memory);
        }
        Ok(())
    }

    fn add_statement(
        &mut self,
        line: u32,
        statement: Statement,
        body: &'a str,
    ) -> Result<(), DayFault> {
        match statement {
            Statement::At(at) => {
                self.at = Some(at);
                Ok(())
            }
            Statement::Ask(ask) => self.add_ask(line, ask, body),
        }
    }

    fn add(&mut self, line: u32, text: &'a str) -> Result<(), DayFault> {
        if text.is_empty() || text.starts_with('#') {
            return Ok(());
        }
        if let Some(rest) = text.strip_prefix('|') {
            return self.add_line(line, rest);
        }
        if let Some(rest) = text.strip_prefix('=') {
            return self.add_wanted(line, rest);
        }
        match read_statement(text) {
            Some(statement) => self.add_statement(line, statement, body(text)),
            None => bad(line, "this is no statement"),
        }
    }
}

pub fn read_day(alloc: Global, text: &str) -> Result<Day<'_>, DayFault> {
    let mut script = Script {
        alloc,
        here: None,
        at: None,
        steps: Vec::new(alloc),
    };
    let mut line: u32 = 0;
    for one in text.lines() {
        line = line.saturating_add(1);
        script.add(line, one)?;
    }
    let Script { here, steps, .. } = script;
    match here {
        Some(here) => Ok(Day { here, steps }),
        None => bad(line, "there is no station"),
    }
}
