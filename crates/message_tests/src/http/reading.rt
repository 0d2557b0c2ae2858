//! Reading scripts, line by line.
use crate::http::line::put_line;
use crate::http::script::{Ask, Care, ScriptFault, Step, Story};
use imp_fields::Airport;
use station_days::Moment;
use std::alloc::Global;
use test_kit::{act, body, first_word, moment};

#[derive(Clone, Copy)]
enum Statement {
    Station(Airport),
    At(Moment),
    Ask(Ask),
}

#[derive(Drop)]
struct Script<'a> {
    alloc: Global,
    at: Option<Moment>,
    stories: Vec<Story<'a>>,
}

fn care(rest: &str) -> Option<Care> {
    match rest {
        "" => Some(Care::Whole),
        "every" => Some(Care::Every),
        "early" => Some(Care::Early),
        "long" => Some(Care::Long),
        _ => {
            let count = rest.strip_prefix("after ")?;
            Some(Care::After(count.parse::<u32>().ok()?))
        }
    }
}

fn read_statement(line: &str) -> Option<Statement> {
    let (word, rest) = first_word(line);
    match word {
        "station" => Some(Statement::Station(Airport::read(rest.as_bytes())?)),
        "at" => Some(Statement::At(moment(rest)?)),
        "act" => {
            let (verb, key) = act(rest)?;
            Some(Statement::Ask(Ask::Act(verb, key)))
        }
        "request" => Some(Statement::Ask(Ask::Request(care(rest)?))),
        _ => None,
    }
}

fn bad<T>(line: u32, why: &'static str) -> Result<T, ScriptFault> {
    Err(ScriptFault::Bad { line, why })
}

impl<'a> Script<'a> {
    fn above(&mut self, line: u32) -> Result<&mut Step<'a>, ScriptFault> {
        let step = match self.stories.last_mut() {
            Some(story) => story.steps.last_mut(),
            None => None,
        };
        match step {
            Some(step) if matches!(step.ask, Ask::Request(_)) => Ok(step),
            _ => Err(ScriptFault::Bad {
                line,
                why: "no request stands above it",
            }),
        }
    }

    fn add_needed(&mut self, line: u32, rest: &str) -> Result<(), ScriptFault> {
        let alloc = self.alloc;
        let step = self.above(line)?;
        if step.needed < step.sent.len() {
            return bad(line, "bytes behind the request stand above it");
        }
        put_line(alloc, &mut step.sent, line, rest)?;
        step.needed = step.sent.len();
        Ok(())
    }

    fn add_behind(&mut self, line: u32, rest: &str) -> Result<(), ScriptFault> {
        let alloc = self.alloc;
        let step = self.above(line)?;
        put_line(alloc, &mut step.sent, line, rest)
    }

    fn add_answer(&mut self, line: u32, rest: &str) -> Result<(), ScriptFault> {
        let alloc = self.alloc;
        let step = self.above(line)?;
        put_line(alloc, &mut step.answer, line, rest)
    }

    fn add_station(&mut self, here: Airport) -> Result<(), ScriptFault> {
        let story = Story {
            here,
            steps: Vec::new(self.alloc),
        };
        if self.stories.push(story).is_err() {
            return Err(ScriptFault::Memory);
        }
        Ok(())
    }

    fn add_ask(&mut self, line: u32, ask: Ask, body: &'a str) -> Result<(), ScriptFault> {
        let Some(at) = self.at else {
            return bad(line, "no moment was told yet");
        };
        let step = Step {
            line,
            at,
            ask,
            body,
            sent: Vec::new(self.alloc),
            needed: 0,
            answer: Vec::new(self.alloc),
        };
        let Some(story) = self.stories.last_mut() else {
            return bad(line, "there is no station yet");
        };
        if story.steps.push(step).is_err() {
            return Err(ScriptFault::Memory);
        }
        Ok(())
    }

    fn add_statement(
        &mut self,
        line: u32,
        statement: Statement,
        body: &'a str,
    ) -> Result<(), ScriptFault> {
        match statement {
            Statement::Station(here) => self.add_station(here),
            Statement::At(at) => {
                self.at = Some(at);
                Ok(())
            }
            Statement::Ask(ask) => self.add_ask(line, ask, body),
        }
    }

    fn add(&mut self, line: u32, text: &'a str) -> Result<(), ScriptFault> {
        if text.is_empty() || text.starts_with('#') {
            return Ok(());
        }
        if let Some(rest) = text.strip_prefix('|') {
            return self.add_needed(line, rest);
        }
        if let Some(rest) = text.strip_prefix('>') {
            return self.add_behind(line, rest);
        }
        if let Some(rest) = text.strip_prefix('=') {
            return self.add_answer(line, rest);
        }
        match read_statement(text) {
            Some(statement) => self.add_statement(line, statement, body(text)),
            None => bad(line, "this is no statement"),
        }
    }
}

pub fn read_script(alloc: Global, text: &str) -> Result<Vec<Story<'_>>, ScriptFault> {
    let mut script = Script {
        alloc,
        at: None,
        stories: Vec::new(alloc),
    };
    let mut line: u32 = 0;
    for one in text.lines() {
        line = line.saturating_add(1);
        script.add(line, one)?;
    }
    Ok(script.stories)
}
