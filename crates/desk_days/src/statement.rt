//! The statements of a script.
use crate::day::{Ask, Form};
use imp_fields::Airport;
use reports::Report;
use station_days::Moment;
use test_kit::{act, first_word, moment, number};

#[derive(Clone, Copy)]
pub enum Statement {
    At(Moment),
    Ask(Ask),
}

fn ask(word: &str, rest: &str) -> Option<Ask> {
    match (word, rest) {
        ("station", _) => Some(Ask::Station(Airport::read(rest.as_bytes())?)),
        ("act", _) => {
            let (verb, key) = act(rest)?;
            Some(Ask::Act(verb, key))
        }
        ("take", "") => Some(Ask::Take(Form::CrLf)),
        ("take", "lf") => Some(Ask::Take(Form::Lf)),
        ("take", "hex") => Some(Ask::Take(Form::Hex)),
        ("beginnings", "") => Some(Ask::Beginnings),
        ("stock", "") => Some(Ask::Stock),
        ("waybill", _) => Some(Ask::Waybill(number(rest.as_bytes())?)),
        ("holder", _) => Some(Ask::Holder(number(rest.as_bytes())?)),
        ("outbox", "") => Some(Ask::Report(Report::Pending)),
        ("outbox", room) => Some(Ask::CutOutbox(room.parse::<usize>().ok()?)),
        ("report", _) => Some(Ask::Report(Report::read(rest.as_bytes())?)),
        ("request", "") => Some(Ask::Request),
        _ => None,
    }
}

pub fn read_statement(line: &str) -> Option<Statement> {
    let (word, rest) = first_word(line);
    if word == "at" {
        Some(Statement::At(moment(rest)?))
    } else {
        Some(Statement::Ask(ask(word, rest)?))
    }
}
