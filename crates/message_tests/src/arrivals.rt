//! Telegrams that arrive, and dry runs of telegrams.
use crate::said::{refusal_said, runs, yes_or_no};
use input_reasons::{LinePart, look_at, look_object, look_text};
use std::alloc::Global;
use telegrams::read_telegram;
use test_kit::{say, shown};

pub fn answer(alloc: Global, asked: &str, text: &[u8]) -> Option<String> {
    match asked {
        "text" => {
            let telegram = read_telegram(alloc, text).ok()?;
            say(alloc, shown(telegram.text().as_bytes()))
        }
        "content" => content(alloc, text),
        "fault" => refusal_said(alloc, read_telegram(alloc, text)),
        "beginnings" => beginnings(alloc, text),
        _ => None,
    }
}

pub fn look(alloc: Global, asked: &str, text: &[u8]) -> Option<String> {
    let seen = look_at(alloc, text);
    if asked == "fault" {
        return refusal_said(alloc, seen);
    }
    let seen = seen.ok()?;
    match asked {
        "kind" => format!(in alloc; "{:?}", seen.kind()).ok(),
        "text" => look_text(alloc, &seen).ok(),
        "object" => look_object(alloc, &seen).ok(),
        "doubtful" => yes_or_no(alloc, seen.is_doubtful()),
        _ => None,
    }
}

/// Returns the object of a dry run, and the goods of each consignment.
fn content(alloc: Global, text: &[u8]) -> Option<String> {
    let seen = look_at(alloc, text).ok()?;
    let mut said = look_object(alloc, &seen).ok()?;
    for line in &seen.lines {
        let goods = match &line.part {
            LinePart::Declared(cargo) => cargo.goods,
            LinePart::Loaded(loaded) => loaded.cargo.goods,
            _ => continue,
        };
        write!(said, " [{goods}]").ok()?;
    }
    Some(said)
}

/// Returns the numbers of the refusals of each prefix of a text.
fn beginnings(alloc: Global, text: &[u8]) -> Option<String> {
    let mut numbers = Vec::new(alloc);
    for len in 0..=text.len() {
        let (front, _) = text.split_at_checked(len)?;
        let refusal = refusal_said(alloc, read_telegram(alloc, front))?;
        let number = refusal.split(' ').nth(1).unwrap_or("none");
        numbers.push(say(alloc, number)?).ok()?;
    }
    runs(alloc, 0, &numbers)
}
