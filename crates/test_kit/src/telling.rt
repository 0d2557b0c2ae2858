//! A station's replies and rows, as texts.
use crate::said::{holder_said, known_said, runs_said, say};
use crate::sinks::Taken;
use agent_stock::StockRun;
use awb_number::Awb;
use station_core::{Answer, Input, Keeper, answer_one, refusal_text, reply_text};
use station_days::Moment;
use std::alloc::Global;

/// Returns noon of 12 January 2026.
pub fn noon() -> Option<Moment> {
    Moment::new(20465, 720)
}

pub fn answer_said(alloc: Global, answer: &Answer) -> Option<String> {
    match answer {
        Answer::Done(reply) => reply_text(alloc, reply).ok(),
        Answer::Refused(refusal) => refusal_text(alloc, refusal).ok(),
    }
}

/// Returns answers, each after a bar.
pub fn answers_said(alloc: Global, answers: &[Answer]) -> Option<String> {
    let mut said = String::new(alloc);
    for answer in answers {
        said.push_str("| ").ok()?;
        said.push_str(answer_said(alloc, answer)?.as_str()).ok()?;
        said.push_str(" ").ok()?;
    }
    say(alloc, said.as_str().trim_end())
}

/// Returns the answer to an input at noon.
pub fn answered(alloc: Global, keeper: &mut impl Keeper, input: &Input<'_>) -> Option<String> {
    answer_said(alloc, &answer_one(keeper, input, noon()?).ok()?)
}

/// Reads the number at the start of a text.
pub fn number(text: &[u8]) -> Option<Awb> {
    Awb::read(text.first_chunk()?).ok()
}

pub fn holder(alloc: Global, keeper: &mut impl Keeper, text: &[u8]) -> Option<String> {
    match keeper.holder(&number(text)?).ok()? {
        Some(holder) => holder_said(alloc, &holder),
        None => say(alloc, "nobody"),
    }
}

pub fn waybill(alloc: Global, keeper: &mut impl Keeper, text: &[u8]) -> Option<String> {
    known_said(alloc, &keeper.waybill(&number(text)?).ok()?)
}

pub fn stock(alloc: Global, keeper: &mut impl Keeper, most: &str) -> Option<String> {
    let mut taken: Taken<StockRun> = Taken::new(alloc, most.parse::<usize>().ok()?);
    keeper.stock(&mut taken).ok()?;
    runs_said(alloc, &taken.rows)
}
