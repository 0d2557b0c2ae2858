//! Parts of answers.
use imp_fields::{Consignment, Quantity, TextFault, Token};
use station_core::refusal_text;
use std::alloc::Global;
use std::fmt::Display;
use telegrams::TelegramFault;
use test_kit::{say, shown};

pub fn yes_or_no(alloc: Global, is_so: bool) -> Option<String> {
    say(alloc, if is_so { "yes" } else { "no" })
}

pub fn printed_or_none<T: Display + Drop>(alloc: Global, value: Option<T>) -> Option<String> {
    match value {
        Some(value) => format!(in alloc; "{value}").ok(),
        None => say(alloc, "none"),
    }
}

pub fn bracketed_or_none<T: Display + Drop>(alloc: Global, value: Option<T>) -> Option<String> {
    match value {
        Some(value) => format!(in alloc; "[{value}]").ok(),
        None => say(alloc, "none"),
    }
}

/// Returns a number, or `-`.
pub fn told(alloc: Global, number: Option<u32>) -> Option<String> {
    match number {
        Some(number) => format!(in alloc; "{number}").ok(),
        None => say(alloc, "-"),
    }
}

/// Returns the code, the pieces, the tenths and the total of a quantity.
pub fn quantity_said(alloc: Global, quantity: &Quantity) -> Option<String> {
    let (code, pieces) = (quantity.code, quantity.pieces.number());
    let tenths = told(alloc, quantity.weight.map(|tenths| tenths.number()))?;
    let total = told(alloc, quantity.total.map(|total| total.number()))?;
    format!(in alloc; "{code:?} {pieces} {tenths} {total}").ok()
}

pub fn token_said(alloc: Global, token: &Token<'_>) -> Option<String> {
    let (start, end, text) = (token.start, token.end, shown(token.text));
    format!(in alloc; "{start}-{end} [{text}]").ok()
}

/// Returns the values of a consignment line, and where its fields and its goods are.
pub fn consignment_said(alloc: Global, line: &Consignment<'_>) -> Option<String> {
    let (awb, origin, destination) = (line.awb, line.origin, line.destination);
    let quantity = quantity_said(alloc, &line.quantity)?;
    let mut said = format!(in alloc; "{awb} {origin} {destination} {quantity}").ok()?;
    for token in [
        &line.number_text,
        &line.origin_text,
        &line.destination_text,
        &line.quantity_text,
        &line.goods,
    ] {
        write!(said, ", {}", token_said(alloc, token)?).ok()?;
    }
    Some(said)
}

pub fn fault_said<T: Drop>(alloc: Global, read: Result<T, TextFault>) -> Option<String> {
    match read {
        Ok(_) => say(alloc, "none"),
        Err(TextFault { line, why }) => format!(in alloc; "{line} {why:?}").ok(),
    }
}

pub fn refusal_said<T: Drop>(alloc: Global, read: Result<T, TelegramFault>) -> Option<String> {
    match &read {
        Ok(_) => say(alloc, "none"),
        Err(TelegramFault::Memory) => None,
        Err(TelegramFault::Refused(refusal)) => refusal_text(alloc, refusal).ok(),
    }
}

/// Returns answers with equal neighbours combined: `6-6 1 Byte, 7-29 2 Byte`. `first` is the place
/// of the first answer.
pub fn runs(alloc: Global, first: usize, answers: &[String]) -> Option<String> {
    let mut said = String::new(alloc);
    let mut start = first;
    for (index, answer) in answers.iter().enumerate() {
        let next = index.saturating_add(1);
        if answers.get(next).map(String::as_str) != Some(answer.as_str()) {
            let comma = if said.is_empty() { "" } else { ", " };
            let end = first.saturating_add(index);
            write!(said, "{comma}{start}-{end} {answer}").ok()?;
            start = first.saturating_add(next);
        }
    }
    Some(said)
}
