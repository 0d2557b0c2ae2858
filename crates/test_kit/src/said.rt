//! Parts of answers.
use agent_stock::{Holder, StockRun};
use desk_commands::day_text;
use shipment_machine::Amount;
use station_core::Waybill;
use station_days::LocalDay;
use std::alloc::Global;
use std::str::SplitWhitespace;

pub fn say(alloc: Global, text: &str) -> Option<String> {
    String::from_str(alloc, text).ok()
}

pub fn shown(bytes: &[u8]) -> &str {
    std::str::from_utf8(bytes).unwrap_or("?")
}

pub fn next_whole(words: &mut SplitWhitespace<'_>) -> Option<i64> {
    words.next()?.parse::<i64>().ok()
}

/// Returns the count, or `fault` if the call failed.
pub fn count_said(alloc: Global, is_given: bool, count: usize) -> Option<String> {
    if is_given {
        format!(in alloc; "{count}").ok()
    } else {
        say(alloc, "fault")
    }
}

pub fn holder_said(alloc: Global, holder: &Holder) -> Option<String> {
    match holder {
        Holder::Desk => say(alloc, "the desk"),
        Holder::Agent(code) => say(alloc, code.as_str()),
        Holder::Used => say(alloc, "used"),
        Holder::Void => say(alloc, "void"),
    }
}

/// Returns the number of runs, and each run's first number, count and holder.
pub fn runs_said(alloc: Global, runs: &[StockRun]) -> Option<String> {
    let mut said = format!(in alloc; "{}", runs.len()).ok()?;
    for run in runs {
        let holder = holder_said(alloc, &run.holder)?;
        let run = format!(in alloc; "; {} {} {holder}", run.first, run.count).ok()?;
        said.push_str(run.as_str()).ok()?;
    }
    Some(said)
}

fn amount_said(alloc: Global, amount: &Amount) -> Option<String> {
    format!(in alloc; "{} at {}", amount.pieces, amount.tenths).ok()
}

fn since_said(alloc: Global, since: Option<LocalDay>) -> Option<String> {
    match since {
        Some(day) => say(alloc, shown(&day_text(day))),
        None => say(alloc, "none"),
    }
}

fn waybill_said(alloc: Global, waybill: &Waybill) -> Option<String> {
    let taken = amount_said(alloc, &waybill.taken)?;
    let found = amount_said(alloc, &waybill.found)?;
    let store = amount_said(alloc, &waybill.store)?;
    let departed = amount_said(alloc, &waybill.departed)?;
    let delivered = amount_said(alloc, &waybill.delivered)?;
    let missing = amount_said(alloc, &waybill.missing)?;
    let transferred = amount_said(alloc, &waybill.transferred)?;
    let since = since_said(alloc, waybill.declared.since)?;
    format!(in alloc;
        "taken {taken}, found {found}, store {store}, departed {departed}, delivered {delivered}, missing {missing}, transferred {transferred}, since {since}"
    ).ok()
}

pub fn known_said(alloc: Global, waybill: &Option<Waybill>) -> Option<String> {
    match waybill {
        Some(waybill) => waybill_said(alloc, waybill),
        None => say(alloc, "none"),
    }
}
