//! The lines of texts, consignment lines, and waybill data messages.
use crate::said::{consignment_said, fault_said, runs, token_said, yes_or_no};
use fwb_text::{Fwb, read};
use imp_fields::{TextFault, cut_at_slash, first_field, is_head, normal_text, read_consignment};
use std::alloc::Global;
use test_kit::{say, shown};

pub fn answer(alloc: Global, asked: &str, text: &[u8]) -> Option<String> {
    match asked {
        "is-waybill-head" => yes_or_no(alloc, is_head(b"FWB", text)),
        "cut" => parts_said(alloc, cut_at_slash(text)),
        "first-field" => parts_said(alloc, Some(first_field(text))),
        "lines" => lines(alloc, text),
        "fault" => fault_said(alloc, normal_text(alloc, text)),
        "at-each-place" => at_each_place(alloc, text),
        _ => None,
    }
}

fn parts_said(alloc: Global, parts: Option<(&[u8], &[u8])>) -> Option<String> {
    match parts {
        Some((first, rest)) => format!(in alloc; "[{}] [{}]", shown(first), shown(rest)).ok(),
        None => say(alloc, "none"),
    }
}

fn lines(alloc: Global, text: &[u8]) -> Option<String> {
    let read = normal_text(alloc, text).ok()?;
    let mut said = format!(in alloc; "{:?}", read.kind).ok()?;
    for line in &read.lines {
        write!(said, " {}", token_said(alloc, line)?).ok()?;
    }
    Some(said)
}

/// Returns the faults of a text with a byte inserted at each position of its second line.
fn at_each_place(alloc: Global, byte: &[u8]) -> Option<String> {
    let text = b"FWB/16\nABCDEFGHIJKLMNOPQRSTUVWXYZ".as_slice();
    let mut faults = Vec::new(alloc);
    for place in 6..30 {
        let (front, back) = text.split_at_checked(place)?;
        let changed = [front, byte, back, b"\nLAST"].concat(alloc).ok()?;
        let fault = fault_said(alloc, normal_text(alloc, &changed))?;
        faults.push(fault).ok()?;
    }
    runs(alloc, 6, &faults)
}

pub fn consignments(alloc: Global, asked: &str, text: &[u8]) -> Option<String> {
    match (asked, read_consignment(text)) {
        ("meaning", Ok(line)) => consignment_said(alloc, &line),
        ("fault", Ok(_)) => say(alloc, "none"),
        ("fault", Err(why)) => format!(in alloc; "{why:?}").ok(),
        _ => None,
    }
}

fn waybill<'a>(alloc: Global, text: &'a [u8]) -> Result<Fwb<'a>, TextFault> {
    read(&normal_text(alloc, text)?)
}

pub fn waybills(alloc: Global, asked: &str, text: &[u8]) -> Option<String> {
    match (asked, waybill(alloc, text)) {
        ("meaning", Ok(message)) => consignment_said(alloc, &message.consignment),
        ("fault", Ok(_)) => say(alloc, "none"),
        ("fault", Err(fault)) => fault_said::<()>(alloc, Err(fault)),
        _ => None,
    }
}
