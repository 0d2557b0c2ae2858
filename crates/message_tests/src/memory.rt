//! Messages for which memory may run out: that is reported, and leaves the buffer unchanged.
use crate::ffm::{is_written, load, part};
use crate::fsu::message;
use crate::sent::{consigned, notice};
use fsu_text::{Handling, SentStatus, SentUpdate, write_fsu};
use imp_fields::{Airport, BookTenths, Name, Pieces, TextFault, Why};
use station_days::DayTime;
use std::alloc::Global;
use telegrams::{TelegramFault, notice_text, read_telegram};

const WAYBILL: &[u8] =
    b"QK FRACGXX\r\nFWB/16\r\n020-12345675FRAJFK/T10K100MC0.5\r\nSHP\r\n/ACME TOOLS\r\n";

const ARRIVAL: &[u8] =
    b"FFM/8\r\n1/LH0400/12JAN1030/FRA\r\nJFK\r\n020-12345675FRAJFK/T10K100.0/CARGO\r\nLAST\r\n";

const MEMORY: TextFault = TextFault {
    line: 0,
    why: Why::Memory,
};

pub const MESSAGES: &[&str] = &[
    "a manifest",
    "a status update",
    "a waybill's data",
    "a manifest that arrives",
    "a notice of a manifest",
    "a notice of a receipt",
];

/// Returns whether a message is written and read, or running out of memory is reported.
pub fn is_told(alloc: Global, message: &str) -> bool {
    match message {
        "a manifest" => is_manifest_told(alloc) == Some(true),
        "a status update" => is_update_told(alloc) == Some(true),
        "a waybill's data" => is_telegram_told(alloc, WAYBILL),
        "a manifest that arrives" => is_telegram_told(alloc, ARRIVAL),
        "a notice of a manifest" => is_notice_told(alloc, "FFM", "FRA 4 400", 74),
        "a notice of a receipt" => is_notice_told(alloc, "RCS", "FRA 10 1000 20465 630 ACME", 72),
        _ => false,
    }
}

fn is_manifest_told(alloc: Global) -> Option<bool> {
    let loads = [load("020-12345675 4 10 CARGO")?; 3];
    let mut text = Vec::new(alloc);
    if !is_written(&mut text, "LH400", &loads)? {
        return Some(text.is_empty());
    }
    match part(alloc, &text) {
        Ok(part) => Some(part.cargo.len() == 3),
        Err(fault) => Some(fault == MEMORY),
    }
}

fn is_update_told(alloc: Global) -> Option<bool> {
    let status = SentStatus::Handled {
        event: Handling::ReceivedFromShipper,
        at: DayTime::read(b"12JAN1030")?,
        name: Name::read(b"ACME")?,
    };
    let update = SentUpdate {
        of: consigned()?,
        status,
        here: Airport::read(b"FRA")?,
        pieces: Pieces::new(10)?,
        tenths: BookTenths::new(1000)?,
    };
    let mut text = Vec::new(alloc);
    if write_fsu(&mut text, &update).is_err() {
        return Some(text.is_empty());
    }
    match message(alloc, &text) {
        Ok(message) => Some(message.trail.len() == 1),
        Err(fault) => Some(fault == MEMORY),
    }
}

fn is_telegram_told(alloc: Global, text: &[u8]) -> bool {
    let read = read_telegram(alloc, text);
    match &read {
        Ok(_) => true,
        Err(fault) => *fault == TelegramFault::Memory,
    }
}

/// Returns whether the notice of a case has this length, or memory ran out for it.
fn is_notice_told(alloc: Global, asked: &str, words: &str, len: usize) -> bool {
    let Some(notice) = notice(alloc, asked, words) else {
        return true;
    };
    match notice_text(alloc, &notice) {
        Ok(text) => text.len() == len,
        Err(_) => true,
    }
}
