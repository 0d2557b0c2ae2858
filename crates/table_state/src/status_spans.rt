//! The parts of the outbox in which the status messages of waybills lie, as far as they are known.
ghost use Rattle.std.specs.Prelude.{◌≡◌, ◌∷◌, [], ◌++◌, ◌+◌, length, ℕ, true, List, Some};
ghost use Rattle.table_state.specs.Common.{AreWithin, IsNumber, is_about, message};
ghost use Rattle.table_state.specs.Shown.{AreTold, IsSpanned, Reaches};

use crate::span::{Span, with_number};
use awb_number::Awb;
use station_core::{Message, Sink};
use std::alloc::Global;
use std::collections::BTreeMap;

/// The spans of waybills, where they are known: all status messages of a waybill lie in its span.
/// They are found by one pass over the outbox. From then on a status message widens that of its
/// waybill.
#[derive(Drop)]
pub(crate) struct StatusSpans {
    pub(crate) kept: Option<BTreeMap<u64, Span>>,
}

/// A part of the outbox: the messages with a greater number than `after`, up to the last one if
/// that is known.
#[derive(Clone, Copy)]
pub(crate) struct OutboxPart {
    pub(crate) after: u32,
    pub(crate) last: Option<u32>,
}

/// Returns the waybill whose status a message tells.
fn waybill_told(text: &[u8]) -> Option<Awb>
    ensures { (n w : ℕ) → IsNumber w → is_about w (message n text.now) ≡ true → result ≡ Some w }
{
    if text.len() < 20 || &text[..8] != b"FSU/12\r\n".as_slice() {
        return None;
    }
    Awb::read(text[8..].first_chunk()?).ok()
}

/// Returns the kept spans with a further number in that of a waybill. Without memory for it nothing
/// is kept.
fn with_status(
    kept: Option<BTreeMap<u64, Span>>,
    awb: &Awb,
    number: u32,
) -> Option<BTreeMap<u64, Span>>
    ensures grows { (w n : ℕ) → IsSpanned kept w n → IsSpanned result w n }
    ensures there { IsSpanned result awb.now number }
{
    let mut spans = kept?;
    let key = awb.key();
    let span = with_number(spans.get(&key).copied(), number)?;
    match spans.insert(key, span) {
        Ok(_) => Some(spans),
        Err(_) => None,
    }
}

/// Returns the kept spans after a message.
fn with_message(
    kept: Option<BTreeMap<u64, Span>>,
    text: &[u8],
    number: u32,
) -> Option<BTreeMap<u64, Span>>
    ensures { Reaches kept result (message number text.now) }
{
    match waybill_told(text) {
        None => kept,
        Some(awb) => with_status(kept, &awb, number),
    }
}

impl StatusSpans {
    /// Returns spans of which nothing is known yet.
    pub(crate) fn none() -> StatusSpans
        ensures { (outbox : List (List ℕ)) → AreTold result.kept outbox }
    {
        StatusSpans { kept: None }
    }

    /// Returns the part of the outbox in which the status messages of a waybill lie: all of it, if
    /// nothing is known.
    pub(crate) fn of(&self, awb: &Awb) -> OutboxPart
        ensures { (outbox : List (List ℕ)) → AreTold self.now.kept outbox
            → AreWithin awb.now result.after result.last outbox }
    {
        let Some(spans) = self.kept.as_ref() else {
            return OutboxPart {
                after: 0,
                last: None,
            };
        };
        match spans.get(&awb.key()) {
            None => OutboxPart {
                after: 0,
                last: Some(0),
            },
            Some(span) => OutboxPart {
                after: span.after,
                last: Some(span.last),
            },
        }
    }

    /// Widens the span of a message's waybill by its number.
    pub(crate) fn post(&mut self, text: &[u8], number: u32)
        ensures { (outbox : List (List ℕ)) → number ≡ length outbox + 1
            → AreTold self.old.kept outbox
            → AreTold self.new.kept (outbox ++ text.now ∷ []) }
    {
        self.kept = with_message(self.kept.take(), text, number);
    }
}

/// Finds the spans of the messages that it is handed. Without memory for a waybill it keeps
/// nothing.
#[derive(Drop)]
pub(crate) struct StatusFilling {
    pub(crate) kept: Option<BTreeMap<u64, Span>>,
}

impl StatusFilling {
    /// Starts without messages.
    pub(crate) fn new(alloc: Global) -> StatusFilling {
        StatusFilling {
            kept: Some(BTreeMap::new(alloc)),
        }
    }
}

impl Sink<Message> for StatusFilling {
    ghost takes = { λ old m go new. (go ≡ true) × Reaches old.kept new.kept m };

    fn take(&mut self, message: Message) -> bool {
        self.kept = with_message(self.kept.take(), message.text.as_bytes(), message.number);
        true
    }
}
