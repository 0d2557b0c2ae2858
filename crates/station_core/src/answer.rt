//! Replies, refusals and notices as texts.

ghost use Rattle.std.specs.Prelude.{◌≡◌, ◌++◌, ◌∷◌, [], map, IfOk, OnOk, string_bytes};
ghost use Rattle.station_core.specs.Common.{notice_text};
ghost use Rattle.station_core.specs.Step.{detail_text, refusal_text, reply_text, texts_in};

use crate::key::Key;
use desk_commands::Command;
use shipment_machine::{Detail, Notice, Refusal};
use std::alloc::{AllocError, Global};
use telegrams::{Telegram, notice_text};

/// An input of a station.
#[derive(Drop)]
pub enum Input<'a> {
    /// A command under a key that the caller chose. The same key means the same command.
    Keyed(Key, Command),
    /// A telegram that arrived. The same normal text means the same telegram.
    Wire(Telegram<'a>),
}

/// The refusal if the moves, the trail lines or the messages would exceed 4,294,967,295.
pub const NO_NUMBERS_LEFT: Refusal = Refusal {
    number: 402,
    detail: Detail::Nothing,
};

/// The reply to an accepted input.
#[derive(Clone, Copy)]
pub struct Reply {
    /// The numbers of an order's run, the pieces of a desk command, the newly confirmed messages,
    /// or the lines of a telegram.
    pub count: u32,
}

/// The answer to an input.
#[derive(Clone, Copy)]
pub enum Answer {
    Done(Reply),
    Refused(Refusal),
}

/// The reason why an input wasn't accepted, or a reader didn't answer.
#[derive(Clone, Copy, PartialEq, Eq)]
pub enum ActFault {
    /// Nothing changed.
    Refused(Refusal),
    /// Memory ran out before `act` called the store. Nothing changed.
    Memory,
    /// A call of the store failed. It holds the state before the input or after it, and must be
    /// opened again.
    Store,
    /// An earlier call returned `Store`. Nothing changed.
    Reopen,
}

/// The answers to a list of inputs, and the fault that ended it early. That fault is never
/// `Refused`, which is an answer.
#[derive(Drop)]
pub struct AllAnswers {
    pub answers: Vec<Answer>,
    pub fault: Option<ActFault>,
}

/// Returns a text such as `ok 10`.
pub fn reply_text(alloc: Global, reply: &Reply) -> Result<String, AllocError>
    ensures { IfOk result (λ text. string_bytes text ≡ reply_text reply.now) }
{
    let count = reply.count;
    format!(in alloc; "ok {count}")
}

/// Returns the subject of a refusal: `020-12345723`, the free pieces, `LH400/2026-01-12`,
/// `LH400/2026-01-12/FRA/1`, line and word such as `4 ending`, the last confirmed and the last
/// message such as `3 4`, or an empty text.
pub fn detail_text(alloc: Global, detail: &Detail) -> Result<String, AllocError>
    ensures { IfOk result (λ text. string_bytes text ≡ detail_text detail.now) }
{
    format!(in alloc; "{detail}")
}

/// Returns a text such as `refused 102 020-12345723`, or without a detail `refused 501`.
pub fn refusal_text(alloc: Global, refusal: &Refusal) -> Result<String, AllocError>
    ensures { IfOk result (λ text. string_bytes text ≡ refusal_text refusal.now) }
{
    format!(in alloc; "{refusal}")
}

fn put_text(alloc: Global, texts: &mut Vec<Vec<u8>>, notice: &Notice) -> Result<(), AllocError>
    ensures { OnOk result (texts_in texts.new.items
        ≡ texts_in texts.old.items ++ notice_text notice.now ∷ []) }
{
    let text = notice_text(alloc, notice)?;
    texts.push(text)?;
    Ok(())
}

/// Returns the texts of notices, in order. Returns an error if memory runs out.
pub fn notice_texts(alloc: Global, notices: &[Notice]) -> Result<Vec<Vec<u8>>, AllocError>
    ensures { IfOk result (λ texts. texts_in texts.items ≡ map notice_text notices.now) }
{
    let mut texts = Vec::new(alloc);
    for notice in notices {
        put_text(alloc, &mut texts, notice)?;
    }
    Ok(texts)
}
