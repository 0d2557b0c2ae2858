//! Telegrams that arrive.
//! A law about the definitions.

ghost use Rattle.std.specs.Prelude.{◌≡◌, ◌++◌, ◌∷◌, IsTrue, IfOk, IfErr, OnOk, map, ℕ, List, None};
ghost use Rattle.telegrams.specs.Common.{list_all, normal_text, line_texts};
ghost use Rattle.telegrams.specs.Meaning.{is_text_byte, IsTelegram, RefusesText, Meant, telegram_fault};

use crate::content::{content, refusal};
use crate::telegram::{NormalText, Telegram, TelegramFault};
use imp_fields::{Lines, Token, normal_text};
use std::alloc::{AllocError, Global};

fn put_next(text: &mut Vec<u8>, line: &[u8]) -> Result<(), AllocError>
    ensures { OnOk result (text.new.items ≡ text.old.items ++ (10 ∷ line.now)) }
{
    text.push(b'\n')?;
    text.extend_from_slice(line)
}

fn joined(alloc: Global, lines: &[Token<'_>]) -> Result<Vec<u8>, AllocError>
    ensures { IfOk result (λ text. text.items ≡ normal_text (map (λ t. t.text.now) lines.now)) }
{
    let mut text = Vec::new(alloc);
    let Some(parts) = lines.split_first() else {
        return Ok(text);
    };
    text.extend_from_slice(parts.0.text)?;
    for line in parts.1 {
        put_next(&mut text, line.text)?;
    }
    Ok(text)
}

fn text_of(alloc: Global, lines: &Lines<'_>) -> Result<NormalText, AllocError>
    ensures { IfOk result (λ text. text ≡ normal_text (line_texts lines.now)) }
{
    let text = joined(alloc, lines.lines.as_slice())?;
    Ok(NormalText::new(text))
}

/// Reads a telegram: its normal text, which is copied, and its content, which borrows the bytes.
/// The normal text is the telegram's lines from its message line on, without trailing spaces and
/// without empty lines at the end, joined by newlines. Two telegrams with the same text are the
/// same message.
///
/// # Errors
///
/// - `Refused` with 302: none of the first eleven lines begins an FWB, an FFM or an FSU.
/// - `Refused` with 301: any other fault, with its line and reason, the first from the top. First
///   comes the whole text (line 0), then the bytes and the lengths of its lines (counted from the
///   telegram's first line), then the message (counted from the message line).
/// - `Memory`: memory ran out, which says nothing about the bytes.
pub fn read_telegram<'a>(alloc: Global, bytes: &'a [u8]) -> Result<Telegram<'a>, TelegramFault>
    ensures read { IfOk result (IsTelegram bytes.now) }
    ensures refused { IfErr result (RefusesText bytes.now) }
{
    let lines = match normal_text(alloc, bytes) {
        Ok(lines) => lines,
        Err(told) => return Err(refusal(told)),
    };
    let content = match content(alloc, &lines) {
        Ok(content) => content,
        Err(fault) => return Err(fault),
    };
    match text_of(alloc, &lines) {
        Ok(text) => Ok(Telegram::new(text, content)),
        Err(_) => Err(TelegramFault::Memory),
    }
}

/// Bytes are a telegram exactly if they have no fault, and then only one telegram.
pub fn telegram_law()
    ensures read { (bytes : List ℕ) (t : Meant) → IsTelegram bytes t → telegram_fault bytes ≡ None }
    ensures faultless { (bytes : List ℕ) → telegram_fault bytes ≡ None → (t : Meant)
        × IsTelegram bytes t }
    ensures one { (bytes : List ℕ) (s t : Meant) → IsTelegram bytes s → IsTelegram bytes t → s ≡ t }
{}
