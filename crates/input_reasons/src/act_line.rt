//! Why a line of `acts` is neither a command nor a telegram.
ghost use Rattle.std.specs.Prelude.{IfOk, codes, string_bytes};
ghost use Rattle.input_reasons.specs.Reason.{IsReason, numbered_head};

use crate::body::{json_words, value_words};
use crate::field::{kind_words, no_text_words};
use crate::shown::{expected, numbered, quoted};
use crate::telegram::refusal_words;
use desk_commands::Verb;
use serde_json::Value;
use shipment_machine::Refusal;
use std::alloc::{AllocError, Global};

/// The most bytes of a line of `acts`, with its end: those of a body, and of what is around it.
pub const MOST_LINE: usize = imp_fields::MOST_BYTES + 4_096;

/// The members of a command's line.
const COMMAND: &[&str] = &["verb", "key", "body"];

/// The words for a malformed line with a verb, a key and a body.
fn command_words(
    alloc: Global,
    verb: &Value,
    key: &Value,
    body: &Value,
) -> Result<String, AllocError> {
    let Some(word) = verb.as_str() else {
        return no_text_words(alloc, "verb", verb);
    };
    let Some(verb) = Verb::read(word.as_bytes()) else {
        let word = quoted(alloc, word.as_bytes())?;
        return format!(in alloc; "unknown verb {word}; `cargo_desk act --help` lists the verbs");
    };
    let Some(key) = key.as_str() else {
        return no_text_words(alloc, "key", key);
    };
    if station_core::Key::read(key.as_bytes()).is_none() {
        let wanted = "1 to 40 printable characters without spaces";
        return expected(alloc, "\"key\"", wanted, key.as_bytes());
    }
    value_words(alloc, verb, body)
}

/// The words for a malformed line that is JSON.
fn object_words(alloc: Global, line: &Value) -> Result<String, AllocError> {
    if let Some(telegram) = line.get("telegram") {
        if telegram.as_str().is_some() {
            return String::from_str(alloc, "unexpected member besides \"telegram\"");
        }
        return no_text_words(alloc, "telegram", telegram);
    }
    let Some(members) = line.as_object() else {
        let kind = kind_words(alloc, line)?;
        return format!(in alloc; "expected an object, found {kind}");
    };
    for (key, _value) in members.iter() {
        if !COMMAND.iter().any(|name| *name == key.as_str()) {
            let key = quoted(alloc, key.as_bytes())?;
            return format!(in alloc;
                "unknown member {key}; a line has verb, key and body, or telegram"
            );
        }
    }
    for name in COMMAND {
        if line.get(*name).is_none() {
            return format!(in alloc;
                "missing member \"{name}\"; a line has verb, key and body, or telegram"
            );
        }
    }
    match (line.get("verb"), line.get("key"), line.get("body")) {
        (Some(verb), Some(key), Some(body)) => command_words(alloc, verb, key, body),
        _ => String::from_str(alloc, "a line has verb, key and body, or telegram"),
    }
}

/// Returns the first fault of a line.
fn line_words(alloc: Global, text: &[u8]) -> Result<String, AllocError> {
    if text.len() > MOST_LINE {
        return String::from_str(alloc, "more than 69,632 bytes");
    }
    match Value::from_slice(alloc, text.trim_ascii_end()) {
        Ok(line) => object_words(alloc, &line),
        Err(error) => {
            let place = format!(in alloc; "column {}", error.column())?;
            json_words(alloc, &error, place.as_str())
        }
    }
}

/// Why a line of `acts` with this number is neither a command nor a telegram.
///
/// Returns [`AllocError`] when out of memory.
pub fn act_line_reason(alloc: Global, text: &[u8], number: u64) -> Result<String, AllocError>
    ensures number { IfOk result (λ line. IsReason (numbered_head number) (string_bytes line)) }
    ensures line { IfOk result (λ line. IsReason (codes "line ") (string_bytes line)) }
{
    let words = line_words(alloc, text)?;
    numbered(alloc, number, words.as_str())
}

/// Why the telegram of a line of `acts` with this number can't be read, by its refusal.
///
/// Returns [`AllocError`] when out of memory.
pub fn telegram_line_reason(
    alloc: Global,
    refusal: &Refusal,
    number: u64,
) -> Result<String, AllocError>
    ensures number { IfOk result (λ line. IsReason (numbered_head number) (string_bytes line)) }
    ensures line { IfOk result (λ line. IsReason (codes "line ") (string_bytes line)) }
{
    let words = refusal_words(alloc, refusal)?;
    let words = format!(in alloc; "telegram: {words}")?;
    numbered(alloc, number, words.as_str())
}
