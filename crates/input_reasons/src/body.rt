//! Why a body says no command of its verb.

ghost use Rattle.std.specs.Prelude.{IfOk, IsTrue, codes, string_bytes};
ghost use Rattle.input_reasons.specs.Common.{list_all, is_printable};
ghost use Rattle.input_reasons.specs.Reason.{IsReason};

use crate::field::{fields_words, kind_words, member_words};
use crate::shown::{printable, quoted, reason_line};
use desk_commands::{Field, Verb};
use imp_fields::MOST_BYTES;
use serde_json::{Error, Value};
use std::alloc::{AllocError, Global};

/// Returns the words for a text that isn't JSON: `place` says where it is at fault.
pub(crate) fn json_words(alloc: Global, error: &Error, place: &str) -> Result<String, AllocError> {
    if error.is_memory() {
        Err(AllocError)
    } else if error.is_eof() {
        format!(in alloc; "the JSON ends too early: {place}")
    } else {
        format!(in alloc; "invalid JSON: {place}")
    }
}

/// Returns whether a field may be left out of this body.
fn may_lack(field: Field, body: &Value) -> bool {
    matches!(field, Field::FlightIfAny | Field::DateIfAny)
        && body.get("flight").is_none()
        && body.get("date").is_none()
}

/// Returns the first fault of a body that is JSON: its keys come first, then its values.
pub(crate) fn value_words(alloc: Global, verb: Verb, body: &Value) -> Result<String, AllocError> {
    let (word, fields) = (verb.word(), verb.fields());
    let Some(members) = body.as_object() else {
        let kind = kind_words(alloc, body)?;
        return format!(in alloc; "expected an object, found {kind}");
    };
    for (key, _value) in members.iter() {
        if !fields.iter().any(|field| field.name() == key.as_str()) {
            let (key, all) = (quoted(alloc, key.as_bytes())?, fields_words(alloc, verb)?);
            return format!(in alloc; "unknown field {key}; `{word}` takes {all}");
        }
    }
    for field in fields {
        let name = field.name();
        if body.get(name).is_none() && !may_lack(*field, body) {
            let all = fields_words(alloc, verb)?;
            return format!(in alloc; "missing field \"{name}\"; `{word}` takes {all}");
        }
    }
    for field in fields {
        if let Some(value) = body.get(field.name()) {
            if let Some(words) = member_words(alloc, *field, value)? {
                return Ok(words);
            }
        }
    }
    format!(in alloc; "these fields make no `{word}`")
}

/// Returns the first fault of a body.
fn body_words(alloc: Global, verb: Verb, bytes: &[u8]) -> Result<String, AllocError> {
    if bytes.len() > MOST_BYTES {
        return String::from_str(alloc, "more than 65,536 bytes");
    }
    if bytes.iter().all(|b| b.is_ascii_whitespace()) {
        return String::from_str(alloc, "expected a JSON object, found nothing");
    }
    match Value::from_slice(alloc, bytes) {
        Ok(body) => value_words(alloc, verb, &body),
        Err(error) => {
            let place = format!(in alloc; "line {}, column {}", error.line(), error.column())?;
            json_words(alloc, &error, place.as_str())
        }
    }
}

/// Why these bytes say no command of a verb.
///
/// Returns [`AllocError`] when out of memory.
pub fn body_reason(alloc: Global, verb: Verb, bytes: &[u8]) -> Result<String, AllocError>
    ensures { IfOk result (λ line. IsReason (codes "body: ") (string_bytes line)) }
{
    let words = body_words(alloc, verb, bytes)?;
    reason_line(alloc, "body: ", words.as_str())
}

/// Returns the words of that reason alone.
///
/// Returns [`AllocError`] when out of memory.
pub fn body_fault(alloc: Global, verb: Verb, bytes: &[u8]) -> Result<String, AllocError>
    ensures { IfOk result (λ words. IsTrue (list_all is_printable (string_bytes words))) }
{
    let words = body_words(alloc, verb, bytes)?;
    printable(alloc, words.as_bytes())
}
