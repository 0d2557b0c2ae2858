//! Why a row of a stock list is bad.
ghost use Rattle.std.specs.Prelude.{IfOk, codes, string_bytes};
ghost use Rattle.input_reasons.specs.Reason.{IsReason, numbered_head};

use crate::field::wanted;
use crate::shown::{cut, digits_words, expected, numbered, quoted};
use agent_stock::AgentCode;
use csv::ByteRecord;
use desk_commands::{Field, Verb};
use station_core::Key;
use std::alloc::{AllocError, Global};

/// The number of fields of a row.
const FIELDS: usize = 6;

/// Returns whether a verb of a row takes an agent, `None` for any other word.
fn takes_agent(verb: &[u8]) -> Option<bool> {
    match Verb::read(verb)? {
        Verb::Issue | Verb::Return => Some(true),
        Verb::TakeIn | Verb::Void => Some(false),
        _ => None,
    }
}

/// The words for prefix, serial or count, if one of them is malformed.
fn run_words(alloc: Global, row: &ByteRecord) -> Result<Option<String>, AllocError> {
    if let Some(words) = digits_words(alloc, "prefix", field(row, 2), 3, 3)? {
        return Ok(Some(words));
    }
    if let Some(words) = digits_words(alloc, "serial", field(row, 3), 7, 7)? {
        return Ok(Some(words));
    }
    digits_words(alloc, "count", field(row, 4), 1, 7)
}

/// A field of a row; empty where it has none.
fn field(row: &ByteRecord, place: usize) -> &[u8] {
    row.get(place).unwrap_or(b"".as_slice())
}

/// Returns the first fault of a row, from the left.
fn row_words(alloc: Global, row: &ByteRecord) -> Result<String, AllocError> {
    let (count, key, verb, agent) = (row.len(), field(row, 0), field(row, 1), field(row, 5));
    if count == 1 && key.contains(&b';') {
        return String::from_str(
            alloc,
            "expected six fields with commas between them, found semicolons",
        );
    }
    if count != FIELDS {
        return format!(in alloc; "expected six fields, found {count}");
    }
    if Key::read(key).is_none() {
        let wanted = "1 to 40 printable ASCII characters without spaces";
        return expected(alloc, "key", wanted, key);
    }
    let Some(takes_agent) = takes_agent(verb) else {
        return expected(alloc, "verb", "take-in, issue, return or void", verb);
    };
    if let Some(words) = run_words(alloc, row)? {
        return Ok(words);
    }
    if !takes_agent && !agent.is_empty() {
        let (verb, agent) = (cut(alloc, verb)?, quoted(alloc, agent)?);
        return format!(in alloc; "agent: `{verb}` takes no agent, found {agent}");
    }
    if takes_agent && AgentCode::read(agent).is_none() {
        return expected(alloc, "agent", wanted(Field::Agent), agent);
    }
    String::from_str(alloc, "not a row of a stock list")
}

/// Why a row of a stock list is bad, which begins on this line of the list.
///
/// Returns [`AllocError`] when out of memory.
pub fn row_reason(alloc: Global, row: &ByteRecord, line: u64) -> Result<String, AllocError>
    ensures number { IfOk result (λ text. IsReason (numbered_head line) (string_bytes text)) }
    ensures line { IfOk result (λ text. IsReason (codes "line ") (string_bytes text)) }
{
    let words = row_words(alloc, row)?;
    numbered(alloc, line, words.as_str())
}
