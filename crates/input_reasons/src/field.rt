//! The fields of a body, by its verb.
//! Why a member of a body isn't what its field wants.

use crate::shown::{cut, digits_words, quoted};
use agent_stock::AgentCode;
use awb_number::{Awb, AwbFault, SERIALS, check, decimal};
use desk_commands::{Field, Verb, read_day};
use imp_fields::{Airport, Flight, Goods, MOST_MESSAGE_TENTHS, MOST_PIECES, Name};
use serde_json::Value;
use shipment_machine::Airline;
use std::alloc::{AllocError, Global};

/// The mark after a field in the list of a verb's fields, with `behind` fields still to come.
fn mark_behind(behind: usize) -> &'static str {
    match behind {
        0 => "",
        1 => " and ",
        _ => ", ",
    }
}

/// The fields of a verb, as `prefix, serial and count`.
pub(crate) fn fields_words(alloc: Global, verb: Verb) -> Result<String, AllocError> {
    let row = verb.fields();
    let mut words = String::new(alloc);
    let mut behind = row.len();
    for field in row {
        behind = behind.saturating_sub(1);
        words.push_str(field.name())?;
        words.push_str(mark_behind(behind))?;
    }
    if row.contains(&Field::FlightIfAny) {
        words.push_str("; flight and date may be left out together")?;
    }
    Ok(words)
}

/// The least and the greatest number that it may be, where it is a number.
pub(crate) fn range(field: Field) -> Option<(u64, u64)> {
    match field {
        Field::Count => Some((0, u64::from(SERIALS) - 1)),
        Field::Pieces => Some((1, u64::from(MOST_PIECES))),
        Field::Tenths => Some((0, u64::from(MOST_MESSAGE_TENTHS))),
        Field::Counted => Some((0, u64::from(MOST_PIECES))),
        Field::Upto => Some((0, u64::from(u32::MAX))),
        _ => None,
    }
}

/// The text that a field takes.
pub(crate) fn wanted(field: Field) -> &'static str {
    match field {
        Field::Prefix => "3 digits",
        Field::Serial => "7 digits",
        Field::Agent => "1 to 11 upper-case letters or digits",
        Field::Awb => "a waybill number such as 020-12345675",
        Field::Origin | Field::Destination | Field::Unload => "an airport of three letters A to Z",
        Field::Goods => "up to 15 printable ASCII characters, the last not a space",
        Field::Name => "up to 35 printable ASCII characters, the last not a space",
        Field::Flight | Field::FlightIfAny => "a flight such as LH400",
        Field::Date | Field::DateIfAny => "a day from 2000-01-01 to 2099-12-31, such as 2026-01-12",
        Field::Airline => "an airline code of two characters, such as BA",
        Field::Count | Field::Pieces | Field::Tenths | Field::Counted | Field::Upto => "a number",
    }
}

/// Returns whether the field takes a text. Prefix, serial and waybill have readers of their own.
pub(crate) fn reads(field: Field, text: &[u8]) -> bool {
    match field {
        Field::Agent => AgentCode::read(text).is_some(),
        Field::Origin | Field::Destination | Field::Unload => Airport::read(text).is_some(),
        Field::Goods => Goods::read(text).is_some(),
        Field::Name => Name::read(text).is_some(),
        Field::Flight | Field::FlightIfAny => Flight::read(text).is_some(),
        Field::Date | Field::DateIfAny => read_day(text).is_some(),
        Field::Airline => Airline::read(text).is_some(),
        _ => true,
    }
}

/// Returns the kind of a value, in a word; a number stands for itself.
pub(crate) fn kind_words(alloc: Global, value: &Value) -> Result<String, AllocError> {
    match value {
        Value::Null => String::from_str(alloc, "null"),
        Value::Bool(true) => String::from_str(alloc, "true"),
        Value::Bool(false) => String::from_str(alloc, "false"),
        Value::Number(_) => {
            let number = value.to_string(alloc)?;
            cut(alloc, number.as_bytes())
        }
        Value::String(_) => String::from_str(alloc, "a text"),
        Value::Array(_) => String::from_str(alloc, "a list"),
        Value::Object(_) => String::from_str(alloc, "an object"),
    }
}

/// The words for a value that isn't a number within its range.
fn number_words(
    alloc: Global,
    field: Field,
    range: (u64, u64),
    value: &Value,
) -> Result<Option<String>, AllocError> {
    let (least, most) = range;
    if value.as_u64().is_some_and(|n| least <= n && n <= most) {
        return Ok(None);
    }
    let (name, kind) = (field.name(), kind_words(alloc, value)?);
    let words = format!(in alloc;
        "\"{name}\": expected a whole number from {least} to {most}, found {kind}"
    )?;
    Ok(Some(words))
}

/// The check digit that twelve bytes of the right shape should end with.
fn check_digit(text: &[u8; 12]) -> Option<u8> {
    let serial = decimal(&text[4..11])?;
    Some(check(serial))
}

/// The words for a text that isn't a waybill number.
fn awb_words(alloc: Global, text: &[u8]) -> Result<Option<String>, AllocError> {
    let Ok(bytes) = <[u8; 12]>::try_from(text) else {
        return Ok(Some(other_words(alloc, Field::Awb, text)?));
    };
    match (Awb::read(&bytes), check_digit(&bytes)) {
        (Ok(_), _) => Ok(None),
        (Err(AwbFault::Check), Some(digit)) => {
            let text = cut(alloc, text)?;
            let words = format!(in alloc;
                "\"awb\": wrong check digit in {text}, expected {digit}"
            )?;
            Ok(Some(words))
        }
        _ => Ok(Some(other_words(alloc, Field::Awb, text)?)),
    }
}

/// The words for a text that its field doesn't take.
fn other_words(alloc: Global, field: Field, text: &[u8]) -> Result<String, AllocError> {
    let (name, wanted) = (field.name(), wanted(field));
    let text = quoted(alloc, text)?;
    format!(in alloc; "\"{name}\": expected {wanted}, found {text}")
}

/// The words for a text, if its field doesn't take it.
fn text_words(alloc: Global, field: Field, text: &[u8]) -> Result<Option<String>, AllocError> {
    match field {
        Field::Prefix => digits_words(alloc, "\"prefix\"", text, 3, 3),
        Field::Serial => digits_words(alloc, "\"serial\"", text, 7, 7),
        Field::Awb => awb_words(alloc, text),
        _ if reads(field, text) => Ok(None),
        _ => Ok(Some(other_words(alloc, field, text)?)),
    }
}

/// Returns the words for a member that isn't a text.
pub(crate) fn no_text_words(
    alloc: Global,
    name: &str,
    value: &Value,
) -> Result<String, AllocError> {
    let kind = kind_words(alloc, value)?;
    format!(in alloc; "\"{name}\": expected a text in quotes, found {kind}")
}

/// The words for a member, if its field doesn't take it.
pub(crate) fn member_words(
    alloc: Global,
    field: Field,
    value: &Value,
) -> Result<Option<String>, AllocError> {
    if let Some(range) = range(field) {
        return number_words(alloc, field, range, value);
    }
    match value.as_str() {
        Some(text) => text_words(alloc, field, text.as_bytes()),
        None => Ok(Some(no_text_words(alloc, field.name(), value)?)),
    }
}
