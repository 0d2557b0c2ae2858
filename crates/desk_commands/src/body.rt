//! Commands as JSON bodies.

ghost use Rattle.std.specs.Prelude.{◌≡◌, Ok, IfOk, IfErr, count_by};
ghost use Rattle.desk_commands.specs.Common.{view};
ghost use Rattle.desk_commands.specs.Body.{IsBodyOf, member_says, field_says, fields_say, body_says};
ghost use Rattle.desk_commands.specs.Command.{is_present};
ghost use Rattle.desk_commands.specs.declared.command.Command.{Command as AnyCommand};

use crate::command::{Command, command_of};
use crate::day::Text;
use crate::field_value::FieldValue;
use crate::verb::{Field, Kind, Verb, places};
use imp_fields::Flight;
use serde_json::Value;

/// A JSON body that isn't a command of the verb.
#[derive(Clone, Copy)]
pub struct BadBody;

/// Reads the command of a verb from a JSON body: an object with exactly the keys of the verb's
/// fields, each with a value in range. Numbers are whole and written without fraction or exponent.
/// A flight number may have leading zeros. For missing and found pieces, flight and date may both
/// be absent. Returns [`BadBody`] for any other body.
pub fn read_command(verb: Verb, value: &Value) -> Result<Command, BadBody>
    ensures ok { IfOk result (λ command. IsBodyOf verb (view value.now) command) }
    ensures only { (command : AnyCommand) → IsBodyOf verb (view value.now) command
        → result ≡ Ok command }
    ensures bad { IfErr result (λ fault. (command : AnyCommand)
        → ¬ (IsBodyOf verb (view value.now) command)) }
{
    match read(verb, value) {
        Some(command) => Ok(command),
        None => Err(BadBody),
    }
}

fn read(verb: Verb, body: &Value) -> Option<Command>
    ensures { result ≡ body_says verb (view body.now) }
{
    let members = body.as_object()?.len();
    let values = field_values(places(verb), body)?;
    if members != present_count(&values) {
        return None;
    }
    command_of(verb, &values)
}

fn is_present(value: &FieldValue<'_>) -> bool
    ensures { result ≡ is_present value.now }
{
    !matches!(value, FieldValue::Absent)
}

fn present_count(values: &[FieldValue<'_>; 6]) -> usize
    ensures { result ≡ count_by is_present values.now }
{
    values.iter().filter(|value| is_present(value)).count()
}

/// Returns the value of a member, read by its kind.
fn member(kind: Kind, value: &Value) -> Option<FieldValue<'_>>
    ensures { result ≡ member_says kind (view value.now) }
{
    match kind {
        Kind::Text | Kind::TextIfAny => {
            let text = value.as_str()?;
            Some(FieldValue::Text(Text::new(text.as_bytes())))
        }
        Kind::Number => {
            let number = u32::try_from(value.as_u64()?).ok()?;
            Some(FieldValue::Number(number))
        }
        Kind::Flight | Kind::FlightIfAny => {
            let flight = Flight::read(value.as_str()?.as_bytes())?;
            Some(FieldValue::Flight(flight))
        }
    }
}

/// Returns the value of a field, or [`FieldValue::Absent`] without a field or a member.
fn field_value(field: Option<Field>, body: &Value) -> Option<FieldValue<'_>>
    ensures { result ≡ field_says field (view body.now) }
{
    let Some(field) = field else {
        return Some(FieldValue::Absent);
    };
    match body.get(field.name()) {
        Some(value) => member(field.kind(), value),
        None => Some(FieldValue::Absent),
    }
}

fn field_values(places: [Option<Field>; 6], body: &Value) -> Option<[FieldValue<'_>; 6]>
    ensures { result ≡ fields_say places (view body.now) }
{
    let [field_0, field_1, field_2, field_3, field_4, field_5] = places;
    Some([
        field_value(field_0, body)?,
        field_value(field_1, body)?,
        field_value(field_2, body)?,
        field_value(field_3, body)?,
        field_value(field_4, body)?,
        field_value(field_5, body)?,
    ])
}
