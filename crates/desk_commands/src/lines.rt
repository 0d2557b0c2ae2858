//! The lines of a text, one for each field.
//! Reading of command texts.

ghost use Rattle.std.specs.Prelude.{◌≡◌, ◌≤◌, ◌∷◌, [], length, IfSome, Some};
ghost use Rattle.desk_commands.specs.Common.{position_or_len};
ghost use Rattle.desk_commands.specs.Body.{IsNext, is_end, lines_left, lines_of, line_says, place_says, places_say, written_flight_of, number_of, lines_say, text_says};
ghost use Rattle.desk_commands.specs.Command.{command_text, IsCommand};
ghost use Rattle.desk_commands.specs.declared.command.Command.{Command as AnyCommand};

use crate::command::{Command, command_of};
use crate::day::Text;
use crate::field_value::FieldValue;
use crate::verb::{Field, Kind, Verb, places};
use awb_number::decimal;
use imp_fields::Flight;

/// Returns the number of bytes before the first newline, or of all bytes without one.
fn before_end(text: &[u8]) -> usize
    ensures place { result ≡ position_or_len is_end text.now }
    ensures bound { result ≤ length text.now }
{
    text.iter().take_while(|b| **b != b'\n').count()
}

/// Returns the first line of a text, and the text after it.
#[tactic(auto, using(crate::proofs::Cuts::cut_at, crate::proofs::Cuts::uncut))]
pub(crate) fn first_line<'a>(text: &'a [u8]) -> (Text<'a>, Option<Text<'a>>)
    ensures { lines_of text.now ≡ result.0 ∷ lines_left result.1 }
{
    let place = before_end(text);
    if place == text.len() {
        return (Text::new(text), None);
    }
    let (_, rest) = text.split_at(place + 1);
    (Text::new(&text[..place]), Some(Text::new(rest)))
}

/// Returns the first line of the remaining text, and the text after it.
pub(crate) fn next_line<'a>(left: Option<Text<'a>>) -> (Option<Text<'a>>, Option<Text<'a>>)
    ensures { IsNext left.entry result.0 result.1 }
{
    match left {
        Some(text) => {
            let first = first_line(text.as_bytes());
            (Some(first.0), first.1)
        }
        None => (None, None),
    }
}

/// Reads one to ten digits without leading zeros.
fn read_number(text: &[u8]) -> Option<u32>
    ensures { result ≡ number_of text.now }
{
    if text.is_empty() || text.len() > 10 || (text.len() > 1 && text[0] == b'0') {
        return None;
    }
    let (front, last) = text.split_at(text.len() - 1);
    let (front, last) = (decimal(front)?, decimal(last)?);
    u32::try_from(u64::from(front) * 10 + u64::from(last)).ok()
}

/// Returns the flight if the line is its written form.
fn written_flight(line: &[u8]) -> Option<Flight>
    ensures { result ≡ written_flight_of line.now }
{
    let flight = Flight::read(line)?;
    let mut bytes = [0; 7];
    let len = flight.write(&mut bytes);
    if &bytes[..len] == line {
        Some(flight)
    } else {
        None
    }
}

fn line_value<'a>(kind: Kind, line: &'a [u8]) -> Option<FieldValue<'a>>
    ensures { result ≡ line_says kind line.now }
{
    match kind {
        Kind::Text => Some(FieldValue::Text(Text::new(line))),
        Kind::Number => match read_number(line) {
            Some(number) => Some(FieldValue::Number(number)),
            None => None,
        },
        Kind::FlightIfAny | Kind::TextIfAny if line.is_empty() => Some(FieldValue::Absent),
        Kind::TextIfAny => Some(FieldValue::Text(Text::new(line))),
        Kind::Flight | Kind::FlightIfAny => match written_flight(line) {
            Some(flight) => Some(FieldValue::Flight(flight)),
            None => None,
        },
    }
}

/// Returns the value of a place. It is `None` unless field and line are both present or both
/// absent.
fn place<'a>(field: Option<Field>, line: Option<Text<'a>>) -> Option<FieldValue<'a>>
    ensures { result ≡ place_says field line.entry }
{
    match (field, line) {
        (None, None) => Some(FieldValue::Absent),
        (Some(field), Some(line)) => line_value(field.kind(), line.as_bytes()),
        _ => None,
    }
}

pub(crate) fn field_values<'a>(
    places: [Option<Field>; 6],
    line_0: Option<Text<'a>>,
    line_1: Option<Text<'a>>,
    line_2: Option<Text<'a>>,
    line_3: Option<Text<'a>>,
    line_4: Option<Text<'a>>,
    line_5: Option<Text<'a>>,
) -> Option<[FieldValue<'a>; 6]>
    ensures { result ≡ places_say places
        (line_0.entry ∷ line_1.entry ∷ line_2.entry ∷ line_3.entry ∷ line_4.entry ∷ line_5.entry ∷
        []) }
{
    let [field_0, field_1, field_2, field_3, field_4, field_5] = places;
    Some([
        place(field_0, line_0)?,
        place(field_1, line_1)?,
        place(field_2, line_2)?,
        place(field_3, line_3)?,
        place(field_4, line_4)?,
        place(field_5, line_5)?,
    ])
}

/// Returns the command whose text this is. It allocates nothing.
pub fn read_command_text(text: &[u8]) -> Option<Command>
    // The result is a command with this text, and the text of any command is read as that command.
    ensures some { IfSome result (λ command. IsCommand command
        × (command_text command ≡ text.now)) }
    ensures only { (command : AnyCommand) → IsCommand command → command_text command ≡ text.now
        → result ≡ Some command }
{
    read_text(text)
}

fn read_text(text: &[u8]) -> Option<Command>
    ensures { result ≡ text_says text.now }
{
    let (word, rest) = first_line(text);
    let (line_0, rest) = next_line(rest);
    let (line_1, rest) = next_line(rest);
    let (line_2, rest) = next_line(rest);
    let (line_3, rest) = next_line(rest);
    let (line_4, rest) = next_line(rest);
    let (line_5, rest) = next_line(rest);
    match rest {
        Some(_) => None,
        None => read_lines(word, line_0, line_1, line_2, line_3, line_4, line_5),
    }
}

/// Reads a verb's word and the lines after it.
fn read_lines<'a>(
    word: Text<'a>,
    line_0: Option<Text<'a>>,
    line_1: Option<Text<'a>>,
    line_2: Option<Text<'a>>,
    line_3: Option<Text<'a>>,
    line_4: Option<Text<'a>>,
    line_5: Option<Text<'a>>,
) -> Option<Command>
    ensures { result ≡ lines_say word.entry
        (line_0.entry ∷ line_1.entry ∷ line_2.entry ∷ line_3.entry ∷ line_4.entry ∷ line_5.entry ∷
        []) }
{
    let verb = Verb::of_word(word.as_bytes())?;
    let values = field_values(places(verb), line_0, line_1, line_2, line_3, line_4, line_5)?;
    command_of(verb, &values)
}
