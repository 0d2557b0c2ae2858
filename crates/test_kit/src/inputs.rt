//! Commands as inputs of a station.
use desk_commands::read_command_text;
use station_core::{Answer, Input, Keeper, Key, answer_one};
use station_days::Moment;

pub fn keyed<'a>(key: &str, command: &str) -> Option<Input<'a>> {
    let key = Key::read(key.as_bytes())?;
    let command = read_command_text(command.as_bytes())?;
    Some(Input::Keyed(key, command))
}

pub fn is_done(station: &mut impl Keeper, input: &Input<'_>, at: Moment) -> bool {
    matches!(answer_one(station, input, at), Ok(Answer::Done(_)))
}
