//! Parts of the lines of scripts.
use desk_commands::{Verb, read_day};
use station_core::Key;
use station_days::Moment;

/// Returns the first word of a line, and the text after its space.
pub fn first_word(line: &str) -> (&str, &str) {
    match line.split_once(' ') {
        Some(parts) => parts,
        None => (line, ""),
    }
}

/// Returns the text after the third space of a line.
pub fn body(line: &str) -> &str {
    let (_word, rest) = first_word(line);
    let (_verb, rest) = first_word(rest);
    let (_key, body) = first_word(rest);
    body
}

/// Reads a verb and a key.
pub fn act(rest: &str) -> Option<(Verb, Key)> {
    let (verb, rest) = first_word(rest);
    let (key, _body) = first_word(rest);
    Some((Verb::read(verb.as_bytes())?, Key::read(key.as_bytes())?))
}

/// Reads a moment such as `2026-01-12 10:30`.
pub fn moment(text: &str) -> Option<Moment> {
    let (day, time) = text.split_once(' ')?;
    let (hour, minute) = time.split_once(':')?;
    let day = read_day(day.as_bytes())?.number();
    let minutes = hour.parse::<u16>().ok()?.checked_mul(60)?;
    Moment::new(day, minutes.checked_add(minute.parse::<u16>().ok()?)?)
}
