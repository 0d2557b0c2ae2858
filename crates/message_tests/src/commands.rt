//! Commands, their verbs and their texts.
use desk_commands::{Verb, command_text, read_command, read_command_text};
use serde_json::Value;
use std::alloc::Global;
use test_kit::{say, shown};

/// Answers a verb, whether a text is a command's, or the text of the command of a verb's body.
pub fn answer(alloc: Global, asked: &str, text: &[u8]) -> Option<String> {
    match asked {
        "verb" => match Verb::read(text) {
            Some(verb) => format!(in alloc; "{verb:?} {}", verb.word()).ok(),
            None => say(alloc, "none"),
        },
        "text" => {
            let is_read = read_command_text(text).is_some();
            say(alloc, if is_read { "read" } else { "none" })
        }
        _ => of_body(alloc, Verb::read(asked.as_bytes())?, shown(text)),
    }
}

/// Returns the text of a body's command, from which it is read back, or `none`.
fn of_body(alloc: Global, verb: Verb, body: &str) -> Option<String> {
    let value = Value::from_str(alloc, body).ok()?;
    let Ok(command) = read_command(verb, &value) else {
        return say(alloc, "none");
    };
    let text = command_text(alloc, &command).ok()?;
    if read_command_text(text.as_bytes()) == Some(command) {
        Some(text)
    } else {
        None
    }
}
