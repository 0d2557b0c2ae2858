//! The line in an answer, as the command line prints it.
ghost use Rattle.std.specs.Prelude.{◌≡◌, IfOk, option_map, string_bytes, Some, None};
ghost use Rattle.desk_client.specs.Common.{view};
ghost use Rattle.desk_client.specs.Content.{count_told, ok_line, refused_line, refusal_told, told_line, HasContent};

use serde_json::Value;
use std::alloc::{AllocError, Global};

/// The content of an answer to a command or a telegram.
#[derive(Drop)]
pub enum Content {
    /// The line without its end, `ok 10`, `refused 102 020-12345723` or `body bad`, and whether the
    /// input was accepted.
    Line { good: bool, text: String },
    /// The answer isn't one of a desk to a command.
    Nothing,
}

/// Returns a line such as `ok 10`.
fn ok_line(alloc: Global, count: u32) -> Result<String, AllocError>
    ensures { IfOk result (λ line. string_bytes line ≡ ok_line count) }
{
    format!(in alloc; "ok {count}")
}

/// Returns a line such as `refused 102 020-12345723` or `refused 501`.
fn refused_line(alloc: Global, number: u64, detail: &str) -> Result<String, AllocError>
    ensures { IfOk result (λ line. string_bytes line ≡ refused_line number detail.now) }
{
    if detail.is_empty() {
        return format!(in alloc; "refused {number}");
    }
    format!(in alloc; "refused {number} {detail}")
}

/// Returns the count in the answer to an accepted input.
fn count_told(value: &Value) -> Option<u32>
    ensures { result ≡ count_told (view value.now) }
{
    match u32::try_from(value.get("count")?.as_u64()?) {
        Ok(count) => Some(count),
        Err(_) => None,
    }
}

fn refusal_told(value: &Value) -> Option<(u64, &str)>
    ensures { option_map (λ told. (told.0, told.1.now)) result ≡ refusal_told (view value.now) }
{
    let number = value.get("refused")?.as_u64()?;
    let detail = value.get("detail")?.as_str()?;
    Some((number, detail))
}

/// Returns the line for an object under a status.
fn told_line(alloc: Global, status: u16, value: &Value) -> Result<Option<String>, AllocError>
    ensures { IfOk result
        (λ line. option_map (λ line. string_bytes line) line ≡ told_line status (view value.now)) }
{
    if status == 200 {
        let Some(count) = count_told(value) else {
            return Ok(None);
        };
        return Ok(Some(ok_line(alloc, count)?));
    }
    let Some((number, detail)) = refusal_told(value) else {
        return Ok(None);
    };
    if status == 409 || (status == 400 && (number == 301 || number == 302)) {
        return Ok(Some(refused_line(alloc, number, detail)?));
    }
    if status == 400 && number == 400 && detail == "body" {
        return Ok(Some(format!(in alloc; "body bad")?));
    }
    Ok(None)
}

/// Returns the content of an answer to a command or a telegram, from its status and its body.
pub fn content_of(alloc: Global, status: u16, body: &[u8]) -> Result<Content, AllocError>
    ensures { IfOk result (HasContent status body.now) }
{
    let good = status == 200;
    match Value::from_slice(alloc, body) {
        Ok(value) => match told_line(alloc, status, &value)? {
            Some(text) => Ok(Content::Line { good, text }),
            None => Ok(Content::Nothing),
        },
        Err(e) if e.is_memory() => Err(AllocError),
        Err(_) => Ok(Content::Nothing),
    }
}
