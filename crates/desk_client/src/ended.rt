//! The end of a report.
//! The prefix of a report that can be printed before the rest is received.

ghost use Rattle.std.specs.Prelude.{◌≡◌, ◌≤◌, codes, length, option_map, ◌+◌, ◌-◌, ◌++◌, ◌∷◌, [], take, IfSome};
ghost use Rattle.desk_client.specs.Whole.{before_digits, behind, ends_in, has_count, has_count_in, has_end, is_before_count, is_before_json_count, without, mark_of, IsBegun, IsFrontEnd};

use crate::whole::report_in;
use reports::Form;

#[tactic(auto, using(crate::proofs::Ends::more_digits, crate::proofs::Ends::no_digit))]
fn before_digits(text: &[u8]) -> &[u8]
    ensures value { result.now ≡ before_digits text.entry.now }
    ensures within { length result.now ≤ length text.entry.now }
{
    match text.split_last() {
        Some((last, front)) if last.is_ascii_digit() => before_digits(front),
        _ => text,
    }
}

fn is_before_count(front: &[u8]) -> bool
    ensures { result ≡ is_before_count front.now }
{
    front == b"END ".as_slice() || front.ends_with(b"\nEND ")
}

fn is_before_json_count(front: &[u8]) -> bool
    ensures { result ≡ is_before_json_count front.now }
{
    front.ends_with(b"],\"count\":")
}

/// Returns whether a text ends with the word of a report's last line and digits.
fn has_count(line: &[u8]) -> bool
    ensures { result ≡ has_count is_before_count line.now }
{
    let front = before_digits(line);
    front.len() < line.len() && is_before_count(front)
}

/// Returns whether a text ends with the end of the rows in JSON and digits.
fn has_json_count(object: &[u8]) -> bool
    ensures { result ≡ has_count is_before_json_count object.now }
{
    let front = before_digits(object);
    front.len() < object.len() && is_before_json_count(front)
}

fn without<'a>(text: &'a [u8], end: &[u8]) -> Option<&'a [u8]>
    ensures { option_map (λ front. front.now) result ≡ without end.now text.entry.now }
{
    text.strip_suffix(end)
}

pub(crate) fn behind<'a>(front: &[u8], text: &'a [u8]) -> Option<&'a [u8]>
    ensures { option_map (λ rest. rest.now) result ≡ behind front.now text.entry.now }
{
    text.strip_prefix(front)
}

/// Returns whether a text ends with the last line of a report, such as `END 12`.
fn is_text_end(text: &[u8]) -> bool
    ensures { result ≡ ends_in Form.Text text.now }
{
    match without(text, b"\n") {
        Some(line) => has_count(line),
        None => false,
    }
}

/// Returns whether a text ends like a report in JSON, with `],"count":12}`.
fn is_json_end(text: &[u8]) -> bool
    ensures { result ≡ ends_in Form.Json text.now }
{
    match without(text, b"}\n") {
        Some(object) => has_json_count(object),
        None => false,
    }
}

/// Returns whether a text ends as a report in a form does.
pub(crate) fn ends_in(form: Form, text: &[u8]) -> bool
    ensures { result ≡ ends_in form text.now }
{
    match form {
        Form::Text => is_text_end(text),
        Form::Json => is_json_end(text),
    }
}

pub(crate) fn has_end(text: &[u8]) -> bool
    ensures { result ≡ has_end text.now }
{
    is_text_end(text) || is_json_end(text)
}

/// Returns the byte that ends a row in a form.
fn mark_of(form: Form) -> u8
    ensures { result ≡ mark_of form }
{
    match form {
        Form::Text => b'\n',
        Form::Json => b'}',
    }
}

/// Returns the index after the last `mark` in `text[from..]` that has at least two bytes on each
/// side in `text`.
fn after_last(text: &[u8], from: usize, mark: u8) -> Option<usize>
    ensures { IfSome result (λ end. (3 ≤ end) × (end + 2 ≤ length text.now)
        × (take end text.now ≡ take (end - 1) text.now ++ mark ∷ [])) }
{
    let low = from.max(2);
    let high = text.len().saturating_sub(2);
    for back in 0..high.saturating_sub(low) {
        let at = high - 1 - back;
        if text[at] == mark {
            return Some(at + 1);
        }
    }
    None
}

/// Returns the length of the longest printable prefix that ends with a row after `from`. It is
/// `None` if there isn't one, or if that prefix looks like a complete report.
pub(crate) fn front_end(text: &[u8], from: usize, form: Form) -> Option<usize>
    ensures { IfSome result (IsFrontEnd form text.now) }
{
    let end = after_last(text, from, mark_of(form))?;
    if has_end(&text[..end]) {
        return None;
    }
    Some(end)
}

/// Returns the start of a report's body in `bytes`, and the length of the body's printable prefix,
/// considering only rows that end after `from`.
pub(crate) fn begun_in(bytes: &[u8], from: usize, form: Form) -> Option<(usize, usize)>
    ensures { IfSome result (λ place. IsBegun form bytes.now place.0 place.1) }
{
    let start = report_in(bytes, form)?;
    let end = front_end(&bytes[start..], from.saturating_sub(start), form)?;
    Some((start, end))
}
