//! The desk's routes.
//! Keys as segments of paths, percent-encoded.
//! A law of the routes.

ghost use Rattle.std.specs.Prelude.{◌≡◌, option_map, ◌≤◌, ◌∷◌, IfSome, MatchOption, None, Some, length, ◌↔◌, ℕ, List, ◌++◌};
ghost use Rattle.http_desk.specs.Common.{verb_called, encoded_text, number_text, Form, Listing};
ghost use Rattle.http_desk.specs.Request.{asked_place, page_at, page_named, page_part, page_word, place_told, HasPath, IsListed, IsPath, IsPathOf, LeadsTo, rows_path, in_form, Place, Posted, gets, got_history, got_holder, got_report, got_waybill, place_of, posts};
ghost use Rattle.http_desk.specs.Keys.{and_then, decoded, escaped_byte, key_in, key_segment};

use crate::printout::{Printout, printout_at};
use desk_commands::Verb;
use percent_encoding::{AsciiSet, NON_ALPHANUMERIC, PercentEncode, ascii_set, percent_encode};
use station_core::Key;

/// A route. A waybill, its history and a number in stock have their name in the path.
#[derive(Clone, Copy)]
pub enum Route<'a> {
    Command(Verb),
    Check(Verb),
    Telegrams,
    Look,
    Waybill(&'a str),
    History(&'a str),
    Stock(&'a str),
    Report(Printout),
}

fn verb_in(word: &str) -> Option<Verb>
    ensures { result ≡ verb_called word.now }
{
    Verb::read(word.as_bytes())
}

/// Returns the page at a path of one segment.
fn page_word(word: &str) -> Option<Route<'static>>
    ensures { option_map place_told result ≡ page_word word.now }
{
    match word {
        "telegrams" => Some(Route::Telegrams),
        "read" => Some(Route::Look),
        _ => None,
    }
}

/// Returns the page at a path of two segments.
fn page_named<'a>(kind: &str, name: &'a str) -> Option<Route<'a>>
    ensures { option_map place_told result ≡ page_named kind.now name.now }
{
    match kind {
        "act" => Some(Route::Command(verb_in(name)?)),
        "check" => Some(Route::Check(verb_in(name)?)),
        "waybills" if !name.is_empty() => Some(Route::Waybill(name)),
        "stock" if !name.is_empty() => Some(Route::Stock(name)),
        _ => None,
    }
}

/// Returns the page at a path of three segments.
fn page_part<'a>(kind: &str, name: &'a str, part: &str) -> Option<Route<'a>>
    ensures { option_map place_told result ≡ page_part kind.now name.now part.now }
{
    match (kind, part) {
        ("waybills", "history") if !name.is_empty() => Some(Route::History(name)),
        _ => None,
    }
}

fn page_at(path: &str) -> Option<Route<'_>>
    ensures { option_map place_told result ≡ page_at path.now }
{
    let rest = path.strip_prefix("/v1/")?;
    let Some((kind, name)) = rest.split_once('/') else {
        return page_word(rest);
    };
    match name.split_once('/') {
        Some((name, part)) => page_part(kind, name, part),
        None => page_named(kind, name),
    }
}

/// Returns the route of a path: its page, or else the rows that it requests.
pub(crate) fn route_of(path: &str) -> Option<Route<'_>>
    ensures { option_map place_told result ≡ asked_place (page_at path.now) path.now }
{
    match page_at(path) {
        Some(route) => Some(route),
        None => match printout_at(path) {
            Some(printout) => Some(Route::Report(printout)),
            None => None,
        },
    }
}

/// The ASCII bytes that are escaped: all but letters, digits, `-`, `_` and `~`. A dot is escaped,
/// so that `.json` at the end of a printed path isn't part of the key.
const ESCAPED: AsciiSet = ascii_set!(NON_ALPHANUMERIC.remove(b'-').remove(b'_').remove(b'~'));

/// Returns the segment of a key.
#[tactic(auto, using(crate::proofs::KeySegments::segment_is))]
pub(crate) fn key_segment(key: &Key) -> PercentEncode<'_>
    ensures { encoded_text result ≡ key_segment key.now }
{
    percent_encode(key.as_bytes(), ESCAPED)
}

/// Returns the byte that two hexadecimal digits stand for.
fn escaped_byte(high: u8, low: u8) -> Option<u8>
    ensures { result ≡ escaped_byte high low }
{
    let high = char::from(high).to_digit(16)?;
    let low = char::from(low).to_digit(16)?;
    Some((16 * high + low) as u8)
}

/// Returns the first byte of `first` and `rest`, decoded, and the text after it.
fn next_byte<'a>(first: u8, rest: &'a [u8]) -> Option<(u8, &'a [u8])>
    ensures byte { MatchOption result (decoded (first ∷ rest.now) ≡ None)
        (λ next. decoded (first ∷ rest.now) ≡ and_then (Some next.0) (decoded next.1.now)) }
    ensures shorter { IfSome result (λ next. length next.1.now ≤ length rest.now) }
{
    if first != b'%' {
        return Some((first, rest));
    }
    let [high, low, later @ ..] = rest else {
        return None;
    };
    Some((escaped_byte(*high, *low)?, later))
}

/// Returns the key that a segment stands for.
pub(crate) fn key_in(segment: &str) -> Option<Key>
    ensures { result ≡ key_in segment.now }
{
    // A key has at most 40 bytes.
    let mut bytes = [0; 40];
    let mut len = 0;
    let mut rest = segment.as_bytes();
    while let Some((first, later)) = rest.split_first() {
        let (byte, later) = next_byte(*first, later)?;
        if len == bytes.len() {
            return None;
        }
        bytes[len] = byte;
        len += 1;
        rest = later;
    }
    Key::read(&bytes[..len])
}

/// States where each path leads, and that no other path leads anywhere. A query after a question
/// mark isn't part of the path. A printed path leads to the place that it was printed for.
pub fn routes_law()
    ensures leads { (path : List ℕ) (place : Place) → IsPath path
        → (place_of path ≡ Some place) ↔ LeadsTo path place }
    ensures query { (path query : List ℕ) → IsPath path
        → place_of (path ++ 63 ∷ query) ≡ place_of path }
    ensures posted { (p : Posted) → HasPath (posts p) }
    ensures waybill { (w : ℕ) → HasPath (gets (got_waybill (number_text w))) }
    ensures history { (w : ℕ) → HasPath (gets (got_history (number_text w))) }
    ensures holder { (w : ℕ) → HasPath (gets (got_holder (number_text w))) }
    ensures rows { (l : Listing) (f : Form) → IsListed l
        → IsPathOf (rows_path l f) (gets (got_report (in_form f l))) }
{}
