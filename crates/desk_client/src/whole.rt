//! Recognising whole answers.
ghost use Rattle.std.specs.Prelude.{◌≡◌, ◌≤◌, ◌∷◌, [], codes, drop, false, length, map, true, All, IfSome};
ghost use Rattle.desk_client.specs.Common.{header_bytes, IsHeaderWithin, media_type, values_of};
ghost use Rattle.desk_client.specs.Whole.{has_media, is_media, is_type_end, IsExtent, IsExtentOf, IsFound, IsOfForm, IsReport};

use crate::ended::{behind, has_end};
use http_desk::{Values, number_told, values_of};
use httparse::Status;
use httparse::spans::{EMPTY_HEADER_SPAN, HeaderSpan, parse_response};
use reports::Form;

/// The largest number of fields in an answer's head.
const MOST_FIELDS: usize = 16;

/// The status of an answer, and the start of its body.
#[derive(Clone, Copy)]
pub(crate) struct Head {
    pub(crate) status: u16,
    pub(crate) start: usize,
}

/// The received part of the body that the head announces.
#[derive(Clone, Copy)]
pub(crate) enum Extent {
    /// All of it.
    Whole,
    /// A prefix of it.
    Short,
    /// Neither. More bytes don't help.
    Never,
}

/// The part of an answer that bytes are.
#[derive(Clone, Copy)]
pub(crate) enum Found {
    /// A whole answer.
    Whole(Head),
    /// A prefix of an answer.
    Cut,
    /// Not a prefix of any answer of a desk.
    Foreign,
}

/// Returns the extent of a body with a given length.
#[tactic(auto, using(crate::proofs::Bodies::as_told, crate::proofs::Bodies::less_than_told, crate::proofs::Bodies::more_than_told, crate::proofs::Bodies::untold))]
fn extent_by(value: &[u8], body: &[u8]) -> Extent
    ensures { IsExtent (value.now ∷ []) body.now result }
{
    let len = body.len() as u64;
    match number_told(value) {
        Some(told) if told == len => Extent::Whole,
        Some(told) if told > len => Extent::Short,
        _ => Extent::Never,
    }
}

/// Returns the extent of a body without a given length: a report, which must end like one.
fn extent_of_report(body: &[u8]) -> Extent
    ensures { IsExtent [] body.now result }
{
    if has_end(body) {
        Extent::Whole
    } else {
        Extent::Short
    }
}

/// Returns the extent of a body by its head. A desk never sends a chunked body, and without a
/// length it sends only rows.
#[tactic(auto, using(crate::proofs::Bodies::by_length, crate::proofs::Bodies::by_rows, crate::proofs::Bodies::in_parts, crate::proofs::Bodies::of_no_rows, crate::proofs::Bodies::of_several))]
fn extent_of(buf: &[u8], fields: &[HeaderSpan], body: &[u8]) -> Extent
    requires { All (IsHeaderWithin (length buf.now)) fields.now }
    ensures { IsExtentOf (map (header_bytes buf.now) fields.now) body.now result }
{
    let Values::Nothing = values_of(buf, fields, b"transfer-encoding") else {
        return Extent::Never;
    };
    match values_of(buf, fields, b"content-length") {
        Values::Nothing => {
            if has_media(buf, fields, Form::Text) || has_media(buf, fields, Form::Json) {
                extent_of_report(body)
            } else {
                Extent::Never
            }
        }
        Values::One(value) => extent_by(value, body),
        Values::More => Extent::Never,
    }
}

/// Returns whether a head gives no length, like a desk's before a report.
fn is_untold(buf: &[u8], fields: &[HeaderSpan]) -> bool
    requires { All (IsHeaderWithin (length buf.now)) fields.now }
    ensures plain { result ≡ true → values_of (codes "transfer-encoding")
        (map (header_bytes buf.now) fields.now) ≡ [] }
    ensures untold { result ≡ true → values_of (codes "content-length")
        (map (header_bytes buf.now) fields.now) ≡ [] }
{
    let Values::Nothing = values_of(buf, fields, b"transfer-encoding") else {
        return false;
    };
    let Values::Nothing = values_of(buf, fields, b"content-length") else {
        return false;
    };
    true
}

fn media_type(form: Form) -> &'static [u8]
    ensures { result.now ≡ media_type form }
{
    match form {
        Form::Text => b"text/plain",
        Form::Json => b"application/json",
    }
}

fn is_type_end(rest: &[u8]) -> bool
    ensures { result ≡ is_type_end rest.now }
{
    match rest.first() {
        Some(b) => *b == b';',
        None => true,
    }
}

/// Returns whether a media type is that of rows in a form.
fn is_media(form: Form, value: &[u8]) -> bool
    ensures { result ≡ is_media form (value.now ∷ []) }
{
    match behind(media_type(form), value) {
        Some(rest) => is_type_end(rest),
        None => false,
    }
}

fn has_media(buf: &[u8], fields: &[HeaderSpan], form: Form) -> bool
    requires { All (IsHeaderWithin (length buf.now)) fields.now }
    ensures { result ≡ has_media form (map (header_bytes buf.now) fields.now) }
{
    match values_of(buf, fields, b"content-type") {
        Values::One(value) => is_media(form, value),
        _ => false,
    }
}

/// Returns whether an answer has the media type of rows in a form.
pub(crate) fn is_of_form(bytes: &[u8], form: Form) -> bool
    ensures given { result ≡ true → IsOfForm form bytes.now }
    ensures other { result ≡ false → ¬ (IsOfForm form bytes.now) }
{
    let mut headers = [EMPTY_HEADER_SPAN; MOST_FIELDS];
    match parse_response(bytes, &mut headers) {
        Ok(Status::Complete(spans)) => has_media(bytes, &headers[..spans.headers], form),
        _ => false,
    }
}

/// Returns the start of the body if the bytes are a prefix of a report in a form.
pub(crate) fn report_in(bytes: &[u8], form: Form) -> Option<usize>
    ensures within { IfSome result (λ start. start ≤ length bytes.now) }
    ensures report { IfSome result (λ start. IsReport form bytes.now (drop start bytes.now)) }
{
    let mut headers = [EMPTY_HEADER_SPAN; MOST_FIELDS];
    match parse_response(bytes, &mut headers) {
        Ok(Status::Complete(spans)) => {
            let fields = &headers[..spans.headers];
            if spans.code == 200 && is_untold(bytes, fields) && has_media(bytes, fields, form) {
                Some(spans.len)
            } else {
                None
            }
        }
        _ => None,
    }
}

/// Returns how much of an answer the bytes are, and the parts of a whole one.
pub(crate) fn found_in(bytes: &[u8]) -> Found
    ensures { IsFound bytes.now result }
{
    let mut headers = [EMPTY_HEADER_SPAN; MOST_FIELDS];
    match parse_response(bytes, &mut headers) {
        Ok(Status::Complete(spans)) => {
            let fields = &headers[..spans.headers];
            match extent_of(bytes, fields, &bytes[spans.len..]) {
                Extent::Whole => Found::Whole(Head {
                    status: spans.code,
                    start: spans.len,
                }),
                Extent::Short => Found::Cut,
                Extent::Never => Found::Foreign,
            }
        }
        Ok(Status::Partial) => Found::Cut,
        Err(_) => Found::Foreign,
    }
}
