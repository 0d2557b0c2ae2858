//! Receiving one request.
//! Reading the head of a request.
//! The header fields of a request.

ghost use Rattle.std.specs.Prelude.{◌≡◌, ◌≤◌, ◌+◌, ◌-◌, ◌++◌, [], length, Err, OnOk, IfOk, ℕ, List, map, All, option_map, Some};
ghost use Rattle.http_desk.specs.Common.{IsRequestOf, IsRequestWithin, header_bytes, IsHeaderWithin};
ghost use Rattle.http_desk.specs.Came.{BeginsWith, HasBody, HasPartBody, HasRequest, asks_meant};
ghost use Rattle.http_desk.specs.Reply.{HasEndedEarly, HasEndedAfter, HasGrown, HasMore, most_reads, IsUnfinished, Wants};
ghost use Rattle.http_desk.specs.Request.{place_asks, Posted, Got, posts, gets, place_told, number_told, length_meant, AreTold, IsSmall, is_named, values_of, length_in, key_of, body_length, is_at, is_own, is_foreign};

use crate::route::Route;
use crate::serve::{FaultTold, ReadEnd, read_head, read_on};
use crate::wanted::{HeadWants, Wanted, body_wants, head_wants};
use awb_number::decimal;
use httparse::spans::{EMPTY_HEADER_SPAN, HeaderSpan, RequestSpans};
use imp_fields::MOST_BYTES;
use station_core::{ByteIn, Key};
use std::alloc::{AllocError, Global};

const BAD_HEAD: FaultTold = FaultTold {
    status: 400,
    word: "head",
    allow: None,
};

/// A received request.
#[derive(Drop)]
pub(crate) enum Came {
    /// There is no head, and more bytes can't complete one.
    NoHead,
    /// A head: its request, its key, and the start of its body, which is complete.
    Head(HeadWants, Option<Key>, usize),
}

/// Returns the request of the head at the start of the bytes, and its key.
fn wants_at(bytes: &[u8], spans: &RequestSpans, headers: &[HeaderSpan]) -> (HeadWants, Option<Key>)
    requires within { IsRequestWithin bytes.now headers.now spans.now }
    requires head { IsRequestOf bytes.now headers.now spans.now }
    requires room { length bytes.now ≤ 16_384 }
    requires few { length headers.now ≡ 64 }
    ensures { BeginsWith bytes.now result.0 result.1 spans.now.len }
{
    let wants = head_wants(bytes, spans, headers);
    (wants, key_of(bytes, &headers[..spans.headers]))
}

/// Reads until the body is complete.
fn read_body<I: ByteIn>(
    reader: &mut I,
    bytes: &mut Vec<u8>,
    wants: &HeadWants,
    start: usize,
    turns: u32,
) -> Result<(), ReadEnd>
    requires { turns ≤ 100_000 }
    ensures come { OnOk result
        (HasGrown (I.given reader.old) (I.given reader.new) bytes.old.items bytes.new.items) }
    ensures body { OnOk result (HasBody wants.now start bytes.new.items) }
    ensures most { (I.given reader.new).calls ≤ (I.given reader.old).calls + (most_reads - turns) }
    ensures read { result ≡ Err ReadEnd.Read
        → HasEndedAfter turns (I.given reader.old) (I.given reader.new) }
    ensures unfinished { result ≡ Err ReadEnd.Read → HasPartBody wants.now start bytes.new.items
        × HasMore (I.given reader.old) (I.given reader.new) bytes.old.items bytes.new.items }
    ensures no_head { result ≡ Err ReadEnd.Head → ⊥ }
{
    let HeadWants::Body(_, len) = wants else {
        return Ok(());
    };
    let Some(whole) = start.checked_add(*len as usize) else {
        return Err(ReadEnd::Memory);
    };
    read_on(reader, bytes, whole, turns)
}

pub(crate) fn read_request<I: ByteIn>(reader: &mut I, bytes: &mut Vec<u8>) -> Result<Came, ReadEnd>
    requires { bytes.old.items ≡ [] }
    ensures come { OnOk result
        ((I.given reader.new).bytes ≡ (I.given reader.old).bytes ++ bytes.new.items) }
    ensures request { IfOk result (HasRequest bytes.new.items) }
    ensures most { (I.given reader.new).calls ≤ (I.given reader.old).calls + most_reads }
    ensures read { result ≡ Err ReadEnd.Read
        → HasEndedEarly (I.given reader.old) (I.given reader.new) }
    ensures unfinished { result ≡ Err ReadEnd.Read
        → IsUnfinished bytes.new.items
        × ((I.given reader.new).bytes ≡ (I.given reader.old).bytes ++ bytes.new.items) }
    ensures no_head { result ≡ Err ReadEnd.Head → ⊥ }
{
    let mut headers = [EMPTY_HEADER_SPAN; 64];
    let (spans, turns) = match read_head(reader, bytes, &mut headers) {
        Ok(head) => head,
        Err(ReadEnd::Head) => return Ok(Came::NoHead),
        Err(end) => return Err(end),
    };
    let (wants, key) = wants_at(bytes.as_slice(), &spans, &headers);
    match read_body(reader, bytes, &wants, spans.len, turns) {
        Ok(()) => Ok(Came::Head(wants, key, spans.len)),
        Err(end) => Err(end),
    }
}

/// Returns the request of a head with its body.
fn whole_wants<'a>(
    alloc: Global,
    bytes: &'a [u8],
    wants: HeadWants,
    key: Option<Key>,
    start: usize,
) -> Result<Wanted<'a>, AllocError>
    requires begins { BeginsWith bytes.now wants key start }
    requires body { HasBody wants start bytes.now }
    ensures { IfOk result (Wants bytes.entry.now) }
{
    match wants {
        HeadWants::Now(wanted) => Ok(wanted),
        HeadWants::Body(post, len) => {
            let body = &bytes[start..start + len as usize];
            body_wants(alloc, post, key, body)
        }
    }
}

/// Returns what a received request wants.
pub(crate) fn wanted<'a>(
    alloc: Global,
    bytes: &'a [u8],
    came: Came,
) -> Result<Wanted<'a>, AllocError>
    requires { HasRequest bytes.now came }
    ensures { IfOk result (Wants bytes.entry.now) }
{
    match came {
        Came::NoHead => Ok(Wanted::Fault(BAD_HEAD)),
        Came::Head(wants, key, start) => whole_wants(alloc, bytes, wants, key, start),
    }
}

/// The path leads nowhere.
pub(crate) const NOT_FOUND: FaultTold = FaultTold {
    status: 404,
    word: "",
    allow: None,
};

const ALLOW_POST: FaultTold = FaultTold {
    status: 405,
    word: "",
    allow: Some("POST"),
};

const ALLOW_GET: FaultTold = FaultTold {
    status: 405,
    word: "",
    allow: Some("GET"),
};

/// The request in a head, for its route.
#[derive(Clone, Copy)]
pub(crate) enum Asks {
    Refused(FaultTold),
    /// A GET.
    Got,
    /// A POST, with the length of its body.
    Posted(u64),
}

/// Returns the request to a route that takes a body.
fn post(method: &[u8], buf: &[u8], fields: &[HeaderSpan]) -> Asks
    requires { All (IsHeaderWithin (length buf.now)) fields.now }
    ensures { (target : List ℕ) (posted : Posted)
        → asks_meant (Some (posts posted)) result ≡ place_asks
        (record {
          method = method.now;
          target = target;
          fields = map (header_bytes buf.now)
              fields.now;
        }) (Some (posts posted)) }
{
    if method != b"POST".as_slice() {
        return Asks::Refused(ALLOW_POST);
    }
    match body_length(buf, fields) {
        Ok(len) => Asks::Posted(len),
        Err(fault) => Asks::Refused(fault),
    }
}

/// Returns the request to a route that takes no body.
fn get(method: &[u8]) -> Asks
    ensures { (target : List ℕ) (fields : List (List ℕ × List ℕ)) (got : Got)
        → asks_meant (Some (gets got)) result ≡ place_asks
        (record { method = method.now; target = target; fields = fields }) (Some (gets got)) }
{
    if method != b"GET".as_slice() {
        return Asks::Refused(ALLOW_GET);
    }
    Asks::Got
}

/// Returns the request in a head whose path leads to `route`.
pub(crate) fn head_asks(
    route: &Option<Route<'_>>,
    method: &[u8],
    buf: &[u8],
    fields: &[HeaderSpan],
) -> Asks
    requires { All (IsHeaderWithin (length buf.now)) fields.now }
    ensures { (target : List ℕ)
        → asks_meant (option_map place_told route.now) result ≡ place_asks
        (record {
          method = method.now;
          target = target;
          fields = map (header_bytes buf.now)
              fields.now;
        }) (option_map place_told route.now) }
{
    let Some(route) = route else {
        return Asks::Refused(NOT_FOUND);
    };
    match route {
        Route::Command(_) => post(method, buf, fields),
        Route::Check(_) => post(method, buf, fields),
        Route::Telegrams => post(method, buf, fields),
        Route::Look => post(method, buf, fields),
        Route::Waybill(_) => get(method),
        Route::History(_) => get(method),
        Route::Stock(_) => get(method),
        Route::Report(_) => get(method),
    }
}

/// The length is given twice, or isn't a number.
const BAD_LENGTH: FaultTold = FaultTold {
    status: 400,
    word: "length",
    allow: None,
};

const NO_LENGTH: FaultTold = FaultTold {
    status: 411,
    word: "",
    allow: None,
};

const TOO_LARGE: FaultTold = FaultTold {
    status: 413,
    word: "",
    allow: None,
};

/// The values of a header field.
#[derive(Clone, Copy)]
pub enum Values<'a> {
    /// The field is absent.
    Nothing,
    /// The value of the only field.
    One(&'a [u8]),
    /// There are several fields.
    More,
}

/// Returns whether a field has this lower-case name, in any case.
fn is_named(buf: &[u8], field: &HeaderSpan, name: &[u8]) -> bool
    requires within { IsHeaderWithin (length buf.now) field.now }
    requires small { IsSmall name.now }
    ensures { result ≡ is_named name.now (header_bytes buf.now field.now) }
{
    field.name.of(buf).eq_ignore_ascii_case(name)
}

/// Returns the values of the fields with a lower-case name.
pub fn values_of<'a>(buf: &'a [u8], fields: &[HeaderSpan], name: &[u8]) -> Values<'a>
    requires within { All (IsHeaderWithin (length buf.now)) fields.now }
    requires small { IsSmall name.now }
    ensures { AreTold result (values_of name.now (map (header_bytes buf.entry.now) fields.now)) }
{
    let Some((field, more)) = fields.split_first() else {
        return Values::Nothing;
    };
    let rest = values_of(buf, more, name);
    if !is_named(buf, field, name) {
        return rest;
    }
    match rest {
        Values::Nothing => Values::One(field.value.of(buf)),
        Values::One(_) => Values::More,
        Values::More => Values::More,
    }
}

/// Reads a number of one to ten digits.
pub fn number_told(value: &[u8]) -> Option<u64>
    ensures { result ≡ number_told value.now }
{
    if value.is_empty() || value.len() > 10 {
        return None;
    }
    let (front, last) = value.split_at(value.len() - 1);
    let (front, last) = (decimal(front)?, decimal(last)?);
    Some(u64::from(front) * 10 + u64::from(last))
}

/// Reads a length of at most 65,536.
fn length_in(value: &[u8]) -> Result<u64, FaultTold>
    ensures { length_meant result ≡ length_in value.now }
{
    match number_told(value) {
        Some(told) if told <= MOST_BYTES as u64 => Ok(told),
        Some(_) => Err(TOO_LARGE),
        None => Err(BAD_LENGTH),
    }
}

pub(crate) fn body_length(buf: &[u8], fields: &[HeaderSpan]) -> Result<u64, FaultTold>
    requires { All (IsHeaderWithin (length buf.now)) fields.now }
    ensures { length_meant result ≡ body_length (map (header_bytes buf.now) fields.now) }
{
    let Values::Nothing = values_of(buf, fields, b"transfer-encoding") else {
        return Err(NO_LENGTH);
    };
    match values_of(buf, fields, b"content-length") {
        Values::Nothing => Err(NO_LENGTH),
        Values::One(value) => length_in(value),
        Values::More => Err(BAD_LENGTH),
    }
}

pub(crate) fn key_of(buf: &[u8], fields: &[HeaderSpan]) -> Option<Key>
    requires { All (IsHeaderWithin (length buf.now)) fields.now }
    ensures { result ≡ key_of (map (header_bytes buf.now) fields.now) }
{
    match values_of(buf, fields, b"request-key") {
        Values::One(value) => Key::read(value),
        _ => None,
    }
}

/// Returns whether an origin is `scheme` followed by `host`.
fn is_at(scheme: &[u8], host: &[u8], origin: &[u8]) -> bool
    ensures { result ≡ is_at scheme.now host.now origin.now }
{
    match origin.strip_prefix(scheme) {
        Some(told) => told == host,
        None => false,
    }
}

fn is_own(host: &[u8], origin: &[u8]) -> bool
    ensures { result ≡ is_own host.now origin.now }
{
    is_at(b"http://", host, origin) || is_at(b"https://", host, origin)
}

/// Returns whether the request comes from a page of another host.
pub(crate) fn is_foreign(buf: &[u8], fields: &[HeaderSpan]) -> bool
    requires { All (IsHeaderWithin (length buf.now)) fields.now }
    ensures { result ≡ is_foreign (map (header_bytes buf.now) fields.now) }
{
    let hosts = values_of(buf, fields, b"host");
    match values_of(buf, fields, b"origin") {
        Values::Nothing => false,
        Values::One(origin) => match hosts {
            Values::One(host) => !is_own(host, origin),
            _ => true,
        },
        Values::More => true,
    }
}
