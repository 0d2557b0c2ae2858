//! Decoding a request.
//! The answer to an accepted input. It is written into an array on the stack, so that nothing is
//! allocated between the act and the first byte of the 200.

ghost use Rattle.std.specs.Prelude.{◌≡◌, IfOk, option_map, ◌+◌, ◌≤◌, ◌<◌, ◌++◌, ◌∷◌, [], length, take, decimal};
ghost use Rattle.http_desk.specs.Common.{RequestHead, IsRequestAt, IsRequestOf, IsRequestWithin, compact_text};
ghost use Rattle.http_desk.specs.Reply.{head_of, WantsNow, HasWants, WantsAsked, BodyWants, posted_of, ok_data, ok_answer};
ghost use Rattle.http_desk.specs.Request.{body_meant, head_asks, looks_up, own_asks, IsAskedUnder, got_history, got_holder, got_waybill, path_of, place_told};
ghost use Rattle.http_desk.specs.Came.{asks_meant, got_at};

use crate::asking::{Body, check_asked, command_asked, look_asked, telegram_asked};
use crate::printout::{Printout, number_in};
use crate::request::{Asks, NOT_FOUND, head_asks, is_foreign};
use crate::route::{Route, route_of};
use crate::serve::FaultTold;
use awb_number::Awb;
use desk_commands::Verb;
use httparse::spans::{HeaderSpan, RequestSpans};
use imp_fields::put_decimal;
use shipment_machine::Refusal;
use station_core::{Input, Key};
use std::alloc::{AllocError, Global};

/// A complete request, decoded.
#[derive(Drop)]
pub(crate) enum Wanted<'a> {
    /// Its head or its body is refused.
    Fault(FaultTold),
    /// Its body isn't a telegram.
    Unreadable(Refusal),
    /// A dry run, as JSON.
    Look(String),
    /// A dry run of a body that isn't a telegram: its refusal and the reason, as JSON.
    Misread(String),
    Waybill(Awb),
    History(Awb),
    Holder(Awb),
    Report(Printout),
    Input(Input<'a>),
}

/// The kind of body that a request posts.
#[derive(Clone, Copy)]
pub(crate) enum Post {
    Command(Verb),
    Check(Verb),
    Telegram,
    Look,
}

/// A decoded head.
#[derive(Drop)]
pub(crate) enum HeadWants {
    /// The request has no body.
    Now(Wanted<'static>),
    /// The request has a body of this length.
    Body(Post, u64),
}

/// The request comes from a page of another host.
const BAD_ORIGIN: FaultTold = FaultTold {
    status: 400,
    word: "origin",
    allow: None,
};

/// Returns the part of a target before a question mark.
fn path_in(target: &str) -> &str
    ensures { result.now ≡ path_of target.now }
{
    match target.split_once('?') {
        Some((path, _)) => path,
        None => target,
    }
}

fn waybill_at(name: &str) -> Wanted<'static>
    ensures { WantsNow (looks_up (got_waybill name.now)) result }
{
    match number_in(name.as_bytes()) {
        Some(number) => Wanted::Waybill(number),
        None => Wanted::Fault(NOT_FOUND),
    }
}

fn history_at(name: &str) -> Wanted<'static>
    ensures { WantsNow (looks_up (got_history name.now)) result }
{
    match number_in(name.as_bytes()) {
        Some(number) => Wanted::History(number),
        None => Wanted::Fault(NOT_FOUND),
    }
}

fn holder_at(name: &str) -> Wanted<'static>
    ensures { WantsNow (looks_up (got_holder name.now)) result }
{
    match number_in(name.as_bytes()) {
        Some(number) => Wanted::Holder(number),
        None => Wanted::Fault(NOT_FOUND),
    }
}

/// Returns the request of a GET.
fn got(route: &Route<'_>) -> Wanted<'static>
    ensures { WantsNow (got_at (place_told route.now)) result }
{
    match route {
        Route::Waybill(name) => waybill_at(name),
        Route::History(name) => history_at(name),
        Route::Stock(name) => holder_at(name),
        Route::Report(printout) => Wanted::Report(*printout),
        Route::Command(_) => Wanted::Fault(NOT_FOUND),
        Route::Check(_) => Wanted::Fault(NOT_FOUND),
        Route::Telegrams | Route::Look => Wanted::Fault(NOT_FOUND),
    }
}

fn target_of<'a>(bytes: &'a [u8], spans: &RequestSpans, headers: &[HeaderSpan]) -> &'a str
    requires within { IsRequestWithin bytes.now headers.now spans.now }
    requires head { IsRequestOf bytes.now headers.now spans.now }
    ensures { (h : RequestHead) → IsRequestAt bytes.entry.now headers.now spans.now h
        → result.now ≡ h.target }
{
    match str::from_utf8(spans.path.of(bytes)) {
        Ok(target) => target,
        Err(_) => unreachable!(),
    }
}

/// Returns the decoded head for a request to a route.
fn wants_of(asks: &Asks, route: &Option<Route<'_>>) -> HeadWants
    ensures { HasWants (asks_meant (option_map place_told route.now) asks.now) result }
{
    let Some(route) = route else {
        return HeadWants::Now(Wanted::Fault(NOT_FOUND));
    };
    match asks {
        Asks::Refused(fault) => HeadWants::Now(Wanted::Fault(*fault)),
        Asks::Got => HeadWants::Now(got(route)),
        Asks::Posted(len) => match route {
            Route::Command(verb) => HeadWants::Body(Post::Command(*verb), *len),
            Route::Check(verb) => HeadWants::Body(Post::Check(*verb), *len),
            Route::Telegrams => HeadWants::Body(Post::Telegram, *len),
            Route::Look => HeadWants::Body(Post::Look, *len),
            _ => HeadWants::Now(Wanted::Fault(NOT_FOUND)),
        },
    }
}

/// Decodes a head that isn't from a page of another host.
fn own_wants(bytes: &[u8], spans: &RequestSpans, headers: &[HeaderSpan]) -> HeadWants
    requires within { IsRequestWithin bytes.now headers.now spans.now }
    requires head { IsRequestOf bytes.now headers.now spans.now }
    ensures { (h : RequestHead) → IsRequestAt bytes.now headers.now spans.now h
        → HasWants (own_asks (head_of h)) result }
{
    let path = path_in(target_of(bytes, spans, headers));
    let route = route_of(path);
    let method = spans.method.of(bytes);
    let asks = head_asks(&route, method, bytes, &headers[..spans.headers]);
    wants_of(&asks, &route)
}

pub(crate) fn head_wants(bytes: &[u8], spans: &RequestSpans, headers: &[HeaderSpan]) -> HeadWants
    requires within { IsRequestWithin bytes.now headers.now spans.now }
    requires head { IsRequestOf bytes.now headers.now spans.now }
    ensures { (h : RequestHead) → IsRequestAt bytes.now headers.now spans.now h
        → HasWants (head_asks (head_of h)) result }
{
    if is_foreign(bytes, &headers[..spans.headers]) {
        return HeadWants::Now(Wanted::Fault(BAD_ORIGIN));
    }
    own_wants(bytes, spans, headers)
}

/// Returns the content of a body.
pub(crate) fn asked<'a>(
    alloc: Global,
    post: Post,
    key: Option<Key>,
    body: &'a [u8],
) -> Result<Body<'a>, AllocError>
    ensures { IfOk result (λ asked. IsAskedUnder (posted_of post) key body.entry.now
        (body_meant asked)) }
{
    if let Post::Command(verb) = post {
        return command_asked(alloc, verb, key, body);
    }
    if let Post::Check(verb) = post {
        return check_asked(alloc, verb, body);
    }
    if let Post::Look = post {
        return look_asked(alloc, body);
    }
    telegram_asked(alloc, body)
}

/// Returns the request for the content of a body.
fn wanted_of(body: Body<'_>) -> Wanted<'_>
    ensures { WantsAsked (body_meant body.entry) result }
{
    match body {
        Body::Bad(word) => Wanted::Fault(FaultTold {
            status: 400,
            word,
            allow: None,
        }),
        Body::Unreadable(refusal) => Wanted::Unreadable(refusal),
        Body::Look(seen) => Wanted::Look(seen),
        Body::Misread(text) => Wanted::Misread(text),
        Body::Input(input) => Wanted::Input(input),
    }
}

/// Decodes a body.
pub(crate) fn body_wants<'a>(
    alloc: Global,
    post: Post,
    key: Option<Key>,
    body: &'a [u8],
) -> Result<Wanted<'a>, AllocError>
    ensures { IfOk result (BodyWants (posted_of post) key body.entry.now) }
{
    let body = asked(alloc, post, key, body)?;
    Ok(wanted_of(body))
}

/// The size of the longest body, `{"count":4294967295,"reply":"ok"}`.
const BODY_ROOM: usize = 33;

/// The size of the buffer for the answer.
pub(crate) const ROOM: usize = 128;

/// The text before the body's length.
const FRONT: &str = "HTTP/1.1 200 OK\r\nContent-Type: application/json\r\nContent-Length: ";

/// The text between the body's length and the body.
const BEHIND: &str = "\r\nConnection: close\r\n\r\n";

/// Writes bytes at `at`, and returns the index after them.
fn put(out: &mut [u8], at: usize, bytes: &[u8]) -> usize
    requires { at + length bytes.now ≤ length out.old }
    ensures place { result ≡ at + length bytes.now }
    ensures text { take result out.new ≡ take at out.old ++ bytes.now }
{
    let end = at + bytes.len();
    out[at..end].copy_from_slice(bytes);
    end
}

/// Writes the body to the start of a buffer, and returns its length.
fn put_body(out: &mut [u8; BODY_ROOM], count: u32) -> usize
    ensures bound { result ≤ 33 }
    ensures text { take result out.new ≡ compact_text (ok_data count) }
{
    let at = put(out, 0, b"{\"count\":");
    let at = put_decimal(out, at, count);
    put(out, at, b",\"reply\":\"ok\"}")
}

/// Writes the answer to an accepted input to the start of a buffer, and returns its length.
pub(crate) fn put_accepted(out: &mut [u8; ROOM], count: u32) -> usize
    ensures bound { result ≤ 128 }
    ensures text { take result out.new ≡ ok_answer count }
{
    let mut body = [0; BODY_ROOM];
    let len = put_body(&mut body, count);
    let at = put(out, 0, FRONT.as_bytes());
    let at = put_decimal(out, at, len as u32);
    let at = put(out, at, BEHIND.as_bytes());
    put(out, at, &body[..len])
}
