//! The bytes of an answer.
//! Histories of waybills.

ghost use Rattle.std.specs.Prelude.{◌≡◌, ◌++◌, length, IfOk, string_bytes, option_map};
ghost use Rattle.http_desk.specs.Common.{IsStatusCode, view, compact_text, boolean, string, IsListing, given_of, inner_of, Given, nothing_given};
ghost use Rattle.http_desk.specs.Request.{good_data, bad_data, misread_data};
ghost use Rattle.http_desk.specs.Reply.{status_line, allow_line, history_head, json_fields, json_answer, media_type, report_head, refused_data, pair_data, holding_data, holder_data, waybill_data, IsHistory, record_line};
ghost use Rattle.http_desk.specs.Came.{first_members, second_members, third_members, stored_members, last_members, IsBehind, ReadsText, act_fault};

use crate::printout::Printout;
use agent_stock::Holder;
use awb_number::{Awb, ascii_text};
use http::StatusCode;
use reports::{Form, Listing, ReportCause, holder_name, holder_word, since_text, write_listing};
use serde_json::{Value, json};
use shipment_machine::Amount;
use station_core::{ActFault, ByteOut, Counted, Keeper, Waybill, WriteFault};
use std::alloc::{AllocError, Global};
use std::marker::Model;

/// Returns a line such as `HTTP/1.1 409 Conflict`.
fn status_line(alloc: Global, status: u16) -> Result<String, AllocError>
    requires { IsStatusCode status }
    ensures { IfOk result (λ line. string_bytes line ≡ status_line status) }
{
    match StatusCode::from_u16(status) {
        Ok(code) => format!(in alloc; "HTTP/1.1 {code}\r\n"),
        Err(_) => unreachable!(),
    }
}

fn allow_line(alloc: Global, allow: Option<&str>) -> Result<String, AllocError>
    ensures { IfOk result (λ line. string_bytes line ≡ allow_line
        (option_map (λ method. method.now) allow.entry)) }
{
    match allow {
        Some(method) => format!(in alloc; "Allow: {method}\r\n"),
        None => Ok(String::new(alloc)),
    }
}

/// Returns the header fields of a JSON answer, and the empty line after them.
fn json_fields(alloc: Global, len: usize) -> Result<String, AllocError>
    ensures { IfOk result (λ text. string_bytes text ≡ json_fields len) }
{
    format!(in alloc;
        "Content-Type: application/json\r\nContent-Length: {len}\r\nConnection: close\r\n\r\n"
    )
}

pub(crate) fn json_answer(
    alloc: Global,
    status: u16,
    allow: Option<&str>,
    body: &str,
) -> Result<String, AllocError>
    requires { IsStatusCode status }
    ensures { IfOk result (λ text. string_bytes text ≡ json_answer status
        (option_map (λ method. method.now) allow.entry) body.now) }
{
    let first = status_line(alloc, status)?;
    let allow = allow_line(alloc, allow)?;
    let fields = json_fields(alloc, body.len())?;
    format!(in alloc; "{first}{allow}{fields}{body}")
}

fn media_type(form: Form) -> &'static str
    ensures { result.now ≡ media_type form }
{
    match form {
        Form::Text => "text/plain",
        Form::Json => "application/json",
    }
}

pub(crate) fn report_head(alloc: Global, printout: &Printout) -> Result<String, AllocError>
    ensures { IfOk result (λ text. string_bytes text ≡ report_head printout.now) }
{
    let first = status_line(alloc, 200)?;
    let media = media_type(printout.form);
    format!(in alloc; "{first}Content-Type: {media}\r\nConnection: close\r\n\r\n")
}

/// Returns the answer with the history of a waybill.
pub(crate) fn history_answer(alloc: Global, history: &[u8]) -> Result<Vec<u8>, AllocError>
    ensures { IfOk result (λ answer. answer.items ≡ history_head (length history.now) ++
        history.now) }
{
    let first = status_line(alloc, 200)?;
    let len = history.len();
    let head = format!(in alloc;
        "{first}Content-Type: text/plain\r\nContent-Length: {len}\r\nConnection: close\r\n\r\n"
    )?;
    let mut answer = Vec::new(alloc);
    answer.extend_from_slice(head.as_bytes())?;
    answer.extend_from_slice(history)?;
    Ok(answer)
}

pub(crate) fn refused_text(alloc: Global, refused: u16, detail: &str) -> Result<String, AllocError>
    ensures { IfOk result (λ text. string_bytes text ≡ compact_text
        (refused_data refused detail.now)) }
{
    json!(in alloc; {"detail": detail, "refused": refused})?.to_string(alloc)
}

pub(crate) fn good_text(alloc: Global) -> Result<String, AllocError>
    ensures { IfOk result (λ text. string_bytes text ≡ compact_text good_data) }
{
    json!(in alloc; {"good": true})?.to_string(alloc)
}

pub(crate) fn bad_text(alloc: Global, reason: &str) -> Result<String, AllocError>
    ensures { IfOk result (λ text. string_bytes text ≡ compact_text (bad_data reason.now)) }
{
    json!(in alloc; {"good": false, "reason": reason})?.to_string(alloc)
}

pub(crate) fn misread_text(
    alloc: Global,
    refused: u16,
    detail: &str,
    reason: &str,
) -> Result<String, AllocError>
    ensures { IfOk result (λ text. string_bytes text ≡ compact_text
        (misread_data refused detail.now reason.now)) }
{
    let detail = quoted(alloc, detail)?;
    let reason = quoted(alloc, reason)?;
    format!(in alloc; "{{\"detail\":{detail},\"reason\":{reason},\"refused\":{refused}}}")
}

fn holding_text(alloc: Global, awb: &str, holder: &str, name: &str) -> Result<String, AllocError>
    ensures { IfOk result (λ text. string_bytes text ≡ compact_text
        (holding_data awb.now holder.now name.now)) }
{
    json!(in alloc; {"awb": awb, "holder": holder, "name": name})?.to_string(alloc)
}

/// Returns the JSON object with the holder of a number: the body of `GET /v1/stock/{awb}`.
pub fn holder_text(alloc: Global, number: &Awb, holder: &Holder) -> Result<String, AllocError>
    ensures { IfOk result (λ text. string_bytes text ≡ compact_text
        (holder_data number.now holder.now)) }
{
    let awb = number.write();
    holding_text(
        alloc,
        ascii_text(&awb),
        holder_word(holder),
        holder_name(holder),
    )
}

fn pair(alloc: Global, amount: &Amount) -> Result<Value, AllocError>
    ensures { IfOk result (λ v. view v ≡ pair_data amount.now) }
{
    let (pieces, tenths) = (amount.pieces, amount.tenths);
    json!(in alloc; [pieces, tenths])
}

/// Returns pieces and tenths as JSON.
fn pair_text(alloc: Global, amount: &Amount) -> Result<String, AllocError>
    ensures { IfOk result (λ text. string_bytes text ≡ compact_text (pair_data amount.now)) }
{
    pair(alloc, amount)?.to_string(alloc)
}

fn quoted(alloc: Global, text: &str) -> Result<String, AllocError>
    ensures { IfOk result (λ quoted. string_bytes quoted ≡ compact_text (string text.now)) }
{
    json!(in alloc; text)?.to_string(alloc)
}

// A waybill's members are in the byte order of their names.

/// Returns the members `awb`, `delivered` and `departed`.
fn first_members(alloc: Global, number: &Awb, known: &Waybill) -> Result<String, AllocError>
    ensures { IfOk result (λ text. string_bytes text ≡ first_members number.now known.now) }
{
    let awb = number.write();
    let awb = quoted(alloc, ascii_text(&awb))?;
    let delivered = pair_text(alloc, &known.delivered)?;
    let departed = pair_text(alloc, &known.departed)?;
    format!(in alloc; "{{\"awb\":{awb},\"delivered\":{delivered},\"departed\":{departed},")
}

/// Returns the members `destination`, `found` and `goods`.
fn second_members(alloc: Global, known: &Waybill) -> Result<String, AllocError>
    ensures { IfOk result (λ text. string_bytes text ≡ second_members known.now) }
{
    let destination = known.declared.destination.letters();
    let destination = quoted(alloc, ascii_text(&destination))?;
    let found = pair_text(alloc, &known.found)?;
    let goods = quoted(alloc, ascii_text(known.declared.goods.as_bytes()))?;
    format!(in alloc; "\"destination\":{destination},\"found\":{found},\"goods\":{goods},")
}

fn flag_text(flag: bool) -> &'static str
    ensures { result.now ≡ compact_text (boolean flag) }
{
    if flag { "true" } else { "false" }
}

/// Returns the members `missing`, `notified` and `origin`.
fn third_members(alloc: Global, known: &Waybill) -> Result<String, AllocError>
    ensures { IfOk result (λ text. string_bytes text ≡ third_members known.now) }
{
    let missing = pair_text(alloc, &known.missing)?;
    let notified = flag_text(known.declared.notified);
    let origin = known.declared.origin.letters();
    let origin = quoted(alloc, ascii_text(&origin))?;
    format!(in alloc; "\"missing\":{missing},\"notified\":{notified},\"origin\":{origin},")
}

/// Returns the members `store`, `taken`, `tenths` and `transferred`.
fn stored_members(alloc: Global, known: &Waybill) -> Result<String, AllocError>
    ensures { IfOk result (λ text. string_bytes text ≡ stored_members known.now) }
{
    let store = pair_text(alloc, &known.store)?;
    let taken = pair_text(alloc, &known.taken)?;
    let tenths = known.declared.tenths.number();
    let transferred = pair_text(alloc, &known.transferred)?;
    format!(in alloc;
        "\"store\":{store},\"taken\":{taken},\"tenths\":{tenths},\"transferred\":{transferred}}}"
    )
}

/// Returns the members from `pieces` on.
fn last_members(alloc: Global, known: &Waybill) -> Result<String, AllocError>
    ensures { IfOk result (λ text. string_bytes text ≡ last_members known.now) }
{
    let pieces = known.declared.pieces.number();
    let since = since_text(alloc, known.declared.since)?;
    let rest = stored_members(alloc, known)?;
    format!(in alloc; "\"pieces\":{pieces},\"since\":{since},{rest}")
}

/// Returns the JSON object with the record of a waybill: the body of `GET /v1/waybills/{awb}`.
pub fn waybill_text(alloc: Global, number: &Awb, known: &Waybill) -> Result<String, AllocError>
    ensures { IfOk result (λ text. string_bytes text ≡ compact_text
        (waybill_data number.now known.now)) }
{
    let first = first_members(alloc, number, known)?;
    let second = second_members(alloc, known)?;
    let third = third_members(alloc, known)?;
    let last = last_members(alloc, known)?;
    format!(in alloc; "{first}{second}{third}{last}")
}

/// A writer into memory.
#[derive(Drop)]
struct Page {
    counted: Counted<Vec<u8>>,
}

impl Model for Page {
    ghost Value = { Given };

    ghost view = { λ page. given_of page.counted };

    ghost invariant = { λ page. (inner_of page.counted).items ≡ (given_of page.counted).bytes };
}

impl Page {
    fn new(alloc: Global) -> Page
        ensures { result ≡ nothing_given }
    {
        Page {
            counted: Counted::new(Vec::new(alloc)),
        }
    }

    /// Returns the bytes that were written.
    fn into_bytes(self) -> Vec<u8>
        ensures { result.items ≡ self.bytes }
    {
        let Page { counted } = self;
        counted.into_inner()
    }
}

impl ByteOut for Page {
    ghost taken = { λ page. page };

    fn write(&mut self, buf: &[u8]) -> Result<usize, WriteFault> {
        self.counted.write(buf)
    }
}

/// Returns the fault of a report that was written into memory.
fn act_fault(cause: ReportCause) -> ActFault
    ensures { result ≡ act_fault cause }
{
    match cause {
        ReportCause::Write | ReportCause::Act(ActFault::Memory) => ActFault::Memory,
        ReportCause::Act(_) => ActFault::Store,
    }
}

/// Returns a text and then a listing.
fn with_listing<K: Keeper>(
    alloc: Global,
    keeper: &mut K,
    front: &[u8],
    listing: &Listing,
) -> Result<Vec<u8>, ActFault>
    ensures { ReadsText K.keeping keeper.old keeper.new result
        (λ s bytes. IsBehind front.now (IsListing Form.Text s listing.now) bytes.items) }
{
    let mut page = Page::new(alloc);
    match write_listing(alloc, keeper, listing, Form::Text, &mut page, front) {
        Ok(()) => Ok(page.into_bytes()),
        Err(fault) => Err(act_fault(fault.cause)),
    }
}

fn record_line(alloc: Global, number: &Awb, known: &Waybill) -> Result<String, AllocError>
    ensures { IfOk result (λ line. string_bytes line ≡ record_line number.now known.now) }
{
    let object = waybill_text(alloc, number, known)?;
    format!(in alloc; "{object}\n")
}

/// Returns the history of a waybill with this record: the line of the record, the moves, the lines
/// of the trail, and the status messages. The keeper works.
///
/// # Errors
///
/// - [`ActFault::Memory`]: memory runs out.
/// - [`ActFault::Store`]: the keeper's store fails.
pub fn history_text<K: Keeper>(
    alloc: Global,
    keeper: &mut K,
    number: &Awb,
    known: &Waybill,
) -> Result<Vec<u8>, ActFault>
    ensures { ReadsText K.keeping keeper.old keeper.new result
        (λ s bytes. IsHistory s number.now known.now bytes.items) }
{
    let Ok(line) = record_line(alloc, number, known) else {
        return Err(ActFault::Memory);
    };
    let text = with_listing(alloc, keeper, line.as_bytes(), &Listing::Movements(*number))?;
    let text = with_listing(alloc, keeper, text.as_slice(), &Listing::Trail(*number))?;
    with_listing(alloc, keeper, text.as_slice(), &Listing::Sent(*number))
}
