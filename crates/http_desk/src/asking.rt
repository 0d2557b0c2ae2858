//! Calling the station for a request.
//! Reading the body of a request.

ghost use Rattle.std.specs.Prelude.{◌≡◌, true, false, IfOk, Option, Some, string_bytes, option_map, ℕ, IsTrue, List, MatchOption};
ghost use Rattle.http_desk.specs.Common.{IsStatusCode, Data, compact_text, IfSound, IfWorks, KeepsSound, OnlyReads, StaysIfBroken, State, LocalMinute, detail_text, list_all, is_printable, look_object};
ghost use Rattle.http_desk.specs.Reply.{station_after, IsHistoryTold, IsToldAs, HasAsked, HasAskedShut, IsUnavailable, TellsHistory, tells_reopen, refused_data, json_reply, look_reply, fault_reply, refusal_status, refusal_reply, waybill_reply, holder_reply};
ghost use Rattle.http_desk.specs.Request.{meant, body_meant, IsCheckAsked, IsCommandAsked, IsLookAsked, IsMisread, IsSaid, IsTelegramAsked, bad_data, looks_at};
ghost use Rattle.desk_commands.specs.declared.command.Command.{Command as AnyCommand};

use crate::answer::{
    bad_text, good_text, history_answer, history_text, holder_text, json_answer, misread_text,
    refused_text, waybill_text,
};
use crate::printout::Printout;
use crate::request::NOT_FOUND;
use crate::serve::FaultTold;
use crate::wanted::Wanted;
use agent_stock::Holder;
use awb_number::Awb;
use desk_commands::{BadBody, Command, Verb, read_command};
use input_reasons::{Look, body_fault, look_at, look_object, telegram_fault};
use serde_json::Value;
use shipment_machine::Refusal;
use station_core::{ActFault, Answer, Input, Keeper, Key, Waybill, answer_one, detail_text};
use station_days::Moment;
use std::alloc::{AllocError, Global};
use telegrams::{TelegramFault, read_telegram};

/// An answer to write.
#[derive(Drop)]
pub(crate) enum Response {
    /// An input was accepted, with this count. Writing the answer allocates nothing.
    Accepted(u32),
    /// Any other answer but a report: its status and its bytes.
    Whole(u16, Vec<u8>),
    /// A report, which is read while it is written.
    Report(Printout),
    /// Memory ran out or the station failed. If true, the station must be opened again.
    Unavailable(bool),
}

/// Returns a JSON answer, or [`Response::Unavailable`] if memory runs out.
fn json_told(
    alloc: Global,
    status: u16,
    allow: Option<&str>,
    body: Result<String, AllocError>,
) -> Response
    requires { IsStatusCode status }
    ensures { (d : Data) → IfOk body (λ text. string_bytes text ≡ compact_text d)
        → IsToldAs (json_reply status (option_map (λ method. method.now) allow.entry) d) result }
{
    let Ok(body) = body else {
        return Response::Unavailable(false);
    };
    match json_answer(alloc, status, allow, body.as_str()) {
        Ok(text) => Response::Whole(status, text.into_bytes()),
        Err(_) => Response::Unavailable(false),
    }
}

fn fault_told(alloc: Global, fault: &FaultTold) -> Response
    ensures { IsToldAs (fault_reply (meant fault.now)) result }
{
    if fault.status < 100 || fault.status > 999 {
        return Response::Unavailable(false);
    }
    let body = refused_text(alloc, fault.status, fault.word);
    json_told(alloc, fault.status, fault.allow, body)
}

/// Returns the answer to a dry run, or [`Response::Unavailable`] if memory runs out.
fn look_told(alloc: Global, status: u16, seen: &str) -> Response
    requires { IsStatusCode status }
    ensures { IsToldAs (look_reply status seen.now) result }
{
    match json_answer(alloc, status, None, seen) {
        Ok(text) => Response::Whole(status, text.into_bytes()),
        Err(_) => Response::Unavailable(false),
    }
}

fn refusal_status(refused: u16) -> u16
    ensures status { result ≡ refusal_status refused }
    ensures valid { IsStatusCode result }
{
    match refused {
        301 | 302 => 400,
        _ => 409,
    }
}

fn refusal_text(alloc: Global, refusal: &Refusal) -> Result<String, AllocError>
    ensures { IfOk result (λ text. string_bytes text ≡ compact_text
        (refused_data refusal.now.number (detail_text refusal.now.detail))) }
{
    let detail = detail_text(alloc, &refusal.detail)?;
    refused_text(alloc, refusal.number, detail.as_str())
}

fn refusal_told(alloc: Global, refusal: &Refusal) -> Response
    ensures { IsToldAs (refusal_reply refusal.now) result }
{
    let body = refusal_text(alloc, refusal);
    json_told(alloc, refusal_status(refusal.number), None, body)
}

fn holder_told(alloc: Global, number: &Awb, holder: &Option<Holder>) -> Response
    ensures { IsToldAs (holder_reply number.now holder.now) result }
{
    match holder {
        Some(holder) => json_told(alloc, 200, None, holder_text(alloc, number, holder)),
        None => fault_told(alloc, &NOT_FOUND),
    }
}

fn waybill_told(alloc: Global, number: &Awb, waybill: &Option<Waybill>) -> Response
    ensures { IsToldAs (waybill_reply number.now waybill.now) result }
{
    match waybill {
        Some(known) => json_told(alloc, 200, None, waybill_text(alloc, number, known)),
        None => fault_told(alloc, &NOT_FOUND),
    }
}

fn ask_holder<K: Keeper>(alloc: Global, keeper: &mut K, number: &Awb) -> Response
    ensures premise { KeepsSound K.keeping keeper.old keeper.new }
    ensures breaks { K.keeping.is_broken keeper.new ≡ K.keeping.is_broken keeper.old }
    ensures asked { (s : State) (at : LocalMinute) → K.keeping.keeps keeper.old s
        → K.keeping.is_broken keeper.old ≡ false → K.keeping.is_sound keeper.new → HasAsked s at
        (Wanted.Holder number.now) result (station_after K.keeping keeper.new) }
    ensures reopen { tells_reopen result ≡ K.keeping.is_broken keeper.new }
    ensures shut { K.keeping.is_broken keeper.old ≡ true → (keeper.new ≡ keeper.old) × IsUnavailable
        result }
{
    match keeper.holder(number) {
        Ok(holder) => holder_told(alloc, number, &holder),
        Err(fault) => Response::Unavailable(fault == ActFault::Reopen),
    }
}

fn ask_waybill<K: Keeper>(alloc: Global, keeper: &mut K, number: &Awb) -> Response
    ensures premise { KeepsSound K.keeping keeper.old keeper.new }
    ensures breaks { K.keeping.is_broken keeper.new ≡ K.keeping.is_broken keeper.old }
    ensures asked { (s : State) (at : LocalMinute) → K.keeping.keeps keeper.old s
        → K.keeping.is_broken keeper.old ≡ false → K.keeping.is_sound keeper.new → HasAsked s at
        (Wanted.Waybill number.now) result (station_after K.keeping keeper.new) }
    ensures reopen { tells_reopen result ≡ K.keeping.is_broken keeper.new }
    ensures shut { K.keeping.is_broken keeper.old ≡ true → (keeper.new ≡ keeper.old) × IsUnavailable
        result }
{
    match keeper.waybill(number) {
        Ok(waybill) => waybill_told(alloc, number, &waybill),
        Err(fault) => Response::Unavailable(fault == ActFault::Reopen),
    }
}

/// Returns the answer with a history, or [`Response::Unavailable`] if memory runs out.
fn history_told(alloc: Global, history: &[u8]) -> Response
    ensures { IsHistoryTold history.now result }
{
    match history_answer(alloc, history) {
        Ok(answer) => Response::Whole(200, answer),
        Err(_) => Response::Unavailable(false),
    }
}

/// Reads the history of a known waybill from a working keeper.
fn ask_known<K: Keeper>(alloc: Global, keeper: &mut K, number: &Awb, known: &Waybill) -> Response
    ensures reads { OnlyReads K.keeping keeper.old keeper.new }
    ensures told { IfSound K.keeping keeper.old keeper.new
        (λ s. TellsHistory s number.now known.now result) }
    ensures reopen { tells_reopen result ≡ false }
{
    match history_text(alloc, keeper, number, known) {
        Ok(history) => history_told(alloc, history.as_slice()),
        Err(_) => Response::Unavailable(false),
    }
}

fn ask_history<K: Keeper>(alloc: Global, keeper: &mut K, number: &Awb) -> Response
    ensures premise { KeepsSound K.keeping keeper.old keeper.new }
    ensures breaks { K.keeping.is_broken keeper.new ≡ K.keeping.is_broken keeper.old }
    ensures asked { (s : State) (at : LocalMinute) → K.keeping.keeps keeper.old s
        → K.keeping.is_broken keeper.old ≡ false → K.keeping.is_sound keeper.new → HasAsked s at
        (Wanted.History number.now) result (station_after K.keeping keeper.new) }
    ensures reopen { tells_reopen result ≡ K.keeping.is_broken keeper.new }
    ensures shut { K.keeping.is_broken keeper.old ≡ true → (keeper.new ≡ keeper.old) × IsUnavailable
        result }
{
    match keeper.waybill(number) {
        Ok(Some(known)) => ask_known(alloc, keeper, number, &known),
        Ok(None) => fault_told(alloc, &NOT_FOUND),
        Err(fault) => Response::Unavailable(fault == ActFault::Reopen),
    }
}

fn ask_input<K: Keeper>(alloc: Global, keeper: &mut K, input: &Input<'_>, at: Moment) -> Response
    ensures premise { KeepsSound K.keeping keeper.old keeper.new }
    ensures asked { IfWorks K.keeping keeper.old keeper.new (λ s. HasAsked s at
        (Wanted.Input input.now) result (station_after K.keeping keeper.new)) }
    ensures reopen { tells_reopen result ≡ K.keeping.is_broken keeper.new }
    ensures shut { K.keeping.is_broken keeper.old ≡ true → (keeper.new ≡ keeper.old) × IsUnavailable
        result }
{
    match answer_one(keeper, input, at) {
        Ok(Answer::Done(reply)) => Response::Accepted(reply.count),
        Ok(Answer::Refused(refusal)) => refusal_told(alloc, &refusal),
        Err(fault) => Response::Unavailable(fault != ActFault::Memory),
    }
}

/// Calls the station for a request. A report isn't read yet.
pub(crate) fn ask<K: Keeper>(
    alloc: Global,
    keeper: &mut K,
    wanted: &Wanted<'_>,
    at: Moment,
) -> Response
    ensures premise { KeepsSound K.keeping keeper.old keeper.new }
    ensures asked { IfWorks K.keeping keeper.old keeper.new
        (λ s. HasAsked s at wanted.now result (station_after K.keeping keeper.new)) }
    ensures told { K.keeping.is_broken keeper.old ≡ false → tells_reopen result
        ≡ K.keeping.is_broken keeper.new }
    ensures same { StaysIfBroken K.keeping keeper.old keeper.new }
    ensures shut { K.keeping.is_broken keeper.old ≡ true → HasAskedShut at wanted.now result }
{
    match wanted {
        Wanted::Fault(fault) => fault_told(alloc, fault),
        Wanted::Unreadable(refusal) => refusal_told(alloc, refusal),
        Wanted::Look(seen) => look_told(alloc, 200, seen.as_str()),
        Wanted::Misread(text) => look_told(alloc, 400, text.as_str()),
        Wanted::Waybill(number) => ask_waybill(alloc, keeper, number),
        Wanted::History(number) => ask_history(alloc, keeper, number),
        Wanted::Holder(number) => ask_holder(alloc, keeper, number),
        Wanted::Report(printout) => Response::Report(*printout),
        Wanted::Input(input) => ask_input(alloc, keeper, input, at),
    }
}

/// The content of a body.
#[derive(Drop)]
pub(crate) enum Body<'a> {
    /// The key is missing, or the body isn't one of the verb. The word names the fault.
    Bad(&'static str),
    /// The body isn't a telegram.
    Unreadable(Refusal),
    /// A dry run, as JSON.
    Look(String),
    /// A dry run of a body that isn't a telegram: its refusal and the reason, as JSON.
    Misread(String),
    /// An input for the station.
    Input(Input<'a>),
}

/// Returns the command of a verb that a body is, or `None` for another body.
fn said(alloc: Global, verb: Verb, bytes: &[u8]) -> Result<Option<Command>, AllocError>
    ensures { IfOk result (λ said. MatchOption said
        ((command : AnyCommand) → ¬ (IsSaid verb bytes.now command))
        (λ command. IsSaid verb bytes.now command)) }
{
    match Value::from_slice(alloc, bytes) {
        Ok(value) => match read_command(verb, &value) {
            Ok(command) => Ok(Some(command)),
            Err(BadBody) => Ok(None),
        },
        Err(e) => {
            if e.is_memory() {
                Err(AllocError)
            } else {
                Ok(None)
            }
        }
    }
}

pub(crate) fn command_asked(
    alloc: Global,
    verb: Verb,
    key: Option<Key>,
    bytes: &[u8],
) -> Result<Body<'static>, AllocError>
    ensures { IfOk result (λ body. IsCommandAsked verb key bytes.now (body_meant body)) }
{
    let Some(key) = key else {
        return Ok(Body::Bad("key"));
    };
    match said(alloc, verb, bytes)? {
        Some(command) => Ok(Body::Input(Input::Keyed(key, command))),
        None => Ok(Body::Bad("body")),
    }
}

/// Returns the reason why a body isn't a command of its verb, as JSON.
fn bad_checked(alloc: Global, verb: Verb, bytes: &[u8]) -> Result<String, AllocError>
    ensures { IfOk result (λ text. (reason : List ℕ) × IsTrue (list_all is_printable reason)
        × (string_bytes text ≡ compact_text (bad_data reason))) }
{
    let reason = body_fault(alloc, verb, bytes)?;
    bad_text(alloc, reason.as_str())
}

/// Returns whether a body is a command of its verb, as the content of a body for a dry run.
pub(crate) fn check_asked(
    alloc: Global,
    verb: Verb,
    bytes: &[u8],
) -> Result<Body<'static>, AllocError>
    ensures { IfOk result (λ body. IsCheckAsked verb bytes.now (body_meant body)) }
{
    match said(alloc, verb, bytes)? {
        Some(_) => {
            let text = good_text(alloc)?;
            Ok(Body::Look(text))
        }
        None => {
            let text = bad_checked(alloc, verb, bytes)?;
            Ok(Body::Look(text))
        }
    }
}

pub(crate) fn telegram_asked<'a>(alloc: Global, bytes: &'a [u8]) -> Result<Body<'a>, AllocError>
    ensures { IfOk result (λ body. IsTelegramAsked bytes.entry.now (body_meant body)) }
{
    match read_telegram(alloc, bytes) {
        Ok(telegram) => Ok(Body::Input(Input::Wire(telegram))),
        Err(TelegramFault::Refused(refusal)) => Ok(Body::Unreadable(refusal)),
        Err(TelegramFault::Memory) => Err(AllocError),
    }
}

/// Returns a dry run as the content of a body.
fn look_seen<'a>(alloc: Global, look: &Look<'_>) -> Result<Body<'a>, AllocError>
    ensures { IfOk result (λ body. body_meant body ≡ looks_at (look_object look.now)) }
{
    let seen = look_object(alloc, look)?;
    Ok(Body::Look(seen))
}

/// Returns the refusal of a body that isn't a telegram, and the reason, as JSON.
fn misread(alloc: Global, refusal: &Refusal) -> Result<String, AllocError>
    ensures { IfOk result (λ text. IsMisread refusal.now (string_bytes text)) }
{
    let detail = detail_text(alloc, &refusal.detail)?;
    let reason = telegram_fault(alloc, refusal)?;
    misread_text(alloc, refusal.number, detail.as_str(), reason.as_str())
}

/// Returns the content of a body for a dry run.
pub(crate) fn look_asked<'a>(alloc: Global, bytes: &'a [u8]) -> Result<Body<'a>, AllocError>
    ensures { IfOk result (λ body. IsLookAsked bytes.entry.now (body_meant body)) }
{
    match look_at(alloc, bytes) {
        Ok(look) => look_seen(alloc, &look),
        Err(TelegramFault::Refused(refusal)) => {
            let text = misread(alloc, &refusal)?;
            Ok(Body::Misread(text))
        }
        Err(TelegramFault::Memory) => Err(AllocError),
    }
}
