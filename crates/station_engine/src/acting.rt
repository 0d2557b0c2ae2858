//! Acting once on an input, over any store.
//! Known inputs, and storing new ones.

ghost use Rattle.std.specs.Prelude.{◌≡◌, ◌++◌, ◌∷◌, [], None, Ok, IfOk, OnOk, map, string_bytes};
ghost use Rattle.station_engine.specs.Common.{LocalMinute, order_refusal, StaysLawful, effect, IsLawful, notice_text, IsLawfulState, acted, stock_acted, cargo_acted, Reads, texts_in, repeated, key_answer, text_answer, kept_with, option_map, Changes, kept_of};
ghost use Rattle.shipment_machine.specs.Cargo.{Cargo as AnyCargo};
ghost use Rattle.station_engine.specs.Serving.{IfPlanned, IsEffect, IsNewTo, IsPlanned, IsRequestOf, Served};

use crate::carrying::{commit_plan, has_room, keep_and_commit};
use agent_stock::{Order, StockFault};
use desk_commands::{Command, command_text};
use shipment_machine::{DeskRef, Plan, PlanFault, Refusal, ShipmentCommand, plan};
use state_store::{StateStore, StoreFault, view};
use station_core::{
    Answer, Input, KeptReply, NO_NUMBERS_LEFT, Reply, count_of_order, notice_texts,
    refusal_of_order, repeated_key, shipment_of,
};
use station_days::Moment;
use std::alloc::{AllocError, Global};

/// Plans a command from what the store shows, or refuses it.
fn plan_on<'a, S: StateStore>(
    alloc: Global,
    store: &mut S,
    command: &ShipmentCommand<'a>,
    at: Moment,
) -> Result<Result<Plan<'a>, Refusal>, StoreFault>
    ensures { Reads S.storing store.old store.new result
        (λ s made. IsLawful s.cargo → IsEffect (effect s.cargo command.now at) made
        × IfPlanned (StaysLawful s.cargo) made) }
{
    let view = view(alloc, store, command, at)?;
    match plan(alloc, &view, command, at) {
        Ok(plan) => Ok(Ok(plan)),
        Err(PlanFault::Refused(refusal)) => Ok(Err(refusal)),
        Err(PlanFault::Memory) => Err(StoreFault),
        // No lawful state has what was read.
        Err(PlanFault::Unfit) => Err(StoreFault),
    }
}

/// Carries out a plan, unless its rows can't all be numbered.
fn do_plan<S: StateStore>(
    alloc: Global,
    store: &mut S,
    input: &Input<'_>,
    request: &str,
    text: &[u8],
    plan: &Plan<'_>,
) -> Result<Answer, StoreFault>
    requires { IsRequestOf input.now request.now }
    ensures { (at : LocalMinute) → Served S.storing store.old store.new result input.now at
        (λ s. IsPlanned s input.now at text.now plan.now) }
{
    let messages = notice_texts(alloc, &plan.notices)?;
    if !has_room(&store.sizes(), plan, &messages) {
        return Ok(Answer::Refused(NO_NUMBERS_LEFT));
    }
    commit_plan(store, input, request, text, plan, &messages)?;
    Ok(Answer::Done(Reply { count: plan.count }))
}

/// Acts on a new cargo command; `text` is that of the current telegram.
fn do_shipment<S: StateStore>(
    alloc: Global,
    store: &mut S,
    input: &Input<'_>,
    request: &str,
    text: &[u8],
    command: &ShipmentCommand<'_>,
    at: Moment,
) -> Result<Answer, StoreFault>
    requires request { IsRequestOf input.now request.now }
    requires command { (c : AnyCargo)
        → acted c input.now at ≡ cargo_acted text.now c (effect c command.now at) }
    ensures { Served S.storing store.old store.new result input.now at
        (IsNewTo input.now) }
{
    match plan_on(alloc, store, command, at)? {
        Err(refusal) => Ok(Answer::Refused(refusal)),
        Ok(plan) => do_plan(alloc, store, input, request, text, &plan),
    }
}

fn do_order<S: StateStore>(
    store: &mut S,
    input: &Input<'_>,
    request: &str,
    order: &Order,
) -> Result<Answer, StoreFault>
    requires request { IsRequestOf input.now request.now }
    requires order { (c : AnyCargo) (at : LocalMinute)
        → acted c input.now at ≡ stock_acted c order.now (order_refusal c.holders order.now) }
    ensures { (at : LocalMinute) → Served S.storing store.old store.new result input.now at
        (IsNewTo input.now) }
{
    match store.carry_out_order(order) {
        Err(StockFault::Rows(fault)) => Err(fault),
        Err(StockFault::Refused(number, lowest)) => {
            Ok(Answer::Refused(refusal_of_order(number, lowest)))
        }
        Ok(()) => {
            let count = count_of_order(order);
            keep_and_commit(store, input, request, count)?;
            Ok(Answer::Done(Reply { count }))
        }
    }
}

fn act_anew<S: StateStore>(
    alloc: Global,
    store: &mut S,
    input: &Input<'_>,
    request: &str,
    at: Moment,
) -> Result<Answer, StoreFault>
    requires { IsRequestOf input.now request.now }
    ensures { Served S.storing store.old store.new result input.now at
        (IsNewTo input.now) }
{
    match input {
        Input::Keyed(_, Command::Stock(order)) => do_order(store, input, request, order),
        Input::Keyed(_, Command::Cargo(desk)) => {
            let command = ShipmentCommand::Desk(DeskRef::new(desk));
            do_shipment(alloc, store, input, request, b"", &command, at)
        }
        Input::Wire(telegram) => {
            let command = shipment_of(telegram.content());
            let text = telegram.text().as_bytes();
            do_shipment(alloc, store, input, request, text, &command, at)
        }
    }
}

/// Answers an input: a known one gets the stored answer, and a new one acts.
pub(crate) fn serve<S: StateStore>(
    alloc: Global,
    store: &mut S,
    input: &Input<'_>,
    request: &str,
    at: Moment,
) -> Result<Answer, StoreFault>
    requires { IsRequestOf input.now request.now }
    ensures { Served S.storing store.old store.new result input.now at
        IsLawfulState }
{
    match known(store, input, request)? {
        Some(answer) => Ok(answer),
        None => act_anew(alloc, store, input, request, at),
    }
}

/// Returns the text by which an input is compared with the one stored under its key.
pub(crate) fn request_of(alloc: Global, input: &Input<'_>) -> Result<String, AllocError>
    ensures { IfOk result (λ text. IsRequestOf input.now (string_bytes text)) }
{
    match input {
        Input::Keyed(_, command) => command_text(alloc, command),
        Input::Wire(_) => Ok(String::new(alloc)),
    }
}

/// Returns the answer to a request under a key, if the key is known.
fn answer_under(kept: &Option<KeptReply>, request: &str) -> Option<Answer>
    ensures { result ≡ key_answer (option_map kept_of kept.now) request.now }
{
    match kept {
        None => None,
        Some(kept) => Some(repeated_key(kept.request.as_str(), kept.count, request)),
    }
}

fn answer_to(kept: Option<u32>) -> Option<Answer>
    ensures { result ≡ text_answer kept }
{
    match kept {
        None => None,
        Some(count) => Some(Answer::Done(Reply { count })),
    }
}

/// Returns the answer to an input, if its key or its text is known, in one read.
pub(crate) fn known<S: StateStore>(
    store: &mut S,
    input: &Input<'_>,
    request: &str,
) -> Result<Option<Answer>, StoreFault>
    requires { IsRequestOf input.now request.now }
    ensures { Reads S.storing store.old store.new result
        (λ s answer. answer ≡ repeated s input.now) }
{
    match input {
        Input::Keyed(key, _) => {
            let kept = store.kept_key(key)?;
            Ok(answer_under(&kept, request))
        }
        Input::Wire(telegram) => {
            let kept = store.kept_text(telegram.text().as_bytes())?;
            Ok(answer_to(kept))
        }
    }
}

pub(crate) fn keep<S: StateStore>(
    store: &mut S,
    input: &Input<'_>,
    request: &str,
    count: u32,
) -> Result<(), StoreFault>
    requires { IsRequestOf input.now request.now }
    ensures { Changes S.storing store.old store.new result (kept_with input.now count) }
{
    match input {
        Input::Keyed(key, _) => store.keep_key(key, request, count),
        Input::Wire(telegram) => store.keep_text(telegram.text().as_bytes(), count),
    }
}
