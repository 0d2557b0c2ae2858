//! The JSON body of a stock order.
ghost use Rattle.std.specs.Prelude.{◌≡◌, IfOk, IsTrue, string_bytes};
ghost use Rattle.desk_client.specs.Common.{view, is_agent_code, order_verb, IsRun};
ghost use Rattle.desk_client.specs.Done.{agents_data, agents_object, run_data, run_object, IsOrderText, IsTextOf};

use agent_stock::{AgentCode, Order, Run};
use awb_number::ascii_text;
use desk_commands::Verb;
use serde_json::{Value, json};
use std::alloc::{AllocError, Global};

pub(crate) fn verb_of(order: &Order) -> Verb
    ensures { result ≡ order_verb order.now }
{
    match order {
        Order::TakeIn(_) => Verb::TakeIn,
        Order::Issue(_, _) => Verb::Issue,
        Order::GiveBack(_, _) => Verb::Return,
        Order::Void(_) => Verb::Void,
    }
}

fn run_text(alloc: Global, count: u32, prefix: &str, serial: &str) -> Result<String, AllocError>
    ensures { IfOk result
        (λ text. IsTextOf (run_object count prefix.now serial.now) (string_bytes text)) }
{
    json!(in alloc; {"count": count, "prefix": prefix, "serial": serial})?.to_string(alloc)
}

/// Returns the JSON object of a run and an agent.
fn agents_value(
    alloc: Global,
    agent: &str,
    count: u32,
    prefix: &str,
    serial: &str,
) -> Result<Value, AllocError>
    ensures { IfOk result
        (λ v. view v ≡ agents_object agent.now count prefix.now serial.now) }
{
    json!(in alloc; {"agent": agent, "count": count, "prefix": prefix, "serial": serial})
}

fn agents_text(
    alloc: Global,
    agent: &str,
    count: u32,
    prefix: &str,
    serial: &str,
) -> Result<String, AllocError>
    ensures { IfOk result (λ text.
        IsTextOf (agents_object agent.now count prefix.now serial.now) (string_bytes text)) }
{
    let value = agents_value(alloc, agent, count, prefix, serial)?;
    value.to_string(alloc)
}

/// Returns the body of an order without an agent.
fn run_body(alloc: Global, run: &Run) -> Result<String, AllocError>
    ensures text { IfOk result (λ text. IsTextOf (run_data run.now) (string_bytes text)) }
    ensures run { IsRun run.now }
{
    let number = run.first.write();
    let prefix = ascii_text(&number[..3]);
    let serial = ascii_text(&number[4..11]);
    let count = run.count.number();
    run_text(alloc, count, prefix, serial)
}

fn agents_body(alloc: Global, run: &Run, agent: &AgentCode) -> Result<String, AllocError>
    ensures text { IfOk result
        (λ text. IsTextOf (agents_data run.now agent.now) (string_bytes text)) }
    ensures run { IsRun run.now }
    ensures agent { IsTrue (is_agent_code agent.now) }
{
    let number = run.first.write();
    let prefix = ascii_text(&number[..3]);
    let serial = ascii_text(&number[4..11]);
    let count = run.count.number();
    let code = agent.as_str();
    agents_text(alloc, code, count, prefix, serial)
}

/// Returns the body of an order, as `act` takes it.
pub(crate) fn order_body(alloc: Global, order: &Order) -> Result<String, AllocError>
    ensures { IfOk result (λ text. IsOrderText order.now (string_bytes text)) }
{
    match order {
        Order::TakeIn(run) => run_body(alloc, run),
        Order::Issue(run, agent) => agents_body(alloc, run, agent),
        Order::GiveBack(run, agent) => agents_body(alloc, run, agent),
        Order::Void(run) => run_body(alloc, run),
    }
}
