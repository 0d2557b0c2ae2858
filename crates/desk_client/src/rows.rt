//! The rows of a stock list.
ghost use Rattle.std.specs.Prelude.{◌≡◌, Err};
ghost use Rattle.desk_client.specs.Common.{fields_of, call};
ghost use Rattle.desk_client.specs.Done.{HasAnsweredOrder, HasAnsweredRow};

use crate::ask::Ask;
use crate::lines::answer_input;
use crate::order::{order_body, verb_of};
use crate::question::Question;
use agent_stock::Order;
use cli_run::{RowPlace, RunFault, answer_bad_row, read_row};
use csv::ByteRecord;
use desk_commands::Command;
use station_core::{ByteOut, Input, Key};
use std::alloc::Global;

/// Sends an order to the service under its key, and writes the line of its answer.
fn answer_order<S: Ask, W: ByteOut, E: ByteOut>(
    alloc: Global,
    service: &mut S,
    output: &mut W,
    errors: &mut E,
    number: u64,
    key: Key,
    order: Order,
) -> Result<bool, RunFault>
    ensures answered { HasAnsweredOrder E.taken number key order
        (call (S.talk service.old) (W.taken output.old) errors.old)
        (call (S.talk service.new) (W.taken output.new) errors.new) result }
    ensures unread { result ≡ Err RunFault.Read → ⊥ }
{
    let Ok(body) = order_body(alloc, &order) else {
        return Err(RunFault::Memory);
    };
    let verb = verb_of(&order);
    let text = body.as_str();
    let bytes = text.as_bytes();
    let query = Question::Command(verb, key, bytes);
    let input = Input::Keyed(key, Command::Stock(order));
    answer_input(alloc, service, output, errors, Some(number), &input, &query)
}

/// Sends a row's order to the service, and writes the line of its answer. A row without an order
/// isn't sent: the reason follows its line on `errors`.
pub(crate) fn answer_row<S: Ask, W: ByteOut, E: ByteOut>(
    alloc: Global,
    service: &mut S,
    output: &mut W,
    errors: &mut E,
    place: RowPlace,
    row: &ByteRecord,
) -> Result<bool, RunFault>
    ensures answered { HasAnsweredRow E.taken place.number (fields_of row.now)
        (call (S.talk service.old) (W.taken output.old) errors.old)
        (call (S.talk service.new) (W.taken output.new) errors.new) result }
    ensures unread { result ≡ Err RunFault.Read → ⊥ }
{
    match read_row(row) {
        Some((key, order)) => {
            answer_order(alloc, service, output, errors, place.number, key, order)
        }
        None => answer_bad_row(alloc, output, errors, place, row),
    }
}
