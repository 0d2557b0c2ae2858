//! Reading the input of a command.
ghost use Rattle.std.specs.Prelude.{IfOk};
ghost use Rattle.cli_run.specs.Requests.{IsAskedUnder, IsCommandAsked, IsTelegramAsked};

use desk_commands::{BadBody, Verb, read_command};
use imp_fields::MOST_BYTES;
use serde_json::Value;
use shipment_machine::Refusal;
use station_core::{Input, Key};
use std::alloc::{AllocError, Global};
use telegrams::{TelegramFault, read_telegram};

/// A request in the input of a command.
#[derive(Drop)]
pub enum Request<'a> {
    /// The input isn't a telegram, and is refused.
    Refused(Refusal),
    /// The input isn't a body of this verb.
    Bad { verb: Verb, body: &'a [u8] },
    /// A line of `acts`, as far as it is kept, that is neither a command nor a telegram.
    BadLine(&'a [u8]),
    /// An input for the station.
    Input(Input<'a>),
}

/// Returns the request in a telegram.
pub fn telegram_asked<'a>(alloc: Global, bytes: &'a [u8]) -> Result<Request<'a>, AllocError>
    ensures { IfOk result (IsTelegramAsked bytes.entry.now) }
{
    match read_telegram(alloc, bytes) {
        Ok(telegram) => Ok(Request::Input(Input::Wire(telegram))),
        Err(TelegramFault::Refused(refusal)) => Ok(Request::Refused(refusal)),
        Err(TelegramFault::Memory) => Err(AllocError),
    }
}

/// Returns the request in a JSON body under a key.
pub fn command_asked<'a>(
    alloc: Global,
    verb: Verb,
    key: Key,
    body: &'a [u8],
) -> Result<Request<'a>, AllocError>
    ensures { IfOk result (IsCommandAsked verb key body.entry.now) }
{
    if body.len() > MOST_BYTES {
        return Ok(Request::Bad { verb, body });
    }
    match Value::from_slice(alloc, body) {
        Ok(value) => match read_command(verb, &value) {
            Ok(command) => Ok(Request::Input(Input::Keyed(key, command))),
            Err(BadBody) => Ok(Request::Bad { verb, body }),
        },
        Err(e) => {
            if e.is_memory() {
                Err(AllocError)
            } else {
                Ok(Request::Bad { verb, body })
            }
        }
    }
}

/// Returns the request in an input: a body under a verb and a key, or a telegram.
pub(crate) fn asked_under<'a>(
    alloc: Global,
    head: &Option<(Verb, Key)>,
    bytes: &'a [u8],
) -> Result<Request<'a>, AllocError>
    ensures { IfOk result (IsAskedUnder head.now bytes.entry.now) }
{
    match head {
        Some((verb, key)) => command_asked(alloc, *verb, *key, bytes),
        None => telegram_asked(alloc, bytes),
    }
}
