//! The exit status of a call to a service, and its fault line.
ghost use Rattle.std.specs.Prelude.{◌≡◌, ◌++◌, ◌∷◌, [], Some, decimal, IfErr, OnOk, option_map};
ghost use Rattle.desk_client.specs.Common.{SendsLine};
ghost use Rattle.desk_client.specs.Content.{fault_line, fault_text, fault_why, last_why, service_text, status_of};

use crate::ask::AskFault;
use crate::reading::LastTry;
use cli_run::{RunFault, send_part, tell_line, tell_word};
use itoa::Buffer;
use station_core::ByteOut;

const REFUSED: &str =
    "connection refused; start the service on this port, or pass its port to --at";

const ENDED: &str = "the connection ended before the whole answer; call again, with the same keys";

const LATE: &str =
    "no answer in time; the service is busy or hangs: call again later, with the same keys";

const LONG: &str = "the answer is longer than a cargo desk's; pass the port of the service to --at";

const FOREIGN: &str = "the answer isn't a cargo desk's; pass the port of the service to --at";

/// The status of a desk that is unavailable. Its own output says why.
const UNAVAILABLE: u16 = 503;

fn fault_line(fault: RunFault) -> &'static str
    ensures { result.now ≡ fault_line fault }
{
    match fault {
        RunFault::Read => "fault read\n",
        RunFault::Write => "fault write\n",
        RunFault::Memory => "fault memory\n",
        RunFault::Store => "fault service\n",
    }
}

fn fault_why(fault: AskFault) -> Option<&'static str>
    ensures { option_map (λ why. why.now) result ≡ fault_why fault }
{
    match fault {
        AskFault::Refused => Some(REFUSED),
        AskFault::Write | AskFault::Read | AskFault::Cut => Some(ENDED),
        AskFault::Late => Some(LATE),
        AskFault::Memory => None,
        AskFault::Long => Some(LONG),
        AskFault::Foreign => Some(FOREIGN),
    }
}

/// Returns the reason why a service didn't answer, from the outcome of the last try.
fn last_why(last: LastTry) -> Option<&'static str>
    ensures { option_map (λ why. why.now) result ≡ last_why last }
{
    match last {
        LastTry::Nothing => None,
        LastTry::Answered(status) if status == UNAVAILABLE => None,
        LastTry::Answered(_) => Some(FOREIGN),
        LastTry::Failed(fault) => fault_why(fault),
    }
}

/// Returns the exit status: 0 if everything was accepted, 1 if something wasn't, 3 if the call
/// broke off.
fn status_of(ended: Result<bool, RunFault>) -> u8
    ensures { result ≡ status_of ended }
{
    match ended {
        Ok(true) => 0,
        Ok(false) => 1,
        Err(_) => 3,
    }
}

/// Writes a text, and then a line of a head and a word, in the same way.
fn tell_parts<E: ByteOut>(errors: &mut E, text: &str, head: &str, word: &str)
    ensures { SendsLine (text.now ++ (head.now ++ word.now ++ 10 ∷ [])) (E.taken errors.old)
        (E.taken errors.new) }
{
    match send_part(errors, text.as_bytes()) {
        Ok(()) => tell_word(errors, head, word),
        Err(_unreported) => {}
    }
}

/// Writes the line of a service that didn't answer, and the reason, in the same way.
fn tell_why<E: ByteOut>(errors: &mut E, port: u16, why: &str)
    ensures { SendsLine (service_text port (Some why.now)) (E.taken errors.old)
        (E.taken errors.new) }
{
    let mut buffer = Buffer::new();
    let digits = buffer.format(port);
    match send_part(errors, b"fault service\nport ") {
        Ok(()) => tell_parts(errors, digits, ": ", why),
        Err(_unreported) => {}
    }
}

/// Writes the line of a service that didn't answer, and the reason if it is known.
fn tell_service<E: ByteOut>(errors: &mut E, port: u16, last: LastTry)
    ensures { SendsLine (service_text port (last_why last)) (E.taken errors.old)
        (E.taken errors.new) }
{
    match last_why(last) {
        Some(why) => tell_why(errors, port, why),
        None => tell_line(errors, fault_line(RunFault::Store)),
    }
}

/// Writes the line of a fault, and the reason why the service on a port didn't answer.
fn tell_fault<E: ByteOut>(errors: &mut E, fault: RunFault, port: u16, last: LastTry)
    ensures { SendsLine (fault_text port last fault) (E.taken errors.old) (E.taken errors.new) }
{
    match fault {
        RunFault::Store => tell_service(errors, port, last),
        other => tell_line(errors, fault_line(other)),
    }
}

/// Ends a call to the service on a port: reports its fault, and returns the exit status. If the
/// service didn't answer, the fault is `fault service`, and a second line has the reason, from the
/// outcome of the last try, and what to do.
pub fn end_asked<E: ByteOut>(
    errors: &mut E,
    ended: Result<bool, RunFault>,
    port: u16,
    last: LastTry,
) -> u8
    ensures status { result ≡ status_of ended }
    ensures told { IfErr ended
        (λ fault. SendsLine (fault_text port last fault) (E.taken errors.old)
        (E.taken errors.new)) }
    ensures silent { OnOk ended (errors.new ≡ errors.old) }
{
    if let Err(fault) = ended {
        tell_fault(errors, fault, port, last);
    }
    status_of(ended)
}
