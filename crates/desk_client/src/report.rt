//! Printing the answer to a question for rows.
ghost use Rattle.std.specs.Prelude.{◌≡◌};
ghost use Rattle.desk_client.specs.Try.{talk};
ghost use Rattle.desk_client.specs.Whole.{IsBegun};
ghost use Rattle.desk_client.specs.Done.{HasShownRows, HasShownTaken, IsTakenRows};
ghost use Rattle.desk_client.specs.Printed.{HasPrinted};

use crate::ask::Response;
use crate::ended::ends_in;
use crate::lines::service_fault;
use crate::printing::{PrintFault, print_report};
use crate::reading::{Connect, LastTry, RemoteDesk};
use crate::whole::is_of_form;
use cli_run::{RunFault, send_part};
use reports::Form;
use station_core::{ByteIn, ByteOut};
use std::alloc::Global;

fn show_rows<W: ByteOut>(answer: &Response, form: Form, output: &mut W) -> Result<bool, RunFault>
    ensures { HasShownRows form answer.now (W.taken output.old) (W.taken output.new) result }
{
    if answer.status != 200
        || !is_of_form(answer.bytes.as_slice(), form)
        || !ends_in(form, answer.body())
    {
        return Err(RunFault::Store);
    }
    send_part(output, answer.body())?;
    Ok(true)
}

/// Prints a report of which a prefix was received, and the rest as it arrives.
#[tactic(auto, using(crate::proofs::RowsPrinted::printed, crate::proofs::RowsPrinted::broken))]
fn print_begun<C: Connect, I: ByteIn, O: ByteOut, W: ByteOut>(
    alloc: Global,
    service: &mut RemoteDesk<C, I, O>,
    answer: &Response,
    end: usize,
    form: Form,
    output: &mut W,
) -> Result<bool, RunFault>
    requires { IsBegun form answer.now.bytes.items answer.now.start end }
    ensures { HasPrinted form answer.now (talk C.tried C.opened I.given O.taken service.old)
        (talk C.tried C.opened I.given O.taken service.new) (W.taken output.old)
        (W.taken output.new) result }
{
    match print_report(alloc, &mut service.reader, output, answer.body(), end, form) {
        Ok(()) => Ok(true),
        Err(PrintFault::Write) => Err(RunFault::Write),
        Err(PrintFault::Rest(fault)) => {
            let fault = fault.by_time(service.connections.is_late());
            service.last = LastTry::Failed(fault);
            Err(service_fault(fault))
        }
    }
}

/// Writes the rows of an answer, of a whole one or as they arrive.
pub(crate) fn show_answer<C: Connect, I: ByteIn, O: ByteOut, W: ByteOut>(
    alloc: Global,
    service: &mut RemoteDesk<C, I, O>,
    answer: &Response,
    form: Form,
    output: &mut W,
) -> Result<bool, RunFault>
    requires { IsTakenRows form answer.now answer.now.begun }
    ensures { HasShownTaken form answer.now answer.now.begun
        (talk C.tried C.opened I.given O.taken service.old)
        (talk C.tried C.opened I.given O.taken service.new) (W.taken output.old)
        (W.taken output.new) result }
{
    match answer.begun {
        Some(end) => print_begun(alloc, service, answer, end, form, output),
        None => show_rows(answer, form, output),
    }
}
