//! Printing a report as it arrives.

ghost use Rattle.std.specs.Prelude.{◌≡◌};
ghost use Rattle.desk_client.specs.Whole.{IsFrontEnd};
ghost use Rattle.desk_client.specs.Printed.{HasPrintedBody, HasPrintedLast, HasTurned, IsHeld};

use crate::ask::AskFault;
use crate::ended::{front_end, has_end};
use crate::reading::read_more;
use cli_run::send_part;
use reports::Form;
use station_core::{ByteIn, ByteOut};
use std::alloc::Global;

/// The reason why a report wasn't printed to its end.
#[derive(Clone, Copy)]
pub(crate) enum PrintFault {
    /// The writer failed or wrote 0 bytes.
    Write,
    /// The rest of the report wasn't received.
    Rest(AskFault),
}

/// Prints the printable prefix of the held text, and holds the rest. It considers only rows that
/// end after `from`.
fn print_more<O: ByteOut>(
    alloc: Global,
    output: &mut O,
    held: &mut Vec<u8>,
    from: usize,
    form: Form,
) -> Result<(), PrintFault>
    requires { IsHeld form held.old.items }
    ensures { HasTurned form held.old.items held.new.items (O.taken output.old)
        (O.taken output.new) result }
{
    let Some(end) = front_end(held.as_slice(), from, form) else {
        return Ok(());
    };
    let Ok(rest) = Vec::from_slice(alloc, &held.as_slice()[end - 1..]) else {
        return Err(PrintFault::Rest(AskFault::Memory));
    };
    match send_part(output, &held.as_slice()[1..end]) {
        Ok(()) => {}
        Err(_) => return Err(PrintFault::Write),
    }
    *held = rest;
    Ok(())
}

/// Prints the held text at the end of the connection, if it ends like a report.
fn print_last<O: ByteOut>(output: &mut O, held: &[u8]) -> Result<(), PrintFault>
    ensures { HasPrintedLast held.now (O.taken output.old) (O.taken output.new) result }
{
    if !has_end(held) {
        return Err(PrintFault::Rest(AskFault::Cut));
    }
    match send_part(output, held.get(1..).unwrap_or(&[])) {
        Ok(()) => Ok(()),
        Err(_) => Err(PrintFault::Write),
    }
}

/// Prints a report of which a prefix was received, and then the rest as it arrives. The report's
/// end is printed when the connection has ended.
pub(crate) fn print_report<I: ByteIn, O: ByteOut>(
    alloc: Global,
    reader: &mut I,
    output: &mut O,
    body: &[u8],
    end: usize,
    form: Form,
) -> Result<(), PrintFault>
    requires { IsFrontEnd form body.now end }
    ensures { HasPrintedBody form body.now (I.given reader.old) (I.given reader.new)
        (O.taken output.old) (O.taken output.new) result }
{
    match send_part(output, &body[..end]) {
        Ok(()) => {}
        Err(_) => return Err(PrintFault::Write),
    }
    let Ok(mut held) = Vec::from_slice(alloc, &body[end - 1..]) else {
        return Err(PrintFault::Rest(AskFault::Memory));
    };
    for _turn in 0..u64::MAX {
        let from = held.len();
        match read_more(reader, &mut held) {
            Ok(true) => return print_last(output, held.as_slice()),
            Ok(false) => print_more(alloc, output, &mut held, from - 2, form)?,
            Err(fault) => return Err(PrintFault::Rest(fault)),
        }
    }
    Err(PrintFault::Rest(AskFault::Read))
}
