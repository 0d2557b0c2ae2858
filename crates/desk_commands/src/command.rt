//! Commands as values and as texts.

ghost use Rattle.std.specs.Prelude.{◌≡◌, ◌∷◌, [], IfOk, string_bytes};
ghost use Rattle.desk_commands.specs.Command.{command_of, command_text, day_if_any, fields_text, flight_if_any as flight_if_any_field, prefix_text, serial_text, IsCommand, Writes};
ghost use Rattle.desk_commands.specs.declared.command.Command.{Command as AnyCommand};
ghost use Rattle.desk_commands.specs.declared.command.Command.TheVariants as CommandValue;
ghost use Rattle.desk_commands.specs.declared.field_value.FieldValue.TheVariants as FieldValue;

use crate::field_value::{FieldValue, flight_date, flight_if_any, run};
use crate::verb::Verb;
use agent_stock::{Order, Run};
use awb_number::ascii_text;
use shipment_machine::{DeskCommand, FlightDate};
use std::alloc::{AllocError, Global};

/// A command that a caller sends to a station.
#[derive(Clone, Copy, PartialEq, Eq)]
pub enum Command {
    /// An order on a run of waybill numbers.
    Stock(Order),
    /// A command about cargo.
    Cargo(DeskCommand),
}

/// Returns the command of a verb, from the values of its fields in order.
pub(crate) fn command_of(verb: Verb, values: &[FieldValue<'_>; 6]) -> Option<Command>
    ensures { result ≡ command_of verb values.now }
{
    match (verb, values) {
        (Verb::TakeIn, [prefix, serial, count, ..]) => {
            Some(Command::Stock(Order::TakeIn(run(prefix, serial, count)?)))
        }
        (Verb::Issue, [prefix, serial, count, agent, ..]) => {
            let run = run(prefix, serial, count)?;
            Some(Command::Stock(Order::Issue(run, agent.agent()?)))
        }
        (Verb::Return, [prefix, serial, count, agent, ..]) => {
            let run = run(prefix, serial, count)?;
            Some(Command::Stock(Order::GiveBack(run, agent.agent()?)))
        }
        (Verb::Void, [prefix, serial, count, ..]) => {
            Some(Command::Stock(Order::Void(run(prefix, serial, count)?)))
        }
        (Verb::Book, _) => book(values),
        (Verb::Amend, _) => amend(values),
        (Verb::Receive, _) => receive(values),
        (Verb::Withdraw, _) => withdraw(values),
        (Verb::Manifest, _) => manifest(values),
        (Verb::Offload, _) => offload(values),
        (Verb::Reroute, _) => reroute(values),
        (Verb::Depart, [flight, day, ..]) => {
            let flight = flight_date(flight, day)?;
            Some(Command::Cargo(DeskCommand::Depart { flight }))
        }
        (Verb::CheckIn, _) => check_in(values),
        (Verb::Strike, _) => strike(values),
        (Verb::Notify, _) => notify(values),
        (Verb::Deliver, _) => deliver(values),
        (Verb::Transfer, _) => transfer(values),
        (Verb::Missing, _) => missing(values),
        (Verb::Found, _) => found(values),
        (Verb::Confirm, _) => confirm(values),
    }
}

/// Returns a command as a text: its verb and its fields, one a line. Numbers have no leading zeros,
/// flights are in their written form, days are like `2026-01-12`, and an absent flight and day are
/// empty lines. The types keep every command in range.
pub fn command_text(alloc: Global, command: &Command) -> Result<String, AllocError>
    ensures text { IfOk result (λ text. string_bytes text ≡ command_text command.now) }
    ensures in_range { IsCommand command.now }
{
    range_law(*command);
    match command {
        Command::Stock(order) => order_text(alloc, order),
        Command::Cargo(command) => desk_text(alloc, command),
    }
}

/// Commands with the same text are the same, so the text of a command identifies it.
pub fn command_text_law()
    ensures { (c d : AnyCommand) → IsCommand c → IsCommand d → command_text c ≡ command_text d
        → c ≡ d }
{}

/// The types keep every command in range.
fn range_law(command: Command)
    ensures { IsCommand command }
{}

fn order_text(alloc: Global, order: &Order) -> Result<String, AllocError>
    ensures { Writes result (command_text (CommandValue.Stock order.now)) }
{
    let (Order::TakeIn(run) | Order::Issue(run, _) | Order::GiveBack(run, _) | Order::Void(run)) =
        order;
    let run = run_lines(alloc, run)?;
    match order {
        Order::TakeIn(_) => format!(in alloc; "take-in\n{run}"),
        Order::Issue(_, agent) => format!(in alloc; "issue\n{run}\n{agent}"),
        Order::GiveBack(_, agent) => format!(in alloc; "return\n{run}\n{agent}"),
        Order::Void(_) => format!(in alloc; "void\n{run}"),
    }
}

fn desk_text(alloc: Global, command: &DeskCommand) -> Result<String, AllocError>
    ensures { Writes result (command_text (CommandValue.Cargo command.now)) }
{
    match command {
        DeskCommand::Book {
            awb,
            origin,
            destination,
            pieces,
            tenths,
            goods,
        } => {
            let tenths = tenths.number();
            format!(in alloc; "book\n{awb}\n{origin}\n{destination}\n{pieces}\n{tenths}\n{goods}")
        }
        DeskCommand::Amend {
            awb,
            origin,
            destination,
            pieces,
            tenths,
            goods,
        } => {
            let tenths = tenths.number();
            format!(in alloc; "amend\n{awb}\n{origin}\n{destination}\n{pieces}\n{tenths}\n{goods}")
        }
        DeskCommand::Receive {
            awb,
            pieces,
            tenths,
            name,
        } => format!(in alloc; "receive\n{awb}\n{pieces}\n{}\n{name}", tenths.number()),
        DeskCommand::Withdraw { awb, pieces, name } => {
            format!(in alloc; "withdraw\n{awb}\n{pieces}\n{name}")
        }
        DeskCommand::Manifest {
            awb,
            flight: FlightDate { flight, day },
            unload,
            pieces,
        } => format!(in alloc; "manifest\n{awb}\n{flight}\n{day}\n{unload}\n{pieces}"),
        DeskCommand::Offload {
            awb,
            flight: FlightDate { flight, day },
            pieces,
        } => format!(in alloc; "offload\n{awb}\n{flight}\n{day}\n{pieces}"),
        DeskCommand::Reroute {
            flight: FlightDate { flight, day },
            unload,
        } => format!(in alloc; "reroute\n{flight}\n{day}\n{unload}"),
        DeskCommand::Depart {
            flight: FlightDate { flight, day },
        } => format!(in alloc; "depart\n{flight}\n{day}"),
        DeskCommand::CheckIn {
            awb,
            flight: FlightDate { flight, day },
            counted,
        } => format!(in alloc; "check-in\n{awb}\n{flight}\n{day}\n{}", counted.number()),
        DeskCommand::Strike {
            awb,
            flight: FlightDate { flight, day },
            pieces,
        } => format!(in alloc; "strike\n{awb}\n{flight}\n{day}\n{pieces}"),
        DeskCommand::Notify { awb, name } => format!(in alloc; "notify\n{awb}\n{name}"),
        DeskCommand::Deliver { awb, pieces, name } => {
            format!(in alloc; "deliver\n{awb}\n{pieces}\n{name}")
        }
        DeskCommand::Transfer {
            awb,
            pieces,
            airline,
        } => {
            let airline = airline.designator();
            format!(in alloc; "transfer\n{awb}\n{pieces}\n{}", ascii_text(&airline))
        }
        DeskCommand::Missing {
            awb,
            pieces,
            flight,
        } => {
            let flight = flight_lines(alloc, flight)?;
            format!(in alloc; "missing\n{awb}\n{pieces}\n{flight}")
        }
        DeskCommand::Found {
            awb,
            pieces,
            tenths,
            flight,
        } => {
            let (tenths, flight) = (tenths.number(), flight_lines(alloc, flight)?);
            format!(in alloc; "found\n{awb}\n{pieces}\n{tenths}\n{flight}")
        }
        DeskCommand::Confirm { upto } => format!(in alloc; "confirm\n{upto}"),
    }
}

/// Returns the first number of a run and its count, one a line.
fn run_lines(alloc: Global, run: &Run) -> Result<String, AllocError>
    ensures { Writes result (fields_text
        (prefix_text run.now ∷ serial_text run.now ∷ FieldValue.Number run.now.count ∷ [])) }
{
    let number = run.first.write();
    let prefix = ascii_text(&number[..3]);
    let serial = ascii_text(&number[4..11]);
    let count = run.count.number();
    format!(in alloc; "{prefix}\n{serial}\n{count}")
}

/// Returns a flight and its day, one a line: two empty lines without a flight.
fn flight_lines(alloc: Global, flight: &Option<FlightDate>) -> Result<String, AllocError>
    ensures { Writes result (fields_text
        (flight_if_any_field flight.now ∷ day_if_any flight.now ∷ [])) }
{
    match flight {
        Some(FlightDate { flight, day }) => format!(in alloc; "{flight}\n{day}"),
        None => format!(in alloc; "\n"),
    }
}

fn book(values: &[FieldValue<'_>; 6]) -> Option<Command>
    ensures { result ≡ command_of Verb.Book values.now }
{
    let [awb, origin, destination, pieces, tenths, goods] = values;
    Some(Command::Cargo(DeskCommand::Book {
        awb: awb.awb()?,
        origin: origin.airport()?,
        destination: destination.airport()?,
        pieces: pieces.pieces()?,
        tenths: tenths.tenths()?,
        goods: goods.goods()?,
    }))
}

fn amend(values: &[FieldValue<'_>; 6]) -> Option<Command>
    ensures { result ≡ command_of Verb.Amend values.now }
{
    let [awb, origin, destination, pieces, tenths, goods] = values;
    Some(Command::Cargo(DeskCommand::Amend {
        awb: awb.awb()?,
        origin: origin.airport()?,
        destination: destination.airport()?,
        pieces: pieces.pieces()?,
        tenths: tenths.tenths()?,
        goods: goods.goods()?,
    }))
}

fn receive(values: &[FieldValue<'_>; 6]) -> Option<Command>
    ensures { result ≡ command_of Verb.Receive values.now }
{
    let [awb, pieces, tenths, name, ..] = values;
    Some(Command::Cargo(DeskCommand::Receive {
        awb: awb.awb()?,
        pieces: pieces.pieces()?,
        tenths: tenths.tenths()?,
        name: name.name()?,
    }))
}

fn withdraw(values: &[FieldValue<'_>; 6]) -> Option<Command>
    ensures { result ≡ command_of Verb.Withdraw values.now }
{
    let [awb, pieces, name, ..] = values;
    Some(Command::Cargo(DeskCommand::Withdraw {
        awb: awb.awb()?,
        pieces: pieces.pieces()?,
        name: name.name()?,
    }))
}

fn manifest(values: &[FieldValue<'_>; 6]) -> Option<Command>
    ensures { result ≡ command_of Verb.Manifest values.now }
{
    let [awb, flight, day, unload, pieces, ..] = values;
    Some(Command::Cargo(DeskCommand::Manifest {
        awb: awb.awb()?,
        flight: flight_date(flight, day)?,
        unload: unload.airport()?,
        pieces: pieces.pieces()?,
    }))
}

fn offload(values: &[FieldValue<'_>; 6]) -> Option<Command>
    ensures { result ≡ command_of Verb.Offload values.now }
{
    let [awb, flight, day, pieces, ..] = values;
    Some(Command::Cargo(DeskCommand::Offload {
        awb: awb.awb()?,
        flight: flight_date(flight, day)?,
        pieces: pieces.pieces()?,
    }))
}

fn reroute(values: &[FieldValue<'_>; 6]) -> Option<Command>
    ensures { result ≡ command_of Verb.Reroute values.now }
{
    let [flight, day, unload, ..] = values;
    Some(Command::Cargo(DeskCommand::Reroute {
        flight: flight_date(flight, day)?,
        unload: unload.airport()?,
    }))
}

fn check_in(values: &[FieldValue<'_>; 6]) -> Option<Command>
    ensures { result ≡ command_of Verb.CheckIn values.now }
{
    let [awb, flight, day, counted, ..] = values;
    Some(Command::Cargo(DeskCommand::CheckIn {
        awb: awb.awb()?,
        flight: flight_date(flight, day)?,
        counted: counted.counted()?,
    }))
}

fn strike(values: &[FieldValue<'_>; 6]) -> Option<Command>
    ensures { result ≡ command_of Verb.Strike values.now }
{
    let [awb, flight, day, pieces, ..] = values;
    Some(Command::Cargo(DeskCommand::Strike {
        awb: awb.awb()?,
        flight: flight_date(flight, day)?,
        pieces: pieces.pieces()?,
    }))
}

fn notify(values: &[FieldValue<'_>; 6]) -> Option<Command>
    ensures { result ≡ command_of Verb.Notify values.now }
{
    let [awb, name, ..] = values;
    Some(Command::Cargo(DeskCommand::Notify {
        awb: awb.awb()?,
        name: name.name()?,
    }))
}

fn deliver(values: &[FieldValue<'_>; 6]) -> Option<Command>
    ensures { result ≡ command_of Verb.Deliver values.now }
{
    let [awb, pieces, name, ..] = values;
    Some(Command::Cargo(DeskCommand::Deliver {
        awb: awb.awb()?,
        pieces: pieces.pieces()?,
        name: name.name()?,
    }))
}

fn transfer(values: &[FieldValue<'_>; 6]) -> Option<Command>
    ensures { result ≡ command_of Verb.Transfer values.now }
{
    let [awb, pieces, airline, ..] = values;
    Some(Command::Cargo(DeskCommand::Transfer {
        awb: awb.awb()?,
        pieces: pieces.pieces()?,
        airline: airline.airline()?,
    }))
}

fn missing(values: &[FieldValue<'_>; 6]) -> Option<Command>
    ensures { result ≡ command_of Verb.Missing values.now }
{
    let [awb, pieces, flight, day, ..] = values;
    Some(Command::Cargo(DeskCommand::Missing {
        awb: awb.awb()?,
        pieces: pieces.pieces()?,
        flight: flight_if_any(flight, day)?,
    }))
}

fn found(values: &[FieldValue<'_>; 6]) -> Option<Command>
    ensures { result ≡ command_of Verb.Found values.now }
{
    let [awb, pieces, tenths, flight, day, ..] = values;
    Some(Command::Cargo(DeskCommand::Found {
        awb: awb.awb()?,
        pieces: pieces.pieces()?,
        tenths: tenths.tenths()?,
        flight: flight_if_any(flight, day)?,
    }))
}

fn confirm(values: &[FieldValue<'_>; 6]) -> Option<Command>
    ensures { result ≡ command_of Verb.Confirm values.now }
{
    let [upto, ..] = values;
    let upto = upto.number()?;
    Some(Command::Cargo(DeskCommand::Confirm { upto }))
}
