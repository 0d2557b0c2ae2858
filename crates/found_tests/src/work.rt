//! Work over a connection.
use crate::errands::{Asked, Came, Errand, Giving};
use crate::faults::fault_said;
use crate::finding::{fault_found, found};
use crate::tables::ask;
use awb_number::Awb;
use imp_fields::Airport;
use sqlite::{Alter, Connection};
use station_core::Input;
use station_days::Moment;
use station_tables::{AttachFault, Station, attach, attach_and_repeat, create, migrate};
use std::alloc::Global;
use telegrams::read_telegram;
use test_kit::{Job, answer_said, keyed, say, shown};

/// The form in which a case writes an input.
#[derive(Clone, Copy)]
pub enum InputForm {
    /// A key, a space, and the text of a command.
    Command,
    Telegram,
}

impl InputForm {
    /// Reads an input.
    pub fn input<'a>(self, alloc: Global, text: &'a [u8]) -> Option<Input<'a>> {
        match self {
            InputForm::Telegram => Some(Input::Wire(read_telegram(alloc, text).ok()?)),
            InputForm::Command => {
                let (key, command) = shown(text).split_once(' ')?;
                keyed(key, command)
            }
        }
    }
}

/// Work over a connection.
#[derive(Clone, Copy)]
pub enum Work<'a> {
    /// Execute statements.
    Execute(&'a str),
    /// Make a station at an airport, and run an errand.
    Make(Airport, Errand),
    /// Open the station, and run an errand.
    Open(Errand),
    /// Open the station, and pass it an input at a moment.
    Give(InputForm, &'a [u8], Moment),
    /// Repeat an input by an opening at a moment.
    Repeat(InputForm, &'a [u8], Moment),
    /// Upgrade a file of version 1.
    Migrate,
    /// Open the station, and return the records of waybills and all rows, or why there is none.
    Find,
}

impl Work<'_> {
    /// Does the work.
    pub fn run<S: Alter>(
        &self,
        alloc: Global,
        conn: Connection<S>,
        numbers: &[Awb],
    ) -> (Option<Came>, Connection<S>) {
        match self {
            Work::Execute(statements) => execute(alloc, conn, statements),
            Work::Make(here, errand) => make(alloc, conn, *here, *errand),
            Work::Open(errand) => {
                let errand = *errand;
                serve_opened(alloc, conn, Asked { alloc, errand })
            }
            Work::Give(form, text, at) => give(alloc, conn, *form, text, *at),
            Work::Repeat(form, text, at) => repeat(alloc, conn, *form, text, *at),
            Work::Migrate => migrate_tables(alloc, conn),
            Work::Find => {
                let (said, conn) = found(alloc, conn, numbers);
                (done(said), conn)
            }
        }
    }

    /// Returns whether the connection is closed afterwards.
    pub fn is_closed_after(&self, came: &Option<Came>) -> bool {
        match self {
            Work::Execute(_) | Work::Make(_, Errand::Nothing) | Work::Migrate => true,
            Work::Open(_) | Work::Give(_, _, _) => !matches!(came, Some(Came::NotBegun)),
            _ => false,
        }
    }
}

fn done(said: Option<String>) -> Option<Came> {
    Some(Came::Done(said?))
}

fn execute<S: Alter>(
    alloc: Global,
    conn: Connection<S>,
    statements: &str,
) -> (Option<Came>, Connection<S>) {
    let mut conn = conn;
    match conn.execute_batch(statements) {
        Ok(_) => (done(say(alloc, "ok")), conn),
        Err(_) => (None, conn),
    }
}

fn make<S: Alter>(
    alloc: Global,
    conn: Connection<S>,
    here: Airport,
    errand: Errand,
) -> (Option<Came>, Connection<S>) {
    match create(alloc, conn, here) {
        Ok(station) => serve(station, Asked { alloc, errand }),
        Err((conn, AttachFault::Store)) => (Some(Came::Stopped), conn),
        Err((conn, _)) => (None, conn),
    }
}

fn migrate_tables<S: Alter>(alloc: Global, conn: Connection<S>) -> (Option<Came>, Connection<S>) {
    match migrate(alloc, conn) {
        Ok(conn) => (done(say(alloc, "ok")), conn),
        Err((conn, AttachFault::Store)) => (Some(Came::Stopped), conn),
        Err((conn, fault)) => (done(fault_said(alloc, &fault)), conn),
    }
}

fn serve_opened<S: Alter, J: Job<Out = Option<Came>> + Drop>(
    alloc: Global,
    conn: Connection<S>,
    job: J,
) -> (Option<Came>, Connection<S>) {
    match attach(alloc, conn) {
        Ok(station) => serve(station, job),
        Err((conn, AttachFault::Store)) => (Some(Came::NotBegun), conn),
        Err((conn, _)) => (None, conn),
    }
}

fn serve<S: Alter, J: Job<Out = Option<Came>>>(
    station: Station<S>,
    job: J,
) -> (Option<Came>, Connection<S>) {
    let mut station = station;
    let came = ask(&mut station, job);
    (came, station.release())
}

fn act<S: Alter>(
    alloc: Global,
    conn: Connection<S>,
    input: &Input<'_>,
    at: Moment,
) -> (Option<Came>, Connection<S>) {
    serve_opened(alloc, conn, Giving { alloc, input, at })
}

fn give<S: Alter>(
    alloc: Global,
    conn: Connection<S>,
    form: InputForm,
    text: &[u8],
    at: Moment,
) -> (Option<Came>, Connection<S>) {
    match form.input(alloc, text) {
        Some(input) => act(alloc, conn, &input, at),
        None => (None, conn),
    }
}

fn repeat_input<S: Alter>(
    alloc: Global,
    conn: Connection<S>,
    input: &Input<'_>,
    at: Moment,
) -> (Option<Came>, Connection<S>) {
    match attach_and_repeat(alloc, conn, input, at) {
        Ok((station, answer)) => (done(answer_said(alloc, &answer)), station.release()),
        Err((mut conn, fault)) => {
            let said = fault_found(alloc, &mut conn, &fault);
            (done(said), conn)
        }
    }
}

fn repeat<S: Alter>(
    alloc: Global,
    conn: Connection<S>,
    form: InputForm,
    text: &[u8],
    at: Moment,
) -> (Option<Came>, Connection<S>) {
    match form.input(alloc, text) {
        Some(input) => repeat_input(alloc, conn, &input, at),
        None => (None, conn),
    }
}
