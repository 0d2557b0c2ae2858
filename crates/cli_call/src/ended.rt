//! The exit status of a call, and its fault line.
//! The output of `--version`.

ghost use Rattle.std.specs.Prelude.{◌≡◌, IfErr, OnOk, IfOk, string_bytes};
ghost use Rattle.cli_call.specs.Ended.{attach_status, run_ended, run_line, status_of, HasNoStation, HasTold, HasToldEnd};
ghost use Rattle.cli_call.specs.Common.{reached};
ghost use Rattle.cli_call.specs.Ran.{HasWarned, kit, version_line};

use cli_run::{RunFault, tell_line, tell_word};
use cli_words::Line;
use itoa::Buffer;
use reports::{file_version, program_version};
use sqlite::{Alter, Connection};
use station_core::ByteOut;
use station_tables::AttachFault;
use std::alloc::{AllocError, Global};

/// The warning about a file whose tables aren't declared as `init` declares them.
const UNDECLARED: &str =
    ": init declares the tables differently, so the promises about a power failure aren't proved \
    for this file; copy its rows into a new one";

/// The reason why a call broke off.
#[derive(Clone, Copy)]
pub enum DeskFault {
    /// The clock can't be read, or shows a day before 2000-01-01 or after 2099-12-31.
    Clock,
    /// The fault of the run.
    Run(RunFault),
    /// There is no station to run on.
    Attach(AttachFault),
}

fn run_ended(ended: Result<bool, RunFault>) -> Result<bool, DeskFault>
    ensures { result ≡ run_ended ended }
{
    match ended {
        Ok(good) => Ok(good),
        Err(fault) => Err(DeskFault::Run(fault)),
    }
}

fn run_line(fault: RunFault) -> &'static str
    ensures { result.now ≡ run_line fault }
{
    match fault {
        RunFault::Read => "fault read\n",
        RunFault::Write => "fault write\n",
        RunFault::Memory => "fault memory\n",
        RunFault::Store => "fault store\n",
    }
}

/// Writes that the tables of a command line's file aren't declared as `init` declares them.
pub fn tell_undeclared<E: ByteOut>(errors: &mut E, line: &Line<'_>)
    ensures { HasWarned (E.taken errors.old) (E.taken errors.new) }
{
    let path = line.db.unwrap_or("");
    tell_word(errors, path, UNDECLARED);
}

/// Writes the reason why there is no station.
fn tell_attach<E: ByteOut>(errors: &mut E, fault: AttachFault)
    ensures { HasTold (DeskFault.Attach fault) (E.taken errors.old) (E.taken errors.new) }
{
    match fault {
        AttachFault::Unlawful(table) => tell_word(errors, "fault 601 ", table.as_str()),
        AttachFault::NoStation => tell_line(errors, "fault 602\n"),
        AttachFault::Version(version) => {
            tell_word(errors, "fault 603 ", Buffer::new().format(version));
        }
        AttachFault::Occupied => tell_line(errors, "fault 604\n"),
        AttachFault::Store => tell_line(errors, run_line(RunFault::Store)),
        AttachFault::Memory => tell_line(errors, run_line(RunFault::Memory)),
    }
}

/// Writes the line of a fault, or a prefix.
fn tell<E: ByteOut>(errors: &mut E, fault: DeskFault)
    ensures { HasTold fault (E.taken errors.old) (E.taken errors.new) }
{
    match fault {
        DeskFault::Clock => tell_line(errors, "fault clock\n"),
        DeskFault::Run(fault) => tell_line(errors, run_line(fault)),
        DeskFault::Attach(fault) => tell_attach(errors, fault),
    }
}

fn attach_status(fault: AttachFault) -> u8
    ensures { result ≡ attach_status fault }
{
    match fault {
        AttachFault::Store | AttachFault::Memory => 3,
        _ => 4,
    }
}

fn status_of(ended: Result<bool, DeskFault>) -> u8
    ensures { result ≡ status_of ended }
{
    match ended {
        Ok(true) => 0,
        Ok(false) => 1,
        Err(DeskFault::Attach(fault)) => attach_status(fault),
        Err(_) => 3,
    }
}

/// Ends a call: reports its fault, and returns the exit status.
pub fn end<E: ByteOut>(errors: &mut E, ended: Result<bool, DeskFault>) -> u8
    ensures status { result ≡ status_of ended }
    ensures told { IfErr ended (λ fault. HasTold fault (E.taken errors.old) (E.taken errors.new)) }
    ensures silent { OnOk ended (errors.new ≡ errors.old) }
{
    if let Err(fault) = ended {
        tell(errors, fault);
    }
    status_of(ended)
}

/// Ends a call whose command ran.
pub(crate) fn end_run<E: ByteOut>(errors: &mut E, ended: Result<bool, RunFault>) -> u8
    ensures { HasToldEnd E.taken ended errors.old errors.new result }
{
    end(errors, run_ended(ended))
}

/// Writes the reason why there is no station, and returns the connection.
pub(crate) fn refuse_line<S: Alter, I, W, E: ByteOut>(
    _reader: &mut I,
    _output: &mut W,
    errors: &mut E,
    none: (Connection<S>, AttachFault),
) -> (u8, Connection<S>)
    ensures { HasNoStation E.taken none (reached _reader.old _output.old errors.old)
        (reached _reader.new _output.new errors.new) result }
{
    let (conn, fault) = none;
    (end(errors, Err(DeskFault::Attach(fault))), conn)
}

/// Returns the kit with which the program is proved, as `rt version` names it.
fn kit() -> &'static str
    ensures { result.now ≡ kit }
{
    "rattle-kit-13f"
}

/// Returns the line of `--version`: the program, its version, the version of its files, and the kit
/// with which it is proved.
pub fn version_line(alloc: Global) -> Result<String, AllocError>
    ensures { IfOk result (λ line. string_bytes line ≡ version_line) }
{
    let (program, files, kit) = (program_version(), file_version(), kit());
    format!(in alloc; "cargo_desk {program}, files of version {files}, proved with {kit}\n")
}
