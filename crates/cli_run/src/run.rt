//! Running a command over its station.
//! Laws about stock lists, the lines of `acts` together, and the inputs of each command.
//! The station of a command line.

ghost use Rattle.cli_run.specs.Common.{StaysInService, LocalMinute, State};
ghost use Rattle.cli_run.specs.Ends.{ends, reached, here_of, Call, Reached, is_migration, is_new};
ghost use Rattle.cli_run.specs.Done.{answers_inputs, HasDone, HasToldMade, HasGivenReasons, AreAnswered, AsksAt, HasLeft};
ghost use Rattle.std.specs.Prelude.{◌≡◌, ℕ, Bool, false, List, Result, map};
ghost use Rattle.cli_run.specs.Lines.{HasRunList, Row, HasAnsweredRow, row_asks, HasAnsweredLine, HasRunActs};
ghost use Rattle.cli_words.specs.declared.line.LineCommand.{LineCommand as Command};
ghost use Rattle.cli_run.specs.declared.telling.RunFault.{RunFault};

use crate::acts::answer_acts;
use crate::answering::{ByStation, send_word};
use crate::input::{Inputs, answer_input};
use crate::look::{do_history, do_holder, do_waybill};
use crate::report::do_report;
use crate::rows::answer_list;
use crate::takes::answer_takes;
use crate::telling::RunFault;
use cli_words::{Line, LineCommand};
use imp_fields::Airport;
use reports::{Listing, Report};
use station_core::{ByteOut, Keeper};
use station_days::Moment;
use std::alloc::Global;
use std::io::Read;

/// Runs `init`: writes the line of the new station.
fn do_init<K: Keeper, W: ByteOut>(
    _keeper: &mut K,
    here: Airport,
    output: &mut W,
) -> Result<bool, RunFault>
    ensures { HasToldMade here (_keeper.old, W.taken output.old) (_keeper.new, W.taken output.new)
        result }
{
    match send_word(output, "ok ", &here.letters()) {
        Ok(()) => Ok(true),
        Err(fault) => Err(fault),
    }
}

/// Runs the command of a command line over its station, at a moment. For `serve`, `migrate` and
/// `read` it does nothing. If a row, a telegram or a body can't be read, the reason is written to
/// `errors`.
///
/// `Ok` says whether everything was accepted. If the run stops, it returns [`RunFault::Read`],
/// [`RunFault::Write`], [`RunFault::Memory`] or [`RunFault::Store`], as described at the command's
/// own function.
pub fn run_over<K: Keeper, I: Inputs + Read, W: ByteOut, E: ByteOut>(
    alloc: Global,
    keeper: &mut K,
    line: &Line<'_>,
    reader: &mut I,
    output: &mut W,
    errors: &mut E,
    at: Moment,
) -> Result<bool, RunFault>
    ensures service { StaysInService K.keeping keeper.old keeper.new result }
    ensures done { HasDone line.now.command (here_of line.now.station) K.keeping
        (ends I.remaining I.given I.turned W.taken E.taken) at
        (keeper.old, reached reader.old output.old errors.old)
        (keeper.new, reached reader.new output.new errors.new) result }
    ensures explained { HasGivenReasons line.now.command K.keeping
        (ends I.remaining I.given I.turned W.taken E.taken) at
        (keeper.old, reached reader.old output.old errors.old)
        (keeper.new, reached reader.new output.new errors.new) result }
{
    let way = ByStation { at };
    match &line.command {
        LineCommand::Init => do_init(keeper, airport_of_line(line), output),
        LineCommand::Stock => answer_list(&way, alloc, keeper, reader, output, errors),
        LineCommand::Take(paths) => {
            answer_takes(&way, alloc, keeper, paths.len(), reader, output, errors)
        }
        LineCommand::Act { verb, key } => {
            let head = Some((*verb, *key));
            answer_input(&way, alloc, keeper, &head, reader, output, errors)
        }
        LineCommand::Acts => answer_acts(&way, alloc, keeper, reader, output, errors),
        LineCommand::Outbox(form) => {
            do_report(alloc, keeper, &Listing::All(Report::Pending), *form, output)
        }
        LineCommand::Report(listing, form) => do_report(alloc, keeper, listing, *form, output),
        LineCommand::History(number) => do_history(alloc, keeper, number, output),
        LineCommand::Waybill(number) => do_waybill(alloc, keeper, number, output),
        LineCommand::Holder(number) => do_holder(alloc, keeper, number, output),
        LineCommand::Read(_) | LineCommand::Serve { .. } | LineCommand::Migrate => Ok(true),
    }
}

/// The answered rows of a stock list are a run of the station over their orders: they leave the
/// state after them all, the output is the lines of the answers, and the run is good if every row
/// has an order and every answer accepts it.
pub fn list_law<K: Keeper, E: ByteOut>()
    ensures { (rows : List Row) (at : LocalMinute) (old new : Call K E) (good : Bool)
        → AreAnswered (HasAnsweredRow K.keeping at E.taken) 1 rows old new good → (s : State)
        → K.keeping.keeps old.keeper s → K.keeping.is_broken old.keeper ≡ false → K.keeping.is_sound
        new.keeper → HasRunList 1 s at (map row_asks rows) old.sent.bytes new.sent.bytes
        (K.keeping.keeps new.keeper) good }
{}

/// The answered lines of `acts` are a run of the station over their requests: they leave the state
/// after all of them, the output is the lines of the answers, and the run is good exactly if each
/// answer is.
pub fn acts_law<K: Keeper, E: ByteOut>()
    ensures { (lines : List (List ℕ)) (at : LocalMinute) (old new : Call K E) (good : Bool)
        → AreAnswered (HasAnsweredLine K.keeping at E.taken) 1 lines old new good → (s : State)
        → K.keeping.keeps old.keeper s → K.keeping.is_broken old.keeper ≡ false → K.keeping.is_sound
        new.keeper → HasRunActs 1 s at lines old.sent.bytes new.sent.bytes
        (K.keeping.keeps new.keeper) good }
{}

/// Whatever a command returns, reopening afterwards finds the state after the inputs that it
/// answered and, if the store failed, perhaps one more.
pub fn left_law<K: Keeper, I: Inputs + Read, W: ByteOut, E: ByteOut>()
    ensures { (command : Command) (here : List ℕ) (at : LocalMinute) (s : State)
        (old new : K × Reached I W E) (result : Result Bool RunFault) → K.keeping.keeps old.0 s
        → K.keeping.is_broken old.0 ≡ false → K.keeping.is_sound new.0 → HasDone command here
        K.keeping (ends I.remaining I.given I.turned W.taken E.taken) at old new result → HasLeft
        (AsksAt command at) at (answers_inputs command) s (W.taken old.1.output).bytes
        (W.taken new.1.output).bytes (K.keeping.may_find new.0) result }
{}

/// Returns the airport of a command line's station, or `XXX` if the line names none.
pub fn airport_of_line(line: &Line<'_>) -> Airport
    ensures { result ≡ here_of line.now.station }
{
    match line.station {
        Some(here) => here,
        None => Airport::read(b"XXX").unwrap(),
    }
}

/// Returns whether the command line starts with a new station: `init` creates one, and so does each
/// line without a file.
pub fn is_opening(line: &Line<'_>) -> bool
    ensures { result ≡ is_new line.now.db line.now.command }
{
    match line.db {
        None => true,
        Some(_) => matches!(line.command, LineCommand::Init),
    }
}

/// Returns whether the command line upgrades a file from version 1 to version 2.
pub fn is_migration(line: &Line<'_>) -> bool
    ensures { result ≡ is_migration line.now.command }
{
    matches!(line.command, LineCommand::Migrate)
}
