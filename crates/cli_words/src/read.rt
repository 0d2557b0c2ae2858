//! Reading the words of a call.

ghost use Rattle.std.specs.Prelude.{◌≡◌, true, false, IfOk, Ok, IsSome, map, option_map};
ghost use Rattle.awb_number.specs.Number.{number_of};
ghost use Rattle.cli_words.specs.Line.{has_own, is_asked, IsAt, IsCalled, IsLine, IsMeant, IsStation, Means, rule_of};
ghost use Rattle.cli_words.specs.Sorted.{IsSorted};
ghost use Rattle.cli_words.specs.declared.words.Words.{Words};

use crate::fault::{BadValue, KEY, ROW, WordsFault, value_fault};
use crate::line::{Line, LineCommand};
use crate::part::{form_of, read_count, read_listing, read_port, read_row};
use crate::refusals::number_help;
use crate::words::{Request, Words, sort_words};
use awb_number::{Awb, AwbFault};
use desk_commands::Verb;
use imp_fields::Airport;
use reports::{Listing, Report};
use station_core::Key;
use std::alloc::Global;
use std::convert::AsStr;

fn read_act<'a>(word: &'a str, key: &'a str) -> Result<LineCommand<'a>, BadValue<'a>>
    ensures { IfOk result (Means (Request.Act word.entry key.entry)) }
{
    let verb = Verb::read(word.as_bytes()).ok_or(BadValue::Verb(word))?;
    let key = Key::read(key.as_bytes()).ok_or(BadValue::Key(key))?;
    Ok(LineCommand::Act { verb, key })
}

/// Returns the command that was accepted under a key.
fn read_kept<'a>(key: &'a str, json: bool) -> Result<LineCommand<'a>, BadValue<'a>>
    ensures { IfOk result (Means (Request.Key key.entry json)) }
{
    let key = Key::read(key.as_bytes()).ok_or(BadValue::Invalid("KEY", key, KEY))?;
    Ok(LineCommand::Report(Listing::Kept(key), form_of(json)))
}

fn number_of(text: &str) -> Result<Awb, AwbFault>
    ensures { result ≡ number_of text.now }
{
    match text.as_bytes().as_array::<12>() {
        Some(bytes) => Awb::read(bytes),
        None => Err(AwbFault::Shape),
    }
}

pub(crate) fn read_number<'a>(word: &'a str) -> Result<Awb, BadValue<'a>>
    ensures { IfOk result (λ w. number_of word.entry.now ≡ Ok w) }
{
    let expected = match number_of(word) {
        Ok(number) => return Ok(number),
        Err(AwbFault::Shape) => {
            "expected three digits, a hyphen, seven digits and their check digit, such as \
            020-12345675"
        }
        Err(AwbFault::Check) => "wrong check digit, expected the seven digits before it modulo 7",
    };
    Err(BadValue::Invalid("AWB", word, expected))
}

/// Returns the service at a port, for a number of connections.
fn read_serve<'a>(port: &'a str, count: Option<&'a str>) -> Result<LineCommand<'a>, BadValue<'a>>
    ensures means { IfOk result (Means (Request.Serve port.entry count.entry)) }
    ensures least { IfOk result (λ command. IsCalled command ⊥ ⊥) }
{
    let bad = BadValue::Invalid("--port", port, "expected a number from 1 to 65535");
    let port = read_port(port).ok_or(bad)?;
    let Some(count) = count else {
        return Ok(LineCommand::Serve { port, count: None });
    };
    let bad = BadValue::Invalid("--count", count, "expected a number from 1 to 4294967295");
    let count = Some(read_count(count).ok_or(bad)?);
    Ok(LineCommand::Serve { port, count })
}

/// Returns the unconfirmed messages: all, or those after a number.
fn read_outbox<'a>(after: Option<&'a str>, json: bool) -> Result<LineCommand<'a>, BadValue<'a>>
    ensures means { IfOk result (Means (Request.Outbox after.entry json)) }
    ensures called { IfOk result (λ command. IsCalled command ⊥ ⊥) }
{
    let Some(after) = after else {
        return Ok(LineCommand::Outbox(form_of(json)));
    };
    let number = read_row(after).ok_or(BadValue::Invalid("--after", after, ROW))?;
    Ok(LineCommand::Report(Listing::PendingAfter(number), form_of(json)))
}

fn read_command<'a>(
    request: Request<'a>,
    has_file: bool,
    has_airport: bool,
) -> Result<LineCommand<'a>, BadValue<'a>>
    ensures means { IfOk result (Means request.entry) }
    ensures called { IfOk result
        (λ command. IsCalled command (has_file ≡ true) (has_airport ≡ true)) }
{
    match request {
        Request::Init if has_file && has_airport => Ok(LineCommand::Init),
        Request::Init => Err(BadValue::Lacks("init needs --db FILE and --station AAA before it")),
        Request::Migrate if has_file => Ok(LineCommand::Migrate),
        Request::Migrate => Err(BadValue::Lacks("migrate needs --db FILE before it")),
        Request::Stock => Ok(LineCommand::Stock),
        Request::Take(files) => Ok(LineCommand::Take(files)),
        Request::Act(verb, key) => read_act(verb, key),
        Request::Acts => Ok(LineCommand::Acts),
        Request::Read(file) => Ok(LineCommand::Read(file)),
        Request::Outbox(after, json) => read_outbox(after, json),
        Request::Report(words) => {
            let listing = read_listing(words)?;
            Ok(LineCommand::Report(listing, form_of(words.json)))
        }
        Request::Station(json) => {
            Ok(LineCommand::Report(Listing::All(Report::Station), form_of(json)))
        }
        Request::Key(key, json) => read_kept(key, json),
        Request::History(word) => Ok(LineCommand::History(read_number(word)?)),
        Request::Waybill(word) => Ok(LineCommand::Waybill(read_number(word)?)),
        Request::Holder(word) => Ok(LineCommand::Holder(read_number(word)?)),
        Request::Serve(port, count) => read_serve(port, count),
    }
}

fn read_station<'a>(station: Option<&'a str>) -> Result<Option<Airport>, BadValue<'a>>
    ensures { IfOk result (IsStation (option_map (λ text. text.now) station.entry)) }
{
    let Some(station) = station else {
        return Ok(None);
    };
    let expected = "expected an airport: three letters, A to Z";
    let bad = BadValue::Invalid("--station", station, expected);
    Ok(Some(Airport::read(station.as_bytes()).ok_or(bad)?))
}

fn read_at<'a>(at: Option<&'a str>) -> Result<Option<u16>, BadValue<'a>>
    ensures { IfOk result (IsAt (option_map (λ text. text.now) at.entry)) }
{
    let Some(at) = at else {
        return Ok(None);
    };
    let bad = BadValue::Invalid("--at", at, "expected a port: a number from 1 to 65535");
    Ok(Some(read_port(at).ok_or(bad)?))
}

/// Returns whether a command can be sent to a running service. A command that needs no station can
/// be, too.
fn is_asked(command: &LineCommand<'_>) -> bool
    ensures { result ≡ is_asked command.now }
{
    !matches!(
        command,
        LineCommand::Init | LineCommand::Migrate | LineCommand::Serve { .. }
    )
}

fn has_own<'a>(words: &Words<'a>) -> bool
    ensures { result ≡ has_own words.now }
{
    words.options.db.is_some() || words.options.station.is_some() || words.options.zone.is_some()
}

fn rule_of<'a>(zone: Option<&'a str>) -> &'a str
    ensures { result.now ≡ rule_of (option_map (λ rule. rule.now) zone.entry) }
{
    match zone {
        Some(rule) => rule,
        None => "UTC0",
    }
}

/// Returns the command of a call that may ask a running service.
fn read_asked<'a>(
    words: Words<'a>,
    at: bool,
    has_airport: bool,
) -> Result<LineCommand<'a>, BadValue<'a>>
    ensures means { IfOk result (Means words.entry.request) }
    ensures called { IfOk result
        (λ command. IsCalled command (IsSome words.entry.options.db) (has_airport ≡ true)) }
    ensures asked { IfOk result
        (λ command. at ≡ true → (is_asked command ≡ true) × (has_own words.entry ≡ false)) }
{
    if at && has_own(&words) {
        return Err(BadValue::Beside);
    }
    match read_command(words.request, words.options.db.is_some(), has_airport) {
        Ok(command) => {
            if at && !is_asked(&command) {
                Err(BadValue::Beside)
            } else {
                Ok(command)
            }
        }
        Err(BadValue::Lacks(_)) if at => Err(BadValue::Beside),
        Err(bad) => Err(bad),
    }
}

/// Returns the command line of sorted words.
fn read_line<'a>(words: Words<'a>) -> Result<Line<'a>, BadValue<'a>>
    ensures whole { IfOk result IsLine }
    ensures meant { IfOk result (IsMeant words.entry) }
{
    let station = read_station(words.options.station)?;
    let at = read_at(words.options.at)?;
    let (db, zone) = (words.options.db, rule_of(words.options.zone));
    match read_asked(words, at.is_some(), station.is_some()) {
        Ok(command) => Ok(Line {
            db,
            at,
            station,
            zone,
            command,
        }),
        Err(bad) => Err(bad),
    }
}

/// Reads the words of a call; the first is the program's name.
///
/// # Errors
///
/// - [`WordsFault::Help`]: the words request the help, also on a refusal or a fault of a file by its
///   number, and on a verb.
/// - [`WordsFault::Version`]: the words request the version.
/// - [`WordsFault::Usage`]: the words aren't a command's, a key, number or option's value is bad, a
///   verb or name is unknown, an option is given twice, `init` lacks `--db` or `--station`,
///   `migrate` lacks `--db`, or `--at` is combined with an option or a command that excludes it.
///   The rule of a zone isn't tested.
/// - [`WordsFault::Memory`]: memory ran out.
pub fn parse_words<'a, S: AsStr>(alloc: Global, words: &'a [S]) -> Result<Line<'a>, WordsFault>
    ensures line { IfOk result IsLine }
    // The options before the command and its name are those of the line.
    ensures meant { IfOk result (λ line. (sorted : Words)
        × IsSorted (map S.text words.entry.now) sorted × IsMeant sorted line) }
{
    number_help(alloc, words)?;
    let words = sort_words(alloc, words)?;
    match read_line(words) {
        Ok(line) => Ok(line),
        Err(bad) => Err(value_fault(alloc, bad)),
    }
}
