//! The words, sorted: the options before the command, and what `clap` finds in the others. Values
//! aren't read here.

ghost use Rattle.std.specs.Prelude.{◌≡◌, ◌++◌, ◌∷◌, IfOk, IfSome, map};
ghost use Rattle.cli_words.specs.Sorted.{command_name, option_texts, BeginsWith, IsGiven, IsSorted};

use crate::commands::{COMMANDS, CommandWords, Given, KEY, OPTIONS, Takes, Word};
use crate::fault::{WordsFault, usage_fault};
use crate::help;
use clap::error::ErrorKind;
use clap::{Arg, ArgAction, ArgMatches, Command, Error};
use desk_commands::{VERBS, Verb};
use reports::program_version;
use std::alloc::{AllocError, Global};
use std::convert::AsStr;

/// The request of a call: its command and the command's words.
#[derive(Drop)]
pub(crate) enum Request<'a> {
    Init,
    Migrate,
    Stock,
    Take(Vec<&'a str>),
    /// A verb and a key.
    Act(&'a str, &'a str),
    Acts,
    Read(&'a str),
    /// The number of `--after`, and whether the rows are printed as JSON.
    Outbox(Option<&'a str>, bool),
    Report(ReportWords<'a>),
    /// Whether the row is printed as JSON.
    Station(bool),
    /// A key, and whether its row is printed as JSON.
    Key(&'a str, bool),
    History(&'a str),
    Waybill(&'a str),
    Holder(&'a str),
    /// A port and a count of connections.
    Serve(&'a str, Option<&'a str>),
}

/// The words of `report`: the name, the flight of a manifest, and the requested part of the report.
#[derive(Clone, Copy)]
pub(crate) struct ReportWords<'a> {
    pub(crate) name: &'a str,
    pub(crate) flight: Option<&'a str>,
    pub(crate) open: bool,
    pub(crate) agent: Option<&'a str>,
    pub(crate) awb: Option<&'a str>,
    pub(crate) after: Option<&'a str>,
    pub(crate) last: Option<&'a str>,
    pub(crate) json: bool,
}

/// The values of the options before the command.
#[derive(Clone, Copy)]
pub(crate) struct OptionWords<'a> {
    pub(crate) db: Option<&'a str>,
    pub(crate) at: Option<&'a str>,
    pub(crate) station: Option<&'a str>,
    pub(crate) zone: Option<&'a str>,
}

/// The words of a call, sorted.
#[derive(Drop)]
pub(crate) struct Words<'a> {
    pub(crate) options: OptionWords<'a>,
    pub(crate) request: Request<'a>,
}

const NO_OPTIONS: OptionWords<'static> = OptionWords {
    db: None,
    at: None,
    station: None,
    zone: None,
};

impl<'a> OptionWords<'a> {
    /// Returns the options with another one, or `None` if there is no such option, or it already has
    /// a value.
    fn with(mut self, name: &str, value: &'a str) -> Option<OptionWords<'a>>
        ensures { IfSome result (λ options. IsGiven (option_texts self.entry) name.now value.entry.now
            (option_texts options)) }
    {
        let value = Some(value);
        match name {
            "--db" if self.db.is_none() => self.db = value,
            "--at" if self.at.is_none() => self.at = value,
            "--station" if self.station.is_none() => self.station = value,
            "--zone" if self.zone.is_none() => self.zone = value,
            _ => return None,
        }
        Some(self)
    }
}

/// Returns the name and the value of an option in one word, such as `--db=fra.db`.
fn name_and_value(word: &str) -> Option<(&str, &str)>
    ensures { IfSome result (λ found. word.now ≡ found.0.now ++ 61 ∷ found.1.now) }
{
    word.split_once("=")
}

/// Returns the options at the start of words, beside those before, and the name of the command after
/// them.
fn begins_with<'a, S: AsStr>(
    options: OptionWords<'a>,
    words: &'a [S],
) -> Option<(OptionWords<'a>, &'a str)>
    ensures { IfSome result (λ found. BeginsWith (option_texts options.entry)
        (map S.text words.entry.now) (option_texts found.0) found.1.now) }
{
    let (word, rest) = words.split_first()?;
    let word = word.as_str();
    if !word.starts_with("--") {
        return Some((options, word));
    }
    if let Some((name, value)) = name_and_value(word) {
        return begins_with(options.with(name, value)?, rest);
    }
    let (value, rest) = rest.split_first()?;
    begins_with(options.with(word, value.as_str())?, rest)
}

/// Returns a word of a command as an argument of `clap`.
fn arg_of<'a>(alloc: Global, word: &Word) -> Arg<'a> {
    let Word(name, given, help) = *word;
    let arg = Arg::new(alloc, name).help(help).action(ArgAction::Set);
    match given {
        Given::Always => arg.required(true),
        Given::Repeatedly => arg.required(true).num_args(1..),
        Given::Optionally => arg,
        Given::Option(value) => arg.long(name).value_name(value),
        Given::NeededOption(value) => arg.long(name).value_name(value).required(true),
        Given::Flag => arg.long(name).action(ArgAction::SetTrue),
    }
}

fn with_words<'a>(
    alloc: Global,
    mut command: Command<'a>,
    words: &[Word],
) -> Result<Command<'a>, AllocError> {
    for word in words {
        command = command.arg(arg_of(alloc, word))?;
    }
    Ok(command)
}

/// Returns a command without words of its own.
fn bare<'a>(
    alloc: Global,
    name: &'static str,
    (about, examples): (&'static str, &'static str),
) -> Command<'a> {
    Command::new(alloc, name).about(about).after_help(examples)
}

fn verb_command<'a>(alloc: Global, verb: Verb) -> Result<Command<'a>, AllocError> {
    let command = bare(alloc, verb.word(), (verb.about(), help::FIELDS));
    with_words(alloc, command, &KEY)
}

fn with_verbs<'a>(alloc: Global, command: Command<'a>) -> Result<Command<'a>, AllocError> {
    let mut command = command
        .override_usage("cargo_desk act <VERB> <KEY>")
        .subcommand_help_heading("Verbs")
        .subcommand_required(true)
        .disable_help_subcommand(true);
    for verb in VERBS {
        command = command.subcommand(verb_command(alloc, verb)?)?;
    }
    Ok(command)
}

/// Returns a command of the program as one of `clap`.
fn command_of<'a>(alloc: Global, words: &CommandWords) -> Result<Command<'a>, AllocError> {
    let CommandWords(name, help, takes) = *words;
    let command = bare(alloc, name, help);
    match takes {
        Takes::Words(words) => with_words(alloc, command, words),
        Takes::Verb => with_verbs(alloc, command),
    }
}

fn desk<'a>(alloc: Global) -> Result<Command<'a>, AllocError> {
    let desk = bare(alloc, "cargo_desk", help::DESK)
        .version(program_version())
        .subcommand_required(true);
    let mut desk = with_words(alloc, desk, &OPTIONS)?;
    for words in COMMANDS {
        desk = desk.subcommand(command_of(alloc, &words)?)?;
    }
    Ok(desk)
}

fn files_of<'a>(alloc: Global, words: &ArgMatches<'a>) -> Result<Vec<&'a str>, AllocError> {
    let mut files = Vec::new(alloc);
    if let Some(words) = words.get_strs("FILE") {
        for file in words {
            files.push(*file)?;
        }
    }
    Ok(files)
}

/// Returns the words of `report`.
fn report_words<'a>(words: &ArgMatches<'a>) -> Option<ReportWords<'a>> {
    Some(ReportWords {
        name: words.get_str("NAME")?,
        flight: words.get_str("FLIGHT"),
        open: words.get_flag("open"),
        agent: words.get_str("agent"),
        awb: words.get_str("awb"),
        after: words.get_str("after"),
        last: words.get_str("last"),
        json: words.get_flag("json"),
    })
}

/// Returns the request of a command without files.
fn asked<'a>(name: &str, words: &ArgMatches<'a>) -> Option<Request<'a>>
    ensures { IfSome result (λ request. command_name request ≡ name.now) }
{
    match name {
        "init" => Some(Request::Init),
        "migrate" => Some(Request::Migrate),
        "stock" => Some(Request::Stock),
        "act" => {
            let (verb, words) = words.subcommand()?;
            Some(Request::Act(verb, words.get_str("KEY")?))
        }
        "acts" => Some(Request::Acts),
        "read" => Some(Request::Read(words.get_str("FILE")?)),
        "outbox" => Some(Request::Outbox(words.get_str("after"), words.get_flag("json"))),
        "report" => Some(Request::Report(report_words(words)?)),
        "station" => Some(Request::Station(words.get_flag("json"))),
        "key" => Some(Request::Key(words.get_str("KEY")?, words.get_flag("json"))),
        "history" => Some(Request::History(words.get_str("AWB")?)),
        "waybill" => Some(Request::Waybill(words.get_str("AWB")?)),
        "holder" => Some(Request::Holder(words.get_str("AWB")?)),
        "serve" => Some(Request::Serve(words.get_str("port")?, words.get_str("count"))),
        _ => None,
    }
}

/// Returns the request of a command.
fn requested<'a>(
    alloc: Global,
    name: &str,
    words: &ArgMatches<'a>,
) -> Result<Option<Request<'a>>, AllocError>
    ensures { IfOk result (λ found. IfSome found (λ request. command_name request ≡ name.now)) }
{
    if name == "take" {
        return Ok(Some(Request::Take(files_of(alloc, words)?)));
    }
    Ok(asked(name, words))
}

/// Returns the words of a call, sorted, in which `clap` found these.
fn sorted<'a, S: AsStr>(
    alloc: Global,
    words: &'a [S],
    matches: &ArgMatches<'a>,
) -> Result<Option<Words<'a>>, AllocError>
    ensures { IfOk result (λ found. IfSome found (IsSorted (map S.text words.entry.now))) }
{
    let Some((_program, behind)) = words.split_first() else {
        return Ok(None);
    };
    let Some((options, name)) = begins_with(NO_OPTIONS, behind) else {
        return Ok(None);
    };
    let Some((_, own)) = matches.subcommand() else {
        return Ok(None);
    };
    match requested(alloc, name, own)? {
        Some(request) => Ok(Some(Words { options, request })),
        None => Ok(None),
    }
}

/// Returns the message for an option after its command, which `clap` reports as an unexpected word.
fn late_option(told: &str) -> Option<&'static str> {
    let told = told.strip_prefix("error: unexpected argument '--")?;
    let (name, _) = told.split_once('\'')?;
    match name {
        "db" => Some("--db stands before the command"),
        "at" => Some("--at stands before the command"),
        "station" => Some("--station stands before the command"),
        "zone" => Some("--zone stands before the command"),
        _ => None,
    }
}

/// Returns the fault for words that `clap` refused, with its text.
fn words_fault(alloc: Global, error: &Error) -> Result<WordsFault, AllocError> {
    match error.kind() {
        ErrorKind::OutOfMemory => return Err(AllocError),
        ErrorKind::DisplayVersion => return Ok(WordsFault::Version),
        _ => {}
    }
    let text = format!(in alloc; "{error}")?;
    if error.kind() == ErrorKind::DisplayHelp {
        return Ok(WordsFault::Help(text));
    }
    Ok(match late_option(text.as_str()) {
        Some(told) => usage_fault(alloc, told),
        None => WordsFault::Usage(text),
    })
}

/// Returns the help on a verb.
pub(crate) fn verb_help(alloc: Global, verb: Verb) -> WordsFault {
    match sort_words(alloc, &["cargo_desk", "act", verb.word(), "--help"]) {
        Ok(_) => usage_fault(alloc, "no help on the verb"),
        Err(fault) => fault,
    }
}

/// Sorts the words of a call; the first is the program's name.
pub(crate) fn sort_words<'a, S: AsStr>(
    alloc: Global,
    words: &'a [S],
) -> Result<Words<'a>, WordsFault>
    ensures { IfOk result (IsSorted (map S.text words.entry.now)) }
{
    match desk(alloc)?.try_get_matches_from(words) {
        Ok(matches) => match sorted(alloc, words, &matches)? {
            Some(words) => Ok(words),
            None => Err(WordsFault::Usage(String::new(alloc))),
        },
        Err(error) => Err(words_fault(alloc, &error)?),
    }
}
