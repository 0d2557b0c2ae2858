//! The commands of the program, and the words of each.

use crate::help;

/// The kind of a word.
#[derive(Clone, Copy)]
pub(crate) enum Given {
    /// Positional and required.
    Always,
    /// Positional, once or more.
    Repeatedly,
    /// Positional and optional.
    Optionally,
    /// An option with a value, at most once. The help uses this name for the value.
    Option(&'static str),
    /// The same, but required.
    NeededOption(&'static str),
    /// An option without a value.
    Flag,
}

/// A word of a command or an option: its name, how it is given, and its help.
#[derive(Clone, Copy)]
pub(crate) struct Word(
    pub(crate) &'static str,
    pub(crate) Given,
    pub(crate) &'static str,
);

/// The arguments of a command.
#[derive(Clone, Copy)]
pub(crate) enum Takes {
    /// Words.
    Words(&'static [Word]),
    /// A verb and a key.
    Verb,
}

/// A command: its name, its help in a line and in full, and its arguments.
#[derive(Clone, Copy)]
pub(crate) struct CommandWords(
    pub(crate) &'static str,
    pub(crate) (&'static str, &'static str),
    pub(crate) Takes,
);

pub(crate) const OPTIONS: [Word; 4] = [
    Word("db", Given::Option("FILE"), help::DB),
    Word("at", Given::Option("PORT"), help::AT),
    Word("station", Given::Option("AAA"), help::STATION),
    Word("zone", Given::Option("RULE"), help::ZONE),
];

pub(crate) const KEY: [Word; 1] = [Word("KEY", Given::Always, help::KEY)];

const LOOK_UP: [Word; 1] = [Word("AWB", Given::Always, help::AWB)];

/// The flag of a command that prints rows.
const AS_JSON: Word = Word("json", Given::Flag, help::JSON);

/// The words of `report`.
const REPORT: [Word; 8] = [
    Word("NAME", Given::Always, help::REPORT_NAMES),
    Word("FLIGHT", Given::Optionally, help::FLIGHT),
    Word("open", Given::Flag, help::OPEN),
    Word("agent", Given::Option("CODE"), help::AGENT),
    Word("awb", Given::Option("AWB"), help::OF_AWB),
    Word("after", Given::Option("N"), help::AFTER),
    Word("last", Given::Option("N"), help::LAST),
    AS_JSON,
];

const TAKE: [Word; 1] = [Word("FILE", Given::Repeatedly, help::FILES)];

const READ: [Word; 1] = [Word("FILE", Given::Always, help::READ_FILE)];

const OUTBOX: [Word; 2] = [
    Word("after", Given::Option("N"), help::MESSAGES_AFTER),
    AS_JSON,
];

const KEPT: [Word; 2] = [Word("KEY", Given::Always, help::KEPT_KEY), AS_JSON];

const SERVE: [Word; 2] = [
    Word("port", Given::NeededOption("N"), help::PORT),
    Word("count", Given::Option("K"), help::COUNT),
];

/// The commands, in the order of the help.
pub(crate) const COMMANDS: [CommandWords; 15] = [
    CommandWords("init", help::INIT, Takes::Words(&[])),
    CommandWords("migrate", help::MIGRATE, Takes::Words(&[])),
    CommandWords("stock", help::STOCK, Takes::Words(&[])),
    CommandWords("take", help::TAKE, Takes::Words(&TAKE)),
    CommandWords("read", help::READ, Takes::Words(&READ)),
    CommandWords("act", help::ACT, Takes::Verb),
    CommandWords("acts", help::ACTS, Takes::Words(&[])),
    CommandWords("outbox", help::OUTBOX, Takes::Words(&OUTBOX)),
    CommandWords("report", help::REPORT, Takes::Words(&REPORT)),
    CommandWords("station", help::GLANCE, Takes::Words(&[AS_JSON])),
    CommandWords("waybill", help::WAYBILL, Takes::Words(&LOOK_UP)),
    CommandWords("holder", help::HOLDER, Takes::Words(&LOOK_UP)),
    CommandWords("history", help::HISTORY, Takes::Words(&LOOK_UP)),
    CommandWords("key", help::KEPT, Takes::Words(&KEPT)),
    CommandWords("serve", help::SERVE, Takes::Words(&SERVE)),
];
