//! The texts of the help.

pub(crate) const DESK: (&str, &str) = (
    "The cargo desk of one air cargo station",
    "\
Exit status: 0 everything was accepted; 1 something was refused, a row or body was malformed, or a
number is unknown; 2 wrong usage; 3 the store, memory, the clock, a file, a socket, a stream or the
service that --at asks failed; 4 the file has no station that the command can use (601 to 603), or
already has one (604).
`fault 603 1`: the file is of version 1; `migrate` upgrades it to version 2.

Examples:
  cargo_desk --db fra.db --station FRA init
  cargo_desk --db fra.db stock < list.csv
  cargo_desk --db fra.db take telegram.txt
  cargo_desk --db fra.db acts < lines.txt
  cargo_desk --db fra.db --zone CET-1CEST,M3.5.0,M10.5.0/3 act issue k9 < body.json
  cargo_desk --db fra.db waybill 020-12345675
  cargo_desk --at 8080 act issue k9 < body.json

`cargo_desk COMMAND --help` explains a command, `cargo_desk help receive` a verb,
`cargo_desk help 203` a refusal, and `cargo_desk help 603` a fault.",
);

pub(crate) const DB: &str = "The station's file; without it, a new station in memory";

pub(crate) const AT: &str = "Asks the service that runs on this port, instead of a file";

pub(crate) const STATION: &str = "The airport of a new station, three letters; XXX by default";

pub(crate) const ZONE: &str = "The zone of local time, as a POSIX rule, such as the last line of \
    /usr/share/zoneinfo/Europe/Berlin; UTC0 by default";

pub(crate) const INIT: (&str, &str) = (
    "Makes a station in a file",
    "\
Needs --db and --station before it. Makes the file if it is missing, and prints `ok FRA`.

Example:
  cargo_desk --db fra.db --station FRA init",
);

pub(crate) const MIGRATE: (&str, &str) = (
    "Upgrades a file from version 1 to version 2",
    "\
Copy the file first. Needs --db before it; ignores --station. Prints `ok 2`. The whole file is
tested, and then changed in one step: whatever interrupts it, the file is whole, of version 1 or of
version 2. A file whose version isn't 1 stays as it is: `fault 603 2`, with its version.

Example:
  cargo_desk --db fra.db migrate",
);

pub(crate) const STOCK: (&str, &str) = (
    "Answers a stock list, CSV on standard input, row by row",
    "\
A row has six fields: key, verb (take-in, issue, return, void), prefix (3 digits), serial
(7 digits), count (1 to 7 digits), agent (empty for take-in and void). A malformed row is answered
`row N bad`; standard error says why, with its line.

Example:
  printf 'k1,take-in,020,1234567,10,\\nk2,issue,020,1234570,3,ACME\\n' | cargo_desk stock
prints
  k1 ok 10
  k2 ok 3",
);

pub(crate) const TAKE: (&str, &str) = (
    "Takes telegrams (FWB, FFM or FSU), one from each file",
    "\
Prints a line for each file, in the order of the files: `ok 10`, with the count, or the refusal, \
such
as `refused 301 4 ending`. If a telegram can't be read (301, 302), standard error says why. A file
that can't be read ends the call with `fault read`; the files before it are answered, those after it
are not taken.

Example:
  cargo_desk --db fra.db take telegram.txt
  cargo_desk --db fra.db take fwb-1.txt fwb-2.txt",
);

pub(crate) const FILES: &str = "The files of the telegrams";

pub(crate) const ACT: (&str, &str) = (
    "Runs one command, with its JSON body on standard input",
    "\
Every verb is also refused 501 if KEY was used for a different command, and 402 if the station is
full. `cargo_desk act VERB --help` explains the fields.

KEY is an idempotency key, 1 to 40 printable characters without spaces: a command that you send
again under the same key acts once. Prints `ok 3`, the refusal, such as `refused 102 020-12345723`,
or `body bad`; then standard error says why.

Example:
  echo '{\"prefix\":\"020\",\"serial\":\"1234570\",\"count\":3,\"agent\":\"ACME\"}' \
| cargo_desk act issue k2",
);

pub(crate) const ACTS: (&str, &str) = (
    "Runs commands and takes telegrams, one JSON object a line on standard input",
    "\
A line is a command, {\"verb\":\"void\",\"key\":\"r1\",\"body\":{..}}, with the body that `act` \
takes, or a
telegram, {\"telegram\":\"FWB/17\\r\\n..\"}. Each line is answered before the next one is run: \
a command
by its key and the answer of `act`, a telegram by `line N` and the answer of `take`. Any other \
line is
answered `line N bad`; standard error says why. Empty lines are skipped. A line has at most 69,632
bytes.

You can send the same lines again: a command acts once under its key, and so does a telegram.

Example:
  cargo_desk --db fra.db acts < lines.txt",
);

pub(crate) const FIELDS: &str = "\
The body has these fields, in any order, and no other. Texts: prefix, three digits; serial, seven;
agent, 1 to 11 upper-case letters or digits; awb, a waybill number with its check digit; origin,
destination and unload, airports; flight, such as LH400; date, from 2000-01-01 to 2099-12-31;
airline, such as BA; name, up to 35, and goods, up to 15 printable characters, without a space at \
the
end. Numbers: count, 0 to 9999999; pieces, 1 to 9999; counted, 0 to 9999; tenths of a kilogram, 0 to
99999990; upto, 0 to 4294967295.

It is also refused 501 if KEY was used for a different command, and 402 if the station is full.";

pub(crate) const KEY: &str =
    "An idempotency key, 1 to 40 printable characters without spaces: sent again, the command acts \
    once";

pub(crate) const OUTBOX: (&str, &str) = (
    "Prints the messages that you haven't confirmed",
    "\
Each follows a line with its number and length, such as `MESSAGE 4 74`; the last line is `END n`.

Example:
  cargo_desk outbox",
);

pub(crate) const JSON: &str = "Prints one JSON object, {\"rows\":[..],\"count\":n}";

pub(crate) const READ_FILE: &str = "The file of the telegram";

pub(crate) const READ: (&str, &str) = (
    "Shows what the desk would read of a telegram, and takes nothing",
    "\
A line for each line that is read, passed over or dropped in front. The status is 1 if a line is
doubtful: it is passed over, and looks like a consignment or another message. If the telegram can't
be read, the refusal is printed that `take` would give. No station is needed.

Example:
  cargo_desk read telegram.txt",
);

pub(crate) const REPORT: (&str, &str) = (
    "Prints a report",
    "\
The last line is `END n`, with the number of rows.

Examples:
  cargo_desk --db fra.db report announced
  cargo_desk --db fra.db report shed-days
  cargo_desk --db fra.db report flights --open
  cargo_desk --db fra.db report irregularities --open
  cargo_desk --db fra.db report stock --agent ACME
  cargo_desk --db fra.db report movements --awb 020-12345675
  cargo_desk --db fra.db report movements --after 120 --json
  cargo_desk --db fra.db report trail --last 20
  cargo_desk --db fra.db report sent --awb 020-12345675
  cargo_desk --db fra.db report manifest LH400/2026-01-12
  cargo_desk --db fra.db report arrivals LH401/2026-01-12",
);

pub(crate) const OPEN: &str =
    "flights: those that haven't departed; expected: what isn't checked in; irregularities: those \
    that don't even out";

pub(crate) const AGENT: &str = "stock: the numbers that this agent has";

pub(crate) const OF_AWB: &str = "movements, trail, sent: the rows of this waybill";

pub(crate) const AFTER: &str = "movements, trail, sent: the rows after number N";

pub(crate) const MESSAGES_AFTER: &str = "The messages after number N";

pub(crate) const LAST: &str = "movements, trail: the last N rows";

pub(crate) const FLIGHT: &str =
    "manifest, arrivals: the flight and its day, such as LH400/2026-01-12";

pub(crate) const REPORT_NAMES: &str =
    "stock, announced, shed, shed-days, flights, expected, irregularities, irregularity-days, \
    movements, trail, sent, station, manifest or arrivals";

pub(crate) const AWB: &str = "A waybill number with its check digit, such as 020-12345675";

pub(crate) const HISTORY: (&str, &str) = (
    "Prints what is known of a waybill, its moves, its trail and what was sent",
    "\
First the line of `waybill`, then the moves, the lines of the status messages that arrived, and the
status messages that were sent, each list with its `END n`; or `unknown`, with status 1, if the
waybill isn't declared.

Example:
  cargo_desk --db fra.db history 020-12345675",
);

pub(crate) const WAYBILL: (&str, &str) = (
    "Prints what is known of a waybill",
    "\
One line: the JSON object that GET /v1/waybills/AWB returns; or `unknown`, with status 1, if the
waybill isn't declared.

Example:
  cargo_desk --db fra.db waybill 020-12345675",
);

pub(crate) const HOLDER: (&str, &str) = (
    "Prints who holds a number",
    "\
One line: the JSON object that GET /v1/stock/AWB returns; or `unknown`, with status 1, if the number
isn't in stock.

Example:
  cargo_desk --db fra.db holder 020-12345675",
);

pub(crate) const GLANCE: (&str, &str) = (
    "Prints the airport, the numbers of the last move, trail line and message, and the versions",
    "\
The same as `report station`, one line and `END 1`:
`FRA moves 3 trail 0 messages 4 confirmed 3 program 1.0.0 files 2`.

Example:
  cargo_desk --db fra.db station",
);

pub(crate) const KEPT: (&str, &str) = (
    "Prints the command that was accepted under a key",
    "\
The key, the count of the answer and the command, such as `k2 3 issue 020 1234570 3 ACME`, and
`END 1`; or `END 0` if nothing was accepted under the key.

Example:
  cargo_desk --db fra.db key k2",
);

pub(crate) const KEPT_KEY: &str = "The key of a command, 1 to 40 printable characters";

pub(crate) const SERVE: (&str, &str) = (
    "Serves HTTP on 127.0.0.1, one request after another",
    "\
Prints `listening` once it accepts connections, of which it holds up to 256. With --count it exits
after K connections.

Example:
  cargo_desk serve --port 8080 --count 1",
);

pub(crate) const PORT: &str = "The port, 1 to 65535";

pub(crate) const COUNT: &str = "How many connections to serve, 1 to 4294967295";
