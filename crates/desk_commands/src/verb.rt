//! The verbs of commands: the word of each, and its fields with their keys in a body.

ghost use Rattle.std.specs.Prelude.{◌≡◌, IfSome, option_map};
ghost use Rattle.desk_commands.specs.Common.{find};
ghost use Rattle.desk_commands.specs.Command.{is_word, kind_of, name, places, row, verb_called, word};
ghost use Rattle.desk_commands.specs.declared.verb.Verb.{Verb};

use Field::{
    Agent, Airline, Awb, Count, Counted, Date, DateIfAny, Destination, Flight, FlightIfAny, Goods,
    Name, Origin, Pieces, Prefix, Serial, Tenths, Unload, Upto,
};

/// The first word of a command's text.
#[derive(Clone, Copy, Debug, PartialEq, Eq)]
pub enum Verb {
    TakeIn,
    Issue,
    Return,
    Void,
    Book,
    Amend,
    Receive,
    Withdraw,
    Manifest,
    Offload,
    Reroute,
    Depart,
    CheckIn,
    Strike,
    Notify,
    Deliver,
    Transfer,
    Missing,
    Found,
    Confirm,
}

/// All verbs, in the order in which a desk names them.
pub const VERBS: [Verb; 20] = [
    Verb::TakeIn,
    Verb::Issue,
    Verb::Return,
    Verb::Void,
    Verb::Book,
    Verb::Amend,
    Verb::Receive,
    Verb::Withdraw,
    Verb::Manifest,
    Verb::Offload,
    Verb::Reroute,
    Verb::Depart,
    Verb::CheckIn,
    Verb::Strike,
    Verb::Notify,
    Verb::Deliver,
    Verb::Transfer,
    Verb::Missing,
    Verb::Found,
    Verb::Confirm,
];

impl Verb {
    /// Returns the verb if the whole text is its word.
    pub fn read(text: &[u8]) -> Option<Verb>
        ensures some { IfSome result (λ verb. word verb ≡ text.now) }
        ensures only { (verb : Verb) → word verb ≡ text.now → result ≡ Some verb }
    {
        Verb::of_word(text)
    }

    /// The verb's word.
    pub fn word(self) -> &'static str
        ensures { result.now ≡ word self }
    {
        match self {
            Verb::TakeIn => "take-in",
            Verb::Issue => "issue",
            Verb::Return => "return",
            Verb::Void => "void",
            Verb::Book => "book",
            Verb::Amend => "amend",
            Verb::Receive => "receive",
            Verb::Withdraw => "withdraw",
            Verb::Manifest => "manifest",
            Verb::Offload => "offload",
            Verb::Reroute => "reroute",
            Verb::Depart => "depart",
            Verb::CheckIn => "check-in",
            Verb::Strike => "strike",
            Verb::Notify => "notify",
            Verb::Deliver => "deliver",
            Verb::Transfer => "transfer",
            Verb::Missing => "missing",
            Verb::Found => "found",
            Verb::Confirm => "confirm",
        }
    }

    /// Returns the help on a verb: what it does, the fields of its body, an example, and its
    /// refusals in the order tested.
    pub fn about(self) -> &'static str {
        match self {
            Verb::TakeIn => TAKE_IN,
            Verb::Issue => ISSUE,
            Verb::Return => RETURN,
            Verb::Void => VOID,
            Verb::Book => BOOK,
            Verb::Amend => AMEND,
            Verb::Receive => RECEIVE,
            Verb::Withdraw => WITHDRAW,
            Verb::Manifest => MANIFEST,
            Verb::Offload => OFFLOAD,
            Verb::Reroute => REROUTE,
            Verb::Depart => DEPART,
            Verb::CheckIn => CHECK_IN,
            Verb::Strike => STRIKE,
            Verb::Notify => NOTIFY,
            Verb::Deliver => DELIVER,
            Verb::Transfer => TRANSFER,
            Verb::Missing => MISSING,
            Verb::Found => FOUND,
            Verb::Confirm => CONFIRM,
        }
    }

    /// The fields, in order.
    pub fn fields(self) -> &'static [Field]
        ensures { result.now ≡ row self }
    {
        match self {
            Verb::TakeIn | Verb::Void => &[Prefix, Serial, Count],
            Verb::Issue | Verb::Return => &[Prefix, Serial, Count, Agent],
            Verb::Book | Verb::Amend => &[Awb, Origin, Destination, Pieces, Tenths, Goods],
            Verb::Receive => &[Awb, Pieces, Tenths, Name],
            Verb::Withdraw => &[Awb, Pieces, Name],
            Verb::Manifest => &[Awb, Flight, Date, Unload, Pieces],
            Verb::Offload | Verb::Strike => &[Awb, Flight, Date, Pieces],
            Verb::Reroute => &[Flight, Date, Unload],
            Verb::Depart => &[Flight, Date],
            Verb::CheckIn => &[Awb, Flight, Date, Counted],
            Verb::Notify => &[Awb, Name],
            Verb::Deliver => &[Awb, Pieces, Name],
            Verb::Transfer => &[Awb, Pieces, Airline],
            Verb::Missing => &[Awb, Pieces, FlightIfAny, DateIfAny],
            Verb::Found => &[Awb, Pieces, Tenths, FlightIfAny, DateIfAny],
            Verb::Confirm => &[Upto],
        }
    }

    pub(crate) fn of_word(text: &[u8]) -> Option<Verb>
        ensures { result ≡ verb_called text.now }
    {
        match word_among(&VERBS, text) {
            Some(verb) => Some(*verb),
            None => None,
        }
    }
}

fn word_among<'a>(verbs: &'a [Verb], text: &[u8]) -> Option<&'a Verb>
    ensures { option_map (λ verb. verb.now) result ≡ find (is_word text.now) verbs.now }
{
    verbs.iter().find(|verb| is_word(**verb, text))
}

fn is_word(verb: Verb, text: &[u8]) -> bool
    ensures { result ≡ is_word text.now verb }
{
    verb.word().as_bytes() == text
}

/// A field of a command.
#[derive(Clone, Copy, PartialEq, Eq)]
pub enum Field {
    Prefix,
    Serial,
    Count,
    Agent,
    Awb,
    Origin,
    Destination,
    Pieces,
    Tenths,
    Goods,
    Name,
    Flight,
    Date,
    /// A flight that may be absent, together with its date.
    FlightIfAny,
    /// The date of a flight that may be absent.
    DateIfAny,
    Unload,
    Counted,
    Airline,
    Upto,
}

/// The kind of a field's value.
#[derive(Clone, Copy)]
pub(crate) enum Kind {
    Text,
    Number,
    Flight,
    FlightIfAny,
    TextIfAny,
}

impl Field {
    /// The key in a body of JSON.
    pub fn name(self) -> &'static str
        ensures { result.now ≡ name self }
    {
        match self {
            Field::Prefix => "prefix",
            Field::Serial => "serial",
            Field::Count => "count",
            Field::Agent => "agent",
            Field::Awb => "awb",
            Field::Origin => "origin",
            Field::Destination => "destination",
            Field::Pieces => "pieces",
            Field::Tenths => "tenths",
            Field::Goods => "goods",
            Field::Name => "name",
            Field::Flight | Field::FlightIfAny => "flight",
            Field::Date | Field::DateIfAny => "date",
            Field::Unload => "unload",
            Field::Counted => "counted",
            Field::Airline => "airline",
            Field::Upto => "upto",
        }
    }

    pub(crate) fn kind(self) -> Kind
        ensures { result ≡ kind_of self }
    {
        match self {
            Field::Count | Field::Pieces | Field::Tenths | Field::Counted | Field::Upto => {
                Kind::Number
            }
            Field::Flight => Kind::Flight,
            Field::FlightIfAny => Kind::FlightIfAny,
            Field::DateIfAny => Kind::TextIfAny,
            _ => Kind::Text,
        }
    }
}

pub(crate) fn places(verb: Verb) -> [Option<Field>; 6]
    ensures { result ≡ places verb }
{
    let row = verb.fields();
    [
        row.first().copied(),
        row.get(1).copied(),
        row.get(2).copied(),
        row.get(3).copied(),
        row.get(4).copied(),
        row.get(5).copied(),
    ]
}

const TAKE_IN: &str = "\
Adds numbers to the stock, at the desk
Fields: prefix, serial, count
Body: {\"prefix\":\"020\",\"serial\":\"1234567\",\"count\":10}
Refused: 105 the count isn't 1 to 1,000,000, or the run passes serial 9999999
         101 a number is already in stock";

const ISSUE: &str = "\
Issues numbers from the desk to an agent
Fields: prefix, serial, count, agent
Body: {\"prefix\":\"020\",\"serial\":\"1234570\",\"count\":3,\"agent\":\"ACME\"}
Refused: 105 the count isn't 1 to 1,000,000, or the run passes serial 9999999
         102 a number isn't at the desk";

const RETURN: &str = "\
Returns numbers from an agent to the desk
Fields: prefix, serial, count, agent
Body: {\"prefix\":\"020\",\"serial\":\"1234570\",\"count\":3,\"agent\":\"ACME\"}
Refused: 105 the count isn't 1 to 1,000,000, or the run passes serial 9999999
         103 a number isn't with that agent";

const VOID: &str = "\
Voids numbers that the desk or any agent holds
Fields: prefix, serial, count
Body: {\"prefix\":\"020\",\"serial\":\"1234567\",\"count\":1}
Refused: 105 the count isn't 1 to 1,000,000, or the run passes serial 9999999
         104 a number is used, void or not in stock";

const BOOK: &str = "\
Declares a waybill, or changes its declaration while it has no moves
Fields: awb, origin, destination, pieces, tenths, goods
Body: {\"awb\":\"020-12345675\",\"origin\":\"FRA\",\"destination\":\"JFK\",\"pieces\":10,\"tenths\":1000,\"goods\":\"CARGO\"}
Refused: 217 more than 9,999 pieces or 999,999 tenths
         202 it is already declared and has moves
         203 its number is at the desk, or void";

const AMEND: &str = "\
Changes the declaration of a waybill while all its pieces that came in are free
Fields: awb, origin, destination, pieces, tenths, goods
Body: {\"awb\":\"020-12345675\",\"origin\":\"FRA\",\"destination\":\"ORD\",\"pieces\":12,\"tenths\":1200,\"goods\":\"CARGO\"}
Refused: 201 unknown waybill
         204 pieces were taken over, and its origin would be here or no longer here
         217 more than 9,999 pieces or 999,999 tenths
         225 some of its pieces aren't free
         226 its free pieces don't fit the new pieces and weight";

const RECEIVE: &str = "\
Receives pieces of a waybill at its origin
Fields: awb, pieces, tenths, name
Body: {\"awb\":\"020-12345675\",\"pieces\":10,\"tenths\":1000,\"name\":\"ACME\"}
Refused: 201 unknown waybill
         204 its origin isn't here
         205 more received than declared
         217 more than 9,999 pieces or 999,999 tenths";

const WITHDRAW: &str = "\
Hands free pieces back to whoever brought them
Fields: awb, pieces, name
Body: {\"awb\":\"020-12345675\",\"pieces\":4,\"name\":\"ACME\"}
Refused: 201 unknown waybill
         204 its origin isn't here
         206 not enough free pieces
         223 more than was received";

const MANIFEST: &str = "\
Builds free pieces on a flight
Fields: awb, flight, date, unload, pieces
Body: {\"awb\":\"020-12345675\",\"flight\":\"LH400\",\"date\":\"2026-01-12\",\"unload\":\"JFK\",\"pieces\":4}
Refused: 201 unknown waybill
         204 the flight would be unloaded here
         208 the flight is closed
         218 the flight unloads elsewhere
         206 not enough free pieces
         219 the flight already has 500 waybills";

const OFFLOAD: &str = "\
Takes pieces off a flight that hasn't departed
Fields: awb, flight, date, pieces
Body: {\"awb\":\"020-12345675\",\"flight\":\"LH400\",\"date\":\"2026-01-12\",\"pieces\":1}
Refused: 201 unknown waybill
         208 the flight is closed
         207 not enough pieces of it on that flight";

const REROUTE: &str = "\
Changes where a flight with nothing on it unloads
Fields: flight, date, unload
Body: {\"flight\":\"LH400\",\"date\":\"2026-01-12\",\"unload\":\"ORD\"}
Refused: 221 no manifest has named that flight yet
         208 the flight is closed
         204 the flight would be unloaded here
         222 something is built on the flight";

const DEPART: &str = "\
Records that a flight left, with all that is built on it
Fields: flight, date
Body: {\"flight\":\"LH400\",\"date\":\"2026-01-12\"}
Refused: 208 the flight is closed
         209 nothing is on that flight";

const CHECK_IN: &str = "\
Checks in a waybill: counts the pieces that a flight brought
Fields: awb, flight, date, counted
Body: {\"awb\":\"020-12345675\",\"flight\":\"LH400\",\"date\":\"2026-01-12\",\"counted\":7}
Refused: 201 unknown waybill
         211 not expected on that flight
         212 already checked in, or struck
         217 more than 9,999 pieces or 999,999 tenths";

const STRIKE: &str = "\
Strikes pieces off what a flight should bring, because they were counted before
Fields: awb, flight, date, pieces
Body: {\"awb\":\"020-12345675\",\"flight\":\"LH400\",\"date\":\"2026-01-12\",\"pieces\":2}
Refused: 201 unknown waybill
         211 not expected on that flight
         212 already checked in, or struck
         224 not that many expected on that flight";

const NOTIFY: &str = "\
Notifies the consignee that pieces are ready
Fields: awb, name
Body: {\"awb\":\"020-12345675\",\"name\":\"BROWN\"}
Refused: 201 unknown waybill
         204 its destination isn't here
         206 no free pieces";

const DELIVER: &str = "\
Delivers free pieces to the consignee
Fields: awb, pieces, name
Body: {\"awb\":\"020-12345675\",\"pieces\":7,\"name\":\"BROWN\"}
Refused: 201 unknown waybill
         204 its destination isn't here
         210 not notified
         206 not enough free pieces";

const TRANSFER: &str = "\
Transfers free pieces to the airline that carries them on
Fields: awb, pieces, airline
Body: {\"awb\":\"020-12345675\",\"pieces\":4,\"airline\":\"BA\"}
Refused: 201 unknown waybill
         220 its destination is here
         206 not enough free pieces";

const MISSING: &str = "\
Reports free pieces as missing
Fields: awb, pieces, and both or neither of flight and date
Body: {\"awb\":\"020-12345675\",\"pieces\":1,\"flight\":\"LH400\",\"date\":\"2026-01-12\"}
Refused: 201 unknown waybill
         206 not enough free pieces";

const FOUND: &str = "\
Reports pieces as found: missing pieces first, the rest as surplus
Fields: awb, pieces, tenths, and both or neither of flight and date
Body: {\"awb\":\"020-12345675\",\"pieces\":1,\"tenths\":100,\"flight\":\"LH400\",\"date\":\"2026-01-12\"}
Refused: 201 unknown waybill
         217 more than 9,999 pieces or 999,999 tenths";

const CONFIRM: &str = "\
Confirms all messages up to a number
Fields: upto
Body: {\"upto\":3}
Refused: 401 below the last confirmed message, or above the last message";
