ghost use Rattle.std.specs.Prelude.{◌≡◌, ◌↔◌, IsTrue, IsSome, IfSome, Some, true};
ghost use Rattle.std.specs.List.{list_all};
ghost use Rattle.awb_number.specs.Number.{is_letter_or_digit};
ghost use Rattle.agent_stock.specs.Fields.{is_agent_code, IsRunCount};
ghost use Rattle.agent_stock.specs.Stock.{is_run, passes, holder_text};

use awb_number::{Awb, SERIALS, ascii_text};
use std::fmt;
use std::marker::Model;

/// The length of the longest agent's code.
const LONGEST: usize = 11;

/// An agent, by its code of 1 to 11 upper-case letters or digits. Contracts see it as that text.
#[derive(Clone, Copy, PartialEq, Eq)]
pub struct AgentCode {
    // Zeros pad the code.
    bytes: [u8; LONGEST],
    len: usize,
}

impl Model for AgentCode {
    ghost use Rattle.std.specs.Prelude.{ℕ, List, take, length, IsTrue};
    ghost use Rattle.awb_number.specs.FilledUp.{IsFilledUp, filled_up};
    ghost use Rattle.awb_number.proofs.FilledUp.{filled_up-take, length-filled};
    ghost use Rattle.agent_stock.specs.Fields.{is_agent_code};

    ghost Value = { List ℕ };

    ghost view = { λ a. take a.len a.bytes };

    ghost invariant = { λ a. IsFilledUp 11 a.len a.bytes
        × IsTrue (is_agent_code (take a.len a.bytes)) };

    ghost inverse = { λ text. record { bytes = filled_up 11 text; len = length text } };

    ghost inverse_ok = { λ a h i. record {
      bytes = filled_up-take 11 a.len a.bytes h.0 i;
      len = length-filled 11 a.len a.bytes h.0 i;
    } };
}

fn are_letters_or_digits(text: &[u8]) -> bool
    ensures { result ≡ list_all is_letter_or_digit text.now }
{
    text.iter()
        .all(|b| b.is_ascii_uppercase() || b.is_ascii_digit())
}

fn is_code(text: &[u8]) -> bool
    ensures { result ≡ is_agent_code text.now }
{
    1 <= text.len() && text.len() <= LONGEST && are_letters_or_digits(text)
}

impl AgentCode {
    /// Returns the code if the text is one.
    pub fn read(text: &[u8]) -> Option<AgentCode>
        ensures valid { IsSome result ↔ IsTrue (is_agent_code text.now) }
        ensures value { IfSome result (λ code. code ≡ text.now) }
    {
        if !is_code(text) {
            return None;
        }
        let mut bytes = [0; LONGEST];
        let len = text.len();
        bytes[..len].copy_from_slice(text);
        Some(AgentCode { bytes, len })
    }

    /// The code's bytes.
    pub fn as_bytes(&self) -> &[u8]
        ensures value { result.now ≡ self.now }
        ensures valid { IsTrue (is_agent_code self.now) }
    {
        &self.bytes[..self.len]
    }

    /// The code as a text.
    pub fn as_str(&self) -> &str
        ensures value { result.now ≡ self.now }
        ensures valid { IsTrue (is_agent_code self.now) }
    {
        ascii_text(self.as_bytes())
    }
}

impl fmt::Display for AgentCode {
    ghost output = { λ code. Some code };

    fn fmt<W: fmt::Write>(&self, f: &mut fmt::Formatter<W>) -> fmt::Result {
        f.write_str(self.as_str())
    }
}

/// The largest number of waybill numbers in an order.
const LARGEST_RUN: u32 = 1_000_000;

/// The holder of a waybill number in stock.
#[derive(Clone, Copy, PartialEq, Eq)]
pub enum Holder {
    /// The station's own desk.
    Desk,
    /// An agent to whom the number was issued.
    Agent(AgentCode),
    /// A waybill was declared with the number.
    Used,
    /// The number must never be used.
    Void,
}

impl Holder {
    /// Returns whether both are the same holder.
    pub fn is_same(&self, other: &Holder) -> bool
        ensures { IsTrue result ↔ (self.now ≡ other.now) }
    {
        match (self, other) {
            (Holder::Desk, Holder::Desk) => true,
            (Holder::Agent(code), Holder::Agent(other)) => code.as_bytes() == other.as_bytes(),
            (Holder::Used, Holder::Used) => true,
            (Holder::Void, Holder::Void) => true,
            _ => false,
        }
    }
}

/// Written like `DESK` or `AGENT ACME`.
impl fmt::Display for Holder {
    ghost output = { λ holder. Some (holder_text holder) };

    fn fmt<W: fmt::Write>(&self, f: &mut fmt::Formatter<W>) -> fmt::Result {
        match self {
            Holder::Desk => f.write_str("DESK"),
            Holder::Agent(code) => write!(f, "AGENT {code}"),
            Holder::Used => f.write_str("USED"),
            Holder::Void => f.write_str("VOID"),
        }
    }
}

/// The largest count that an order can have.
const LARGEST_COUNT: u32 = 9_999_999;

/// The count of an order, 0 to 9,999,999: at most seven digits. [`Run::is_run`] tests whether that
/// many numbers can be ordered.
#[derive(Clone, Copy, Debug, PartialEq, Eq, PartialOrd, Ord)]
pub struct RunCount {
    number: u32,
}

impl Model for RunCount {
    ghost use Rattle.std.specs.Prelude.{ℕ};
    ghost use Rattle.agent_stock.specs.Fields.{IsRunCount};

    ghost Value = { ℕ };

    ghost view = { λ c. c.number };

    ghost invariant = { λ c. IsRunCount c.number };

    ghost inverse = { λ n. record { number = n } };
}

impl RunCount {
    /// Returns the count if the number is at most 9,999,999.
    pub fn new(number: u32) -> Option<RunCount>
        ensures in_range { IsSome result ↔ IsRunCount number }
        ensures value { IfSome result (λ c. c ≡ number) }
    {
        if number <= LARGEST_COUNT {
            Some(RunCount { number })
        } else {
            None
        }
    }

    /// The number, 0 to 9,999,999.
    pub fn number(self) -> u32
        ensures value { result ≡ self }
        ensures in_range { IsRunCount result }
    {
        self.number
    }
}

/// Consecutive numbers: the first, and their count. A run may be too long for an order, and end
/// after its prefix.
#[derive(Clone, Copy, Debug, PartialEq, Eq)]
pub struct Run {
    pub first: Awb,
    pub count: RunCount,
}

impl Run {
    /// Returns the run of one number.
    pub fn of_one(number: Awb) -> Run
        ensures value { result ≡ record { first = number; count = 1 } }
        ensures is_run { is_run result ≡ true }
    {
        Run {
            first: number,
            count: RunCount { number: 1 },
        }
    }

    /// Returns whether the run has 1 to 1,000,000 numbers and stays within its prefix.
    pub fn is_run(&self) -> bool
        ensures { result ≡ is_run self.now }
    {
        let count = self.count.number();
        count > 0 && count <= LARGEST_RUN && count <= SERIALS - self.first.serial()
    }
}

/// A test of the holder of each number in a run.
#[derive(Clone, Copy)]
pub enum Test {
    /// The number isn't in stock.
    Absent,
    /// The desk has it.
    Desk,
    /// This agent has it.
    With(AgentCode),
    /// The desk or any agent has it.
    DeskOrAgent,
}

impl Test {
    /// Returns whether an optional holder passes.
    pub fn passes(&self, holder: &Option<Holder>) -> bool
        ensures { result ≡ passes self.now holder.now }
    {
        match (self, holder) {
            (Test::Absent, None) => true,
            (Test::Desk, Some(Holder::Desk)) => true,
            (Test::With(code), Some(Holder::Agent(other))) => code.as_bytes() == other.as_bytes(),
            (Test::DeskOrAgent, Some(Holder::Desk | Holder::Agent(_))) => true,
            _ => false,
        }
    }
}

/// An order on a run of numbers.
#[derive(Clone, Copy, PartialEq, Eq)]
pub enum Order {
    /// Numbers that aren't in stock go to the desk.
    TakeIn(Run),
    /// Numbers of the desk go to an agent.
    Issue(Run, AgentCode),
    /// Numbers of an agent are returned to the desk.
    GiveBack(Run, AgentCode),
    /// Numbers of the desk or of agents become void.
    Void(Run),
}

/// The reason why an order wasn't carried out.
#[derive(Clone, Copy)]
pub enum StockFault<F> {
    /// Nothing changed. The refusal's number, and the lowest number of the run that fails: 101
    /// already in stock, 102 not at the desk, 103 not with that agent, 104 used, void or not in
    /// stock. 105 has no number: the count isn't 1 to 1,000,000, or the run ends after its prefix.
    Refused(u16, Option<Awb>),
    /// The rows failed. There is no guarantee about what they hold.
    Rows(F),
}
