ghost use Rattle.std.specs.Prelude.{Some};
ghost use Rattle.shipment_machine.specs.Effect.{detail_text, refusal_text};

use crate::flight::FlightDate;
use crate::moves::{Declared, Expected, Move, Outbound, Part};
use crate::notice::Notice;
use crate::trail::TrailLine;
use awb_number::Awb;
use imp_fields::Why;
use std::alloc::{AllocError, AllocFailed};
use std::fmt;

/// The subject of a refusal.
#[derive(Clone, Copy, PartialEq, Eq)]
pub enum Detail {
    Nothing,
    Waybill(Awb),
    /// The number of free pieces.
    Pieces(u16),
    Flight(FlightDate),
    Part(Part),
    /// A line of a telegram, and its fault.
    Line { line: u16, why: Why },
    /// The numbers of the last confirmed message and the last message.
    Messages { confirmed: u32, last: u32 },
}

/// Written as `020-12345723`, the free pieces, `LH400/2026-01-12`, `LH400/2026-01-12/FRA/1`, line
/// and word such as `4 ending`, the last confirmed and the last message such as `3 4`, or an empty
/// text.
impl fmt::Display for Detail {
    ghost output = { λ detail. Some (detail_text detail) };

    fn fmt<W: fmt::Write>(&self, f: &mut fmt::Formatter<W>) -> fmt::Result {
        match self {
            Detail::Nothing => Ok(()),
            Detail::Waybill(number) => write!(f, "{number}"),
            Detail::Pieces(pieces) => write!(f, "{pieces}"),
            Detail::Flight(flight) => write!(f, "{flight}"),
            Detail::Part(part) => {
                let number = part.number.number();
                write!(f, "{}/{}/{number}", part.flight, part.airport)
            }
            Detail::Line { line, why } => write!(f, "{line} {why}"),
            Detail::Messages { confirmed, last } => write!(f, "{confirmed} {last}"),
        }
    }
}

/// The refusal of a command: a number of the station's list, and its subject.
#[derive(Clone, Copy, PartialEq, Eq)]
pub struct Refusal {
    pub number: u16,
    pub detail: Detail,
}

/// Written like `refused 102 020-12345723`, or without a detail like `refused 501`.
impl fmt::Display for Refusal {
    ghost output = { λ refusal. Some (refusal_text refusal) };

    fn fmt<W: fmt::Write>(&self, f: &mut fmt::Formatter<W>) -> fmt::Result {
        match &self.detail {
            Detail::Nothing => write!(f, "refused {}", self.number),
            detail => write!(f, "refused {} {detail}", self.number),
        }
    }
}

/// A row to write.
#[derive(Drop)]
pub enum Change<'a> {
    /// Sets the declaration of a waybill.
    Declare {
        awb: Awb,
        declared: Declared,
    },
    /// Marks an agent's number as used.
    UseUp {
        awb: Awb,
    },
    /// Sets the note of an outbound flight.
    NoteFlight {
        flight: FlightDate,
        outbound: Outbound,
    },
    /// Sets the expectation of a waybill on a flight.
    Expect {
        flight: FlightDate,
        awb: Awb,
        expected: Expected,
    },
    /// Notes that the current telegram is this part.
    NotePart {
        part: Part,
    },
    /// Adds a line to the trail of a waybill.
    Trail {
        awb: Awb,
        line: TrailLine<'a>,
    },
    /// Confirms the messages up to this one.
    Confirm {
        upto: u32,
    },
}

/// The effect of a command.
#[derive(Drop)]
pub struct Plan<'a> {
    /// The moves to add to the book, in order.
    pub moves: Vec<Move>,
    /// The messages to send, in order.
    pub notices: Vec<Notice>,
    /// The rows to write, in order.
    pub changes: Vec<Change<'a>>,
    /// The number in the reply.
    pub count: u32,
}

/// The reason why there is no plan.
#[derive(Clone, Copy)]
pub enum PlanFault {
    Refused(Refusal),
    /// Memory ran out. There is no guarantee about the command.
    Memory,
    /// No lawful state has this view for the command.
    Unfit,
}

impl From<AllocError> for PlanFault {
    ghost use Rattle.std.specs.Prelude.{◌≡◌};
    ghost use Rattle.shipment_machine.specs.declared.plans.PlanFault.TheVariants.{Memory};

    ghost from_gives = { λ _ fault. fault ≡ Memory };

    fn from(_: AllocError) -> PlanFault {
        PlanFault::Memory
    }
}

impl<T: Drop> From<AllocFailed<T>> for PlanFault {
    ghost use Rattle.std.specs.Prelude.{◌≡◌};
    ghost use Rattle.shipment_machine.specs.declared.plans.PlanFault.TheVariants.{Memory};

    ghost from_gives = { λ _ fault. fault ≡ Memory };

    fn from(_: AllocFailed<T>) -> PlanFault {
        PlanFault::Memory
    }
}
