//! Status updates that are sent.

ghost use Rattle.fsu_text.specs.Sent.{IsSent, IsDeclared, IsUpdate, is_plain};
ghost use Rattle.std.specs.Prelude.{IsTrue};
ghost use Rattle.fsu_text.specs.Common.{list_all};

use crate::status::{Handling, StatusLine};
use imp_fields::{
    Airport, BookTenths, Consignment, Discrepancy, Flight, Name, Pieces, WaybillSummary,
};
use station_days::{DayMonth, DayTime};

/// An event of goods and a flight that leaves here.
#[derive(Clone, Copy)]
pub enum SentCarriage {
    /// MAN, manifested.
    Manifested,
    /// DEP, departed.
    Departed,
}

/// A status to be sent.
#[derive(Clone, Copy)]
pub enum SentStatus {
    /// RCS, NFD or DLV, with its moment. An empty name isn't written.
    Handled {
        event: Handling,
        at: DayTime,
        name: Name,
    },
    /// RCF, received from a flight, with its moment.
    ReceivedFromFlight {
        flight: Flight,
        at: DayTime,
    },
    /// MAN or DEP: the flight, its date, and the airport of unloading.
    Carried {
        event: SentCarriage,
        flight: Flight,
        date: DayMonth,
        to: Airport,
    },
    /// DIS, with the moment of the discovery.
    Differs {
        discrepancy: Discrepancy,
        flight: Flight,
        at: DayTime,
    },
}

/// A status update of a waybill: the status, the airport that sends it, the pieces and their
/// weight.
#[derive(Clone, Copy)]
pub struct SentUpdate {
    pub of: WaybillSummary,
    pub status: SentStatus,
    pub here: Airport,
    pub pieces: Pieces,
    pub tenths: BookTenths,
}

// Ranges that the types of an update guarantee, for the proof that it is read back. The functions
// do nothing else.

fn declared_known(of: &WaybillSummary)
    ensures { IsDeclared of.now }
{
    let _origin = of.origin.letters();
    let _destination = of.destination.letters();
    let _key = of.awb.key();
    let _pieces = of.pieces.number();
    let _tenths = of.tenths.number();
}

fn status_known(status: &SentStatus)
    ensures { IsSent status.now }
{
    let mut text = [0; 7];
    match status {
        SentStatus::Handled { at, name, .. } => {
            let _at = at.write();
            let _name = name.as_bytes();
        }
        SentStatus::ReceivedFromFlight { flight, at } => {
            let _flight = flight.write(&mut text);
            let _at = at.write();
        }
        SentStatus::Carried {
            flight,
            date,
            to,
            ..
        } => {
            let _flight = flight.write(&mut text);
            let _date = date.write();
            let _to = to.letters();
        }
        SentStatus::Differs { flight, at, .. } => {
            let _flight = flight.write(&mut text);
            let _at = at.write();
        }
    }
}

pub(crate) fn update_known(update: &SentUpdate)
    ensures { IsUpdate update.now }
{
    declared_known(&update.of);
    status_known(&update.status);
    let _here = update.here.letters();
    let _pieces = update.pieces.number();
    let _tenths = update.tenths.number();
}

/// A status update message: its consignment line, and at least one line after it. The source of the
/// consignment's tokens is its line; that of a status line's token is the telegram. Each line of
/// the trail has at most 255 bytes of printable ASCII.
#[derive(Drop)]
pub struct Fsu<'a> {
    pub consignment: Consignment<'a>,
    pub trail: Vec<StatusLine<'a>>,
    pub ghost printable: { IsTrue (list_all is_plain trail.items) },
}
