ghost use Rattle.std.specs.Prelude.{◌≡◌, map};
ghost use Rattle.table_audits.specs.Common.{waybill_meant, is_pair};
ghost use Rattle.table_audits.specs.Moves.{RisesByNumber, is_fit_move};

use crate::TableName;
use crate::book::{Book, BookBeside};
use crate::lookups::is_declared;
use imp_fields::Airport;
use row_codec::awb_key;
use shipment_machine::{Move, Place};
use station_rows::WaybillRow;
use table_load::{FileVersion, PartEntry};

/// Returns whether pieces may move between these places.
fn is_pair(from: &Place, to: &Place) -> bool
    ensures { result ≡ is_pair from.now to.now }
{
    match from {
        Place::Hand => matches!(to, Place::Free | Place::Missing),
        Place::Surplus | Place::Missing => matches!(to, Place::Free),
        Place::Free => matches!(
            to,
            Place::Built(_) | Place::Delivered | Place::Missing | Place::Transferred | Place::Hand
        ),
        Place::Built(_) => matches!(to, Place::Free | Place::Departed),
        Place::Departed | Place::Delivered | Place::Transferred => false,
    }
}

pub(crate) fn is_fit(movement: &Move, waybills: &[WaybillRow]) -> bool
    ensures { RisesByNumber (map waybill_meant waybills.now)
        → result ≡ is_fit_move (map waybill_meant waybills.now) movement.now }
{
    is_pair(&movement.from, &movement.to) && is_declared(waybills, awb_key(&movement.awb))
}

/// The content of the tables audited so far, of each what later audits need.
#[derive(Drop)]
pub(crate) struct Known {
    /// The version as which the database is read.
    pub(crate) version: FileVersion,
    /// The airport of the station.
    pub(crate) here: Airport,
    /// The number of the last confirmed message.
    pub(crate) confirmed: u32,
    /// The waybills and the flights.
    pub(crate) beside: BookBeside,
    pub(crate) book: Book,
    /// The parts of manifests.
    pub(crate) parts: Vec<PartEntry>,
    /// The number of trail lines.
    pub(crate) lines: u32,
    /// The number of messages.
    pub(crate) messages: u32,
}

/// The reason why a database isn't a station's.
#[derive(Clone, Copy)]
pub enum Unfit {
    /// The table `station` is missing or has no row.
    NoStation,
    /// The version of the file, which isn't the expected one.
    OtherVersion(i64),
    /// The first table that is missing or unlawful.
    Unlawful(TableName),
}
