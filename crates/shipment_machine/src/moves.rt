ghost use Rattle.std.specs.Prelude.{◌≡◌, ℕ, ◌+◌, ◌-◌, ◌*◌, ◌/◌, ◌≤◌, ◌<◌, Some};
ghost use Rattle.shipment_machine.specs.Book.{IsHeld, amount_text, fits, less, part, pieces_word, same_place};

use crate::flight::FlightDate;
use awb_number::Awb;
use imp_fields::{Airport, BookTenths, Goods, MOST_PIECES, MOST_TENTHS, PartNumber, Pieces, share};
use station_days::{LocalDay, Moment};
use std::fmt;

/// Pieces, with their weight in tenths of a kilogram. As a sum it has no bound.
#[derive(Clone, Copy, PartialEq, Eq)]
pub struct Amount {
    pub pieces: u32,
    pub tenths: u32,
}

fn pieces_word(pieces: u32) -> &'static str
    ensures { result.now ≡ pieces_word pieces }
{
    if pieces == 1 { "piece" } else { "pieces" }
}

/// Written like `4 pieces, 40.0 kg`.
impl fmt::Display for Amount {
    ghost output = { λ amount. Some (amount_text amount) };

    fn fmt<W: fmt::Write>(&self, f: &mut fmt::Formatter<W>) -> fmt::Result {
        let word = pieces_word(self.pieces);
        let (kilograms, tenths) = (self.tenths / 10, self.tenths % 10);
        write!(f, "{} {word}, {kilograms}.{tenths} kg", self.pieces)
    }
}

impl Amount {
    /// Returns the amount without `part`, at least 0.
    pub fn less(self, part: Amount) -> Amount
        ensures { result ≡ less self part }
    {
        Amount {
            pieces: self.pieces.saturating_sub(part.pieces),
            tenths: self.tenths.saturating_sub(part.tenths),
        }
    }
}

pub(crate) fn part_of(whole: Amount, pieces: u32) -> Amount
    requires held { IsHeld whole }
    requires some { 1 ≤ pieces }
    requires within { pieces ≤ whole.pieces }
    ensures value { result ≡ part whole pieces }
    ensures held { IsHeld result }
{
    Amount {
        pieces,
        tenths: share(whole.pieces, whole.tenths, pieces) as u32,
    }
}

/// Returns whether the sums are at most 9,999 pieces and 999,999 tenths.
pub(crate) fn is_within(pieces: u64, tenths: u64) -> bool
    ensures { result ≡ fits (record { pieces = pieces; tenths = tenths }) }
{
    pieces <= u64::from(MOST_PIECES) && tenths <= u64::from(MOST_TENTHS)
}

/// A place for pieces of a waybill. The first two are outside the station.
#[derive(Clone, Copy)]
pub enum Place {
    /// With the shipper, agent or airline that hands the pieces over.
    Hand,
    /// The origin of unannounced pieces.
    Surplus,
    /// In the store, not built for a flight.
    Free,
    /// In the store, built for a flight.
    Built(FlightDate),
    Departed,
    Delivered,
    Missing,
    /// Handed to another airline.
    Transferred,
}

impl Place {
    /// Returns whether the two are the same place, and for built places the same flight.
    pub fn is_same(&self, other: &Place) -> bool
        ensures { result ≡ same_place self.now other.now }
    {
        match (self, other) {
            (Place::Hand, Place::Hand) => true,
            (Place::Surplus, Place::Surplus) => true,
            (Place::Free, Place::Free) => true,
            (Place::Built(one), Place::Built(two)) => one.is_same(two),
            (Place::Departed, Place::Departed) => true,
            (Place::Delivered, Place::Delivered) => true,
            (Place::Missing, Place::Missing) => true,
            (Place::Transferred, Place::Transferred) => true,
            _ => false,
        }
    }
}

/// The balances of a waybill: what came from outside, and what is at each place except the built
/// ones.
#[derive(Clone, Copy)]
pub struct Balances {
    /// The amount received from a shipper, an agent or an airline.
    pub taken: Amount,
    /// The unannounced amount.
    pub found: Amount,
    pub free: Amount,
    pub missing: Amount,
    pub departed: Amount,
    pub delivered: Amount,
    pub transferred: Amount,
}

/// A row of the movement book.
#[derive(Clone, Copy)]
pub struct Move {
    pub awb: Awb,
    pub from: Place,
    pub to: Place,
    pub pieces: Pieces,
    pub tenths: BookTenths,
    /// The flight of the built place or check-in, or the one named in the command.
    pub flight: Option<FlightDate>,
    pub at: Moment,
}

/// A waybill's declaration.
#[derive(Clone, Copy, PartialEq, Eq)]
pub struct Declared {
    pub origin: Airport,
    pub destination: Airport,
    pub pieces: Pieces,
    pub tenths: BookTenths,
    pub goods: Goods,
    /// True if the consignee was notified since.
    pub notified: bool,
    /// The local day of the declaration, if recorded.
    pub since: Option<LocalDay>,
}

/// An outbound flight.
#[derive(Clone, Copy)]
pub struct Outbound {
    /// The airport of unloading.
    pub unload: Airport,
    /// True if it has departed.
    pub closed: bool,
}

/// The announced amount of a waybill on a flight.
#[derive(Clone, Copy)]
pub struct Expected {
    pub pieces: Pieces,
    pub tenths: BookTenths,
    /// True if the waybill was checked in.
    pub checked: bool,
}

/// A part of a flight manifest.
#[derive(Clone, Copy, PartialEq, Eq)]
pub struct Part {
    pub flight: FlightDate,
    /// The airport of departure.
    pub airport: Airport,
    pub number: PartNumber,
}
