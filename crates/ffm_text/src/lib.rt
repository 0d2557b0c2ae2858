//! Flight manifest messages (Cargo-IMP FFM): a head, a flight line, points of unloading and
//! consignment lines among ignored lines, and a last line.
#![tactic(auto)]

ghost use Rattle.std.specs.Prelude.{◌≡◌, ℕ, List, None};
ghost use Rattle.ffm_text.specs.Ffm.{Manifest, IsFfm, ffm_fault};

mod cargo;
mod flight_line;
mod reading;
mod writing;

use awb_number::Awb;
use imp_fields::{Airport, BookTenths, Consignment, Flight, Goods, PartNumber, Pieces};
pub use reading::{read, unloading_point};
use station_days::DayMonth;
pub use writing::write_ffm;

/// A consignment line of a manifest, with its point of unloading. The source of the line's tokens
/// is that line.
#[derive(Clone, Copy)]
pub struct FfmLine<'a> {
    pub unload: Airport,
    pub consignment: Consignment<'a>,
}

/// A part of a flight's manifest.
#[derive(Drop)]
pub struct Ffm<'a> {
    pub sequence: PartNumber,
    pub flight: Flight,
    pub date: DayMonth,
    /// The airport of loading.
    pub loaded: Airport,
    /// The consignment lines, in the order of the text.
    pub cargo: Vec<FfmLine<'a>>,
}

/// A waybill's load in a manifest to be sent.
#[derive(Clone, Copy)]
pub struct Load {
    pub awb: Awb,
    pub origin: Airport,
    pub destination: Airport,
    /// The pieces on the flight.
    pub pieces: Pieces,
    /// Their weight.
    pub tenths: BookTenths,
    /// The declared pieces.
    pub declared: Pieces,
    pub goods: Goods,
}

/// Lines are a part of a manifest exactly if they have no fault, and then only one part.
pub fn ffm_law()
    ensures read { (lines : List (List ℕ)) (m : Manifest) → IsFfm lines m → ffm_fault lines ≡ None }
    ensures faultless { (lines : List (List ℕ)) → ffm_fault lines ≡ None → (m : Manifest)
        × IsFfm lines m }
    ensures one { (lines : List (List ℕ)) (l m : Manifest) → IsFfm lines l → IsFfm lines m → l ≡ m }
{}
