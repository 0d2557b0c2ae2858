ghost use Rattle.std.specs.Prelude.{◌≡◌, ℕ, ◌+◌, ◌-◌, ◌*◌, ◌/◌, ◌<◌, ◌≤◌, ◌^◌, ◌↔◌, max, IsSome, IfSome, Some, decimal};
ghost use Rattle.imp_fields.specs.Fields.{IsPieces, IsPartNumber, IsTenths, IsBookTenths, count_of, share_of};

use crate::run;
use std::fmt;
use std::marker::Model;

/// The largest number of pieces of a waybill.
pub const MOST_PIECES: u32 = 9_999;

const MOST_PARTS: u32 = 9_999;

/// The largest weight in a message or a command, in tenths of a kilogram: 9,999,999 kilograms.
pub const MOST_MESSAGE_TENTHS: u32 = 99_999_990;

/// A count of pieces, 1 to 9999.
#[derive(Clone, Copy, Debug, PartialEq, Eq, PartialOrd, Ord)]
pub struct Pieces {
    number: u32,
}

impl Model for Pieces {
    ghost Value = { ℕ };

    ghost view = { λ p. p.number };

    ghost invariant = { λ p. IsPieces p.number };

    ghost inverse = { λ n. record { number = n } };
}

impl Pieces {
    /// Returns the count if the number is 1 to 9999.
    pub fn new(number: u32) -> Option<Pieces>
        ensures in_range { IsSome result ↔ IsPieces number }
        ensures value { IfSome result (λ p. p ≡ number) }
    {
        if 1 <= number && number <= MOST_PIECES {
            Some(Pieces { number })
        } else {
            None
        }
    }

    /// Reads a count of one to four digits, at least 1.
    pub fn read(digits: &[u8]) -> Option<Pieces>
        ensures { result ≡ count_of digits.now }
    {
        Pieces::new(run::count(digits)?)
    }

    /// The number.
    pub fn number(self) -> u32
        ensures value { result ≡ self }
        ensures in_range { IsPieces result }
    {
        self.number
    }
}

/// Written like `10`.
impl fmt::Display for Pieces {
    ghost output = { λ pieces. Some (decimal pieces) };

    fn fmt<W: fmt::Write>(&self, f: &mut fmt::Formatter<W>) -> fmt::Result {
        write!(f, "{}", self.number)
    }
}

/// The number of a part of a manifest, 1 to 9999.
#[derive(Clone, Copy, PartialEq, Eq, PartialOrd, Ord)]
pub struct PartNumber {
    number: u32,
}

impl Model for PartNumber {
    ghost Value = { ℕ };

    ghost view = { λ p. p.number };

    ghost invariant = { λ p. IsPartNumber p.number };

    ghost inverse = { λ n. record { number = n } };
}

impl PartNumber {
    /// Returns the part number if the number is 1 to 9999.
    pub fn new(number: u32) -> Option<PartNumber>
        ensures in_range { IsSome result ↔ IsPartNumber number }
        ensures value { IfSome result (λ p. p ≡ number) }
    {
        if 1 <= number && number <= MOST_PARTS {
            Some(PartNumber { number })
        } else {
            None
        }
    }

    /// Reads a part number of one to four digits, at least 1.
    pub fn read(digits: &[u8]) -> Option<PartNumber>
        ensures { result ≡ count_of digits.now }
    {
        PartNumber::new(run::count(digits)?)
    }

    /// The number.
    pub fn number(self) -> u32
        ensures value { result ≡ self }
        ensures in_range { IsPartNumber result }
    {
        self.number
    }
}

/// A weight in tenths of a kilogram, 0 to 99,999,990.
#[derive(Clone, Copy, Debug, PartialEq, Eq, PartialOrd, Ord)]
pub struct Tenths {
    number: u32,
}

impl Model for Tenths {
    ghost Value = { ℕ };

    ghost view = { λ t. t.number };

    ghost invariant = { λ t. IsTenths t.number };

    ghost inverse = { λ n. record { number = n } };
}

impl Tenths {
    /// Returns the weight if the number is at most 99,999,990.
    pub fn new(number: u32) -> Option<Tenths>
        ensures in_range { IsSome result ↔ IsTenths number }
        ensures value { IfSome result (λ t. t ≡ number) }
    {
        if number <= MOST_MESSAGE_TENTHS {
            Some(Tenths { number })
        } else {
            None
        }
    }

    /// The number.
    pub fn number(self) -> u32
        ensures value { result ≡ self }
        ensures in_range { IsTenths result }
    {
        self.number
    }
}

/// The largest weight in the books and in a written message, in tenths of a kilogram.
pub const MOST_TENTHS: u32 = 999_999;

/// A book weight in tenths of a kilogram, 0 to 999,999: at most what a written message has room
/// for.
#[derive(Clone, Copy, PartialEq, Eq, PartialOrd, Ord)]
pub struct BookTenths {
    number: u32,
}

impl Model for BookTenths {
    ghost Value = { ℕ };

    ghost view = { λ t. t.number };

    ghost invariant = { λ t. IsBookTenths t.number };

    ghost inverse = { λ n. record { number = n } };
}

impl BookTenths {
    /// Returns the weight if the number is at most 999,999.
    pub fn new(number: u32) -> Option<BookTenths>
        ensures in_range { IsSome result ↔ IsBookTenths number }
        ensures value { IfSome result (λ t. t ≡ number) }
    {
        if number <= MOST_TENTHS {
            Some(BookTenths { number })
        } else {
            None
        }
    }

    /// The number.
    pub fn number(self) -> u32
        ensures value { result ≡ self }
        ensures in_range { IsBookTenths result }
    {
        self.number
    }
}

/// The part of a consignment that a quantity counts, by its Cargo-IMP letter.
#[derive(Clone, Copy, Debug)]
pub enum ShipmentCode {
    /// T, the whole consignment.
    Total,
    /// P, a part of it.
    Part,
    /// S, a split consignment.
    Split,
    /// D, a divided consignment.
    Divided,
    /// M, several consignments.
    Multi,
}

/// The unit of a weight.
#[derive(Clone, Copy)]
pub enum WeightUnit {
    /// K, kilograms.
    Kilograms,
    /// L, pounds of 0.45359237 kilograms.
    Pounds,
}

/// A quantity in a message: `T10K100MC0.5` (Cargo-IMP FWB, FFM and FSU).
#[derive(Clone, Copy, Debug)]
pub struct Quantity {
    pub code: ShipmentCode,
    /// The pieces of this quantity.
    pub pieces: Pieces,
    /// Their weight in tenths of a kilogram, if given.
    pub weight: Option<Tenths>,
    /// The pieces of the whole consignment, if given.
    pub total: Option<Pieces>,
}

/// Returns the share of the weight for `part` of the `pieces`, rounded down to a tenth.
pub fn share(pieces: u32, tenths: u32, part: u32) -> u64
    requires { 1 ≤ pieces }
    ensures value { result ≡ share_of pieces tenths part }

    // All pieces have the whole weight.
    ensures whole { part ≡ pieces → result ≡ tenths }

    // If there is a tenth for each piece, the part and the rest have one for each of theirs.
    ensures part { pieces ≤ tenths → part ≤ result }
    ensures rest { pieces ≤ tenths → part ≤ pieces → (result ≤ tenths)
        × (pieces - part ≤ tenths - result) }
{
    u64::from(tenths) * u64::from(part) / u64::from(pieces)
}

/// Returns the weight at which pieces are booked: at least a tenth for each piece.
pub fn book_weight(pieces: u32, tenths: u32) -> u32
    ensures { result ≡ max tenths pieces }
{
    tenths.max(pieces)
}
