ghost use Rattle.row_codec.specs.Common.{SomeIff, build_meant, count_meant};
ghost use Rattle.std.specs.Prelude.{◌≡◌, ℤ, pos, ◌-ℤ◌, option_map, IfOk};
ghost use Rattle.row_codec.specs.Stored.{is_nothing, running_in, running_on, unless_nothing, negated, plus, IsTally, come_to, pieces_found};

use shipment_machine::Amount;
use station_rows::{BuildRow, CountRow, StoreFault};

/// The pieces and tenths of a kilogram that came to a place, less those that left it.
#[derive(Clone, Copy)]
pub struct Tally {
    pub pieces: i64,
    pub tenths: i64,
}

/// The tally of a row of `counts`.
pub(crate) fn count_tally(row: &CountRow) -> Tally
    ensures { result ≡ running_in (count_meant row.now).1 }
{
    Tally {
        pieces: row.pieces,
        tenths: row.tenths,
    }
}

/// The tally of a row of `build`.
pub(crate) fn build_tally(row: &BuildRow) -> Tally
    ensures { result ≡ running_on (build_meant row.now).1 }
{
    Tally {
        pieces: row.pieces,
        tenths: row.tenths,
    }
}

/// The pieces that were found, and none where there is no row.
pub(crate) fn pieces_found(found: Option<Tally>) -> i64
    ensures { result ≡ pieces_found found }
{
    match found {
        Some(found) => found.pieces,
        None => 0,
    }
}

/// Returns the amount by which a number is below zero.
fn shortage(number: i64) -> Result<i64, StoreFault>
    ensures { IfOk result (λ rest. rest ≡ pos 0 -ℤ number) }
{
    match 0_i64.checked_sub(number) {
        Some(rest) => Ok(rest),
        None => Err(StoreFault),
    }
}

/// A number of a row that may not be below nothing.
fn natural(number: i64) -> Result<u32, StoreFault>
    ensures { IfOk result (λ n. number ≡ pos n) }
{
    match u32::try_from(number) {
        Ok(natural) => Ok(natural),
        Err(_) => Err(StoreFault),
    }
}

impl Tally {
    /// Returns whether both numbers are 0.
    pub fn is_nothing(self) -> bool
        ensures { result ≡ is_nothing self }
    {
        self.pieces == 0 && self.tenths == 0
    }

    /// Returns the sum of two tallies, or `None` if it doesn't fit into 64 bits.
    pub fn plus(self, other: Tally) -> Option<Tally>
        ensures { SomeIff result (IsTally (plus self other)) (plus self other) }
    {
        Some(Tally {
            pieces: self.pieces.checked_add(other.pieces)?,
            tenths: self.tenths.checked_add(other.tenths)?,
        })
    }

    /// Returns the negated tally, or `None` if it doesn't fit into 64 bits.
    pub fn negated(self) -> Option<Tally>
        ensures { SomeIff result (IsTally (negated self)) (negated self) }
    {
        Some(Tally {
            pieces: self.pieces.checked_neg()?,
            tenths: self.tenths.checked_neg()?,
        })
    }

    /// Returns the amounts of a row. There is no row if nothing is left.
    pub(crate) fn row(self) -> Option<Tally>
        ensures { result ≡ unless_nothing self }
    {
        if self.is_nothing() { None } else { Some(self) }
    }

    /// Returns the sum of a row and this.
    pub(crate) fn onto(self, found: Option<Tally>) -> Result<Tally, StoreFault>
        ensures { IfOk result (λ sum. sum ≡ come_to (λ t. t) found self) }
    {
        let Some(found) = found else {
            return Ok(self);
        };
        match found.plus(self) {
            Some(sum) => Ok(sum),
            None => Err(StoreFault),
        }
    }

    /// Returns the amount that is there.
    pub(crate) fn amount(self) -> Result<Amount, StoreFault>
        ensures pieces { IfOk result (λ amount. self.pieces ≡ pos amount.pieces) }
        ensures tenths { IfOk result (λ amount. self.tenths ≡ pos amount.tenths) }
    {
        let pieces = natural(self.pieces)?;
        let tenths = natural(self.tenths)?;
        Ok(Amount { pieces, tenths })
    }

    /// Returns the amount that came from there.
    pub(crate) fn shortfall(self) -> Result<Amount, StoreFault>
        ensures pieces { IfOk result (λ amount. pos 0 -ℤ self.pieces ≡ pos amount.pieces) }
        ensures tenths { IfOk result (λ amount. pos 0 -ℤ self.tenths ≡ pos amount.tenths) }
    {
        let pieces = natural(shortage(self.pieces)?)?;
        let tenths = natural(shortage(self.tenths)?)?;
        Ok(Amount { pieces, tenths })
    }
}
