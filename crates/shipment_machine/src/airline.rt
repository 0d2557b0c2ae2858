ghost use Rattle.std.specs.Prelude.{◌≡◌, ℕ, List, IsTrue};
ghost use Rattle.shipment_machine.specs.Common.{is_carrier};
ghost use Rattle.shipment_machine.specs.Cargo.{airline_of};

use std::marker::Model;

/// An airline, by its designator: two upper-case letters or digits, at least one of them a letter.
#[derive(Clone, Copy, PartialEq, Eq)]
pub struct Airline {
    designator: [u8; 2],
}

impl Model for Airline {
    ghost Value = { List ℕ };

    ghost view = { λ a. a.designator };

    ghost invariant = { λ a. IsTrue (is_carrier a.designator) };

    ghost inverse = { λ designator. record { designator = designator } };
}

/// Returns whether two characters are upper-case letters or digits, at least one of them a letter.
fn is_designator(designator: [u8; 2]) -> bool
    ensures { result ≡ is_carrier designator }
{
    let [first, second] = designator;
    (first.is_ascii_uppercase() || first.is_ascii_digit())
        && (second.is_ascii_uppercase() || second.is_ascii_digit())
        && (first.is_ascii_uppercase() || second.is_ascii_uppercase())
}

impl Airline {
    /// Returns the airline if the whole text is a designator.
    pub fn read(text: &[u8]) -> Option<Airline>
        ensures { result ≡ airline_of text.now }
    {
        let designator = <[u8; 2]>::try_from(text).ok()?;
        if is_designator(designator) {
            Some(Airline { designator })
        } else {
            None
        }
    }

    /// The two characters.
    pub fn designator(&self) -> [u8; 2]
        ensures value { result ≡ self.now }
        ensures carrier { IsTrue (is_carrier result) }
    {
        self.designator
    }
}
