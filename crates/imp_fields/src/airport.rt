ghost use Rattle.std.specs.Prelude.{◌≡◌, ℕ, List, length, IsTrue, Some};
ghost use Rattle.imp_fields.specs.Fields.{is_airport, airport_of};

use awb_number::ascii_text;
use std::fmt;
use std::marker::Model;

/// An airport, by its code of three letters A to Z.
#[derive(Clone, Copy, Debug, PartialEq, Eq)]
pub struct Airport {
    letters: [u8; 3],
}

impl Model for Airport {
    ghost Value = { List ℕ };

    ghost view = { λ a. a.letters };

    ghost invariant = { λ a. IsTrue (is_airport a.letters) };

    ghost inverse = { λ letters. record { letters = letters } };
}

impl Airport {
    /// Returns the airport if the whole text is a code.
    pub fn read(text: &[u8]) -> Option<Airport>
        ensures { result ≡ airport_of text.now }
    {
        let letters = <[u8; 3]>::try_from(text).ok()?;
        if letters.iter().all(|b| b.is_ascii_uppercase()) {
            Some(Airport { letters })
        } else {
            None
        }
    }

    /// The three letters of the code.
    pub fn letters(&self) -> [u8; 3]
        ensures value { result ≡ self.now }
        ensures letters { IsTrue (is_airport result) }
    {
        self.letters
    }
}

/// Written like `FRA`.
impl fmt::Display for Airport {
    ghost output = { λ code. Some code };

    fn fmt<W: fmt::Write>(&self, f: &mut fmt::Formatter<W>) -> fmt::Result {
        f.write_str(ascii_text(&self.letters()))
    }
}
