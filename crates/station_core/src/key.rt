ghost use Rattle.std.specs.Prelude.{◌≡◌, ◌↔◌, IsTrue, IsSome, IfSome, Some};
ghost use Rattle.station_core.specs.Common.{list_all};
ghost use Rattle.station_core.specs.Readers.{is_key, is_key_byte};

use awb_number::ascii_text;
use std::fmt;
use std::marker::Model;

/// The length of the longest key, in bytes.
const LONGEST: usize = 40;

/// The key of a command: 1 to 40 bytes from 0x21 to 0x7E. Contracts see it as that text.
#[derive(Clone, Copy, PartialEq, Eq)]
pub struct Key {
    // Zeros pad the key.
    bytes: [u8; LONGEST],
    len: usize,
}

impl Model for Key {
    ghost use Rattle.std.specs.Prelude.{ℕ, List, take, length, IsTrue};
    ghost use Rattle.awb_number.specs.FilledUp.{IsFilledUp, filled_up};
    ghost use Rattle.awb_number.proofs.FilledUp.{filled_up-take, length-filled};
    ghost use Rattle.station_core.specs.Readers.{is_key};

    ghost Value = { List ℕ };

    ghost view = { λ a. take a.len a.bytes };

    ghost invariant = { λ a. IsFilledUp 40 a.len a.bytes × IsTrue (is_key (take a.len a.bytes)) };

    ghost inverse = { λ text. record { bytes = filled_up 40 text; len = length text } };

    ghost inverse_ok = { λ a h i. record {
      bytes = filled_up-take 40 a.len a.bytes h.0 i;
      len = length-filled 40 a.len a.bytes h.0 i;
    } };
}

fn are_key_bytes(text: &[u8]) -> bool
    ensures { result ≡ list_all is_key_byte text.now }
{
    text.iter().all(|b| 0x21 <= *b && *b <= 0x7E)
}

fn is_key(text: &[u8]) -> bool
    ensures { result ≡ is_key text.now }
{
    1 <= text.len() && text.len() <= LONGEST && are_key_bytes(text)
}

impl Key {
    /// Returns the key if the text is one.
    pub fn read(text: &[u8]) -> Option<Key>
        ensures valid { IsSome result ↔ IsTrue (is_key text.now) }
        ensures value { IfSome result (λ key. key ≡ text.now) }
    {
        if !is_key(text) {
            return None;
        }
        let mut bytes = [0; LONGEST];
        let len = text.len();
        bytes[..len].copy_from_slice(text);
        Some(Key { bytes, len })
    }

    /// The key's bytes.
    pub fn as_bytes(&self) -> &[u8]
        ensures value { result.now ≡ self.now }
        ensures valid { IsTrue (is_key self.now) }
    {
        &self.bytes[..self.len]
    }

    /// The key as a text.
    pub fn as_str(&self) -> &str
        ensures value { result.now ≡ self.now }
        ensures valid { IsTrue (is_key self.now) }
    {
        ascii_text(self.as_bytes())
    }
}

impl fmt::Display for Key {
    ghost output = { λ key. Some key };

    fn fmt<W: fmt::Write>(&self, f: &mut fmt::Formatter<W>) -> fmt::Result {
        f.write_str(self.as_str())
    }
}
