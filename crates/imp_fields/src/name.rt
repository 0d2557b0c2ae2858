ghost use Rattle.std.specs.Prelude.{◌≡◌, ◌++◌, ◌-◌, ◌↔◌, ℕ, ◌≤◌, List, length, take, IsTrue, IsSome, IfSome, Some, replicate};
ghost use Rattle.imp_fields.specs.Common.{list_all};
ghost use Rattle.imp_fields.specs.Fields.{is_printable, IsPadded, padding_bytes, padding_length};
ghost use Rattle.imp_fields.specs.Message.{is_short_text, is_name, is_goods, kept_goods};

use crate::run;
use awb_number::ascii_text;
use std::fmt;
use std::marker::Model;

/// A name of at most 35 bytes of printable ASCII, not ending in a space. It may be empty.
#[derive(Clone, Copy, Debug, PartialEq, Eq)]
pub struct Name {
    bytes: [u8; 35],
    len: usize,
}

impl Model for Name {
    ghost Value = { List ℕ };

    ghost view = { λ n. take n.len n.bytes };

    ghost invariant = { λ n. IsPadded 35 n.len n.bytes × IsTrue (is_name (take n.len n.bytes)) };

    ghost inverse = { λ text. record {
      bytes = text ++ replicate (35 - length text) 0;
      len = length text;
    } };

    ghost inverse_ok = { λ n h i. record {
      bytes = padding_bytes 35 n.len n.bytes h.0 i;
      len = padding_length 35 n.len n.bytes h.0 i;
    } };
}

/// A description of goods of at most 15 bytes of printable ASCII, not ending in a space. It may be
/// empty.
#[derive(Clone, Copy, PartialEq, Eq)]
pub struct Goods {
    bytes: [u8; 15],
    len: usize,
}

impl Model for Goods {
    ghost Value = { List ℕ };

    ghost view = { λ g. take g.len g.bytes };

    ghost invariant = { λ g. IsPadded 15 g.len g.bytes × IsTrue (is_goods (take g.len g.bytes)) };

    ghost inverse = { λ text. record {
      bytes = text ++ replicate (15 - length text) 0;
      len = length text;
    } };

    ghost inverse_ok = { λ g h i. record {
      bytes = padding_bytes 15 g.len g.bytes h.0 i;
      len = padding_length 15 g.len g.bytes h.0 i;
    } };
}

fn is_short_text(text: &[u8], most: usize) -> bool
    ensures { result ≡ is_short_text most text.now }
{
    text.len() <= most && run::is_printable(text) && text.last() != Some(&b' ')
}

/// Returns the bytes of a text, padded with zeros.
fn padded<const N: usize>(text: &[u8]) -> [u8; N]
    requires { length text.now ≤ N }
    ensures { result ≡ text.now ++ replicate (N - length text.now) 0 }
{
    let mut bytes = [0; N];
    bytes[..text.len()].copy_from_slice(text);
    bytes
}

impl Name {
    /// Returns the name if the text is one.
    pub fn read(text: &[u8]) -> Option<Name>
        ensures valid { IsSome result ↔ IsTrue (is_name text.now) }
        ensures value { IfSome result (λ name. name ≡ text.now) }
    {
        if is_short_text(text, 35) {
            Some(Name {
                bytes: padded(text),
                len: text.len(),
            })
        } else {
            None
        }
    }

    /// The bytes of the name.
    pub fn as_bytes(&self) -> &[u8]
        ensures bytes { result.now ≡ self.now }
        ensures valid { IsTrue (is_name result.now) }
    {
        &self.bytes[..self.len]
    }
}

/// Written like `ACME TOOLS`.
impl fmt::Display for Name {
    ghost output = { λ name. Some name };

    fn fmt<W: fmt::Write>(&self, f: &mut fmt::Formatter<W>) -> fmt::Result {
        f.write_str(ascii_text(self.as_bytes()))
    }
}

impl Goods {
    /// Returns the goods text if the text is one.
    pub fn read(text: &[u8]) -> Option<Goods>
        ensures valid { IsSome result ↔ IsTrue (is_goods text.now) }
        ensures value { IfSome result (λ goods. goods ≡ text.now) }
    {
        if is_short_text(text, 15) {
            Some(Goods::of(text))
        } else {
            None
        }
    }

    /// Returns the goods text stored for a text: its first 15 bytes, without trailing spaces.
    pub fn kept(text: &[u8]) -> Goods
        requires { IsTrue (list_all is_printable text.now) }
        ensures { result ≡ kept_goods text.now }
    {
        let front = &text[..text.len().min(15)];
        Goods::of(&front[..front.len() - run::blanks_at_end(front)])
    }

    fn of(text: &[u8]) -> Goods
        requires { IsTrue (is_goods text.now) }
        ensures { result ≡ text.now }
    {
        Goods {
            bytes: padded(text),
            len: text.len(),
        }
    }

    /// The bytes of the goods text.
    pub fn as_bytes(&self) -> &[u8]
        ensures bytes { result.now ≡ self.now }
        ensures valid { IsTrue (is_goods result.now) }
    {
        &self.bytes[..self.len]
    }
}

/// Written like `MACHINE PARTS`.
impl fmt::Display for Goods {
    ghost output = { λ goods. Some goods };

    fn fmt<W: fmt::Write>(&self, f: &mut fmt::Formatter<W>) -> fmt::Result {
        f.write_str(ascii_text(self.as_bytes()))
    }
}
