ghost use Rattle.std.specs.Prelude.{◌≡◌, ◌≢◌, ◌∷◌, ◌<◌, [], true, ℕ, ℤ, List, length, IfOk, Err, string_bytes, IfSome, Ok, None};
ghost use Rattle.table_load.specs.Common.{is_utf8, Int, Text, column};
ghost use Rattle.sqlite.specs.Order.{Row as Values};
ghost use Rattle.table_load.specs.declared.cells.RowError.TheVariants.{Mismatch};

use sqlite::{Error, Row};
use sqlite_value::value::ValueRef;
use std::alloc::Global;
use std::marker::Model;

/// The reason why values aren't read as a typed row.
#[derive(Drop)]
pub enum RowError {
    /// The values aren't an entry of the table.
    Mismatch,
    /// Memory ran out.
    Failed(Error),
}

/// The values of a row that aren't read yet, from the left.
#[derive(Drop)]
pub struct Cells<'a> {
    alloc: Global,
    row: &'a Row,
    /// The number of values that were read.
    at: usize,
}

impl<'a> Model for Cells<'a> {
    ghost use Rattle.std.specs.Prelude.{drop, length, ◌≤◌};
    ghost use Rattle.sqlite.specs.Order.{Row as Values};

    ghost Value = { Values };

    ghost view = { λ c. drop c.at c.row.now };

    ghost invariant = { λ c. c.at ≤ length c.row.now };
}

impl<'a> Cells<'a> {
    /// Starts before the first value.
    pub fn new(alloc: Global, row: &'a Row) -> Cells<'a>
        ensures { result ≡ row.now }
    {
        Cells { alloc, row, at: 0 }
    }

    /// Reads the next value, a whole number.
    pub fn number(&mut self) -> Result<i64, RowError>
        ensures read { IfOk result (λ n. self.old ≡ Int n ∷ self.new) }
        ensures mismatch { result ≡ Err Mismatch → (n : ℤ) (more : Values)
            → self.old ≢ Int n ∷ more }
    {
        if self.at == self.row.column_count() {
            return Err(RowError::Mismatch);
        }
        match number(self.row, self.at) {
            None => Err(RowError::Mismatch),
            Some(value) => {
                self.at += 1;
                Ok(value)
            }
        }
    }

    /// Reads the next value, a text in UTF-8.
    pub fn text(&mut self) -> Result<String, RowError>
        ensures read { IfOk result (λ s. self.old ≡ Text (string_bytes s) ∷ self.new) }
        ensures utf8 { IfOk result (λ s. is_utf8 (string_bytes s) ≡ true) }
        ensures mismatch { result ≡ Err Mismatch → (t : List ℕ) (more : Values)
            → is_utf8 t ≡ true → self.old ≢ Text t ∷ more }
    {
        if self.at == self.row.column_count() {
            return Err(RowError::Mismatch);
        }
        match words(self.alloc, self.row, self.at) {
            Err(error) => Err(RowError::Failed(error)),
            Ok(None) => Err(RowError::Mismatch),
            Ok(Some(value)) => {
                self.at += 1;
                Ok(value)
            }
        }
    }

    /// Tests that no value is left.
    pub fn end(&self) -> Result<(), RowError>
        ensures read { IfOk result (λ _. self.now ≡ []) }
        ensures mismatch { result ≡ Err Mismatch → 0 < length self.now }
    {
        if self.at == self.row.column_count() {
            Ok(())
        } else {
            Err(RowError::Mismatch)
        }
    }
}

/// Returns the whole number in a column, if it has one.
pub fn number(row: &Row, at: usize) -> Option<i64>
    ensures some { IfSome result (λ n. column row.now at ≡ Int n) }
    ensures none { result ≡ None → at < length row.now → (n : ℤ) → column row.now at ≢ Int n }
{
    match row.get_ref(at) {
        Ok(ValueRef::Int(n)) => Some(n),
        _ => None,
    }
}

/// Returns the text in a column, if it has one in UTF-8. It fails only if memory runs out.
pub fn words(alloc: Global, row: &Row, at: usize) -> Result<Option<String>, Error>
    ensures some { IfOk result (λ o. IfSome o (λ s. column row.now at ≡ Text (string_bytes s))) }
    ensures text { IfOk result (λ o. IfSome o (λ s. is_utf8 (string_bytes s) ≡ true)) }
    ensures none { result ≡ Ok None → at < length row.now → (t : List ℕ) → is_utf8 t ≡ true
        → column row.now at ≢ Text t }
{
    match row.get_ref(at) {
        Ok(ValueRef::Text(bytes)) => match std::str::from_utf8(bytes) {
            Ok(text) => Ok(Some(String::from_str(alloc, text)?)),
            Err(_) => Ok(None),
        },
        _ => Ok(None),
    }
}
