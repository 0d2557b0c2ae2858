ghost use Rattle.std.specs.Prelude.{◌≡◌, ◌↔◌, ◌++◌, ◌∷◌, [], length, map, List, IfOk, IfSome, IsSome, IsTrue, OnOk};
ghost use Rattle.table_audits.specs.Common.{list_all, entries, move_meant, Tables, running, is_flight_row, book_in, move_by, flight_entry, Survives, state};
ghost use Rattle.station_schema.specs.Tables.{Move as Row};
ghost use Rattle.table_audits.specs.Lawful.{AreMoves};
ghost use Rattle.table_audits.specs.Moves.{listed_in, AreSums, IsPosting};
ghost use Rattle.table_audits.specs.Taken.{AreGoodMoves, IsBookOf, IsBookAs, IsNextOr, AreRead, AreMovesTaken};
ghost use Rattle.table_audits.specs.Verdict.{Audits};
ghost use Rattle.table_audits.specs.declared.name.TableName.TheVariants as table;

use crate::balances::are_balances_lawful;
use crate::departures::{are_departures_lawful, is_marked, mark, no_marks};
use crate::lookups::{is_next, one_more};
use crate::posts::posting_of;
use crate::rows::Known;
use crate::sums::{BookSums, Posting};
use sqlite::{Alter, Connection, Error, ErrorCode};
use station_rows::{MoveRow, WaybillRow};
use std::alloc::{AllocError, Global};
use table_load::{FlightEntry, RowFold, fold_rows};

/// The tables for auditing the moves: all waybills in the order of their numbers, and all flights
/// in the order of their keys.
#[derive(Drop)]
pub(crate) struct BookBeside {
    pub(crate) waybills: Vec<WaybillRow>,
    pub(crate) flights: Vec<FlightEntry>,
}

/// An audited movement book.
#[derive(Drop)]
pub(crate) struct Book {
    /// The sums of its moves.
    pub(crate) sums: BookSums,
    /// The number of its moves.
    pub(crate) moves: u32,
}

/// The audit of moves that are added one after another.
#[derive(Drop)]
pub(crate) struct BookAudit {
    /// True if they are numbered from 1, each is lawful by itself, and none builds on a flight that
    /// has departed. The other fields describe the moves only if it is true.
    pub(crate) are_good: bool,
    pub(crate) count: u32,
    pub(crate) sums: BookSums,
    /// For each flight, true if a move departs with it.
    pub(crate) departed: Vec<bool>,
}

impl BookAudit {
    /// Starts without moves, for a number of flights.
    pub(crate) fn new(alloc: Global, flights: usize) -> Result<BookAudit, AllocError>
        ensures { (beside : BookBeside) → length beside.flights.items ≡ flights
            → IfOk result (λ audit. AreMovesTaken beside audit []) }
    {
        let departed = no_marks(alloc, flights)?;
        Ok(BookAudit {
            are_good: true,
            count: 0,
            sums: BookSums::new(alloc),
            departed,
        })
    }

    /// Returns the posting of the next row, or `None` if the row isn't good after the moves so far.
    fn next_posting(&self, beside: &BookBeside, row: &MoveRow) -> Option<Posting>
        ensures { (t : Tables) (moves : List Row) → AreRead t beside.now
            → IsBookOf t moves self.now → IsNextOr t moves (move_meant row.now) result }
    {
        if !is_next(row.number, self.count) {
            return None;
        }
        let posting = posting_of(row, &beside.waybills, &beside.flights)?;
        if is_marked(&self.departed, &posting.to) {
            return None;
        }
        Some(posting)
    }

    /// Adds a move that is good after those so far.
    fn add(&mut self, posting: &Posting) -> Result<(), Error>
        ensures book { (t : Tables) (beside : BookBeside) (moves : List Row) (row : Row)
            → AreRead t beside → IsBookOf t moves self.old
            → AreGoodMoves t (moves ++ row ∷ [])
            → IsPosting (listed_in t) posting.now (move_by row)
            → OnOk result (IsBookOf t (moves ++ row ∷ []) self.new) }
        ensures good { OnOk result (self.new.are_good ≡ self.old.are_good) }
    {
        let Ok(()) = self.sums.add(posting) else {
            return Err(Error::SqliteFailure(ErrorCode::OutOfMemory));
        };
        mark(&mut self.departed, posting);
        self.count = one_more(self.count)?;
        Ok(())
    }

    /// Returns the audited book, or `None` if the moves aren't lawful with these flights, which are
    /// in range.
    pub(crate) fn judged(self, flights: &[FlightEntry]) -> Option<Book>
        ensures exact { (t : Tables) → IsBookAs t t.moves self self.are_good
            → IsTrue (list_all is_flight_row (entries t.flights))
            → entries t.flights ≡ map flight_entry flights.now → (IsSome result ↔ AreMoves t) }
        ensures sums { (t : Tables) → IsBookAs t t.moves self self.are_good
            → IfSome result (λ book. AreSums (listed_in t) book.sums
            (running (book_in t.moves))) }
        ensures moves { (t : Tables) → IsBookAs t t.moves self self.are_good
            → IfSome result (λ book. book.moves ≡ length t.moves) }
    {
        if !self.are_good {
            return None;
        }
        if !are_departures_lawful(&self.departed, flights) {
            return None;
        }
        if !are_balances_lawful(&self.sums, flights) {
            return None;
        }
        Some(Book {
            sums: self.sums,
            moves: self.count,
        })
    }
}

impl RowFold<MoveRow> for BookAudit {
    ghost use Rattle.table_audits.specs.Taken.{AreMovesTaken};

    type Beside = BookBeside;

    ghost has = { AreMovesTaken };

    fn take(&mut self, beside: &BookBeside, row: MoveRow) -> Result<(), Error> {
        if !self.are_good {
            return Ok(());
        }
        match self.next_posting(beside, &row) {
            Some(posting) => self.add(&posting),
            None => {
                self.are_good = false;
                Ok(())
            }
        }
    }
}

/// Reads `moves`, row by row, and sums them. Returns whether it exists and is lawful.
pub(crate) fn is_good<S: Alter>(
    alloc: Global,
    conn: &mut Connection<S>,
    known: &mut Known,
) -> Result<bool, Error>
    ensures read { Audits S.Store conn.old conn.new result table.Moves known.old known.new }
    ensures survives { Survives (state S.Store conn.old) (state S.Store conn.new) (λ _. ⊥) }
{
    let none = BookAudit::new(alloc, known.beside.flights.len())?;
    let beside = &known.beside;
    let Some(audit) = fold_rows::<S, MoveRow, BookAudit>(alloc, conn, beside, none)? else {
        return Ok(false);
    };
    let Some(book) = audit.judged(&known.beside.flights) else {
        return Ok(false);
    };
    known.book = book;
    Ok(true)
}
