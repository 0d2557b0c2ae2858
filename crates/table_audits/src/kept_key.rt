ghost use Rattle.std.specs.Prelude.{◌≡◌, ◌↔◌, ◌&&◌, [], IsTrue};
ghost use Rattle.table_audits.specs.Common.{kept_key_entry, IsRequest, is_kept_row, Survives, state};
ghost use Rattle.table_audits.specs.declared.name.TableName.TheVariants as table;
ghost use Rattle.table_audits.specs.Taken.{IsLawfulKept, AreKeysTaken};
ghost use Rattle.table_audits.specs.Verdict.{Audits};

use crate::rows::Known;
use desk_commands::read_command_text;
use row_codec::count_of;
use sqlite::{Alter, Connection, Error};
use station_core::Key;
use std::alloc::Global;
use table_load::{KeptKeyEntry, RowFold, fold_rows};

/// Returns whether the row is in range. Its command is a text by its type.
#[tactic(auto, using(crate::proofs::Texts::kept_key_is))]
fn is_in_range(row: &KeptKeyEntry) -> bool
    ensures { result ≡ is_kept_row (kept_key_entry row.now) }
{
    Key::read(row.id.as_bytes()).is_some() && count_of(row.count).is_some()
}

fn is_request(text: &str) -> bool
    ensures request { IsTrue result → IsRequest text.now }
    ensures other { IsRequest text.now → IsTrue result }
{
    read_command_text(text.as_bytes()).is_some()
}

/// Returns whether the row is in range, with the text of a command.
fn is_lawful(row: &KeptKeyEntry) -> bool
    ensures { IsTrue result ↔ IsLawfulKept (kept_key_entry row.now) }
{
    is_in_range(row) && is_request(&row.command)
}

/// The audit of `kept_key`, whose rows are added one after another.
#[derive(Drop)]
pub(crate) struct KeptKeys {
    /// True if each of them is lawful.
    pub(crate) are_lawful: bool,
}

impl KeptKeys {
    /// Starts without rows.
    pub(crate) fn new() -> KeptKeys
        ensures { AreKeysTaken result [] }
    {
        KeptKeys { are_lawful: true }
    }
}

impl RowFold<KeptKeyEntry> for KeptKeys {
    ghost use Rattle.table_audits.specs.Taken.{AreKeysTaken};

    type Beside = ();

    ghost has = { λ _ keys rows. AreKeysTaken keys rows };

    fn take(&mut self, beside: &(), row: KeptKeyEntry) -> Result<(), Error> {
        let _ = beside;
        if is_lawful(&row) {
            return Ok(());
        }
        self.are_lawful = false;
        Ok(())
    }
}

/// Reads `kept_key`, row by row. Returns whether it exists and is lawful.
pub(crate) fn is_good<S: Alter>(
    alloc: Global,
    conn: &mut Connection<S>,
    known: &Known,
) -> Result<bool, Error>
    ensures read { Audits S.Store conn.old conn.new result table.KeptKey known.now known.now }
    ensures survives { Survives (state S.Store conn.old) (state S.Store conn.new) (λ _. ⊥) }
{
    let none = KeptKeys::new();
    let Some(keys) = fold_rows::<S, KeptKeyEntry, KeptKeys>(alloc, conn, &(), none)? else {
        return Ok(false);
    };
    Ok(keys.are_lawful)
}
