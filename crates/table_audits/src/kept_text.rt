ghost use Rattle.std.specs.Prelude.{◌≡◌, ◌≢◌, ◌≤◌, ◌<◌, ◌↔◌, [], map, length, List, IsTrue};
ghost use Rattle.std.specs.List.{AllWithin, HoldsAt};
ghost use Rattle.std.specs.List.Sorted.{IsPermutation};
ghost use Rattle.table_audits.specs.Common.{entries, Tables, kept_text_entry, part_entry, is_kept_text_row, Survives, state};
ghost use Rattle.table_audits.specs.Lawful.{IsLawfulTable};
ghost use Rattle.table_audits.specs.declared.name.TableName.TheVariants as table;
ghost use Rattle.table_audits.specs.Taken.{AreByText, AreTextsTaken, AreTextsSought};
ghost use Rattle.table_audits.specs.Verdict.{Audits};

use crate::rows::Known;
use row_codec::count_of;
use sqlite::{Alter, Connection, Error};
use std::alloc::Global;
use table_load::{KeptTextEntry, PartEntry, RowFold, fold_rows};

/// Returns whether the row is in range. Its body is a text by its type.
#[tactic(auto, using(crate::proofs::Texts::kept_text_is))]
fn is_in_range(row: &KeptTextEntry) -> bool
    ensures { result ≡ is_kept_text_row (kept_text_entry row.now) }
{
    count_of(row.count).is_some()
}

/// Puts the parts in the order of their texts.
fn sort_by_text(parts: &mut [PartEntry])
    ensures same { IsPermutation parts.old parts.new }
    ensures len { length parts.new ≡ length parts.old }
    ensures by_text { AreByText parts.new }
{
    parts.sort_unstable_by(|part, next| part.body.as_str().cmp(next.body.as_str()));
}

/// Returns the index of the first part from `from` on that has another text, or the number of parts
/// if there is none.
fn past(parts: &[PartEntry], from: usize, text: &str) -> usize
    ensures range { from ≤ length parts.now → (from ≤ result) × (result ≤ length parts.now) }
    ensures same { AllWithin (λ (part : PartEntry). (part_entry part).1 ≡ text.now)
        parts.now from result }
    ensures other { result < length parts.now
        → HoldsAt (λ (part : PartEntry). (part_entry part).1 ≢ text.now) parts.now result }
{
    for at in from..parts.len() {
        if parts[at].body.as_str() != text {
            return at;
        }
    }
    parts.len()
}

/// The audit of `kept_text`, whose rows are added in the order of their texts, with the parts in
/// the order of theirs.
#[derive(Drop)]
pub(crate) struct KeptTexts {
    /// True if each row is in range.
    pub(crate) are_in_range: bool,
    /// The number of parts whose texts were found. The text of the next part is sought.
    pub(crate) found: usize,
}

impl KeptTexts {
    /// Starts without rows.
    fn new() -> KeptTexts
        ensures { (parts : List PartEntry) → AreTextsSought parts result [] }
    {
        KeptTexts {
            are_in_range: true,
            found: 0,
        }
    }

    /// Returns whether the rows are lawful with the rows of `part`, which are lawful. `parts` has
    /// those in the order of their texts.
    fn are_lawful(&self, parts: &[PartEntry]) -> bool
        ensures exact { (t : Tables) (listed : List PartEntry) (rows : List KeptTextEntry)
            → IsLawfulTable table.Part t → entries t.parts ≡ map part_entry listed
            → IsPermutation listed parts.now → entries t.kept_texts ≡ map kept_text_entry rows
            → AreTextsTaken parts.now self.now rows
            → (IsTrue result ↔ IsLawfulTable table.KeptText t) }
    {
        self.are_in_range && self.found == parts.len()
    }
}

impl RowFold<KeptTextEntry> for KeptTexts {
    ghost use Rattle.table_audits.specs.Taken.{AreTextsSought};

    type Beside = Vec<PartEntry>;

    ghost has = { λ parts texts rows. AreTextsSought parts.items texts rows };

    fn take(&mut self, parts: &Vec<PartEntry>, row: KeptTextEntry) -> Result<(), Error> {
        self.found = past(parts, self.found, &row.body);
        if is_in_range(&row) {
            return Ok(());
        }
        self.are_in_range = false;
        Ok(())
    }
}

/// Reads `kept_text`, row by row, and seeks the texts of the parts. Returns whether it exists and is
/// lawful. The parts aren't kept any longer.
pub(crate) fn is_good<S: Alter>(
    alloc: Global,
    conn: &mut Connection<S>,
    known: &mut Known,
) -> Result<bool, Error>
    ensures read { Audits S.Store conn.old conn.new result table.KeptText known.old known.new }
    ensures survives { Survives (state S.Store conn.old) (state S.Store conn.new) (λ _. ⊥) }
{
    sort_by_text(&mut known.parts);
    let none = KeptTexts::new();
    let parts = &known.parts;
    let Some(texts) = fold_rows::<S, KeptTextEntry, KeptTexts>(alloc, conn, parts, none)? else {
        return Ok(false);
    };
    let are_lawful = texts.are_lawful(&known.parts);
    known.parts = Vec::new(alloc);
    Ok(are_lawful)
}
