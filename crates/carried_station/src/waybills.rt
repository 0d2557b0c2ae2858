//! The waybills of an old and a new file, compared.
ghost use Rattle.std.specs.Prelude.{◌≡◌, ◌≢◌, ℕ, Bool, not, IfOk, IfSome, None, map};
ghost use Rattle.carried_station.specs.Carried.{if_carried};
ghost use Rattle.carried_station.specs.Common.{IsAscending, filter, is_in, option_map};
ghost use Rattle.carried_station.specs.Compared.{declared_by, rows_without};
ghost use Rattle.carried_station.specs.Walk.{left_of, same_declared, stands_at};

use awb_number::Awb;
use shipment_machine::Declared;
use std::alloc::{AllocError, Global};

/// A waybill's number and its declaration.
#[derive(Clone, Copy)]
pub struct WaybillRow {
    pub awb: Awb,
    pub declared: Declared,
}

/// Returns whether two declarations are the same.
fn is_same(one: &Declared, two: &Declared) -> bool
    ensures { result ≡ same_declared one.now two.now }
{
    one.origin == two.origin
        && one.destination == two.destination
        && one.pieces == two.pieces
        && one.tenths == two.tenths
        && one.goods.as_bytes() == two.goods.as_bytes()
        && one.notified == two.notified
        && one.since == two.since
}

/// Returns whether the row stands at an index.
fn is_row(rows: &[WaybillRow], at: usize, row: &WaybillRow) -> bool
    ensures { result ≡ stands_at rows.now at row.now }
{
    at < rows.len() && rows[at].awb == row.awb && is_same(&rows[at].declared, &row.declared)
}

/// Walks through the old rows and the new ones.
fn walk(
    alloc: Global,
    old: &[WaybillRow],
    new: &[WaybillRow],
) -> Result<Option<Vec<Awb>>, AllocError>
    ensures { IfOk result (λ found. option_map (λ left. left.items) found
        ≡ left_of old.now new.now) }
{
    let mut left = Vec::new(alloc);
    let mut at = 0;
    for row in old {
        if is_row(new, at, row) {
            at += 1;
        } else {
            left.push(row.awb)?;
        }
    }
    if at < new.len() {
        return Ok(None);
    }
    Ok(Some(left))
}

/// Returns the waybills that are left out, if the new rows are all the others, as they were. The
/// old rows are ascending.
pub fn left_out(
    alloc: Global,
    old: &[WaybillRow],
    new: &[WaybillRow],
) -> Result<Option<Vec<Awb>>, AllocError>
    ensures found { IsAscending (map (λ row. row.awb) old.now)
        → IfOk result (λ found. IfSome found (λ left. new.now ≡ rows_without left.items old.now)) }
    ensures declared { IsAscending (map (λ row. row.awb) old.now)
        → IfOk result (λ found. IfSome found (λ left. (w : ℕ) → declared_by new.now w
        ≡ if_carried (not (is_in w left.items)) (declared_by old.now w))) }
    ensures none { IsAscending (map (λ row. row.awb) old.now)
        → IfOk result (λ found. found ≡ None
        → (keeps : ℕ → Bool) → new.now ≢ filter (λ row. keeps row.awb) old.now) }
{
    walk(alloc, old, new)
}
