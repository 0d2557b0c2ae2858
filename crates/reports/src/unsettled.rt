//! The waybills whose missing and found pieces don't even out.
ghost use Rattle.std.specs.Prelude.{◌≡◌, ◌+◌, ◌==◌, ◌++◌, ◌∷◌, [], false, filter, not, IfErr, IfOk};
ghost use Rattle.reports.specs.Common.{IfSound, IsReadersFault, OnlyReads, Reads};
ghost use Rattle.reports.specs.Reports.{is_uneven, is_unsettled, open_irregular_rows};

use crate::days::gathered;
use crate::readings::{IrregularReading, Reading};
use awb_number::Awb;
use station_core::{ActFault, IrregularRow, Keeper, Sink, Waybill, hand_out};
use std::alloc::Global;

/// Returns whether the pieces in store and those that left aren't as many as are declared.
fn are_uneven(store: u32, departed: u32, delivered: u32, transferred: u32, declared: u32) -> bool
    ensures { result ≡ not (store + departed + delivered + transferred == declared) }
{
    let kept = u64::from(store) + u64::from(departed) + u64::from(delivered);
    kept + u64::from(transferred) != u64::from(declared)
}

fn is_uneven(waybill: &Waybill) -> bool
    ensures { result ≡ is_uneven waybill.now }
{
    are_uneven(
        waybill.store.pieces,
        waybill.departed.pieces,
        waybill.delivered.pieces,
        waybill.transferred.pieces,
        waybill.declared.pieces.number(),
    )
}

fn is_unsettled<K: Keeper>(keeper: &mut K, awb: &Awb) -> Result<bool, ActFault>
    ensures { Reads K.keeping keeper.old keeper.new result
        (λ s unsettled. unsettled ≡ is_unsettled s.cargo awb.now) }
{
    match keeper.waybill(awb)? {
        Some(waybill) => Ok(is_uneven(&waybill)),
        None => Ok(true),
    }
}

/// Puts a row behind the others, if its waybill is unsettled.
fn put_unsettled<K: Keeper>(
    keeper: &mut K,
    rows: &mut Vec<IrregularRow>,
    row: IrregularRow,
) -> Result<(), ActFault>
    ensures { Reads K.keeping keeper.old keeper.new result (λ s done. rows.new.items
        ≡ rows.old.items ++ filter (λ row. is_unsettled s.cargo row.awb) (row ∷ [])) }
{
    if !is_unsettled(keeper, &row.awb)? {
        return Ok(());
    }
    match rows.push(row) {
        Ok(()) => Ok(()),
        Err(_) => Err(ActFault::Memory),
    }
}

/// Returns the rows of unsettled waybills among these.
fn unsettled_among<K: Keeper>(
    alloc: Global,
    keeper: &mut K,
    rows: &[IrregularRow],
) -> Result<Vec<IrregularRow>, ActFault>
    ensures reads { OnlyReads K.keeping keeper.old keeper.new }
    ensures fault { K.keeping.is_broken keeper.old ≡ false
        → IfErr result (IsReadersFault K.keeping.may_fail) }
    ensures rows { IfSound K.keeping keeper.old keeper.new (λ s. IfOk result (λ unsettled.
        unsettled.items ≡ filter (λ row. is_unsettled s.cargo row.awb) rows.now)) }
{
    let mut unsettled = Vec::new(alloc);
    for row in rows {
        put_unsettled(keeper, &mut unsettled, *row)?;
    }
    Ok(unsettled)
}

/// Returns the rows of all unsettled waybills, ascending.
fn unsettled_rows<K: Keeper>(alloc: Global, keeper: &mut K) -> Result<Vec<IrregularRow>, ActFault>
    ensures { Reads K.keeping keeper.old keeper.new result
        (λ s rows. rows.items ≡ open_irregular_rows s.cargo) }
{
    let rows = gathered(alloc, keeper, &IrregularReading)?;
    unsettled_among(alloc, keeper, &rows)
}

/// The waybills with missing or found pieces that don't even out.
#[derive(Drop)]
pub(crate) struct UnsettledReading {
    pub(crate) alloc: Global,
}

impl Reading<IrregularRow> for UnsettledReading {
    ghost rows = { λ reading s rows. rows ≡ open_irregular_rows s.cargo };

    fn hand_out<K: Keeper, S: Sink<IrregularRow>>(
        &self,
        keeper: &mut K,
        sink: &mut S,
    ) -> Result<(), ActFault> {
        match unsettled_rows(self.alloc, keeper) {
            Ok(rows) => {
                hand_out(sink, rows);
                Ok(())
            }
            Err(fault) => Err(fault),
        }
    }
}
