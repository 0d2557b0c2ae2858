//! Look-ups of numbers.
//! Histories of waybills.

ghost use Rattle.std.specs.Prelude.{◌≡◌, ◌++◌, ◌∷◌, [], false, Err, IfOk, OnOk, Some, None, option_map, string_bytes};
ghost use Rattle.cli_run.specs.Common.{Data, compact_text, holder_data, waybill_data, StaysInService, IfSound, IfWorks, OnlyReads};
ghost use Rattle.cli_run.specs.Done.{holder_found, waybill_found, HasLookedUp, HasToldFound, HasReadHistory, HasToldHistory};

use crate::answering::send_part;
use crate::telling::{RunFault, keeper_fault};
use agent_stock::Holder;
use awb_number::Awb;
use http_desk::{history_text, holder_text, waybill_text};
use station_core::{ByteOut, Keeper, Waybill};
use std::alloc::{AllocError, Global};

const UNKNOWN: &[u8] = b"unknown\n";

fn object_line(alloc: Global, object: &str) -> Result<String, AllocError>
    ensures { IfOk result (λ line. string_bytes line ≡ object.now ++ 10 ∷ []) }
{
    format!(in alloc; "{object}\n")
}

/// Writes the line of an object, unless memory ran out for it.
fn tell_object<W: ByteOut>(
    alloc: Global,
    object: Result<String, AllocError>,
    output: &mut W,
) -> Result<bool, RunFault>
    ensures told { (d : Data) → IfOk object (λ text. string_bytes text ≡ compact_text d)
        → HasToldFound (Some d) (W.taken output.old) (W.taken output.new) result }
    ensures store { result ≡ Err RunFault.Store → ⊥ }
{
    let Ok(object) = object else {
        return Err(RunFault::Memory);
    };
    let Ok(line) = object_line(alloc, object.as_str()) else {
        return Err(RunFault::Memory);
    };
    send_part(output, line.as_bytes())?;
    Ok(true)
}

pub(crate) fn tell_unknown<W: ByteOut>(output: &mut W) -> Result<bool, RunFault>
    ensures told { HasToldFound None (W.taken output.old) (W.taken output.new) result }
    ensures store { result ≡ Err RunFault.Store → ⊥ }
{
    send_part(output, UNKNOWN)?;
    Ok(false)
}

fn tell_waybill<W: ByteOut>(
    alloc: Global,
    number: &Awb,
    known: &Option<Waybill>,
    output: &mut W,
) -> Result<bool, RunFault>
    ensures told { HasToldFound (option_map (waybill_data number.now) known.now)
        (W.taken output.old) (W.taken output.new) result }
    ensures store { result ≡ Err RunFault.Store → ⊥ }
{
    match known {
        Some(known) => tell_object(alloc, waybill_text(alloc, number, known), output),
        None => tell_unknown(output),
    }
}

fn tell_holder<W: ByteOut>(
    alloc: Global,
    number: &Awb,
    holder: &Option<Holder>,
    output: &mut W,
) -> Result<bool, RunFault>
    ensures told { HasToldFound (option_map (holder_data number.now) holder.now)
        (W.taken output.old) (W.taken output.new) result }
    ensures store { result ≡ Err RunFault.Store → ⊥ }
{
    match holder {
        Some(holder) => tell_object(alloc, holder_text(alloc, number, holder), output),
        None => tell_unknown(output),
    }
}

/// Runs `waybill AWB`: writes the record of a waybill.
pub(crate) fn do_waybill<K: Keeper, W: ByteOut>(
    alloc: Global,
    keeper: &mut K,
    number: &Awb,
    output: &mut W,
) -> Result<bool, RunFault>
    ensures service { StaysInService K.keeping keeper.old keeper.new result }
    ensures looked { HasLookedUp (waybill_found number.now) K.keeping
        (keeper.old, W.taken output.old) (keeper.new, W.taken output.new) result }
{
    match keeper.waybill(number) {
        Ok(known) => tell_waybill(alloc, number, &known, output),
        Err(fault) => Err(keeper_fault(fault)),
    }
}

/// Runs `holder AWB`: writes the holder of a number.
pub(crate) fn do_holder<K: Keeper, W: ByteOut>(
    alloc: Global,
    keeper: &mut K,
    number: &Awb,
    output: &mut W,
) -> Result<bool, RunFault>
    ensures service { StaysInService K.keeping keeper.old keeper.new result }
    ensures looked { HasLookedUp (holder_found number.now) K.keeping
        (keeper.old, W.taken output.old) (keeper.new, W.taken output.new) result }
{
    match keeper.holder(number) {
        Ok(holder) => tell_holder(alloc, number, &holder, output),
        Err(fault) => Err(keeper_fault(fault)),
    }
}

/// Writes the history of a waybill with this record. The keeper works.
fn tell_known<K: Keeper, W: ByteOut>(
    alloc: Global,
    keeper: &mut K,
    number: &Awb,
    known: &Waybill,
    output: &mut W,
) -> Result<bool, RunFault>
    ensures reads { OnlyReads K.keeping keeper.old keeper.new }
    ensures fault { IfWorks K.keeping keeper.old keeper.new
        (λ s. result ≡ Err RunFault.Store → K.keeping.may_fail) }
    ensures told { IfSound K.keeping keeper.old keeper.new (λ s. HasToldHistory s number.now
        (Some known.now) (W.taken output.old) (W.taken output.new) result) }
{
    match history_text(alloc, keeper, number, known) {
        Ok(text) => match send_part(output, text.as_slice()) {
            Ok(()) => Ok(true),
            Err(fault) => Err(fault),
        },
        Err(fault) => Err(keeper_fault(fault)),
    }
}

/// Runs `history AWB`: writes the record of a waybill, its moves, its trail and its status
/// messages.
#[tactic(auto, using(crate::proofs::Histories::known_found, crate::proofs::Histories::unknown_found))]
pub(crate) fn do_history<K: Keeper, W: ByteOut>(
    alloc: Global,
    keeper: &mut K,
    number: &Awb,
    output: &mut W,
) -> Result<bool, RunFault>
    ensures service { StaysInService K.keeping keeper.old keeper.new result }
    ensures history { HasReadHistory K.keeping number.now (keeper.old, W.taken output.old)
        (keeper.new, W.taken output.new) result }
{
    match keeper.waybill(number) {
        Ok(Some(known)) => tell_known(alloc, keeper, number, &known, output),
        Ok(None) => tell_unknown(output),
        Err(fault) => Err(keeper_fault(fault)),
    }
}
