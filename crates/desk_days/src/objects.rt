//! Records of numbers as JSON objects, with their members in the order of their names.
use agent_stock::Holder;
use awb_number::Awb;
use desk_commands::day_text;
use serde_json::Value;
use shipment_machine::{Amount, Declared};
use station_core::Waybill;
use std::alloc::{AllocError, Global};

fn holder_word(holder: &Holder) -> &'static str {
    match holder {
        Holder::Desk => "desk",
        Holder::Agent(_) => "agent",
        Holder::Used => "used",
        Holder::Void => "void",
    }
}

pub fn holder_object(alloc: Global, awb: &Awb, holder: &Holder) -> Result<String, AllocError> {
    let word = holder_word(holder);
    let name = match holder {
        Holder::Agent(code) => code.as_str(),
        _ => "",
    };
    format!(in alloc; "{{\"awb\":\"{awb}\",\"holder\":\"{word}\",\"name\":\"{name}\"}}")
}

fn pair(alloc: Global, amount: &Amount) -> Result<String, AllocError> {
    let (pieces, tenths) = (amount.pieces, amount.tenths);
    format!(in alloc; "[{pieces},{tenths}]")
}

fn quoted(alloc: Global, text: &[u8]) -> Result<String, AllocError> {
    match std::str::from_utf8(text) {
        Ok(text) => Value::String(String::from_str(alloc, text)?).to_string(alloc),
        Err(_) => Err(AllocError),
    }
}

fn since(alloc: Global, declared: &Declared) -> Result<String, AllocError> {
    match declared.since {
        Some(day) => quoted(alloc, &day_text(day)),
        None => quoted(alloc, b""),
    }
}

/// Returns the members from `notified` to `since`.
fn route(alloc: Global, declared: &Declared) -> Result<String, AllocError> {
    let notified = declared.notified;
    let origin = quoted(alloc, &declared.origin.letters())?;
    let pieces = declared.pieces.number();
    let since = since(alloc, declared)?;
    format!(in alloc;
        "\"notified\":{notified},\"origin\":{origin},\"pieces\":{pieces},\"since\":{since}"
    )
}

/// Returns the members from `delivered` to `missing`.
fn left(alloc: Global, waybill: &Waybill) -> Result<String, AllocError> {
    let delivered = pair(alloc, &waybill.delivered)?;
    let departed = pair(alloc, &waybill.departed)?;
    let destination = quoted(alloc, &waybill.declared.destination.letters())?;
    let found = pair(alloc, &waybill.found)?;
    let goods = quoted(alloc, waybill.declared.goods.as_bytes())?;
    let missing = pair(alloc, &waybill.missing)?;
    format!(in alloc;
        "\"delivered\":{delivered},\"departed\":{departed},\"destination\":{destination},\"found\":{found},\"goods\":{goods},\"missing\":{missing}"
    )
}

pub fn waybill_object(alloc: Global, awb: &Awb, waybill: &Waybill) -> Result<String, AllocError> {
    let left = left(alloc, waybill)?;
    let route = route(alloc, &waybill.declared)?;
    let store = pair(alloc, &waybill.store)?;
    let taken = pair(alloc, &waybill.taken)?;
    let tenths = waybill.declared.tenths.number();
    let transferred = pair(alloc, &waybill.transferred)?;
    format!(in alloc;
        "{{\"awb\":\"{awb}\",{left},{route},\"store\":{store},\"taken\":{taken},\"tenths\":{tenths},\"transferred\":{transferred}}}"
    )
}
