//! The writer of manifests.

ghost use Rattle.std.specs.Prelude.{◌≡◌, ◌≤◌, ◌++◌, ℕ, List, Ok, length, take, map, OnOk, OnErr};
ghost use Rattle.ffm_text.specs.Common.{normal_lines, sent_text, goods_text, consignment_text, Designator, most_waybills, CalendarDay};
ghost use Rattle.ffm_text.specs.Ffm.{IsFfm, cargo_of, flight_line_text, ffm_lines, manifest_written, AreWritten, Begins, line_text, load_line, route_text, amount_text};
ghost use Rattle.ffm_text.specs.declared.Load.{Load};

use crate::Load;
use crate::reading::written_known;
use imp_fields::{Airport, Flight, Goods, ShipmentCode, put_quantity};
use station_days::DayMonth;
use std::alloc::AllocError;

/// Appends a text.
fn put(out: &mut Vec<u8>, text: &[u8]) -> Result<(), AllocError>
    ensures text { OnOk result (out.new.items ≡ out.old.items ++ text.now) }
    ensures begins { Begins out.old.items out.new.items }
{
    out.extend_from_slice(text)
}

fn put_line(out: &mut Vec<u8>, line: &[u8]) -> Result<(), AllocError>
    ensures text { OnOk result (out.new.items ≡ out.old.items ++ line_text line.now) }
    ensures begins { Begins out.old.items out.new.items }
{
    put(out, line)?;
    put(out, b"\r\n")
}

fn put_flight_line(
    out: &mut Vec<u8>,
    flight: Flight,
    date: DayMonth,
    here: Airport,
) -> Result<(), AllocError>
    ensures text { OnOk result
        (out.new.items ≡ out.old.items ++ line_text (flight_line_text flight date here)) }
    ensures begins { Begins out.old.items out.new.items }
{
    let mut designator = [0; 7];
    let end = flight.write(&mut designator);
    put(out, b"1/")?;
    put(out, &designator[..end])?;
    put(out, b"/")?;
    put(out, &date.write())?;
    put(out, b"/")?;
    put_line(out, &here.letters())
}

/// Appends the number and the route of a load, and a slash.
fn put_route(out: &mut Vec<u8>, load: &Load) -> Result<(), AllocError>
    ensures text { OnOk result (out.new.items ≡ out.old.items ++ route_text load.now) }
    ensures begins { Begins out.old.items out.new.items }
{
    put(out, &load.awb.write())?;
    put(out, &load.origin.letters())?;
    put(out, &load.destination.letters())?;
    put(out, b"/")
}

/// Appends the quantity of a load: with code T if all declared pieces are on the flight, otherwise
/// with code P and the declared pieces as the total.
fn put_amount(out: &mut Vec<u8>, load: &Load) -> Result<(), AllocError>
    ensures text { OnOk result (out.new.items ≡ out.old.items ++ amount_text load.now) }
    ensures begins { Begins out.old.items out.new.items }
{
    let mut quantity = [0; 18];
    let end = if load.pieces == load.declared {
        put_quantity(
            &mut quantity,
            ShipmentCode::Total,
            load.pieces,
            load.tenths,
            None,
        )
    } else {
        let total = Some(load.declared);
        put_quantity(
            &mut quantity,
            ShipmentCode::Part,
            load.pieces,
            load.tenths,
            total,
        )
    };
    put(out, &quantity[..end])
}

/// Appends a slash and the goods, if there are any.
fn put_goods(out: &mut Vec<u8>, goods: &Goods) -> Result<(), AllocError>
    ensures text { OnOk result (out.new.items ≡ out.old.items ++ goods_text goods.now) }
    ensures begins { Begins out.old.items out.new.items }
{
    let goods = goods.as_bytes();
    if goods.is_empty() {
        return Ok(());
    }
    put(out, b"/")?;
    put(out, goods)
}

fn put_load(out: &mut Vec<u8>, load: &Load) -> Result<(), AllocError>
    ensures text { OnOk result (out.new.items ≡ out.old.items ++ line_text (load_line load.now)) }
    ensures begins { Begins out.old.items out.new.items }
{
    put_route(out, load)?;
    put_amount(out, load)?;
    put_goods(out, &load.goods)?;
    put(out, b"\r\n")
}

fn put_loads(out: &mut Vec<u8>, loads: &[Load]) -> Result<(), AllocError>
    ensures text { OnOk result
        (out.new.items ≡ out.old.items ++ sent_text (map load_line loads.now)) }
    ensures begins { Begins out.old.items out.new.items }
{
    for load in loads {
        put_load(out, load)?;
    }
    Ok(())
}

/// Appends a manifest, or a prefix if memory runs out.
fn put_manifest(
    out: &mut Vec<u8>,
    flight: Flight,
    date: DayMonth,
    here: Airport,
    unload: Airport,
    loads: &[Load],
) -> Result<(), AllocError>
    ensures text { OnOk result
        (out.new.items ≡ out.old.items ++ sent_text (ffm_lines flight date here unload loads.now)) }
    ensures begins { Begins out.old.items out.new.items }
{
    put_line(out, b"FFM/8")?;
    put_flight_line(out, flight, date, here)?;
    put_line(out, &unload.letters())?;
    put_loads(out, loads)?;
    put_line(out, b"LAST")
}

/// Appends a manifest in one part: the loads of a flight on a date from one airport to another.
/// Each line ends with CR LF. The text is read back as the values written. The buffer's allocator
/// is used.
///
/// If memory runs out, the buffer is unchanged.
pub fn write_ffm(
    out: &mut Vec<u8>,
    flight: Flight,
    date: DayMonth,
    here: Airport,
    unload: Airport,
    loads: &[Load],
) -> Result<(), AllocError>
    requires count { length loads.now ≤ most_waybills }
    ensures ok { OnOk result
        (out.new.items ≡ out.old.items ++ sent_text (ffm_lines flight date here unload loads.now)) }
    ensures err { OnErr result (out.new.items ≡ out.old.items) }

    // The sent lines are normal, and are read back as the values written.
    ensures normal { normal_lines (sent_text (ffm_lines flight date here unload loads.now))
        ≡ Ok (ffm_lines flight date here unload loads.now) }
    ensures read_again { IsFfm (ffm_lines flight date here unload loads.now)
        (manifest_written flight date here unload loads.now) }
{
    written_known(&flight, &date, &here, &unload, loads);
    let before = out.len();
    let written = put_manifest(out, flight, date, here, unload, loads);
    if written.is_err() {
        out.truncate(before);
    }
    written
}
