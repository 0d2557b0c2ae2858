//! A dry run as a JSON object.

ghost use Rattle.std.specs.Prelude.{◌≡◌, ◌++◌, [], IfOk, OnOk, filter_map, map, option_map, string_bytes};
ghost use Rattle.input_reasons.specs.Common.{cons_option, IsAscii, string, compact_text};
ghost use Rattle.input_reasons.specs.Look.{cargo_members, dropped_object, list_text, look_object, message_members, part_members, passed_object, read_object, route_members, text_members, text_object, total_value};

use crate::look::{DroppedLine, LinePart, Look, SeenLine};
use awb_number::ascii_text;
use imp_fields::Pieces;
use serde_json::json;
use shipment_machine::{CargoLine, TrailLine};
use std::alloc::{AllocError, Global};
use telegrams::{Content, PartContent};

fn part_members(alloc: Global, part: &PartContent) -> Result<String, AllocError>
    ensures { IfOk result (λ text. string_bytes text ≡ part_members part.now) }
{
    let (flight, date, loaded) = (part.flight, part.date.write(), part.loaded);
    let (date, number) = (ascii_text(&date), part.sequence.number());
    format!(in alloc;
        "\"part\":{number},\"flight\":\"{flight}\",\"date\":\"{date}\",\"loaded\":\"{loaded}\""
    )
}

fn message_members(alloc: Global, says: &Content<'_>) -> Result<String, AllocError>
    ensures { IfOk result (λ text. string_bytes text ≡ message_members says.now) }
{
    match says {
        Content::Fwb(_) => String::from_str(alloc, "\"kind\":\"FWB\""),
        Content::Ffm(part) => {
            let members = part_members(alloc, part)?;
            format!(in alloc; "\"kind\":\"FFM\",{members}")
        }
        Content::Fsu(status) => {
            let awb = status.awb;
            format!(in alloc; "\"kind\":\"FSU\",\"awb\":\"{awb}\"")
        }
    }
}

fn total_value(alloc: Global, total: Option<Pieces>) -> Result<String, AllocError>
    ensures { IfOk result (λ text. string_bytes text ≡ total_value total) }
{
    match total {
        Some(total) => format!(in alloc; "{total}"),
        None => String::from_str(alloc, "null"),
    }
}

fn route_members(alloc: Global, number: u32, cargo: &CargoLine) -> Result<String, AllocError>
    ensures { IfOk result (λ text. string_bytes text ≡ route_members number cargo.now) }
{
    let (awb, origin, destination) = (cargo.awb, cargo.origin, cargo.destination);
    format!(in alloc;
        "\"line\":{number},\"awb\":\"{awb}\",\"origin\":\"{origin}\",\"destination\":\"{destination}\""
    )
}

/// Returns the members of a line's number and its cargo.
fn cargo_members(alloc: Global, number: u32, cargo: &CargoLine) -> Result<String, AllocError>
    ensures { IfOk result (λ text. string_bytes text ≡ cargo_members number cargo.now) }
{
    let route = route_members(alloc, number, cargo)?;
    let total = total_value(alloc, cargo.total)?;
    let (pieces, tenths) = (cargo.pieces.number(), cargo.tenths.number());
    format!(in alloc; "{route},\"pieces\":{pieces},\"tenths\":{tenths},\"total\":{total}")
}

fn quoted(alloc: Global, text: &str) -> Result<String, AllocError>
    ensures { IfOk result (λ quoted. string_bytes quoted ≡ compact_text (string text.now)) }
{
    json!(in alloc; text)?.to_string(alloc)
}

#[tactic(auto, using(crate::proofs::Texts::flag_is))]
fn text_members(alloc: Global, text: &TrailLine<'_>, doubtful: bool) -> Result<String, AllocError>
    ensures { IfOk result (λ members. string_bytes members ≡ text_members text.now doubtful) }
{
    let text = quoted(alloc, ascii_text(text.as_bytes()))?;
    format!(in alloc; "\"text\":{text},\"doubtful\":{doubtful}")
}

fn text_object(alloc: Global, line: &SeenLine<'_>) -> Result<String, AllocError>
    ensures { IfOk result (λ object. string_bytes object ≡ text_object line.now.number line.now.text
        line.now.doubtful) }
{
    let (number, members) = (line.number, text_members(alloc, &line.text, line.doubtful)?);
    format!(in alloc; "{{\"line\":{number},{members}}}")
}

fn read_object(alloc: Global, line: &SeenLine<'_>) -> Result<Option<String>, AllocError>
    ensures { IfOk result (λ object. option_map string_bytes object ≡ read_object line.now) }
{
    match &line.part {
        LinePart::Declared(cargo) => {
            let members = cargo_members(alloc, line.number, cargo)?;
            Ok(Some(format!(in alloc; "{{{members}}}")?))
        }
        LinePart::Loaded(loaded) => {
            let members = cargo_members(alloc, line.number, &loaded.cargo)?;
            let unload = loaded.unload;
            Ok(Some(format!(in alloc; "{{{members},\"unload\":\"{unload}\"}}")?))
        }
        LinePart::Status => Ok(Some(text_object(alloc, line)?)),
        _ => Ok(None),
    }
}

fn passed_object(alloc: Global, line: &SeenLine<'_>) -> Result<Option<String>, AllocError>
    ensures { IfOk result (λ object. option_map string_bytes object ≡ passed_object line.now) }
{
    match &line.part {
        LinePart::Passed => Ok(Some(text_object(alloc, line)?)),
        _ => Ok(None),
    }
}

fn dropped_object(alloc: Global, line: &DroppedLine<'_>) -> Result<String, AllocError>
    ensures { IfOk result (λ object. string_bytes object ≡ dropped_object line.now) }
{
    let members = text_members(alloc, &line.text, line.doubtful)?;
    format!(in alloc; "{{{members}}}")
}

fn put_object(objects: &mut Vec<String>, object: Option<String>) -> Result<(), AllocError>
    ensures { OnOk result (map string_bytes objects.new.items
        ≡ map string_bytes objects.old.items ++ cons_option (option_map string_bytes object) []) }
{
    match object {
        Some(object) => Ok(objects.push(object)?),
        None => Ok(()),
    }
}

fn list_text(alloc: Global, objects: &[String]) -> Result<String, AllocError>
    ensures { IfOk result (λ text. string_bytes text ≡ list_text (map string_bytes objects.now)) }
{
    let joined = objects.join(alloc, ",")?;
    format!(in alloc; "[{joined}]")
}

fn dropped_list(alloc: Global, lines: &[DroppedLine<'_>]) -> Result<String, AllocError>
    ensures { IfOk result (λ text. string_bytes text ≡ list_text (map dropped_object lines.now)) }
{
    let mut objects = Vec::new(alloc);
    for line in lines {
        objects.push(dropped_object(alloc, line)?)?;
    }
    list_text(alloc, objects.as_slice())
}

fn read_list(alloc: Global, lines: &[SeenLine<'_>]) -> Result<String, AllocError>
    ensures { IfOk result (λ text. string_bytes text ≡ list_text (filter_map read_object
        lines.now)) }
{
    let mut objects = Vec::new(alloc);
    for line in lines {
        put_object(&mut objects, read_object(alloc, line)?)?;
    }
    list_text(alloc, objects.as_slice())
}

fn passed_list(alloc: Global, lines: &[SeenLine<'_>]) -> Result<String, AllocError>
    ensures { IfOk result (λ text. string_bytes text ≡ list_text (filter_map passed_object
        lines.now)) }
{
    let mut objects = Vec::new(alloc);
    for line in lines {
        put_object(&mut objects, passed_object(alloc, line)?)?;
    }
    list_text(alloc, objects.as_slice())
}

/// Returns a dry run as one JSON object without spaces. Its members, in this order:
///
/// - `kind`: `FWB`, `FFM` or `FSU`. An FFM also has `part`, `flight`, `date` and `loaded`, an FSU
///   `awb`;
/// - `dropped`: each line before the message, an object of `text` and `doubtful`;
/// - `read`: for an FWB its consignment and for an FFM each consignment, an object of `line`,
///   `awb`, `origin`, `destination`, `pieces`, `tenths` (of a kilogram) and `total` (pieces, or
///   `null`), for an FFM also `unload`; for an FSU each status line, an object of `line`, `text`
///   and `doubtful`;
/// - `passed`: each line that is ignored, an object of `line`, `text` and `doubtful`;
/// - `doubtful`: whether any line is doubtful.
///
/// It fails only if memory runs out.
pub fn look_object(alloc: Global, look: &Look<'_>) -> Result<String, AllocError>
    ensures text { IfOk result (λ text. string_bytes text ≡ look_object look.now) }
{
    let message = message_members(alloc, look.telegram.content())?;
    let dropped = dropped_list(alloc, look.dropped.as_slice())?;
    let read = read_list(alloc, look.lines.as_slice())?;
    let passed = passed_list(alloc, look.lines.as_slice())?;
    let doubtful = look.is_doubtful();
    format!(in alloc;
        "{{{message},\"dropped\":{dropped},\"read\":{read},\"passed\":{passed},\"doubtful\":{doubtful}}}"
    )
}
