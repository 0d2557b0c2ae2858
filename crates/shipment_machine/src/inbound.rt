//! Parts of a manifest that arrived.

ghost use Rattle.std.specs.Prelude.{◌≡◌, ◌≤◌, ℕ, [], ◌∷◌, ◌++◌, Some, None, Ok, nat_eq, OnOk, IfOk, IfErr, IfSome, if◌then◌else◌, length, not, true, false, All};
ghost use Rattle.shipment_machine.specs.Common.{get, resolved};
ghost use Rattle.shipment_machine.specs.Book.{amount, fits};
ghost use Rattle.shipment_machine.specs.Effect.{dated, declared_by, expected_after, lines_for, is_day};
ghost use Rattle.shipment_machine.specs.Lawful.{HasPieces, IsAnswer};
ghost use Rattle.imp_fields.specs.declared.fault.Why.TheVariants as why;
ghost use Rattle.shipment_machine.specs.declared.plans.Detail.TheVariants as detail;
ghost use Rattle.shipment_machine.specs.declared.plans.PlanFault.TheVariants as fault;
ghost use Rattle.shipment_machine.specs.Announced.{is_new, expected_so_far, expected_now, refusal_now, changes_now, first_rows, with_line, no_earlier, announced_changes, part_answer, IsRefusal, IsPartFault};
ghost use Rattle.shipment_machine.specs.declared.plans.Change.TheVariants as change;

use crate::acceptance::{add_declaration, claim_of, declared_as, is_at_desk_or_void};
use crate::command::{CargoLine, CargoRef, InboundLine, InboundPart};
use crate::flight::FlightDate;
use crate::moves::{Declared, Expected, Part, is_within};
use crate::plan_parts::{
    PlanContext, blank, is_same, pieces_of, refuse_waybill, tenths_of, widened,
};
use crate::plans::{Change, Detail, Plan, PlanFault, Refusal};
use crate::view::{LineView, LineViews};
use agent_stock::Holder;
use awb_number::Awb;
use imp_fields::{Airport, Why, book_weight};
use station_days::{DayMonth, LocalDay, Moment, resolve};
use std::alloc::{AllocError, Global};
use std::collections::HashMap;

/// The effect of a line: the declaration, if its waybill is new, and the expectation after it.
#[derive(Clone, Copy)]
struct Finding {
    declared: Option<Declared>,
    expected: Expected,
}

/// Returns the expectation after another line, or `None` if it would exceed the bounds.
fn expected_with(so_far: Option<Expected>, line: &CargoLine) -> Option<Expected>
    ensures { result
        ≡ (if fits (amount (expected_after so_far line.now).pieces
        (expected_after so_far line.now).tenths) then Some (expected_after so_far line.now)
        else None) }
{
    let (pieces, tenths) = match so_far {
        None => (0, 0),
        Some(row) => (row.pieces.number(), row.tenths.number()),
    };
    let own = line.pieces.number();
    let pieces = pieces + own;
    let tenths = tenths + book_weight(own, line.tenths.number());
    if !is_within(widened(pieces), widened(tenths)) {
        return None;
    }
    Some(Expected {
        pieces: pieces_of(pieces),
        tenths: tenths_of(tenths),
        checked: false,
    })
}

/// Tests a line after those before it. `before` is the expectation by an earlier line for its
/// waybill.
fn find(
    before: Option<Expected>,
    line: &CargoLine,
    row: &LineView,
    at: Moment,
) -> Result<Finding, PlanFault>
    ensures due { OnOk result (refusal_now before line.now row.now ≡ None) }
    ensures declared { IfOk result (λ finding. finding.declared
        ≡ (if is_new before row.now then Some (dated at.day (declared_by line.now)) else None)) }
    ensures expected { IfOk result (λ finding. finding.expected
        ≡ expected_now before line.now row.now) }
    ensures refused { IfErr result (IsRefusal (refusal_now before line.now row.now)) }
{
    let new = before.is_none() && row.declared.is_none();
    let so_far = match before {
        None => row.expected,
        Some(row) => Some(row),
    };
    if let Some(row) = &so_far
        && row.checked
    {
        return Err(refuse_waybill(214, line.awb));
    }
    if new && is_at_desk_or_void(row.holder) {
        return Err(refuse_waybill(203, line.awb));
    }
    let declared = if new {
        declared_as(&claim_of(line), at)
    } else {
        None
    };
    if new && declared.is_none() {
        return Err(refuse_waybill(217, line.awb));
    }
    let Some(expected) = expected_with(so_far, line) else {
        return Err(refuse_waybill(217, line.awb));
    };
    Ok(Finding { declared, expected })
}

/// Adds the rows of a tested line, and keeps the expectation of its waybill.
fn write_line<'a>(
    changes: &mut Vec<Change<'a>>,
    earlier: &mut HashMap<u64, Expected>,
    flight: &FlightDate,
    awb: Awb,
    holder: Option<Holder>,
    finding: &Finding,
) -> Result<(), AllocError>
    ensures changes { OnOk result (changes.new.items ≡ changes.old.items
        ++ first_rows finding.now.declared holder awb
        ++ change.Expect flight.now awb finding.now.expected ∷ []) }
    ensures earlier { OnOk result ((q : ℕ) → get nat_eq earlier.new q
        ≡ with_line (get nat_eq earlier.old) awb finding.now.expected q) }
{
    if let Some(declared) = &finding.declared {
        add_declaration(changes, holder, awb, *declared)?;
    }
    changes.push(Change::Expect {
        flight: *flight,
        awb,
        expected: finding.expected,
    })?;
    earlier.insert(awb.key(), finding.expected)?;
    Ok(())
}

/// Tests a line, adds its rows, and keeps the expectation of its waybill.
fn add_line<'a>(
    changes: &mut Vec<Change<'a>>,
    earlier: &mut HashMap<u64, Expected>,
    flight: &FlightDate,
    line: &CargoLine,
    row: &LineView,
    at: Moment,
) -> Result<(), PlanFault>
    ensures due { OnOk result (refusal_now (get nat_eq earlier.old line.now.awb) line.now row.now
        ≡ None) }
    ensures changes { OnOk result (changes.new.items ≡ changes.old.items
        ++ changes_now (get nat_eq earlier.old line.now.awb) flight.now at.day line.now row.now) }
    ensures earlier { OnOk result ((q : ℕ) → get nat_eq earlier.new q
        ≡ with_line (get nat_eq earlier.old) line.now.awb
        (expected_now (get nat_eq earlier.old line.now.awb) line.now row.now) q) }
    ensures refused { IfErr result (IsRefusal
        (refusal_now (get nat_eq earlier.old line.now.awb) line.now row.now)) }
{
    let before = earlier.get(&line.awb.key()).copied();
    match find(before, line, row, at) {
        Err(fault) => Err(fault),
        Ok(finding) => Ok(write_line(changes, earlier, flight, line.awb, row.holder, &finding)?),
    }
}

/// Returns the lines for `here`, in order.
pub(crate) fn lines_here<'a>(
    alloc: Global,
    here: Airport,
    lines: &'a [InboundLine],
) -> Result<Vec<CargoRef<'a>>, AllocError>
    ensures value { IfOk result (λ kept. kept.items ≡ lines_for here lines.now) }
    ensures bound { IfOk result (λ kept. length kept.items ≤ length lines.now) }
    // Guaranteed by their type, once they are read.
    ensures some { IfOk result (λ _. All HasPieces lines.now) }
{
    let mut kept = Vec::new(alloc);
    for line in lines {
        let _number = line.cargo.pieces.number();
        if is_same(line.unload, here) {
            kept.push(CargoRef::new(&line.cargo))?;
        }
    }
    Ok(kept)
}

/// Returns the rows that the lines write, each tested after those before it.
pub(crate) fn announced<'a>(
    alloc: Global,
    flight: &FlightDate,
    lines: &[CargoRef<'_>],
    rows: &[LineView],
    at: Moment,
) -> Result<Vec<Change<'a>>, PlanFault>
    requires { length rows.now ≡ length lines.now }
    ensures ok { IfOk result (λ changes.
        announced_changes no_earlier flight.now at.day lines.now rows.now ≡ Ok changes.items) }
    ensures refused { IfErr result (IsPartFault
        (announced_changes no_earlier flight.now at.day lines.now rows.now)) }
{
    let mut changes = Vec::new(alloc);
    let mut earlier = HashMap::new(alloc);
    for i in 0..lines.len() {
        add_line(
            &mut changes,
            &mut earlier,
            flight,
            lines[i].get(),
            &rows[i],
            at,
        )?;
    }
    Ok(changes)
}

/// Returns the key of a part of a manifest whose day is known.
fn key_of(part: &InboundPart<'_>, day: LocalDay) -> Part
    ensures { result ≡ record {
      flight = record { flight = part.now.flight; day = day };
      airport = part.now.loaded;
      number = part.now.number;
    } }
{
    Part {
        flight: FlightDate {
            flight: part.flight,
            day,
        },
        airport: part.loaded,
        number: part.number,
    }
}

/// Returns the refusal of a date that isn't an existing day.
fn no_day() -> PlanFault
    ensures { result ≡ fault.Refused (record { number = 301; detail = detail.Line 2 why.Date }) }
{
    PlanFault::Refused(Refusal {
        number: 301,
        detail: Detail::Line {
            line: 2,
            why: Why::Date,
        },
    })
}

/// Takes a part of a manifest whose date means the day `meant`: all its lines for here, or nothing.
pub(crate) fn announce<'a>(
    on: &PlanContext,
    taken: bool,
    rows: &LineViews,
    part: &InboundPart<'_>,
    meant: Option<u32>,
) -> Result<Plan<'a>, PlanFault>
    requires { is_day meant ≡ true → length rows.now
        ≡ length (lines_for on.now.here part.now.lines) }
    ensures answer { IsAnswer result
        (part_answer on.now.here on.now.at.day taken rows.now part.now meant) }
    ensures some { IfOk result (λ _. All HasPieces part.now.lines) }
{
    let Some(number) = meant else {
        return Err(no_day());
    };
    let Some(day) = LocalDay::new(number) else {
        return Err(no_day());
    };
    let key = &key_of(part, day);
    if taken {
        return Err(PlanFault::Refused(Refusal {
            number: 213,
            detail: Detail::Part(*key),
        }));
    }
    let lines = lines_here(on.alloc, on.here, part.lines.as_slice())?;
    let mut plan = blank(on.alloc, lines.len() as u32);
    plan.changes = announced(
        on.alloc,
        &key.flight,
        lines.as_slice(),
        rows.as_slice(),
        on.at,
    )?;
    plan.changes.push(Change::NotePart { part: *key })?;
    Ok(plan)
}

/// Returns the day that a date means, if a [`Moment`] can have it.
pub fn day_meant(date: DayMonth, at: Moment) -> Option<LocalDay>
    ensures some { IfSome result (λ day. (resolved date at.day ≡ Some day)
        × (is_day (resolved date at.day) ≡ true)) }
    ensures none { result ≡ None → is_day (resolved date at.day) ≡ false }
{
    let number = resolve(date, at.day)?;
    LocalDay::new(number)
}
