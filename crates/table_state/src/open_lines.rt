//! The open lines of flights, as far as they are known.
ghost use Rattle.std.specs.Prelude.{Some};
ghost use Rattle.table_state.specs.Common.{Lines, with_line, AreExpectations, expected_for, Open};
ghost use Rattle.table_state.specs.Shown.{HasOpen};

use awb_number::Awb;
use shipment_machine::{Expected, FlightDate};
use state_store::ExpectedLines;
use station_core::Expectation;
use std::alloc::Global;

/// The lines of what flights are to bring that weren't checked in, where they are known. They are
/// found by the first reader that asks for them. From then on a write puts its line in, or takes it
/// out.
#[derive(Drop)]
pub(crate) struct OpenLines {
    pub(crate) kept: Option<ExpectedLines>,
}

/// Returns the kept open lines after a line is written. Without memory for the line nothing is
/// kept.
fn after_line(
    kept: Option<ExpectedLines>,
    flight: &FlightDate,
    awb: &Awb,
    expected: &Expected,
) -> Option<ExpectedLines>
    ensures { (lines : Lines) → HasOpen kept lines
        → HasOpen result (with_line lines flight.now awb.now (Some expected.now)) }
{
    let mut open = kept?;
    if expected.checked {
        open.remove(flight, awb);
        return Some(open);
    }
    match open.put(flight, awb, expected) {
        Ok(()) => Some(open),
        Err(_) => None,
    }
}

impl OpenLines {
    /// Nothing is known yet.
    pub(crate) fn none() -> OpenLines
        ensures { (lines : Lines) → HasOpen result.kept lines }
    {
        OpenLines { kept: None }
    }

    /// Keeps the open lines, which readers list. Without memory for them nothing is kept.
    pub(crate) fn of(alloc: Global, rows: &[Expectation]) -> OpenLines
        ensures { (lines : Lines) → AreExpectations (expected_for Open lines) rows.now
            → HasOpen result.kept lines }
    {
        match ExpectedLines::of(alloc, rows) {
            Ok(kept) => OpenLines { kept: Some(kept) },
            Err(_) => OpenLines { kept: None },
        }
    }

    /// The open lines after a line is written.
    pub(crate) fn post(&mut self, flight: &FlightDate, awb: &Awb, expected: &Expected)
        ensures { (lines : Lines) → HasOpen self.old.kept lines
            → HasOpen self.new.kept (with_line lines flight.now awb.now (Some expected.now)) }
    {
        self.kept = after_line(self.kept.take(), flight, awb, expected);
    }
}
