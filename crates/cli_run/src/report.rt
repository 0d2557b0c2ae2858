//! Reports.
ghost use Rattle.std.specs.Prelude.{◌≡◌};
ghost use Rattle.cli_run.specs.Common.{StaysInService, IsListing};
ghost use Rattle.cli_run.specs.Done.{good_of, HasReportedGood, HasToldReport, cause_fault, run_ended};

use crate::telling::{RunFault, keeper_fault};
use reports::{Form, Listing, ReportCause, ReportFault, write_listing};
use station_core::{ByteOut, Keeper};
use std::alloc::Global;

fn cause_fault(cause: ReportCause) -> RunFault
    ensures { result ≡ cause_fault cause }
{
    match cause {
        ReportCause::Write => RunFault::Write,
        ReportCause::Act(fault) => keeper_fault(fault),
    }
}

/// Returns the result of a run from that of its report.
fn run_ended(ended: Result<(), ReportFault>) -> Result<(), RunFault>
    ensures { result ≡ run_ended ended }
{
    match ended {
        Ok(()) => Ok(()),
        Err(fault) => Err(cause_fault(fault.cause)),
    }
}

/// Writes a report.
///
/// Returns [`RunFault::Write`] if the writer fails or writes 0 bytes, [`RunFault::Memory`] if
/// memory runs out, and [`RunFault::Store`] if the store fails, or failed before. A prefix of the
/// report is written, and nothing has changed.
fn run_report<K: Keeper, W: ByteOut>(
    alloc: Global,
    keeper: &mut K,
    listing: &Listing,
    form: Form,
    writer: &mut W,
) -> Result<(), RunFault>
    ensures { HasToldReport (λ s. IsListing form s listing.now) K.keeping
        (keeper.old, W.taken writer.old) (keeper.new, W.taken writer.new) result }
{
    run_ended(write_listing(alloc, keeper, listing, form, writer, &[]))
}

pub(crate) fn good_of(ended: Result<(), RunFault>) -> Result<bool, RunFault>
    ensures { result ≡ good_of ended }
{
    match ended {
        Ok(()) => Ok(true),
        Err(fault) => Err(fault),
    }
}

/// Runs `report NAME` or `outbox`: writes a report, or a part of one.
pub(crate) fn do_report<K: Keeper, W: ByteOut>(
    alloc: Global,
    keeper: &mut K,
    listing: &Listing,
    form: Form,
    output: &mut W,
) -> Result<bool, RunFault>
    ensures service { StaysInService K.keeping keeper.old keeper.new result }
    ensures reported { HasReportedGood (λ s. IsListing form s listing.now) K.keeping
        (keeper.old, W.taken output.old) (keeper.new, W.taken output.new) result }
{
    good_of(run_report(alloc, keeper, listing, form, output))
}
