//! Bytes from a keeper: reports, cut messages, and answers over HTTP.
use http_desk::serve_one;
use reports::{Report, ReportCause, write_report};
use station_core::{ActFault, Counted, Keeper};
use station_days::Moment;
use std::alloc::Global;
use test_kit::Narrow;

pub fn report_text<K: Keeper>(
    alloc: Global,
    keeper: &mut K,
    report: Report,
) -> Result<Vec<u8>, ActFault> {
    let mut writer = Counted::new(Vec::new(alloc));
    match write_report(alloc, keeper, report, &mut writer, &[]) {
        Ok(()) => Ok(writer.into_inner()),
        Err(fault) => Err(match fault.cause {
            ReportCause::Write => ActFault::Memory,
            ReportCause::Act(fault) => fault,
        }),
    }
}

/// Returns the messages as written to a writer that fails after `room` bytes, and the number of
/// bytes in the fault.
pub fn cut_pending<K: Keeper>(
    alloc: Global,
    keeper: &mut K,
    room: usize,
) -> (Vec<u8>, Option<u64>) {
    let mut writer = Counted::new(Narrow::new(alloc, room));
    let sent = match write_report(alloc, keeper, Report::Pending, &mut writer, &[]) {
        Ok(()) => None,
        Err(fault) => Some(fault.sent),
    };
    (writer.into_inner().into_taken(), sent)
}

/// Returns the answer to an HTTP request, unless serving ends early.
pub fn served<K: Keeper>(
    alloc: Global,
    keeper: &mut K,
    request: &[u8],
    at: Moment,
) -> Option<Vec<u8>> {
    let mut writer = Counted::new(Vec::new(alloc));
    match serve_one(alloc, keeper, &mut Counted::new(request), &mut writer, at) {
        Ok(_) => Some(writer.into_inner()),
        Err(_) => None,
    }
}
