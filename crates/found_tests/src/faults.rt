//! Faults of openings as texts.
use station_tables::AttachFault;
use std::alloc::Global;
use test_kit::say;

/// Returns a fault as text: `601` with the first bad table, `602` without a station, `603` with the
/// version, or a word.
pub fn fault_said(alloc: Global, fault: &AttachFault) -> Option<String> {
    match fault {
        AttachFault::Unlawful(table) => format!(in alloc; "601 {}", table.as_str()).ok(),
        AttachFault::NoStation => say(alloc, "602"),
        AttachFault::Version(version) => format!(in alloc; "603 {version}").ok(),
        AttachFault::Occupied => say(alloc, "occupied"),
        AttachFault::Store => say(alloc, "store"),
        AttachFault::Memory => say(alloc, "memory"),
    }
}
