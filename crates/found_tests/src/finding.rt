//! The findings of an opening.
use crate::faults::fault_said;
use crate::listing::{all_rows, old_rows, rows_of};
use crate::tables::ask;
use awb_number::Awb;
use sqlite::{Alter, Connection};
use station_core::Keeper;
use station_tables::{AttachFault, attach};
use std::alloc::Global;
use test_kit::{Job, known_said};

/// Waybills to look up.
#[derive(Clone, Copy)]
struct Waybills<'a> {
    alloc: Global,
    numbers: &'a [Awb],
}

impl Job for Waybills<'_> {
    type Out = Option<String>;

    fn run<K: Keeper>(self, keeper: &mut K) -> Option<String> {
        let mut said = String::new(self.alloc);
        for number in self.numbers {
            let known = known_said(self.alloc, &keeper.waybill(number).ok()?)?;
            said.push_str(known.as_str()).ok()?;
            said.push_str("; ").ok()?;
        }
        Some(said)
    }
}

fn notes_said<S: Alter>(alloc: Global, conn: &mut Connection<S>) -> Option<String> {
    let said = rows_of(
        alloc,
        conn,
        "SELECT name FROM sqlite_schema WHERE name='notes'",
    )?;
    if said.is_empty() {
        return Some(said);
    }
    let rows = rows_of(alloc, conn, "SELECT id, text FROM notes ORDER BY id")?;
    format!(in alloc; ", notes {rows}").ok()
}

fn old_rows_said<S: Alter>(
    alloc: Global,
    conn: &mut Connection<S>,
    fault: &AttachFault,
) -> Option<String> {
    match fault {
        AttachFault::Version(1) => match old_rows(alloc, conn) {
            Some(rows) => format!(in alloc; "\n{rows}").ok(),
            None => Some(String::new(alloc)),
        },
        _ => Some(String::new(alloc)),
    }
}

/// Returns why no station was found, the number of tables and indexes, a table `notes`, and the
/// rows of a file of version 1.
pub fn fault_found<S: Alter>(
    alloc: Global,
    conn: &mut Connection<S>,
    fault: &AttachFault,
) -> Option<String> {
    let count = rows_of(alloc, conn, "SELECT count(*) FROM sqlite_schema")?;
    let notes = notes_said(alloc, conn)?;
    let rows = old_rows_said(alloc, conn, fault)?;
    let fault = fault_said(alloc, fault)?;
    format!(in alloc; "{fault}, {count} tables and indexes{notes}{rows}").ok()
}

fn rows_found<S: Alter>(
    alloc: Global,
    conn: &mut Connection<S>,
    waybills: Option<String>,
) -> Option<String> {
    let mut said = waybills?;
    said.push_str(all_rows(alloc, conn)?.as_str()).ok()?;
    said.push_str(notes_said(alloc, conn)?.as_str()).ok()?;
    Some(said)
}

/// Opens a connection.
pub fn found<S: Alter>(
    alloc: Global,
    conn: Connection<S>,
    numbers: &[Awb],
) -> (Option<String>, Connection<S>) {
    match attach(alloc, conn) {
        Ok(mut station) => {
            let waybills = ask(&mut station, Waybills { alloc, numbers });
            let mut conn = station.release();
            let said = rows_found(alloc, &mut conn, waybills);
            (said, conn)
        }
        Err((mut conn, fault)) => {
            let said = fault_found(alloc, &mut conn, &fault);
            (said, conn)
        }
    }
}
