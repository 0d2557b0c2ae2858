//! All rows of a station's tables, as text.
use sqlite::{Alter, Connection, Row};
use std::alloc::Global;

const TABLES: [(&str, &str, &str); 14] = [
    ("station", "id, airport, version, confirmed", "id"),
    (
        "waybill",
        "awb, origin, destination, pieces, tenths, goods, notified",
        "awb",
    ),
    (
        "waybill2",
        "awb, origin, destination, pieces, tenths, goods, notified, since",
        "awb",
    ),
    ("stock", "prefix, low, high, holder, agent", "prefix, low"),
    ("flight", "flight, day, unload, closed", "flight, day"),
    (
        "moves",
        "number, awb, src, dst, pieces, tenths, flight, fday, day, minute",
        "number",
    ),
    (
        "expected",
        "flight, day, awb, pieces, tenths, checked",
        "flight, day, awb",
    ),
    (
        "part",
        "flight, day, airport, seq, body",
        "flight, day, airport, seq",
    ),
    ("trail", "number, awb, line", "number"),
    ("outbox", "number, body", "number"),
    ("kept_key", "id, command, count", "id"),
    ("kept_text", "body, count", "body"),
    ("counts", "awb, place, pieces, tenths", "awb, place"),
    (
        "build",
        "flight, day, awb, pieces, tenths",
        "flight, day, awb",
    ),
];

/// Returns the columns of a station's table.
pub fn columns_of(table: &str) -> Option<&'static str> {
    for (name, columns, _) in TABLES {
        if name == table {
            return Some(columns);
        }
    }
    None
}

fn value_said(alloc: Global, row: &Row, at: usize) -> Option<String> {
    if let Ok(number) = row.get::<i64>(at) {
        return format!(in alloc; "{number}").ok();
    }
    let text: String = row.get(at).ok()?;
    format!(in alloc; "[{text}]").ok()
}

fn row_said(alloc: Global, row: &Row) -> Option<String> {
    let mut said = String::new(alloc);
    for at in 0..row.column_count() {
        if at > 0 {
            said.push_str(" ").ok()?;
        }
        let value = value_said(alloc, row, at)?;
        said.push_str(value.as_str()).ok()?;
    }
    Some(said)
}

/// Returns the rows of a query.
pub fn rows_of<S: Alter>(alloc: Global, conn: &mut Connection<S>, query: &str) -> Option<String> {
    let mut said = String::new(alloc);
    let rows = conn.query_all(query, &[]).ok()?;
    for (place, row) in rows.iter().enumerate() {
        if place > 0 {
            said.push_str("; ").ok()?;
        }
        let text = row_said(alloc, row)?;
        said.push_str(text.as_str()).ok()?;
    }
    Some(said)
}

fn table_said<S: Alter>(
    alloc: Global,
    conn: &mut Connection<S>,
    table: &str,
    columns: &str,
    key: &str,
) -> Option<String> {
    let query = format!(in alloc; "SELECT {columns} FROM {table} ORDER BY {key}").ok()?;
    let rows = rows_of(alloc, conn, query.as_str())?;
    format!(in alloc; "{table}: {rows}\n").ok()
}

/// Returns the rows of each table of a station in the order of their keys, if all tables exist.
pub fn all_rows<S: Alter>(alloc: Global, conn: &mut Connection<S>) -> Option<String> {
    let mut said = String::new(alloc);
    for (table, columns, key) in TABLES {
        let rows = table_said(alloc, conn, table, columns, key)?;
        said.push_str(rows.as_str()).ok()?;
    }
    Some(said)
}

/// Returns the same for a file of version 1, which has no table `waybill2`.
pub fn old_rows<S: Alter>(alloc: Global, conn: &mut Connection<S>) -> Option<String> {
    let mut said = String::new(alloc);
    for (table, columns, key) in TABLES {
        if table != "waybill2" {
            let rows = table_said(alloc, conn, table, columns, key)?;
            said.push_str(rows.as_str()).ok()?;
        }
    }
    Some(said)
}
