//! The rows of a station's tables.
use crate::tables::Fresh;
use sqlite::{Alter, Connection};
use station_rows::{
    AllStock, CreateFault, InsertKept, InsertStock, KeptUnder, Rows, StockBetween, StockRow,
    StoreFault, TableStore, UpdateStock,
};
use std::alloc::Global;
use std::str::SplitWhitespace;
use test_kit::{count_said, next_whole, runs_said, say, shown};

/// The tables of a file's calls.
#[derive(Drop)]
pub struct RowAnswers<S: Fresh> {
    alloc: Global,
    rows: Option<Rows<S>>,
}

impl<S: Fresh> RowAnswers<S> {
    /// Starts without tables.
    pub fn new(alloc: Global) -> RowAnswers<S> {
        RowAnswers { alloc, rows: None }
    }

    /// Runs one call and returns its result as text.
    pub fn answer(&mut self, asked: &str, text: &[u8]) -> Option<String> {
        let alloc = self.alloc;
        match asked {
            "new" => self.start(),
            "made-over" => made_over::<S>(alloc, shown(text)),
            "opened-again" => {
                let conn = self.rows.take()?.release();
                self.open(conn)
            }
            "opened-over" => {
                let mut conn = S::open(alloc)?;
                conn.execute(shown(text), &[]).ok()?;
                self.open(conn)
            }
            "made-again" => fault_of(alloc, self.rows.take()?.release()),
            "station-row" => station_row(alloc, self.rows.take()?.release()),
            "stock-summed" => stock_summed(alloc, self.rows.take()?.release()),
            _ => called(alloc, self.rows.as_mut()?, asked, shown(text)),
        }
    }

    fn start(&mut self) -> Option<String> {
        let conn = S::open(self.alloc)?;
        match Rows::create(conn, "FRA") {
            Ok(rows) => self.rows = Some(rows),
            Err(_) => return None,
        }
        say(self.alloc, "ok")
    }

    fn open(&mut self, conn: Connection<S>) -> Option<String> {
        match Rows::opened(conn) {
            Ok(rows) => {
                self.rows = Some(rows);
                say(self.alloc, "ok")
            }
            Err(conn) => say(
                self.alloc,
                if conn.is_autocommit() {
                    "refused"
                } else {
                    "refused, inside a transaction"
                },
            ),
        }
    }
}

fn fault_of<S: Alter + Drop>(alloc: Global, conn: Connection<S>) -> Option<String> {
    match Rows::create(conn, "FRA") {
        Ok(_) => say(alloc, "made"),
        Err((conn, fault)) => {
            let word = match fault {
                CreateFault::Occupied => "occupied",
                CreateFault::Store => "store",
            };
            let place = if conn.is_autocommit() {
                "outside"
            } else {
                "inside"
            };
            format!(in alloc; "{word}, {place} a transaction").ok()
        }
    }
}

fn made_over<S: Fresh>(alloc: Global, statement: &str) -> Option<String> {
    let mut conn = S::open(alloc)?;
    conn.execute(statement, &[]).ok()?;
    fault_of(alloc, conn)
}

fn station_row<S: Alter + Drop>(alloc: Global, mut conn: Connection<S>) -> Option<String> {
    let row = conn
        .query_row("SELECT id, airport, version, confirmed FROM station", &[])
        .ok()?;
    let id = row.get::<i64>(0).ok()?;
    let airport: String = row.get(1).ok()?;
    let version = row.get::<i64>(2).ok()?;
    let confirmed = row.get::<i64>(3).ok()?;
    format!(in alloc; "{id} {airport} {version} {confirmed}").ok()
}

fn stock_summed<S: Alter + Drop>(alloc: Global, mut conn: Connection<S>) -> Option<String> {
    if !conn.is_autocommit() {
        return None;
    }
    let row = conn
        .query_row("SELECT count(*), min(low), min(holder) FROM stock", &[])
        .ok()?;
    let count = row.get::<i64>(0).ok()?;
    let low = row.get::<i64>(1).ok()?;
    let holder = row.get::<i64>(2).ok()?;
    format!(in alloc; "{count} {low} {holder}").ok()
}

fn called<R: TableStore>(alloc: Global, rows: &mut R, asked: &str, text: &str) -> Option<String> {
    let mut words = text.split_whitespace();
    match asked {
        "begin" => done(alloc, rows.begin()),
        "commit" => done(alloc, rows.commit()),
        "is-autocommit" => say(alloc, if rows.is_autocommit() { "yes" } else { "no" }),
        "insert" => {
            let row = stock_row(alloc, &mut words)?;
            done(alloc, rows.write(InsertStock { row: &row }))
        }
        "update" => {
            let row = stock_row(alloc, &mut words)?;
            done(alloc, rows.write(UpdateStock { row: &row }))
        }
        "insert-kept" => insert_kept(alloc, rows, &mut words),
        "kept" => kept(alloc, rows, text),
        "between" => between(alloc, rows, &mut words),
        "all" => rows_said(alloc, rows.read(AllStock)),
        "how-many" => match rows.read(AllStock) {
            Ok(all) => count_said(alloc, true, all.len()),
            Err(_) => count_said(alloc, false, 0),
        },
        _ => None,
    }
}

fn done(alloc: Global, done: Result<(), StoreFault>) -> Option<String> {
    match done {
        Ok(()) => say(alloc, "ok"),
        Err(StoreFault) => say(alloc, "fault"),
    }
}

fn stock_row(alloc: Global, words: &mut SplitWhitespace<'_>) -> Option<StockRow> {
    let prefix = next_whole(words)?;
    let low = next_whole(words)?;
    let holder = next_whole(words)?;
    let agent = String::from_str(alloc, words.next().unwrap_or("")).ok()?;
    Some(StockRow {
        prefix,
        low,
        high: low,
        holder,
        agent,
    })
}

fn insert_kept<R: TableStore>(
    alloc: Global,
    rows: &mut R,
    words: &mut SplitWhitespace<'_>,
) -> Option<String> {
    let (key, count) = (words.next()?, next_whole(words)?);
    let kept = InsertKept {
        id: key,
        command: words.next().unwrap_or(""),
        count,
    };
    done(alloc, rows.write(kept))
}

fn kept<R: TableStore>(alloc: Global, rows: &mut R, key: &str) -> Option<String> {
    match rows.read(KeptUnder { id: key }) {
        Ok(Some(kept)) => format!(in alloc; "{} {}", kept.command, kept.count).ok(),
        Ok(None) => say(alloc, "none"),
        Err(_) => say(alloc, "fault"),
    }
}

fn between<R: TableStore>(
    alloc: Global,
    rows: &mut R,
    words: &mut SplitWhitespace<'_>,
) -> Option<String> {
    let prefix = next_whole(words)?;
    let first = next_whole(words)?;
    let last = next_whole(words)?;
    let asked = StockBetween {
        prefix,
        first,
        last,
    };
    rows_said(alloc, rows.read(asked))
}

fn rows_said(alloc: Global, rows: Result<Vec<StockRow>, StoreFault>) -> Option<String> {
    let Ok(rows) = rows else {
        return say(alloc, "fault");
    };
    let mut said = format!(in alloc; "{}", rows.len()).ok()?;
    for row in &rows {
        said.push_str(row_said(alloc, row)?.as_str()).ok()?;
    }
    Some(said)
}

fn row_said(alloc: Global, row: &StockRow) -> Option<String> {
    let (prefix, low, high) = (row.prefix, row.low, row.high);
    let (holder, agent) = (row.holder, row.agent.as_str());
    format!(in alloc; "; {prefix} {low}-{high} {holder} [{agent}]").ok()
}

/// Returns the runs of a stock of one row, given by its prefix, its serial, its holder and an
/// optional agent.
pub fn runs_of_row<S: Fresh>(alloc: Global, text: &[u8]) -> Option<String> {
    let row = stock_row(alloc, &mut shown(text).split_whitespace())?;
    match Rows::create(S::open(alloc)?, "FRA") {
        Ok(mut rows) => runs_with(alloc, &mut rows, &row),
        Err(_) => None,
    }
}

fn runs_with<R: TableStore>(alloc: Global, rows: &mut R, row: &StockRow) -> Option<String> {
    rows.begin().ok()?;
    rows.write(InsertStock { row }).ok()?;
    rows.commit().ok()?;
    match stock_tables::runs(alloc, rows) {
        Ok(runs) => runs_said(alloc, &runs),
        Err(_) => say(alloc, "fault"),
    }
}
