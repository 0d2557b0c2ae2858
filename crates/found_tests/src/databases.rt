//! Databases that are opened: a station's tables, right or damaged, without constraints of the
//! database, and stations over them.
use crate::disks::{FileBytes, found_in};
use crate::faults::fault_said;
use crate::listing::{all_rows, columns_of, rows_of};
use crate::readers::{book, cargo_rows, pending, trail};
use crate::tables::{Fresh, ask, here};
use sqlite::{Alter, Connection};
use station_core::{Input, Keeper, act_all};
use station_tables::{AttachFault, Station, attach, create, migrate};
use std::alloc::Global;
use telegrams::read_telegram;
use test_kit::{Job, answered, answers_said, holder, keyed, noon, say, shown, stock, waybill};

const ASKED: [(&str, &str); 9] = [
    ("waybill", "055-00000114"),
    ("waybill", "020-12345675"),
    ("waybill", "125-00000022"),
    ("holder", "055-00000103"),
    ("holder", "055-00000125"),
    ("stock", "100"),
    ("book", "100"),
    ("pending", "100"),
    ("trail", "100"),
];

/// The state of a file's calls: the tables of a day, and a station, or the connection left by one.
#[derive(Drop)]
pub struct FoundAnswers<S: Fresh> {
    alloc: Global,
    day: String,
    station: Option<Station<S>>,
    conn: Option<Connection<S>>,
}

impl<S: Fresh> FoundAnswers<S> {
    /// Starts without tables, station and connection.
    pub fn new(alloc: Global) -> FoundAnswers<S> {
        FoundAnswers {
            alloc,
            day: String::new(alloc),
            station: None,
            conn: None,
        }
    }

    /// Runs one call on a database and returns its result as text.
    pub fn answer(&mut self, asked: &str, text: &[u8]) -> Option<String> {
        let alloc = self.alloc;
        match asked {
            "table" => self.note(shown(text)),
            "new" => self.start(S::open(alloc)?),
            "empty" => self.keep(S::open(alloc)?),
            "day" => {
                let conn = self.day_tables()?;
                self.keep(conn)
            }
            "bare" => found(
                alloc,
                database::<S>(alloc, statements(alloc, text)?.as_str())?,
            ),
            "file" => found_in_file(alloc, text),
            "sql" => self.execute(shown(text)),
            "declared" => self.declare(shown(text)),
            "attach" => self.go_on(),
            "create" => {
                let conn = self.connection()?;
                self.start(conn)
            }
            "migrate" => self.migrate_tables(),
            "release" => {
                let conn = self.connection()?;
                self.keep(conn)
            }
            "query" => self.query(text),
            "same-as-day" => self.compare(),
            _ => self.ask(asked, text),
        }
    }

    fn ask(&mut self, asked: &str, text: &[u8]) -> Option<String> {
        match asked {
            "act" => {
                let (key, command) = shown(text).split_once(' ')?;
                self.give(&keyed(key, command)?)
            }
            "take" => self.give(&Input::Wire(read_telegram(self.alloc, text).ok()?)),
            "list" => self.call(Call::List(shown(text))),
            "waybill" | "holder" | "stock" | "book" | "pending" | "trail" | "cargo-rows" => {
                self.call(Call::Reader(asked, text))
            }
            "told-as-day" => self.tell_as_day(),
            _ => found(self.alloc, self.damaged(text)?),
        }
    }

    fn note(&mut self, text: &str) -> Option<String> {
        let text = statements(self.alloc, text.as_bytes())?;
        self.day.push_str(text.as_str()).ok()?;
        self.day.push_str(";\n").ok()?;
        say(self.alloc, "noted")
    }

    fn day_tables(&self) -> Option<Connection<S>> {
        database(self.alloc, self.day.as_str())
    }

    fn damaged(&self, text: &[u8]) -> Option<Connection<S>> {
        let mut conn = self.day_tables()?;
        let text = statements(self.alloc, text)?;
        conn.execute_batch(text.as_str()).ok()?;
        Some(conn)
    }

    fn keep(&mut self, conn: Connection<S>) -> Option<String> {
        self.station = None;
        self.conn = Some(conn);
        say(self.alloc, "ok")
    }

    fn execute(&mut self, text: &str) -> Option<String> {
        let text = statements(self.alloc, text.as_bytes())?;
        self.conn.as_mut()?.execute(text.as_str(), &[]).ok()?;
        say(self.alloc, "ok")
    }

    fn declare(&mut self, text: &str) -> Option<String> {
        let (table, declared) = text.split_once(' ')?;
        let columns = columns_of(table)?;
        let batch = format!(in self.alloc;
            "CREATE TABLE copied ({columns}); INSERT INTO copied SELECT {columns} FROM {table};
            DROP TABLE {table}; CREATE TABLE {table} {declared};
            INSERT INTO {table} ({columns}) SELECT {columns} FROM copied; DROP TABLE copied"
        );
        self.conn
            .as_mut()?
            .execute_batch(batch.ok()?.as_str())
            .ok()?;
        say(self.alloc, "ok")
    }

    fn query(&mut self, text: &[u8]) -> Option<String> {
        let query = statements(self.alloc, text)?;
        let mut conn = self.connection()?;
        let said = rows_of(self.alloc, &mut conn, query.as_str());
        self.conn = Some(conn);
        said
    }

    fn connection(&mut self) -> Option<Connection<S>> {
        match self.station.take() {
            Some(station) => Some(station.release()),
            None => self.conn.take(),
        }
    }

    fn start(&mut self, conn: Connection<S>) -> Option<String> {
        match create(self.alloc, conn, here()?) {
            Ok(station) => self.put(station),
            Err((conn, fault)) => self.give_back(conn, &fault),
        }
    }

    fn go_on(&mut self) -> Option<String> {
        let conn = self.connection()?;
        match attach(self.alloc, conn) {
            Ok(station) => self.put(station),
            Err((conn, fault)) => self.give_back(conn, &fault),
        }
    }

    fn migrate_tables(&mut self) -> Option<String> {
        let conn = self.connection()?;
        match migrate(self.alloc, conn) {
            Ok(conn) => self.keep(conn),
            Err((conn, fault)) => self.give_back(conn, &fault),
        }
    }

    fn put(&mut self, station: Station<S>) -> Option<String> {
        self.station = Some(station);
        say(self.alloc, "ok")
    }

    fn give_back(&mut self, conn: Connection<S>, fault: &AttachFault) -> Option<String> {
        let said = refusal_said(self.alloc, &conn, fault);
        self.conn = Some(conn);
        said
    }

    fn compare(&mut self) -> Option<String> {
        let mut day = self.day_tables()?;
        let mut conn = self.connection()?;
        let (wanted, came) = (
            all_rows(self.alloc, &mut day)?,
            all_rows(self.alloc, &mut conn)?,
        );
        self.conn = Some(conn);
        if came.as_str() == wanted.as_str() {
            say(self.alloc, "the same")
        } else {
            Some(came)
        }
    }

    fn give(&mut self, input: &Input<'_>) -> Option<String> {
        self.call(Call::Act(input))
    }

    fn call(&mut self, call: Call<'_>) -> Option<String> {
        let alloc = self.alloc;
        ask(self.station.as_mut()?, Calling { alloc, call })
    }

    fn tell_as_day(&mut self) -> Option<String> {
        let Ok(mut day) = attach(self.alloc, self.day_tables()?) else {
            return None;
        };
        let (alloc, call) = (self.alloc, Call::AllReaders);
        let wanted = ask(&mut day, Calling { alloc, call })?;
        let came = self.call(Call::AllReaders)?;
        if came.as_str() == wanted.as_str() {
            say(self.alloc, "the same")
        } else {
            Some(came)
        }
    }
}

/// Returns the statements of a case, with double quotes for single ones.
pub fn statements(alloc: Global, text: &[u8]) -> Option<String> {
    shown(text).replace(alloc, '"', "'").ok()
}

fn database<S: Fresh>(alloc: Global, statements: &str) -> Option<Connection<S>> {
    let mut conn = S::open(alloc)?;
    conn.execute_batch(statements).ok()?;
    Some(conn)
}

fn refusal_said<S: Alter>(
    alloc: Global,
    conn: &Connection<S>,
    fault: &AttachFault,
) -> Option<String> {
    let fault = fault_said(alloc, fault)?;
    if conn.is_autocommit() {
        Some(fault)
    } else {
        format!(in alloc; "{fault}, inside a transaction").ok()
    }
}

fn found<S: Alter + Drop>(alloc: Global, conn: Connection<S>) -> Option<String> {
    match attach(alloc, conn) {
        Ok(_) => say(alloc, "ok"),
        Err((conn, fault)) => refusal_said(alloc, &conn, &fault),
    }
}

fn found_in_file(alloc: Global, bytes: &[u8]) -> Option<String> {
    let mut files = FileBytes::new(alloc);
    files.db.extend_from_slice(bytes).ok()?;
    found_in(alloc, &files, &[])
}

/// A call of a station.
#[derive(Drop)]
enum Call<'a> {
    /// An input.
    Act(&'a Input<'a>),
    /// Commands under keys, as one list.
    List(&'a str),
    /// One reader, with its argument.
    Reader(&'a str, &'a [u8]),
    /// Each reader in `ASKED`.
    AllReaders,
}

/// A call of any keeper.
#[derive(Drop)]
struct Calling<'a> {
    alloc: Global,
    call: Call<'a>,
}

impl Job for Calling<'_> {
    /// The station's answer as text.
    type Out = Option<String>;

    fn run<K: Keeper>(self, station: &mut K) -> Option<String> {
        match self.call {
            Call::Act(input) => answered(self.alloc, station, input),
            Call::List(texts) => list_told(self.alloc, station, texts),
            Call::Reader(asked, text) => told(self.alloc, station, asked, text),
            Call::AllReaders => all_told(self.alloc, station),
        }
    }
}

fn list_told<K: Keeper>(alloc: Global, station: &mut K, texts: &str) -> Option<String> {
    let mut inputs = Vec::new(alloc);
    for text in texts.split('|') {
        let (key, command) = text.split_once(' ')?;
        inputs.push((keyed(key, command)?, noon()?)).ok()?;
    }
    let all = act_all(alloc, station, inputs.as_slice());
    match all.fault {
        None => answers_said(alloc, &all.answers),
        Some(_) => None,
    }
}

fn told<K: Keeper>(alloc: Global, station: &mut K, asked: &str, text: &[u8]) -> Option<String> {
    match asked {
        "waybill" => waybill(alloc, station, text),
        "holder" => holder(alloc, station, text),
        "stock" => stock(alloc, station, shown(text)),
        "book" => book(alloc, station, shown(text).parse::<usize>().ok()?),
        "pending" => pending(alloc, station, shown(text).parse::<usize>().ok()?),
        "cargo-rows" => cargo_rows(alloc, station),
        _ => trail(alloc, station, shown(text).parse::<usize>().ok()?),
    }
}

fn all_told<K: Keeper>(alloc: Global, station: &mut K) -> Option<String> {
    let mut said = String::new(alloc);
    for (asked, text) in ASKED {
        let text = told(alloc, station, asked, text.as_bytes())?;
        said.push_str(text.as_str()).ok()?;
        said.push_str("\n").ok()?;
    }
    Some(said)
}
