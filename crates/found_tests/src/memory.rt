//! Inputs for which an allocation fails.
use crate::errands::build_up_all;
use crate::fused::Fused;
use crate::listing::{all_rows, old_rows};
use crate::tables::{Fresh, StoreJob, over_tables};
use awb_number::Awb;
use sqlite::Connection;
use state_store::StateStore;
use station_core::{ActFault, Answer, Input, Keeper, answer_one};
use station_days::Moment;
use station_engine::StoredStation;
use station_tables::{AttachFault, attach_and_repeat, migrate};
use std::alloc::Global;
use telegrams::read_telegram;
use test_kit::{answer_said, is_done, keyed, noon, say};

const CALLS: u32 = 1_000_000;

/// An input, in the order of a day.
#[derive(Clone, Copy, Debug, PartialEq, Eq)]
pub enum Run {
    TakeIn,
    /// A manifest of twenty waybills arrives.
    Manifest,
    /// Five of eight pieces are counted.
    CheckInShort,
    /// Eleven of eight pieces are counted.
    CheckInOver,
    /// A flight of twenty waybills departs.
    Departure,
    /// Three of its messages are confirmed.
    Confirmation,
}

impl Run {
    /// All inputs, in the order in which they run.
    pub const ALL: [Run; 6] = [
        Run::TakeIn,
        Run::Manifest,
        Run::CheckInShort,
        Run::CheckInOver,
        Run::Departure,
        Run::Confirmation,
    ];
}

/// The outcome of an input.
#[derive(Clone, Copy)]
pub enum Told {
    /// It was accepted.
    Accepted,
    /// Memory ran out before the first call of the tables, and nothing changed.
    Unbegun,
    /// Memory ran out, and nothing changed.
    Unchanged,
    /// The tables failed, and have the state before or after.
    Broken,
    /// Anything else.
    Otherwise,
}

impl Told {
    /// Returns the word that is printed.
    pub fn word(self) -> &'static str {
        match self {
            Told::Accepted => "accepted",
            Told::Unbegun => "out of memory before the first call, and as it was",
            Told::Unchanged => "out of memory, and as it was",
            Told::Broken => "a failed store, before or after, and its one reply",
            Told::Otherwise => "not told",
        }
    }
}

fn manifest(alloc: Global, waybills: u32) -> Option<String> {
    let mut text = String::from_str(alloc, "FFM/8\r\n1/LH401/12JAN/JFK\r\nFRA\r\n").ok()?;
    for serial in 1..=waybills {
        let awb = Awb::new(20, serial)?;
        let line = format!(in alloc; "{awb}JFKFRA/T8K80.0/TOOLS\r\n").ok()?;
        text.push_str(line.as_str()).ok()?;
    }
    text.push_str("LAST\r\n").ok()?;
    Some(text)
}

fn text_of(alloc: Global, run: Run) -> Option<String> {
    match run {
        Run::TakeIn => say(alloc, "take-in\n020\n1234567\n10"),
        Run::Manifest => manifest(alloc, 20),
        Run::CheckInShort => say(alloc, "check-in\n020-00000011\nLH401\n2026-01-12\n5"),
        Run::CheckInOver => say(alloc, "check-in\n020-00000011\nLH401\n2026-01-12\n11"),
        Run::Departure => say(alloc, "depart\nLH400\n2026-01-12"),
        Run::Confirmation => say(alloc, "confirm\n3"),
    }
}

fn input_of<'a>(alloc: Global, run: Run, text: &'a str) -> Option<Input<'a>> {
    match run {
        Run::Manifest => Some(Input::Wire(read_telegram(alloc, text.as_bytes()).ok()?)),
        _ => keyed("k1", text),
    }
}

fn wanted(run: Run) -> &'static str {
    match run {
        Run::TakeIn => "ok 10",
        Run::Manifest => "ok 20",
        Run::CheckInShort => "ok 5",
        Run::CheckInOver => "ok 11",
        Run::Departure => "ok 40",
        Run::Confirmation => "ok 3",
    }
}

fn accepts<K: Keeper>(station: &mut K, input: &Input<'_>) -> Option<()> {
    if is_done(station, input, noon()?) {
        Some(())
    } else {
        None
    }
}

fn prepare<K: Keeper>(alloc: Global, station: &mut K, run: Run) -> Option<()> {
    match run {
        Run::TakeIn | Run::Manifest => Some(()),
        Run::CheckInShort | Run::CheckInOver => {
            let text = manifest(alloc, 1)?;
            let input = Input::Wire(read_telegram(alloc, text.as_bytes()).ok()?);
            accepts(station, &input)
        }
        Run::Departure => build_up_all(alloc, station, 20),
        Run::Confirmation => {
            build_up_all(alloc, station, 20)?;
            accepts(station, &keyed("d1", "depart\nLH400\n2026-01-12")?)
        }
    }
}

fn prepare_over<T: StateStore>(alloc: Global, store: T, run: Run) -> (Option<()>, T) {
    let mut station = StoredStation::over(alloc, store);
    let prepared = prepare(alloc, &mut station, run);
    (prepared, station.into_store())
}

fn give_over<T: StateStore>(
    alloc: Global,
    store: T,
    input: &Input<'_>,
    at: Moment,
) -> (Result<Answer, ActFault>, u32, T) {
    let mut station = StoredStation::over(alloc, Fused::new(store, CALLS));
    let answer = answer_one(&mut station, input, at);
    let left = station.into_store();
    let made = CALLS.saturating_sub(left.left());
    (answer, made, left.into_store())
}

/// The inputs that precede one.
#[derive(Drop)]
struct Preparing {
    run: Run,
}

impl StoreJob for Preparing {
    type Out = ();

    fn run<T: StateStore>(self, alloc: Global, store: T) -> (Option<()>, T) {
        prepare_over(alloc, store, self.run)
    }
}

/// The inputs that precede one, and the input.
#[derive(Drop)]
struct Giving<'a> {
    run: Run,
    input: &'a Input<'a>,
    at: Moment,
}

impl StoreJob for Giving<'_> {
    /// The answer, and the number of calls of the store.
    type Out = (Result<Answer, ActFault>, u32);

    fn run<T: StateStore>(
        self,
        alloc: Global,
        store: T,
    ) -> (Option<(Result<Answer, ActFault>, u32)>, T) {
        let (prepared, store) = prepare_over(alloc, store, self.run);
        if prepared.is_none() {
            return (None, store);
        }
        let (answer, made, store) = give_over(alloc, store, self.input, self.at);
        (Some((answer, made)), store)
    }
}

fn tables<S: Fresh>(alloc: Global, run: Run) -> Option<Connection<S>> {
    Some(over_tables(alloc, Preparing { run })?.1)
}

/// The outcome of an input: its answer, the number of calls of the tables, and their connection.
#[derive(Drop)]
struct Given<S: Fresh> {
    answer: Result<Answer, ActFault>,
    made: u32,
    conn: Connection<S>,
}

fn give<S: Fresh>(alloc: Global, run: Run, input: &Input<'_>) -> Option<Given<S>> {
    let at = noon()?;
    let ((answer, made), conn) = over_tables(alloc, Giving { run, input, at })?;
    Some(Given { answer, made, conn })
}

fn rows_before<S: Fresh>(alloc: Global, run: Run) -> Option<String> {
    all_rows(alloc, &mut tables::<S>(alloc, run)?)
}

fn rows_after<S: Fresh>(alloc: Global, run: Run, input: &Input<'_>) -> Option<String> {
    let mut given = give::<S>(alloc, run, input)?;
    match given.answer {
        Ok(Answer::Done(_)) => all_rows(alloc, &mut given.conn),
        _ => None,
    }
}

fn is_repeated<S: Fresh>(
    alloc: Global,
    conn: Connection<S>,
    input: &Input<'_>,
    run: Run,
    after: &str,
) -> Option<bool> {
    let Ok((station, answer)) = attach_and_repeat(alloc, conn, input, noon()?) else {
        return Some(false);
    };
    let reply = answer_said(alloc, &answer)?;
    let rows = all_rows(alloc, &mut station.release())?;
    Some(reply.as_str() == wanted(run) && rows.as_str() == after)
}

fn after_fault<S: Fresh>(
    alloc: Global,
    run: Run,
    input: &Input<'_>,
    fault: &ActFault,
    made: u32,
    conn: Connection<S>,
) -> Option<Told> {
    let before = rows_before::<S>(alloc, run)?;
    let after = rows_after::<S>(alloc, run, input)?;
    let mut conn = conn;
    let rows = all_rows(alloc, &mut conn)?;
    let is_before = rows.as_str() == before.as_str();
    let is_told = match fault {
        ActFault::Memory => made == 0 && is_before,
        ActFault::Store => made > 0 && (is_before || rows.as_str() == after.as_str()),
        _ => false,
    };
    if !is_told || !is_repeated(alloc, conn, input, run, after.as_str())? {
        return Some(Told::Otherwise);
    }
    Some(if made == 0 {
        Told::Unbegun
    } else {
        Told::Broken
    })
}

fn after_answer<S: Fresh>(
    alloc: Global,
    run: Run,
    input: &Input<'_>,
    answer: &Answer,
    conn: Connection<S>,
) -> Option<Told> {
    let after = rows_after::<S>(alloc, run, input)?;
    let mut conn = conn;
    let rows = all_rows(alloc, &mut conn)?;
    let reply = answer_said(alloc, answer)?;
    Some(if reply.as_str() == wanted(run) && rows.as_str() == after.as_str() {
        Told::Accepted
    } else {
        Told::Otherwise
    })
}

fn try_run<S: Fresh>(alloc: Global, run: Run) -> Option<Told> {
    let text = text_of(alloc, run)?;
    let input = input_of(alloc, run, text.as_str())?;
    let Given { answer, made, conn } = give::<S>(alloc, run, &input)?;
    match answer {
        Ok(answer) => after_answer(alloc, run, &input, &answer, conn),
        Err(fault) => after_fault(alloc, run, &input, &fault, made, conn),
    }
}

/// Returns the outcome of an input, in a second attempt if memory ran out before it.
pub fn told_at_last<S: Fresh>(alloc: Global, run: Run) -> Told {
    match try_run::<S>(alloc, run) {
        Some(told_first) => told_first,
        None => try_run::<S>(alloc, run).unwrap_or(Told::Otherwise),
    }
}

const BACK: &str = "INSERT INTO waybill
    SELECT awb, origin, destination, pieces, tenths, goods, notified FROM waybill2;
    DROP TABLE waybill2;
    UPDATE station SET version = 1";

fn old_tables<S: Fresh>(alloc: Global) -> Option<Connection<S>> {
    let mut conn = tables::<S>(alloc, Run::Departure)?;
    conn.execute_batch(BACK).ok()?;
    Some(conn)
}

fn rows_migrated<S: Fresh>(alloc: Global) -> Option<String> {
    match migrate(alloc, old_tables::<S>(alloc)?) {
        Ok(conn) => {
            let mut conn = conn;
            all_rows(alloc, &mut conn)
        }
        Err(_) => None,
    }
}

fn is_migrated<S: Fresh>(alloc: Global, conn: Connection<S>) -> Option<bool> {
    let after = rows_migrated::<S>(alloc)?;
    let mut conn = conn;
    let rows = all_rows(alloc, &mut conn)?;
    Some(rows.as_str() == after.as_str())
}

fn is_old<S: Fresh>(alloc: Global, conn: &mut Connection<S>) -> Option<bool> {
    let mut old = old_tables::<S>(alloc)?;
    let before = old_rows(alloc, &mut old)?;
    let rows = old_rows(alloc, conn)?;
    Some(rows.as_str() == before.as_str())
}

fn is_migrated_again<S: Fresh>(alloc: Global, conn: Connection<S>) -> Option<bool> {
    match migrate(alloc, conn) {
        Ok(conn) => is_migrated(alloc, conn),
        Err((conn, AttachFault::Version(2))) => is_migrated(alloc, conn),
        Err(_) => Some(false),
    }
}

fn after_unmigrated<S: Fresh>(
    alloc: Global,
    fault: &AttachFault,
    conn: Connection<S>,
) -> Option<Told> {
    let mut conn = conn;
    let is_old = is_old(alloc, &mut conn)?;
    let told = match fault {
        AttachFault::Memory if is_old => Told::Unchanged,
        AttachFault::Store => Told::Broken,
        _ => Told::Otherwise,
    };
    Some(if is_migrated_again(alloc, conn)? {
        told
    } else {
        Told::Otherwise
    })
}

fn try_migration<S: Fresh>(alloc: Global) -> Option<Told> {
    match migrate(alloc, old_tables::<S>(alloc)?) {
        Ok(conn) => Some(if is_migrated(alloc, conn)? {
            Told::Accepted
        } else {
            Told::Otherwise
        }),
        Err((conn, fault)) => after_unmigrated(alloc, &fault, conn),
    }
}

/// Returns the same, in a second attempt if memory ran out before it.
pub fn migration_told_at_last<S: Fresh>(alloc: Global) -> Told {
    match try_migration::<S>(alloc) {
        Some(told_first) => told_first,
        None => try_migration::<S>(alloc).unwrap_or(Told::Otherwise),
    }
}
