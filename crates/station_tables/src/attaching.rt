ghost use Rattle.std.specs.Prelude.{◌≡◌, ◌≢◌, true, false, Some, Err, IsTrue, IfOk, IfErr};
ghost use Rattle.station_tables.specs.Common.{HasCleanDisk, Survives, IsSettled, IsUndone, Reads, state, Database, read_as, Second, State, IsLawfulState, connection_view, station_schema, IsStation, Tables, Means, at_rest, HasThese, Knows, IsOwn, LiesInOrder, are_declared, IsUnfit, Tells};
ghost use Rattle.sqlite.specs.State.{IsUnchanged};
ghost use Rattle.station_schema.specs.Store as store;
ghost use Rattle.station_tables.specs.Attached.{connection_in, IsBreakdown, IsJudged, IsStateIn, IsTypedState, Refuses};
ghost use Rattle.station_tables.specs.Called.{HasFound, HasMade};

use crate::station::Station;
use imp_fields::Airport;
use sqlite::{Alter, Connection, Error, ErrorCode};
use station_core::Keeper;
use station_engine::StoredStation;
use station_rows::{CreateFault, Rows, TableStore};
use station_schema::has_station;
use std::alloc::Global;
use table_audits::{FoundState, TableName, Unfit, found_state};
use table_load::FileVersion;
use table_state::TableState;

/// The reason why there is no station. The connection is returned with it.
#[derive(Clone, Copy, Debug)]
pub enum AttachFault {
    /// The first table, in the order of `TableName`, that is missing or unlawful.
    Unlawful(TableName),
    /// The table `station` is missing or has no row.
    NoStation,
    /// The version of the file, which isn't the expected one: 2, or 1 for an upgrade.
    Version(i64),
    /// A table, an index or a view has the name of one of a station's. The store is unchanged. Only
    /// `create` returns it.
    Occupied,
    /// The store failed, or the connection was closed or inside a transaction. The store is
    /// unchanged, or the call was done: `create` made a station, `migrate` raised the version,
    /// `attach_and_repeat` took the input.
    Store,
    /// Memory ran out. The store is unchanged. `create` never returns it.
    Memory,
}

/// Returns the fault for a database that isn't a station's.
fn unfit_fault(unfit: Unfit) -> AttachFault
    ensures refuses { (db : Database) → IsUnfit (read_as Second db) unfit → Refuses db result }
    ensures never { result ≢ AttachFault.Occupied }
{
    match unfit {
        Unfit::NoStation => AttachFault::NoStation,
        Unfit::OtherVersion(version) => AttachFault::Version(version),
        Unfit::Unlawful(name) => AttachFault::Unlawful(name),
    }
}

/// Returns the fault for a failed read.
pub(crate) fn breakdown(error: &Error) -> AttachFault
    ensures told { IsBreakdown result }
    ensures never { result ≢ AttachFault.Occupied }
{
    match error {
        Error::SqliteFailure(ErrorCode::OutOfMemory) => AttachFault::Memory,
        _ => AttachFault::Store,
    }
}

/// An open connection at rest with a station's schema shows a station's tables.
fn shows_station<S: Alter>(conn: &Connection<S>)
    ensures { (state S.Store conn.now).now.schema ≡ station_schema
        → IsTrue (state S.Store conn.now).is_open
        → (state S.Store conn.now).now ≡ (state S.Store conn.now).committed → LiesInOrder S.Store
        → IsStation (state S.Store conn.now).now }
{
    let _ = has_station(conn);
}

/// An open connection at rest shows a station's tables if a station wrote its trees.
fn shows_own_station<S: Alter>(conn: &Connection<S>)
    ensures { IsOwn (state S.Store conn.now).now.trees → IsTrue (state S.Store conn.now).is_open
        → (state S.Store conn.now).now ≡ (state S.Store conn.now).committed → LiesInOrder S.Store
        → IsStation (state S.Store conn.now).now }
{
    let _ = has_station(conn);
}

/// Returns a station over a store that was found to be a station's.
fn over_store<T: TableStore>(
    alloc: Global,
    store: T,
    found: FoundState,
) -> StoredStation<TableState<T>>
    ensures works { ⟦<StoredStation<TableState<T>> as Keeper>⟧.keeping.is_broken result ≡ false }
    ensures same { result.store.store ≡ store }
    ensures keeps { (t : Tables) (s : State) → Means t (Some s) → IsLawfulState s → Knows found.here
        found.sizes found.confirmed (at_rest s)
        → ((T.view store).IsSound → HasThese t (T.view store))
        → ⟦<StoredStation<TableState<T>> as Keeper>⟧.keeping.keeps result s }
    ensures sound { ⟦<StoredStation<TableState<T>> as Keeper>⟧.keeping.is_sound result
        → (T.view store).IsSound }
{
    let tables = TableState::over(alloc, store, found.here, found.sizes, found.confirmed);
    StoredStation::over(alloc, tables)
}

/// Returns a station over a connection whose tables were found to be a station's.
fn go_on<S: Alter>(
    alloc: Global,
    conn: Connection<S>,
    found: FoundState,
) -> Result<Station<S>, (Connection<S>, AttachFault)>
    ensures works { IfOk result
        (λ station. ⟦<Station<S> as Keeper>⟧.keeping.is_broken station ≡ false) }
    ensures sound { IfOk result (λ station. ⟦<Station<S> as Keeper>⟧.keeping.is_sound station
        → (connection_view S.Store conn).IsSound) }
    ensures clean { IfOk result (λ station. HasCleanDisk (state S.Store (connection_in station))
        → HasCleanDisk (state S.Store conn)) }
    ensures own { IfOk result (λ station. HasCleanDisk (state S.Store (connection_in station))
        → IsOwn (state S.Store conn).now.trees → are_declared station.stored.store.store ≡ true) }
    ensures keeps { (s : State) (in_ : IsStateIn (state S.Store conn).now s) → Tells found
        in_.tables → (state S.Store conn).in_transaction ≡ false → (state S.Store conn).now
        ≡ (state S.Store conn).committed → IfOk result
        (λ station. ⟦<Station<S> as Keeper>⟧.keeping.keeps station s) }
    ensures typed { IfOk result (λ station. ⟦<Station<S> as Keeper>⟧.keeping.is_sound station
        → (state S.Store conn).now ≡ (state S.Store conn).committed → (s : State) → IsStateIn
        (state S.Store conn).now s → IsTypedState (state S.Store conn).now s) }
    ensures fault { IfErr result (λ e. e.1 ≡ AttachFault.Store) }
    ensures spares { IfErr result
        (λ e. store.Survives (connection_view S.Store conn) (connection_view S.Store e.0)) }
    ensures unwritten { IfOk result
        (λ station. Survives (state S.Store conn) (state S.Store (connection_in station))
        (λ _. ⊥)) }
    ensures seen { IfOk result (λ station. HasCleanDisk (state S.Store (connection_in station))
        → IsUnchanged (state S.Store conn) (state S.Store (connection_in station))) }
    ensures unwritten_at_err { IfErr result
        (λ e. Survives (state S.Store conn) (state S.Store e.0) (λ _. ⊥)) }
{
    shows_station(&conn);
    match Rows::opened(conn) {
        Ok(rows) => Ok(Station::over(over_store(alloc, rows, found))),
        Err(conn) => Err((conn, AttachFault::Store)),
    }
}

/// Reads and audits the tables of any database as a version.
pub(crate) fn judge<S: Alter>(
    alloc: Global,
    conn: &mut Connection<S>,
    version: FileVersion,
) -> Result<Result<FoundState, Unfit>, Error>
    ensures read { HasCleanDisk (state S.Store conn.new) → IsTrue (state S.Store conn.old).is_open
        → Reads (state S.Store conn.old) (state S.Store conn.new) result
        (IsJudged (read_as version (state S.Store conn.old).now)) }
    ensures survives { Survives (state S.Store conn.old) (state S.Store conn.new) (λ _. ⊥) }
{
    found_state(alloc, conn, version)
}

/// Returns a station over an audited connection, or the reason why there isn't one.
fn settle<S: Alter>(
    alloc: Global,
    conn: Connection<S>,
    judged: Result<FoundState, Unfit>,
) -> Result<Station<S>, (Connection<S>, AttachFault)>
    ensures works { IfOk result
        (λ station. ⟦<Station<S> as Keeper>⟧.keeping.is_broken station ≡ false) }
    ensures sound { IfOk result (λ station. ⟦<Station<S> as Keeper>⟧.keeping.is_sound station
        → (connection_view S.Store conn).IsSound) }
    ensures clean { IfOk result (λ station. HasCleanDisk (state S.Store (connection_in station))
        → HasCleanDisk (state S.Store conn)) }
    ensures own { IfOk result (λ station. HasCleanDisk (state S.Store (connection_in station))
        → IsOwn (state S.Store conn).now.trees → are_declared station.stored.store.store ≡ true) }
    ensures found { (state S.Store conn).in_transaction ≡ false → (state S.Store conn).now
        ≡ (state S.Store conn).committed → IsJudged (read_as Second (state S.Store conn).now) judged
        → IfOk result (λ station. (s : State) × IsStateIn (state S.Store conn).now s
        × ⟦<Station<S> as Keeper>⟧.keeping.keeps station s) }
    ensures typed { IfOk result (λ station. ⟦<Station<S> as Keeper>⟧.keeping.is_sound station
        → (state S.Store conn).now ≡ (state S.Store conn).committed → (s : State) → IsStateIn
        (state S.Store conn).now s → IsTypedState (state S.Store conn).now s) }
    ensures refused { IsJudged (read_as Second (state S.Store conn).now) judged
        → IfErr result (λ e. Refuses (state S.Store conn).now e.1) }
    ensures never { IfErr result (λ e. e.1 ≢ AttachFault.Occupied) }
    ensures spares { IfErr result
        (λ e. store.Survives (connection_view S.Store conn) (connection_view S.Store e.0)) }
    ensures unwritten { IfOk result
        (λ station. Survives (state S.Store conn) (state S.Store (connection_in station))
        (λ _. ⊥)) }
    ensures seen { IfOk result (λ station. HasCleanDisk (state S.Store (connection_in station))
        → IsUnchanged (state S.Store conn) (state S.Store (connection_in station))) }
    ensures unwritten_at_err { IfErr result
        (λ e. Survives (state S.Store conn) (state S.Store e.0) (λ _. ⊥)) }
    ensures unmoved { IfErr result (λ e. e.1 ≢ AttachFault.Store → IsSettled (state S.Store conn)
        → IsUndone (state S.Store conn) (state S.Store e.0)) }
{
    match judged {
        Ok(found) => go_on(alloc, conn, found),
        Err(unfit) => Err((conn, unfit_fault(unfit))),
    }
}

/// Opens the station in a store. Each table is read in full by one statement, and the tables are
/// audited in the order of `TableName`. Nothing is written.
pub fn attach<S: Alter>(
    alloc: Global,
    mut conn: Connection<S>,
) -> Result<Station<S>, (Connection<S>, AttachFault)>
    ensures { HasFound S.Store ⟦<Station<S> as Keeper>⟧.keeping conn result }
{
    shows_own_station(&conn);
    if !conn.is_autocommit() {
        return Err((conn, AttachFault::Store));
    }
    if !station_schema::is_live(&mut conn) {
        return Err((conn, AttachFault::Store));
    }
    match judge(alloc, &mut conn, FileVersion::Second) {
        Ok(judged) => settle(alloc, conn, judged),
        Err(error) => {
            let fault = breakdown(&error);
            Err((conn, fault))
        }
    }
}

/// Creates the tables of an empty station at an airport, in one transaction, in a store in which
/// none of their names is taken.
///
/// Returns [`AttachFault::Occupied`] if a table, an index or a view has one of these names, in
/// upper or lower case, and [`AttachFault::Store`] if a transaction is open or the store fails. The
/// connection is returned with the fault. Other tables are kept, but there is no guarantee about
/// their contents, neither here nor when such tables are opened.
pub fn create<S: Alter>(
    alloc: Global,
    conn: Connection<S>,
    here: Airport,
) -> Result<Station<S>, (Connection<S>, AttachFault)>
    ensures { HasMade S.Store ⟦<Station<S> as Keeper>⟧.keeping conn here result }
{
    match table_state::create(alloc, conn, here) {
        Ok(tables) => Ok(Station::over(StoredStation::over(alloc, tables))),
        Err((conn, CreateFault::Occupied)) => Err((conn, AttachFault::Occupied)),
        Err((conn, CreateFault::Store)) => Err((conn, AttachFault::Store)),
    }
}
