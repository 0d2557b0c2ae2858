ghost use Rattle.std.specs.Prelude.{◌≡◌, ◌⊎◌, ◌↔◌, true, false, IsTrue, Some, Option, IfOk, IfErr, OnOk};
ghost use Rattle.table_state.specs.Common.{state, HasCleanDisk, Trees, State, opening, IsOneStep, connection_view, IsVacant, takes_name, IsUnchanged, IsOwn, LiesInOrder, rows_view, are_declared, Seen, at_rest};
ghost use Rattle.sqlite.specs.State as connection;
ghost use Rattle.table_state.specs.Shown.{IsFileOf, Finds, IfGivenBack};

use crate::state::TableState;
use imp_fields::Airport;
use sqlite::{Alter, Connection};
use state_store::StateStore;
use station_core::Sizes;
use station_rows::{CreateFault, Rows, TableStore};
use std::alloc::Global;

/// Makes the tables of a station at an airport with nothing in it, in one transaction, in a store
/// where none of their names is taken. It gives the connection back where it fails.
#[tactic(auto, using(crate::proofs::NewState::ascii_airport, crate::proofs::NewState::opening_found))]
pub fn create<S: Alter>(
    alloc: Global,
    conn: Connection<S>,
    here: Airport,
) -> Result<TableState<Rows<S>>, (Connection<S>, CreateFault)>
    ensures free { OnOk result (takes_name (state S.Store conn).now.schema ≡ false) }
    ensures declared { IfOk result
        (λ tables. IsTrue (are_declared tables.store) ↔ IsVacant S.Store conn) }
    ensures sound { IfOk result (λ tables. ⟦<TableState<Rows<S>> as StateStore>⟧.storing.is_sound
        tables → (connection_view S.Store conn).IsSound) }

    // It shows the opening state, and a crash leaves that alone.
    ensures shows { IfOk result (λ tables. ⟦<TableState<Rows<S>> as StateStore>⟧.storing.shows
        tables (at_rest (opening here))) }

    // Occupied exactly where one of the names is taken, and then nothing changed.
    ensures inside { (connection_view S.Store conn).in_transaction ≡ true
        → result ≡ Err (conn, CreateFault.Store) }
    ensures occupied { (connection_view S.Store conn).in_transaction ≡ false
        → takes_name (state S.Store conn).now.schema ≡ true
        → result ≡ Err (conn, CreateFault.Occupied) }
    ensures taken { IfErr result (λ e. e.1 ≡ CreateFault.Occupied
        → takes_name (state S.Store conn).now.schema ≡ true) }

    // A crash leaves what it left before the call, or where the store was empty the opening
    // station.
    ensures leaves { IfErr result (λ e. IsVacant S.Store conn
        → (connection_view S.Store e.0).IsSound
        → (found : Option State) → Finds (connection_view S.Store e.0) found
        → Finds (connection_view S.Store conn) found
        ⊎ (IsVacant S.Store conn × (found ≡ Some (opening here)))) }

    // Beside other tables it leaves what it left before, or one database more, and a failure leaves
    // the last commit.
    ensures step { IfErr result (λ e. ¬ IsVacant S.Store conn
        → IsOneStep (state S.Store conn) (state S.Store e.0)) }
    ensures step_at_ok { IfOk result (λ tables. ¬ IsVacant S.Store conn
        → IsOneStep (state S.Store conn) (state S.Store tables.store.conn)) }
    ensures undone { (connection_view S.Store conn).in_transaction ≡ false
        → IfErr result (λ e. HasCleanDisk (state S.Store e.0)
        → (connection_view S.Store e.0).is_open ≡ true
        → IsUnchanged (connection_view S.Store conn) (connection_view S.Store e.0)) }

    // The same over the database, so that an opening knows the tables.
    ensures survives { IfErr result
        (λ e. connection.Survives (state S.Store conn) (state S.Store e.0)
        (λ db. IsVacant S.Store conn → IsFileOf db (opening here))) }
{
    let letters = here.letters();
    match Rows::create(conn, awb_number::ascii_text(&letters)) {
        Ok(store) => Ok(TableState::new(alloc, store, here)),
        Err((conn, fault)) => Err((conn, fault)),
    }
}

impl<S: Alter> TableState<Rows<S>> {
    /// Gives the connection back, whatever state it is in. A transaction that is open is undone as
    /// well as it can be, and what a crash may leave is as before.
    pub fn release(self) -> Connection<S>
        ensures survives { connection.Survives (state S.Store self.store.conn)
            (state S.Store result) (λ _. ⊥) }
        ensures own { HasCleanDisk (state S.Store result) → are_declared self.store ≡ true
            → LiesInOrder S.Store → (db : Trees)
            → (state S.Store result).may_leave db → IsOwn db }
        ensures clean { HasCleanDisk (state S.Store result)
            → ⟦<TableState<Rows<S>> as StateStore>⟧.storing.is_clean self }
        ensures leaves { (connection_view S.Store result).IsSound → (found : Option State)
            → Finds (connection_view S.Store result) found
            → ⟦<TableState<Rows<S>> as StateStore>⟧.storing.may_find self found }
        ensures sound { (rows_view S.Store result (are_declared self.store)).IsSound
            → ⟦<TableState<Rows<S>> as StateStore>⟧.storing.is_sound self }

        // A connection that is open is outside a transaction, and its tables mean the state of the
        // last commit.
        ensures shown { (x : Seen) → ⟦<TableState<Rows<S>> as StateStore>⟧.storing.shows self x
            → IfGivenBack (rows_view S.Store result (are_declared self.store)) x.committed }
    {
        self.into_store().release()
    }
}
