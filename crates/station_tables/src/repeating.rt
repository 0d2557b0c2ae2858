ghost use Rattle.std.specs.Prelude.{◌≡◌, ◌≢◌, true, false, Err, Option, Some, IfOk, IfErr, OnOk};
ghost use Rattle.station_tables.specs.Common.{HasCleanDisk, Survives, IsUndone, state, IsOwn, LiesInOrder, connection_view, Answers, FindsOnly, IfSound, IfWorks, IsMemoryOrStore, MayLeave, State, IsLawfulState};
ghost use Rattle.station_tables.specs.Attached.{connection_in, IsBreakdown, IsStateIn, IsTypedState, Refuses, Finds};
ghost use Rattle.station_tables.specs.Called.{HasAnswered, HasRepeated, IsBeforeIn, IsBeforeOrAfter, IsBeforeOrAfterIn};

use crate::attaching::{AttachFault, attach};
use crate::station::Station;
use sqlite::{Alter, Connection};
use station_core::{ActFault, Answer, Input, Keeper};
use station_days::Moment;
use std::alloc::Global;

/// Passes one input to the station, and returns a refusal as an answer.
fn answer_on<S: Alter>(
    station: &mut Station<S>,
    input: &Input<'_>,
    at: Moment,
) -> Result<Answer, ActFault>
    ensures works { ⟦<Station<S> as Keeper>⟧.keeping.is_broken station.old ≡ false → OnOk result
        (⟦<Station<S> as Keeper>⟧.keeping.is_broken station.new ≡ false) }
    ensures fault { ⟦<Station<S> as Keeper>⟧.keeping.is_broken station.old ≡ false → IfErr result
        IsMemoryOrStore }
    ensures clean { HasCleanDisk (state S.Store (connection_in station.new))
        → HasCleanDisk (state S.Store (connection_in station.old)) }
    ensures still { ⟦<Station<S> as Keeper>⟧.keeping.is_sound station.old → HasCleanDisk
        (state S.Store (connection_in station.new)) → ⟦<Station<S> as Keeper>⟧.keeping.is_sound
        station.new }
    ensures sound { ⟦<Station<S> as Keeper>⟧.keeping.is_sound station.new
        → ⟦<Station<S> as Keeper>⟧.keeping.is_sound station.old }
    ensures answers { IfWorks ⟦<Station<S> as Keeper>⟧.keeping station.old station.new (λ s. Answers
        s input.now at result (⟦<Station<S> as Keeper>⟧.keeping.keeps station.new)) }
    ensures leaves { IfWorks ⟦<Station<S> as Keeper>⟧.keeping station.old station.new (λ s.
        FindsOnly ⟦<Station<S> as Keeper>⟧.keeping station.new (MayLeave s input.now at result)) }
{
    match station.act_on(input, at) {
        Ok(reply) => Ok(Answer::Done(reply)),
        Err(ActFault::Refused(refusal)) => Ok(Answer::Refused(refusal)),
        Err(ActFault::Memory) => Err(ActFault::Memory),
        Err(ActFault::Store) => Err(ActFault::Store),
        Err(ActFault::Reopen) => Err(ActFault::Reopen),
    }
}

/// Returns the fault of an opening, from that of its input.
fn ended_by(fault: &ActFault) -> AttachFault
    ensures told { IsBreakdown result }
    ensures never { result ≢ AttachFault.Occupied }
    ensures memory { result ≡ AttachFault.Memory → fault.now ≡ ActFault.Memory }
{
    match fault {
        ActFault::Memory => AttachFault::Memory,
        _ => AttachFault::Store,
    }
}

/// Passes one input to the opened station. If it fails, the connection is returned.
fn repeat_on<S: Alter>(
    mut station: Station<S>,
    input: &Input<'_>,
    at: Moment,
) -> Result<(Station<S>, Answer), (Connection<S>, AttachFault)>
    requires { ⟦<Station<S> as Keeper>⟧.keeping.is_broken station ≡ false }
    ensures works { IfOk result (λ r. ⟦<Station<S> as Keeper>⟧.keeping.is_broken r.0 ≡ false) }
    ensures clean { IfOk result (λ r. HasCleanDisk (state S.Store (connection_in r.0))
        → HasCleanDisk (state S.Store (connection_in station))) }
    ensures still { IfOk result (λ r. ⟦<Station<S> as Keeper>⟧.keeping.is_sound station
        → HasCleanDisk (state S.Store (connection_in r.0))
        → ⟦<Station<S> as Keeper>⟧.keeping.is_sound r.0) }
    ensures sound { IfOk result (λ r. ⟦<Station<S> as Keeper>⟧.keeping.is_sound r.0
        → ⟦<Station<S> as Keeper>⟧.keeping.is_sound station) }
    ensures repeated { (s : State) → ⟦<Station<S> as Keeper>⟧.keeping.keeps station s → IfOk result
        (λ r. ⟦<Station<S> as Keeper>⟧.keeping.is_sound r.0 → HasAnswered s input.now at r.1
        (⟦<Station<S> as Keeper>⟧.keeping.keeps r.0)
        (⟦<Station<S> as Keeper>⟧.keeping.may_find r.0)) }
    ensures fault { IfErr result (λ e. IsBreakdown e.1) }
    ensures never { IfErr result (λ e. e.1 ≢ AttachFault.Occupied) }
    ensures left_clean { IfErr result (λ e. HasCleanDisk (state S.Store e.0)
        → HasCleanDisk (state S.Store (connection_in station))) }
    ensures leaves { IfSound ⟦<Station<S> as Keeper>⟧.keeping station station (λ s. IfErr result (λ
        e. HasCleanDisk (state S.Store e.0) → (found : Option State) → Finds
        (connection_view S.Store e.0) found → IsBeforeOrAfter s input.now at found)) }
    ensures memory { IfSound ⟦<Station<S> as Keeper>⟧.keeping station station (λ s. IfErr result (λ
        e. e.1 ≡ AttachFault.Memory → HasCleanDisk (state S.Store e.0) → (found : Option State)
        → Finds (connection_view S.Store e.0) found → found ≡ Some s)) }
{
    match answer_on(&mut station, input, at) {
        Ok(answer) => Ok((station, answer)),
        Err(fault) => {
            let fault = ended_by(&fault);
            Err((station.release(), fault))
        }
    }
}

/// Opens the station of a database and passes it an input that may have been interrupted, or whose
/// answer was lost. A new input acts. One that was accepted before gets the same reply, and changes
/// nothing.
pub fn attach_and_repeat<S: Alter>(
    alloc: Global,
    conn: Connection<S>,
    input: &Input<'_>,
    at: Moment,
) -> Result<(Station<S>, Answer), (Connection<S>, AttachFault)>
    ensures inside { (connection_view S.Store conn).in_transaction ≡ true
        → result ≡ Err (conn, AttachFault.Store) }
    ensures works { IfOk result (λ r. ⟦<Station<S> as Keeper>⟧.keeping.is_broken r.0 ≡ false) }
    ensures sound { IfOk result (λ r. ⟦<Station<S> as Keeper>⟧.keeping.is_sound r.0
        → (connection_view S.Store conn).IsSound) }

    // The answer and the state are those of a step from the tables' state, and that state is the
    // only crash state.
    ensures repeated { IfOk result (λ r. ⟦<Station<S> as Keeper>⟧.keeping.is_sound r.0 → HasRepeated
        (state S.Store conn).now input.now at r.1 (⟦<Station<S> as Keeper>⟧.keeping.keeps r.0)
        (⟦<Station<S> as Keeper>⟧.keeping.may_find r.0)) }

    // The premise holds if a station wrote the tables and the disk returned them.
    ensures own { IfOk result (λ r. HasCleanDisk (state S.Store (connection_in r.0)) → IsOwn
        (state S.Store conn).now.trees → LiesInOrder S.Store
        → ⟦<Station<S> as Keeper>⟧.keeping.is_sound r.0) }

    // A fault is true of the tables. If they are a station's and lawful, the store failed or memory
    // ran out.
    ensures refused { IfErr result (λ e. HasCleanDisk (state S.Store e.0)
        → Refuses (state S.Store conn).now e.1) }
    ensures fit { IfErr result (λ e. HasCleanDisk (state S.Store e.0) → (s : State)
        → IsStateIn (state S.Store conn).now s → IsBreakdown e.1) }
    ensures never { IfErr result (λ e. e.1 ≢ AttachFault.Occupied) }
    ensures own_fit { IfErr result (λ e. HasCleanDisk (state S.Store e.0)
        → IsOwn (state S.Store conn).now.trees → LiesInOrder S.Store
        → (s : State) → IsTypedState (state S.Store conn).now s → IsLawfulState s
        → IsBreakdown e.1) }

    // Then the crash states are those from before or, if a station wrote the tables, their state or
    // the one after the input.
    ensures leaves { IfErr result (λ e. HasCleanDisk (state S.Store e.0)
        → IsOwn (state S.Store conn).now.trees → LiesInOrder S.Store
        → (found : Option State) → Finds (connection_view S.Store e.0) found
        → IsBeforeOrAfterIn (connection_view S.Store conn) (state S.Store conn).now input.now at
        found) }

    // If memory ran out, the input didn't act: the crash states are those from before, or the
    // tables' state.
    ensures memory { IfErr result (λ e. e.1 ≡ AttachFault.Memory → HasCleanDisk (state S.Store e.0)
        → IsOwn (state S.Store conn).now.trees → LiesInOrder S.Store → (found : Option State)
        → Finds (connection_view S.Store e.0) found
        → IsBeforeIn (connection_view S.Store conn) (state S.Store conn).now found) }

    // Tables that aren't a station's are unchanged.
    ensures spares { IfErr result (λ e. HasCleanDisk (state S.Store e.0)
        → ((s : State) → ¬ IsStateIn (state S.Store conn).now s)
        → (found : Option State) → Finds (connection_view S.Store e.0) found
        → Finds (connection_view S.Store conn) found) }
    ensures untouched { IfErr result (λ e. HasCleanDisk (state S.Store e.0)
        → ((s : State) → ¬ IsStateIn (state S.Store conn).now s)
        → Survives (state S.Store conn) (state S.Store e.0) (λ _. ⊥)) }

    // A fault about the tables comes before the input: nothing is written, no transaction is open,
    // and an open connection shows what it showed.
    ensures unwritten_at_err { IfErr result (λ e. ¬ IsBreakdown e.1
        → Survives (state S.Store conn) (state S.Store e.0) (λ _. ⊥)) }
    ensures unmoved { (connection_view S.Store conn).in_transaction ≡ false
        → IfErr result (λ e. HasCleanDisk (state S.Store e.0) → ¬ IsBreakdown e.1
        → IsUndone (state S.Store conn) (state S.Store e.0)) }
{
    match attach(alloc, conn) {
        Ok(station) => repeat_on(station, input, at),
        Err(none) => Err(none),
    }
}
