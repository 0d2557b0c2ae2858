ghost use Rattle.std.specs.Prelude.{◌≡◌, ◌<◌, true, false, [], None, Some, length, take, IfOk, IfErr};
ghost use Rattle.station_tables.specs.Common.{HasCleanDisk, Survives, state, IfSound, IfWorks, IsBrokenAtEnd, IsMemoryOrReopen, IsMemoryOrStore, State, after_all, answers_of, are_declared, rows_view, IfGivenBack};
ghost use Rattle.station_tables.specs.Attached.{connection_in, IsBreakdown};
ghost use Rattle.station_tables.specs.Called.{IsRestored};

use crate::attaching::{AttachFault, attach};
use crate::station::Station;
use sqlite::{Alter, Connection};
use station_core::{ActFault, AllAnswers, Input, Keeper, act_all};
use station_days::Moment;
use std::alloc::Global;

/// A station that was given inputs, and another opening after it.
#[derive(Drop)]
pub struct Restart<S: Alter> {
    /// The answers, and the fault that ended them.
    pub given: AllAnswers,
    /// The station that answered.
    pub stopped: Station<S>,
    /// The station that was opened.
    pub opened: Result<Station<S>, (Connection<S>, AttachFault)>,
}

/// Passes inputs to a station, and then opens another connection.
///
/// This describes a crash: if the other connection has a crash state of the first one, the station
/// opened over it has all inputs that were answered, and perhaps the one that was interrupted.
pub fn act_and_restart<S: Alter>(
    alloc: Global,
    mut station: Station<S>,
    inputs: &[(Input<'_>, Moment)],
    other: Connection<S>,
) -> Restart<S>
    ensures restored { IfWorks ⟦<Station<S> as Keeper>⟧.keeping station result.stopped (λ s.
        (state S.Store (connection_in result.stopped)).may_leave (state S.Store other).now.trees
        → IfOk result.opened (λ again. HasCleanDisk (state S.Store (connection_in again))
        → IsRestored s inputs.now (length result.given.answers.items) result.given.fault
        (state S.Store other).now (⟦<Station<S> as Keeper>⟧.keeping.is_broken again)
        (⟦<Station<S> as Keeper>⟧.keeping.keeps again))) }

    // The stopped station stays sound exactly as long as its disk stays clean.
    ensures still { ⟦<Station<S> as Keeper>⟧.keeping.is_sound station → HasCleanDisk
        (state S.Store (connection_in result.stopped)) → ⟦<Station<S> as Keeper>⟧.keeping.is_sound
        result.stopped }

    // All inputs were answered like a step, or a fault of the store or of memory ended them.
    ensures all { result.given.fault ≡ None
        → length result.given.answers.items ≡ length inputs.now }
    ensures answers { IfWorks ⟦<Station<S> as Keeper>⟧.keeping station result.stopped (λ s.
        result.given.answers.items ≡ answers_of s
        (take (length result.given.answers.items) inputs.now)) }
    ensures part { (e : ActFault) → result.given.fault ≡ Some e
        → length result.given.answers.items < length inputs.now }
    ensures fault { ⟦<Station<S> as Keeper>⟧.keeping.is_broken station ≡ false → (e : ActFault)
        → result.given.fault ≡ Some e → IsMemoryOrStore e }
    ensures breaks { ⟦<Station<S> as Keeper>⟧.keeping.is_broken station ≡ false → IsBrokenAtEnd
        result.given.fault (⟦<Station<S> as Keeper>⟧.keeping.is_broken result.stopped) }

    // Unless the store failed, the stopped station keeps the state after the inputs that it
    // answered.
    ensures state { IfWorks ⟦<Station<S> as Keeper>⟧.keeping station result.stopped (λ s.
        (result.given.fault ≡ Some ActFault.Store → ⊥) → ⟦<Station<S> as Keeper>⟧.keeping.keeps
        result.stopped (after_all s (take (length result.given.answers.items) inputs.now))) }

    // A broken station answers nothing, and stays as it is.
    ensures reopen { ⟦<Station<S> as Keeper>⟧.keeping.is_broken station ≡ true
        → (result.given.answers.items ≡ []) × (result.stopped ≡ station) }
    ensures reopen_fault { ⟦<Station<S> as Keeper>⟧.keeping.is_broken station ≡ true
        → (e : ActFault) → result.given.fault ≡ Some e → IsMemoryOrReopen e }

    // No crash state is refused: a fault means that the store failed, or that memory ran out.
    ensures opens { IfWorks ⟦<Station<S> as Keeper>⟧.keeping station result.stopped (λ s.
        (state S.Store (connection_in result.stopped)).may_leave (state S.Store other).now.trees
        → IfErr result.opened (λ e. HasCleanDisk (state S.Store e.0) → IsBreakdown e.1)) }

    // The opened station is sound as long as its own disk stays clean.
    ensures sound { ⟦<Station<S> as Keeper>⟧.keeping.is_sound result.stopped
        → (state S.Store (connection_in result.stopped)).may_leave (state S.Store other).now.trees
        → IfOk result.opened (λ again. HasCleanDisk (state S.Store (connection_in again))
        → ⟦<Station<S> as Keeper>⟧.keeping.is_sound again) }

    // Opening writes nothing.
    ensures unwritten { IfOk result.opened
        (λ again. Survives (state S.Store other) (state S.Store (connection_in again)) (λ _. ⊥)) }
    ensures unwritten_at_err { IfErr result.opened
        (λ e. Survives (state S.Store other) (state S.Store e.0) (λ _. ⊥)) }
{
    let given = act_all(alloc, &mut station, inputs);
    let opened = attach(alloc, other);
    Restart {
        given,
        stopped: station,
        opened,
    }
}

/// A connection that a station returned, and another opening after it.
#[derive(Drop)]
pub struct Reopening<S: Alter> {
    /// The connection that was returned.
    pub left: Connection<S>,
    /// The station that was opened.
    pub opened: Result<Station<S>, (Connection<S>, AttachFault)>,
}

/// Ends a station, and then opens another connection.
///
/// This describes the next program: if the other connection has a crash state of the returned one,
/// the station opened over it has the state that the first one kept.
pub fn release_and_restart<S: Alter>(
    alloc: Global,
    station: Station<S>,
    other: Connection<S>,
) -> Reopening<S>
    ensures restored { IfSound ⟦<Station<S> as Keeper>⟧.keeping station station (λ s. HasCleanDisk
        (state S.Store result.left) → (state S.Store result.left).may_leave
        (state S.Store other).now.trees → IfOk result.opened (λ again. HasCleanDisk
        (state S.Store (connection_in again)) → IsRestored s [] 0 None (state S.Store other).now
        (⟦<Station<S> as Keeper>⟧.keeping.is_broken again)
        (⟦<Station<S> as Keeper>⟧.keeping.keeps again))) }
    ensures opens { IfSound ⟦<Station<S> as Keeper>⟧.keeping station station (λ s. HasCleanDisk
        (state S.Store result.left) → (state S.Store result.left).may_leave
        (state S.Store other).now.trees → IfErr result.opened
        (λ e. HasCleanDisk (state S.Store e.0) → IsBreakdown e.1)) }
    ensures sound { ⟦<Station<S> as Keeper>⟧.keeping.is_sound station → HasCleanDisk
        (state S.Store result.left) → (state S.Store result.left).may_leave
        (state S.Store other).now.trees → IfOk result.opened (λ again. HasCleanDisk
        (state S.Store (connection_in again)) → ⟦<Station<S> as Keeper>⟧.keeping.is_sound again) }

    // The connection is returned as by `release`, and opening writes nothing.
    ensures left { Survives (state S.Store (connection_in station)) (state S.Store result.left)
        (λ _. ⊥) }
    ensures shown { (s : State) → ⟦<Station<S> as Keeper>⟧.keeping.keeps station s → IfGivenBack
        (rows_view S.Store result.left (are_declared station.stored.store.store)) s }
    ensures unwritten { IfOk result.opened
        (λ again. Survives (state S.Store other) (state S.Store (connection_in again)) (λ _. ⊥)) }
    ensures unwritten_at_err { IfErr result.opened
        (λ e. Survives (state S.Store other) (state S.Store e.0) (λ _. ⊥)) }
{
    let left = station.release();
    let opened = attach(alloc, other);
    Reopening { left, opened }
}
