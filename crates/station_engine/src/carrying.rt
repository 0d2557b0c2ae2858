//! Writing the effect of an accepted input.
//! Limits on numbered rows.

ghost use Rattle.std.specs.Prelude.{OnOk, ◌≡◌, ◌+◌, ◌&&◌, nat_le, List, ℕ, length};
ghost use Rattle.station_engine.specs.Common.{KeepsPremise, State, kept_with, Changes, Commits, MayLeave, at_rest, with_moves, with_messages, texts_in, filter, outcome_of, carried_out, has_room, sent, most_rows, sizes_of};
ghost use Rattle.station_engine.specs.Serving.{IsRequestOf, with_changes, with_plan, is_line};
ghost use Rattle.shipment_machine.specs.Cargo.{Cargo as AnyCargo};

use crate::acting::keep;
use shipment_machine::{Change, Move, Plan};
use state_store::{StateStore, StoreFault};
use station_core::{Input, Sizes};

fn add_moves<S: StateStore>(store: &mut S, moves: &[Move]) -> Result<(), StoreFault>
    ensures { Changes S.storing store.old store.new result (with_moves moves.now) }
{
    for movement in moves {
        store.add_move(movement)?;
    }
    Ok(())
}

/// Writes rows; `text` is that of the current telegram.
fn write_all<S: StateStore>(
    store: &mut S,
    text: &[u8],
    changes: &[Change<'_>],
) -> Result<(), StoreFault>
    ensures { Changes S.storing store.old store.new result (with_changes text.now changes.now) }
{
    for change in changes {
        store.write(text, change)?;
    }
    Ok(())
}

fn add_messages<S: StateStore>(store: &mut S, messages: &[Vec<u8>]) -> Result<(), StoreFault>
    ensures { Changes S.storing store.old store.new result
        (with_messages (texts_in messages.now)) }
{
    for message in messages {
        store.add_message(message)?;
    }
    Ok(())
}

/// Writes all changes of a plan, inside a transaction.
fn carry_out<S: StateStore>(
    store: &mut S,
    text: &[u8],
    plan: &Plan<'_>,
    messages: &[Vec<u8>],
) -> Result<(), StoreFault>
    ensures { Changes S.storing store.old store.new result
        (with_plan text.now plan.now (texts_in messages.now)) }
{
    add_moves(store, &plan.moves)?;
    write_all(store, text, &plan.changes)?;
    add_messages(store, messages)?;
    Ok(())
}

pub(crate) fn keep_and_commit<S: StateStore>(
    store: &mut S,
    input: &Input<'_>,
    request: &str,
    count: u32,
) -> Result<(), StoreFault>
    requires { IsRequestOf input.now request.now }
    ensures { Commits S.storing store.old store.new result (kept_with input.now count) }
{
    keep(store, input, request, count)?;
    store.commit()?;
    Ok(())
}

/// Carries out a plan in one transaction, and stores the input and its count.
pub(crate) fn commit_plan<S: StateStore>(
    store: &mut S,
    input: &Input<'_>,
    request: &str,
    text: &[u8],
    plan: &Plan<'_>,
    messages: &[Vec<u8>],
) -> Result<(), StoreFault>
    requires { IsRequestOf input.now request.now }
    ensures done { (s : State) → S.storing.shows store.old (at_rest s)
        → OnOk result (S.storing.shows store.new (at_rest (kept_with input.now plan.now.count
        (with_plan text.now plan.now (texts_in messages.now) s)))) }
    ensures premise { KeepsPremise S.storing.is_clean S.storing.is_sound store.old store.new }
    ensures leaves { (s : State) → S.storing.shows store.old (at_rest s)
        → MayLeave S.storing (kept_with input.now plan.now.count
        (with_plan text.now plan.now (texts_in messages.now) s)) store.old store.new }
{
    store.begin()?;
    carry_out(store, text, plan, messages)?;
    keep_and_commit(store, input, request, plan.count)?;
    Ok(())
}

/// Returns the number of changes that add a line to the trail.
fn lines_in(changes: &[Change<'_>]) -> usize
    ensures { result ≡ length (filter is_line changes.now) }
{
    changes
        .iter()
        .filter(|change| matches!(change, Change::Trail { .. }))
        .count()
}

/// Returns whether `rows` and `more` rows can be numbered.
fn can_be_numbered(rows: u32, more: usize) -> bool
    ensures { result ≡ nat_le (rows + more) most_rows }
{
    let most = u32::MAX as usize;
    more <= most - rows as usize
}

fn all_three(a: bool, b: bool, c: bool) -> bool
    ensures { result ≡ (a && b && c) }
{
    a && b && c
}

/// Returns whether all rows can be numbered after a plan.
pub(crate) fn has_room(sizes: &Sizes, plan: &Plan<'_>, messages: &[Vec<u8>]) -> bool
    ensures { (s : AnyCargo) (text : List ℕ) → sizes.now ≡ sizes_of s
        → result
        ≡ has_room (sent (texts_in messages.now) (carried_out text (outcome_of plan.now) s)) }
{
    all_three(
        can_be_numbered(sizes.moves, plan.moves.as_slice().len()),
        can_be_numbered(sizes.lines, lines_in(&plan.changes)),
        can_be_numbered(sizes.messages, messages.len()),
    )
}
