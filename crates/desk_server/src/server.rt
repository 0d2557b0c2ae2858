//! Connections, which are read side by side and answered one after another.
//! A law about the inputs of a service.

ghost use Rattle.std.specs.Prelude.{◌≡◌, ◌≤◌, ℕ, ⊤, false, Ok, Err, IfOk, IsOk, MatchOption, length, List, All};
ghost use Rattle.desk_server.specs.Served.{AtMost, Exchange, GoesOn, HasExplained, HasServedOne, HaveServed, HasServedInputs};
ghost use Rattle.station_core.specs.Step.{State};

use crate::connections::Connections;
use crate::held::{Arrival, Held};
use crate::paced::Paced;
use crate::zone::{Zone, moment_now};
use http_desk::{ServeFault, Served, refusal_line, serve_one};
use input_reasons::tell_reason;
use station_core::{ByteOut, Counted, Keeper};
use station_days::Moment;
use std::alloc::Global;
use std::io;
use std::net::{Ipv4Addr, Net, SocketAddr, TcpListener};
use std::time::{Clock, Duration};

/// The cause of an early end of the service.
#[derive(Clone, Copy, Debug)]
pub enum ServerFault {
    /// The listening socket failed, or the system can't wait for connections.
    Listener,
    /// The clock can't be read, or shows a day before 2000-01-01 or after 2099-12-31.
    Clock,
    /// The station must be opened again.
    Store,
    /// Memory ran out.
    Memory,
}

/// Listens on a port of 127.0.0.1. For port 0 the system picks one.
///
/// Returns the system's error if that port can't be had.
pub fn listen<N: Net>(net: &N, port: u16) -> io::Result<N::Listener> {
    TcpListener::bind(net, SocketAddr::from((Ipv4Addr::LOCALHOST, port)))
}

/// The clock, the zone and the allocator of a service.
#[derive(Drop)]
pub struct Setting<'a, C: Clock> {
    pub alloc: Global,
    pub clock: &'a C,
    pub zone: &'a Zone,
}

/// The next step of a connection from which something came.
#[derive(Clone, Copy)]
enum Next {
    /// More of its request is waited for.
    Waits,
    /// It was answered: the answer is sent, and the connection read to its end.
    Drains,
    /// It is closed.
    Ends,
}

/// Answers a connection at a moment, if its request is whole. The answer's bytes wait in it.
fn answer<C: Clock, K: Keeper>(
    setting: &Setting<'_, C>,
    keeper: &mut K,
    held: &mut Held,
    at: Moment,
) -> Result<Served, ServeFault>
    ensures served { (came : List ℕ) × HasServedOne K.keeping
        (record { at = at; came = came; end = result }) keeper.old keeper.new }
    // Nothing was written or changed before the request is whole.
    ensures unread { result ≡ Err ServeFault.Read → keeper.new ≡ keeper.old }
{
    let (bytes, stream, outgoing) = held.parts();
    serve_one(
        setting.alloc,
        keeper,
        &mut Counted::new(bytes),
        &mut Counted::new(Paced::new(setting.clock, stream, outgoing)),
        at,
    )
}

/// Writes why the body of a request was refused, up to the first write that fails.
fn explain<E: ByteOut>(alloc: Global, errors: &mut E, held: &Held, served: &Served)
    ensures { HasExplained (E.taken errors.old) (E.taken errors.new) }
{
    if let Ok(Some(line)) = refusal_line(alloc, held.bytes(), served) {
        tell_reason(errors, Ok(line));
    }
}

/// Reads what came of a request, and answers it if it is whole, at the moment that the clock then
/// shows. The answer is sent as its peer reads it. A write that fails, or an answer that isn't read
/// in time, ends the connection alone.
fn serve_held<C: Clock, K: Keeper, E: ByteOut>(
    setting: &Setting<'_, C>,
    keeper: &mut K,
    errors: &mut E,
    held: &mut Held,
    now: Duration,
) -> Result<Next, ServerFault>
    ensures most { AtMost K.keeping 1 (IsOk result) keeper.old keeper.new }
    ensures waits { result ≡ Ok Next.Waits → keeper.new ≡ keeper.old }
{
    let arrival = held.read_request(now);
    if arrival == Arrival::Lost {
        return Ok(Next::Ends);
    }
    let Some(at) = moment_now(setting.clock, setting.zone) else {
        return Err(ServerFault::Clock);
    };
    match answer(setting, keeper, held, at) {
        Ok(served) => {
            explain(setting.alloc, errors, held, &served);
            let is_open = held.begin_answer(now).is_ok() && held.go_on(now);
            if served.reopen {
                return Err(ServerFault::Store);
            }
            Ok(if is_open { Next::Drains } else { Next::Ends })
        }
        Err(ServeFault::Read) if arrival == Arrival::Open => Ok(Next::Waits),
        Err(_) => Ok(Next::Ends),
    }
}

/// Serves the connection at a place, from which something came. Returns whether it needs no more
/// answer.
fn serve_place<C: Clock, K: Keeper, E: ByteOut>(
    setting: &Setting<'_, C>,
    keeper: &mut K,
    errors: &mut E,
    connections: &mut Connections<'_>,
    place: usize,
) -> Result<bool, ServerFault>
    ensures most { AtMost K.keeping 1 (IsOk result) keeper.old keeper.new }
    ensures same { result ≡ Ok false → keeper.new ≡ keeper.old }
{
    let now = connections.now();
    let Some(held) = connections.waiting_at(place) else {
        return Ok(false);
    };
    match serve_held(setting, keeper, errors, held, now)? {
        Next::Waits => Ok(false),
        Next::Drains => Ok(true),
        Next::Ends => {
            connections.close(place);
            Ok(true)
        }
    }
}

/// Serves the connections from which something came, and answers at most `most` of them. Returns
/// the number of answers.
fn serve_places<C: Clock, K: Keeper, E: ByteOut>(
    setting: &Setting<'_, C>,
    keeper: &mut K,
    errors: &mut E,
    connections: &mut Connections<'_>,
    places: &[usize],
    most: usize,
) -> Result<usize, ServerFault>
    ensures most { AtMost K.keeping most (IsOk result) keeper.old keeper.new }
    ensures answered { IfOk result
        (λ answered. (answered ≤ most) × AtMost K.keeping answered ⊤ keeper.old keeper.new) }
{
    let mut answered = 0;
    for &place in places {
        if answered >= most {
            return Ok(answered);
        }
        if serve_place(setting, keeper, errors, connections, place)? {
            answered += 1;
        }
    }
    Ok(answered)
}

/// The most connections that are served.
fn most_of(count: Option<u32>) -> usize
    ensures { MatchOption count ⊤ (λ most. result ≡ most) }
{
    match count {
        Some(count) => count as usize,
        None => usize::MAX,
    }
}

/// Serves `count` connections, or without a count all that come. All are read as their bytes come,
/// and each request is answered when it is whole, one at a time, at the moment that the clock then
/// shows. So a connection that sends slowly, or nothing, holds no other up.
///
/// A connection that was given up counts as one. After an answer of 400, `errors` gets the line of
/// [`refusal_line`]. Returns a [`ServerFault`] if the service can't go on.
pub fn serve<N: Net, C: Clock, K: Keeper, E: ByteOut>(
    net: &N,
    setting: &Setting<'_, C>,
    keeper: &mut K,
    errors: &mut E,
    listener: &TcpListener,
    count: Option<u32>,
) -> Result<(), ServerFault>
    // The station changes by what its connections ask, at most so many, and by nothing else. An
    // answer that the station has to be opened again ends the service, with a fault.
    ensures { (all : List Exchange) × HaveServed K.keeping all keeper.old keeper.new × MatchOption
        count ⊤ (λ most. length all ≤ most) × (IsOk result → All GoesOn all) }
{
    let most = most_of(count);
    let mut connections = Connections::new(net, setting.alloc, listener)?;
    let mut left = most;
    for _ in 0..usize::MAX {
        if connections.is_over(most) {
            return Ok(());
        }
        let places = connections.wait(setting.clock, most)?;
        match serve_places(
            setting,
            keeper,
            errors,
            &mut connections,
            places.as_slice(),
            left,
        ) {
            Ok(answered) => left -= answered,
            Err(fault) => {
                connections.drain_all(setting.clock);
                return Err(fault);
            }
        }
    }
    Ok(())
}

/// However a service ends, reopening its station finds the state after the inputs that it answered
/// and, if the station broke, perhaps one more. Each input was asked by a connection, at its
/// moment.
pub fn served_law<K: Keeper>()
    ensures { (all : List Exchange) (s : State) (old new : K) → HaveServed K.keeping all old new
        → K.keeping.keeps old s → K.keeping.is_broken old ≡ false → K.keeping.is_sound new
        → HasServedInputs all s (K.keeping.is_broken new) (K.keeping.may_find new) }
{}
