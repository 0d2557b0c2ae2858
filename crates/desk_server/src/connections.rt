//! The connections that the service holds. All are read as their bytes come.

use crate::held::Held;
use crate::paced::MOST_WAITING;
use crate::server::ServerFault;
use mio::unix::SourceFd;
use mio::{Events, Interest, Poll, Token};
use std::alloc::Global;
use std::io;
use std::io::ErrorKind;
use std::net::{Net, TcpListener, TcpStream};
use std::os::fd::AsRawFd;
use std::time::{Clock, Duration};

/// The most connections that are held at a time. Others wait in the queue of the listening socket.
const MOST_HELD: usize = 256;

/// The longest silence of a connection while others wait for a place, and the longest time in which
/// an answer is sent while requests wait for room, in milliseconds.
const MOST_IDLE: u64 = 1000;

/// The longest wait while connections wait for a place, or requests for room, in milliseconds.
const MOST_PAUSE: u64 = 50;

/// The most that counts of a time in which the service didn't wait for its connections, or was
/// stopped, in milliseconds.
const MOST_STOP: u64 = 1000;

/// How much too early the system may end a wait, in milliseconds.
const MOST_EARLY: u64 = 10;

/// The token of the listening socket. A connection has the number of its place.
const LISTENER: Token = Token(MOST_HELD);

/// The connections of a listening socket.
#[derive(Drop)]
pub(crate) struct Connections<'a> {
    alloc: Global,
    listener: &'a TcpListener,
    poll: Poll,
    events: Events,
    /// Each connection has a place here until it ends. The last place is taken.
    places: Vec<Option<Held>>,
    /// The places at which something came while answers took all room.
    postponed: Vec<usize>,
    /// The number of connections that were accepted, or given up before.
    accepted: usize,
    /// `true` if connections may wait in the queue of the listening socket.
    is_called: bool,
    /// The time when the last wait ended, on the clock of the service.
    now: Duration,
    /// The same time on the clock that never goes back, if there was a wait.
    read: Option<Duration>,
}

impl<'a> Connections<'a> {
    /// No connections yet.
    ///
    /// Returns [`ServerFault::Listener`] if the system can't wait for them, and
    /// [`ServerFault::Memory`] if memory runs out.
    pub(crate) fn new<N: Net>(
        net: &N,
        alloc: Global,
        listener: &'a TcpListener,
    ) -> Result<Connections<'a>, ServerFault> {
        let Ok(poll) = waiting_for(net, listener) else {
            return Err(ServerFault::Listener);
        };
        let Ok(events) = Events::with_capacity(alloc, MOST_HELD + 1) else {
            return Err(ServerFault::Memory);
        };
        Ok(Connections {
            alloc,
            listener,
            poll,
            events,
            places: Vec::new(alloc),
            postponed: Vec::new(alloc),
            accepted: 0,
            is_called: false,
            now: Duration::ZERO,
            read: None,
        })
    }

    /// Returns whether `most` were accepted and none of them is held any more.
    pub(crate) fn is_over(&self, most: usize) -> bool {
        self.accepted >= most && self.places.is_empty()
    }

    /// The time when the last wait ended, on the clock of the service.
    pub(crate) fn now(&self) -> Duration {
        self.now
    }

    /// Returns the connection at a place if it waits for its answer and there is room for one. An
    /// answer is sent on, and the connection closed at its end.
    pub(crate) fn waiting_at(&mut self, place: usize) -> Option<&mut Held> {
        let now = self.now;
        let has_room = self.has_room();
        let held = self.places.get_mut(place)?.as_mut()?;
        if !held.is_asking() {
            if !held.go_on(now) {
                self.close(place);
            }
            return None;
        }
        if !has_room {
            if self.postponed.push(place).is_err() {
                self.close(place);
            }
            return None;
        }
        self.places.get_mut(place)?.as_mut()
    }

    /// Returns whether fewer bytes of answers wait than may be held.
    fn has_room(&self) -> bool {
        let mut waiting: usize = 0;
        for place in &self.places {
            if let Some(held) = place {
                waiting = waiting.saturating_add(held.waiting());
            }
        }
        waiting < MOST_WAITING
    }

    /// Sends the answers to their ends, and closes all other connections.
    pub(crate) fn drain_all<C: Clock>(&mut self, clock: &C) {
        for place in self.places.iter_mut() {
            if place.as_ref().is_some_and(|held| held.is_asking()) {
                *place = None;
            }
        }
        self.trim();
        for _ in 0..usize::MAX {
            if self.is_over(0) {
                return;
            }
            match self.wait(clock, 0) {
                Ok(places) => {
                    for &place in places.as_slice() {
                        let _answered = self.waiting_at(place);
                    }
                }
                Err(_) => return,
            }
        }
    }

    /// Closes the connection at a place.
    pub(crate) fn close(&mut self, place: usize) {
        if let Some(held) = self.places.get_mut(place) {
            *held = None;
        }
        self.trim();
    }

    /// Drops the free places behind the last that is taken.
    fn trim(&mut self) {
        for _ in 0..MOST_HELD {
            match self.places.last() {
                Some(None) => {
                    let _free = self.places.pop();
                }
                _ => return,
            }
        }
    }

    /// Waits until something comes or the first time is over, and gives up what took too long.
    /// Accepts connections, `most` in all. Returns the places at which something came.
    ///
    /// Returns [`ServerFault::Clock`] if the clock can't be read, [`ServerFault::Listener`] if the
    /// listening socket fails, and [`ServerFault::Memory`] if memory runs out.
    pub(crate) fn wait<C: Clock>(
        &mut self,
        clock: &C,
        most: usize,
    ) -> Result<Vec<usize>, ServerFault> {
        self.accept_all(most)?;
        self.poll_until(clock)?;
        let mut ready = self.taken_up();
        for event in self.events.iter() {
            if event.token() == LISTENER {
                self.is_called = true;
            } else if ready.push(event.token().0).is_err() {
                return Err(ServerFault::Memory);
            }
        }
        self.accept_all(most)?;
        Ok(ready)
    }

    /// Returns the places that were postponed, if there is room for answers again.
    fn taken_up(&mut self) -> Vec<usize> {
        let none = Vec::new(self.alloc);
        if self.postponed.is_empty() {
            return none;
        }
        if !self.has_room() {
            self.make_room();
        }
        if self.has_room() {
            std::mem::replace(&mut self.postponed, none)
        } else {
            none
        }
    }

    /// Gives up the connection whose answer has been sent for longest, if for long enough.
    fn make_room(&mut self) {
        let mut oldest = None;
        let mut since = self.now;
        for (at, place) in self.places.iter().enumerate() {
            if let Some(held) = place {
                if held.waiting() > 0 && held.begun() < since {
                    oldest = Some(at);
                    since = held.begun();
                }
            }
        }
        if self.now.saturating_sub(since) >= Duration::from_millis(MOST_IDLE) {
            if let Some(oldest) = oldest {
                self.close(oldest);
            }
        }
    }

    /// Waits until something comes or the first time is over, and gives up what took too long.
    fn poll_until<C: Clock>(&mut self, clock: &C) -> Result<(), ServerFault> {
        let begun = read_clock(clock)?;
        self.pass(begun);
        let wait = self.longest_wait();
        let is_whole = match self.poll.poll(&mut self.events, wait) {
            Ok(()) => true,
            Err(error) if error.kind() == ErrorKind::Interrupted => false,
            Err(_) => return Err(ServerFault::Listener),
        };
        let ended = read_clock(clock)?;
        match wait {
            Some(wait) if is_whole => self.pass_waiting(ended.saturating_sub(begun), wait),
            _ => self.pass(ended),
        }
        self.read = Some(ended);
        self.give_up();
        Ok(())
    }

    /// Counts the time up to one at which the service wasn't waiting, or was interrupted.
    fn pass(&mut self, until: Duration) {
        let gone = until.saturating_sub(self.read.unwrap_or(until));
        let most = Duration::from_millis(MOST_STOP);
        self.now = self.now.saturating_add(gone.min(most));
        self.read = Some(until);
    }

    /// Counts a wait. If a signal ended it, or it took much longer than it should, the service was
    /// stopped. On a clock that stands, a wait without an event is over.
    fn pass_waiting(&mut self, gone: Duration, wait: Duration) {
        let most = Duration::from_millis(MOST_STOP);
        let is_silent = self.events.is_empty();
        let is_early = gone.saturating_add(Duration::from_millis(MOST_EARLY)) < wait;
        let counted = if is_silent && gone == Duration::ZERO {
            wait
        } else if (is_silent && is_early) || gone > wait.saturating_add(most) {
            gone.min(most)
        } else {
            gone
        };
        self.now = self.now.saturating_add(counted);
    }

    /// The time until a connection is given up, or until the next try if something waits for room.
    fn longest_wait(&self) -> Option<Duration> {
        let mut first: Option<Duration> = None;
        for place in &self.places {
            if let Some(held) = place {
                let deadline = held.deadline();
                first = Some(first.map_or(deadline, |found| found.min(deadline)));
            }
        }
        let wait = first.map(|first| first.saturating_sub(self.now));
        if !self.is_called && self.postponed.is_empty() {
            return wait;
        }
        let pause = Duration::from_millis(MOST_PAUSE);
        Some(wait.map_or(pause, |wait| wait.min(pause)))
    }

    /// Gives up the connections whose time is over.
    fn give_up(&mut self) {
        let now = self.now;
        for place in self.places.iter_mut() {
            if place.as_ref().is_some_and(|held| now >= held.deadline()) {
                *place = None;
            }
        }
        self.trim();
    }

    /// Accepts the connections that wait, `most` in all, while there are places. One that was given
    /// up before counts as well. If the system has no room for one, they wait.
    fn accept_all(&mut self, most: usize) -> Result<(), ServerFault> {
        for _ in self.accepted..most {
            if !self.is_called {
                break;
            }
            let Some(place) = self.free_place() else {
                break;
            };
            match self.listener.accept() {
                Ok((stream, _)) => {
                    self.accepted = self.accepted.saturating_add(1);
                    self.hold(stream, place);
                }
                Err(error) if error.kind() == ErrorKind::ConnectionAborted => {
                    self.accepted = self.accepted.saturating_add(1);
                }
                Err(error) if error.kind() == ErrorKind::WouldBlock => self.is_called = false,
                Err(error) if error.kind() == ErrorKind::Interrupted => {}
                Err(error) if is_final(&error) => return Err(ServerFault::Listener),
                Err(_) => break,
            }
        }
        if self.accepted >= most {
            self.is_called = false;
        }
        Ok(())
    }

    /// Holds a connection at a free place. One that can't be set up is closed.
    fn hold(&mut self, stream: TcpStream, place: usize) {
        let Ok(held) = Held::new(self.alloc, stream, self.now) else {
            return;
        };
        let raw_fd = held.raw_fd();
        let mut source = SourceFd(&raw_fd);
        let registry = self.poll.registry();
        let both = Interest::READABLE | Interest::WRITABLE;
        if registry.register(&mut source, Token(place), both).is_err() {
            return;
        }
        if let Some(free) = self.places.get_mut(place) {
            *free = Some(held);
        } else if place == self.places.len() {
            // Without memory for a place the connection is closed.
            let _is_held = self.places.push(Some(held)).is_ok();
        }
    }

    /// A place without a connection. If there is none, the place of the connection that has sent
    /// nothing for longest, which is closed. Returns `None` if none has been idle for long enough.
    fn free_place(&mut self) -> Option<usize> {
        let mut oldest = 0;
        let mut since = self.now;
        for (at, place) in self.places.iter().enumerate() {
            let Some(held) = place else {
                return Some(at);
            };
            if held.last() < since {
                oldest = at;
                since = held.last();
            }
        }
        if self.places.len() < MOST_HELD {
            return Some(self.places.len());
        }
        if self.now.saturating_sub(since) < Duration::from_millis(MOST_IDLE) {
            return None;
        }
        self.close(oldest);
        Some(oldest)
    }
}

/// The system's errors after which the listening socket accepts no more: it is closed (`EBADF`), or
/// isn't one (`EINVAL`, `ENOTSOCK`, `EOPNOTSUPP`).
const FINAL_ERRORS: [i32; 4] = [9, 22, 88, 95];

/// Returns whether the listening socket accepts no more after an error.
fn is_final(error: &io::Error) -> bool {
    match error.raw_os_error() {
        Some(code) => FINAL_ERRORS.contains(&code),
        None => true,
    }
}

/// Returns a poll for connections of a listening socket, whose accepts no longer wait.
fn waiting_for<N: Net>(net: &N, listener: &TcpListener) -> io::Result<Poll> {
    listener.set_nonblocking(true)?;
    let poll = Poll::new(net)?;
    let raw_fd = listener.as_raw_fd();
    poll.registry()
        .register(&mut SourceFd(&raw_fd), LISTENER, Interest::READABLE)?;
    Ok(poll)
}

/// The time on the clock that never goes back.
fn read_clock<C: Clock>(clock: &C) -> Result<Duration, ServerFault> {
    match clock.monotonic() {
        Ok(now) => Ok(now),
        Err(_) => Err(ServerFault::Clock),
    }
}
