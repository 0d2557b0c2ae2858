//! A clock for tests.
use std::cell::Cell;
use std::io;
use std::time::{Clock, Duration};

/// A clock that shows one time, and whose count of seconds advances at each reading.
#[derive(Drop)]
pub struct Stepped {
    pub shown: u64,
    pub gone: Cell<u64>,
    pub step: u64,
}

impl Clock for Stepped {
    fn monotonic(&self) -> io::Result<Duration> {
        let gone = self.gone.get();
        self.gone.set(gone.saturating_add(self.step));
        Ok(Duration::from_secs(gone))
    }

    fn since_1970(&self) -> io::Result<Duration> {
        Ok(Duration::from_secs(self.shown))
    }
}
