//! Playing scripts.
use crate::http::desk::{Came, connect, connect_at_once, sent, state_of, station_after, taken};
use crate::http::ends::{Sent, Stop, Taken};
use crate::http::log::{Log, Way};
use crate::http::script::{Ask, Care, ScriptFault, Step, Story};
use http_desk::{ServeFault, Served};
use plain_station::PlainStation;
use std::alloc::Global;

#[derive(Clone, Copy)]
struct Case<'a> {
    alloc: Global,
    story: &'a Story<'a>,
    step: &'a Step<'a>,
    /// The number of steps before it.
    before: usize,
    wanted: Result<Served, ServeFault>,
}

fn status_in(answer: &[u8]) -> Option<u16> {
    let digits = answer.get(9..12)?;
    std::str::from_utf8(digits).ok()?.parse::<u16>().ok()
}

fn wanted(step: &Step<'_>) -> Result<Result<Served, ServeFault>, ScriptFault> {
    if step.answer.is_empty() {
        return Ok(Err(ServeFault::Read));
    }
    match status_in(&step.answer) {
        Some(status) => Ok(Ok(Served {
            status,
            reopen: false,
        })),
        None => Err(ScriptFault::Bad {
            line: step.line,
            why: "its answer has no status",
        }),
    }
}

impl Case<'_> {
    fn station(&self) -> Result<PlainStation, ScriptFault> {
        station_after(self.alloc, self.story, self.before)
    }

    fn check(
        &self,
        log: &mut Log,
        way: Way,
        served: Result<Served, ServeFault>,
        written: &[u8],
        came: &Came,
    ) -> Result<(), ScriptFault> {
        let line = self.step.line;
        log.compare(line, way, "what was written", written, &came.written)?;
        let ends = format!(in self.alloc; "{served:?}")?;
        let ended = format!(in self.alloc; "{:?}", came.served)?;
        log.compare(line, way, "how it ended", ends.as_bytes(), ended.as_bytes())?;
        Ok(())
    }

    fn check_whole(&self, log: &mut Log, way: Way, came: &Came) -> Result<(), ScriptFault> {
        self.check(log, way, self.wanted, &self.step.answer, came)
    }

    fn check_state(
        &self,
        log: &mut Log,
        way: Way,
        state: &[u8],
        station: &mut PlainStation,
    ) -> Result<(), ScriptFault> {
        let now = state_of(self.alloc, station, self.step.at)?;
        log.compare(self.step.line, way, "the station", state, &now)?;
        Ok(())
    }

    fn state_before(&self) -> Result<Vec<u8>, ScriptFault> {
        let mut station = self.station()?;
        Ok(state_of(self.alloc, &mut station, self.step.at)?)
    }

    /// Returns the state after the request, which arrived in one piece.
    fn state_after(&self, log: &mut Log) -> Result<Vec<u8>, ScriptFault> {
        let mut station = self.station()?;
        let came = connect_at_once(self.alloc, &mut station, self.step.at, &self.step.sent);
        self.check_whole(log, Way::InOnePiece, &came)?;
        Ok(state_of(self.alloc, &mut station, self.step.at)?)
    }

    /// Plays reads of at most `most` bytes with pauses between them, answered one byte a write.
    fn play_reads(
        &self,
        log: &mut Log,
        way: Way,
        most: usize,
        pauses: u32,
        after: &[u8],
    ) -> Result<(), ScriptFault> {
        let mut station = self.station()?;
        let reader = Sent {
            pauses,
            pauses_between: pauses,
            ..sent(&self.step.sent, most)
        };
        let came = connect(
            self.alloc,
            &mut station,
            self.step.at,
            reader,
            taken(self.alloc, 1),
        );
        self.check_whole(log, way, &came)?;
        if most == 1 {
            self.check_unread(log, way, came.unread)?;
        }
        if self.step.may_change() {
            self.check_state(log, way, after, &mut station)?;
        }
        Ok(())
    }

    fn check_unread(&self, log: &mut Log, way: Way, unread: usize) -> Result<(), ScriptFault> {
        if matches!(self.step.ask, Ask::Request(Care::Early)) {
            return Ok(());
        }
        let wanted = format!(in self.alloc;
            "{}",
            self.step.sent.len().saturating_sub(self.step.needed)
        )?;
        let came = format!(in self.alloc; "{unread}")?;
        log.compare(
            self.step.line,
            way,
            "bytes that weren't read",
            wanted.as_bytes(),
            came.as_bytes(),
        )?;
        Ok(())
    }

    /// Returns whether the request is answered after its first `count` bytes, given whether it was
    /// after one byte fewer.
    fn is_whole(&self, count: usize, was_whole: bool, came: &Came) -> bool {
        if matches!(self.step.ask, Ask::Request(Care::Early)) {
            return was_whole || came.served != Err(ServeFault::Read);
        }
        count >= self.step.needed
    }

    /// Returns whether a prefix of `count` of `all` bytes is played.
    fn plays(&self, count: usize, all: usize) -> bool {
        if matches!(self.step.ask, Ask::Request(Care::Every)) {
            return true;
        }
        count == 0 || count == all / 2 || count == all || count.saturating_add(1) == all
    }

    /// Plays prefixes of the request. Incomplete ones change nothing.
    fn play_beginnings(&self, log: &mut Log, before: &[u8]) -> Result<(), ScriptFault> {
        let mut station = self.station()?;
        let mut is_whole = false;
        for count in 0..self.step.sent.len() {
            let way = Way::Beginning(count);
            let beginning = &self.step.sent[..count];
            if !self.plays(count, self.step.needed) {
                continue;
            }
            if count == self.step.needed {
                self.check_state(log, Way::Beginnings, before, &mut station)?;
            }
            let came = connect_at_once(self.alloc, &mut station, self.step.at, beginning);
            is_whole = self.is_whole(count, is_whole, &came);
            if is_whole {
                self.check_whole(log, way, &came)?;
            } else {
                self.check(log, way, Err(ServeFault::Read), b"", &came)?;
            }
        }
        if self.step.needed < self.step.sent.len() {
            return Ok(());
        }
        self.check_state(log, Way::Beginnings, before, &mut station)
    }

    /// Writes the answer to a writer with room for these first bytes.
    fn play_room(
        &self,
        log: &mut Log,
        station: &mut PlainStation,
        written: &[u8],
        stop: Stop,
    ) -> Result<(), ScriptFault> {
        let room = written.len();
        let writer = Taken {
            room,
            stop,
            ..taken(self.alloc, usize::MAX)
        };
        let reader = sent(&self.step.sent, usize::MAX);
        let came = connect(self.alloc, station, self.step.at, reader, writer);
        let ends = Err(ServeFault::Write { sent: room as u64 });
        self.check(log, Way::Room(room, stop), ends, written, &came)
    }

    /// Does the same on a separate station, which then answers the same request in the same way.
    fn play_room_alone(
        &self,
        log: &mut Log,
        written: &[u8],
        stop: Stop,
        after: &[u8],
    ) -> Result<(), ScriptFault> {
        let mut station = self.station()?;
        self.play_room(log, &mut station, written, stop)?;
        let room = written.len();
        self.check_state(log, Way::Room(room, stop), after, &mut station)?;
        let again = connect_at_once(self.alloc, &mut station, self.step.at, &self.step.sent);
        self.check_whole(log, Way::Again(room), &again)
    }

    fn play_stop(
        &self,
        log: &mut Log,
        station: &mut PlainStation,
        written: &[u8],
        stop: Stop,
        after: &[u8],
    ) -> Result<(), ScriptFault> {
        if self.step.may_change() {
            self.play_room_alone(log, written, stop, after)
        } else {
            self.play_room(log, station, written, stop)
        }
    }

    /// Plays writers that stop. If the request changes nothing, they share a station.
    fn play_rooms(&self, log: &mut Log, after: &[u8]) -> Result<(), ScriptFault> {
        let mut station = self.station()?;
        for room in 0..self.step.answer.len() {
            let written = &self.step.answer[..room];
            if !self.plays(room, self.step.answer.len()) {
                continue;
            }
            self.play_stop(log, &mut station, written, Stop::Fails, after)?;
            self.play_stop(log, &mut station, written, Stop::TakesNone, after)?;
        }
        if self.step.may_change() {
            return Ok(());
        }
        self.check_state(log, Way::Rooms, after, &mut station)
    }

    fn play_after(&self, log: &mut Log, pauses: u32) -> Result<(), ScriptFault> {
        let mut station = self.station()?;
        let reader = Sent {
            pauses,
            ..sent(&self.step.sent, usize::MAX)
        };
        let writer = taken(self.alloc, usize::MAX);
        let came = connect(self.alloc, &mut station, self.step.at, reader, writer);
        self.check_whole(log, Way::After(pauses), &came)
    }

    fn play(&self, log: &mut Log, care: Care) -> Result<(), ScriptFault> {
        if let Care::After(pauses) = care {
            return self.play_after(log, pauses);
        }
        let before = self.state_before()?;
        let after = self.state_after(log)?;
        if !self.step.may_change() {
            let line = self.step.line;
            log.compare(line, Way::InOnePiece, "the station", &before, &after)?;
        }
        if matches!(care, Care::Long) {
            return self.play_reads(log, Way::InPieces, 64, 0, &after);
        }
        self.play_reads(log, Way::ByteByByte, 1, 0, &after)?;
        self.play_reads(log, Way::Interrupted, 1, 1, &after)?;
        self.play_beginnings(log, &before)?;
        self.play_rooms(log, &after)
    }
}

fn play_story(alloc: Global, story: &Story<'_>, log: &mut Log) -> Result<(), ScriptFault> {
    for (before, step) in story.steps.iter().enumerate() {
        let Ask::Request(care) = step.ask else {
            let _station = station_after(alloc, story, before.saturating_add(1))?;
            continue;
        };
        let case = Case {
            alloc,
            story,
            step,
            before,
            wanted: wanted(step)?,
        };
        case.play(log, care)?;
        log.answers = log.answers.saturating_add(1);
    }
    Ok(())
}

pub fn play(alloc: Global, stories: &[Story<'_>], log: &mut Log) -> Result<(), ScriptFault> {
    for story in stories {
        play_story(alloc, story, log)?;
    }
    Ok(())
}
