ghost use Rattle.std.specs.Prelude.{◌≡◌, ◌↔◌, ◌+◌, ◌*◌, ◌<◌, ℤ, IsSome, IfSome};
ghost use Rattle.jiff_core.specs.declared.civil.datetime.DateTime.{DateTime as AnyDateTime};
ghost use Rattle.jiff_tz.specs.PosixReader.{read_whole};
ghost use Rattle.desk_server.specs.Served.{FollowsRule, Shows, IsMinuteOf, IsWithinDays};

use jiff::Timestamp;
use jiff::civil::DateTime;
use jiff::tz::TimeZone;
use station_days::{FIRST_MOMENT_DAY, LAST_MOMENT_DAY, Moment};
use std::time::Clock;

/// A zone, by its POSIX rule.
#[derive(Clone, Copy)]
pub struct Zone {
    zone: TimeZone<'static>,
}

impl Zone {
    /// Reads a rule such as `UTC0` or `CET-1CEST,M3.5.0,M10.5.0/3`. It is `None` for any other
    /// text, including names such as `Europe/Berlin`.
    pub fn read(rule: &str) -> Option<Zone>
        ensures read { IsSome result ↔ IsSome (read_whole rule.now) }
        ensures rule { IfSome result (FollowsRule rule.now) }
    {
        match TimeZone::posix(rule) {
            Ok(zone) => Some(Zone { zone }),
            Err(_) => None,
        }
    }

    fn local(&self, now: Timestamp) -> DateTime
        ensures { Shows self.now now.nanosecond result }
    {
        self.zone.to_datetime(now)
    }
}

/// Returns the minutes since midnight.
fn minute_of(local: DateTime) -> u16
    ensures value { result ≡ local.time.hour * 60 + local.time.minute }
    ensures bound { result < 1440 }
{
    let time = local.to_plain().time;
    u16::from(time.hour) * 60 + u16::from(time.minute)
}

/// Returns the moment of a date and a time, or `None` before 2000-01-01 and after 2099-12-31.
fn moment_at(local: DateTime) -> Option<Moment>
    ensures within { IsSome result ↔ IsWithinDays local }
    ensures value { IfSome result (IsMinuteOf local) }
{
    let day = u32::try_from(local.date().to_plain().to_unix_epoch_day()).ok()?;
    if day < FIRST_MOMENT_DAY || day > LAST_MOMENT_DAY {
        return None;
    }
    Moment::new(day, minute_of(local))
}

/// Returns the local day and minute in a zone at an instant, or `None` if the day is before
/// 2000-01-01 or after 2099-12-31.
pub fn moment_of(zone: &Zone, now: Timestamp) -> Option<Moment>
    ensures { (local : AnyDateTime) × Shows zone.now now.nanosecond local
        × (IsSome result ↔ IsWithinDays local) × IfSome result (IsMinuteOf local) }
{
    moment_at(zone.local(now))
}

/// Returns the current moment in a zone, or `None` if the clock can't be read, or its day is before
/// 2000-01-01 or after 2099-12-31.
pub fn moment_now(clock: &impl Clock, zone: &Zone) -> Option<Moment>
    // It is the local time at some instant; no contract says at which.
    ensures { IfSome result (λ moment. (instant : ℤ) × (local : AnyDateTime)
        × Shows zone.now instant local × IsMinuteOf local moment) }
{
    match Timestamp::now(clock) {
        Ok(now) => moment_of(zone, now),
        Err(_) => None,
    }
}
