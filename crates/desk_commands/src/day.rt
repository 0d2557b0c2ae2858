//! Days of commands, such as `2026-01-12`.

ghost use Rattle.std.specs.Prelude.{◌≡◌, ◌≤◌, option_map, IfSome};
ghost use Rattle.desk_commands.specs.Common.{IsAscii, decimal_value, where_true};
ghost use Rattle.desk_commands.specs.Command.{is_calendar_day, day_line, date_in, year_part, if_written, day_of};

use awb_number::decimal;
use station_days::{DayMonth, LocalDay, day_in_year};
use std::marker::Model;

/// A borrowed text.
#[derive(Drop)]
pub(crate) struct Text<'a> {
    bytes: &'a [u8],
}

impl<'a> Model for Text<'a> {
    ghost use Rattle.std.specs.Prelude.{List, ℕ};

    ghost Value = { List ℕ };

    ghost view = { λ a. a.bytes.now };
}

impl<'a> Text<'a> {
    /// Wraps borrowed bytes.
    pub(crate) fn new(bytes: &'a [u8]) -> Text<'a>
        ensures { result ≡ bytes.now }
    {
        Text { bytes }
    }

    pub(crate) fn as_bytes(&self) -> &'a [u8]
        ensures { result.now ≡ self.now }
    {
        self.bytes
    }
}

/// Returns a day like `2026-01-12`, as in texts of commands and refusals.
pub fn day_text(day: LocalDay) -> [u8; 10]
    ensures value { result ≡ day_line day }
    ensures ascii { IsAscii result }
{
    day.write()
}

/// Returns the date of a day and a month, if both are in range.
fn day_month(day: u32, month: u32) -> Option<DayMonth>
    ensures { result ≡ where_true (is_calendar_day (record { day = day; month = month }))
        (record { day = day; month = month }) }
{
    if 1 <= day && day <= 31 && 1 <= month && month <= 12 {
        Some(DayMonth {
            day: day as u8,
            month: month as u8,
        })
    } else {
        None
    }
}

/// Returns date and year of ten bytes such as `2026-01-12`.
fn read_date(text: &[u8]) -> Option<(DayMonth, u16)>
    ensures date { result ≡ option_map (λ date. (date, decimal_value (year_part text.now)))
        (date_in text.now) }
    ensures year { IfSome result (λ r. r.1 ≤ 9999) }
{
    if text.len() != 10 {
        return None;
    }
    let year = decimal(&text[..4])?;
    let month = decimal(&text[5..7])?;
    let day = decimal(&text[8..])?;
    let date = day_month(day, month)?;
    Some((date, year as u16))
}

/// Returns the day, if a `Moment` can have it and `text` is its written form.
fn if_written(day: u32, text: &[u8]) -> Option<LocalDay>
    ensures { result ≡ if_written day text.now }
{
    let day = LocalDay::new(day)?;
    if day_text(day).as_slice() == text {
        Some(day)
    } else {
        None
    }
}

/// Reads a day such as `2026-01-12`, as `day_text` writes it.
///
/// Returns `None` for any other text, and for a day before 2000-01-01 or after 2099-12-31.
#[tactic(auto, unfolding(crate::specs::Command::day_of))]
pub fn read_day(text: &[u8]) -> Option<LocalDay>
    ensures { result ≡ day_of text.now }
{
    let (date, year) = read_date(text)?;
    if_written(day_in_year(date, year)?, text)
}
