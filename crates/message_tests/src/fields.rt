//! Waybill numbers, and the fields of messages.
use crate::given::{next_number, next_small_number, pieces};
use crate::said::{bracketed_or_none, printed_or_none, quantity_said, yes_or_no};
use awb_number::Awb;
use imp_fields::{
    Airport, BookTenths, Flight, Goods, Name, PartNumber, Pieces, ShipmentCode, Tenths,
    book_weight, put_quantity, read_quantity, share, weight_of,
};
use shipment_machine::Amount;
use station_days::{DayMonth, DayTime, LocalDay, Moment, resolve};
use std::alloc::Global;
use std::str::SplitWhitespace;
use test_kit::{number, say, shown};

pub fn numbers(alloc: Global, asked: &str, text: &[u8]) -> Option<String> {
    match asked {
        "of-parts" => {
            let mut words = shown(text).split_whitespace();
            let prefix = next_small_number(&mut words)?;
            printed_or_none(alloc, Awb::new(prefix, next_number(&mut words)?))
        }
        "read" => match Awb::read(text.first_chunk()?) {
            Ok(number) => format!(in alloc; "{} {}", number.prefix(), number.serial()).ok(),
            Err(fault) => format!(in alloc; "{fault:?}").ok(),
        },
        "key" => format!(in alloc; "{}", number(text)?.key()).ok(),
        "of-key" => printed_or_none(alloc, Awb::of_key(shown(text).parse::<u64>().ok()?)),
        _ => None,
    }
}

pub fn answer(alloc: Global, asked: &str, text: &[u8]) -> Option<String> {
    match asked {
        "airport" => printed_or_none(alloc, Airport::read(text)),
        "flight" => printed_or_none(alloc, Flight::read(text)),
        "name" => bracketed_or_none(alloc, Name::read(text)),
        "goods" => bracketed_or_none(alloc, Goods::read(text)),
        "date" => match DayMonth::read(text) {
            Some(date) => format!(in alloc; "{} {}", date.day, date.month).ok(),
            None => say(alloc, "none"),
        },
        "date-time" => printed_or_none(alloc, DayTime::read(text).map(|at| u32::from(at.minute))),
        _ => of_words(alloc, asked, &mut shown(text).split_whitespace()),
    }
}

fn of_words(alloc: Global, asked: &str, words: &mut SplitWhitespace<'_>) -> Option<String> {
    let first = words.next()?;
    match asked {
        "is-one-flight" => {
            let second = Flight::read(words.next()?.as_bytes())?;
            yes_or_no(alloc, Flight::read(first.as_bytes())? == second)
        }
        // The number of the day that a date means on a day of receipt.
        "meant" => {
            let receipt = LocalDay::new(next_number(words)?)?;
            let date = DayMonth::read(first.as_bytes())?;
            printed_or_none(alloc, resolve(date, receipt.number()))
        }
        "share" => {
            let pieces = Pieces::new(first.parse::<u32>().ok()?)?.number();
            let (tenths, part) = (next_number(words)?, next_number(words)?);
            format!(in alloc; "{}", share(pieces, tenths, part)).ok()
        }
        _ => of_numbers(alloc, asked, first.parse::<u32>().ok()?, next_number(words)),
    }
}

fn of_numbers(alloc: Global, asked: &str, first: u32, second: Option<u32>) -> Option<String> {
    let kept = match asked {
        "pieces" => return printed_or_none(alloc, Pieces::new(first)),
        "day" => return printed_or_none(alloc, LocalDay::new(first)),
        "date-on" => return say(alloc, shown(&DayMonth::on(LocalDay::new(first)?).write())),
        "part" => PartNumber::new(first).map(|kept| kept.number()),
        "tenths" => Tenths::new(first).map(|kept| kept.number()),
        "book-tenths" => BookTenths::new(first).map(|kept| kept.number()),
        "book-weight" => Some(book_weight(first, second?)),
        _ => return of_moment(alloc, asked, first, second?),
    };
    printed_or_none(alloc, kept)
}

fn of_moment(alloc: Global, asked: &str, day: u32, minute: u32) -> Option<String> {
    match (asked, Moment::new(day, u16::try_from(minute).ok()?)) {
        ("moment", Some(moment)) => format!(in alloc; "{} {}", moment.day, moment.minute).ok(),
        ("moment", None) => say(alloc, "none"),
        ("date-time-at", Some(moment)) => say(alloc, shown(&DayTime::at(moment).write())),
        _ => None,
    }
}

pub fn quantities(alloc: Global, asked: &str, text: &[u8]) -> Option<String> {
    let mut words = shown(text).split_whitespace();
    match asked {
        "weight" => printed_or_none(alloc, weight_of(text).map(|tenths| tenths.number())),
        "read" => match read_quantity(text) {
            Some(quantity) => quantity_said(alloc, &quantity),
            None => say(alloc, "none"),
        },
        "write" => write_quantity(alloc, &mut words),
        "amount" => {
            let (pieces, tenths) = (next_number(&mut words)?, next_number(&mut words)?);
            format!(in alloc; "{}", Amount { pieces, tenths }).ok()
        }
        _ => None,
    }
}

/// Writes a quantity from its code, its pieces, its tenths, and an optional total.
fn write_quantity(alloc: Global, words: &mut SplitWhitespace<'_>) -> Option<String> {
    let code = match words.next()? {
        "T" => ShipmentCode::Total,
        "P" => ShipmentCode::Part,
        "S" => ShipmentCode::Split,
        "D" => ShipmentCode::Divided,
        "M" => ShipmentCode::Multi,
        _ => return None,
    };
    let pieces = pieces(words)?;
    let tenths = BookTenths::new(next_number(words)?)?;
    let total = match next_number(words) {
        Some(total) => Some(Pieces::new(total)?),
        None => None,
    };
    let mut out = [0; 18];
    let end = put_quantity(&mut out, code, pieces, tenths, total);
    say(alloc, shown(&out[..end]))
}
