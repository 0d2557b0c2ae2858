//! Answers as texts, keys, and the counts of orders.
use crate::given::{airport, flight_date, next_number, next_small_number, number};
use crate::said::yes_or_no;
use agent_stock::{Order, Run, RunCount};
use imp_fields::{PartNumber, Why};
use shipment_machine::{Detail, Part, Refusal};
use station_core::{
    Key, Reply, RowText, count_of_order, detail_text, refusal_of_order, refusal_text, reply_text,
};
use std::alloc::Global;
use std::str::SplitWhitespace;
use test_kit::{say, shown};

pub fn answer(alloc: Global, asked: &str, text: &[u8]) -> Option<String> {
    match asked {
        "is-key" => yes_or_no(alloc, Key::read(text).is_some()),
        "key" => {
            let key = Key::read(text)?;
            format!(in alloc; "{} {}", shown(key.as_bytes()), key.as_str()).ok()
        }
        "row-text" => {
            let text = RowText::new(text.to_vec(alloc).ok()?);
            say(alloc, shown(text.as_bytes()))
        }
        _ => of_words(alloc, asked, &mut shown(text).split_whitespace()),
    }
}

fn of_words(alloc: Global, asked: &str, words: &mut SplitWhitespace<'_>) -> Option<String> {
    match asked {
        "reply" => {
            let count = next_number(words)?;
            reply_text(alloc, &Reply { count }).ok()
        }
        "refusal" => {
            let number = next_small_number(words)?;
            let detail = detail(words)?;
            refusal_text(alloc, &Refusal { number, detail }).ok()
        }
        "detail" => {
            let said = detail_text(alloc, &detail(words)?).ok()?;
            format!(in alloc; "[{said}]").ok()
        }
        "count" => format!(in alloc; "{}", count_of_order(&order(words)?)).ok(),
        "refusal-of-order" => {
            let refused = next_small_number(words)?;
            let refusal = refusal_of_order(refused, number(words));
            format!(in alloc; "{} [{}]", refusal.number, refusal.detail).ok()
        }
        _ => None,
    }
}

fn order(words: &mut SplitWhitespace<'_>) -> Option<Order> {
    let verb = words.next()?;
    let run = Run {
        first: number(words)?,
        count: RunCount::new(next_number(words)?)?,
    };
    match verb {
        "take-in" => Some(Order::TakeIn(run)),
        "void" => Some(Order::Void(run)),
        _ => None,
    }
}

fn detail(words: &mut SplitWhitespace<'_>) -> Option<Detail> {
    match words.next()? {
        "nothing" => Some(Detail::Nothing),
        "waybill" => Some(Detail::Waybill(number(words)?)),
        "pieces" => Some(Detail::Pieces(next_small_number(words)?)),
        "flight" => Some(Detail::Flight(flight_date(words)?)),
        "part" => Some(Detail::Part(Part {
            flight: flight_date(words)?,
            airport: airport(words)?,
            number: PartNumber::new(next_number(words)?)?,
        })),
        "line" => Some(Detail::Line {
            line: next_small_number(words)?,
            why: why(words.next()?)?,
        }),
        "messages" => Some(Detail::Messages {
            confirmed: next_number(words)?,
            last: next_number(words)?,
        }),
        _ => None,
    }
}

fn why(word: &str) -> Option<Why> {
    match word {
        "Size" => Some(Why::Size),
        "Lines" => Some(Why::Lines),
        "Byte" => Some(Why::Byte),
        "Long" => Some(Why::Long),
        "Kind" => Some(Why::Kind),
        "Ending" => Some(Why::Ending),
        "Head" => Some(Why::Head),
        "Consignment" => Some(Why::Consignment),
        "Number" => Some(Why::Number),
        "Quantity" => Some(Why::Quantity),
        "Weight" => Some(Why::Weight),
        "Date" => Some(Why::Date),
        "Flight" => Some(Why::Flight),
        "Order" => Some(Why::Order),
        _ => None,
    }
}
