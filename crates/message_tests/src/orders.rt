//! Orders on a stock in memory.
use crate::given::{next_number, number};
use crate::said::yes_or_no;
use agent_stock::{
    AgentCode, Holder, Order, PlainRows, Run, RunCount, StockFault, StockRows, StockRun, carry_out,
    give_back, issue, maximal_runs, take_in, void_run,
};
use awb_number::Awb;
use station_core::{refusal_of_order, refusal_text};
use std::alloc::Global;
use std::str::SplitWhitespace;
use test_kit::{runs_said, say, shown};

pub fn answer(alloc: Global, stock: &mut PlainRows, asked: &str, text: &[u8]) -> Option<String> {
    let mut words = shown(text).split_whitespace();
    match asked {
        "new" => {
            *stock = PlainRows::new(alloc);
            say(alloc, "ok")
        }
        "copy" => {
            *stock = stock.try_clone().ok()?;
            say(alloc, "ok")
        }
        "holder" => match stock.holder(&number(&mut words)?).ok()? {
            Some(holder) => format!(in alloc; "{holder}").ok(),
            None => say(alloc, "nobody"),
        },
        "runs" => runs_said(alloc, stock.runs(alloc).ok()?.as_slice()),
        "runs-of" => {
            let all = all_held(alloc, shown(text))?;
            runs_said(alloc, maximal_runs(alloc, &all).ok()?.as_slice())
        }
        "is-agent" => yes_or_no(alloc, AgentCode::read(text).is_some()),
        _ => ordered(alloc, stock, asked, &mut words),
    }
}

fn ordered(
    alloc: Global,
    stock: &mut PlainRows,
    asked: &str,
    words: &mut SplitWhitespace<'_>,
) -> Option<String> {
    let run = Run {
        first: number(words)?,
        count: RunCount::new(next_number(words)?)?,
    };
    let agent = AgentCode::read(words.next().unwrap_or("").as_bytes());
    let done = match asked {
        "take-in" => take_in(stock, &run),
        "take-in-order" => carry_out(stock, &Order::TakeIn(run)),
        "void" => void_run(stock, &run),
        "issue" => issue(stock, &run, agent?),
        "return" => give_back(stock, &run, agent?),
        _ => return None,
    };
    match done {
        Ok(()) => say(alloc, "ok"),
        Err(StockFault::Rows(_)) => None,
        Err(StockFault::Refused(number, lowest)) => {
            refusal_text(alloc, &refusal_of_order(number, lowest)).ok()
        }
    }
}

/// Reads numbers with their holders: serials of prefix 020, each with a word after a slash.
fn all_held(alloc: Global, text: &str) -> Option<Vec<StockRun>> {
    let mut all = Vec::new(alloc);
    for word in text.split_whitespace() {
        let (serial, holder) = word.split_once('/')?;
        let first = Awb::new(20, serial.parse::<u32>().ok()?)?;
        let holder = match holder {
            "used" => Holder::Used,
            "void" => Holder::Void,
            code => Holder::Agent(AgentCode::read(code.as_bytes())?),
        };
        let row = StockRun {
            first,
            count: 1,
            holder,
        };
        all.push(row).ok()?;
    }
    Some(all)
}
