ghost use Rattle.std.specs.Prelude.{◌≡◌, ◌&&◌, ◌+◌, ◌-◌, ◌*◌, pos, int_le, is_some, IsTrue, IfSome};
ghost use Rattle.row_codec.specs.Common.{serials, stock_meant};
ghost use Rattle.row_codec.specs.Flights.{natural, is_within};
ghost use Rattle.row_codec.specs.Stored.{holder_by, run_in, is_stock_row};

use agent_stock::{AgentCode, Holder, StockRun};
use awb_number::{Awb, SERIALS};
use station_rows::StockRow;

/// Returns the holder in a row, if it names one.
fn holder_by(row: &StockRow) -> Option<Holder>
    ensures { result ≡ holder_by (stock_meant row.now).1 }
{
    if row.holder == 1 {
        return match AgentCode::read(row.agent.as_bytes()) {
            Some(code) => Some(Holder::Agent(code)),
            None => None,
        };
    }
    if !row.agent.is_empty() {
        return None;
    }
    if row.holder == 0 {
        Some(Holder::Desk)
    } else if row.holder == 2 {
        Some(Holder::Used)
    } else if row.holder == 3 {
        Some(Holder::Void)
    } else {
        None
    }
}

#[tactic(auto, using(crate::proofs::Exact::within_number_parts))]
fn number_by(prefix: i64, serial: i64) -> Option<Awb>
    ensures exact { is_some result ≡ is_within 0 999 prefix && is_within 0 (serials - 1) serial }
    ensures value { IfSome result (λ number. number
        ≡ natural prefix * serials + natural serial) }
{
    Awb::new(u16::try_from(prefix).ok()?, u32::try_from(serial).ok()?)
}

/// Returns the number of serials from `low` to `high`, or `None` if `high` is less, or has more
/// than seven digits.
#[tactic(auto, using(crate::proofs::Exact::serials_within))]
fn count_by(low: i64, high: i64) -> Option<u32>
    requires { IsTrue (is_within 0 (serials - 1) low) }
    ensures exact { is_some result ≡ int_le low high && int_le high (pos (serials - 1)) }
    ensures value { IfSome result (λ count. count ≡ natural high + 1 - natural low) }
{
    if low <= high && high < i64::from(SERIALS) {
        Some((high - low + 1) as u32)
    } else {
        None
    }
}

/// Returns the run of numbers in a row with their holder, or `None` if they aren't numbers of one
/// prefix, or have no holder.
pub fn run_by(row: &StockRow) -> Option<StockRun>
    ensures exact { is_some result ≡ is_stock_row (stock_meant row.now) }
    ensures value { IfSome result (λ run. run ≡ run_in (stock_meant row.now)) }
{
    let first = number_by(row.prefix, row.low)?;
    let count = count_by(row.low, row.high)?;
    let holder = holder_by(row)?;
    Some(StockRun {
        first,
        count,
        holder,
    })
}
