//! The stock of waybill numbers: each is held by the desk or an agent, used or void.
#![tactic(auto)]

mod orders;
mod rows;
mod runs;
mod stock;

pub use orders::{Terms, carry_out, give_back, issue, take_in, void_run};
pub use rows::{PlainRows, StockRows};
pub use runs::{StockRun, maximal_runs, put_run};
pub use stock::{AgentCode, Holder, Order, Run, RunCount, StockFault, Test};
