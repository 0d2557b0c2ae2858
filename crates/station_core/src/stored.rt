//! Values that a store returns from a station's state.
use awb_number::Awb;
use imp_fields::Airport;
use shipment_machine::{Amount, Balances};

/// The reply stored under a key.
#[derive(Drop)]
pub struct KeptReply {
    /// The command's text.
    pub request: String,
    /// The count in its reply.
    pub count: u32,
}

/// The amount of a waybill built on a flight.
#[derive(Clone, Copy)]
pub struct Load {
    pub awb: Awb,
    pub amount: Amount,
}

/// The balances of a waybill.
#[derive(Clone, Copy)]
pub struct WaybillBalances {
    pub awb: Awb,
    pub balances: Balances,
}

/// The numbers of moves, trail lines and messages. Each of the three is numbered from 1.
#[derive(Clone, Copy)]
pub struct Sizes {
    pub moves: u32,
    pub lines: u32,
    pub messages: u32,
}

/// A station at a glance.
#[derive(Clone, Copy)]
pub struct Summary {
    pub here: Airport,
    pub sizes: Sizes,
    /// The number of the last confirmed message.
    pub confirmed: u32,
}
