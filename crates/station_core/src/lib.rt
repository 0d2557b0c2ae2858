//! The station as a machine: its inputs and answers, and the keepers of its state.
#![tactic(auto)]

mod all;
mod answer;
mod ends;
mod gathered;
mod keeper;
mod key;
pub mod laws;
mod ranges;
mod rows;
mod shipment;
mod stored;
mod tally;

pub use all::{act_all, answer_one, repeated_key};
pub use answer::{
    ActFault, AllAnswers, Answer, Input, NO_NUMBERS_LEFT, Reply, detail_text, notice_texts,
    refusal_text, reply_text,
};
pub use ends::{ByteIn, ByteOut, Counted, InputReader, ReadFault, WriteFault, send};
pub use gathered::Gathered;
pub use keeper::Keeper;
pub use key::Key;
pub use ranges::content_range_law;
pub use row_sinks::{Sink, hand_out};
pub use rows::{
    AnnouncedRow, BookQuery, BookRow, Expectation, ExpectedQuery, ExpectedRow, FlightRow,
    IrregularRow, Message, MessageQuery, NotedFlight, RowText, ShedRow, TrailQuery, TrailRow,
    Waybill,
};
pub use shipment::{count_of_order, expectations_for, refusal_of_order, shipment_of};
pub use stored::{KeptReply, Load, Sizes, Summary, WaybillBalances};
