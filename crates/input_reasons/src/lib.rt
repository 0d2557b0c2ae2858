//! Inputs before they act: what is read of each line of a telegram, and why an input is bad, in
//! lines for people.
#![tactic(auto)]

mod act_line;
mod as_object;
mod as_text;
mod body;
mod dropped;
mod field;
mod look;
mod row;
mod seen;
mod shown;
mod telegram;
mod tell;

pub use act_line::{MOST_LINE, act_line_reason, telegram_line_reason};
pub use as_object::look_object;
pub use as_text::look_text;
pub use body::{body_fault, body_reason};
pub use look::{DroppedLine, LinePart, Look, SeenLine, look_at};
pub use row::row_reason;
pub use telegram::{is_unread, telegram_fault, telegram_reason};
pub use tell::{look_law, tell_reason};
