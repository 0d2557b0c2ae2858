//! Telegrams that arrive, and the texts of those to be sent.
#![tactic(auto)]

mod content;
mod notice;
mod reading;
mod telegram;

pub use notice::notice_text;
pub use reading::{read_telegram, telegram_law};
pub use telegram::{
    Content, NormalText, PartContent, PartLines, StatusContent, StatusLines, Telegram,
    TelegramFault,
};
