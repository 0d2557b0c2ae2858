//! The status messages of a waybill among those of the outbox.
ghost use Rattle.std.specs.Prelude.{◌≡◌};
ghost use Rattle.state_store.specs.Status.{is_beyond};

use awb_number::Awb;
use station_core::{Message, Sink};

/// Hands on the status messages of a waybill, up to the last one.
#[derive(Drop)]
pub struct StatusOf<'a, K> {
    pub sink: &'a mut K,
    pub awb: Awb,
    /// The number of the last message that can be one of the waybill, if it is known.
    pub last: Option<u32>,
}

/// Returns whether a number is greater than the last one.
fn is_beyond(last: Option<u32>, number: u32) -> bool
    ensures { result ≡ is_beyond last number }
{
    match last {
        Some(last) => last < number,
        None => false,
    }
}

impl<'a, K: Sink<Message>> Sink<Message> for StatusOf<'a, K> {
    ghost use Rattle.state_store.specs.Status.{Passes};

    ghost takes = { Passes K.takes };

    fn take(&mut self, message: Message) -> bool {
        if is_beyond(self.last, message.number) {
            return false;
        }
        if !message.is_about(&self.awb) {
            return true;
        }
        self.sink.take(message)
    }
}
