//! Storing accepted inputs for repeats.
ghost use Rattle.std.specs.Prelude.{OnOk};
ghost use Rattle.state_store.specs.Common.{State, with_key, with_text};
ghost use Rattle.state_store.specs.Store.{Shows};

use crate::StoreFault;
use crate::maps::state::MapState;
use station_core::Key;

impl MapState {
    /// Stores the text of a command accepted under a key, and its count.
    pub(crate) fn keep_reply(
        &mut self,
        key: &Key,
        request: &str,
        count: u32,
    ) -> Result<(), StoreFault>
        ensures { (s : State) → Shows self.old s → OnOk result (Shows self.new
            (with_key key.now (record { request = request.now; count = count }) s)) }
    {
        let name = Vec::from_slice(self.alloc, key.as_bytes())?;
        let request = String::from_str(self.alloc, request)?;
        self.kept_keys.insert(name, (request, count))?;
        Ok(())
    }

    /// Stores the count for a telegram with this normal text.
    pub(crate) fn keep_count(&mut self, text: &[u8], count: u32) -> Result<(), StoreFault>
        ensures { (s : State) → Shows self.old s
            → OnOk result (Shows self.new (with_text text.now count s)) }
    {
        let text = Vec::from_slice(self.alloc, text)?;
        self.kept_texts.insert(text, count)?;
        Ok(())
    }
}
