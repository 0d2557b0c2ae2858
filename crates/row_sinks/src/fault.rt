use std::alloc::{AllocError, AllocFailed};

/// A failed call of a store: a call of its database failed, or couldn't be made because no
/// transaction was open for a write or an earlier call had failed, or memory ran out after the
/// store was called.
#[derive(Clone, Copy)]
pub struct StoreFault;

impl From<AllocError> for StoreFault {
    fn from(_: AllocError) -> StoreFault {
        StoreFault
    }
}

impl<T: Drop> From<AllocFailed<T>> for StoreFault {
    fn from(_: AllocFailed<T>) -> StoreFault {
        StoreFault
    }
}
