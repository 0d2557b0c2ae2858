//! Flows into a place and out of it.
ghost use Rattle.std.specs.Prelude.{◌≡◌, ◌+◌, ◌-◌, IfOk};
ghost use Rattle.state_store.specs.Common.{amount};
ghost use Rattle.state_store.specs.Store.{drawn_of, flow_with, held_of, more};

use crate::StoreFault;
use shipment_machine::{Amount, Move, Place};

/// Sums of pieces and tenths.
#[derive(Clone, Copy)]
pub(crate) struct Total {
    pub(crate) pieces: u64,
    pub(crate) tenths: u64,
}

/// The sums that moved into a place and out of it.
#[derive(Clone, Copy)]
pub(crate) struct Flow {
    pub(crate) came: Total,
    pub(crate) went: Total,
}

pub(crate) const STILL: Flow = Flow {
    came: Total {
        pieces: 0,
        tenths: 0,
    },
    went: Total {
        pieces: 0,
        tenths: 0,
    },
};

impl Total {
    fn with(&self, movement: &Move) -> Result<Total, StoreFault>
        ensures { IfOk result (λ total. total ≡ more self.now movement.now) }
    {
        let pieces = self
            .pieces
            .checked_add(u64::from(movement.pieces.number()))
            .ok_or(StoreFault)?;
        let tenths = self
            .tenths
            .checked_add(u64::from(movement.tenths.number()))
            .ok_or(StoreFault)?;
        Ok(Total { pieces, tenths })
    }

    /// Returns the difference of two sums, at least 0.
    fn less(&self, other: &Total) -> Result<Amount, StoreFault>
        ensures { IfOk result (λ left. left ≡ amount (self.now.pieces - other.now.pieces)
            (self.now.tenths - other.now.tenths)) }
    {
        let pieces = self.pieces.saturating_sub(other.pieces);
        let tenths = self.tenths.saturating_sub(other.tenths);
        match (u32::try_from(pieces), u32::try_from(tenths)) {
            (Ok(pieces), Ok(tenths)) => Ok(Amount { pieces, tenths }),
            _ => Err(StoreFault),
        }
    }
}

impl Flow {
    /// Returns the flow of a place with another move, which may be to or from the place.
    pub(crate) fn with(&self, place: &Place, movement: &Move) -> Result<Flow, StoreFault>
        ensures { IfOk result (λ flow. flow ≡ flow_with place.now self.now movement.now) }
    {
        let came = if place.is_same(&movement.to) {
            self.came.with(movement)?
        } else {
            self.came
        };
        let went = if place.is_same(&movement.from) {
            self.went.with(movement)?
        } else {
            self.went
        };
        Ok(Flow { came, went })
    }

    /// Returns the amount at the place, from which no more moved out than in.
    pub(crate) fn held(&self) -> Result<Amount, StoreFault>
        ensures { IfOk result (λ held. held ≡ held_of self.now) }
    {
        self.came.less(&self.went)
    }

    /// Returns the amount that came from the place, to which no more moved in than out.
    pub(crate) fn drawn(&self) -> Result<Amount, StoreFault>
        ensures { IfOk result (λ drawn. drawn ≡ drawn_of self.now) }
    {
        self.went.less(&self.came)
    }
}
