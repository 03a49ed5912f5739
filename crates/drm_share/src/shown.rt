//! The published value, and what changes it.

use drm_history::Reach;
use drm_state::{Op, State};
use left_right::Absorb;
use std::alloc::AllocError;

/// What readers see: the state after some entries, beside the history that ends with them.
#[derive(Drop)]
pub struct Shown {
    pub(crate) state: State,
    pub(crate) reach: Reach,
}

/// An accepted edit, beside the history that ends with its entry. Both copies of the published value take it in.
#[derive(Drop)]
pub struct Update {
    pub(crate) op: Op,
    pub(crate) reach: Reach,
}

impl Absorb<Update> for Shown {
    type State = Shown;

    ghost use Rattle.drm_share.specs.Published.{next};

    ghost state = { λ shown. shown };

    ghost applied = { next };

    ghost never_fails = { Unit {0} };

    fn absorb_first(&mut self, operation: &Update, _other: &Shown) -> Result<(), AllocError> {
        self.state.apply(&operation.op);
        self.reach = operation.reach.again();
        Ok(())
    }
}
