// One caller: what it wants, when a turn may grant it a slice, and how long it is.
ghost use Rattle.std.specs.Prelude.{◌≡◌};
ghost use Rattle.dispatch.specs.Dispatch.{is_ready, slice_of};

use crate::MAX_SLICE;

#[derive(Clone, Copy, Debug, PartialEq, Eq)]
pub struct Caller {
    pub wanted: u64,
}

impl Caller {
    // He wants any, and budget is left.
    #[tactic(auto, unfolding(crate::specs::Dispatch::is_ready))]
    pub(crate) fn is_ready(self, budget: u64) -> bool
        ensures { result ≡ is_ready self budget }
    {
        0 < self.wanted && 0 < budget
    }

    #[tactic(auto, unfolding(crate::specs::Dispatch::slice_of))]
    pub(crate) fn slice(self, budget: u64) -> u64
        ensures { result ≡ slice_of self budget }
    {
        MAX_SLICE.min(self.wanted.min(budget))
    }
}
