//! Running out of memory as what stops a call.
ghost use Rattle.std.specs.Prelude.{◌≡◌};
ghost use Rattle.aig_fault.specs.declared.stopped.Stopped.TheVariants as stops;

use crate::stopped::Stopped;
use aig_memory::OutOfMemory;

impl From<OutOfMemory> for Stopped {
    ghost from_gives = { λ _ stopped. stopped ≡ stops.OutOfMemory };

    fn from(_refused: OutOfMemory) -> Stopped {
        Stopped::OutOfMemory
    }
}
