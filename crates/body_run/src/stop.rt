//! Why nothing is given.

ghost use Rattle.std.specs.Prelude.{◌≡◌};
ghost use Rattle.body_run.specs.declared.stop.Stop.TheVariants.{Memory};

use access_blocks::Halt;
use std::alloc::{AllocError, AllocFailed};

/// Why there is no value: the call has ended, or an allocation failed.
#[derive(Clone, Copy, Debug, PartialEq, Eq)]
pub enum Stop {
    Halt(Halt),
    Memory,
}

impl From<AllocError> for Stop {
    ghost from_gives = { λ _ e. e ≡ Memory };

    fn from(_: AllocError) -> Stop {
        Stop::Memory
    }
}

impl<T: Drop> From<AllocFailed<T>> for Stop {
    ghost from_gives = { λ _ e. e ≡ Memory };

    fn from(_: AllocFailed<T>) -> Stop {
        Stop::Memory
    }
}
