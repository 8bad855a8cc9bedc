ghost use Rattle.std.specs.Prelude.{◌≡◌};
ghost use Rattle.ac_script.specs.declared.stop.Stop.TheVariants.{NoMemory};

use ac_syntax::Placed;
use std::alloc::{AllocError, AllocFailed};

/// Why nothing was read.
#[derive(Drop)]
pub enum Stop<'a> {
    /// The tokens from the first bad one on; none where they ended too early.
    At(&'a [Placed]),
    NoMemory,
}

impl<'a> From<AllocError> for Stop<'a> {
    ghost from_gives = { λ _ e. e ≡ NoMemory };

    fn from(_error: AllocError) -> Stop<'a> {
        Stop::NoMemory
    }
}

impl<'a, T: Drop> From<AllocFailed<T>> for Stop<'a> {
    ghost from_gives = { λ _ e. e ≡ NoMemory };

    fn from(_error: AllocFailed<T>) -> Stop<'a> {
        Stop::NoMemory
    }
}
