ghost use Rattle.std.specs.Prelude.{◌≡◌};
ghost use Rattle.ac_base.specs.declared.fault.Fault.{Fault};
ghost use Rattle.ac_base.specs.declared.fault.Fault.TheVariants as fault;

use crate::reason::Reason;
use std::alloc::{AllocError, AllocFailed};

/// There was no memory for what a call had to keep.
#[derive(Clone, Copy, PartialEq, Eq)]
pub struct NoMemory;

impl From<AllocError> for NoMemory {
    fn from(_error: AllocError) -> NoMemory {
        NoMemory
    }
}

impl<T: Drop> From<AllocFailed<T>> for NoMemory {
    fn from(_error: AllocFailed<T>) -> NoMemory {
        NoMemory
    }
}

/// Why a container call didn't do what it was asked.
#[derive(Clone, Copy, PartialEq, Eq)]
pub enum Fault {
    /// The call is refused, for this reason.
    Raised(Reason),
    NoMemory,
}

impl From<NoMemory> for Fault {
    ghost from_gives = { λ _ made. made ≡ fault.NoMemory };

    fn from(_: NoMemory) -> Fault {
        Fault::NoMemory
    }
}

impl From<Reason> for Fault {
    ghost from_gives = { λ reason made. made ≡ fault.Raised reason };

    fn from(reason: Reason) -> Fault {
        Fault::Raised(reason)
    }
}
