//! Why a text isn't taken as a state.
ghost use Rattle.std.specs.Prelude.{◌≡◌};
ghost use Rattle.ac_snapshot.specs.declared.fault.StateFault.TheVariants as fault;

use ac_base::NoMemory;

/// Why a text isn't taken as a state.
#[derive(Clone, Copy, PartialEq, Eq)]
pub enum StateFault {
    /// This line, counted from 1, is the first that isn't the line of an entry that is valid with those before it.
    Refused { line: u64 },
    NoMemory,
}

impl From<NoMemory> for StateFault {
    ghost from_gives = { λ _ e. e ≡ fault.NoMemory };

    fn from(_error: NoMemory) -> StateFault {
        StateFault::NoMemory
    }
}
