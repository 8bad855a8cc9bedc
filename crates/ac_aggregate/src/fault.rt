//! Why a question isn't taken.
ghost use Rattle.std.specs.Prelude.{◌≡◌};
ghost use Rattle.ac_aggregate.specs.declared.fault.AskFault.TheVariants as fault;

use ac_base::NoMemory;
use ac_syntax::RefusalKind;

/// Why a question isn't taken.
#[derive(Clone, Copy, PartialEq, Eq)]
pub enum AskFault {
    Refused(RefusalKind),
    NoMemory,
}

impl From<NoMemory> for AskFault {
    ghost from_gives = { λ _ e. e ≡ fault.NoMemory };

    fn from(_error: NoMemory) -> AskFault {
        AskFault::NoMemory
    }
}
