ghost use Rattle.std.specs.Prelude.{◌≡◌};
ghost use Rattle.ac_syntax.specs.declared.fault.ScriptFault.TheVariants as fault;

use crate::refusal::RefusalKind;
use ac_base::NoMemory;

/// Why no script was made of a text, or a script isn't taken.
#[derive(Clone, Copy, PartialEq, Eq)]
pub enum ScriptFault {
    /// The first refused line, from 1, and why.
    Refused { line: u64, kind: RefusalKind },
    NoMemory,
}

impl From<NoMemory> for ScriptFault {
    ghost from_gives = { λ _ e. e ≡ fault.NoMemory };

    fn from(_error: NoMemory) -> ScriptFault {
        ScriptFault::NoMemory
    }
}
