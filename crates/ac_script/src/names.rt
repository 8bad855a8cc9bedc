//! Copies of names.
ghost use Rattle.std.specs.Prelude.{◌≡◌, IfOk};
ghost use Rattle.std.specs.Option.{option_copied};

use ac_syntax::Ident;
use std::alloc::{AllocError, Global};

pub fn copy_any(alloc: Global, name: Option<&Ident>) -> Result<Option<Ident>, AllocError>
    ensures { IfOk result (λ copy. copy ≡ option_copied name.entry) }
{
    match name {
        Some(name) => Ok(Some(name.copy(alloc)?)),
        None => Ok(None),
    }
}
