//! A hashed or an ordered set of texts with keys (Generic_Keys of A.18.8 and A.18.9). A contract sees its items and which of the two it is.
ghost use Rattle.std.specs.Prelude.{true, refl};
ghost use Rattle.ac_model.specs.Containers.{guards_of};
ghost use Rattle.ac_keyed_calls.specs.KeyedSets as sets;
ghost use Rattle.ac_keyed_calls.specs.KeyedSets.{keyed_items};

mod operated_rows;
mod row_object;
mod updates;

use crate::set::Set;
use crate::set_kind::SetKind;
use ac_base::KeyedText;
use ac_cursor::{GuardKey, GuardKind, Guarded};

/// A keyed set of a script, of these two kinds.
#[derive(Drop)]
pub struct KeyedSet<H: SetKind<KeyedText>, O: SetKind<KeyedText>> {
    pub set: Set<KeyedText, H, O>,
}

impl<H: SetKind<KeyedText>, O: SetKind<KeyedText>> Guarded for KeyedSet<H, O> {
    ghost is_set = { λ _. true };

    ghost guards = { λ s. guards_of (keyed_items s) };

    ghost with_guards = { sets.keyed_set_with };

    ghost guards_given = { sets.keyed_set_given };

    ghost guards_own = { sets.keyed_set_own };

    ghost rest_kept = { sets.keyed_set_rest };

    ghost set_kept = { λ _ _. refl };

    fn hold(&mut self, kind: GuardKind) -> GuardKey {
        self.set.hold(kind)
    }

    fn release(&mut self, key: GuardKey) {
        self.set.release(key)
    }

    fn held(&self, kind: GuardKind) -> u64 {
        self.set.held(kind)
    }
}
