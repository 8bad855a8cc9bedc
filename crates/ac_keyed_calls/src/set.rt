//! A hashed or an ordered set. A contract sees its items and which of the two it is.
ghost use Rattle.std.specs.Prelude.{◌≡◌, false, true, refl};
ghost use Rattle.ac_model.specs.Calls.{Lends};
ghost use Rattle.ac_model.specs.Containers.{guards_of};
ghost use Rattle.ac_model.specs.Forms.{Looks, seen_by};
ghost use Rattle.ac_model.specs.Keyed.{IsValidKeyed};
ghost use Rattle.ac_model.specs.Objects.{plain};
ghost use Rattle.ac_model.specs.Sequences as sequences;
ghost use Rattle.ac_calls.specs.KeyedReplies.{of_hashed, order_by};
ghost use Rattle.ac_keyed_calls.specs.Sets as sets;
ghost use Rattle.ac_keyed_calls.specs.Sets.{items_of, set_kind_of};

mod operated_rows;
mod row_object;

use crate::set_kind::{HashedSetKind, OrderedSetKind, SetKind};
use crate::set_rows::SetRows;
use ac_base::Fault;
use ac_calls::ScriptElement;
use ac_cursor::{Cursor, GuardKey, GuardKind, Guarded};
use ac_setwork::Ordered;

/// A hashed set (A.18.8) or an ordered one (A.18.9) of a script, of these two kinds.
#[derive(Drop)]
pub enum Set<T: ScriptElement, H: SetKind<T>, O: SetKind<T>> {
    Hashed(SetRows<H::Index>),
    Ordered(SetRows<O::Index>),
}

impl<T: ScriptElement, H: SetKind<T>, O: SetKind<T>> Set<T, H, O> {
    fn is_hashed(&self) -> bool
        ensures yes { result ≡ true → set_kind_of self.now ≡ of_hashed }
        ensures no { result ≡ false → set_kind_of self.now ≡ of_hashed → ⊥ }
    {
        match self {
            Set::Hashed(_) => true,
            Set::Ordered(_) => false,
        }
    }

    pub fn element(&self, c: Cursor) -> Result<&T, Fault>
        ensures { Looks Lends (λ o. sequences.element_call o (seen_by (items_of self.now) c)) (items_of self.now) result }
    {
        match self {
            Set::Hashed(set) => set.element(c),
            Set::Ordered(set) => set.element(c),
        }
    }
}

impl<T: ScriptElement, H: HashedSetKind<T>, O: OrderedSetKind<T>> Set<T, H, O>
where
    O::Index: Ordered,
{
    /// What holds of the keys of every set, for proofs alone.
    pub fn keyed_law(&self)
        ensures { IsValidKeyed (order_by T.tools (set_kind_of self.now)) (plain (items_of self.now).object) }
    {
        match self {
            Set::Hashed(set) => set.keyed_law(),
            Set::Ordered(set) => set.keyed_law(),
        }
    }
}

/// A set has cursor guards alone.
impl<T: ScriptElement, H: SetKind<T>, O: SetKind<T>> Guarded for Set<T, H, O> {
    ghost is_set = { λ _. true };

    ghost guards = { λ s. guards_of (items_of s) };

    ghost with_guards = { sets.set_with };

    ghost guards_given = { sets.set_given };

    ghost guards_own = { sets.set_own };

    ghost rest_kept = { sets.set_rest };

    ghost set_kept = { λ _ _. refl };

    fn hold(&mut self, kind: GuardKind) -> GuardKey {
        match self {
            Set::Hashed(set) => set.hold(kind),
            Set::Ordered(set) => set.hold(kind),
        }
    }

    fn release(&mut self, key: GuardKey) {
        match self {
            Set::Hashed(set) => set.release(key),
            Set::Ordered(set) => set.release(key),
        }
    }

    fn held(&self, kind: GuardKind) -> u64 {
        match self {
            Set::Hashed(set) => set.held(kind),
            Set::Ordered(set) => set.held(kind),
        }
    }
}
