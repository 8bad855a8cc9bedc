//! Keyed sets where an element is updated that keeps its key.
ghost use Rattle.std.specs.Prelude.{◌≡◌, ◌<◌, None};
ghost use Rattle.ac_base.specs.Key.{key_of_text};
ghost use Rattle.ac_model.specs.Calls.{IsAfter, Same};
ghost use Rattle.ac_model.specs.Cursors.{needs_cursor};
ghost use Rattle.ac_model.specs.Forms.{seen_by};
ghost use Rattle.ac_model.specs.KeyedSets as by_key;
ghost use Rattle.ac_model.specs.Letters.{tampers_cursors};
ghost use Rattle.ac_model.specs.Objects.{IsValid, plain};
ghost use Rattle.ac_keyed_calls.specs.KeyedSets.{keyed_items, keyed_kind, keys_of};
ghost use Rattle.ac_setwork.specs.KeyCalls.{DoesAlways, cursor_guard_of};

use super::KeyedSet;
use crate::set::Set;
use crate::set_kind::{HashedSetKind, KeyedSetKind, OrderedSetKind, SetKind};
use ac_base::{Fault, KeyedText, Reason};
use ac_calls::RowObject;
use ac_cursor::{Cursor, GuardKey, GuardKind, Guarded, first_reason};
use ac_setwork::Ordered;

impl<H: SetKind<KeyedText>, O: SetKind<KeyedText>> KeyedSet<H, O> {
    /// Why the update of the element at the cursor is refused.
    pub fn refuses_update(&self, c: Cursor) -> Option<Reason>
        ensures { result ≡ by_key.update_key_reason (plain (keyed_items self.now).object) (seen_by (keyed_items self.now) c) }
    {
        first_reason(&[self.tampering(), self.set.refused(c)])
    }

    /// Why a call that changes rows is refused.
    fn tampering(&self) -> Option<Reason>
        ensures { result ≡ tampers_cursors (plain (keyed_items self.now).object) }
    {
        if self.set.held(GuardKind::Cursors) > 0 {
            return Some(Reason::CursorTampering);
        }
        if self.set.held(GuardKind::Elements) > 0 {
            return Some(Reason::ElementTampering);
        }
        None
    }
}

impl<H, O> KeyedSet<H, O>
where
    H: HashedSetKind<KeyedText> + KeyedSetKind,
    O: OrderedSetKind<KeyedText> + KeyedSetKind,
    O::Index: Ordered,
{
    /// Ends an update: the guard is released, and the element is the copy, or it goes where their keys aren't equivalent.
    pub fn end_update(&mut self, c: Cursor, guard: GuardKey, copy: KeyedText) -> Option<Reason>
        requires there { needs_cursor (keyed_items self.old).object c ≡ None }
        requires own { guard ≡ cursor_guard_of (keyed_items self.old).object.number }
        requires held { 0 < (keyed_items self.old).object.cursor_guards }
        ensures ended { let old = keyed_items self.old in
            let call = by_key.end_update_key_call key_of_text (keys_of self.old) (plain old.object) (seen_by old c) copy in
            (result ≡ call.reason) × IsAfter old.object (keyed_items self.new).object call.after }
        ensures kind { keyed_kind self.new ≡ keyed_kind self.old }
        ensures valid { IsValid (plain (keyed_items self.old).object) }
    {
        self.law();
        match self.end_update_key(c, guard, copy) {
            Ok(()) => None,
            Err(Fault::Raised(reason)) => Some(reason),
            Err(Fault::NoMemory) => unreachable!(),
        }
    }

    fn end_update_key(&mut self, c: Cursor, guard: GuardKey, copy: KeyedText) -> Result<(), Fault>
        requires there { needs_cursor (keyed_items self.old).object c ≡ None }
        requires own { guard ≡ cursor_guard_of (keyed_items self.old).object.number }
        requires held { 0 < (keyed_items self.old).object.cursor_guards }
        ensures changed { DoesAlways Same
            (λ o. by_key.end_update_key_call key_of_text (keys_of self.old) o (seen_by (keyed_items self.old) c) copy)
            (keyed_items self.old) (keyed_items self.new) result }
        ensures kind { keyed_kind self.new ≡ keyed_kind self.old }
    {
        match &mut self.set {
            Set::Hashed(set) => set.end_update_key(c, guard, copy),
            Set::Ordered(set) => set.end_update_key(c, guard, copy),
        }
    }
}
