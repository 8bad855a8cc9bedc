//! The calls of sets with keys (Generic_Keys of A.18.8 and A.18.9) that no look-up of a table is.
ghost use Rattle.std.specs.Prelude.{◌≡◌, ◌<◌, IfOk, None, OnOk, Some};
ghost use Rattle.ac_base.specs.Guards.{one_more};
ghost use Rattle.ac_model.specs.Calls.{Lends, Same};
ghost use Rattle.ac_model.specs.Containers.{guards_of, slots_of, with_guards};
ghost use Rattle.ac_model.specs.Cursors.{IsNamed, needs_cursor};
ghost use Rattle.ac_model.specs.Forms.{Does, Looks, seen_by};
ghost use Rattle.ac_model.specs.KeyedSets as by_key;
ghost use Rattle.ac_model.specs.Letters.{name_of, tampers_cursors};
ghost use Rattle.ac_model.specs.Objects.{plain};
ghost use Rattle.ac_model.specs.Rows.{value_at};
ghost use Rattle.ac_setwork.specs.Indexed.{found_in};
ghost use Rattle.ac_setwork.specs.KeyCalls.{DoesAlways, Starts, cursor_guard_of, settle_call};

use super::Table;
use crate::index::Index;
use crate::keyed::Keyed;
use ac_base::{Fault, Name, NoMemory, Reason};
use ac_cursor::{Class, Cursor, GuardKey, GuardKind, Guarded, first_reason};
use ac_model::{allowed, name_in};

impl<I: Keyed> Table<I> {
    /// Key (A.18.8, A.18.9).
    pub fn key(&self, c: Cursor) -> Result<&I::Key, Fault>
        ensures { Looks Lends (λ o. by_key.key_call I.key_of o (seen_by self.now c)) self.now result }
    {
        match self.row(c) {
            Ok(row) => Ok(I::key(row)),
            Err(fault) => Err(fault),
        }
    }

    /// Replace by a key (A.18.8, A.18.9).
    pub fn replace_by(&mut self, key: &I::Key, row: I::Row) -> Result<(), Fault>
        ensures changed { Does Same (λ o. by_key.key_replace_call I.key_of I.keys o key.now row) self.old self.new result }
        ensures slots { slots_of self.new ≡ slots_of self.old }
    {
        allowed(self.tampering())?;
        match self.name_by(key) {
            None => Err(Fault::Raised(Reason::KeyAbsent)),
            Some(name) => {
                let c = self.cursor_at(Some(name));
                self.replace_element(c, row)
            }
        }
    }

    /// Ends Update_Element_Preserving_Key (A.18.8, A.18.9) with the copy.
    pub fn end_update_key(&mut self, c: Cursor, key: GuardKey, copy: I::Row) -> Result<(), Fault>
        requires there { needs_cursor self.old.object c ≡ None }
        requires own { key ≡ cursor_guard_of self.old.object.number }
        requires held { 0 < self.old.object.cursor_guards }
        ensures changed { DoesAlways Same (λ o. by_key.end_update_key_call I.key_of I.keys o (seen_by self.old c) copy)
            self.old self.new result }
        ensures slots { slots_of self.new ≡ slots_of self.old }
    {
        self.release(key);
        self.settle(name_in(c), copy)
    }

    /// The row under the name becomes the copy, or goes where their keys aren't equivalent.
    fn settle(&mut self, name: Name, copy: I::Row) -> Result<(), Fault>
        requires { IsNamed self.old.object name }
        ensures changed { DoesAlways Same (settle_call I.key_of I.keys name.serial copy) self.old self.new result }
        ensures slots { slots_of self.new ≡ slots_of self.old }
    {
        if I::alike(self.index.at(name), &copy) {
            self.index.replace(name, copy);
            return Ok(());
        }
        let _row = self.index.remove(name);
        Err(Fault::Raised(Reason::KeyChanged))
    }
}

impl<I: Index> Table<I> {
    /// Starts Update_Element_Preserving_Key (A.18.8, A.18.9): holds a guard, and gives its key with a copy of the element.
    pub fn start_update_key(&mut self, c: Cursor) -> Result<(GuardKey, I::Row), Fault>
        ensures changed { Does Starts (λ o. by_key.start_update_key_call o (seen_by self.old c)) self.old self.new result }
        ensures rest { OnOk result (self.new ≡ with_guards self.old (one_more GuardKind.Cursors (guards_of self.old))) }
        ensures slots { slots_of self.new ≡ slots_of self.old }
    {
        allowed(self.refuses_update(c))?;
        match self.copy_at(c) {
            Err(_) => Err(Fault::NoMemory),
            Ok(copy) => {
                let key = self.hold(GuardKind::Cursors);
                Ok((key, copy))
            }
        }
    }

    fn copy_at(&self, c: Cursor) -> Result<I::Row, NoMemory>
        requires { needs_cursor self.now.object c ≡ None }
        ensures { IfOk result (λ made. value_at (plain self.now.object).rows (name_of (seen_by self.now c)) ≡ Some made) }
    {
        I::copied(self.index.at(name_in(c)), self.alloc)
    }

    /// Why the update of a key is refused.
    fn refuses_update(&self, c: Cursor) -> Option<Reason>
        ensures { result ≡ by_key.update_key_reason (plain self.now.object) (seen_by self.now c) }
    {
        first_reason(&[self.tampering(), self.needs(c)])
    }

    /// Why a call that changes rows is refused.
    fn tampering(&self) -> Option<Reason>
        ensures { result ≡ tampers_cursors (plain self.now.object) }
    {
        self.guards.forbids(Class::Cursors)
    }

    /// The name of the row with the key.
    fn name_by(&self, key: &I::Key) -> Option<Name>
        ensures { result ≡ found_in (I.matches key.now) self.now.object.rows }
    {
        self.index.look(key)
    }
}
