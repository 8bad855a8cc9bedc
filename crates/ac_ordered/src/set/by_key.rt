//! The calls by key of ordered sets (Generic_Keys, A.18.9).
ghost use Rattle.std.specs.Prelude.{◌≡◌, ◌<◌, None, OnOk};
ghost use Rattle.ac_balance.specs.Indexed.{FewSteps};
ghost use Rattle.ac_base.specs.Guards.{one_more};
ghost use Rattle.ac_model.specs.Calls.{Lends, Marks, Same};
ghost use Rattle.ac_model.specs.Containers.{guards_of, slots_of, with_guards};
ghost use Rattle.ac_model.specs.Cursors.{needs_cursor};
ghost use Rattle.ac_model.specs.Forms.{Does, Looks, seen_by};
ghost use Rattle.ac_model.specs.Keyed.{ascending};
ghost use Rattle.ac_model.specs.KeyedSets as by_key;
ghost use Rattle.ac_model.specs.Objects.{length_of, plain};
ghost use Rattle.ac_setwork.specs.KeyCalls.{DoesAlways, Starts, cursor_guard_of};

use super::OrderedSet;
use ac_base::{Fault, KeyOf, Steps};
use ac_cursor::{Cursor, GuardKey, GuardKind};
use std::sync::ledger::Ledger;

impl<T: KeyOf> OrderedSet<T> {
    /// Key (A.18.9).
    pub fn key(&self, c: Cursor) -> Result<&T::Key, Fault>
        ensures { Looks Lends (λ o. by_key.key_call T.key_of o (seen_by self.now c)) self.now result }
    {
        self.table.key(c)
    }

    /// Element by a key (A.18.9).
    pub fn key_element(&self, k: &T::Key) -> Result<&T, Fault>
        ensures { Looks Lends (λ o. by_key.key_element_call T.key_of (ascending T.Key.is_less) o k.now) self.now result }
    {
        self.table.row_by(k)
    }

    /// Find by a key (A.18.9).
    pub fn key_find<L: Ledger>(&self, k: &T::Key, steps: &mut Steps<L>) -> Cursor
        ensures found { Marks self.now.object result
            (by_key.key_find_call T.key_of (ascending T.Key.is_less) (plain self.now.object) k.now) }
        ensures few { FewSteps (length_of self.now.object) steps.old steps.new }
    {
        self.table.find_counted(k, steps)
    }

    /// Contains by a key (A.18.9).
    pub fn key_contains<L: Ledger>(&self, k: &T::Key, steps: &mut Steps<L>) -> bool
        ensures found { result ≡ by_key.key_contains_call T.key_of (ascending T.Key.is_less) (plain self.now.object) k.now }
        ensures few { FewSteps (length_of self.now.object) steps.old steps.new }
    {
        self.table.contains_counted(k, steps)
    }

    /// Floor of a key (A.18.9): the last element whose key isn't greater.
    pub fn key_floor<L: Ledger>(&self, k: &T::Key, steps: &mut Steps<L>) -> Cursor
        ensures found { Marks self.now.object result
            (by_key.key_floor_call T.key_of (ascending T.Key.is_less) (plain self.now.object) k.now) }
        ensures few { FewSteps (length_of self.now.object) steps.old steps.new }
    {
        self.table.floor(k, steps)
    }

    /// Ceiling of a key (A.18.9): the first element whose key isn't less.
    pub fn key_ceiling<L: Ledger>(&self, k: &T::Key, steps: &mut Steps<L>) -> Cursor
        ensures found { Marks self.now.object result
            (by_key.key_ceiling_call T.key_of (ascending T.Key.is_less) (plain self.now.object) k.now) }
        ensures few { FewSteps (length_of self.now.object) steps.old steps.new }
    {
        self.table.ceiling(k, steps)
    }
}

impl<T: KeyOf> OrderedSet<T> {
    /// Exclude by a key (A.18.9).
    pub fn key_exclude(&mut self, k: &T::Key) -> Result<(), Fault>
        ensures changed { Does Same (λ o. by_key.key_exclude_call T.key_of (ascending T.Key.is_less) o k.now) self.old self.new result }
        ensures slots { slots_of self.new ≡ slots_of self.old }
    {
        self.table.exclude(k)
    }

    /// Delete by a key (A.18.9).
    pub fn key_delete(&mut self, k: &T::Key) -> Result<(), Fault>
        ensures changed { Does Same (λ o. by_key.key_delete_call T.key_of (ascending T.Key.is_less) o k.now) self.old self.new result }
        ensures slots { slots_of self.new ≡ slots_of self.old }
    {
        self.table.delete_key(k)
    }

    /// Replace by a key (A.18.9): the element that has it becomes another one, with a key that may be another, and goes to its place.
    pub fn key_replace(&mut self, k: &T::Key, element: T) -> Result<(), Fault>
        ensures changed { Does Same (λ o. by_key.key_replace_call T.key_of (ascending T.Key.is_less) o k.now element)
            self.old self.new result }
        ensures slots { slots_of self.new ≡ slots_of self.old }
    {
        self.table.replace_by(k, element)
    }

    /// Starts Update_Element_Preserving_Key (A.18.9): holds a guard, and gives its key with a copy of the element.
    pub fn start_update_key(&mut self, c: Cursor) -> Result<(GuardKey, T), Fault>
        ensures changed { Does Starts (λ o. by_key.start_update_key_call o (seen_by self.old c)) self.old self.new result }
        ensures rest { OnOk result (self.new ≡ with_guards self.old (one_more GuardKind.Cursors (guards_of self.old))) }
        ensures slots { slots_of self.new ≡ slots_of self.old }
    {
        self.table.start_update_key(c)
    }

    /// Ends Update_Element_Preserving_Key (A.18.9) with the copy. The guard is released also where the call is refused.
    pub fn end_update_key(&mut self, c: Cursor, key: GuardKey, element: T) -> Result<(), Fault>
        requires there { needs_cursor self.old.object c ≡ None }
        requires own { key ≡ cursor_guard_of self.old.object.number }
        requires held { 0 < self.old.object.cursor_guards }
        ensures changed { DoesAlways Same
            (λ o. by_key.end_update_key_call T.key_of (ascending T.Key.is_less) o (seen_by self.old c) element) self.old self.new result }
        ensures slots { slots_of self.new ≡ slots_of self.old }
    {
        self.table.end_update_key(c, key, element)
    }
}
