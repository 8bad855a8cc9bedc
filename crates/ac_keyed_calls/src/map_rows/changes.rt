//! The calls of maps that put entries into them, take them out and write them.
ghost use Rattle.std.specs.Prelude.{◌≡◌};
ghost use Rattle.ac_model.specs.Calls.{Same};
ghost use Rattle.ac_model.specs.Containers.{Grows, slots_of};
ghost use Rattle.ac_model.specs.Forms.{Does, seen_by};
ghost use Rattle.ac_model.specs.Maps as maps;
ghost use Rattle.ac_calls.specs.KeyedReplies.{order_by};
ghost use Rattle.ac_calls.specs.RowCalls.{PlacesOwn};

use super::MapRows;
use crate::map_kind::MapKind;
use ac_base::Fault;
use ac_calls::ScriptElement;
use ac_cursor::{Class, Cursor};
use ac_setwork::Entry;

impl<K: ScriptElement, V: ScriptElement, M: MapKind<K, V>> MapRows<K, V, M> {
    /// Insert (A.18.4).
    pub(crate) fn insert(&mut self, key: K, element: V) -> Result<(), Fault>
        ensures changed { Does Same (λ o. maps.insert_call (order_by K.tools M.which) o key element) self.old self.new result }
        ensures slots { Grows result self.old self.new }
    {
        self.table.insert(Entry::new(key, element))
    }

    /// Insert with a position (A.18.4), which is a cursor of the map's own.
    pub(crate) fn insert_pos(&mut self, key: K, element: V, p: &mut Cursor) -> Result<bool, Fault>
        ensures changed { Does (PlacesOwn self.new.object p.new)
            (λ o. maps.insert_pos_call (order_by K.tools M.which) o key element) self.old self.new result }
        ensures slots { Grows result self.old self.new }
    {
        self.table.insert_pos(Entry::new(key, element), p)
    }

    /// Include (A.18.4).
    pub(crate) fn include(&mut self, key: K, element: V) -> Result<(), Fault>
        ensures changed { Does Same (λ o. maps.include_call (order_by K.tools M.which) o key element) self.old self.new result }
        ensures slots { Grows result self.old self.new }
    {
        self.table.include(Entry::new(key, element))
    }

    /// Replace (A.18.4).
    pub(crate) fn replace(&mut self, key: K, element: V) -> Result<(), Fault>
        ensures changed { Does Same (λ o. maps.replace_call (order_by K.tools M.which) o key element) self.old self.new result }
        ensures slots { slots_of self.new ≡ slots_of self.old }
    {
        self.table
            .replace(Class::Elements, Entry::new(key, element))
    }

    /// Exclude (A.18.4).
    pub(crate) fn exclude(&mut self, key: &K) -> Result<(), Fault>
        ensures changed { Does Same (λ o. maps.exclude_call (order_by K.tools M.which) o key.now) self.old self.new result }
        ensures slots { slots_of self.new ≡ slots_of self.old }
    {
        self.table.exclude(key)
    }

    /// Delete by a key (A.18.4).
    pub(crate) fn delete_key(&mut self, key: &K) -> Result<(), Fault>
        ensures changed { Does Same (λ o. maps.delete_key_call (order_by K.tools M.which) o key.now) self.old self.new result }
        ensures slots { slots_of self.new ≡ slots_of self.old }
    {
        self.table.delete_key(key)
    }

    /// Replace_Element (A.18.4).
    pub(crate) fn replace_element(&mut self, c: Cursor, element: V) -> Result<(), Fault>
        ensures changed { Does Same (λ o. maps.replace_element_call o (seen_by self.old c) element) self.old self.new result }
        ensures slots { slots_of self.new ≡ slots_of self.old }
    {
        self.table.set_element(c, element)
    }

    /// Sets the element through a name that a view or a loop gives for it.
    pub(crate) fn write(&mut self, c: Cursor, element: V) -> Result<(), Fault>
        ensures changed { Does Same (λ o. maps.write_call o (seen_by self.old c) element) self.old self.new result }
        ensures slots { slots_of self.new ≡ slots_of self.old }
    {
        self.table.write(c, element)
    }
}
