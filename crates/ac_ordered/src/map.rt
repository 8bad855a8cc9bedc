//! The ordered map. A contract sees its object, with the slots of its names, and how many elements more it takes without memory.
ghost use Rattle.std.specs.Prelude.{◌≡◌, ◌≤◌, false, refl, max, IfOk, IfErr, IsOk, OnErr};
ghost use Rattle.ac_base.specs.Growth.{pow8};
ghost use Rattle.ac_base.specs.Limits.{IsLimit};
ghost use Rattle.ac_base.specs.declared.limit.TheConstants.{GREATEST_LENGTH};
ghost use Rattle.ac_balance.specs.Indexed.{FewSteps};
ghost use Rattle.ac_model.specs.Objects.{plain, length_of, empty_object};
ghost use Rattle.ac_model.specs.Calls.{Same, Lends, Marks};
ghost use Rattle.ac_model.specs.Containers.{Grows, HasSlots, container, first_spare, guards_of, slots_of, with_guards};
ghost use Rattle.ac_model.specs.Forms.{Does, DoesBoth, Looks, Makes, Sets, seen_by};
ghost use Rattle.ac_model.specs.Common as common;
ghost use Rattle.ac_model.specs.Keyed as keyed;
ghost use Rattle.ac_model.specs.Keyed.{ascending, IsValidKeyed};
ghost use Rattle.ac_model.specs.Maps as maps;
ghost use Rattle.ac_model.specs.Maps.{order_of};
ghost use Rattle.ac_model.specs.Ordered as ordered;
ghost use Rattle.ac_model.specs.Sequences as sequences;
ghost use Rattle.ac_setwork.specs.TableFields.{Places};

use crate::ascending::Ascending;
use ac_base::{Elem, Fault, Limit, Rank, Steps};
use ac_cursor::{Class, Cursor, GuardKey, GuardKind, Guarded, Tag};
use ac_setwork::{Entry, OfEntries, Table};
use std::alloc::Global;
use std::marker::Model;
use std::sync::ledger::Ledger;

/// An ordered map (A.18.6), which is told its number by a tag. No two of its keys are equivalent.
#[derive(Drop)]
pub struct OrderedMap<K: Rank, V: Elem> {
    table: Table<Ascending<OfEntries<K, V>>>,
}

impl<K: Rank, V: Elem> Model for OrderedMap<K, V> {
    ghost use Rattle.ac_model.specs.Rows.{Entry};
    ghost use Rattle.ac_model.specs.Containers.{Container, container_code};
    ghost use Rattle.ac_setwork.specs.Entries.{entry_code};

    ghost Value = { Container (Entry K V) };

    ghost coded = { container_code (entry_code K.code V.code) };

    ghost view = { λ m. m.table };
}

impl<K: Rank, V: Elem> OrderedMap<K, V> {
    /// An empty map. A bounded one takes all its memory here, and an unbounded one takes none.
    pub fn new(alloc: Global, tag: Tag, limit: Limit) -> Result<OrderedMap<K, V>, Fault>
        requires { IsLimit limit }
        ensures empty { IfOk result (λ made. made ≡ container (empty_object false tag limit) (first_spare limit)) }
        ensures memory { IfErr result (λ e. e ≡ Fault.NoMemory) }
        ensures unbounded { limit ≡ Limit.Unbounded → IsOk result }
    {
        match Table::new(alloc, tag, limit) {
            Ok(table) => Ok(OrderedMap { table }),
            Err(fault) => Err(fault),
        }
    }

    /// What holds of every map, for proofs alone.
    pub fn law(&self)
        ensures valid { IsValidKeyed (order_of (ascending K.is_less)) (plain self.now.object) }
        ensures limit { IsLimit self.now.object.limit }
        ensures slots { HasSlots self.now.object.limit (length_of self.now.object) self.now.spare }
    {
        self.table.law();
    }

    pub fn number(&self) -> u64
        ensures { result ≡ self.now.object.number }
    {
        self.table.number()
    }

    pub fn limit(&self) -> Limit
        ensures { result ≡ self.now.object.limit }
    {
        self.table.limit()
    }

    /// Length (A.18.4).
    pub fn length(&self) -> i64
        ensures { result ≡ common.length_call (plain self.now.object) }
    {
        self.table.length()
    }

    /// Is_Empty (A.18.4).
    pub fn is_empty(&self) -> bool
        ensures { result ≡ common.is_empty_call (plain self.now.object) }
    {
        self.table.is_empty()
    }

    /// How many elements have a slot.
    pub fn live_nodes(&self) -> u64
        ensures { result ≡ length_of self.now.object }
    {
        self.table.live_nodes()
    }

    /// How many slots there are, with and without an element.
    pub fn slots(&self) -> u64
        ensures { result ≡ slots_of self.now }
    {
        self.table.slots()
    }
}

impl<K: Rank, V: Elem> OrderedMap<K, V> {
    /// Has_Element (A.18.4): false for a cursor of another map, and for one whose element is gone.
    pub fn has_element(&self, c: Cursor) -> bool
        ensures { result ≡ common.has_element_call (plain self.now.object) (seen_by self.now c) }
    {
        self.table.has_element(c)
    }

    /// Key (A.18.4).
    pub fn key(&self, c: Cursor) -> Result<&K, Fault>
        ensures { Looks Lends (λ o. maps.key_call o (seen_by self.now c)) self.now result }
    {
        match self.table.row(c) {
            Ok(row) => Ok(row.key()),
            Err(fault) => Err(fault),
        }
    }

    /// Element (A.18.4).
    pub fn element(&self, c: Cursor) -> Result<&V, Fault>
        ensures { Looks Lends (λ o. maps.element_call o (seen_by self.now c)) self.now result }
    {
        match self.table.row(c) {
            Ok(row) => Ok(row.element()),
            Err(fault) => Err(fault),
        }
    }

    /// Element by a key (A.18.4).
    pub fn element_key(&self, key: &K) -> Result<&V, Fault>
        ensures { Looks Lends (λ o. maps.element_key_call (ascending K.is_less) o key.now) self.now result }
    {
        match self.table.row_by(key) {
            Ok(row) => Ok(row.element()),
            Err(fault) => Err(fault),
        }
    }

    /// "=" (A.18.4): as many, and each key has an equivalent one there with an equal element.
    pub fn equal(&self, other: &OrderedMap<K, V>) -> bool
        ensures { result ≡ maps.equal_call (ascending K.is_less) V.is_same (plain self.now.object) (plain other.now.object) }
    {
        self.table.equal(&other.table)
    }

    /// "=" (A.18.4) of a map with itself, in constant time.
    pub fn equal_self(&self) -> bool
        ensures { result ≡ maps.equal_call (ascending K.is_less) V.is_same (plain self.now.object) (plain self.now.object) }
    {
        self.law();
        true
    }

    /// First (A.18.4).
    pub fn first(&self) -> Cursor
        ensures { Marks self.now.object result (sequences.first_call (plain self.now.object)) }
    {
        self.table.first()
    }

    /// Last (A.18.6).
    pub fn last(&self) -> Cursor
        ensures { Marks self.now.object result (sequences.last_call (plain self.now.object)) }
    {
        self.table.last()
    }

    /// Next (A.18.4).
    pub fn next(&self, b: Cursor) -> Result<Cursor, Fault>
        ensures { Looks (Marks self.now.object) (λ o. sequences.next_call o (seen_by self.now b)) self.now result }
    {
        self.table.next(b)
    }

    /// Previous (A.18.6).
    pub fn previous(&self, b: Cursor) -> Result<Cursor, Fault>
        ensures { Looks (Marks self.now.object) (λ o. sequences.previous_call o (seen_by self.now b)) self.now result }
    {
        self.table.previous(b)
    }

    /// First_Key (A.18.6).
    pub fn first_key(&self) -> Result<&K, Fault>
        ensures { Looks Lends maps.first_key_call self.now result }
    {
        match self.table.first_row() {
            Ok(row) => Ok(row.key()),
            Err(fault) => Err(fault),
        }
    }

    /// Last_Key (A.18.6).
    pub fn last_key(&self) -> Result<&K, Fault>
        ensures { Looks Lends maps.last_key_call self.now result }
    {
        match self.table.last_row() {
            Ok(row) => Ok(row.key()),
            Err(fault) => Err(fault),
        }
    }

    /// First_Element (A.18.6).
    pub fn first_element(&self) -> Result<&V, Fault>
        ensures { Looks Lends maps.first_element_call self.now result }
    {
        match self.table.first_row() {
            Ok(row) => Ok(row.element()),
            Err(fault) => Err(fault),
        }
    }

    /// Last_Element (A.18.6).
    pub fn last_element(&self) -> Result<&V, Fault>
        ensures { Looks Lends maps.last_element_call self.now result }
    {
        match self.table.last_row() {
            Ok(row) => Ok(row.element()),
            Err(fault) => Err(fault),
        }
    }

    /// Find (A.18.4).
    pub fn find<L: Ledger>(&self, key: &K, steps: &mut Steps<L>) -> Cursor
        ensures found { Marks self.now.object result (maps.find_call (ascending K.is_less) (plain self.now.object) key.now) }
        ensures few { FewSteps (length_of self.now.object) steps.old steps.new }
    {
        self.table.find_counted(key, steps)
    }

    /// Contains (A.18.4).
    pub fn contains<L: Ledger>(&self, key: &K, steps: &mut Steps<L>) -> bool
        ensures found { result ≡ maps.contains_call (ascending K.is_less) (plain self.now.object) key.now }
        ensures few { FewSteps (length_of self.now.object) steps.old steps.new }
    {
        self.table.contains_counted(key, steps)
    }

    /// Floor (A.18.6): the last key that isn't greater.
    pub fn floor<L: Ledger>(&self, key: &K, steps: &mut Steps<L>) -> Cursor
        ensures found { Marks self.now.object result (maps.floor_call (ascending K.is_less) (plain self.now.object) key.now) }
        ensures few { FewSteps (length_of self.now.object) steps.old steps.new }
    {
        self.table.floor(key, steps)
    }

    /// Ceiling (A.18.6): the first key that isn't less.
    pub fn ceiling<L: Ledger>(&self, key: &K, steps: &mut Steps<L>) -> Cursor
        ensures found { Marks self.now.object result (maps.ceiling_call (ascending K.is_less) (plain self.now.object) key.now) }
        ensures few { FewSteps (length_of self.now.object) steps.old steps.new }
    {
        self.table.ceiling(key, steps)
    }
}

impl<K: Rank, V: Elem> OrderedMap<K, V> {
    /// Insert (A.18.4).
    pub fn insert(&mut self, key: K, element: V) -> Result<(), Fault>
        ensures changed { Does Same (λ o. maps.insert_call (ascending K.is_less) o key element) self.old self.new result }
        ensures slots { Grows result self.old self.new }
    {
        self.table.insert(Entry::new(key, element))
    }

    /// Insert with a position (A.18.4): where an equivalent key is there, the position is that one, and nothing else changes.
    pub fn insert_pos(&mut self, key: K, element: V, p: &mut Cursor) -> Result<bool, Fault>
        ensures changed { Does (Places self.new.object p.new) (λ o. maps.insert_pos_call (ascending K.is_less) o key element)
            self.old self.new result }
        ensures kept { OnErr result (p.new ≡ p.old) }
        ensures slots { Grows result self.old self.new }
    {
        self.table.insert_pos(Entry::new(key, element), p)
    }

    /// Include (A.18.4).
    pub fn include(&mut self, key: K, element: V) -> Result<(), Fault>
        ensures changed { Does Same (λ o. maps.include_call (ascending K.is_less) o key element) self.old self.new result }
        ensures slots { Grows result self.old self.new }
    {
        self.table.include(Entry::new(key, element))
    }

    /// Replace (A.18.4).
    pub fn replace(&mut self, key: K, element: V) -> Result<(), Fault>
        ensures changed { Does Same (λ o. maps.replace_call (ascending K.is_less) o key element) self.old self.new result }
        ensures slots { slots_of self.new ≡ slots_of self.old }
    {
        self.table
            .replace(Class::Elements, Entry::new(key, element))
    }

    /// Replace_Element (A.18.4).
    pub fn replace_element(&mut self, c: Cursor, element: V) -> Result<(), Fault>
        ensures changed { Does Same (λ o. maps.replace_element_call o (seen_by self.old c) element) self.old self.new result }
        ensures slots { slots_of self.new ≡ slots_of self.old }
    {
        self.table.set_element(c, element)
    }

    /// Sets the element through a name that a view or a loop gives for it, without a tampering check.
    pub fn write(&mut self, c: Cursor, element: V) -> Result<(), Fault>
        ensures changed { Does Same (λ o. maps.write_call o (seen_by self.old c) element) self.old self.new result }
        ensures slots { slots_of self.new ≡ slots_of self.old }
    {
        self.table.write(c, element)
    }

    /// Exclude (A.18.4).
    pub fn exclude(&mut self, key: &K) -> Result<(), Fault>
        ensures changed { Does Same (λ o. maps.exclude_call (ascending K.is_less) o key.now) self.old self.new result }
        ensures slots { slots_of self.new ≡ slots_of self.old }
    {
        self.table.exclude(key)
    }

    /// Delete by a key (A.18.4).
    pub fn delete_key(&mut self, key: &K) -> Result<(), Fault>
        ensures changed { Does Same (λ o. maps.delete_key_call (ascending K.is_less) o key.now) self.old self.new result }
        ensures slots { slots_of self.new ≡ slots_of self.old }
    {
        self.table.delete_key(key)
    }

    /// Delete (A.18.4): the element at the cursor, which becomes No_Element.
    pub fn delete(&mut self, q: &mut Cursor) -> Result<(), Fault>
        ensures changed { Sets (λ o. keyed.delete_call o (seen_by self.old q.old)) self.old q.old self.new q.new result }
        ensures slots { slots_of self.new ≡ slots_of self.old }
    {
        self.table.delete(q)
    }

    /// Delete_First (A.18.6).
    pub fn delete_first(&mut self) -> Result<(), Fault>
        ensures changed { Does Same ordered.delete_first_call self.old self.new result }
        ensures slots { slots_of self.new ≡ slots_of self.old }
    {
        self.table.delete_first()
    }

    /// Delete_Last (A.18.6).
    pub fn delete_last(&mut self) -> Result<(), Fault>
        ensures changed { Does Same ordered.delete_last_call self.old self.new result }
        ensures slots { slots_of self.new ≡ slots_of self.old }
    {
        self.table.delete_last()
    }

    /// Clear (A.18.4).
    pub fn clear(&mut self) -> Result<(), Fault>
        ensures changed { Does Same common.clear_call self.old self.new result }
        ensures slots { slots_of self.new ≡ slots_of self.old }
    {
        self.table.clear()
    }
}

impl<K: Rank, V: Elem> OrderedMap<K, V> {
    /// Copy (A.18.6): a map of its own number with copies of the elements. A bounded one's limit is the capacity, or the length
    /// where that is 0.
    pub fn copy(&self, alloc: Global, tag: Tag, capacity: u64) -> Result<OrderedMap<K, V>, Fault>
        requires { capacity ≤ GREATEST_LENGTH }
        ensures made { Makes (common.copy_call (plain self.now.object) tag capacity) result }
        ensures slots { self.now.object.limit ≡ Limit.Unbounded → IfOk result (λ made.
            slots_of made ≤ pow8 (max (length_of self.now.object) capacity)) }
    {
        match self.table.copy(alloc, tag, capacity) {
            Ok(table) => Ok(OrderedMap { table }),
            Err(fault) => Err(fault),
        }
    }

    /// Assign (A.18.4): copies of the source's elements take the place of the elements.
    pub fn assign(&mut self, source: &OrderedMap<K, V>) -> Result<(), Fault>
        ensures changed { Does Same (λ o. common.assign_call o (plain source.now.object)) self.old self.new result }
        ensures slots { Grows result self.old self.new }
    {
        self.table.assign(&source.table)
    }

    /// Assign (A.18.4) of a map to itself.
    pub fn assign_self(&mut self) -> Result<(), Fault>
        ensures changed { Does Same common.assign_self_call self.old self.new result }
        ensures same { self.new ≡ self.old }
    {
        self.table.assign_self()
    }

    /// Move (A.18.4): the source's elements, under new names, in place of those that were here.
    pub fn move_from(&mut self, source: &mut OrderedMap<K, V>) -> Result<(), Fault>
        ensures changed { DoesBoth Same common.move_from_call self.old source.old self.new source.new result }
        ensures slots { Grows result self.old self.new }
        ensures source { slots_of source.new ≡ slots_of source.old }
    {
        self.table.move_from(&mut source.table)
    }

    /// Move (A.18.4) of a map to itself.
    pub fn move_from_self(&mut self) -> Result<(), Fault>
        ensures changed { Does Same common.move_from_self_call self.old self.new result }
        ensures same { self.new ≡ self.old }
    {
        self.table.move_from_self()
    }
}

impl<K: Rank, V: Elem> Guarded for OrderedMap<K, V> {
    ghost is_set = { λ _. false };

    ghost guards = { guards_of };

    ghost with_guards = { with_guards };

    ghost guards_given = { λ _ _. refl };

    ghost guards_own = { λ _. refl };

    ghost rest_kept = { λ _ _ _. refl };

    ghost set_kept = { λ _ _. refl };

    fn hold(&mut self, kind: GuardKind) -> GuardKey {
        self.table.hold(kind)
    }

    fn release(&mut self, key: GuardKey) {
        self.table.release(key);
    }

    fn held(&self, kind: GuardKind) -> u64 {
        self.table.held(kind)
    }
}
