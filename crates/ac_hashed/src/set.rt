//! Hashed sets.
ghost use Rattle.std.specs.Prelude.{◌≡◌, ◌≤◌, true, false, refl, max, IfOk, IfErr, IfSome, IsOk, OnErr};
ghost use Rattle.ac_base.specs.Growth.{pow8};
ghost use Rattle.ac_base.specs.Limits.{IsLimit};
ghost use Rattle.ac_base.specs.declared.limit.TheConstants.{GREATEST_LENGTH};
ghost use Rattle.ac_model.specs.Calls.{Same, Lends, Marks};
ghost use Rattle.ac_model.specs.Containers.{HasSlots, container, first_spare, guards_of, slots_of, with_guards, Grows};
ghost use Rattle.ac_model.specs.Forms.{Does, DoesBoth, Looks, Makes, Sets, seen_by};
ghost use Rattle.ac_model.specs.Keyed.{IsValidKeyed, by_arrival};
ghost use Rattle.ac_model.specs.Letters.{count_of};
ghost use Rattle.ac_model.specs.Objects.{empty_object, length_of, plain};
ghost use Rattle.ac_model.specs.Common as common;
ghost use Rattle.ac_model.specs.Keyed as keyed;
ghost use Rattle.ac_model.specs.Sets as sets;
ghost use Rattle.ac_model.specs.Sequences as sequences;
ghost use Rattle.ac_setwork.specs.TableFields.{Places};

mod algebra;
mod as_set;
mod by_key;

use crate::arrivals::Arrivals;
use ac_base::{Fault, KeyOf, Limit};
use ac_cursor::{Class, Cursor, GuardKey, GuardKind, Guarded, Tag};
use ac_setwork::{OfKeyed, Table};
use std::alloc::Global;
use std::marker::Model;

/// A hashed set (A.18.7, A.18.8), which is told its number by a tag. Its elements have keys, and are as equivalent as these.
#[derive(Drop)]
pub struct HashedSet<T: KeyOf> {
    table: Table<Arrivals<OfKeyed<T>>>,
}

impl<T: KeyOf> Model for HashedSet<T> {
    ghost use Rattle.ac_model.specs.Containers.{Container, container_code};

    ghost Value = { Container T };

    ghost coded = { container_code T.code };

    ghost view = { λ m. m.table };
}

impl<T: KeyOf> HashedSet<T> {
    /// An empty set. A bounded one takes all its memory here, and an unbounded one takes none.
    pub fn new(alloc: Global, tag: Tag, limit: Limit) -> Result<HashedSet<T>, Fault>
        requires { IsLimit limit }
        ensures empty { IfOk result (λ made. made ≡ container (empty_object true tag limit) (first_spare limit)) }
        ensures memory { IfErr result (λ e. e ≡ Fault.NoMemory) }
        ensures unbounded { limit ≡ Limit.Unbounded → IsOk result }
    {
        let table = Table::new(alloc, tag, limit)?;
        Ok(HashedSet { table })
    }

    /// What holds of every set, for proofs alone.
    pub fn law(&self)
        ensures valid { IsValidKeyed (by_arrival T.is_alike) (plain self.now.object) }
        ensures limit { IsLimit self.now.object.limit }
        ensures slots { HasSlots self.now.object.limit (length_of self.now.object) self.now.spare }
        ensures capacity { IfSome self.now.object.capacity (λ capacity. capacity ≤ slots_of self.now) }
    {
        self.table.law();
    }

    pub fn number(&self) -> u64
        ensures { result ≡ self.now.object.number }
    {
        self.table.number()
    }

    pub fn limit(&self) -> Limit
        ensures { result ≡ self.now.object.limit }
    {
        self.table.limit()
    }

    /// Length (A.18.7).
    pub fn length(&self) -> i64
        ensures { result ≡ common.length_call (plain self.now.object) }
    {
        self.table.length()
    }

    /// Is_Empty (A.18.7).
    pub fn is_empty(&self) -> bool
        ensures { result ≡ common.is_empty_call (plain self.now.object) }
    {
        self.table.is_empty()
    }

    /// How many elements have a slot.
    pub fn live_nodes(&self) -> u64
        ensures { result ≡ length_of self.now.object }
    {
        self.table.live_nodes()
    }

    /// How many slots there are, with and without an element.
    pub fn slots(&self) -> u64
        ensures { result ≡ slots_of self.now }
    {
        self.table.slots()
    }

    /// Capacity (A.18.8).
    pub fn capacity(&self) -> i64
        ensures { result ≡ common.capacity_call (plain self.now.object) }
    {
        self.table.capacity()
    }

    /// Reserve_Capacity (A.18.8).
    pub fn reserve_capacity(&mut self, n: i64) -> Result<(), Fault>
        ensures changed { Does Same (λ o. common.reserve_capacity_call o n) self.old self.new result }
        ensures err { OnErr result (self.new ≡ self.old) }
        ensures slots { slots_of self.new ≤ max (slots_of self.old) (pow8 (count_of n)) }
    {
        self.table.reserve_capacity(n)
    }

    /// Clear (A.18.7).
    pub fn clear(&mut self) -> Result<(), Fault>
        ensures changed { Does Same common.clear_call self.old self.new result }
        ensures slots { slots_of self.new ≡ slots_of self.old }
    {
        self.table.clear()
    }

    /// "=" (A.18.7).
    pub fn equal(&self, other: &HashedSet<T>) -> bool
        ensures { result ≡ sets.equal_call T.is_same (plain self.now.object) (plain other.now.object) }
    {
        other.table.law();
        self.table.equal(&other.table)
    }

    /// "=" (A.18.7) of a set with itself, in constant time.
    pub fn equal_self(&self) -> bool
        ensures { result ≡ sets.equal_call T.is_same (plain self.now.object) (plain self.now.object) }
    {
        true
    }
}

impl<T: KeyOf> HashedSet<T> {
    /// Has_Element (A.18.7): false for a cursor of another set, and for one whose element is gone.
    pub fn has_element(&self, c: Cursor) -> bool
        ensures { result ≡ common.has_element_call (plain self.now.object) (seen_by self.now c) }
    {
        self.table.has_element(c)
    }

    /// Element (A.18.7).
    pub fn element(&self, c: Cursor) -> Result<&T, Fault>
        ensures { Looks Lends (λ o. sequences.element_call o (seen_by self.now c)) self.now result }
    {
        self.table.row(c)
    }

    /// Find (A.18.7).
    pub fn find(&self, e: &T) -> Cursor
        ensures { Marks self.now.object result (sets.find_call (by_arrival T.is_alike) (plain self.now.object) e.now) }
    {
        self.table.find(e.key())
    }

    /// Contains (A.18.7).
    pub fn contains(&self, e: &T) -> bool
        ensures { result ≡ sets.contains_call (by_arrival T.is_alike) (plain self.now.object) e.now }
    {
        self.table.contains(e.key())
    }

    /// First (A.18.7).
    pub fn first(&self) -> Cursor
        ensures { Marks self.now.object result (sequences.first_call (plain self.now.object)) }
    {
        self.table.first()
    }

    /// Last, which the standard has of ordered sets alone: here the element that arrived last.
    pub fn last(&self) -> Cursor
        ensures { Marks self.now.object result (sequences.last_call (plain self.now.object)) }
    {
        self.table.last()
    }

    /// Next (A.18.7).
    pub fn next(&self, b: Cursor) -> Result<Cursor, Fault>
        ensures { Looks (Marks self.now.object) (λ o. sequences.next_call o (seen_by self.now b)) self.now result }
    {
        self.table.next(b)
    }

    /// Previous, which the standard has of ordered sets alone: here the element that arrived before.
    pub fn previous(&self, b: Cursor) -> Result<Cursor, Fault>
        ensures { Looks (Marks self.now.object) (λ o. sequences.previous_call o (seen_by self.now b)) self.now result }
    {
        self.table.previous(b)
    }
}

impl<T: KeyOf> HashedSet<T> {
    /// Replace_Element (A.18.7).
    pub fn replace_element(&mut self, c: Cursor, e: T) -> Result<(), Fault>
        ensures changed { Does Same (λ o. keyed.replace_element_call (by_arrival T.is_alike) o (seen_by self.old c) e)
            self.old self.new result }
        ensures slots { slots_of self.new ≡ slots_of self.old }
    {
        self.table.replace_element(c, e)
    }

    /// Insert (A.18.7).
    pub fn insert(&mut self, e: T) -> Result<(), Fault>
        ensures changed { Does Same (λ o. keyed.insert_call (by_arrival T.is_alike) o e) self.old self.new result }
        ensures slots { Grows result self.old self.new }
    {
        self.table.insert(e)
    }

    /// Insert with a position (A.18.7): where an equivalent element is there, the position is that one, and nothing else changes.
    pub fn insert_pos(&mut self, e: T, p: &mut Cursor) -> Result<bool, Fault>
        ensures changed { Does (Places self.new.object p.new) (λ o. keyed.insert_pos_call (by_arrival T.is_alike) o e)
            self.old self.new result }
        ensures kept { OnErr result (p.new ≡ p.old) }
        ensures slots { Grows result self.old self.new }
    {
        self.table.insert_pos(e, p)
    }

    /// Include (A.18.7).
    pub fn include(&mut self, e: T) -> Result<(), Fault>
        ensures changed { Does Same (λ o. keyed.include_call (by_arrival T.is_alike) o e) self.old self.new result }
        ensures slots { Grows result self.old self.new }
    {
        self.table.include(e)
    }

    /// Replace (A.18.7).
    pub fn replace(&mut self, e: T) -> Result<(), Fault>
        ensures changed { Does Same (λ o. sets.replace_call (by_arrival T.is_alike) o e) self.old self.new result }
        ensures slots { slots_of self.new ≡ slots_of self.old }
    {
        self.table.replace(Class::Cursors, e)
    }

    /// Exclude (A.18.7).
    pub fn exclude(&mut self, e: &T) -> Result<(), Fault>
        ensures changed { Does Same (λ o. sets.exclude_call (by_arrival T.is_alike) o e.now) self.old self.new result }
        ensures slots { slots_of self.new ≡ slots_of self.old }
    {
        self.table.exclude(e.key())
    }

    /// Delete by an element (A.18.7).
    pub fn delete_item(&mut self, e: &T) -> Result<(), Fault>
        ensures changed { Does Same (λ o. sets.delete_item_call (by_arrival T.is_alike) o e.now) self.old self.new result }
        ensures slots { slots_of self.new ≡ slots_of self.old }
    {
        self.table.delete_key(e.key())
    }

    /// Delete (A.18.7): the element at the cursor, which becomes No_Element.
    pub fn delete(&mut self, q: &mut Cursor) -> Result<(), Fault>
        ensures changed { Sets (λ o. keyed.delete_call o (seen_by self.old q.old)) self.old q.old self.new q.new result }
        ensures slots { slots_of self.new ≡ slots_of self.old }
    {
        self.table.delete(q)
    }
}

impl<T: KeyOf> HashedSet<T> {
    /// Copy (A.18.8): a set of its own number with copies of the elements. A bounded one's limit is the capacity, or the length
    /// where that is 0.
    pub fn copy(&self, alloc: Global, tag: Tag, capacity: u64) -> Result<HashedSet<T>, Fault>
        requires { capacity ≤ GREATEST_LENGTH }
        ensures made { Makes (common.copy_call (plain self.now.object) tag capacity) result }
        ensures slots { self.now.object.limit ≡ Limit.Unbounded → IfOk result (λ made.
            slots_of made ≤ pow8 (max (length_of self.now.object) capacity)) }
    {
        match self.table.copy(alloc, tag, capacity) {
            Ok(table) => Ok(HashedSet { table }),
            Err(fault) => Err(fault),
        }
    }

    /// Assign (A.18.7): copies of the source's elements take the place of the elements.
    pub fn assign(&mut self, source: &HashedSet<T>) -> Result<(), Fault>
        ensures changed { Does Same (λ o. common.assign_call o (plain source.now.object)) self.old self.new result }
        ensures slots { Grows result self.old self.new }
    {
        self.table.assign(&source.table)
    }

    /// Assign (A.18.7) of a set to itself.
    pub fn assign_self(&mut self) -> Result<(), Fault>
        ensures changed { Does Same common.assign_self_call self.old self.new result }
        ensures same { self.new ≡ self.old }
    {
        self.table.assign_self()
    }

    /// Move (A.18.7): the source's elements, under new names, in place of those that were here.
    pub fn move_from(&mut self, source: &mut HashedSet<T>) -> Result<(), Fault>
        ensures changed { DoesBoth Same common.move_from_call self.old source.old self.new source.new result }
        ensures slots { Grows result self.old self.new }
        ensures source { slots_of source.new ≡ slots_of source.old }
    {
        self.table.move_from(&mut source.table)
    }

    /// Move (A.18.7) of a set to itself.
    pub fn move_from_self(&mut self) -> Result<(), Fault>
        ensures changed { Does Same common.move_from_self_call self.old self.new result }
        ensures same { self.new ≡ self.old }
    {
        self.table.move_from_self()
    }
}

impl<T: KeyOf> Guarded for HashedSet<T> {
    ghost is_set = { λ _. true };

    ghost guards = { guards_of };

    ghost with_guards = { with_guards };

    ghost guards_given = { λ _ _. refl };

    ghost guards_own = { λ _. refl };

    ghost rest_kept = { λ _ _ _. refl };

    ghost set_kept = { λ _ _. refl };

    fn hold(&mut self, _kind: GuardKind) -> GuardKey {
        self.table.hold(GuardKind::Cursors)
    }

    fn release(&mut self, key: GuardKey) {
        self.table.release(key);
    }

    fn held(&self, kind: GuardKind) -> u64 {
        self.table.held(kind)
    }
}
