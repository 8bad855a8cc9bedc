//! The ordered set. A contract sees its object, with the slots of its names, and how many elements more it takes without memory.
ghost use Rattle.std.specs.Prelude.{◌≡◌, ◌≤◌, true, false, refl, max, IfOk, IfErr, IsOk, OnErr};
ghost use Rattle.ac_base.specs.Growth.{pow8};
ghost use Rattle.ac_base.specs.Limits.{IsLimit};
ghost use Rattle.ac_base.specs.declared.limit.TheConstants.{GREATEST_LENGTH};
ghost use Rattle.ac_balance.specs.Indexed.{FewSteps};
ghost use Rattle.ac_model.specs.Objects.{plain, length_of, empty_object};
ghost use Rattle.ac_model.specs.Calls.{Same, Lends, Marks};
ghost use Rattle.ac_model.specs.Containers.{Grows, HasSlots, container, first_spare, guards_of, slots_of, with_guards};
ghost use Rattle.ac_model.specs.Forms.{Does, DoesBoth, Looks, Makes, Sets, seen_by};
ghost use Rattle.ac_model.specs.Common as common;
ghost use Rattle.ac_model.specs.Keyed as keyed;
ghost use Rattle.ac_model.specs.Keyed.{ascending, IsValidKeyed};
ghost use Rattle.ac_model.specs.Ordered as ordered;
ghost use Rattle.ac_model.specs.Sequences as sequences;
ghost use Rattle.ac_model.specs.Sets as sets;
ghost use Rattle.ac_setwork.specs.TableFields.{Places};

mod algebra;
mod as_set;
mod by_key;

use crate::ascending::Ascending;
use ac_base::{Fault, KeyOf, Limit, Steps};
use ac_cursor::{Class, Cursor, GuardKey, GuardKind, Guarded, Tag};
use ac_setwork::{OfKeyed, Table};
use std::alloc::Global;
use std::marker::Model;
use std::sync::ledger::Ledger;

/// An ordered set (A.18.9), which is told its number by a tag. No two of its elements are equivalent. They have keys, and are
/// in the order of these.
#[derive(Drop)]
pub struct OrderedSet<T: KeyOf> {
    table: Table<Ascending<OfKeyed<T>>>,
}

impl<T: KeyOf> Model for OrderedSet<T> {
    ghost use Rattle.ac_model.specs.Containers.{Container, container_code};

    ghost Value = { Container T };

    ghost coded = { container_code T.code };

    ghost view = { λ s. s.table };
}

impl<T: KeyOf> OrderedSet<T> {
    /// An empty set. A bounded one takes all its memory here, and an unbounded one takes none.
    pub fn new(alloc: Global, tag: Tag, limit: Limit) -> Result<OrderedSet<T>, Fault>
        requires { IsLimit limit }
        ensures empty { IfOk result (λ made. made ≡ container (empty_object false tag limit) (first_spare limit)) }
        ensures memory { IfErr result (λ e. e ≡ Fault.NoMemory) }
        ensures unbounded { limit ≡ Limit.Unbounded → IsOk result }
    {
        match Table::new(alloc, tag, limit) {
            Ok(table) => Ok(OrderedSet { table }),
            Err(fault) => Err(fault),
        }
    }

    /// What holds of every set, for proofs alone.
    pub fn law(&self)
        ensures valid { IsValidKeyed (ascending T.is_less) (plain self.now.object) }
        ensures limit { IsLimit self.now.object.limit }
        ensures slots { HasSlots self.now.object.limit (length_of self.now.object) self.now.spare }
    {
        self.table.law();
    }

    pub fn number(&self) -> u64
        ensures { result ≡ self.now.object.number }
    {
        self.table.number()
    }

    pub fn limit(&self) -> Limit
        ensures { result ≡ self.now.object.limit }
    {
        self.table.limit()
    }

    /// Length (A.18.7).
    pub fn length(&self) -> i64
        ensures { result ≡ common.length_call (plain self.now.object) }
    {
        self.table.length()
    }

    /// Is_Empty (A.18.7).
    pub fn is_empty(&self) -> bool
        ensures { result ≡ common.is_empty_call (plain self.now.object) }
    {
        self.table.is_empty()
    }

    /// How many elements have a slot.
    pub fn live_nodes(&self) -> u64
        ensures { result ≡ length_of self.now.object }
    {
        self.table.live_nodes()
    }

    /// How many slots there are, with and without an element.
    pub fn slots(&self) -> u64
        ensures { result ≡ slots_of self.now }
    {
        self.table.slots()
    }
}

impl<T: KeyOf> OrderedSet<T> {
    /// Has_Element (A.18.7): false for a cursor of another set, and for one whose element is gone.
    pub fn has_element(&self, c: Cursor) -> bool
        ensures { result ≡ common.has_element_call (plain self.now.object) (seen_by self.now c) }
    {
        self.table.has_element(c)
    }

    /// Element (A.18.7).
    pub fn element(&self, c: Cursor) -> Result<&T, Fault>
        ensures { Looks Lends (λ o. sequences.element_call o (seen_by self.now c)) self.now result }
    {
        self.table.row(c)
    }

    /// "=" (A.18.7): as many, and each equals one of the other.
    pub fn equal(&self, other: &OrderedSet<T>) -> bool
        ensures { result ≡ sets.equal_call T.is_same (plain self.now.object) (plain other.now.object) }
    {
        other.table.law();
        self.table.equal(&other.table)
    }

    /// "=" (A.18.7) of a set with itself, in constant time.
    pub fn equal_self(&self) -> bool
        ensures { result ≡ sets.equal_call T.is_same (plain self.now.object) (plain self.now.object) }
    {
        true
    }

    /// First (A.18.7).
    pub fn first(&self) -> Cursor
        ensures { Marks self.now.object result (sequences.first_call (plain self.now.object)) }
    {
        self.table.first()
    }

    /// Last (A.18.9).
    pub fn last(&self) -> Cursor
        ensures { Marks self.now.object result (sequences.last_call (plain self.now.object)) }
    {
        self.table.last()
    }

    /// Next (A.18.7).
    pub fn next(&self, b: Cursor) -> Result<Cursor, Fault>
        ensures { Looks (Marks self.now.object) (λ o. sequences.next_call o (seen_by self.now b)) self.now result }
    {
        self.table.next(b)
    }

    /// Previous (A.18.9).
    pub fn previous(&self, b: Cursor) -> Result<Cursor, Fault>
        ensures { Looks (Marks self.now.object) (λ o. sequences.previous_call o (seen_by self.now b)) self.now result }
    {
        self.table.previous(b)
    }

    /// First_Element (A.18.9).
    pub fn first_element(&self) -> Result<&T, Fault>
        ensures { Looks Lends sequences.first_element_call self.now result }
    {
        self.table.first_row()
    }

    /// Last_Element (A.18.9).
    pub fn last_element(&self) -> Result<&T, Fault>
        ensures { Looks Lends sequences.last_element_call self.now result }
    {
        self.table.last_row()
    }

    /// Find (A.18.7).
    pub fn find<L: Ledger>(&self, element: &T, steps: &mut Steps<L>) -> Cursor
        ensures found { Marks self.now.object result (sets.find_call (ascending T.is_less) (plain self.now.object) element.now) }
        ensures few { FewSteps (length_of self.now.object) steps.old steps.new }
    {
        self.table.find_counted(element.key(), steps)
    }

    /// Contains (A.18.7).
    pub fn contains<L: Ledger>(&self, element: &T, steps: &mut Steps<L>) -> bool
        ensures found { result ≡ sets.contains_call (ascending T.is_less) (plain self.now.object) element.now }
        ensures few { FewSteps (length_of self.now.object) steps.old steps.new }
    {
        self.table.contains_counted(element.key(), steps)
    }

    /// Floor (A.18.9): the last element that isn't greater.
    pub fn floor<L: Ledger>(&self, element: &T, steps: &mut Steps<L>) -> Cursor
        ensures found { Marks self.now.object result (sets.floor_call (ascending T.is_less) (plain self.now.object) element.now) }
        ensures few { FewSteps (length_of self.now.object) steps.old steps.new }
    {
        self.table.floor(element.key(), steps)
    }

    /// Ceiling (A.18.9): the first element that isn't less.
    pub fn ceiling<L: Ledger>(&self, element: &T, steps: &mut Steps<L>) -> Cursor
        ensures found { Marks self.now.object result (sets.ceiling_call (ascending T.is_less) (plain self.now.object) element.now) }
        ensures few { FewSteps (length_of self.now.object) steps.old steps.new }
    {
        self.table.ceiling(element.key(), steps)
    }
}

impl<T: KeyOf> OrderedSet<T> {
    /// Insert (A.18.7).
    pub fn insert(&mut self, element: T) -> Result<(), Fault>
        ensures changed { Does Same (λ o. keyed.insert_call (ascending T.is_less) o element) self.old self.new result }
        ensures slots { Grows result self.old self.new }
    {
        self.table.insert(element)
    }

    /// Insert with a position (A.18.7): where an equivalent element is there, the position is that one, and nothing else changes.
    pub fn insert_pos(&mut self, element: T, p: &mut Cursor) -> Result<bool, Fault>
        ensures changed { Does (Places self.new.object p.new) (λ o. keyed.insert_pos_call (ascending T.is_less) o element)
            self.old self.new result }
        ensures kept { OnErr result (p.new ≡ p.old) }
        ensures slots { Grows result self.old self.new }
    {
        self.table.insert_pos(element, p)
    }

    /// Include (A.18.7).
    pub fn include(&mut self, element: T) -> Result<(), Fault>
        ensures changed { Does Same (λ o. keyed.include_call (ascending T.is_less) o element) self.old self.new result }
        ensures slots { Grows result self.old self.new }
    {
        self.table.include(element)
    }

    /// Replace (A.18.7).
    pub fn replace(&mut self, element: T) -> Result<(), Fault>
        ensures changed { Does Same (λ o. sets.replace_call (ascending T.is_less) o element) self.old self.new result }
        ensures slots { slots_of self.new ≡ slots_of self.old }
    {
        self.table.replace(Class::Cursors, element)
    }

    /// Replace_Element (A.18.7): the element keeps its name and goes to its place.
    pub fn replace_element(&mut self, c: Cursor, element: T) -> Result<(), Fault>
        ensures changed { Does Same (λ o. keyed.replace_element_call (ascending T.is_less) o (seen_by self.old c) element)
            self.old self.new result }
        ensures slots { slots_of self.new ≡ slots_of self.old }
    {
        self.table.replace_element(c, element)
    }

    /// Exclude (A.18.7).
    pub fn exclude(&mut self, element: &T) -> Result<(), Fault>
        ensures changed { Does Same (λ o. sets.exclude_call (ascending T.is_less) o element.now) self.old self.new result }
        ensures slots { slots_of self.new ≡ slots_of self.old }
    {
        self.table.exclude(element.key())
    }

    /// Delete by an item (A.18.7).
    pub fn delete_item(&mut self, element: &T) -> Result<(), Fault>
        ensures changed { Does Same (λ o. sets.delete_item_call (ascending T.is_less) o element.now) self.old self.new result }
        ensures slots { slots_of self.new ≡ slots_of self.old }
    {
        self.table.delete_key(element.key())
    }

    /// Delete (A.18.7): the element at the cursor, which becomes No_Element.
    pub fn delete(&mut self, q: &mut Cursor) -> Result<(), Fault>
        ensures changed { Sets (λ o. keyed.delete_call o (seen_by self.old q.old)) self.old q.old self.new q.new result }
        ensures slots { slots_of self.new ≡ slots_of self.old }
    {
        self.table.delete(q)
    }

    /// Delete_First (A.18.9).
    pub fn delete_first(&mut self) -> Result<(), Fault>
        ensures changed { Does Same ordered.delete_first_call self.old self.new result }
        ensures slots { slots_of self.new ≡ slots_of self.old }
    {
        self.table.delete_first()
    }

    /// Delete_Last (A.18.9).
    pub fn delete_last(&mut self) -> Result<(), Fault>
        ensures changed { Does Same ordered.delete_last_call self.old self.new result }
        ensures slots { slots_of self.new ≡ slots_of self.old }
    {
        self.table.delete_last()
    }

    /// Clear (A.18.7).
    pub fn clear(&mut self) -> Result<(), Fault>
        ensures changed { Does Same common.clear_call self.old self.new result }
        ensures slots { slots_of self.new ≡ slots_of self.old }
    {
        self.table.clear()
    }
}

impl<T: KeyOf> OrderedSet<T> {
    /// Copy (A.18.9): a set of its own number with copies of the elements. A bounded one's limit is the capacity, or the length
    /// where that is 0.
    pub fn copy(&self, alloc: Global, tag: Tag, capacity: u64) -> Result<OrderedSet<T>, Fault>
        requires { capacity ≤ GREATEST_LENGTH }
        ensures made { Makes (common.copy_call (plain self.now.object) tag capacity) result }
        ensures slots { self.now.object.limit ≡ Limit.Unbounded → IfOk result (λ made.
            slots_of made ≤ pow8 (max (length_of self.now.object) capacity)) }
    {
        match self.table.copy(alloc, tag, capacity) {
            Ok(table) => Ok(OrderedSet { table }),
            Err(fault) => Err(fault),
        }
    }

    /// Assign (A.18.7): copies of the source's elements take the place of the elements.
    pub fn assign(&mut self, source: &OrderedSet<T>) -> Result<(), Fault>
        ensures changed { Does Same (λ o. common.assign_call o (plain source.now.object)) self.old self.new result }
        ensures slots { Grows result self.old self.new }
    {
        self.table.assign(&source.table)
    }

    /// Assign (A.18.7) of a set to itself.
    pub fn assign_self(&mut self) -> Result<(), Fault>
        ensures changed { Does Same common.assign_self_call self.old self.new result }
        ensures same { self.new ≡ self.old }
    {
        self.table.assign_self()
    }

    /// Move (A.18.7): the source's elements, under new names, in place of those that were here.
    pub fn move_from(&mut self, source: &mut OrderedSet<T>) -> Result<(), Fault>
        ensures changed { DoesBoth Same common.move_from_call self.old source.old self.new source.new result }
        ensures slots { Grows result self.old self.new }
        ensures source { slots_of source.new ≡ slots_of source.old }
    {
        self.table.move_from(&mut source.table)
    }

    /// Move (A.18.7) of a set to itself.
    pub fn move_from_self(&mut self) -> Result<(), Fault>
        ensures changed { Does Same common.move_from_self_call self.old self.new result }
        ensures same { self.new ≡ self.old }
    {
        self.table.move_from_self()
    }
}

impl<T: KeyOf> Guarded for OrderedSet<T> {
    ghost is_set = { λ _. true };

    ghost guards = { guards_of };

    ghost with_guards = { with_guards };

    ghost guards_given = { λ _ _. refl };

    ghost guards_own = { λ _. refl };

    ghost rest_kept = { λ _ _ _. refl };

    ghost set_kept = { λ _ _. refl };

    fn hold(&mut self, _kind: GuardKind) -> GuardKey {
        self.table.hold(GuardKind::Cursors)
    }

    fn release(&mut self, key: GuardKey) {
        self.table.release(key);
    }

    fn held(&self, kind: GuardKind) -> u64 {
        self.table.held(kind)
    }
}
