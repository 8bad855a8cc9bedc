//! The list. A contract sees its object, with the slots of its names, and how many elements more it takes without memory.
ghost use Rattle.std.specs.Prelude.{◌≡◌, ◌<◌, ◌+◌, None, IfOk, IfErr, IsOk, false, refl};
ghost use Rattle.ac_base.specs.Limits.{IsLimit};
ghost use Rattle.ac_model.specs.Containers.{HasSlots, first_spare, with_guards, guards_of};
ghost use Rattle.ac_model.specs.Containers.{Grows};
ghost use Rattle.ac_model.specs.Objects.{IsValid, empty_object, plain, length_of};
ghost use Rattle.ac_model.specs.Calls.{Same, Lends, Marks};
ghost use Rattle.ac_model.specs.Forms.{Does, Looks, Sets, seen_by};
ghost use Rattle.ac_model.specs.Common as common;
ghost use Rattle.ac_model.specs.Sequences as sequences;
ghost use Rattle.ac_model.specs.Lists as lists;

mod common;
mod copies;
mod deletions;
mod like;
mod links;
mod merging;
mod order;
mod searches;
mod transfers;
mod values;

use ac_base::{Elem, Fault, Limit};
use ac_chain::{Chain, calls};
use ac_cursor::{Class, Cursor, GuardKey, GuardKind, Guarded, Guards, Tag};
use ac_model::{allowed, name_in};
use std::alloc::Global;
use std::marker::Model;

/// A doubly linked list (A.18.3), which is told its number by a tag.
#[derive(Drop)]
pub struct List<T> {
    alloc: Global,
    chain: Chain<T>,
    guards: Guards,
    limit: Limit,
}

impl<T> Model for List<T> {
    ghost use Rattle.std.specs.Prelude.{None};
    ghost use Rattle.ac_model.specs.Containers.{Container, container, container_code};
    ghost use Rattle.ac_chain.specs.Sequence.{object_of, IsSequence};

    ghost Value = { Container T };

    ghost coded = { container_code T.code };

    ghost view = { λ l. container (object_of l.guards l.limit None l.chain) l.chain.spare };

    ghost invariant = { λ l. IsSequence l.limit l.chain };
}

impl<T: Drop> List<T> {
    /// An empty list. A bounded one takes all its memory here, and an unbounded one takes none.
    pub fn new(alloc: Global, tag: Tag, limit: Limit) -> Result<List<T>, Fault>
        requires { IsLimit limit }
        ensures empty { IfOk result (λ made. made.object ≡ empty_object false tag limit) }
        ensures spare { IfOk result (λ made. made.spare ≡ first_spare limit) }
        ensures memory { IfErr result (λ e. e ≡ Fault.NoMemory) }
        ensures unbounded { limit ≡ Limit.Unbounded → IsOk result }
    {
        let chain = match limit {
            Limit::Unbounded => Chain::new(alloc),
            Limit::Bounded(most) => match Chain::with_slots(alloc, most) {
                Ok(chain) => chain,
                Err(_) => return Err(Fault::NoMemory),
            },
        };
        Ok(List {
            alloc,
            chain,
            guards: Guards::new(tag),
            limit,
        })
    }

    /// An empty list without a limit whose first name has this serial. It takes no memory.
    pub fn starting_at(alloc: Global, tag: Tag, serial: u64) -> List<T>
        requires { 0 < serial }
        ensures empty { result.object ≡ record (empty_object false tag Limit.Unbounded) { next = serial } }
        ensures spare { result.spare ≡ 0 }
    {
        List {
            alloc,
            chain: Chain::starting_at(alloc, serial),
            guards: Guards::new(tag),
            limit: Limit::Unbounded,
        }
    }
}

impl<T> List<T> {
    /// What holds of every list, for proofs alone.
    pub fn law(&self)
        ensures valid { IsValid (plain self.now.object) }
        ensures limit { IsLimit self.now.object.limit }
        ensures slots { HasSlots self.now.object.limit (length_of self.now.object) self.now.spare }
    {
        let _chain = &self.chain;
    }

    pub fn number(&self) -> u64
        ensures { result ≡ self.now.object.number }
    {
        self.guards.number()
    }

    pub fn limit(&self) -> Limit
        ensures { result ≡ self.now.object.limit }
    {
        self.limit
    }

    /// Length (A.18.3).
    pub fn length(&self) -> i64
        ensures { result ≡ common.length_call (plain self.now.object) }
    {
        self.chain.len() as i64
    }

    /// Is_Empty (A.18.3).
    pub fn is_empty(&self) -> bool
        ensures { result ≡ common.is_empty_call (plain self.now.object) }
    {
        self.chain.len() == 0
    }

    /// How many elements have a slot.
    pub fn live_nodes(&self) -> u64
        ensures { result ≡ length_of self.now.object }
    {
        self.chain.len()
    }

    /// How many slots there are, with and without an element.
    pub fn slots(&self) -> u64
        ensures { result ≡ length_of self.now.object + self.now.spare }
    {
        self.chain.len() + self.chain.spare()
    }
}

impl<T> List<T> {
    /// Has_Element (A.18.3): false for a cursor of another list, and for one whose element is gone.
    pub fn has_element(&self, c: Cursor) -> bool
        ensures { result ≡ common.has_element_call (plain self.now.object) (seen_by self.now c) }
    {
        calls::has_element(self, c)
    }

    /// First (A.18.3).
    pub fn first(&self) -> Cursor
        ensures { Marks self.now.object result (sequences.first_call (plain self.now.object)) }
    {
        calls::first(self)
    }

    /// Last (A.18.3).
    pub fn last(&self) -> Cursor
        ensures { Marks self.now.object result (sequences.last_call (plain self.now.object)) }
    {
        calls::last(self)
    }

    /// Next (A.18.3).
    #[inline(always)]
    pub fn next(&self, b: Cursor) -> Result<Cursor, Fault>
        ensures { Looks (Marks self.now.object) (λ o. sequences.next_call o (seen_by self.now b)) self.now result }
    {
        calls::next(self, b)
    }

    /// Previous (A.18.3).
    pub fn previous(&self, b: Cursor) -> Result<Cursor, Fault>
        ensures { Looks (Marks self.now.object) (λ o. sequences.previous_call o (seen_by self.now b)) self.now result }
    {
        calls::previous(self, b)
    }

    /// First_Element (A.18.3).
    pub fn first_element(&self) -> Result<&T, Fault>
        ensures { Looks Lends sequences.first_element_call self.now result }
    {
        calls::first_element(self)
    }

    /// Last_Element (A.18.3).
    pub fn last_element(&self) -> Result<&T, Fault>
        ensures { Looks Lends sequences.last_element_call self.now result }
    {
        calls::last_element(self)
    }

    /// Element (A.18.3).
    pub fn element(&self, c: Cursor) -> Result<&T, Fault>
        ensures { Looks Lends (λ o. sequences.element_call o (seen_by self.now c)) self.now result }
    {
        calls::element(self, c)
    }
}

impl<T> List<T> {
    /// Reverse_Elements (A.18.3): the elements with their names.
    pub fn reverse_elements(&mut self) -> Result<(), Fault>
        ensures changed { Does Same lists.reverse_elements_call self.old self.new result }
        ensures spare { self.new.spare ≡ self.old.spare }
    {
        allowed(self.guards.forbids(Class::Cursors))?;
        self.chain.reverse();
        Ok(())
    }
}

impl<T> List<T> {
    /// Swap (A.18.3): the two elements change places, and each name keeps its place.
    pub fn swap(&mut self, first: Cursor, second: Cursor) -> Result<(), Fault>
        ensures changed { Does Same (λ o. sequences.swap_call o (seen_by self.old first) (seen_by self.old second))
            self.old self.new result }
        ensures spare { self.new.spare ≡ self.old.spare }
    {
        allowed(calls::refuses_swap(self, first, second))?;
        self.chain.swap_values(name_in(first), name_in(second));
        Ok(())
    }
}

impl<T: Drop> List<T> {
    /// Clear (A.18.3).
    pub fn clear(&mut self) -> Result<(), Fault>
        ensures changed { Does Same common.clear_call self.old self.new result }
        ensures slots { length_of self.new.object + self.new.spare ≡ length_of self.old.object + self.old.spare }
    {
        allowed(self.guards.forbids(Class::Cursors))?;
        self.chain.clear();
        Ok(())
    }
}

impl<T: Elem> List<T> {
    /// Append (A.18.3): so many copies at the end.
    pub fn append(&mut self, e: T, n: i64) -> Result<(), Fault>
        ensures changed { Does Same (λ o. sequences.append_call o e n) self.old self.new result }
        ensures slots { Grows result self.old self.new }
    {
        calls::append(self, e, n)
    }

    /// Prepend (A.18.3): so many copies at the front.
    pub fn prepend(&mut self, e: T, n: i64) -> Result<(), Fault>
        ensures changed { Does Same (λ o. sequences.prepend_call o e n) self.old self.new result }
        ensures slots { Grows result self.old self.new }
    {
        calls::prepend(self, e, n)
    }

    /// Insert (A.18.3): so many copies before the cursor, where No_Element is the end.
    pub fn insert(&mut self, b: Cursor, e: T, n: i64) -> Result<(), Fault>
        ensures changed { Does Same (λ o. sequences.insert_call o (seen_by self.old b) e n) self.old self.new result }
        ensures slots { Grows result self.old self.new }
    {
        calls::insert(self, b, e, n)
    }

    /// Insert with a position (A.18.3): the same, and the variable is set to the first copy, or to the cursor where there is none.
    pub fn insert_pos(&mut self, b: Cursor, e: T, p: &mut Cursor, n: i64) -> Result<(), Fault>
        ensures changed { Sets (λ o. sequences.insert_pos_call o (seen_by self.old b) e n) self.old p.old self.new p.new result }
        ensures slots { Grows result self.old self.new }
    {
        calls::insert_pos(self, b, e, p, n)
    }
}

impl<T> Guarded for List<T> {
    ghost is_set = { λ _. false };

    ghost guards = { guards_of };

    ghost with_guards = { with_guards };

    fn hold(&mut self, kind: GuardKind) -> GuardKey {
        self.guards.hold(kind)
    }

    fn release(&mut self, key: GuardKey) {
        self.guards.release(key);
    }

    fn held(&self, kind: GuardKind) -> u64 {
        self.guards.held(kind)
    }

    ghost guards_given = { λ _ _. refl };

    ghost guards_own = { λ _. refl };

    ghost rest_kept = { λ _ _ _. refl };

    ghost set_kept = { λ _ _. refl };
}
