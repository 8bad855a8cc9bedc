//! The vector. A contract sees its object, with the slots of its names, and how many elements more it takes without memory.
ghost use Rattle.std.specs.Prelude.{◌≡◌, ◌+◌, Some, IfOk, IfErr, IsOk, true, false, refl};
ghost use Rattle.ac_base.specs.Limits.{IsLimit};
ghost use Rattle.ac_model.specs.Containers.{HasSlots, first_spare, slots_of, with_guards, guards_of};
ghost use Rattle.ac_model.specs.Objects.{IsValid, empty_object, plain, length_of};
ghost use Rattle.ac_model.specs.Calls.{Same, Lends, Marks};
ghost use Rattle.ac_model.specs.Forms.{Does, Looks, seen_by};
ghost use Rattle.ac_model.specs.Common as common;
ghost use Rattle.ac_model.specs.Sequences as sequences;

mod common;
mod copies;
mod deletions;
mod indexes;
mod insertions;
mod lengths;
mod like;
mod merging;
mod order;
mod positions;
mod searches;
mod transfers;
mod values;
mod vectors;

use crate::array::Array;
use ac_base::{Fault, Limit};
use ac_chain::{Walked, calls};
use ac_cursor::{Class, Cursor, GuardKey, GuardKind, Guarded, Guards, Tag};
use ac_model::allowed;
use std::alloc::Global;
use std::marker::Model;

/// A vector (A.18.2), which is told its number by a tag. Its Capacity is the number of its slots.
#[derive(Drop)]
pub struct Vector<T> {
    alloc: Global,
    rows: Array<T>,
    guards: Guards,
    limit: Limit,
}

impl<T> Model for Vector<T> {
    ghost use Rattle.std.specs.Prelude.{Some};
    ghost use Rattle.ac_model.specs.Containers.{Container, container, container_code};
    ghost use Rattle.ac_chain.specs.Rows.{slots_in};
    ghost use Rattle.ac_chain.specs.Sequence.{object_of, IsSequence};

    ghost Value = { Container T };

    ghost coded = { container_code T.code };

    ghost view = { λ v. container (object_of v.guards v.limit (Some (slots_in v.rows)) v.rows) v.rows.spare };

    ghost invariant = { λ v. IsSequence v.limit v.rows };
}

impl<T: Drop> Vector<T> {
    /// An empty vector. A bounded one takes all its memory here, and an unbounded one takes none.
    pub fn new(alloc: Global, tag: Tag, limit: Limit) -> Result<Vector<T>, Fault>
        requires { IsLimit limit }
        ensures empty { IfOk result (λ made. made.object ≡ empty_object true tag limit) }
        ensures spare { IfOk result (λ made. made.spare ≡ first_spare limit) }
        ensures memory { IfErr result (λ e. e ≡ Fault.NoMemory) }
        ensures unbounded { limit ≡ Limit.Unbounded → IsOk result }
    {
        let rows = match limit {
            Limit::Unbounded => Array::new(alloc),
            Limit::Bounded(most) => match Array::with_slots(alloc, most) {
                Ok(rows) => rows,
                Err(_) => return Err(Fault::NoMemory),
            },
        };
        Ok(Vector {
            alloc,
            rows,
            guards: Guards::new(tag),
            limit,
        })
    }
}

impl<T> Vector<T> {
    /// What holds of every vector, for proofs alone.
    pub fn law(&self)
        ensures valid { IsValid (plain self.now.object) }
        ensures limit { IsLimit self.now.object.limit }
        ensures slots { HasSlots self.now.object.limit (length_of self.now.object) self.now.spare }
        ensures capacity { self.now.object.capacity ≡ Some (slots_of self.now) }
    {
        let _rows = &self.rows;
    }

    pub fn number(&self) -> u64
        ensures { result ≡ self.now.object.number }
    {
        self.guards.number()
    }

    pub fn limit(&self) -> Limit
        ensures { result ≡ self.now.object.limit }
    {
        self.limit
    }

    /// Length (A.18.2).
    pub fn length(&self) -> i64
        ensures { result ≡ common.length_call (plain self.now.object) }
    {
        self.rows.len() as i64
    }

    /// Is_Empty (A.18.2).
    pub fn is_empty(&self) -> bool
        ensures { result ≡ common.is_empty_call (plain self.now.object) }
    {
        self.rows.len() == 0
    }

    /// How many elements have a slot.
    pub fn live_nodes(&self) -> u64
        ensures { result ≡ length_of self.now.object }
    {
        self.rows.len()
    }

    /// Capacity (A.18.2).
    pub fn capacity(&self) -> i64
        ensures { result ≡ common.capacity_call (plain self.now.object) }
    {
        (self.rows.len() + self.rows.spare()) as i64
    }

    /// How many slots there are, with and without an element.
    pub fn slots(&self) -> u64
        ensures { result ≡ length_of self.now.object + self.now.spare }
    {
        self.rows.len() + self.rows.spare()
    }
}

impl<T> Vector<T> {
    /// Has_Element (A.18.2): false for a cursor of another vector, and for one whose element is gone.
    pub fn has_element(&self, c: Cursor) -> bool
        ensures { result ≡ common.has_element_call (plain self.now.object) (seen_by self.now c) }
    {
        calls::has_element(self, c)
    }

    /// First (A.18.2).
    pub fn first(&self) -> Cursor
        ensures { Marks self.now.object result (sequences.first_call (plain self.now.object)) }
    {
        calls::first(self)
    }

    /// Last (A.18.2).
    pub fn last(&self) -> Cursor
        ensures { Marks self.now.object result (sequences.last_call (plain self.now.object)) }
    {
        calls::last(self)
    }

    /// Next (A.18.2).
    pub fn next(&self, b: Cursor) -> Result<Cursor, Fault>
        ensures { Looks (Marks self.now.object) (λ o. sequences.next_call o (seen_by self.now b)) self.now result }
    {
        calls::next(self, b)
    }

    /// Previous (A.18.2).
    pub fn previous(&self, b: Cursor) -> Result<Cursor, Fault>
        ensures { Looks (Marks self.now.object) (λ o. sequences.previous_call o (seen_by self.now b)) self.now result }
    {
        calls::previous(self, b)
    }

    /// First_Element (A.18.2).
    pub fn first_element(&self) -> Result<&T, Fault>
        ensures { Looks Lends sequences.first_element_call self.now result }
    {
        calls::first_element(self)
    }

    /// Last_Element (A.18.2).
    pub fn last_element(&self) -> Result<&T, Fault>
        ensures { Looks Lends sequences.last_element_call self.now result }
    {
        calls::last_element(self)
    }

    /// Element (A.18.2).
    pub fn element(&self, c: Cursor) -> Result<&T, Fault>
        ensures { Looks Lends (λ o. sequences.element_call o (seen_by self.now c)) self.now result }
    {
        calls::element(self, c)
    }
}

impl<T: Drop> Vector<T> {
    /// Clear (A.18.2).
    pub fn clear(&mut self) -> Result<(), Fault>
        ensures changed { Does Same common.clear_call self.old self.new result }
        ensures slots { length_of self.new.object + self.new.spare ≡ length_of self.old.object + self.old.spare }
    {
        allowed(self.guards.forbids(Class::Cursors))?;
        self.rows.clear();
        Ok(())
    }
}

impl<T> Guarded for Vector<T> {
    ghost is_set = { λ _. false };

    ghost guards = { guards_of };

    ghost with_guards = { with_guards };

    fn hold(&mut self, kind: GuardKind) -> GuardKey {
        self.guards.hold(kind)
    }

    fn release(&mut self, key: GuardKey) {
        self.guards.release(key);
    }

    fn held(&self, kind: GuardKind) -> u64 {
        self.guards.held(kind)
    }

    ghost guards_given = { λ _ _. refl };

    ghost guards_own = { λ _. refl };

    ghost rest_kept = { λ _ _ _. refl };

    ghost set_kept = { λ _ _. refl };
}
