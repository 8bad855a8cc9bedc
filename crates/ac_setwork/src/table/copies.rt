//! Copies of a map or a set, and the calls of one with itself.
ghost use Rattle.std.specs.Prelude.{◌≡◌, ◌∷◌, ◌≤◌, max, IfOk};
ghost use Rattle.ac_base.specs.FirstReason.{first_reason};
ghost use Rattle.ac_base.specs.Growth.{pow8};
ghost use Rattle.ac_base.specs.declared.limit.TheConstants.{GREATEST_LENGTH};
ghost use Rattle.ac_model.specs.Calls.{Same};
ghost use Rattle.ac_model.specs.Common as common;
ghost use Rattle.ac_model.specs.Containers.{Grows, slots_of};
ghost use Rattle.ac_model.specs.Forms.{Does, Makes};
ghost use Rattle.ac_model.specs.Letters.{room, tampers_cursors};
ghost use Rattle.ac_model.specs.Objects.{length_of, plain};

use super::Table;
use crate::index::Index;
use crate::refilling::refill;
use ac_base::{Fault, Limit, Reason};
use ac_cursor::{Class, Tag, first_reason};
use ac_model::{allowed, as_fault, limit_of_copy, room, too_small};
use std::alloc::Global;

impl<I: Index> Table<I> {
    /// Copy (A.18.5, A.18.6, A.18.8, A.18.9): an object of its own number with copies of the elements. A bounded one's limit is the
    /// capacity, or the length where that is 0.
    pub fn copy(&self, alloc: Global, tag: Tag, capacity: u64) -> Result<Table<I>, Fault>
        requires { capacity ≤ GREATEST_LENGTH }
        ensures made { Makes (common.copy_call (plain self.now.object) tag capacity) result }
        ensures slots { self.now.object.limit ≡ Limit.Unbounded → IfOk result (λ made.
            slots_of made ≤ pow8 (max (length_of self.now.object) capacity)) }
    {
        let length = self.index.len();
        let _capacity = self.index.capacity();
        if let Some(reason) = too_small(capacity, length) {
            return Err(Fault::Raised(reason));
        }
        let limit = limit_of_copy(self.limit, capacity, length);
        let mut made = Table::new(alloc, tag, limit)?;
        made.raise_capacity(capacity)?;
        made.assign(self)?;
        Ok(made)
    }

    /// Assign (A.18.4, A.18.7): copies of the source's elements take the place of the elements.
    pub fn assign(&mut self, source: &Table<I>) -> Result<(), Fault>
        ensures changed { Does Same (λ o. common.assign_call o (plain source.now.object)) self.old self.new result }
        ensures slots { Grows result self.old self.new }
    {
        allowed(self.refuses_refill(source.index.len()))?;
        as_fault(refill(&mut self.index, self.limit, &source.index, self.alloc))
    }

    /// Assign (A.18.4, A.18.7) of an object to itself.
    pub fn assign_self(&mut self) -> Result<(), Fault>
        ensures changed { Does Same common.assign_self_call self.old self.new result }
        ensures same { self.new ≡ self.old }
    {
        allowed(self.guards.forbids(Class::Cursors))
    }

    /// Move (A.18.4, A.18.7) of an object to itself.
    pub fn move_from_self(&mut self) -> Result<(), Fault>
        ensures changed { Does Same common.move_from_self_call self.old self.new result }
        ensures same { self.new ≡ self.old }
    {
        self.assign_self()
    }

    /// Why so many elements in place of the old ones are refused.
    fn refuses_refill(&self, length: u64) -> Option<Reason>
        ensures { result ≡ first_reason (tampers_cursors (plain self.now.object) ∷ room (plain self.now.object) length length) }
    {
        first_reason(&[
            self.guards.forbids(Class::Cursors),
            room(self.limit, self.index.next_serial(), length, length),
        ])
    }
}
