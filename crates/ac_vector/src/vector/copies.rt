//! Copies of a vector, and the calls of a vector with itself.
ghost use Rattle.std.specs.Prelude.{◌≡◌, ◌∷◌, ◌≤◌, max, IfOk};
ghost use Rattle.ac_base.specs.Growth.{pow8};
ghost use Rattle.ac_model.specs.Containers.{Grows, slots_of};
ghost use Rattle.ac_model.specs.Forms.{Does, Makes};
ghost use Rattle.ac_base.specs.FirstReason.{first_reason};
ghost use Rattle.ac_base.specs.declared.limit.TheConstants.{GREATEST_LENGTH};
ghost use Rattle.ac_model.specs.Objects.{plain, length_of};
ghost use Rattle.ac_model.specs.Letters.{tampers_cursors, room};
ghost use Rattle.ac_model.specs.Calls.{Same};
ghost use Rattle.ac_model.specs.Common as common;
ghost use Rattle.ac_model.specs.Sequences as sequences;

use super::Vector;
use crate::refilling::refill;
use ac_base::{Elem, Fault, Limit};
use ac_chain::{Walked, calls};
use ac_cursor::{Class, Tag};
use ac_model::{allowed, as_fault, limit_of_copy, too_small};
use std::alloc::Global;

impl<T: Elem> Vector<T> {
    /// Copy (A.18.2): a vector of its own number with copies of the elements. A bounded one's limit is the capacity, or the length
    /// where that is 0.
    pub fn copy(&self, alloc: Global, tag: Tag, capacity: u64) -> Result<Vector<T>, Fault>
        requires { capacity ≤ GREATEST_LENGTH }
        ensures made { Makes (common.copy_call (plain self.now.object) tag capacity) result }
        ensures slots { self.now.object.limit ≡ Limit.Unbounded → IfOk result (λ made.
            slots_of made ≤ pow8 (max (length_of self.now.object) capacity)) }
    {
        let length = self.rows.len();
        if let Some(reason) = too_small(capacity, length) {
            return Err(Fault::Raised(reason));
        }
        let limit = limit_of_copy(self.limit, capacity, length);
        let mut made = Vector::new(alloc, tag, limit)?;
        made.widen(capacity)?;
        made.assign(self)?;
        Ok(made)
    }

    /// Assign (A.18.2): copies of the source's elements take the place of the elements.
    pub fn assign(&mut self, source: &Vector<T>) -> Result<(), Fault>
        ensures changed { Does Same (λ o. common.assign_call o (plain source.now.object)) self.old self.new result }
        ensures slots { Grows result self.old self.new }
    {
        allowed(calls::refuses_refill(self, source.rows.len()))?;
        as_fault(refill(&mut self.rows, &source.rows, self.alloc))
    }
}

impl<T> Vector<T> {
    /// Assign (A.18.2) of a vector to itself.
    pub fn assign_self(&mut self) -> Result<(), Fault>
        ensures changed { Does Same common.assign_self_call self.old self.new result }
        ensures same { self.new ≡ self.old }
    {
        allowed(self.guards.forbids(Class::Cursors))
    }

    /// Move (A.18.2) of a vector to itself.
    pub fn move_from_self(&mut self) -> Result<(), Fault>
        ensures changed { Does Same common.move_from_self_call self.old self.new result }
        ensures same { self.new ≡ self.old }
    {
        self.assign_self()
    }

    /// Merge (A.18.2) of a vector with itself: refused where the vector isn't empty.
    pub fn merge_self(&mut self) -> Result<(), Fault>
        ensures changed { Does Same sequences.merge_self_call self.old self.new result }
        ensures same { self.new ≡ self.old }
    {
        allowed(calls::refuses_merge_self(self))
    }
}
