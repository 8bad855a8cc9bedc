//! Copies of a list, and the calls of a list with itself.
ghost use Rattle.std.specs.Prelude.{◌≡◌, ◌∷◌, [], ◌≤◌, ◌&&◌, not, max, nat_lt, IfOk};
ghost use Rattle.ac_base.specs.Growth.{pow8};
ghost use Rattle.ac_model.specs.Containers.{Grows, slots_of};
ghost use Rattle.ac_model.specs.Forms.{Does, Makes};
ghost use Rattle.ac_base.specs.FirstReason.{first_reason};
ghost use Rattle.ac_base.specs.declared.limit.TheConstants.{GREATEST_LENGTH};
ghost use Rattle.ac_model.specs.Objects.{plain, length_of};
ghost use Rattle.ac_model.specs.Letters.{tampers_cursors, room, reason_if};
ghost use Rattle.ac_model.specs.Calls.{Same};
ghost use Rattle.ac_model.specs.Common as common;
ghost use Rattle.ac_model.specs.Sequences as sequences;

use super::List;
use ac_base::{Elem, Fault, Limit};
use ac_chain::{calls, refill};
use ac_cursor::{Class, Tag};
use ac_model::{allowed, as_fault, limit_of_copy, too_small};
use std::alloc::Global;

impl<T: Elem> List<T> {
    /// Copy (A.18.3): a list of its own number with copies of the elements. A bounded one's limit is the capacity, or the length where that is 0.
    pub fn copy(&self, alloc: Global, tag: Tag, capacity: u64) -> Result<List<T>, Fault>
        requires { capacity ≤ GREATEST_LENGTH }
        ensures made { Makes (common.copy_call (plain self.now.object) tag capacity) result }
        ensures slots { self.now.object.limit ≡ Limit.Unbounded → IfOk result (λ made.
            slots_of made ≤ pow8 (max (length_of self.now.object) capacity)) }
    {
        let length = self.chain.len();
        if let Some(reason) = too_small(capacity, length) {
            return Err(Fault::Raised(reason));
        }
        let mut made = List::new(alloc, tag, limit_of_copy(self.limit, capacity, length))?;
        made.assign(self)?;
        Ok(made)
    }

    /// Assign (A.18.3): copies of the source's elements take the place of the elements.
    pub fn assign(&mut self, source: &List<T>) -> Result<(), Fault>
        ensures changed { Does Same (λ o. common.assign_call o (plain source.now.object)) self.old self.new result }
        ensures slots { Grows result self.old self.new }
    {
        allowed(calls::refuses_refill(self, source.chain.len()))?;
        as_fault(refill(&mut self.chain, &source.chain, self.alloc))
    }
}

impl<T> List<T> {
    /// Assign (A.18.3) of a list to itself.
    pub fn assign_self(&mut self) -> Result<(), Fault>
        ensures changed { Does Same common.assign_self_call self.old self.new result }
        ensures same { self.new ≡ self.old }
    {
        allowed(self.guards.forbids(Class::Cursors))
    }

    /// Move (A.18.3) of a list to itself.
    pub fn move_from_self(&mut self) -> Result<(), Fault>
        ensures changed { Does Same common.move_from_self_call self.old self.new result }
        ensures same { self.new ≡ self.old }
    {
        self.assign_self()
    }

    /// Merge (A.18.3) of a list with itself: refused where the list isn't empty.
    pub fn merge_self(&mut self) -> Result<(), Fault>
        ensures changed { Does Same sequences.merge_self_call self.old self.new result }
        ensures same { self.new ≡ self.old }
    {
        allowed(calls::refuses_merge_self(self))
    }
}
