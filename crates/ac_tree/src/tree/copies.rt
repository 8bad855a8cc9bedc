//! Copies of a tree, and the calls of a tree with itself.
ghost use Rattle.std.specs.Prelude.{◌≡◌, ◌≤◌, ◌∷◌, [], IfOk, max};
ghost use Rattle.ac_base.specs.declared.limit.TheConstants.{GREATEST_LENGTH};
ghost use Rattle.ac_base.specs.FirstReason.{first_reason};
ghost use Rattle.ac_base.specs.Growth.{pow8};
ghost use Rattle.ac_model.specs.Calls.{Same};
ghost use Rattle.ac_model.specs.Common as common;
ghost use Rattle.ac_model.specs.Containers.{Grows, slots_of};
ghost use Rattle.ac_model.specs.Forms.{Does, DoesBoth, Makes, RefusesBoth};
ghost use Rattle.ac_model.specs.Letters.{tampers_cursors, room};
ghost use Rattle.ac_model.specs.Objects.{length_of, plain};

use super::Tree;
use crate::copying::{refill, take_over};
use ac_base::{Class, Elem, Fault, Limit, Reason, first_reason};
use ac_cursor::Tag;
use ac_model::{allowed, as_fault, limit_of_copy, room, too_small};
use std::alloc::Global;

impl<T> Tree<T> {
    /// Assign (A.18.10) of a tree to itself.
    pub fn assign_self(&mut self) -> Result<(), Fault>
        ensures changed { Does Same common.assign_self_call self.old self.new result }
        ensures same { self.new ≡ self.old }
    {
        allowed(self.guards.forbids(Class::Cursors))
    }

    /// Move (A.18.10) of a tree to itself.
    pub fn move_from_self(&mut self) -> Result<(), Fault>
        ensures changed { Does Same common.move_from_self_call self.old self.new result }
        ensures same { self.new ≡ self.old }
    {
        self.assign_self()
    }

    /// Why so many elements in place of its own are refused.
    fn refuses_refill(&self, length: u64) -> Option<Reason>
        ensures { result ≡ first_reason (tampers_cursors (plain self.now.object) ∷ room (plain self.now.object) length length) }
    {
        first_reason(&[
            self.guards.forbids(Class::Cursors),
            room(self.limit, self.links.nodes.next_serial(), length, length),
        ])
    }

    /// Why a move is refused.
    fn refuses_move(&self, source: &Tree<T>) -> Option<Reason>
        ensures { RefusesBoth common.move_from_call self.now source.now result }
    {
        let length = source.live_nodes();
        first_reason(&[
            self.guards.forbids(Class::Cursors),
            source.guards.forbids(Class::Cursors),
            room(self.limit, self.links.nodes.next_serial(), length, length),
        ])
    }
}

impl<T: Elem> Tree<T> {
    /// Assign (A.18.10): copies of the source's nodes take the place of the nodes.
    pub fn assign(&mut self, source: &Tree<T>) -> Result<(), Fault>
        ensures changed { Does Same (λ o. common.assign_call o (plain source.now.object)) self.old self.new result }
        ensures slots { Grows result self.old self.new }
    {
        allowed(self.refuses_refill(source.live_nodes()))?;
        as_fault(refill(&mut self.links, &source.links, self.alloc))
    }

    /// Copy (A.18.10): a tree of its own number with copies of the nodes. A bounded one's limit is the capacity, or the length
    /// where that is 0.
    pub fn copy(&self, alloc: Global, tag: Tag, capacity: u64) -> Result<Tree<T>, Fault>
        requires { capacity ≤ GREATEST_LENGTH }
        ensures made { Makes (common.copy_call (plain self.now.object) tag capacity) result }
        ensures slots { self.now.object.limit ≡ Limit.Unbounded → IfOk result (λ made.
            slots_of made ≤ pow8 (max (length_of self.now.object) capacity)) }
    {
        let length = self.live_nodes();
        if let Some(reason) = too_small(capacity, length) {
            return Err(Fault::Raised(reason));
        }
        let mut made = Tree::new(alloc, tag, limit_of_copy(self.limit, capacity, length))?;
        made.assign(self)?;
        Ok(made)
    }

    /// Move (A.18.10): the source's nodes, under new names, take the place of the nodes.
    pub fn move_from(&mut self, source: &mut Tree<T>) -> Result<(), Fault>
        ensures changed { DoesBoth Same common.move_from_call self.old source.old self.new source.new result }
        ensures slots { Grows result self.old self.new }
        ensures source { slots_of source.new ≡ slots_of source.old }
    {
        allowed(self.refuses_move(source))?;
        as_fault(take_over(&mut self.links, &mut source.links, self.alloc))
    }
}
