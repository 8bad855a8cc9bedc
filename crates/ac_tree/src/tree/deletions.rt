//! Nodes that go.
ghost use Rattle.std.specs.Prelude.{◌≡◌, ◌+◌, None};
ghost use Rattle.ac_model.specs.Calls.{IsAfter, Same};
ghost use Rattle.ac_model.specs.Common as common;
ghost use Rattle.ac_model.specs.Forms.{Does, Refuses};
ghost use Rattle.ac_model.specs.Objects.{length_of, plain};
ghost use Rattle.ac_model.specs.Trees as trees;
ghost use Rattle.ac_chain.specs.TreeCursors.{seen_by, SetsNode};

use super::Tree;
use super::cursors::node_in;
use crate::clearing::{remove_below, remove_subtree};
use ac_base::{Class, Cursor, Fault, Reason, first_reason};
use ac_model::{allowed, name_in, reason_if};
use std::mem;

impl<T> Tree<T> {
    fn is_childless(&self, position: Cursor) -> bool
        requires { trees.needs_element (plain self.now.object) (seen_by self.now position) ≡ None }
        ensures { result ≡ trees.is_leaf (plain self.now.object) (seen_by self.now position) }
    {
        self.links.first_child(node_in(position)).is_none()
    }

    /// Why the deletion of a leaf is refused.
    fn refuses_leaf(&self, position: Cursor) -> Option<Reason>
        ensures { Refuses (λ o. trees.delete_leaf_call o (seen_by self.now position)) self.now result }
    {
        let place = first_reason(&[
            self.guards.forbids(Class::Cursors),
            self.needs_element(position),
        ]);
        if place.is_some() {
            return place;
        }
        let is_leaf = self.is_childless(position);
        reason_if(!is_leaf, Reason::NotLeaf)
    }

    /// Why the deletion of a subtree is refused.
    fn refuses_subtree(&self, position: Cursor) -> Option<Reason>
        ensures { Refuses (λ o. trees.delete_subtree_call o (seen_by self.now position)) self.now result }
    {
        first_reason(&[
            self.guards.forbids(Class::Cursors),
            self.needs_element(position),
        ])
    }

    /// Why the deletion of all below a node is refused.
    fn refuses_below(&self, parent: Cursor) -> Option<Reason>
        ensures { Refuses (λ o. trees.delete_children_call o (seen_by self.now parent)) self.now result }
    {
        first_reason(&[self.guards.forbids(Class::Cursors), self.needs_node(parent)])
    }
}

impl<T: Drop> Tree<T> {
    /// Delete_Leaf (A.18.10): the node goes, and the variable is set to No_Element.
    pub fn delete_leaf(&mut self, position: &mut Cursor) -> Result<(), Fault>
        ensures changed { SetsNode (λ o. trees.delete_leaf_call o (seen_by self.old position.old))
            self.old position.old self.new position.new result }
        ensures slots { length_of self.new.object + self.new.spare ≡ length_of self.old.object + self.old.spare }
    {
        allowed(self.refuses_leaf(*position))?;
        self.links.remove(name_in(*position));
        *position = Cursor::NoElement;
        Ok(())
    }
    /// Delete_Subtree (A.18.10): the node goes with all below it, and the variable is set to No_Element.
    pub fn delete_subtree(&mut self, position: &mut Cursor) -> Result<(), Fault>
        ensures changed { SetsNode (λ o. trees.delete_subtree_call o (seen_by self.old position.old))
            self.old position.old self.new position.new result }
        ensures slots { length_of self.new.object + self.new.spare ≡ length_of self.old.object + self.old.spare }
    {
        allowed(self.refuses_subtree(*position))?;
        let top = mem::replace(position, Cursor::NoElement);
        self.take_subtree(top);
        Ok(())
    }

    pub(super) fn take_subtree(&mut self, position: Cursor)
        requires { trees.needs_element (plain self.old.object) (seen_by self.old position) ≡ None }
        ensures gone { IsAfter self.old.object self.new.object
            (trees.delete_subtree_call (plain self.old.object) (seen_by self.old position)).after }
        ensures slots { length_of self.new.object + self.new.spare ≡ length_of self.old.object + self.old.spare }
    {
        remove_subtree(&mut self.links, name_in(position));
    }

    /// Delete_Children (A.18.10): all that is below the node goes.
    pub fn delete_children(&mut self, parent: Cursor) -> Result<(), Fault>
        ensures changed { Does Same (λ o. trees.delete_children_call o (seen_by self.old parent)) self.old self.new result }
        ensures slots { length_of self.new.object + self.new.spare ≡ length_of self.old.object + self.old.spare }
    {
        allowed(self.refuses_below(parent))?;
        self.take_below(parent);
        Ok(())
    }

    pub(super) fn take_below(&mut self, parent: Cursor)
        requires { trees.needs_node (plain self.old.object) (seen_by self.old parent) ≡ None }
        ensures gone { IsAfter self.old.object self.new.object
            (trees.delete_children_call (plain self.old.object) (seen_by self.old parent)).after }
        ensures slots { length_of self.new.object + self.new.spare ≡ length_of self.old.object + self.old.spare }
    {
        remove_below(&mut self.links, node_in(parent));
    }

    /// Clear (A.18.10): the root alone is left.
    pub fn clear(&mut self) -> Result<(), Fault>
        ensures changed { Does Same common.clear_call self.old self.new result }
        ensures slots { length_of self.new.object + self.new.spare ≡ length_of self.old.object + self.old.spare }
    {
        allowed(self.guards.forbids(Class::Cursors))?;
        self.take_all();
        Ok(())
    }

    fn take_all(&mut self)
        ensures gone { IsAfter self.old.object self.new.object (common.clear_call (plain self.old.object)).after }
        ensures slots { length_of self.new.object + self.new.spare ≡ length_of self.old.object + self.old.spare }
    {
        remove_below(&mut self.links, None);
    }
}
