//! Nodes that come into a tree as copies of a subtree.
ghost use Rattle.std.specs.Prelude.{◌≡◌, ◌∷◌, [], ◌+◌, ◌^◌, ◌≤◌, ℕ, IfOk, None, length, reverse};
ghost use Rattle.ac_base.specs.Rows.{values};
ghost use Rattle.ac_base.specs.FirstReason.{first_reason, earlier};
ghost use Rattle.ac_base.specs.declared.reason.Reason.TheVariants.{RootSource};
ghost use Rattle.ac_model.specs.Calls.{Marks, Same};
ghost use Rattle.ac_model.specs.Containers.{Grows};
ghost use Rattle.ac_model.specs.Forms.{Does, Refuses};
ghost use Rattle.ac_model.specs.Letters.{reason_if, room, tampers_cursors};
ghost use Rattle.ac_model.specs.Objects.{length_of, plain};
ghost use Rattle.ac_model.specs.Outline.{depth_of};
ghost use Rattle.ac_model.specs.Putting.{Takes};
ghost use Rattle.ac_model.specs.Trees as trees;
ghost use Rattle.ac_tree.specs.Children.{IsPlace, nodes_call};
ghost use Rattle.ac_tree.specs.Copying.{nodes_in, IsForestOf};
ghost use Rattle.ac_tree.specs.TreeCursors.{serial_in};
ghost use Rattle.ac_chain.specs.TreeCursors.{seen_by};

use super::Tree;
use super::cursors::{is_root, node_in};
use crate::copying::Leveled;
use crate::counts::{count_subtree, depth};
use crate::grafting::{copied_subtree, put_nodes};
use ac_base::{Class, Cursor, Elem, Fault, Name, NoMemory, Reason, first_reason};
use ac_chain::calls::done;
use ac_model::{allowed, place_in, reason_if, room};
use std::alloc::Global;

impl<T> Tree<T> {
    /// The depth of the children of a cursor's node.
    pub(super) fn child_depth(&self, parent: Cursor) -> u64
        requires { trees.needs_node (plain self.now.object) (seen_by self.now parent) ≡ None }
        ensures depth { result ≡ trees.child_depth (plain self.now.object).rows (seen_by self.now parent) }
        ensures few { result ≤ 2 ^ 32 }
    {
        depth(&self.links, node_in(parent)) + 1
    }

    /// Why so many rows as children before a place are refused.
    pub(super) fn refuses_rows(&self, parent: Cursor, before: Cursor, more: u64) -> Option<Reason>
        requires parent { trees.needs_node (plain self.now.object) (seen_by self.now parent) ≡ None }
        requires before { trees.may_node (plain self.now.object) (seen_by self.now before) ≡ None }
        requires few { more ≤ 2 ^ 32 }
        ensures { result ≡ first_reason (trees.child_or_none (plain self.now.object) (seen_by self.now parent) (seen_by self.now before)
            ∷ room (plain self.now.object) (length_of (plain self.now.object) + more) more) }
    {
        let all = self.live_nodes() + more;
        first_reason(&[
            self.refuses_child(parent, before),
            room(self.limit, self.links.nodes.next_serial(), all, more),
        ])
    }

    /// Why a cursor that is the source of a copy is refused.
    fn may_source(&self, c: Cursor) -> Option<Reason>
        ensures { result ≡ earlier (trees.may_node (plain self.now.object) (seen_by self.now c))
            (reason_if (trees.is_root (seen_by self.now c)) RootSource) }
    {
        first_reason(&[self.may_node(c), reason_if(is_root(c), Reason::RootSource)])
    }

    /// How many rows are copied from a cursor.
    fn count_copied(&self, top: Cursor) -> u64
        requires { earlier (trees.may_node (plain self.now.object) (seen_by self.now top))
            (reason_if (trees.is_root (seen_by self.now top)) RootSource) ≡ None }
        ensures count { (depth : ℕ) → result ≡ length (trees.copied_rows depth (plain self.now.object).rows (seen_by self.now top)) }
        ensures few { result ≤ 2 ^ 32 }
    {
        match node_in(top) {
            None => 0,
            Some(name) => count_subtree(&self.links, Some(name)),
        }
    }

    /// Why the cursors of a copy are refused, before the place is looked at.
    fn refuses_cursors(
        &self,
        parent: Cursor,
        before: Cursor,
        source: &Tree<T>,
        top: Cursor,
    ) -> Option<Reason>
        ensures { result ≡ first_reason (tampers_cursors (plain self.now.object)
            ∷ trees.needs_node (plain self.now.object) (seen_by self.now parent)
            ∷ trees.may_node (plain self.now.object) (seen_by self.now before)
            ∷ earlier (trees.may_node (plain source.now.object) (seen_by source.now top))
            (reason_if (trees.is_root (seen_by source.now top)) RootSource) ∷ []) }
    {
        first_reason(&[
            self.guards.forbids(Class::Cursors),
            self.needs_node(parent),
            self.may_node(before),
            source.may_source(top),
        ])
    }

    /// Why a copy of a subtree is refused.
    fn refuses_copy(
        &self,
        parent: Cursor,
        before: Cursor,
        source: &Tree<T>,
        top: Cursor,
    ) -> Option<Reason>
        ensures { Refuses (λ o. trees.copy_subtree_call o (seen_by self.now parent) (seen_by self.now before)
            (plain source.now.object) (seen_by source.now top)) self.now result }
    {
        let cursors = self.refuses_cursors(parent, before, source, top);
        if cursors.is_some() {
            return cursors;
        }
        self.refuses_rows(parent, before, source.count_copied(top))
    }
}

impl<T: Elem> Tree<T> {
    /// Copies of what is at the cursor, the last one first, its top at the depth.
    fn copied(&self, top: Cursor, first: u64, alloc: Global) -> Result<Vec<Leveled<T>>, NoMemory>
        requires source { earlier (trees.may_node (plain self.now.object) (seen_by self.now top))
            (reason_if (trees.is_root (seen_by self.now top)) RootSource) ≡ None }
        requires first { first ≤ 2 ^ 32 }
        ensures copies { IfOk result (λ made.
            nodes_in (reverse made.items) ≡ values (trees.copied_rows first (plain self.now.object).rows (seen_by self.now top))) }
        ensures forest { IfOk result (λ made. IsForestOf first made.items) }
    {
        let _links = &self.links;
        match node_in(top) {
            None => Ok(Vec::new(alloc)),
            Some(name) => copied_subtree(&self.links, name, first, alloc),
        }
    }

    /// Puts nodes as a forest of children of the node. The answer is the first one's cursor.
    pub(super) fn put_rows(
        &mut self,
        parent: Option<Name>,
        before: Option<Name>,
        first: u64,
        items: Vec<Leveled<T>>,
    ) -> Result<Cursor, Fault>
        requires place { IsPlace self.old.object parent before }
        requires depth { first ≡ depth_of (plain self.old.object).rows (serial_in parent) + 1 }
        requires forest { IsForestOf first items.items }
        requires room { Takes self.old.object (length items.items) }
        ensures changed { Does (Marks self.new.object) (λ o. nodes_call self.old.object parent before (nodes_in (reverse items.items)))
            self.old self.new result }
        ensures slots { Grows result self.old self.new }
    {
        match put_nodes(&mut self.links, parent, before, first, items) {
            Ok(made) => Ok(self.named(made)),
            Err(_) => Err(Fault::NoMemory),
        }
    }

    /// Copy_Subtree (A.18.10) from another tree: a copy of the cursor's subtree goes before a child of the parent, where No_Element is
    /// the end. No_Element as the source changes nothing.
    pub fn copy_subtree(
        &mut self,
        parent: Cursor,
        before: Cursor,
        source: &Tree<T>,
        top: Cursor,
    ) -> Result<(), Fault>
        ensures changed { Does Same (λ o. trees.copy_subtree_call o (seen_by self.old parent) (seen_by self.old before)
            (plain source.now.object) (seen_by source.now top)) self.old self.new result }
        ensures slots { Grows result self.old self.new }
    {
        let _links = &self.links;
        allowed(self.refuses_copy(parent, before, source, top))?;
        let first = self.child_depth(parent);
        let Ok(items) = source.copied(top, first, self.alloc) else {
            return Err(Fault::NoMemory);
        };
        done(self.put_rows(node_in(parent), place_in(before), first, items))
    }

    /// Copy_Subtree (A.18.10) within the tree: the copy is of the subtree as it stood before the call, wherever it goes.
    pub fn copy_subtree_self(
        &mut self,
        parent: Cursor,
        before: Cursor,
        top: Cursor,
    ) -> Result<(), Fault>
        ensures changed { Does Same (λ o. trees.copy_subtree_call o (seen_by self.old parent) (seen_by self.old before)
            o (seen_by self.old top)) self.old self.new result }
        ensures slots { Grows result self.old self.new }
    {
        let _links = &self.links;
        allowed(self.refuses_copy(parent, before, self, top))?;
        let first = self.child_depth(parent);
        let Ok(items) = self.copied(top, first, self.alloc) else {
            return Err(Fault::NoMemory);
        };
        done(self.put_rows(node_in(parent), place_in(before), first, items))
    }
}
