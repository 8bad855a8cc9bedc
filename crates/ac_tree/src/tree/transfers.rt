//! Nodes that come into a tree from another one, under new names.
ghost use Rattle.std.specs.Prelude.{◌≡◌, ◌∷◌, [], ◌^◌, ◌≤◌, ℕ, None, length};
ghost use Rattle.ac_base.specs.FirstReason.{first_reason};
ghost use Rattle.ac_model.specs.Calls.{Same};
ghost use Rattle.ac_model.specs.Containers.{Grows, slots_of};
ghost use Rattle.ac_model.specs.Forms.{DoesBoth, RefusesBoth};
ghost use Rattle.ac_model.specs.Letters.{tampers_cursors};
ghost use Rattle.ac_model.specs.Objects.{plain};
ghost use Rattle.ac_model.specs.Trees as trees;
ghost use Rattle.ac_chain.specs.TreeCursors.{seen_by, NodeMarks, SetsNodeBoth};

use super::Tree;
use super::cursors::node_in;
use crate::counts::count_subtree;
use crate::grafting::{copied_below, copied_subtree};
use ac_base::{Class, Cursor, Elem, Fault, Reason, first_reason};
use ac_model::{allowed, name_in, place_in};

impl<T> Tree<T> {
    /// Why a splice from another tree is refused, before its place is looked at. The last reason is the source's cursor's.
    fn refuses_both(
        &self,
        parent: Cursor,
        before: Cursor,
        source: &Tree<T>,
        from: Option<Reason>,
    ) -> Option<Reason>
        ensures { result ≡ first_reason (tampers_cursors (plain self.now.object) ∷ tampers_cursors (plain source.now.object)
            ∷ trees.needs_node (plain self.now.object) (seen_by self.now parent)
            ∷ trees.may_node (plain self.now.object) (seen_by self.now before) ∷ from ∷ []) }
    {
        first_reason(&[
            self.guards.forbids(Class::Cursors),
            source.guards.forbids(Class::Cursors),
            self.needs_node(parent),
            self.may_node(before),
            from,
        ])
    }

    /// How many rows go with a node.
    fn count_with(&self, position: Cursor) -> u64
        requires { trees.needs_element (plain self.now.object) (seen_by self.now position) ≡ None }
        ensures count { (depth : ℕ) →
            result ≡ length (trees.subtree_at_depth depth (plain self.now.object).rows (seen_by self.now position)) }
        ensures few { result ≤ 2 ^ 32 }
    {
        count_subtree(&self.links, Some(name_in(position)))
    }

    /// How many rows are below a node.
    fn count_below(&self, parent: Cursor) -> u64
        requires { trees.needs_node (plain self.now.object) (seen_by self.now parent) ≡ None }
        ensures count { (depth : ℕ) → result ≡ length (trees.run_at_depth depth (plain self.now.object).rows (seen_by self.now parent)) }
        ensures few { result ≤ 2 ^ 32 }
    {
        count_subtree(&self.links, node_in(parent)).saturating_sub(1)
    }

    /// Why a splice of a subtree of another tree is refused.
    fn refuses_splice_from(
        &self,
        parent: Cursor,
        before: Cursor,
        source: &Tree<T>,
        position: Cursor,
    ) -> Option<Reason>
        ensures { RefusesBoth (λ o s. trees.splice_subtree_from_call o (seen_by self.now parent) (seen_by self.now before)
            s (seen_by source.now position)) self.now source.now result }
    {
        let from = source.needs_element(position);
        let cursors = self.refuses_both(parent, before, source, from);
        if cursors.is_some() {
            return cursors;
        }
        self.refuses_rows(parent, before, source.count_with(position))
    }

    /// Why a splice of the children of a node of another tree is refused.
    fn refuses_children_from(
        &self,
        parent: Cursor,
        before: Cursor,
        source: &Tree<T>,
        source_parent: Cursor,
    ) -> Option<Reason>
        ensures { RefusesBoth (λ o s. trees.splice_children_from_call o (seen_by self.now parent) (seen_by self.now before)
            s (seen_by source.now source_parent)) self.now source.now result }
    {
        let from = source.needs_node(source_parent);
        let cursors = self.refuses_both(parent, before, source, from);
        if cursors.is_some() {
            return cursors;
        }
        self.refuses_rows(parent, before, source.count_below(source_parent))
    }
}

impl<T: Elem> Tree<T> {
    /// Splice_Subtree (A.18.10) from another tree: the node goes with all below it before a child of the parent, where No_Element is
    /// the end, and the variable is set to it.
    pub fn splice_subtree_from(
        &mut self,
        parent: Cursor,
        before: Cursor,
        source: &mut Tree<T>,
        position: &mut Cursor,
    ) -> Result<(), Fault>
        ensures changed { SetsNodeBoth (λ o s. trees.splice_subtree_from_call o (seen_by self.old parent) (seen_by self.old before)
            s (seen_by source.old position.old)) self.old source.old position.old self.new source.new position.new result }
        ensures slots { Grows result self.old self.new }
        ensures source { slots_of source.new ≡ slots_of source.old }
    {
        *position = self.take_from(parent, before, source, *position)?;
        Ok(())
    }

    /// As `splice_subtree_from`, with the node's new cursor as the answer.
    fn take_from(
        &mut self,
        parent: Cursor,
        before: Cursor,
        source: &mut Tree<T>,
        position: Cursor,
    ) -> Result<Cursor, Fault>
        ensures changed { DoesBoth (NodeMarks self.new.object) (λ o s. trees.splice_subtree_from_call o (seen_by self.old parent)
            (seen_by self.old before) s (seen_by source.old position)) self.old source.old self.new source.new result }
        ensures slots { Grows result self.old self.new }
        ensures source { slots_of source.new ≡ slots_of source.old }
    {
        let _links = &self.links;
        allowed(self.refuses_splice_from(parent, before, source, position))?;
        let first = self.child_depth(parent);
        let Ok(items) = copied_subtree(&source.links, name_in(position), first, self.alloc) else {
            return Err(Fault::NoMemory);
        };
        let made = self.put_rows(node_in(parent), place_in(before), first, items)?;
        source.take_subtree(position);
        Ok(made)
    }

    /// Splice_Children (A.18.10) from another tree: all that is below the source's node goes before a child of the parent, where
    /// No_Element is the end.
    pub fn splice_children_from(
        &mut self,
        parent: Cursor,
        before: Cursor,
        source: &mut Tree<T>,
        source_parent: Cursor,
    ) -> Result<(), Fault>
        ensures changed { DoesBoth Same (λ o s. trees.splice_children_from_call o (seen_by self.old parent) (seen_by self.old before)
            s (seen_by source.old source_parent)) self.old source.old self.new source.new result }
        ensures slots { Grows result self.old self.new }
        ensures source { slots_of source.new ≡ slots_of source.old }
    {
        let _links = &self.links;
        allowed(self.refuses_children_from(parent, before, source, source_parent))?;
        let first = self.child_depth(parent);
        let Ok(items) = copied_below(&source.links, node_in(source_parent), first, self.alloc)
        else {
            return Err(Fault::NoMemory);
        };
        let _first = self.put_rows(node_in(parent), place_in(before), first, items)?;
        source.take_below(source_parent);
        Ok(())
    }
}
