//! Children of a node that go to another place in the tree.
ghost use Rattle.std.specs.Prelude.{◌≡◌, ◌∷◌, [], None};
ghost use Rattle.ac_base.specs.FirstReason.{first_reason};
ghost use Rattle.ac_model.specs.Calls.{IsAfter, Same};
ghost use Rattle.ac_model.specs.Forms.{Does, Refuses};
ghost use Rattle.ac_model.specs.Letters.{name_of, tampers_cursors};
ghost use Rattle.ac_model.specs.Objects.{plain};
ghost use Rattle.ac_model.specs.Outline.{is_in, run_of};
ghost use Rattle.ac_model.specs.Trees as trees;
ghost use Rattle.ac_chain.specs.TreeCursors.{seen_by};

use super::Tree;
use super::cursors::node_in;
use crate::finding::is_under;
use crate::links::is_same;
use crate::reparenting::move_children;
use ac_base::{Class, Cursor, Fault, Reason, first_reason};
use ac_model::{allowed, place_in, reason_if};

impl<T> Tree<T> {
    /// Why the cursors of a splice of children within the tree are refused, before the place is looked at.
    fn refuses_parents(
        &self,
        parent: Cursor,
        before: Cursor,
        source_parent: Cursor,
    ) -> Option<Reason>
        ensures { result ≡ first_reason (tampers_cursors (plain self.now.object)
            ∷ trees.needs_node (plain self.now.object) (seen_by self.now parent)
            ∷ trees.may_node (plain self.now.object) (seen_by self.now before)
            ∷ trees.needs_node (plain self.now.object) (seen_by self.now source_parent) ∷ []) }
    {
        first_reason(&[
            self.guards.forbids(Class::Cursors),
            self.needs_node(parent),
            self.may_node(before),
            self.needs_node(source_parent),
        ])
    }

    /// Whether the first cursor's node is below the second's.
    fn is_below(&self, parent: Cursor, source_parent: Cursor) -> bool
        requires parent { trees.needs_node (plain self.now.object) (seen_by self.now parent) ≡ None }
        requires source { trees.needs_node (plain self.now.object) (seen_by self.now source_parent) ≡ None }
        ensures { result ≡ is_in (name_of (seen_by self.now parent))
            (run_of (plain self.now.object).rows (name_of (seen_by self.now source_parent))) }
    {
        is_under(&self.links, node_in(source_parent), node_in(parent))
    }

    /// Why a splice of children within the tree is refused.
    fn refuses_splice_children(
        &self,
        parent: Cursor,
        before: Cursor,
        source_parent: Cursor,
    ) -> Option<Reason>
        ensures { Refuses (λ o. trees.splice_children_call o (seen_by self.now parent) (seen_by self.now before)
            (seen_by self.now source_parent)) self.now result }
    {
        let cursors = self.refuses_parents(parent, before, source_parent);
        if cursors.is_some() {
            return cursors;
        }
        let is_below = self.is_below(parent, source_parent);
        first_reason(&[
            self.refuses_child(parent, before),
            reason_if(is_below, Reason::BelowItself),
        ])
    }

    /// Splice_Children (A.18.10) within the tree: all children of the last cursor's node go, in their order and with all below them,
    /// before a child of the parent, where No_Element is the end. All names are kept, and with equal parents nothing changes.
    pub fn splice_children(
        &mut self,
        parent: Cursor,
        before: Cursor,
        source_parent: Cursor,
    ) -> Result<(), Fault>
        ensures changed { Does Same (λ o. trees.splice_children_call o (seen_by self.old parent) (seen_by self.old before)
            (seen_by self.old source_parent)) self.old self.new result }
        ensures spare { self.new.spare ≡ self.old.spare }
    {
        allowed(self.refuses_splice_children(parent, before, source_parent))?;
        self.move_below(parent, before, source_parent);
        Ok(())
    }

    /// `splice_children_from` of the tree itself: as `splice_children`.
    pub fn splice_children_from_self(
        &mut self,
        parent: Cursor,
        before: Cursor,
        source_parent: Cursor,
    ) -> Result<(), Fault>
        ensures changed { Does Same (λ o. trees.splice_children_call o (seen_by self.old parent) (seen_by self.old before)
            (seen_by self.old source_parent)) self.old self.new result }
        ensures spare { self.new.spare ≡ self.old.spare }
    {
        self.splice_children(parent, before, source_parent)
    }

    /// Moves the children, unless they are the parent's own.
    fn move_below(&mut self, parent: Cursor, before: Cursor, source_parent: Cursor)
        requires { (trees.splice_children_call (plain self.old.object)
            (seen_by self.old parent) (seen_by self.old before) (seen_by self.old source_parent)).reason ≡ None }
        ensures moved { IsAfter self.old.object self.new.object (trees.splice_children_call (plain self.old.object)
            (seen_by self.old parent) (seen_by self.old before) (seen_by self.old source_parent)).after }
        ensures spare { self.new.spare ≡ self.old.spare }
    {
        let _links = &self.links;
        let from = node_in(source_parent);
        let to = node_in(parent);
        if is_same(to, from) {
            return;
        }
        move_children(&mut self.links, from, to, place_in(before));
    }
}
