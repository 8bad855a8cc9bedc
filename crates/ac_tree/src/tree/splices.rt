//! Nodes that go to another place with all that is below them.
ghost use Rattle.std.specs.Prelude.{◌≡◌, ◌∷◌, [], IfOk, None};
ghost use Rattle.ac_base.specs.FirstReason.{first_reason};
ghost use Rattle.ac_model.specs.Calls.{IsAfter, Same};
ghost use Rattle.ac_model.specs.Forms.{Does};
ghost use Rattle.ac_model.specs.Letters.{name_of, tampers_cursors};
ghost use Rattle.ac_model.specs.Objects.{plain};
ghost use Rattle.ac_model.specs.Outline.{is_in_subtree};
ghost use Rattle.ac_model.specs.Trees as trees;
ghost use Rattle.ac_chain.specs.TreeCursors.{seen_by, SetsNode};

use super::Tree;
use super::cursors::node_in;
use crate::finding::is_within;
use crate::links::is_same;
use ac_base::{Class, Cursor, Fault, Reason, first_reason};
use ac_model::{allowed, name_in, place_in, reason_if};

impl<T> Tree<T> {
    /// Why the cursors of a splice within the tree are refused, before the place is looked at.
    fn refuses_nodes(&self, parent: Cursor, before: Cursor, position: Cursor) -> Option<Reason>
        ensures { result ≡ first_reason (tampers_cursors (plain self.now.object)
            ∷ trees.needs_node (plain self.now.object) (seen_by self.now parent)
            ∷ trees.may_node (plain self.now.object) (seen_by self.now before)
            ∷ trees.needs_element (plain self.now.object) (seen_by self.now position) ∷ []) }
    {
        first_reason(&[
            self.guards.forbids(Class::Cursors),
            self.needs_node(parent),
            self.may_node(before),
            self.needs_element(position),
        ])
    }

    /// Whether the first cursor's node is in the subtree of the second's.
    fn is_inside(&self, parent: Cursor, position: Cursor) -> bool
        requires parent { trees.needs_node (plain self.now.object) (seen_by self.now parent) ≡ None }
        requires position { trees.needs_element (plain self.now.object) (seen_by self.now position) ≡ None }
        ensures { result ≡ is_in_subtree (plain self.now.object).rows (name_of (seen_by self.now position))
            (name_of (seen_by self.now parent)) }
    {
        is_within(&self.links, name_in(position), node_in(parent))
    }

    /// Why a splice of a subtree within the tree is refused.
    fn refuses_splice(&self, parent: Cursor, before: Cursor, position: Cursor) -> Option<Reason>
        ensures { result ≡ trees.splice_subtree_reason (plain self.now.object)
            (seen_by self.now parent) (seen_by self.now before) (seen_by self.now position) }
    {
        let nodes = self.refuses_nodes(parent, before, position);
        if nodes.is_some() {
            return nodes;
        }
        let is_inside = self.is_inside(parent, position);
        first_reason(&[
            self.refuses_child(parent, before),
            reason_if(is_inside, Reason::BelowItself),
        ])
    }

    /// Splice_Subtree (A.18.10) within the tree: the node goes with all below it before a child of the parent, where No_Element
    /// is the end, and all names are kept.
    pub fn splice_subtree(
        &mut self,
        parent: Cursor,
        before: Cursor,
        position: Cursor,
    ) -> Result<(), Fault>
        ensures changed { Does Same (λ o. trees.splice_subtree_call o (seen_by self.old parent) (seen_by self.old before)
            (seen_by self.old position)) self.old self.new result }
        ensures kept { IfOk result (λ _. seen_by self.new position ≡ seen_by self.old position) }
        ensures spare { self.new.spare ≡ self.old.spare }
    {
        allowed(self.refuses_splice(parent, before, position))?;
        self.relocate(parent, before, position);
        Ok(())
    }

    /// As `splice_subtree`, with a variable for the node, which keeps its value.
    pub fn splice_subtree_from_self(
        &mut self,
        parent: Cursor,
        before: Cursor,
        position: &mut Cursor,
    ) -> Result<(), Fault>
        ensures changed { SetsNode (λ o. trees.splice_subtree_from_self_call o (seen_by self.old parent) (seen_by self.old before)
            (seen_by self.old position.old)) self.old position.old self.new position.new result }
        ensures spare { self.new.spare ≡ self.old.spare }
        ensures same { position.new ≡ position.old }
    {
        self.splice_subtree(parent, before, *position)
    }

    /// Moves the subtree, unless it would go before itself.
    fn relocate(&mut self, parent: Cursor, before: Cursor, position: Cursor)
        requires { trees.splice_subtree_reason (plain self.old.object)
            (seen_by self.old parent) (seen_by self.old before) (seen_by self.old position) ≡ None }
        ensures moved { IsAfter self.old.object self.new.object (trees.splice_subtree_call (plain self.old.object)
            (seen_by self.old parent) (seen_by self.old before) (seen_by self.old position)).after }
        ensures kept { seen_by self.new position ≡ seen_by self.old position }
        ensures spare { self.new.spare ≡ self.old.spare }
    {
        let _links = &self.links;
        let name = name_in(position);
        let next = place_in(before);
        if is_same(next, Some(name)) {
            return;
        }
        self.links.move_to(name, node_in(parent), next);
    }
}
