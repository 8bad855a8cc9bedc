//! Questions about one node.
ghost use Rattle.std.specs.Prelude.{◌≡◌};
ghost use Rattle.ac_model.specs.Calls.{Lends, Same};
ghost use Rattle.ac_model.specs.Common as common;
ghost use Rattle.ac_model.specs.Forms.{Looks};
ghost use Rattle.ac_model.specs.Objects.{plain};
ghost use Rattle.ac_model.specs.Trees as trees;
ghost use Rattle.ac_chain.specs.TreeCursors.{seen_by, NodeMarks};

use super::Tree;
use super::cursors::{is_root, node_in};
use crate::counts::{as_number, count_children, count_subtree, depth};
use ac_base::{Cursor, Fault};
use ac_model::{allowed, name_in};

impl<T> Tree<T> {
    /// Root (A.18.10).
    pub fn root(&self) -> Cursor
        ensures { NodeMarks self.now.object result (trees.root_call (plain self.now.object)) }
    {
        self.at_node(None)
    }

    /// Has_Element (A.18.10): false for the root, for a cursor of another tree, and for one whose element is gone.
    pub fn has_element(&self, c: Cursor) -> bool
        ensures { result ≡ common.has_element_call (plain self.now.object) (seen_by self.now c) }
    {
        let _links = &self.links;
        self.needs_element(c).is_none()
    }

    /// Is_Root (A.18.10).
    pub fn is_root(&self, c: Cursor) -> Result<bool, Fault>
        ensures { Looks Same (λ o. trees.is_root_call o (seen_by self.now c)) self.now result }
    {
        allowed(self.may_node(c))?;
        Ok(is_root(c))
    }

    /// Is_Leaf (A.18.10): true for the root of an empty tree.
    pub fn is_leaf(&self, c: Cursor) -> Result<bool, Fault>
        ensures { Looks Same (λ o. trees.is_leaf_call o (seen_by self.now c)) self.now result }
    {
        if c == Cursor::NoElement {
            return Ok(false);
        }
        allowed(self.needs_node(c))?;
        Ok(self.links.first_child(node_in(c)).is_none())
    }

    /// Depth (A.18.10): the root's is 1.
    pub fn depth(&self, c: Cursor) -> Result<i64, Fault>
        ensures { Looks Same (λ o. trees.depth_call o (seen_by self.now c)) self.now result }
    {
        if c == Cursor::NoElement {
            return Ok(0);
        }
        allowed(self.needs_node(c))?;
        Ok(as_number(depth(&self.links, node_in(c))))
    }

    /// Subtree_Node_Count (A.18.10): the node itself counts.
    pub fn subtree_node_count(&self, c: Cursor) -> Result<i64, Fault>
        ensures { Looks Same (λ o. trees.subtree_node_count_call o (seen_by self.now c)) self.now result }
    {
        if c == Cursor::NoElement {
            return Ok(0);
        }
        allowed(self.needs_node(c))?;
        Ok(as_number(count_subtree(&self.links, node_in(c))))
    }

    /// Child_Count (A.18.10).
    pub fn child_count(&self, c: Cursor) -> Result<i64, Fault>
        ensures { Looks Same (λ o. trees.child_count_call o (seen_by self.now c)) self.now result }
    {
        allowed(self.needs_node(c))?;
        Ok(as_number(count_children(&self.links, node_in(c))))
    }

    /// Element (A.18.10).
    pub fn element(&self, c: Cursor) -> Result<&T, Fault>
        ensures { Looks Lends (λ o. trees.element_call o (seen_by self.now c)) self.now result }
    {
        allowed(self.needs_element(c))?;
        Ok(self.links.at(name_in(c)))
    }
}
