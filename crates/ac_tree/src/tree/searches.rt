//! Searches for an element, and comparisons of all elements.
ghost use Rattle.std.specs.Prelude.{◌≡◌};
ghost use Rattle.ac_model.specs.Forms.{Looks};
ghost use Rattle.ac_model.specs.Objects.{plain};
ghost use Rattle.ac_model.specs.Trees as trees;
ghost use Rattle.ac_chain.specs.TreeCursors.{seen_by, NodeMarks};

use super::Tree;
use super::cursors::node_in;
use crate::comparing::same_nodes;
use crate::finding::{found_on, found_up};
use ac_base::{Cursor, Elem, Fault};
use ac_model::allowed;

impl<T: Elem> Tree<T> {
    /// Find (A.18.10): the first in preorder.
    pub fn find(&self, e: &T) -> Cursor
        ensures { NodeMarks self.now.object result (trees.find_call T.is_same (plain self.now.object) e.now) }
    {
        self.named(found_on(&self.links, None, e))
    }

    /// Contains (A.18.10).
    pub fn contains(&self, e: &T) -> bool
        ensures { result ≡ trees.contains_call T.is_same (plain self.now.object) e.now }
    {
        found_on(&self.links, None, e).is_some()
    }

    /// "=" (A.18.10): the same depths and equal elements.
    pub fn equal(&self, other: &Tree<T>) -> bool
        ensures { result ≡ trees.equal_call T.is_same (plain self.now.object) (plain other.now.object) }
    {
        same_nodes(&self.links, &other.links)
    }

    /// "=" (A.18.10) of a tree with itself, in constant time.
    pub fn equal_self(&self) -> bool
        ensures { result ≡ trees.equal_call T.is_same (plain self.now.object) (plain self.now.object) }
    {
        true
    }

    /// Find_In_Subtree (A.18.10): the first in preorder from the node itself on.
    pub fn find_in_subtree(&self, c: Cursor, e: &T) -> Result<Cursor, Fault>
        ensures { Looks (NodeMarks self.now.object) (λ o. trees.find_in_subtree_call T.is_same o (seen_by self.now c) e.now)
            self.now result }
    {
        allowed(self.needs_node(c))?;
        Ok(self.named(found_on(&self.links, node_in(c), e)))
    }

    /// Ancestor_Find (A.18.10): the nearest upwards, from the node itself on, and never the root.
    pub fn ancestor_find(&self, c: Cursor, e: &T) -> Result<Cursor, Fault>
        ensures { Looks (NodeMarks self.now.object) (λ o. trees.ancestor_find_call T.is_same o (seen_by self.now c) e.now) self.now result }
    {
        allowed(self.needs_node(c))?;
        Ok(self.named(found_up(&self.links, node_in(c), e)))
    }
}
