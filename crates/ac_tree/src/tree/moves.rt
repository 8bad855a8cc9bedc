//! From one node to the next: parents, children and siblings.
ghost use Rattle.ac_model.specs.Forms.{Looks};
ghost use Rattle.ac_model.specs.Trees as trees;
ghost use Rattle.ac_chain.specs.TreeCursors.{seen_by, NodeMarks};

use super::Tree;
use super::cursors::node_in;
use ac_base::{Cursor, Fault};
use ac_model::allowed;

impl<T> Tree<T> {
    /// Parent (A.18.10): the root's is No_Element.
    pub fn parent(&self, c: Cursor) -> Result<Cursor, Fault>
        ensures { Looks (NodeMarks self.now.object) (λ o. trees.parent_call o (seen_by self.now c)) self.now result }
    {
        allowed(self.may_node(c))?;
        match node_in(c) {
            None => Ok(Cursor::NoElement),
            Some(name) => Ok(self.at_node(self.links.parent(name))),
        }
    }

    /// Next_Sibling (A.18.10).
    pub fn next_sibling(&self, c: Cursor) -> Result<Cursor, Fault>
        ensures { Looks (NodeMarks self.now.object) (λ o. trees.next_sibling_call o (seen_by self.now c)) self.now result }
    {
        allowed(self.may_node(c))?;
        match node_in(c) {
            None => Ok(Cursor::NoElement),
            Some(name) => Ok(self.named(self.links.next(name))),
        }
    }

    /// Previous_Sibling (A.18.10).
    pub fn previous_sibling(&self, c: Cursor) -> Result<Cursor, Fault>
        ensures { Looks (NodeMarks self.now.object) (λ o. trees.previous_sibling_call o (seen_by self.now c)) self.now result }
    {
        allowed(self.may_node(c))?;
        match node_in(c) {
            None => Ok(Cursor::NoElement),
            Some(name) => Ok(self.named(self.links.prev(name))),
        }
    }

    /// First_Child (A.18.10).
    pub fn first_child(&self, c: Cursor) -> Result<Cursor, Fault>
        ensures { Looks (NodeMarks self.now.object) (λ o. trees.first_child_call o (seen_by self.now c)) self.now result }
    {
        allowed(self.needs_node(c))?;
        Ok(self.named(self.links.first_child(node_in(c))))
    }

    /// Last_Child (A.18.10).
    pub fn last_child(&self, c: Cursor) -> Result<Cursor, Fault>
        ensures { Looks (NodeMarks self.now.object) (λ o. trees.last_child_call o (seen_by self.now c)) self.now result }
    {
        allowed(self.needs_node(c))?;
        Ok(self.named(self.links.last_child(node_in(c))))
    }
}
