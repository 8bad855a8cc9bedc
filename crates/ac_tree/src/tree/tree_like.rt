//! A tree, to the calls that are written over any tree.
ghost use Rattle.std.specs.Prelude.{refl};

use super::Tree;
use ac_base::{Elem, Fault};
use ac_chain::{EditedTree, TreeLike};
use ac_cursor::Cursor;

impl<T: Elem> TreeLike<T> for Tree<T> {
    ghost seen = { λ tree. tree };

    ghost no_set = { λ _. refl };

    ghost guards_seen = { λ _. refl };

    ghost given_seen = { λ _ _. refl };

    fn law(&self) {
        self.law();
    }

    fn live_nodes(&self) -> u64 {
        self.live_nodes()
    }

    fn node_count(&self) -> i64 {
        self.node_count()
    }

    fn is_empty(&self) -> bool {
        self.is_empty()
    }

    fn has_element(&self, c: Cursor) -> bool {
        self.has_element(c)
    }

    fn element(&self, c: Cursor) -> Result<&T, Fault> {
        self.element(c)
    }

    fn root(&self) -> Cursor {
        self.root()
    }

    fn is_root(&self, c: Cursor) -> Result<bool, Fault> {
        self.is_root(c)
    }

    fn is_leaf(&self, c: Cursor) -> Result<bool, Fault> {
        self.is_leaf(c)
    }

    fn depth(&self, c: Cursor) -> Result<i64, Fault> {
        self.depth(c)
    }

    fn subtree_node_count(&self, c: Cursor) -> Result<i64, Fault> {
        self.subtree_node_count(c)
    }

    fn child_count(&self, c: Cursor) -> Result<i64, Fault> {
        self.child_count(c)
    }

    fn parent(&self, c: Cursor) -> Result<Cursor, Fault> {
        self.parent(c)
    }

    fn next_sibling(&self, c: Cursor) -> Result<Cursor, Fault> {
        self.next_sibling(c)
    }

    fn previous_sibling(&self, c: Cursor) -> Result<Cursor, Fault> {
        self.previous_sibling(c)
    }

    fn first_child(&self, c: Cursor) -> Result<Cursor, Fault> {
        self.first_child(c)
    }

    fn last_child(&self, c: Cursor) -> Result<Cursor, Fault> {
        self.last_child(c)
    }

    fn find(&self, e: &T) -> Cursor {
        self.find(e)
    }

    fn contains(&self, e: &T) -> bool {
        self.contains(e)
    }

    fn find_in_subtree(&self, c: Cursor, e: &T) -> Result<Cursor, Fault> {
        self.find_in_subtree(c, e)
    }

    fn ancestor_find(&self, c: Cursor, e: &T) -> Result<Cursor, Fault> {
        self.ancestor_find(c, e)
    }

    fn equal(&self, other: &Tree<T>) -> bool {
        self.equal(other)
    }

    fn equal_self(&self) -> bool {
        self.equal_self()
    }

    fn first(&self) -> Cursor {
        self.first()
    }

    fn last(&self) -> Cursor {
        self.last()
    }

    fn next(&self, c: Cursor) -> Result<Cursor, Fault> {
        self.next(c)
    }

    fn previous(&self, c: Cursor) -> Result<Cursor, Fault> {
        self.previous(c)
    }

    fn first_level(&self) -> (Cursor, u64) {
        self.first_level()
    }

    fn next_level(&self, c: Cursor, depth: u64) -> (Cursor, u64) {
        self.next_level(c, depth)
    }
}

impl<T: Elem> EditedTree<T> for Tree<T> {
    fn clear(&mut self) -> Result<(), Fault> {
        self.clear()
    }

    fn assign_self(&mut self) -> Result<(), Fault> {
        self.assign_self()
    }

    fn move_from_self(&mut self) -> Result<(), Fault> {
        self.move_from_self()
    }

    fn assign(&mut self, source: &Tree<T>) -> Result<(), Fault> {
        self.assign(source)
    }

    fn move_from(&mut self, source: &mut Tree<T>) -> Result<(), Fault> {
        self.move_from(source)
    }

    fn replace_element(&mut self, c: Cursor, e: T) -> Result<(), Fault> {
        self.replace_element(c, e)
    }

    fn write(&mut self, c: Cursor, e: T) -> Result<(), Fault> {
        self.write(c, e)
    }

    fn swap(&mut self, first: Cursor, second: Cursor) -> Result<(), Fault> {
        self.swap(first, second)
    }

    fn insert_child(&mut self, parent: Cursor, before: Cursor, e: T, n: i64) -> Result<(), Fault> {
        self.insert_child(parent, before, e, n)
    }

    fn insert_child_pos(
        &mut self,
        parent: Cursor,
        before: Cursor,
        e: T,
        p: &mut Cursor,
        n: i64,
    ) -> Result<(), Fault> {
        self.insert_child_pos(parent, before, e, p, n)
    }

    fn append_child(&mut self, parent: Cursor, e: T, n: i64) -> Result<(), Fault> {
        self.append_child(parent, e, n)
    }

    fn prepend_child(&mut self, parent: Cursor, e: T, n: i64) -> Result<(), Fault> {
        self.prepend_child(parent, e, n)
    }

    fn delete_leaf(&mut self, position: &mut Cursor) -> Result<(), Fault> {
        self.delete_leaf(position)
    }

    fn delete_subtree(&mut self, position: &mut Cursor) -> Result<(), Fault> {
        self.delete_subtree(position)
    }

    fn delete_children(&mut self, parent: Cursor) -> Result<(), Fault> {
        self.delete_children(parent)
    }

    fn copy_subtree(
        &mut self,
        parent: Cursor,
        before: Cursor,
        source: &Tree<T>,
        top: Cursor,
    ) -> Result<(), Fault> {
        self.copy_subtree(parent, before, source, top)
    }

    fn copy_subtree_self(
        &mut self,
        parent: Cursor,
        before: Cursor,
        top: Cursor,
    ) -> Result<(), Fault> {
        self.copy_subtree_self(parent, before, top)
    }

    fn splice_subtree(
        &mut self,
        parent: Cursor,
        before: Cursor,
        position: Cursor,
    ) -> Result<(), Fault> {
        self.splice_subtree(parent, before, position)
    }

    fn splice_subtree_from(
        &mut self,
        parent: Cursor,
        before: Cursor,
        source: &mut Tree<T>,
        position: &mut Cursor,
    ) -> Result<(), Fault> {
        self.splice_subtree_from(parent, before, source, position)
    }

    fn splice_subtree_from_self(
        &mut self,
        parent: Cursor,
        before: Cursor,
        position: &mut Cursor,
    ) -> Result<(), Fault> {
        self.splice_subtree_from_self(parent, before, position)
    }

    fn splice_children(
        &mut self,
        parent: Cursor,
        before: Cursor,
        source_parent: Cursor,
    ) -> Result<(), Fault> {
        self.splice_children(parent, before, source_parent)
    }

    fn splice_children_from(
        &mut self,
        parent: Cursor,
        before: Cursor,
        source: &mut Tree<T>,
        source_parent: Cursor,
    ) -> Result<(), Fault> {
        self.splice_children_from(parent, before, source, source_parent)
    }
}
