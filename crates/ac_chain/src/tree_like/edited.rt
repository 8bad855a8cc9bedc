//! What is asked of a multiway tree that is changed.
ghost use Rattle.std.specs.Prelude.{◌≡◌};
ghost use Rattle.ac_chain.specs.TreeCursors.{SetsNode, SetsNodeBoth, seen_by};
ghost use Rattle.ac_model.specs.Calls.{Same};
ghost use Rattle.ac_model.specs.Common as common;
ghost use Rattle.ac_model.specs.Containers.{Grows, slots_of};
ghost use Rattle.ac_model.specs.Forms.{Does, DoesBoth};
ghost use Rattle.ac_model.specs.Objects.{plain};
ghost use Rattle.ac_model.specs.Trees as trees;

use super::TreeLike;
use ac_base::{Elem, Fault};
use ac_cursor::Cursor;

/// A multiway tree (A.18.10) that is changed. Where a call has no element or copy to put, the slots stay.
pub trait EditedTree<T: Elem>: TreeLike<T> {
    fn clear(&mut self) -> Result<(), Fault>
        ensures changed { Does Same common.clear_call (Self.seen self.old) (Self.seen self.new) result }
        ensures slots { slots_of (Self.seen self.new) ≡ slots_of (Self.seen self.old) };

    fn assign_self(&mut self) -> Result<(), Fault>
        ensures changed { Does Same common.assign_self_call (Self.seen self.old) (Self.seen self.new) result }
        ensures same { Self.seen self.new ≡ Self.seen self.old };

    fn move_from_self(&mut self) -> Result<(), Fault>
        ensures changed { Does Same common.move_from_self_call (Self.seen self.old) (Self.seen self.new) result }
        ensures same { Self.seen self.new ≡ Self.seen self.old };

    fn assign(&mut self, source: &Self) -> Result<(), Fault>
        ensures changed { Does Same (λ o. common.assign_call o (plain (Self.seen source.now).object))
            (Self.seen self.old) (Self.seen self.new) result }
        ensures slots { Grows result (Self.seen self.old) (Self.seen self.new) };

    fn move_from(&mut self, source: &mut Self) -> Result<(), Fault>
        ensures changed { DoesBoth Same common.move_from_call (Self.seen self.old) (Self.seen source.old)
            (Self.seen self.new) (Self.seen source.new) result }
        ensures slots { Grows result (Self.seen self.old) (Self.seen self.new) }
        ensures source { slots_of (Self.seen source.new) ≡ slots_of (Self.seen source.old) };

    fn replace_element(&mut self, c: Cursor, e: T) -> Result<(), Fault>
        ensures changed { Does Same (λ o. trees.replace_element_call o (seen_by (Self.seen self.old) c) e)
            (Self.seen self.old) (Self.seen self.new) result }
        ensures spare { (Self.seen self.new).spare ≡ (Self.seen self.old).spare };

    /// Writes through a name that a view or a loop gives for the element: no tampering check.
    fn write(&mut self, c: Cursor, e: T) -> Result<(), Fault>
        ensures changed { Does Same (λ o. trees.write_call o (seen_by (Self.seen self.old) c) e)
            (Self.seen self.old) (Self.seen self.new) result }
        ensures spare { (Self.seen self.new).spare ≡ (Self.seen self.old).spare };

    fn swap(&mut self, first: Cursor, second: Cursor) -> Result<(), Fault>
        ensures changed { Does Same (λ o. trees.swap_call o (seen_by (Self.seen self.old) first) (seen_by (Self.seen self.old) second))
            (Self.seen self.old) (Self.seen self.new) result }
        ensures spare { (Self.seen self.new).spare ≡ (Self.seen self.old).spare };

    fn insert_child(&mut self, parent: Cursor, before: Cursor, e: T, n: i64) -> Result<(), Fault>
        ensures changed { Does Same (λ o. trees.insert_child_call o (seen_by (Self.seen self.old) parent)
            (seen_by (Self.seen self.old) before) e n) (Self.seen self.old) (Self.seen self.new) result }
        ensures slots { Grows result (Self.seen self.old) (Self.seen self.new) };

    /// Sets the variable to the first of the new children, or to the cursor before which none is put.
    fn insert_child_pos(
        &mut self,
        parent: Cursor,
        before: Cursor,
        e: T,
        p: &mut Cursor,
        n: i64,
    ) -> Result<(), Fault>
        ensures changed { SetsNode (λ o. trees.insert_child_pos_call o (seen_by (Self.seen self.old) parent)
            (seen_by (Self.seen self.old) before) e n) (Self.seen self.old) p.old (Self.seen self.new) p.new result }
        ensures slots { Grows result (Self.seen self.old) (Self.seen self.new) };

    fn append_child(&mut self, parent: Cursor, e: T, n: i64) -> Result<(), Fault>
        ensures changed { Does Same (λ o. trees.append_child_call o (seen_by (Self.seen self.old) parent) e n)
            (Self.seen self.old) (Self.seen self.new) result }
        ensures slots { Grows result (Self.seen self.old) (Self.seen self.new) };

    fn prepend_child(&mut self, parent: Cursor, e: T, n: i64) -> Result<(), Fault>
        ensures changed { Does Same (λ o. trees.prepend_child_call o (seen_by (Self.seen self.old) parent) e n)
            (Self.seen self.old) (Self.seen self.new) result }
        ensures slots { Grows result (Self.seen self.old) (Self.seen self.new) };

    fn delete_leaf(&mut self, position: &mut Cursor) -> Result<(), Fault>
        ensures changed { SetsNode (λ o. trees.delete_leaf_call o (seen_by (Self.seen self.old) position.old))
            (Self.seen self.old) position.old (Self.seen self.new) position.new result }
        ensures slots { slots_of (Self.seen self.new) ≡ slots_of (Self.seen self.old) };

    fn delete_subtree(&mut self, position: &mut Cursor) -> Result<(), Fault>
        ensures changed { SetsNode (λ o. trees.delete_subtree_call o (seen_by (Self.seen self.old) position.old))
            (Self.seen self.old) position.old (Self.seen self.new) position.new result }
        ensures slots { slots_of (Self.seen self.new) ≡ slots_of (Self.seen self.old) };

    fn delete_children(&mut self, parent: Cursor) -> Result<(), Fault>
        ensures changed { Does Same (λ o. trees.delete_children_call o (seen_by (Self.seen self.old) parent))
            (Self.seen self.old) (Self.seen self.new) result }
        ensures slots { slots_of (Self.seen self.new) ≡ slots_of (Self.seen self.old) };

    fn copy_subtree(
        &mut self,
        parent: Cursor,
        before: Cursor,
        source: &Self,
        top: Cursor,
    ) -> Result<(), Fault>
        ensures changed { Does Same (λ o. trees.copy_subtree_call o (seen_by (Self.seen self.old) parent)
            (seen_by (Self.seen self.old) before) (plain (Self.seen source.now).object) (seen_by (Self.seen source.now) top))
            (Self.seen self.old) (Self.seen self.new) result }
        ensures slots { Grows result (Self.seen self.old) (Self.seen self.new) };

    fn copy_subtree_self(
        &mut self,
        parent: Cursor,
        before: Cursor,
        top: Cursor,
    ) -> Result<(), Fault>
        ensures changed { Does Same (λ o. trees.copy_subtree_call o (seen_by (Self.seen self.old) parent)
            (seen_by (Self.seen self.old) before) o (seen_by (Self.seen self.old) top))
            (Self.seen self.old) (Self.seen self.new) result }
        ensures slots { Grows result (Self.seen self.old) (Self.seen self.new) };

    fn splice_subtree(
        &mut self,
        parent: Cursor,
        before: Cursor,
        position: Cursor,
    ) -> Result<(), Fault>
        ensures changed { Does Same (λ o. trees.splice_subtree_call o (seen_by (Self.seen self.old) parent)
            (seen_by (Self.seen self.old) before) (seen_by (Self.seen self.old) position))
            (Self.seen self.old) (Self.seen self.new) result }
        ensures spare { (Self.seen self.new).spare ≡ (Self.seen self.old).spare };

    fn splice_subtree_from(
        &mut self,
        parent: Cursor,
        before: Cursor,
        source: &mut Self,
        position: &mut Cursor,
    ) -> Result<(), Fault>
        ensures changed { SetsNodeBoth (λ o s. trees.splice_subtree_from_call o (seen_by (Self.seen self.old) parent)
            (seen_by (Self.seen self.old) before) s (seen_by (Self.seen source.old) position.old))
            (Self.seen self.old) (Self.seen source.old) position.old (Self.seen self.new) (Self.seen source.new) position.new result }
        ensures slots { Grows result (Self.seen self.old) (Self.seen self.new) }
        ensures source { slots_of (Self.seen source.new) ≡ slots_of (Self.seen source.old) };

    fn splice_subtree_from_self(
        &mut self,
        parent: Cursor,
        before: Cursor,
        position: &mut Cursor,
    ) -> Result<(), Fault>
        ensures changed { SetsNode (λ o. trees.splice_subtree_from_self_call o (seen_by (Self.seen self.old) parent)
            (seen_by (Self.seen self.old) before) (seen_by (Self.seen self.old) position.old))
            (Self.seen self.old) position.old (Self.seen self.new) position.new result }
        ensures spare { (Self.seen self.new).spare ≡ (Self.seen self.old).spare };

    fn splice_children(
        &mut self,
        parent: Cursor,
        before: Cursor,
        source_parent: Cursor,
    ) -> Result<(), Fault>
        ensures changed { Does Same (λ o. trees.splice_children_call o (seen_by (Self.seen self.old) parent)
            (seen_by (Self.seen self.old) before) (seen_by (Self.seen self.old) source_parent))
            (Self.seen self.old) (Self.seen self.new) result }
        ensures spare { (Self.seen self.new).spare ≡ (Self.seen self.old).spare };

    fn splice_children_from(
        &mut self,
        parent: Cursor,
        before: Cursor,
        source: &mut Self,
        source_parent: Cursor,
    ) -> Result<(), Fault>
        ensures changed { DoesBoth Same (λ o s. trees.splice_children_from_call o (seen_by (Self.seen self.old) parent)
            (seen_by (Self.seen self.old) before) s (seen_by (Self.seen source.old) source_parent))
            (Self.seen self.old) (Self.seen source.old) (Self.seen self.new) (Self.seen source.new) result }
        ensures slots { Grows result (Self.seen self.old) (Self.seen self.new) }
        ensures source { slots_of (Self.seen source.new) ≡ slots_of (Self.seen source.old) };
}
