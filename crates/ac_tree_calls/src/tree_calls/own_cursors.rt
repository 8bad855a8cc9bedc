//! The calls of trees that answer a cursor, which is the tree's own, at its root too.
ghost use Rattle.std.specs.Prelude.{◌≡◌};
ghost use Rattle.ac_model.specs.Containers.{Grows, slots_of};
ghost use Rattle.ac_model.specs.Forms.{Does, DoesBoth, Looks};
ghost use Rattle.ac_model.specs.Objects.{plain};
ghost use Rattle.ac_model.specs.Trees as trees;
ghost use Rattle.ac_chain.specs.TreeCursors.{seen_by};
ghost use Rattle.ac_calls.specs.Replied.{IsAnswer};

use ac_base::Fault;
use ac_calls::ScriptElement;
use ac_chain::{EditedTree, TreeLike};
use ac_cursor::Cursor;

pub fn root<T: ScriptElement, C: TreeLike<T>>(tree: &C) -> Cursor
    ensures { IsAnswer (C.seen tree.now).object result (trees.root_call (plain (C.seen tree.now).object)) }
{
    tree.root()
}

pub fn parent<T: ScriptElement, C: TreeLike<T>>(tree: &C, c: Cursor) -> Result<Cursor, Fault>
    ensures { Looks (IsAnswer (C.seen tree.now).object) (λ o. trees.parent_call o (seen_by (C.seen tree.now) c))
        (C.seen tree.now) result }
{
    tree.parent(c)
}

pub fn next_sibling<T: ScriptElement, C: TreeLike<T>>(tree: &C, c: Cursor) -> Result<Cursor, Fault>
    ensures { Looks (IsAnswer (C.seen tree.now).object) (λ o. trees.next_sibling_call o (seen_by (C.seen tree.now) c))
        (C.seen tree.now) result }
{
    tree.next_sibling(c)
}

pub fn previous_sibling<T: ScriptElement, C: TreeLike<T>>(
    tree: &C,
    c: Cursor,
) -> Result<Cursor, Fault>
    ensures { Looks (IsAnswer (C.seen tree.now).object) (λ o. trees.previous_sibling_call o (seen_by (C.seen tree.now) c))
        (C.seen tree.now) result }
{
    tree.previous_sibling(c)
}

pub fn first_child<T: ScriptElement, C: TreeLike<T>>(tree: &C, c: Cursor) -> Result<Cursor, Fault>
    ensures { Looks (IsAnswer (C.seen tree.now).object) (λ o. trees.first_child_call o (seen_by (C.seen tree.now) c))
        (C.seen tree.now) result }
{
    tree.first_child(c)
}

pub fn last_child<T: ScriptElement, C: TreeLike<T>>(tree: &C, c: Cursor) -> Result<Cursor, Fault>
    ensures { Looks (IsAnswer (C.seen tree.now).object) (λ o. trees.last_child_call o (seen_by (C.seen tree.now) c))
        (C.seen tree.now) result }
{
    tree.last_child(c)
}

pub fn find<T: ScriptElement, C: TreeLike<T>>(tree: &C, element: &T) -> Cursor
    ensures { IsAnswer (C.seen tree.now).object result (trees.find_call T.tools.same (plain (C.seen tree.now).object) element.now) }
{
    tree.find(element)
}

pub fn find_in_subtree<T: ScriptElement, C: TreeLike<T>>(
    tree: &C,
    c: Cursor,
    element: &T,
) -> Result<Cursor, Fault>
    ensures { Looks (IsAnswer (C.seen tree.now).object)
        (λ o. trees.find_in_subtree_call T.tools.same o (seen_by (C.seen tree.now) c) element.now) (C.seen tree.now) result }
{
    tree.find_in_subtree(c, element)
}

pub fn ancestor_find<T: ScriptElement, C: TreeLike<T>>(
    tree: &C,
    c: Cursor,
    element: &T,
) -> Result<Cursor, Fault>
    ensures { Looks (IsAnswer (C.seen tree.now).object)
        (λ o. trees.ancestor_find_call T.tools.same o (seen_by (C.seen tree.now) c) element.now) (C.seen tree.now) result }
{
    tree.ancestor_find(c, element)
}

/// The first new child's cursor, or the one before which none is put.
pub fn insert_child_pos<T: ScriptElement, C: EditedTree<T>>(
    tree: &mut C,
    parent: Cursor,
    before: Cursor,
    element: T,
    count: i64,
) -> Result<Cursor, Fault>
    ensures changed { Does (IsAnswer (C.seen tree.new).object)
        (λ o. trees.insert_child_pos_call o (seen_by (C.seen tree.old) parent) (seen_by (C.seen tree.old) before) element count)
        (C.seen tree.old) (C.seen tree.new) result }
    ensures slots { Grows result (C.seen tree.old) (C.seen tree.new) }
{
    let mut first = before;
    tree.insert_child_pos(parent, before, element, &mut first, count)?;
    Ok(first)
}

/// What the cursor becomes.
pub fn splice_subtree_from_self<T: ScriptElement, C: EditedTree<T>>(
    tree: &mut C,
    parent: Cursor,
    before: Cursor,
    top: Cursor,
) -> Result<Cursor, Fault>
    ensures changed { Does (IsAnswer (C.seen tree.new).object)
        (λ o. trees.splice_subtree_from_self_call o (seen_by (C.seen tree.old) parent) (seen_by (C.seen tree.old) before)
        (seen_by (C.seen tree.old) top))
        (C.seen tree.old) (C.seen tree.new) result }
    ensures spare { (C.seen tree.new).spare ≡ (C.seen tree.old).spare }
{
    let mut moved = top;
    tree.splice_subtree_from_self(parent, before, &mut moved)?;
    Ok(moved)
}

/// The cursor of the subtree's top where it is now.
pub fn splice_subtree_from<T: ScriptElement, C: EditedTree<T>>(
    tree: &mut C,
    parent: Cursor,
    before: Cursor,
    source: &mut C,
    top: Cursor,
) -> Result<Cursor, Fault>
    ensures changed { DoesBoth (IsAnswer (C.seen tree.new).object)
        (λ o s. trees.splice_subtree_from_call o (seen_by (C.seen tree.old) parent) (seen_by (C.seen tree.old) before)
        s (seen_by (C.seen source.old) top))
        (C.seen tree.old) (C.seen source.old) (C.seen tree.new) (C.seen source.new) result }
    ensures slots { Grows result (C.seen tree.old) (C.seen tree.new) }
    ensures source { slots_of (C.seen source.new) ≡ slots_of (C.seen source.old) }
{
    let mut moved = top;
    tree.splice_subtree_from(parent, before, source, &mut moved)?;
    Ok(moved)
}
