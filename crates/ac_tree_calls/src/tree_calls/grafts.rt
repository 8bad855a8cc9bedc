//! The calls of trees that copy and move whole subtrees, within a tree and from another one.
ghost use Rattle.ac_calls.specs.Replied.{told};
ghost use Rattle.ac_tree_calls.specs.TreeCalls.{TreeChanged, TreeChangedWith};

use super::own_cursors;
use ac_base::Fault;
use ac_calls::{Arguments, Reply, Said, ScriptElement};
use ac_chain::EditedTree;
use ac_syntax::TreeChangeCall;

#[inline(never)]
pub fn copy_subtree_self<T: ScriptElement, C: EditedTree<T>>(
    tree: &mut C,
    args: &Arguments,
    reply: &mut Reply,
) -> Result<(), Fault>
    ensures { TreeChanged T.tools TreeChangeCall.CopySubtree args.now (C.seen tree.old) (C.seen tree.new) (told reply.new result) }
{
    let parent = args.first.cursor();
    let before = args.second.cursor();
    tree.copy_subtree_self(parent, before, args.fourth.cursor())?;
    reply.tell(Said::Done);
    Ok(())
}

#[inline(never)]
pub fn splice_subtree_from_self<T: ScriptElement, C: EditedTree<T>>(
    tree: &mut C,
    args: &Arguments,
    reply: &mut Reply,
) -> Result<(), Fault>
    ensures { TreeChanged T.tools TreeChangeCall.SpliceSubtreeFrom args.now (C.seen tree.old) (C.seen tree.new) (told reply.new result) }
{
    let parent = args.first.cursor();
    let before = args.second.cursor();
    let moved = own_cursors::splice_subtree_from_self(tree, parent, before, args.fourth.cursor())?;
    *reply = Reply::sets(3, moved);
    Ok(())
}

#[inline(never)]
pub fn splice_subtree<T: ScriptElement, C: EditedTree<T>>(
    tree: &mut C,
    args: &Arguments,
    reply: &mut Reply,
) -> Result<(), Fault>
    ensures { TreeChanged T.tools TreeChangeCall.SpliceSubtree args.now (C.seen tree.old) (C.seen tree.new) (told reply.new result) }
{
    let parent = args.first.cursor();
    let before = args.second.cursor();
    tree.splice_subtree(parent, before, args.third.cursor())?;
    reply.tell(Said::Done);
    Ok(())
}

#[inline(never)]
pub fn splice_children_from_self<T: ScriptElement, C: EditedTree<T>>(
    tree: &mut C,
    args: &Arguments,
    reply: &mut Reply,
) -> Result<(), Fault>
    ensures { TreeChanged T.tools TreeChangeCall.SpliceChildrenFrom args.now (C.seen tree.old) (C.seen tree.new) (told reply.new result) }
{
    let parent = args.first.cursor();
    let before = args.second.cursor();
    tree.splice_children(parent, before, args.fourth.cursor())?;
    reply.tell(Said::Done);
    Ok(())
}

#[inline(never)]
pub fn splice_children<T: ScriptElement, C: EditedTree<T>>(
    tree: &mut C,
    args: &Arguments,
    reply: &mut Reply,
) -> Result<(), Fault>
    ensures { TreeChanged T.tools TreeChangeCall.SpliceChildren args.now (C.seen tree.old) (C.seen tree.new) (told reply.new result) }
{
    let parent = args.first.cursor();
    let before = args.second.cursor();
    tree.splice_children(parent, before, args.third.cursor())?;
    reply.tell(Said::Done);
    Ok(())
}

#[inline(never)]
pub fn copy_subtree<T: ScriptElement, C: EditedTree<T>>(
    tree: &mut C,
    source: &C,
    args: &Arguments,
    reply: &mut Reply,
) -> Result<(), Fault>
    ensures { TreeChangedWith T.tools TreeChangeCall.CopySubtree args.now (C.seen tree.old) (C.seen source.now)
        (C.seen tree.new) (C.seen source.now) (told reply.new result) }
{
    let parent = args.first.cursor();
    let before = args.second.cursor();
    tree.copy_subtree(parent, before, source, args.fourth.cursor())?;
    reply.tell(Said::Done);
    Ok(())
}

#[inline(never)]
pub fn splice_subtree_from<T: ScriptElement, C: EditedTree<T>>(
    tree: &mut C,
    source: &mut C,
    args: &Arguments,
    reply: &mut Reply,
) -> Result<(), Fault>
    ensures { TreeChangedWith T.tools TreeChangeCall.SpliceSubtreeFrom args.now (C.seen tree.old) (C.seen source.old)
        (C.seen tree.new) (C.seen source.new) (told reply.new result) }
{
    let parent = args.first.cursor();
    let before = args.second.cursor();
    let moved = own_cursors::splice_subtree_from(
        tree,
        parent,
        before,
        source,
        args.fourth.cursor(),
    )?;
    *reply = Reply::sets(3, moved);
    Ok(())
}

#[inline(never)]
pub fn splice_children_from<T: ScriptElement, C: EditedTree<T>>(
    tree: &mut C,
    source: &mut C,
    args: &Arguments,
    reply: &mut Reply,
) -> Result<(), Fault>
    ensures { TreeChangedWith T.tools TreeChangeCall.SpliceChildrenFrom args.now (C.seen tree.old) (C.seen source.old)
        (C.seen tree.new) (C.seen source.new) (told reply.new result) }
{
    let parent = args.first.cursor();
    let before = args.second.cursor();
    tree.splice_children_from(parent, before, source, args.fourth.cursor())?;
    reply.tell(Said::Done);
    Ok(())
}
