//! The calls of trees that take nodes out, and the one that exchanges two elements.
ghost use Rattle.ac_calls.specs.Replied.{told};
ghost use Rattle.ac_tree_calls.specs.TreeCalls.{TreeChanged};

use ac_base::Fault;
use ac_calls::{Arguments, Reply, Said, ScriptElement};
use ac_chain::EditedTree;
use ac_syntax::TreeChangeCall;

#[inline(never)]
pub fn delete_leaf<T: ScriptElement, C: EditedTree<T>>(
    tree: &mut C,
    args: &Arguments,
    reply: &mut Reply,
) -> Result<(), Fault>
    ensures { TreeChanged T.tools TreeChangeCall.DeleteLeaf args.now (C.seen tree.old) (C.seen tree.new) (told reply.new result) }
{
    let mut position = args.first.cursor();
    tree.delete_leaf(&mut position)?;
    *reply = Reply::sets(0, position);
    Ok(())
}

#[inline(never)]
pub fn delete_subtree<T: ScriptElement, C: EditedTree<T>>(
    tree: &mut C,
    args: &Arguments,
    reply: &mut Reply,
) -> Result<(), Fault>
    ensures { TreeChanged T.tools TreeChangeCall.DeleteSubtree args.now (C.seen tree.old) (C.seen tree.new) (told reply.new result) }
{
    let mut position = args.first.cursor();
    tree.delete_subtree(&mut position)?;
    *reply = Reply::sets(0, position);
    Ok(())
}

#[inline(never)]
pub fn delete_children<T: ScriptElement, C: EditedTree<T>>(
    tree: &mut C,
    args: &Arguments,
    reply: &mut Reply,
) -> Result<(), Fault>
    ensures { TreeChanged T.tools TreeChangeCall.DeleteChildren args.now (C.seen tree.old) (C.seen tree.new) (told reply.new result) }
{
    tree.delete_children(args.first.cursor())?;
    reply.tell(Said::Done);
    Ok(())
}

#[inline(never)]
pub fn swap<T: ScriptElement, C: EditedTree<T>>(
    tree: &mut C,
    args: &Arguments,
    reply: &mut Reply,
) -> Result<(), Fault>
    ensures { TreeChanged T.tools TreeChangeCall.Swap args.now (C.seen tree.old) (C.seen tree.new) (told reply.new result) }
{
    tree.swap(args.first.cursor(), args.second.cursor())?;
    reply.tell(Said::Done);
    Ok(())
}
