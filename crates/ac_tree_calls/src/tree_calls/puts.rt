//! The calls of trees that put new nodes into them.
ghost use Rattle.ac_calls.specs.Replied.{told};
ghost use Rattle.ac_tree_calls.specs.TreeCalls.{TreeChanged};

use super::own_cursors;
use ac_base::Fault;
use ac_calls::{Arguments, Reply, Said, ScriptElement};
use ac_chain::EditedTree;
use ac_syntax::TreeChangeCall;
use std::alloc::Global;

#[inline(never)]
pub fn insert_child<T: ScriptElement, C: EditedTree<T>>(
    tree: &mut C,
    alloc: Global,
    args: &mut Arguments,
    reply: &mut Reply,
) -> Result<(), Fault>
    ensures { TreeChanged T.tools TreeChangeCall.InsertChild args.old (C.seen tree.old) (C.seen tree.new) (told reply.new result) }
{
    let parent = args.first.cursor();
    let before = args.second.cursor();
    let count = args.fourth.count();
    let element = T::from_value(alloc, args.third.take_value())?;
    tree.insert_child(parent, before, element, count)?;
    reply.tell(Said::Done);
    Ok(())
}

#[inline(never)]
pub fn insert_child_pos<T: ScriptElement, C: EditedTree<T>>(
    tree: &mut C,
    alloc: Global,
    args: &mut Arguments,
    reply: &mut Reply,
) -> Result<(), Fault>
    ensures { TreeChanged T.tools TreeChangeCall.InsertChildPos args.old (C.seen tree.old) (C.seen tree.new) (told reply.new result) }
{
    let parent = args.first.cursor();
    let before = args.second.cursor();
    let count = args.fifth;
    let element = T::from_value(alloc, args.third.take_value())?;
    let first = own_cursors::insert_child_pos(tree, parent, before, element, count)?;
    *reply = Reply::sets(3, first);
    Ok(())
}

#[inline(never)]
pub fn append_child<T: ScriptElement, C: EditedTree<T>>(
    tree: &mut C,
    alloc: Global,
    args: &mut Arguments,
    reply: &mut Reply,
) -> Result<(), Fault>
    ensures { TreeChanged T.tools TreeChangeCall.AppendChild args.old (C.seen tree.old) (C.seen tree.new) (told reply.new result) }
{
    let parent = args.first.cursor();
    let count = args.third.count();
    let element = T::from_value(alloc, args.second.take_value())?;
    tree.append_child(parent, element, count)?;
    reply.tell(Said::Done);
    Ok(())
}

#[inline(never)]
pub fn prepend_child<T: ScriptElement, C: EditedTree<T>>(
    tree: &mut C,
    alloc: Global,
    args: &mut Arguments,
    reply: &mut Reply,
) -> Result<(), Fault>
    ensures { TreeChanged T.tools TreeChangeCall.PrependChild args.old (C.seen tree.old) (C.seen tree.new) (told reply.new result) }
{
    let parent = args.first.cursor();
    let count = args.third.count();
    let element = T::from_value(alloc, args.second.take_value())?;
    tree.prepend_child(parent, element, count)?;
    reply.tell(Said::Done);
    Ok(())
}
