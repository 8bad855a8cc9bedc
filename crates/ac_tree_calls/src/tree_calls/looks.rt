//! The calls of trees that look at their nodes.
ghost use Rattle.ac_calls.specs.Replied.{told};
ghost use Rattle.ac_tree_calls.specs.TreeCalls.{TreeLooked};

use super::own_cursors;
use ac_base::{Fault, Value};
use ac_calls::{Arguments, Reply, Said, ScriptElement};
use ac_chain::TreeLike;
use ac_syntax::TreeCall;
use std::alloc::Global;

pub fn is_root<T: ScriptElement, C: TreeLike<T>>(
    tree: &C,
    args: &Arguments,
    reply: &mut Reply,
) -> Result<(), Fault>
    ensures { TreeLooked T.tools TreeCall.IsRoot args.now (C.seen tree.now) (told reply.new result) }
{
    let answer = tree.is_root(args.first.cursor())?;
    reply.tell(Said::Truth(answer));
    Ok(())
}

pub fn is_leaf<T: ScriptElement, C: TreeLike<T>>(
    tree: &C,
    args: &Arguments,
    reply: &mut Reply,
) -> Result<(), Fault>
    ensures { TreeLooked T.tools TreeCall.IsLeaf args.now (C.seen tree.now) (told reply.new result) }
{
    let answer = tree.is_leaf(args.first.cursor())?;
    reply.tell(Said::Truth(answer));
    Ok(())
}

pub fn depth<T: ScriptElement, C: TreeLike<T>>(
    tree: &C,
    args: &Arguments,
    reply: &mut Reply,
) -> Result<(), Fault>
    ensures { TreeLooked T.tools TreeCall.Depth args.now (C.seen tree.now) (told reply.new result) }
{
    let answer = tree.depth(args.first.cursor())?;
    reply.tell(Said::Value(Value::Int(answer)));
    Ok(())
}

pub fn subtree_node_count<T: ScriptElement, C: TreeLike<T>>(
    tree: &C,
    args: &Arguments,
    reply: &mut Reply,
) -> Result<(), Fault>
    ensures { TreeLooked T.tools TreeCall.SubtreeNodeCount args.now (C.seen tree.now) (told reply.new result) }
{
    let answer = tree.subtree_node_count(args.first.cursor())?;
    reply.tell(Said::Value(Value::Int(answer)));
    Ok(())
}

pub fn child_count<T: ScriptElement, C: TreeLike<T>>(
    tree: &C,
    args: &Arguments,
    reply: &mut Reply,
) -> Result<(), Fault>
    ensures { TreeLooked T.tools TreeCall.ChildCount args.now (C.seen tree.now) (told reply.new result) }
{
    let answer = tree.child_count(args.first.cursor())?;
    reply.tell(Said::Value(Value::Int(answer)));
    Ok(())
}

pub fn parent<T: ScriptElement, C: TreeLike<T>>(
    tree: &C,
    args: &Arguments,
    reply: &mut Reply,
) -> Result<(), Fault>
    ensures { TreeLooked T.tools TreeCall.Parent args.now (C.seen tree.now) (told reply.new result) }
{
    let place = own_cursors::parent(tree, args.first.cursor())?;
    reply.tell(Said::Place(place));
    Ok(())
}

pub fn next_sibling<T: ScriptElement, C: TreeLike<T>>(
    tree: &C,
    args: &Arguments,
    reply: &mut Reply,
) -> Result<(), Fault>
    ensures { TreeLooked T.tools TreeCall.NextSibling args.now (C.seen tree.now) (told reply.new result) }
{
    let place = own_cursors::next_sibling(tree, args.first.cursor())?;
    reply.tell(Said::Place(place));
    Ok(())
}

pub fn previous_sibling<T: ScriptElement, C: TreeLike<T>>(
    tree: &C,
    args: &Arguments,
    reply: &mut Reply,
) -> Result<(), Fault>
    ensures { TreeLooked T.tools TreeCall.PreviousSibling args.now (C.seen tree.now) (told reply.new result) }
{
    let place = own_cursors::previous_sibling(tree, args.first.cursor())?;
    reply.tell(Said::Place(place));
    Ok(())
}

pub fn first_child<T: ScriptElement, C: TreeLike<T>>(
    tree: &C,
    args: &Arguments,
    reply: &mut Reply,
) -> Result<(), Fault>
    ensures { TreeLooked T.tools TreeCall.FirstChild args.now (C.seen tree.now) (told reply.new result) }
{
    let place = own_cursors::first_child(tree, args.first.cursor())?;
    reply.tell(Said::Place(place));
    Ok(())
}

pub fn last_child<T: ScriptElement, C: TreeLike<T>>(
    tree: &C,
    args: &Arguments,
    reply: &mut Reply,
) -> Result<(), Fault>
    ensures { TreeLooked T.tools TreeCall.LastChild args.now (C.seen tree.now) (told reply.new result) }
{
    let place = own_cursors::last_child(tree, args.first.cursor())?;
    reply.tell(Said::Place(place));
    Ok(())
}

#[inline(never)]
pub fn find<T: ScriptElement, C: TreeLike<T>>(
    tree: &C,
    alloc: Global,
    args: &mut Arguments,
    reply: &mut Reply,
) -> Result<(), Fault>
    ensures { TreeLooked T.tools TreeCall.Find args.old (C.seen tree.now) (told reply.new result) }
{
    let element = T::from_value(alloc, args.first.take_value())?;
    reply.tell(Said::Place(own_cursors::find(tree, &element)));
    Ok(())
}

#[inline(never)]
pub fn contains<T: ScriptElement, C: TreeLike<T>>(
    tree: &C,
    alloc: Global,
    args: &mut Arguments,
    reply: &mut Reply,
) -> Result<(), Fault>
    ensures { TreeLooked T.tools TreeCall.Contains args.old (C.seen tree.now) (told reply.new result) }
{
    let element = T::from_value(alloc, args.first.take_value())?;
    reply.tell(Said::Truth(tree.contains(&element)));
    Ok(())
}

#[inline(never)]
pub fn find_in_subtree<T: ScriptElement, C: TreeLike<T>>(
    tree: &C,
    alloc: Global,
    args: &mut Arguments,
    reply: &mut Reply,
) -> Result<(), Fault>
    ensures { TreeLooked T.tools TreeCall.FindInSubtree args.old (C.seen tree.now) (told reply.new result) }
{
    let from = args.first.cursor();
    let element = T::from_value(alloc, args.second.take_value())?;
    let found = own_cursors::find_in_subtree(tree, from, &element)?;
    reply.tell(Said::Place(found));
    Ok(())
}

#[inline(never)]
pub fn ancestor_find<T: ScriptElement, C: TreeLike<T>>(
    tree: &C,
    alloc: Global,
    args: &mut Arguments,
    reply: &mut Reply,
) -> Result<(), Fault>
    ensures { TreeLooked T.tools TreeCall.AncestorFind args.old (C.seen tree.now) (told reply.new result) }
{
    let from = args.first.cursor();
    let element = T::from_value(alloc, args.second.take_value())?;
    let found = own_cursors::ancestor_find(tree, from, &element)?;
    reply.tell(Said::Place(found));
    Ok(())
}
