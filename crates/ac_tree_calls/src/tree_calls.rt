//! The calls of trees on objects of a script.
ghost use Rattle.std.specs.Prelude.{◌≡◌};
ghost use Rattle.ac_calls.specs.Replied.{told};
ghost use Rattle.ac_tree_calls.specs.TreeCalls.{TreeLooked, TreeChanged, TreeChangedWith};

mod deletions;
mod grafts;
mod looks;
mod own_cursors;
mod puts;

use ac_base::{Fault, Value};
use ac_calls::{Arguments, Reply, Said, ScriptElement};
use ac_chain::{EditedTree, TreeLike};
use ac_syntax::{TreeCall, TreeChangeCall};
use std::alloc::Global;

/// A call that only looks.
pub fn tree_look<T: ScriptElement, C: TreeLike<T>>(
    tree: &C,
    alloc: Global,
    call: TreeCall,
    args: &mut Arguments,
    reply: &mut Reply,
) -> Result<(), Fault>
    ensures { TreeLooked T.tools call args.old (C.seen tree.now) (told reply.new result) }
{
    match call {
        TreeCall::NodeCount => {
            reply.tell(Said::Value(Value::Int(tree.node_count())));
            Ok(())
        }
        TreeCall::Root => {
            reply.tell(Said::Place(own_cursors::root(tree)));
            Ok(())
        }
        TreeCall::IsRoot => looks::is_root(tree, args, reply),
        TreeCall::IsLeaf => looks::is_leaf(tree, args, reply),
        TreeCall::Depth => looks::depth(tree, args, reply),
        TreeCall::SubtreeNodeCount => looks::subtree_node_count(tree, args, reply),
        TreeCall::ChildCount => looks::child_count(tree, args, reply),
        TreeCall::Parent => looks::parent(tree, args, reply),
        TreeCall::NextSibling => looks::next_sibling(tree, args, reply),
        TreeCall::PreviousSibling => looks::previous_sibling(tree, args, reply),
        TreeCall::FirstChild => looks::first_child(tree, args, reply),
        TreeCall::LastChild => looks::last_child(tree, args, reply),
        TreeCall::Find => looks::find(tree, alloc, args, reply),
        TreeCall::Contains => looks::contains(tree, alloc, args, reply),
        TreeCall::FindInSubtree => looks::find_in_subtree(tree, alloc, args, reply),
        TreeCall::AncestorFind => looks::ancestor_find(tree, alloc, args, reply),
    }
}

/// A call that changes the tree, with the tree itself as the source, where the call has one.
pub fn tree_change<T: ScriptElement, C: EditedTree<T>>(
    tree: &mut C,
    alloc: Global,
    call: TreeChangeCall,
    args: &mut Arguments,
    reply: &mut Reply,
) -> Result<(), Fault>
    ensures { TreeChanged T.tools call args.old (C.seen tree.old) (C.seen tree.new) (told reply.new result) }
{
    match call {
        TreeChangeCall::InsertChild => puts::insert_child(tree, alloc, args, reply),
        TreeChangeCall::InsertChildPos => puts::insert_child_pos(tree, alloc, args, reply),
        TreeChangeCall::AppendChild => puts::append_child(tree, alloc, args, reply),
        TreeChangeCall::PrependChild => puts::prepend_child(tree, alloc, args, reply),
        TreeChangeCall::DeleteLeaf => deletions::delete_leaf(tree, args, reply),
        TreeChangeCall::DeleteSubtree => deletions::delete_subtree(tree, args, reply),
        TreeChangeCall::DeleteChildren => deletions::delete_children(tree, args, reply),
        TreeChangeCall::Swap => deletions::swap(tree, args, reply),
        TreeChangeCall::CopySubtree => grafts::copy_subtree_self(tree, args, reply),
        TreeChangeCall::SpliceSubtreeFrom => grafts::splice_subtree_from_self(tree, args, reply),
        TreeChangeCall::SpliceSubtree => grafts::splice_subtree(tree, args, reply),
        TreeChangeCall::SpliceChildrenFrom => grafts::splice_children_from_self(tree, args, reply),
        TreeChangeCall::SpliceChildren => grafts::splice_children(tree, args, reply),
    }
}

/// The same with another tree as the source.
pub fn tree_change_with<T: ScriptElement, C: EditedTree<T>>(
    tree: &mut C,
    source: &mut C,
    alloc: Global,
    call: TreeChangeCall,
    args: &mut Arguments,
    reply: &mut Reply,
) -> Result<(), Fault>
    ensures { TreeChangedWith T.tools call args.old (C.seen tree.old) (C.seen source.old)
        (C.seen tree.new) (C.seen source.new) (told reply.new result) }
{
    match call {
        TreeChangeCall::CopySubtree => grafts::copy_subtree(tree, source, args, reply),
        TreeChangeCall::SpliceSubtreeFrom => {
            grafts::splice_subtree_from(tree, source, args, reply)
        }
        TreeChangeCall::SpliceChildrenFrom => {
            grafts::splice_children_from(tree, source, args, reply)
        }
        _ => tree_change(tree, alloc, call, args, reply),
    }
}
