//! The listing of a tree: nodes in preorder, with a bracket around the children of each.
ghost use Rattle.std.specs.Prelude.{◌≡◌, ◌≤◌, ◌++◌, length, replicate};
ghost use Rattle.ac_io.specs.declared.pieces.TheConstants.{MOST_WAITING};
ghost use Rattle.ac_io.specs.Pieces.{Adds};
ghost use Rattle.ac_model.specs.Objects.{contents, plain};
ghost use Rattle.ac_syntax.specs.Canonical.{literal_text};
ghost use Rattle.ac_calls.specs.Listings.{between_nodes, nodes_listing, tree_listing};
ghost use Rattle.ac_tree_calls.specs.ListedNodes.{follows};
ghost use Rattle.ac_chain.specs.TreeWalk.{IsMet};

use super::TreeRows;
use ac_calls::ScriptElement;
use ac_chain::{EditedTree, TreeLike};
use ac_cursor::Cursor;
use ac_io::{Sink, WriteFault, add};

/// Closes as many brackets.
fn close<K: Sink>(brackets: u64, text: &mut Vec<u8>, sink: &mut K) -> Result<(), WriteFault>
    ensures adds { Adds K.held K.faults K.room K.counts_failures sink.old sink.new
        text.old.items text.new.items (replicate brackets 93) result }
    ensures short { length text.old.items ≤ MOST_WAITING → length text.new.items ≤ MOST_WAITING }
{
    for place in 0..brackets {
        add(text, b"]", sink)?;
    }
    Ok(())
}

/// What stands between a node of one depth and the next.
fn between<K: Sink>(
    depth: u64,
    next: u64,
    text: &mut Vec<u8>,
    sink: &mut K,
) -> Result<(), WriteFault>
    ensures adds { Adds K.held K.faults K.room K.counts_failures sink.old sink.new
        text.old.items text.new.items (between_nodes depth next) result }
    ensures short { length text.old.items ≤ MOST_WAITING → length text.new.items ≤ MOST_WAITING }
{
    if depth < next {
        return add(text, b" [", sink);
    }
    close(depth - next, text, sink)?;
    add(text, b", ", sink)
}

/// The element at the cursor.
fn add_element<T: ScriptElement, C: TreeLike<T>, K: Sink>(
    tree: &C,
    c: Cursor,
    depth: u64,
    text: &mut Vec<u8>,
    sink: &mut K,
) -> Result<(), WriteFault>
    requires { IsMet (C.seen tree.now).object c depth }
    ensures adds { (m : IsMet (C.seen tree.now).object c depth) → Adds K.held K.faults K.room K.counts_failures sink.old sink.new
        text.old.items text.new.items (literal_text (T.tools.to_value m.at.value.element)) result }
    ensures short { length text.old.items ≤ MOST_WAITING → length text.new.items ≤ MOST_WAITING }
{
    tree.law();
    match tree.element(c) {
        Ok(element) => element.add_literal(text, sink),
        Err(_) => unreachable!(),
    }
}

/// What stands behind a node: the way to the next, or the brackets that close at the end.
fn add_follows<K: Sink>(
    depth: u64,
    next: Cursor,
    level: u64,
    text: &mut Vec<u8>,
    sink: &mut K,
) -> Result<(), WriteFault>
    ensures adds { Adds K.held K.faults K.room K.counts_failures sink.old sink.new
        text.old.items text.new.items (follows depth next level) result }
    ensures short { length text.old.items ≤ MOST_WAITING → length text.new.items ≤ MOST_WAITING }
{
    match next {
        Cursor::NoElement => close(depth.saturating_sub(2), text, sink),
        Cursor::At { object: _, name: _ } => between(depth, level, text, sink),
    }
}

/// The node at the cursor, and what stands behind it.
fn add_node<T: ScriptElement, C: TreeLike<T>, K: Sink>(
    tree: &C,
    c: Cursor,
    depth: u64,
    next: (Cursor, u64),
    text: &mut Vec<u8>,
    sink: &mut K,
) -> Result<(), WriteFault>
    requires { IsMet (C.seen tree.now).object c depth }
    ensures adds { (m : IsMet (C.seen tree.now).object c depth) → Adds K.held K.faults K.room K.counts_failures sink.old sink.new
        text.old.items text.new.items (literal_text (T.tools.to_value m.at.value.element) ++ follows depth next.0 next.1) result }
    ensures short { length text.old.items ≤ MOST_WAITING → length text.new.items ≤ MOST_WAITING }
{
    add_element(tree, c, depth, text, sink)?;
    add_follows(depth, next.0, next.1, text, sink)
}

/// All nodes.
fn add_nodes<T: ScriptElement, C: TreeLike<T>, K: Sink>(
    tree: &C,
    text: &mut Vec<u8>,
    sink: &mut K,
) -> Result<(), WriteFault>
    ensures adds { Adds K.held K.faults K.room K.counts_failures sink.old sink.new text.old.items text.new.items
        (nodes_listing (λ e. literal_text (T.tools.to_value e)) (contents (plain (C.seen tree.now).object))) result }
    ensures short { length text.old.items ≤ MOST_WAITING → length text.new.items ≤ MOST_WAITING }
{
    let (mut c, mut depth) = tree.first_level();
    for place in 0..tree.live_nodes() {
        let next = tree.next_level(c, depth);
        add_node(tree, c, depth, next, text, sink)?;
        c = next.0;
        depth = next.1;
    }
    Ok(())
}

/// Adds the listing of a tree to a text that is written in pieces.
fn write_tree<T: ScriptElement, C: TreeLike<T>, K: Sink>(
    tree: &C,
    text: &mut Vec<u8>,
    sink: &mut K,
) -> Result<(), WriteFault>
    ensures adds { Adds K.held K.faults K.room K.counts_failures sink.old sink.new text.old.items text.new.items
        (tree_listing (λ e. literal_text (T.tools.to_value e)) (contents (plain (C.seen tree.now).object))) result }
    ensures short { length text.old.items ≤ MOST_WAITING → length text.new.items ≤ MOST_WAITING }
{
    add(text, b"[", sink)?;
    add_nodes(tree, text, sink)?;
    add(text, b"]", sink)
}

impl<T: ScriptElement, C: EditedTree<T>> TreeRows<T, C> {
    /// Adds the listing to a text that is written in pieces.
    pub fn write_listing<K: Sink>(&self, text: &mut Vec<u8>, sink: &mut K) -> Result<(), WriteFault>
        ensures adds { Adds K.held K.faults K.room K.counts_failures sink.old sink.new text.old.items text.new.items
            (tree_listing (λ e. literal_text (T.tools.to_value e)) (contents (plain self.now.object))) result }
        ensures short { length text.old.items ≤ MOST_WAITING → length text.new.items ≤ MOST_WAITING }
    {
        write_tree(&self.tree, text, sink)
    }
}
