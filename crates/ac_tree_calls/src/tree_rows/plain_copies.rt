//! The nodes of a tree as plain rows, in preorder.
ghost use Rattle.std.specs.Prelude.{◌≡◌, IfOk, map};
ghost use Rattle.ac_model.specs.Objects.{contents, plain};
ghost use Rattle.ac_calls.specs.PlainRows.{node_form};
ghost use Rattle.ac_chain.specs.TreeWalk.{IsMet};

use super::TreeRows;
use ac_base::NoMemory;
use ac_calls::{PlainRow, PlainRows, ScriptElement, tree_row};
use ac_chain::{EditedTree, TreeLike};
use ac_cursor::Cursor;
use std::alloc::Global;

/// The node at the cursor.
fn copy_node<T: ScriptElement, C: TreeLike<T>>(
    tree: &C,
    c: Cursor,
    depth: u64,
    alloc: Global,
) -> Result<PlainRow, NoMemory>
    requires { IsMet (C.seen tree.now).object c depth }
    ensures { IfOk result (λ made. (m : IsMet (C.seen tree.now).object c depth) → made ≡ node_form T.tools m.at.value) }
{
    tree.law();
    match tree.element(c) {
        Ok(element) => {
            let row = tree_row(depth, element, alloc)?;
            Ok(row)
        }
        Err(_) => unreachable!(),
    }
}

/// All nodes.
fn copy_nodes<T: ScriptElement, C: TreeLike<T>>(
    tree: &C,
    alloc: Global,
) -> Result<PlainRows, NoMemory>
    ensures { IfOk result (λ rows. rows ≡ map (node_form T.tools) (contents (plain (C.seen tree.now).object))) }
{
    let mut rows = Vec::with_capacity(alloc, tree.live_nodes() as usize)?;
    let (mut c, mut depth) = tree.first_level();
    for place in 0..tree.live_nodes() {
        let next = tree.next_level(c, depth);
        rows.push_reserved(copy_node(tree, c, depth, alloc)?);
        c = next.0;
        depth = next.1;
    }
    Ok(PlainRows::from_vec(rows))
}

impl<T: ScriptElement, C: EditedTree<T>> TreeRows<T, C> {
    /// The rows as plain ones.
    pub fn plain_rows(&self, alloc: Global) -> Result<PlainRows, NoMemory>
        ensures { IfOk result (λ rows. rows ≡ map (node_form T.tools) (contents (plain self.now.object))) }
    {
        copy_nodes(&self.tree, alloc)
    }
}
