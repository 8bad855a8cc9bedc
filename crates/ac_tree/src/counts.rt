//! Walks over links that count.
ghost use Rattle.std.specs.Prelude.{◌≡◌, ◌+◌, ◌^◌, ◌≤◌, length, pos};
ghost use Rattle.std.specs.Option.{ForSome};
ghost use Rattle.ac_model.specs.Objects.{plains};
ghost use Rattle.ac_model.specs.Outline.{children_of, depth_of, subtree_length};
ghost use Rattle.ac_pool.specs.Contents.{IsLive};
ghost use Rattle.ac_tree.specs.TreeCursors.{serial_in};
ghost use Rattle.ac_tree.specs.TreeFields.{IsForest};
ghost use Rattle.ac_tree.specs.TreeRows.{rows_of};

use crate::links::Links;
use crate::preorder::following;
use ac_base::Name;

/// How many children a node has, or the root at none.
pub fn count_children<T>(links: &Links<T>, parent: Option<Name>) -> u64
    requires forest { IsForest links.now }
    requires live { ForSome parent (IsLive links.now.nodes) }
    ensures count { result ≡ length (children_of (plains (rows_of links.now).rows) (serial_in parent)) }
    ensures few { result ≤ 2 ^ 30 + 1 }
{
    let mut count = 0;
    let mut place = links.first_child(parent);
    while let Some(name) = place {
        count += 1;
        place = links.next(name);
    }
    count
}

/// The depth of a node, where the root's is 1.
pub fn depth<T>(links: &Links<T>, node: Option<Name>) -> u64
    requires forest { IsForest links.now }
    requires live { ForSome node (IsLive links.now.nodes) }
    ensures depth { result ≡ depth_of (plains (rows_of links.now).rows) (serial_in node) }
    ensures few { result ≤ 2 ^ 30 + 1 }
{
    let mut depth = 1;
    let mut place = node;
    while let Some(name) = place {
        depth += 1;
        place = links.parent(name);
    }
    depth
}

/// How many nodes are in a subtree, or with the root at none.
pub fn count_subtree<T>(links: &Links<T>, node: Option<Name>) -> u64
    requires forest { IsForest links.now }
    requires live { ForSome node (IsLive links.now.nodes) }
    ensures count { result ≡ subtree_length (plains (rows_of links.now).rows) (serial_in node) }
    ensures few { result ≤ 2 ^ 30 + 1 }
{
    let mut count = 1;
    let mut place = links.first_child(node);
    while let Some(name) = place {
        count += 1;
        place = following(links, node, name);
    }
    count
}

/// A count as a call answers it.
pub fn as_number(count: u64) -> i64
    requires { count ≤ 2 ^ 32 }
    ensures { result ≡ pos count }
{
    count as i64
}
