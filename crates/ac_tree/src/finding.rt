//! Searches among the nodes of a subtree, and among those above a node.
ghost use Rattle.std.specs.Prelude.{◌≡◌, ◌^◌, ◌<◌, IsTrue};
ghost use Rattle.std.specs.Option.{ForSome};
ghost use Rattle.ac_model.specs.Objects.{plains};
ghost use Rattle.ac_model.specs.Outline.{is_in, is_in_subtree, run_of};
ghost use Rattle.ac_pool.specs.Contents.{IsLive};
ghost use Rattle.ac_tree.specs.Searching.{found_in, rows_below, rows_on, rows_up};
ghost use Rattle.ac_tree.specs.TreeCursors.{serial_in};
ghost use Rattle.ac_tree.specs.TreeFields.{IsForest};
ghost use Rattle.ac_tree.specs.TreeRows.{rows_of};
ghost use Rattle.ac_tree.specs.Walking.{IsBeside};

use crate::links::{Links, TreeNode, is_same};
use crate::preorder::following_link;
use ac_base::{Elem, Name};
use ac_pool::{NO_SLOT, Run, link_to};

/// Whether the node after this one lies in the slot beside it: it is the next sibling of a node without children.
#[inline(always)]
fn is_beside<T>(place: u32, node: &TreeNode<T>, beside: &Run<'_, TreeNode<T>>) -> bool
    requires { place < 2 ^ 30 }
    ensures { IsTrue result → IsBeside place node.now beside.now }
{
    node.first == NO_SLOT && node.next == place + 1 && beside.first().is_some()
}

/// The first node in preorder with an equal value among those below a node, or below the root at none.
fn found_below<T: Elem>(links: &Links<T>, top: Option<Name>, e: &T) -> Option<Name>
    requires forest { IsForest links.now }
    requires live { ForSome top (IsLive links.now.nodes) }
    ensures { result ≡ found_in T.is_same e.now (rows_below (rows_of links.now).rows (serial_in top)) }
{
    let mut place = link_to(links.first_child(top));
    let mut run = links.run_at(place);
    while let Some(node) = run.first() {
        if node.value.same(e) {
            return links.name_in(place);
        }
        let beside = run.rest();
        if is_beside(place, node, &beside) {
            place += 1;
            run = beside;
        } else {
            place = following_link(links, top, place, node);
            run = links.run_at(place);
        }
    }
    None
}

/// The same with the node itself, which is met first.
pub fn found_on<T: Elem>(links: &Links<T>, node: Option<Name>, e: &T) -> Option<Name>
    requires forest { IsForest links.now }
    requires live { ForSome node (IsLive links.now.nodes) }
    ensures { result ≡ found_in T.is_same e.now (rows_on (rows_of links.now).rows (serial_in node)) }
{
    match node {
        Some(name) => {
            if links.at(name).same(e) {
                Some(name)
            } else {
                found_below(links, Some(name), e)
            }
        }
        None => found_below(links, None, e),
    }
}

/// The nearest node with an equal value from this one upwards.
pub fn found_up<T: Elem>(links: &Links<T>, node: Option<Name>, e: &T) -> Option<Name>
    requires forest { IsForest links.now }
    requires live { ForSome node (IsLive links.now.nodes) }
    ensures { result ≡ found_in T.is_same e.now (rows_up (rows_of links.now).rows (serial_in node)) }
{
    let mut place = node;
    while let Some(name) = place {
        if links.at(name).same(e) {
            return place;
        }
        place = links.parent(name);
    }
    None
}

/// Whether a node is the top or below it, where none is the root: a walk upwards.
pub fn is_within<T>(links: &Links<T>, top: Name, node: Option<Name>) -> bool
    requires forest { IsForest links.now }
    requires top { IsLive links.now.nodes top }
    requires live { ForSome node (IsLive links.now.nodes) }
    ensures { result ≡ is_in_subtree (plains (rows_of links.now).rows) top.serial (serial_in node) }
{
    let mut above = node;
    while let Some(name) = above {
        if is_same(above, Some(top)) {
            return true;
        }
        above = links.parent(name);
    }
    false
}

/// Whether a node is below the top, where none is the root.
pub fn is_under<T>(links: &Links<T>, top: Option<Name>, node: Option<Name>) -> bool
    requires forest { IsForest links.now }
    requires top { ForSome top (IsLive links.now.nodes) }
    requires live { ForSome node (IsLive links.now.nodes) }
    ensures { result ≡ is_in (serial_in node) (run_of (plains (rows_of links.now).rows) (serial_in top)) }
{
    let Some(name) = top else {
        return node.is_some();
    };
    if is_same(node, top) {
        return false;
    }
    is_within(links, name, node)
}
