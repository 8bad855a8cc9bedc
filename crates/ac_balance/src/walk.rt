//! Walks along the tree: the ends of a part, and the nodes before and after a node.
ghost use Rattle.std.specs.Prelude.{◌≡◌, List, Some};
ghost use Rattle.ac_balance.specs.Trees.{Tree, Step, in_order, before, after};
ghost use Rattle.ac_balance.specs.Seeking.{IsTree, Stood};
ghost use Rattle.ac_balance.specs.Walking.{IsPlaced, Placed, IsAtNode, ComesNext, ComesBefore, first_name, last_name};

use crate::links::{Node, left, parent, right};
use crate::places::is_on_left;
use ac_base::Name;
use ac_pool::Pool;

/// The first node of the part under this one.
pub(crate) fn leftmost<T>(nodes: &Pool<Node<T>>, top: Name) -> Name
    requires { IsTree nodes.now (Some top) }
    ensures { (t : Tree T) → Stood nodes.now (Some top) t → first_name (in_order t) ≡ Some result }
{
    let mut name = top;
    while let Some(next) = left(nodes, name) {
        name = next;
    }
    name
}

/// The last node of the part under this one.
pub(crate) fn rightmost<T>(nodes: &Pool<Node<T>>, top: Name) -> Name
    requires { IsTree nodes.now (Some top) }
    ensures { (t : Tree T) → Stood nodes.now (Some top) t → last_name (in_order t) ≡ Some result }
{
    let mut name = top;
    while let Some(next) = right(nodes, name) {
        name = next;
    }
    name
}

/// The nearest node above on whose left side this one is.
fn first_above<T>(nodes: &Pool<Node<T>>, name: Name) -> Option<Name>
    requires { IsPlaced nodes.now name }
    ensures { (steps : List (Step T)) (t : Tree T) → Placed nodes.now name steps t → result ≡ first_name (after steps) }
{
    let mut below = name;
    while let Some(above) = parent(nodes, below) {
        if is_on_left(nodes, Some(above), below) {
            return Some(above);
        }
        below = above;
    }
    None
}

/// The nearest node above on whose right side this one is.
fn last_above<T>(nodes: &Pool<Node<T>>, name: Name) -> Option<Name>
    requires { IsPlaced nodes.now name }
    ensures { (steps : List (Step T)) (t : Tree T) → Placed nodes.now name steps t → result ≡ last_name (before steps) }
{
    let mut below = name;
    while let Some(above) = parent(nodes, below) {
        if !is_on_left(nodes, Some(above), below) {
            return Some(above);
        }
        below = above;
    }
    None
}

/// The node after this one, in order.
pub(crate) fn successor<T>(nodes: &Pool<Node<T>>, name: Name) -> Option<Name>
    requires { IsAtNode nodes.now name }
    ensures { ComesNext nodes.now name result }
{
    match right(nodes, name) {
        Some(side) => Some(leftmost(nodes, side)),
        None => first_above(nodes, name),
    }
}

/// The node before this one.
pub(crate) fn predecessor<T>(nodes: &Pool<Node<T>>, name: Name) -> Option<Name>
    requires { IsAtNode nodes.now name }
    ensures { ComesBefore nodes.now name result }
{
    match left(nodes, name) {
        Some(side) => Some(rightmost(nodes, side)),
        None => last_above(nodes, name),
    }
}
