//! The turns that keep the two sides of each node within one of each other in height.
ghost use Rattle.std.specs.Prelude.{◌≡◌, Some};
ghost use Rattle.ac_balance.specs.TreeFields.{high, above, fastened, fastened_at, turned_left, turned_right, twice_left_in, from_left_in, twice_right_in, from_right_in, balanced_in};

use crate::links::{
    Node, Side, adopt, left, right, set_links, set_parent, set_sides, side_of, sides_of,
};
use ac_base::Name;
use ac_pool::Pool;

/// The height above two sides.
#[inline(always)]
fn above(left: u32, right: u32) -> u32
    ensures { result ≡ above left right }
{
    left.max(right).saturating_add(1)
}

/// Gives the name's node these two sides.
#[tactic(auto, unfolding(crate::specs::TreeFields::fastened, crate::specs::TreeFields::fastened_at))]
fn fasten<T>(nodes: &mut Pool<Node<T>>, name: Name, left: Option<Name>, right: Option<Name>)
    ensures { nodes.new ≡ fastened nodes.old name left right }
{
    let left_height = adopt(nodes, left, name);
    let right_height = adopt(nodes, right, name);
    set_sides(nodes, name, left, right, above(left_height, right_height));
}

#[tactic(auto, unfolding(crate::specs::TreeFields::twice_left_in))]
fn twice_left<T>(
    nodes: &mut Pool<Node<T>>,
    outer: Option<Name>,
    top: Name,
    inner: Option<Name>,
    at: Name,
    right_side: Option<Name>,
) -> Name
    ensures nodes { nodes.new ≡ (twice_left_in nodes.old outer top inner at right_side).nodes }
    ensures top { result ≡ (twice_left_in nodes.old outer top inner at right_side).top }
{
    let Some(middle) = inner else {
        fasten(nodes, top, outer, None);
        fasten(nodes, at, Some(top), right_side);
        return at;
    };
    let first = left(nodes, middle);
    let second = right(nodes, middle);
    fasten(nodes, top, outer, first);
    fasten(nodes, at, second, right_side);
    fasten(nodes, middle, Some(top), Some(at));
    middle
}

/// The topmost node of the left side comes above the node. `new_right` is the right side where its parent isn't set yet.
#[tactic(auto, unfolding(crate::specs::TreeFields::turned_right))]
#[inline(always)]
fn turn_right<T>(
    nodes: &mut Pool<Node<T>>,
    outer: Side,
    top: Name,
    inner: Side,
    at: Name,
    right_side: Side,
    new_right: Option<Name>,
) -> Side
    requires outer { outer.height ≡ high nodes.old outer.top }
    requires inner { inner.height ≡ high nodes.old inner.top }
    requires right { right_side.height ≡ high nodes.old right_side.top }
    ensures nodes { nodes.new ≡ (turned_right nodes.old outer.top top inner.top at right_side.top new_right).nodes }
    ensures top { result.top ≡ Some (turned_right nodes.old outer.top top inner.top at right_side.top new_right).top }
    ensures height { result.height ≡ (turned_right nodes.old outer.top top inner.top at right_side.top new_right).high }
{
    let low = above(inner.height, right_side.height);
    set_parent(nodes, inner.top, Some(at));
    set_parent(nodes, new_right, Some(at));
    set_links(nodes, at, top, inner.top, right_side.top, low);
    let height = above(outer.height, low);
    set_sides(nodes, top, outer.top, Some(at), height);
    Side {
        top: Some(top),
        height,
    }
}

/// The left side is too high: its topmost node, or a node below that, becomes the topmost.
#[tactic(auto, unfolding(crate::specs::TreeFields::from_left_in))]
#[inline(always)]
fn from_left<T>(
    nodes: &mut Pool<Node<T>>,
    left_side: Option<Name>,
    at: Name,
    right_side: Side,
    new_right: Option<Name>,
) -> Side
    requires { right_side.height ≡ high nodes.old right_side.top }
    ensures nodes { nodes.new ≡ (from_left_in nodes.old left_side at right_side.top new_right).nodes }
    ensures top { result.top ≡ Some (from_left_in nodes.old left_side at right_side.top new_right).top }
    ensures height { result.height ≡ (from_left_in nodes.old left_side at right_side.top new_right).high }
{
    let Some(top) = left_side else {
        fasten(nodes, at, None, right_side.top);
        return side_of(nodes, Some(at));
    };
    let sides = sides_of(nodes, top);
    if sides.right.height > sides.left.height {
        let top = twice_left(
            nodes,
            sides.left.top,
            top,
            sides.right.top,
            at,
            right_side.top,
        );
        return side_of(nodes, Some(top));
    }
    turn_right(
        nodes,
        sides.left,
        top,
        sides.right,
        at,
        right_side,
        new_right,
    )
}

#[tactic(auto, unfolding(crate::specs::TreeFields::twice_right_in))]
fn twice_right<T>(
    nodes: &mut Pool<Node<T>>,
    left_side: Option<Name>,
    at: Name,
    inner: Option<Name>,
    top: Name,
    outer: Option<Name>,
) -> Name
    ensures nodes { nodes.new ≡ (twice_right_in nodes.old left_side at inner top outer).nodes }
    ensures top { result ≡ (twice_right_in nodes.old left_side at inner top outer).top }
{
    let Some(middle) = inner else {
        fasten(nodes, top, None, outer);
        fasten(nodes, at, left_side, Some(top));
        return at;
    };
    let first = left(nodes, middle);
    let second = right(nodes, middle);
    fasten(nodes, at, left_side, first);
    fasten(nodes, top, second, outer);
    fasten(nodes, middle, Some(at), Some(top));
    middle
}

#[tactic(auto, unfolding(crate::specs::TreeFields::turned_left))]
#[inline(always)]
fn turn_left<T>(
    nodes: &mut Pool<Node<T>>,
    left_side: Side,
    at: Name,
    inner: Side,
    top: Name,
    outer: Side,
    new_left: Option<Name>,
) -> Side
    requires left { left_side.height ≡ high nodes.old left_side.top }
    requires inner { inner.height ≡ high nodes.old inner.top }
    requires outer { outer.height ≡ high nodes.old outer.top }
    ensures nodes { nodes.new ≡ (turned_left nodes.old left_side.top at inner.top top outer.top new_left).nodes }
    ensures top { result.top ≡ Some (turned_left nodes.old left_side.top at inner.top top outer.top new_left).top }
    ensures height { result.height ≡ (turned_left nodes.old left_side.top at inner.top top outer.top new_left).high }
{
    let low = above(left_side.height, inner.height);
    set_parent(nodes, new_left, Some(at));
    set_parent(nodes, inner.top, Some(at));
    set_links(nodes, at, top, left_side.top, inner.top, low);
    let height = above(low, outer.height);
    set_sides(nodes, top, Some(at), outer.top, height);
    Side {
        top: Some(top),
        height,
    }
}

/// The right side is too high.
#[tactic(auto, unfolding(crate::specs::TreeFields::from_right_in))]
#[inline(always)]
fn from_right<T>(
    nodes: &mut Pool<Node<T>>,
    left_side: Side,
    at: Name,
    right_side: Option<Name>,
    new_left: Option<Name>,
) -> Side
    requires { left_side.height ≡ high nodes.old left_side.top }
    ensures nodes { nodes.new ≡ (from_right_in nodes.old left_side.top at right_side new_left).nodes }
    ensures top { result.top ≡ Some (from_right_in nodes.old left_side.top at right_side new_left).top }
    ensures height { result.height ≡ (from_right_in nodes.old left_side.top at right_side new_left).high }
{
    let Some(top) = right_side else {
        fasten(nodes, at, left_side.top, None);
        return side_of(nodes, Some(at));
    };
    let sides = sides_of(nodes, top);
    if sides.left.height > sides.right.height {
        let top = twice_right(
            nodes,
            left_side.top,
            at,
            sides.left.top,
            top,
            sides.right.top,
        );
        return side_of(nodes, Some(top));
    }
    turn_left(nodes, left_side, at, sides.left, top, sides.right, new_left)
}

/// Puts a node between two sides whose heights differ by at most two, and gives the whole part.
/// `new_left` and `new_right` are the sides where their parent isn't set yet.
#[tactic(auto, unfolding(crate::specs::TreeFields::balanced_in))]
#[inline(always)]
pub(crate) fn balance<T>(
    nodes: &mut Pool<Node<T>>,
    left_side: Side,
    at: Name,
    right_side: Side,
    new_left: Option<Name>,
    new_right: Option<Name>,
) -> Side
    requires left { left_side.height ≡ high nodes.old left_side.top }
    requires right { right_side.height ≡ high nodes.old right_side.top }
    ensures nodes { nodes.new ≡ (balanced_in nodes.old left_side.top at right_side.top new_left new_right).nodes }
    ensures top { result.top ≡ Some (balanced_in nodes.old left_side.top at right_side.top new_left new_right).top }
    ensures height { result.height ≡ (balanced_in nodes.old left_side.top at right_side.top new_left new_right).high }
{
    if left_side.height.saturating_sub(right_side.height) > 1 {
        return from_left(nodes, left_side.top, at, right_side, new_right);
    }
    if right_side.height.saturating_sub(left_side.height) > 1 {
        return from_right(nodes, left_side, at, right_side.top, new_left);
    }
    let height = above(left_side.height, right_side.height);
    set_parent(nodes, new_left, Some(at));
    set_parent(nodes, new_right, Some(at));
    set_sides(nodes, at, left_side.top, right_side.top, height);
    Side {
        top: Some(at),
        height,
    }
}
