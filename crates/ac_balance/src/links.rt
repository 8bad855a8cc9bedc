//! Nodes in a pool, each with links to its parent and to its two sides. The reads and writes of single links.
//! A link is a slot, and leads to the live name of the slot: the serial stands in the pool alone.
ghost use Rattle.std.specs.Prelude.{◌≡◌, Some, option_copied};
ghost use Rattle.ac_pool.specs.Contents.{value_of, with_value, IsLive};
ghost use Rattle.ac_pool.specs.Link.{name_in, value_in};
ghost use Rattle.ac_balance.specs.TreeFields.{alone, left_of, right_of, parent_of, left_link, right_link, parent_link, high, with_parent, with_sides, with_links, with_side};

use ac_base::Name;
use ac_pool::{NO_SLOT, Pool, link_to};

#[derive(Drop)]
pub struct Node<T> {
    pub value: T,
    pub parent: u32,
    pub left: u32,
    pub right: u32,
    /// How many nodes the longest way down has, this one counted.
    pub height: u32,
}

/// A part of the tree by its topmost node, with its height.
#[derive(Clone, Copy)]
pub(crate) struct Side {
    pub top: Option<Name>,
    pub height: u32,
}

/// The parts on the two sides of a node.
#[derive(Clone, Copy)]
pub(crate) struct BothSides {
    pub left: Side,
    pub right: Side,
}

#[derive(Drop)]
pub struct Links<T> {
    pub nodes: Pool<Node<T>>,
    pub root: Option<Name>,
}

/// A node that isn't linked with any.
pub(crate) fn alone<T>(value: T) -> Node<T>
    ensures { result ≡ alone value }
{
    Node {
        value,
        parent: NO_SLOT,
        left: NO_SLOT,
        right: NO_SLOT,
        height: 1,
    }
}

/// Gives a live name another node, that isn't linked with any.
pub(crate) fn renew<T: Drop>(nodes: &mut Pool<Node<T>>, name: Name, value: T)
    requires { IsLive nodes.old name }
    ensures { nodes.new ≡ with_value nodes.old name (alone value) }
{
    *nodes.get_mut(name).unwrap() = alone(value);
}

/// The name to which a link leads.
#[inline(always)]
pub(crate) fn name_in<T>(nodes: &Pool<Node<T>>, slot: u32) -> Option<Name>
    ensures { result ≡ name_in nodes.now slot }
{
    nodes.name_in(slot)
}

/// The node to which a link leads.
#[inline(always)]
pub(crate) fn node_in<T>(nodes: &Pool<Node<T>>, slot: u32) -> Option<&Node<T>>
    ensures { option_copied result ≡ value_in nodes.now slot }
{
    nodes.value_in(slot)
}

#[inline(always)]
pub(crate) fn left_link<T>(nodes: &Pool<Node<T>>, name: Name) -> u32
    ensures { result ≡ left_link (value_of nodes.now name) }
{
    match nodes.get(name) {
        Some(node) => node.left,
        None => NO_SLOT,
    }
}

pub(crate) fn right_link<T>(nodes: &Pool<Node<T>>, name: Name) -> u32
    ensures { result ≡ right_link (value_of nodes.now name) }
{
    match nodes.get(name) {
        Some(node) => node.right,
        None => NO_SLOT,
    }
}

fn parent_link<T>(nodes: &Pool<Node<T>>, name: Name) -> u32
    ensures { result ≡ parent_link (value_of nodes.now name) }
{
    match nodes.get(name) {
        Some(node) => node.parent,
        None => NO_SLOT,
    }
}

pub(crate) fn left<T>(nodes: &Pool<Node<T>>, name: Name) -> Option<Name>
    ensures { result ≡ left_of nodes.now name }
{
    name_in(nodes, left_link(nodes, name))
}

pub(crate) fn right<T>(nodes: &Pool<Node<T>>, name: Name) -> Option<Name>
    ensures { result ≡ right_of nodes.now name }
{
    name_in(nodes, right_link(nodes, name))
}

pub(crate) fn parent<T>(nodes: &Pool<Node<T>>, name: Name) -> Option<Name>
    ensures { result ≡ parent_of nodes.now name }
{
    name_in(nodes, parent_link(nodes, name))
}

#[inline(always)]
pub(crate) fn height<T>(nodes: &Pool<Node<T>>, name: Option<Name>) -> u32
    ensures { result ≡ high nodes.now name }
{
    match name {
        Some(name) => match nodes.get(name) {
            Some(node) => node.height,
            None => 0,
        },
        None => 0,
    }
}

/// The part under a name.
#[inline(always)]
pub(crate) fn side_of<T>(nodes: &Pool<Node<T>>, top: Option<Name>) -> Side
    ensures top { result.top ≡ top }
    ensures height { result.height ≡ high nodes.now top }
{
    Side {
        top,
        height: height(nodes, top),
    }
}

/// The part to which a link leads.
#[inline(always)]
pub(crate) fn side_in<T>(nodes: &Pool<Node<T>>, link: u32) -> Side
    ensures top { result.top ≡ name_in nodes.now link }
    ensures height { result.height ≡ high nodes.now result.top }
{
    match name_in(nodes, link) {
        Some(name) => side_of(nodes, Some(name)),
        None => Side {
            top: None,
            height: 0,
        },
    }
}

/// The links of a node to its left and to its right.
#[inline(always)]
fn side_links<T>(nodes: &Pool<Node<T>>, name: Name) -> (u32, u32)
    ensures left { result.0 ≡ left_link (value_of nodes.now name) }
    ensures right { result.1 ≡ right_link (value_of nodes.now name) }
{
    match nodes.get(name) {
        Some(node) => (node.left, node.right),
        None => (NO_SLOT, NO_SLOT),
    }
}

#[inline(always)]
pub(crate) fn sides_of<T>(nodes: &Pool<Node<T>>, name: Name) -> BothSides
    ensures left { result.left.top ≡ left_of nodes.now name }
    ensures left_height { result.left.height ≡ high nodes.now result.left.top }
    ensures right { result.right.top ≡ right_of nodes.now name }
    ensures right_height { result.right.height ≡ high nodes.now result.right.top }
{
    let (left, right) = side_links(nodes, name);
    BothSides {
        left: side_in(nodes, left),
        right: side_in(nodes, right),
    }
}

#[inline(always)]
#[tactic(auto, unfolding(crate::specs::TreeFields::with_parent))]
pub(crate) fn set_parent<T>(nodes: &mut Pool<Node<T>>, name: Option<Name>, to: Option<Name>)
    ensures { nodes.new ≡ with_parent nodes.old name to }
{
    if let Some(name) = name {
        if let Some(node) = nodes.get_mut(name) {
            node.parent = link_to(to);
        }
    }
}

/// Sets the parent of a side, and gives the side's height.
#[inline(always)]
#[tactic(auto, unfolding(crate::specs::TreeFields::with_parent))]
pub(crate) fn adopt<T>(nodes: &mut Pool<Node<T>>, side: Option<Name>, parent: Name) -> u32
    ensures nodes { nodes.new ≡ with_parent nodes.old side (Some parent) }
    ensures height { result ≡ high nodes.old side }
{
    let Some(side) = side else {
        return 0;
    };
    match nodes.get_mut(side) {
        Some(node) => {
            node.parent = parent.slot;
            node.height
        }
        None => 0,
    }
}

#[inline(always)]
#[tactic(auto, unfolding(crate::specs::TreeFields::with_sides))]
pub(crate) fn set_sides<T>(
    nodes: &mut Pool<Node<T>>,
    name: Name,
    left: Option<Name>,
    right: Option<Name>,
    height: u32,
)
    ensures { nodes.new ≡ with_sides nodes.old name left right height }
{
    if let Some(node) = nodes.get_mut(name) {
        node.left = link_to(left);
        node.right = link_to(right);
        node.height = height;
    }
}

/// Sets all of a node's links and its height.
#[tactic(auto, unfolding(crate::specs::TreeFields::with_links))]
#[inline(always)]
pub(crate) fn set_links<T>(
    nodes: &mut Pool<Node<T>>,
    name: Name,
    parent: Name,
    left: Option<Name>,
    right: Option<Name>,
    height: u32,
)
    ensures { nodes.new ≡ with_links nodes.old name parent left right height }
{
    if let Some(node) = nodes.get_mut(name) {
        node.parent = parent.slot;
        node.left = link_to(left);
        node.right = link_to(right);
        node.height = height;
    }
}

#[tactic(auto, unfolding(crate::specs::TreeFields::with_side))]
pub(crate) fn set_side<T>(nodes: &mut Pool<Node<T>>, name: Name, is_left: bool, to: Option<Name>)
    ensures { nodes.new ≡ with_side nodes.old name is_left to }
{
    if let Some(node) = nodes.get_mut(name) {
        if is_left {
            node.left = link_to(to);
        } else {
            node.right = link_to(to);
        }
    }
}
