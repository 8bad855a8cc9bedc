//! A part of the tree and its place, and the way up from there.
ghost use Rattle.std.specs.Prelude.{◌≡◌, Some};
ghost use Rattle.ac_pool.specs.Contents.{value_of};
ghost use Rattle.ac_balance.specs.TreeFields.{parent_link, beside_link, height_of, high, is_left_in, settled_with, settled_in, risen, attached, place_in};
ghost use Rattle.ac_balance.specs.Climbing.{IsClimbing, Climbs, IsMendable, Mends};

use crate::links::{
    Links, Node, Side, left_link, name_in, parent, set_parent, set_side, side_in, side_of,
};
use crate::rotation::balance;
use ac_base::Name;
use ac_pool::{NO_SLOT, Pool};

/// A place in the tree for a part whose topmost node is `top`: under a parent, on its left or its right.
#[derive(Clone, Copy)]
pub struct Place {
    pub parent: Option<Name>,
    pub is_left: bool,
    pub top: Option<Name>,
}

/// The place at which a node is, for another part.
pub(crate) fn place_of<T>(nodes: &Pool<Node<T>>, name: Name, top: Option<Name>) -> Place
    ensures { result ≡ place_in nodes.now name top }
{
    let above = parent(nodes, name);
    Place {
        parent: above,
        is_left: is_on_left(nodes, above, name),
        top,
    }
}

#[inline(always)]
pub(crate) fn is_on_left<T>(nodes: &Pool<Node<T>>, above: Option<Name>, name: Name) -> bool
    ensures { result ≡ is_left_in nodes.now above name }
{
    match above {
        Some(above) => left_link(nodes, above) == name.slot,
        None => false,
    }
}

/// The links around a node, but for the one to the part on one of its sides.
#[derive(Clone, Copy)]
pub(crate) struct NodeLinks {
    pub above: u32,
    pub beside: u32,
    pub height: u32,
}

#[inline(always)]
fn around<T>(nodes: &Pool<Node<T>>, name: Name, is_left: bool) -> NodeLinks
    ensures above { result.above ≡ parent_link (value_of nodes.now name) }
    ensures beside { result.beside ≡ beside_link is_left (value_of nodes.now name) }
    ensures height { result.height ≡ height_of (value_of nodes.now name) }
{
    match nodes.get(name) {
        Some(node) => NodeLinks {
            above: node.parent,
            beside: if is_left { node.right } else { node.left },
            height: node.height,
        },
        None => NodeLinks {
            above: NO_SLOT,
            beside: NO_SLOT,
            height: 0,
        },
    }
}

#[inline(always)]
#[tactic(auto, unfolding(crate::specs::TreeFields::settled_with))]
fn settle<T>(nodes: &mut Pool<Node<T>>, name: Name, is_left: bool, part: Side, beside: Side) -> Side
    requires part { part.height ≡ high nodes.old part.top }
    requires beside { beside.height ≡ high nodes.old beside.top }
    ensures nodes { nodes.new ≡ (settled_with nodes.old name is_left part.top beside.top).nodes }
    ensures top { result.top ≡ Some (settled_with nodes.old name is_left part.top beside.top).top }
    ensures height { result.height ≡ (settled_with nodes.old name is_left part.top beside.top).high }
{
    if is_left {
        return balance(nodes, part, name, beside, part.top, None);
    }
    balance(nodes, beside, name, part, None, part.top)
}

/// A place one step further up: how high the part for it is, and how high the node was that it has at the top.
#[derive(Clone, Copy)]
pub(crate) struct Risen {
    pub place: Place,
    pub height: u32,
    pub was: u32,
}

/// One step up: the parent is balanced, and the part is it with its sides.
#[inline(always)]
#[tactic(auto, unfolding(crate::specs::TreeFields::settled_in))]
fn rise<T>(nodes: &mut Pool<Node<T>>, name: Name, is_left: bool, part: Side) -> Risen
    requires { part.height ≡ high nodes.old part.top }
    ensures nodes { nodes.new ≡ (settled_in nodes.old name is_left part.top).nodes }
    ensures place { result.place ≡ risen nodes.old name is_left part.top }
    ensures height { result.height ≡ (settled_in nodes.old name is_left part.top).high }
    ensures was { result.was ≡ high nodes.old (Some name) }
{
    let around = around(nodes, name, is_left);
    let above = name_in(nodes, around.above);
    let is_on_left = is_on_left(nodes, above, name);
    let beside = side_in(nodes, around.beside);
    let part = settle(nodes, name, is_left, part, beside);
    Risen {
        place: Place {
            parent: above,
            is_left: is_on_left,
            top: part.top,
        },
        height: part.height,
        was: around.height,
    }
}

/// Balances the nodes above the place, from the parent up, until the height of one is what it was.
fn climb<T>(nodes: &mut Pool<Node<T>>, from: Place) -> Place
    requires { IsClimbing nodes.old from }
    ensures { Climbs nodes.old from nodes.new result }
{
    let mut place = from;
    let mut part = side_of(nodes, from.top);
    while let Some(name) = place.parent {
        let up = rise(nodes, name, place.is_left, part);
        place = up.place;
        if up.height == up.was {
            return place;
        }
        part = Side {
            top: place.top,
            height: up.height,
        };
    }
    place
}

/// Links the part with the node above it, or makes it the whole.
#[tactic(auto, unfolding(crate::specs::TreeFields::attached))]
fn attach<T>(links: &mut Links<T>, place: Place)
    ensures { links.new ≡ attached links.old place.parent place.is_left place.top }
{
    match place.parent {
        Some(name) => set_side(&mut links.nodes, name, place.is_left, place.top),
        None => links.root = place.top,
    }
    set_parent(&mut links.nodes, place.top, place.parent);
}

/// Balances the nodes above the place, and links the tree together again.
pub(crate) fn mend<T>(links: &mut Links<T>, place: Place)
    requires { IsMendable links.old place }
    ensures { Mends links.old place links.new }
{
    let place = climb(&mut links.nodes, place);
    attach(links, place);
}
