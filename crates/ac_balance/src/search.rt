//! The counted search from the root down.
ghost use Rattle.std.specs.Prelude.{◌≡◌, ◌<◌, ◌≤◌, ◌+◌, ◌*◌};
ghost use Rattle.ac_balance.specs.declared.entry.Entry.{Entry};
ghost use Rattle.ac_balance.specs.Trees.{Tree, height};
ghost use Rattle.ac_balance.specs.Seeking.{IsTree, Stood, Leads};
ghost use Rattle.ac_balance.specs.Trails.{spot_at, trail_from, trail_lowered};

use crate::entry::Entry;
use crate::links::{Node, name_in, node_in};
use crate::probe::{Probe, WholeKey};
use ac_base::{Name, Rank, Steps};
use ac_pool::{NO_SLOT, Pool, link_to};
use std::cmp::Ordering;
use std::marker::Brand;
use std::sync::ledger::{Blank, Ledger};

/// Where a search ended: the part that it came to, its place, and the nearest rows on both sides.
#[derive(Clone, Copy)]
pub struct Spot {
    pub part: Option<Name>,
    pub parent: Option<Name>,
    pub is_left: bool,
    pub below: Option<Name>,
    pub above: Option<Name>,
}

/// How far a search is, as a spot of links: five words, which stay in registers on the way down.
#[derive(Clone, Copy)]
pub struct Trail {
    pub part: u32,
    pub parent: u32,
    pub is_left: bool,
    pub below: u32,
    pub above: u32,
}

pub(crate) fn start(root: Option<Name>) -> Trail
    ensures { result ≡ trail_from root }
{
    Trail {
        part: link_to(root),
        parent: NO_SLOT,
        is_left: false,
        below: NO_SLOT,
        above: NO_SLOT,
    }
}

/// The spot to which the links lead.
#[inline(always)]
pub(crate) fn spot_at<T>(nodes: &Pool<Node<T>>, trail: Trail) -> Spot
    ensures { result ≡ spot_at nodes.now trail }
{
    Spot {
        part: name_in(nodes, trail.part),
        parent: name_in(nodes, trail.parent),
        is_left: trail.is_left,
        below: name_in(nodes, trail.below),
        above: name_in(nodes, trail.above),
    }
}

/// One step down, from the node to which the trail leads.
#[inline(always)]
pub(crate) fn lower<T>(node: &Node<T>, trail: Trail, is_left: bool) -> Trail
    ensures { result ≡ trail_lowered node.now trail is_left }
{
    if is_left {
        return Trail {
            part: node.left,
            parent: trail.part,
            is_left: true,
            below: trail.below,
            above: trail.part,
        };
    }
    Trail {
        part: node.right,
        parent: trail.part,
        is_left: false,
        below: trail.part,
        above: trail.above,
    }
}

/// The place of what is looked for, with at most two steps for each level of the tree.
pub(crate) fn seek<K: Rank, V, P: Probe<K>, L: Ledger>(
    nodes: &Pool<Node<Entry<K, V>>>,
    root: Option<Name>,
    probe: P,
    steps: &mut Steps<L>,
) -> Trail
    requires { IsTree nodes.now root }
    ensures found { Leads nodes.now root (λ e. P.is_before probe e.key) (λ e. P.is_behind probe e.key) (spot_at nodes.now result) }
    ensures few { (t : Tree (Entry K V)) → Stood nodes.now root t → steps.new ≤ steps.old + 2 * height t }
    ensures counted { steps.old ≤ steps.new }
{
    let mut trail = start(root);
    while let Some(node) = node_in(nodes, trail.part) {
        match probe.standing(&node.value.key, steps) {
            Ordering::Greater => trail = lower(node, trail, true),
            Ordering::Less => trail = lower(node, trail, false),
            Ordering::Equal => return trail,
        }
    }
    trail
}

fn sought<K: Rank, V, L: Ledger>(
    nodes: &Pool<Node<Entry<K, V>>>,
    root: Option<Name>,
    k: &K,
    blank: Blank,
) -> Trail
    requires name { blank.name ≡ L.name }
    requires parts { blank.parts ≡ L.parts }
    requires some { 0 < blank.parts }
    requires tree { IsTree nodes.now root }
    ensures { Leads nodes.now root (λ e. K.is_less e.key k.now) (λ e. K.is_less k.now e.key) (spot_at nodes.now result) }
{
    seek(
        nodes,
        root,
        WholeKey { key: k },
        &mut Steps::<L>::new(blank),
    )
}

/// `seek` of a key, for a caller that counts nothing.
pub(crate) fn place_for<K: Rank, V>(
    nodes: &Pool<Node<Entry<K, V>>>,
    root: Option<Name>,
    k: &K,
) -> Spot
    requires { IsTree nodes.now root }
    ensures { Leads nodes.now root (λ e. K.is_less e.key k.now) (λ e. K.is_less k.now e.key) result }
{
    let trail = sought::<K, V, Brand>(nodes, root, k, Blank::new(1));
    spot_at(nodes, trail)
}
