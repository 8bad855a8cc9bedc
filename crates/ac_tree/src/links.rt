//! Nodes in a pool, each with links to its parent, to its first and last child, and to the siblings on both sides.
//! A link is a slot, and leads to the live name of the slot: the serial stands in the pool alone. The root has no node.
ghost use Rattle.std.specs.Prelude.{◌≡◌, ◌+◌, ◌-◌, ◌^◌, ◌<◌, ◌≤◌, ◌↔◌, Some, is_some, IfOk, IsOk, IsTrue, OnOk, OnErr};
ghost use Rattle.std.specs.Option.{option_map};
ghost use Rattle.ac_pool.specs.Contents.{value_of, IsLive, live_count};
ghost use Rattle.ac_base.specs.Limits.{IsLimit};
ghost use Rattle.ac_model.specs.Containers.{first_spare};
ghost use Rattle.ac_pool.specs.Link.{link_of, name_in, value_in};
ghost use Rattle.ac_pool.specs.Runs.{LiesFrom};
ghost use Rattle.ac_tree.specs.Inserting.{Inserts, Reserves};
ghost use Rattle.ac_tree.specs.Removing.{Removes};
ghost use Rattle.ac_tree.specs.Splicing.{Moves};
ghost use Rattle.ac_tree.specs.TreeFields.{parent_link, first_link, last_link, prev_link, next_link, parent_of, first_of, last_of, prev_of, next_of, prev_before, first_put, last_put, prev_put, next_put, written_at, with_next, with_prev, tied, closed, links, parent_put, place_put, value_put, links_in, links_put, exchanged_in, IsEmptied};

use ac_base::{Limit, Name, NoMemory};
use ac_pool::{NO_SLOT, Pool, Run, link_to};
use std::alloc::Global;

#[derive(Drop)]
pub struct TreeNode<T> {
    pub value: T,
    /// Of a child of the root it leads to no node.
    pub parent: u32,
    pub first: u32,
    pub last: u32,
    pub prev: u32,
    pub next: u32,
}

/// The links of a node.
#[derive(Clone, Copy)]
pub struct NodeLinks {
    pub parent: u32,
    pub first: u32,
    pub last: u32,
    pub prev: u32,
    pub next: u32,
}

/// The nodes, and the first and the last child of the root.
#[derive(Drop)]
pub struct Links<T> {
    pub nodes: Pool<TreeNode<T>>,
    pub first: Option<Name>,
    pub last: Option<Name>,
}

impl<T> Links<T> {
    ghost use Rattle.ac_tree.specs.declared.links.TreeNode.{TreeNode};

    fn parent_link(&self, name: Name) -> u32
        ensures { result ≡ parent_link (value_of self.now.nodes name) }
    {
        match self.nodes.get(name) {
            Some(node) => node.parent,
            None => NO_SLOT,
        }
    }

    fn first_link(&self, name: Name) -> u32
        ensures { result ≡ first_link (value_of self.now.nodes name) }
    {
        match self.nodes.get(name) {
            Some(node) => node.first,
            None => NO_SLOT,
        }
    }

    fn last_link(&self, name: Name) -> u32
        ensures { result ≡ last_link (value_of self.now.nodes name) }
    {
        match self.nodes.get(name) {
            Some(node) => node.last,
            None => NO_SLOT,
        }
    }

    fn prev_link(&self, name: Name) -> u32
        ensures { result ≡ prev_link (value_of self.now.nodes name) }
    {
        match self.nodes.get(name) {
            Some(node) => node.prev,
            None => NO_SLOT,
        }
    }

    pub(crate) fn next_link(&self, name: Name) -> u32
        ensures { result ≡ next_link (value_of self.now.nodes name) }
    {
        match self.nodes.get(name) {
            Some(node) => node.next,
            None => NO_SLOT,
        }
    }

    /// The name to which a link leads.
    #[inline(always)]
    pub(crate) fn name_in(&self, slot: u32) -> Option<Name>
        ensures { result ≡ name_in self.now.nodes slot }
    {
        self.nodes.name_in(slot)
    }

    /// The node to which a link leads, with those in the slots behind it that lie together.
    #[inline(always)]
    pub(crate) fn run_at(&self, slot: u32) -> Run<'_, TreeNode<T>>
        ensures { LiesFrom (value_in self.now.nodes) slot result }
    {
        self.nodes.run_at(slot)
    }

    /// Whether a link leads to a node.
    #[inline(always)]
    pub(crate) fn leads(&self, slot: u32) -> bool
        ensures { result ≡ is_some (name_in self.now.nodes slot) }
    {
        self.name_in(slot).is_some()
    }

    /// The parent of a node, where none is the root.
    pub fn parent(&self, name: Name) -> Option<Name>
        ensures { result ≡ parent_of self.now name }
    {
        self.name_in(self.parent_link(name))
    }

    pub fn prev(&self, name: Name) -> Option<Name>
        ensures { result ≡ prev_of self.now name }
    {
        self.name_in(self.prev_link(name))
    }

    pub fn next(&self, name: Name) -> Option<Name>
        ensures { result ≡ next_of self.now name }
    {
        self.name_in(self.next_link(name))
    }

    /// The first child of a node, or of the root at none.
    pub fn first_child(&self, parent: Option<Name>) -> Option<Name>
        ensures { result ≡ first_of self.now parent }
    {
        match parent {
            Some(name) => self.name_in(self.first_link(name)),
            None => self.first,
        }
    }

    #[inline(always)]
    pub fn last_child(&self, parent: Option<Name>) -> Option<Name>
        ensures { result ≡ last_of self.now parent }
    {
        match parent {
            Some(name) => self.name_in(self.last_link(name)),
            None => self.last,
        }
    }

    /// How many nodes there are.
    pub fn count(&self) -> u64
        ensures { result ≡ live_count self.now.nodes }
    {
        self.nodes.live()
    }

    /// The value of a live name's node.
    pub fn at(&self, name: Name) -> &T
        requires { IsLive self.now.nodes name }
        ensures { option_map (λ (n : TreeNode T). n.value) (value_of self.now.nodes name) ≡ Some result.now }
    {
        &self.nodes.get(name).unwrap().value
    }

    /// Links a node, or a parent where there is none before, with the one that follows.
    #[tactic(auto, unfolding(crate::specs::TreeFields::with_next))]
    #[inline(always)]
    fn set_next(&mut self, parent: Option<Name>, prev: Option<Name>, to: Option<Name>)
        ensures { self.new ≡ with_next self.old parent prev to }
    {
        match prev {
            Some(name) => set_node_next(&mut self.nodes, name, to),
            None => self.set_first(parent, to),
        }
    }

    #[tactic(auto, unfolding(crate::specs::TreeFields::with_next))]
    fn set_first(&mut self, parent: Option<Name>, to: Option<Name>)
        ensures { self.new ≡ with_next self.old parent None to }
    {
        match parent {
            Some(name) => set_node_first(&mut self.nodes, name, to),
            None => self.first = to,
        }
    }

    /// Links a node, or a parent where there is none behind, with the one before it.
    #[tactic(auto, unfolding(crate::specs::TreeFields::with_prev))]
    #[inline(always)]
    fn set_prev(&mut self, parent: Option<Name>, next: Option<Name>, to: Option<Name>)
        ensures { self.new ≡ with_prev self.old parent next to }
    {
        match next {
            Some(name) => set_node_prev(&mut self.nodes, name, to),
            None => self.set_last(parent, to),
        }
    }

    #[tactic(auto, unfolding(crate::specs::TreeFields::with_prev))]
    fn set_last(&mut self, parent: Option<Name>, to: Option<Name>)
        ensures { self.new ≡ with_prev self.old parent None to }
    {
        match parent {
            Some(name) => set_node_last(&mut self.nodes, name, to),
            None => self.last = to,
        }
    }

    /// Links the nodes on both sides of one, or its parent, with it.
    #[inline(always)]
    pub fn tie(&mut self, parent: Option<Name>, prev: Option<Name>, next: Option<Name>, name: Name)
        ensures { self.new ≡ tied self.old parent prev next name }
    {
        self.set_next(parent, prev, Some(name));
        self.set_prev(parent, next, Some(name));
    }

    /// The node after which one before a child of the parent, or behind the last, is linked.
    #[inline(always)]
    fn prev_before(&self, parent: Option<Name>, before: Option<Name>) -> Option<Name>
        ensures { result ≡ prev_before self.now parent before }
    {
        match before {
            Some(name) => self.prev(name),
            None => self.last_child(parent),
        }
    }

    /// Puts a value as a new child of the parent before one of its children, or behind the last.
    #[inline(always)]
    pub fn insert(&mut self, parent: Option<Name>, before: Option<Name>, value: T) -> Name
        requires spare { 0 < self.old.nodes.spare }
        requires unspent { self.old.nodes.next_serial < 2 ^ 64 - 1 }
        ensures { Inserts self.old parent before value self.new result }
    {
        let prev = self.prev_before(parent, before);
        let name = self.nodes.put_reserved(TreeNode {
            value,
            parent: link_to(parent),
            first: NO_SLOT,
            last: NO_SLOT,
            prev: link_to(prev),
            next: link_to(before),
        });
        self.tie(parent, prev, before, name);
        name
    }

    /// Makes at least `n` slots spare. Where it must grow, the slots become the least `8 * 2^k` that has room for `n` nodes more.
    pub fn reserve(&mut self, n: u64) -> Result<(), NoMemory>
        requires { live_count self.old.nodes + n ≤ 2 ^ 30 }
        ensures ok { OnOk result (Reserves self.old n self.new) }
        ensures err { OnErr result (self.new ≡ self.old) }
        ensures had_room { n ≤ self.old.nodes.spare → IsOk result }
    {
        self.nodes.reserve(n)
    }

    /// Links the nodes on both sides of one that goes with each other.
    pub fn close(&mut self, parent: Option<Name>, prev: Option<Name>, next: Option<Name>)
        ensures { self.new ≡ closed self.old parent prev next }
    {
        self.set_next(parent, prev, next);
        self.set_prev(parent, next, prev);
    }

    /// Gives the name's node another parent and other siblings, and leaves it its children.
    #[tactic(auto, unfolding(crate::specs::TreeFields::written_at))]
    fn set_place(
        &mut self,
        name: Name,
        parent: Option<Name>,
        prev: Option<Name>,
        next: Option<Name>,
    )
        ensures { self.new ≡ links (written_at self.old.nodes name (place_put parent prev next)) self.old.first self.old.last }
    {
        if let Some(node) = self.nodes.get_mut(name) {
            node.parent = link_to(parent);
            node.prev = link_to(prev);
            node.next = link_to(next);
        }
    }

    /// Moves a node with all below it: it becomes a child of the parent before one of its children, or behind the last.
    pub fn move_to(&mut self, name: Name, parent: Option<Name>, before: Option<Name>)
        ensures { Moves self.old name parent before self.new }
    {
        let above = self.parent(name);
        let prev = self.prev(name);
        let next = self.next(name);
        self.close(above, prev, next);
        let last = self.prev_before(parent, before);
        self.set_place(name, parent, last, before);
        self.tie(parent, last, before, name);
    }

    /// Gives the name's node another parent, and leaves it its siblings.
    #[tactic(auto, unfolding(crate::specs::TreeFields::written_at))]
    pub fn set_parent(&mut self, name: Name, parent: Option<Name>)
        ensures { self.new ≡ links (written_at self.old.nodes name (parent_put parent)) self.old.first self.old.last }
    {
        if let Some(node) = self.nodes.get_mut(name) {
            node.parent = link_to(parent);
        }
    }

    /// Links nodes that are linked with each other, from the first to the last one, before a child of the parent, or behind the last.
    pub fn join(
        &mut self,
        parent: Option<Name>,
        before: Option<Name>,
        first: Option<Name>,
        last: Option<Name>,
    )
        ensures { self.new ≡ closed (closed self.old parent (prev_before self.old parent before) first) parent last before }
    {
        let prev = self.prev_before(parent, before);
        self.close(parent, prev, first);
        self.close(parent, last, before);
    }

    /// The links of the name's node, which lead to no node where it isn't live.
    fn node_links(&self, name: Name) -> NodeLinks
        ensures { result ≡ links_in (value_of self.now.nodes name) }
    {
        match self.nodes.get(name) {
            Some(node) => NodeLinks {
                parent: node.parent,
                first: node.first,
                last: node.last,
                prev: node.prev,
                next: node.next,
            },
            None => NodeLinks {
                parent: NO_SLOT,
                first: NO_SLOT,
                last: NO_SLOT,
                prev: NO_SLOT,
                next: NO_SLOT,
            },
        }
    }

    /// Gives the name's node other links.
    #[tactic(auto, unfolding(crate::specs::TreeFields::written_at))]
    fn set_links(&mut self, name: Name, to: NodeLinks)
        ensures { self.new ≡ links (written_at self.old.nodes name (links_put to)) self.old.first self.old.last }
    {
        if let Some(node) = self.nodes.get_mut(name) {
            node.parent = to.parent;
            node.first = to.first;
            node.last = to.last;
            node.prev = to.prev;
            node.next = to.next;
        }
    }

    /// Exchanges the values of two nodes, which keep their links.
    #[tactic(auto, unfolding(crate::specs::TreeFields::exchanged_in))]
    pub fn exchange(&mut self, a: Name, b: Name)
        ensures { self.new ≡ exchanged_in self.old a b }
    {
        let at_a = self.node_links(a);
        let at_b = self.node_links(b);
        self.nodes.swap(a, b);
        self.set_links(a, at_a);
        self.set_links(b, at_b);
    }
}

impl<T: Drop> Links<T> {
    /// Gives the name's node another value.
    #[tactic(auto, unfolding(crate::specs::TreeFields::written_at))]
    pub fn set_value(&mut self, name: Name, value: T)
        ensures { self.new ≡ links (written_at self.old.nodes name (value_put value)) self.old.first self.old.last }
    {
        if let Some(node) = self.nodes.get_mut(name) {
            node.value = value;
        }
    }

    /// Takes a node without children out, and frees its slot.
    pub fn remove(&mut self, name: Name)
        ensures { Removes self.old name self.new }
    {
        let parent = self.parent(name);
        let prev = self.prev(name);
        let next = self.next(name);
        self.close(parent, prev, next);
        let _node = self.nodes.take(name);
    }

    /// No nodes, with the slots that a limit asks for.
    pub fn empty(alloc: Global, limit: Limit) -> Result<Links<T>, NoMemory>
        requires { IsLimit limit }
        ensures empty { IfOk result (λ made. IsEmptied made (first_spare limit)) }
        ensures unbounded { limit ≡ Limit.Unbounded → IsOk result }
    {
        let nodes = match limit {
            Limit::Unbounded => Pool::new(alloc),
            Limit::Bounded(most) => Pool::with_slots(alloc, most)?,
        };
        Ok(Links {
            nodes,
            first: None,
            last: None,
        })
    }
}

#[tactic(auto, unfolding(crate::specs::TreeFields::written_at))]
fn set_node_next<T>(nodes: &mut Pool<TreeNode<T>>, name: Name, to: Option<Name>)
    ensures { nodes.new ≡ written_at nodes.old name (next_put to) }
{
    if let Some(node) = nodes.get_mut(name) {
        node.next = link_to(to);
    }
}

#[tactic(auto, unfolding(crate::specs::TreeFields::written_at))]
fn set_node_prev<T>(nodes: &mut Pool<TreeNode<T>>, name: Name, to: Option<Name>)
    ensures { nodes.new ≡ written_at nodes.old name (prev_put to) }
{
    if let Some(node) = nodes.get_mut(name) {
        node.prev = link_to(to);
    }
}

#[tactic(auto, unfolding(crate::specs::TreeFields::written_at))]
fn set_node_first<T>(nodes: &mut Pool<TreeNode<T>>, name: Name, to: Option<Name>)
    ensures { nodes.new ≡ written_at nodes.old name (first_put to) }
{
    if let Some(node) = nodes.get_mut(name) {
        node.first = link_to(to);
    }
}

#[tactic(auto, unfolding(crate::specs::TreeFields::written_at))]
fn set_node_last<T>(nodes: &mut Pool<TreeNode<T>>, name: Name, to: Option<Name>)
    ensures { nodes.new ≡ written_at nodes.old name (last_put to) }
{
    if let Some(node) = nodes.get_mut(name) {
        node.last = link_to(to);
    }
}

pub(crate) fn is_same(a: Option<Name>, b: Option<Name>) -> bool
    ensures { IsTrue result ↔ (a ≡ b) }
{
    a == b
}
