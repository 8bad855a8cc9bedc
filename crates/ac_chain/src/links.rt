//! Nodes in a pool, each with links to the one before and the one after it. The writes of single links.
//! A link is a slot, and leads to the live name of the slot: the serial stands in the pool alone.
ghost use Rattle.std.specs.Prelude.{◌≡◌};
ghost use Rattle.ac_pool.specs.Contents.{value_of, IsLive};
ghost use Rattle.ac_pool.specs.Link.{link_of, name_in};
ghost use Rattle.ac_chain.specs.ChainFields.{next_of, prev_of, before_in, link_before, with_next, with_prev, joined, linked_before, attached, closed, unlinked, next_link, prev_link, with_links, exchanged_in};
ghost use Rattle.std.specs.Option.{option_map};
ghost use Rattle.std.specs.Borrow.{sem};

use ac_base::Name;
use ac_pool::{NO_SLOT, Pool, link_to};

#[derive(Drop)]
pub struct Node<T> {
    pub value: T,
    pub prev: u32,
    pub next: u32,
}

#[derive(Drop)]
pub struct Links<T> {
    pub nodes: Pool<Node<T>>,
    pub first: Option<Name>,
    pub last: Option<Name>,
}

impl<T> Links<T> {
    ghost use Rattle.ac_chain.specs.LinksLends.{lends_node_value};
    ghost use Rattle.ac_chain.specs.declared.links.Node.{Node};

    #[inline(always)]
    fn next_link(&self, name: Name) -> u32
        ensures { result ≡ next_link (value_of self.now.nodes name) }
    {
        match self.nodes.get(name) {
            Some(node) => node.next,
            None => NO_SLOT,
        }
    }

    fn prev_link(&self, name: Name) -> u32
        ensures { result ≡ prev_link (value_of self.now.nodes name) }
    {
        match self.nodes.get(name) {
            Some(node) => node.prev,
            None => NO_SLOT,
        }
    }

    /// The name to which a link leads.
    #[inline(always)]
    fn name_in(&self, slot: u32) -> Option<Name>
        ensures { result ≡ name_in self.now.nodes slot }
    {
        self.nodes.name_in(slot)
    }

    #[inline(always)]
    pub fn next(&self, name: Name) -> Option<Name>
        ensures { result ≡ next_of self.now.nodes (value_of self.now.nodes name) }
    {
        self.name_in(self.next_link(name))
    }

    pub fn prev(&self, name: Name) -> Option<Name>
        ensures { result ≡ prev_of self.now.nodes (value_of self.now.nodes name) }
    {
        self.name_in(self.prev_link(name))
    }

    /// The name after which a row before the place is linked.
    fn before(&self, place: Option<Name>) -> Option<Name>
        ensures { result ≡ before_in self.now place }
    {
        match place {
            Some(name) => self.prev(name),
            None => self.last,
        }
    }

    /// The link that leads from a row before the place to the one before it.
    pub fn link_before(&self, place: Option<Name>) -> u32
        ensures { result ≡ link_before self.now place }
    {
        match place {
            Some(name) => self.prev_link(name),
            None => link_to(self.last),
        }
    }

    #[tactic(auto, unfolding(crate::specs::ChainFields::with_next))]
    fn set_node_next(&mut self, at: Name, to: Option<Name>)
        ensures { self.new ≡ with_next self.old (Some at) to }
    {
        if let Some(node) = self.nodes.get_mut(at) {
            node.next = link_to(to);
        }
    }

    #[tactic(auto, unfolding(crate::specs::ChainFields::with_prev))]
    fn set_node_prev(&mut self, at: Name, to: Option<Name>)
        ensures { self.new ≡ with_prev self.old (Some at) to }
    {
        if let Some(node) = self.nodes.get_mut(at) {
            node.prev = link_to(to);
        }
    }

    #[tactic(auto, unfolding(crate::specs::ChainFields::with_next))]
    fn set_next(&mut self, at: Option<Name>, to: Option<Name>)
        ensures { self.new ≡ with_next self.old at to }
    {
        match at {
            Some(name) => self.set_node_next(name, to),
            None => self.first = to,
        }
    }

    #[tactic(auto, unfolding(crate::specs::ChainFields::with_prev))]
    fn set_prev(&mut self, at: Option<Name>, to: Option<Name>)
        ensures { self.new ≡ with_prev self.old at to }
    {
        match at {
            Some(name) => self.set_node_prev(name, to),
            None => self.last = to,
        }
    }

    #[tactic(auto, unfolding(crate::specs::ChainFields::with_links))]
    fn set_links(&mut self, at: Name, prev: u32, next: u32)
        ensures { self.new ≡ with_links self.old at prev next }
    {
        if let Some(node) = self.nodes.get_mut(at) {
            node.prev = prev;
            node.next = next;
        }
    }

    #[inline(always)]
    #[tactic(auto, unfolding(crate::specs::ChainFields::joined))]
    fn join(&mut self, left: Option<Name>, right: Option<Name>)
        ensures { self.new ≡ joined self.old left right }
    {
        self.set_next(left, right);
        self.set_prev(right, left);
    }

    /// Links the node that no other is linked with before the place.
    pub fn link(&mut self, place: Option<Name>, moved: Name)
        ensures { self.new ≡ linked_before self.old place moved }
    {
        let before = self.before(place);
        self.set_next(before, Some(moved));
        self.set_links(moved, link_to(before), link_to(place));
        self.set_prev(place, Some(moved));
    }

    /// Links the nodes on both sides of a new one, which has its own links, with it.
    #[inline(always)]
    #[tactic(auto, unfolding(crate::specs::ChainFields::attached))]
    pub fn attach(&mut self, before: u32, place: Option<Name>, name: Name)
        ensures { self.new ≡ attached self.old before place name }
    {
        let before = self.name_in(before);
        self.set_next(before, Some(name));
        self.set_prev(place, Some(name));
    }

    /// Links the nodes to which the two links lead with each other.
    #[inline(always)]
    pub fn close(&mut self, prev: u32, next: u32)
        ensures { self.new ≡ closed self.old prev next }
    {
        let left = self.name_in(prev);
        let right = self.name_in(next);
        self.join(left, right);
    }

    #[tactic(auto, unfolding(crate::specs::ChainFields::unlinked))]
    /// Links the nodes before and after this one with each other.
    pub fn unlink(&mut self, name: Name)
        ensures { self.new ≡ unlinked self.old name }
    {
        let prev = self.prev_link(name);
        let next = self.next_link(name);
        self.close(prev, next);
    }

    /// The value of a live name's node, for writing.
    pub fn value_mut(&mut self, name: Name) -> &mut T
        requires { IsLive self.old.nodes name }
        ensures* writes_back { sem 𝓛 (lends_node_value T.row self.entry name result) }
        ensures value { option_map (λ (n : Node T). n.value) (value_of self.old.nodes name) ≡ Some result.now }
    {
        &mut self.nodes.get_mut(name).unwrap().value
    }

    /// Exchanges the values of two nodes, which keep their links.
    #[tactic(auto, unfolding(crate::specs::ChainFields::exchanged_in))]
    pub fn exchange(&mut self, a: Name, b: Name)
        ensures { self.new ≡ exchanged_in self.old a b }
    {
        let prev_a = self.prev_link(a);
        let next_a = self.next_link(a);
        let prev_b = self.prev_link(b);
        let next_b = self.next_link(b);
        self.nodes.swap(a, b);
        self.set_links(a, prev_a, next_a);
        self.set_links(b, prev_b, next_b);
    }
}
