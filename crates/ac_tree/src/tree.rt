//! The tree. A contract sees its object, whose rows are an outline, and how many elements more it takes without memory.
ghost use Rattle.std.specs.Prelude.{◌≡◌, ◌≤◌, ◌+◌, None, IfOk, IfErr, IsOk, false, refl};
ghost use Rattle.ac_base.specs.Limits.{IsLimit};
ghost use Rattle.ac_model.specs.Common as common;
ghost use Rattle.ac_model.specs.Containers.{HasSlots, first_spare, with_guards, guards_of};
ghost use Rattle.ac_model.specs.Objects.{empty_object, plain, length_of};
ghost use Rattle.ac_model.specs.Outline.{IsValidTree};
ghost use Rattle.ac_model.specs.Trees as trees;

mod copies;
mod cursors;
mod deletions;
mod families;
mod grafts;
mod insertions;
mod looking;
mod loops;
mod moves;
mod searches;
mod splices;
mod transfers;
mod tree_like;
mod values;

use crate::links::Links;
use ac_base::{Fault, GREATEST_LENGTH, Limit};
use ac_cursor::{GuardKey, GuardKind, Guarded, Guards, Tag};
use std::alloc::Global;
use std::marker::Model;

/// A multiway tree (A.18.10), which is told its number by a tag.
#[derive(Drop)]
pub struct Tree<T> {
    alloc: Global,
    links: Links<T>,
    guards: Guards,
    limit: Limit,
}

impl<T> Model for Tree<T> {
    ghost use Rattle.ac_model.specs.Rows.{Node};
    ghost use Rattle.ac_model.specs.Containers.{Container, container, container_code};
    ghost use Rattle.ac_tree.specs.TreeRows.{tree_object, IsTree};
    ghost use Rattle.ac_chain.specs.TreeNodes.{node_code};

    ghost Value = { Container (Node T) };

    ghost coded = { container_code (node_code T.code) };

    ghost view = { λ t. container (tree_object t.guards t.limit t.links) t.links.nodes.spare };

    ghost invariant = { λ t. IsTree t.limit t.links };
}

impl<T: Drop> Tree<T> {
    /// An empty tree. A bounded one takes all its memory here, and an unbounded one takes none.
    pub fn new(alloc: Global, tag: Tag, limit: Limit) -> Result<Tree<T>, Fault>
        requires { IsLimit limit }
        ensures empty { IfOk result (λ made. made.object ≡ empty_object false tag limit) }
        ensures spare { IfOk result (λ made. made.spare ≡ first_spare limit) }
        ensures memory { IfErr result (λ e. e ≡ Fault.NoMemory) }
        ensures unbounded { limit ≡ Limit.Unbounded → IsOk result }
    {
        let Ok(links) = Links::empty(alloc, limit) else {
            return Err(Fault::NoMemory);
        };
        Ok(Tree {
            alloc,
            links,
            guards: Guards::new(tag),
            limit,
        })
    }
}

impl<T> Tree<T> {
    /// What holds of every tree, for proofs alone.
    pub fn law(&self)
        ensures valid { IsValidTree (plain self.now.object) }
        ensures limit { IsLimit self.now.object.limit }
        ensures slots { HasSlots self.now.object.limit (length_of self.now.object) self.now.spare }
    {
        let _links = &self.links;
    }

    pub fn number(&self) -> u64
        ensures { result ≡ self.now.object.number }
    {
        self.guards.number()
    }

    pub fn limit(&self) -> Limit
        ensures { result ≡ self.now.object.limit }
    {
        self.limit
    }

    /// Is_Empty (A.18.10): the root is no element.
    pub fn is_empty(&self) -> bool
        ensures { result ≡ common.is_empty_call (plain self.now.object) }
    {
        self.live_nodes() == 0
    }

    /// Node_Count (A.18.10): the root counts.
    pub fn node_count(&self) -> i64
        ensures { result ≡ trees.node_count_call (plain self.now.object) }
    {
        (1 + self.live_nodes()) as i64
    }

    /// How many elements have a slot.
    pub fn live_nodes(&self) -> u64
        ensures count { result ≡ length_of self.now.object }
        ensures few { result ≤ GREATEST_LENGTH }
    {
        self.links.nodes.live()
    }

    /// How many slots there are, with and without an element.
    pub fn slots(&self) -> u64
        ensures { result ≡ length_of self.now.object + self.now.spare }
    {
        self.links.nodes.slots()
    }
}

impl<T> Guarded for Tree<T> {
    ghost is_set = { λ _. false };

    ghost guards = { guards_of };

    ghost with_guards = { with_guards };

    fn hold(&mut self, kind: GuardKind) -> GuardKey {
        self.guards.hold(kind)
    }

    fn release(&mut self, key: GuardKey) {
        self.guards.release(key);
    }

    fn held(&self, kind: GuardKind) -> u64 {
        self.guards.held(kind)
    }

    ghost guards_given = { λ _ _. refl };

    ghost guards_own = { λ _. refl };

    ghost rest_kept = { λ _ _ _. refl };

    ghost set_kept = { λ _ _. refl };
}
