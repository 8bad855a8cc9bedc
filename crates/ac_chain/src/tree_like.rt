//! What is asked of a multiway tree, whatever keeps its nodes.
ghost use Rattle.std.specs.Prelude.{◌≡◌, ◌≤◌, false};
ghost use Rattle.ac_base.specs.Guards.{GuardCounts};
ghost use Rattle.ac_base.specs.declared.limit.TheConstants.{GREATEST_LENGTH};
ghost use Rattle.ac_chain.specs.TreeCursors.{NodeMarks, seen_by};
ghost use Rattle.ac_chain.specs.TreeWalk.{IsMet, MeetsNext, StandsBefore};
ghost use Rattle.ac_model.specs.Calls.{Lends, Same};
ghost use Rattle.ac_model.specs.Common as common;
ghost use Rattle.ac_model.specs.Containers.{Container, guards_of, with_guards};
ghost use Rattle.ac_model.specs.Forms.{Looks};
ghost use Rattle.ac_model.specs.Objects.{length_of, plain};
ghost use Rattle.ac_model.specs.Outline.{IsValidTree};
ghost use Rattle.ac_model.specs.Rows.{Node};
ghost use Rattle.ac_model.specs.Sequences as sequences;
ghost use Rattle.ac_model.specs.Trees as trees;

mod edited;

use ac_base::{Elem, Fault};
use ac_cursor::{Cursor, Guarded};
pub use edited::EditedTree;

/// A multiway tree (A.18.10). A contract sees it as a container, whose rows are an outline.
pub trait TreeLike<T: Elem>: Guarded + Drop {
    ghost seen: { Self → Container (Node T) };

    /// What holds of every tree, for proofs alone.
    fn law(&self)
        ensures { IsValidTree (plain (seen self.now).object) };

    /// How many elements have a slot.
    fn live_nodes(&self) -> u64
        ensures count { result ≡ length_of (seen self.now).object }
        ensures few { result ≤ GREATEST_LENGTH };

    fn node_count(&self) -> i64
        ensures { result ≡ trees.node_count_call (plain (seen self.now).object) };

    fn is_empty(&self) -> bool
        ensures { result ≡ common.is_empty_call (plain (seen self.now).object) };

    fn has_element(&self, c: Cursor) -> bool
        ensures { result ≡ common.has_element_call (plain (seen self.now).object) (seen_by (seen self.now) c) };

    fn element(&self, c: Cursor) -> Result<&T, Fault>
        ensures { Looks Lends (λ o. trees.element_call o (seen_by (seen self.now) c)) (seen self.now) result };

    fn root(&self) -> Cursor
        ensures { NodeMarks (seen self.now).object result (trees.root_call (plain (seen self.now).object)) };

    fn is_root(&self, c: Cursor) -> Result<bool, Fault>
        ensures { Looks Same (λ o. trees.is_root_call o (seen_by (seen self.now) c)) (seen self.now) result };

    fn is_leaf(&self, c: Cursor) -> Result<bool, Fault>
        ensures { Looks Same (λ o. trees.is_leaf_call o (seen_by (seen self.now) c)) (seen self.now) result };

    fn depth(&self, c: Cursor) -> Result<i64, Fault>
        ensures { Looks Same (λ o. trees.depth_call o (seen_by (seen self.now) c)) (seen self.now) result };

    fn subtree_node_count(&self, c: Cursor) -> Result<i64, Fault>
        ensures { Looks Same (λ o. trees.subtree_node_count_call o (seen_by (seen self.now) c)) (seen self.now) result };

    fn child_count(&self, c: Cursor) -> Result<i64, Fault>
        ensures { Looks Same (λ o. trees.child_count_call o (seen_by (seen self.now) c)) (seen self.now) result };

    fn parent(&self, c: Cursor) -> Result<Cursor, Fault>
        ensures { Looks (NodeMarks (seen self.now).object) (λ o. trees.parent_call o (seen_by (seen self.now) c))
            (seen self.now) result };

    fn next_sibling(&self, c: Cursor) -> Result<Cursor, Fault>
        ensures { Looks (NodeMarks (seen self.now).object) (λ o. trees.next_sibling_call o (seen_by (seen self.now) c))
            (seen self.now) result };

    fn previous_sibling(&self, c: Cursor) -> Result<Cursor, Fault>
        ensures { Looks (NodeMarks (seen self.now).object) (λ o. trees.previous_sibling_call o (seen_by (seen self.now) c))
            (seen self.now) result };

    fn first_child(&self, c: Cursor) -> Result<Cursor, Fault>
        ensures { Looks (NodeMarks (seen self.now).object) (λ o. trees.first_child_call o (seen_by (seen self.now) c))
            (seen self.now) result };

    fn last_child(&self, c: Cursor) -> Result<Cursor, Fault>
        ensures { Looks (NodeMarks (seen self.now).object) (λ o. trees.last_child_call o (seen_by (seen self.now) c))
            (seen self.now) result };

    fn find(&self, e: &T) -> Cursor
        ensures { NodeMarks (seen self.now).object result (trees.find_call T.is_same (plain (seen self.now).object) e.now) };

    fn contains(&self, e: &T) -> bool
        ensures { result ≡ trees.contains_call T.is_same (plain (seen self.now).object) e.now };

    fn find_in_subtree(&self, c: Cursor, e: &T) -> Result<Cursor, Fault>
        ensures { Looks (NodeMarks (seen self.now).object)
            (λ o. trees.find_in_subtree_call T.is_same o (seen_by (seen self.now) c) e.now) (seen self.now) result };

    fn ancestor_find(&self, c: Cursor, e: &T) -> Result<Cursor, Fault>
        ensures { Looks (NodeMarks (seen self.now).object)
            (λ o. trees.ancestor_find_call T.is_same o (seen_by (seen self.now) c) e.now) (seen self.now) result };

    fn equal(&self, other: &Self) -> bool
        ensures { result ≡ trees.equal_call T.is_same (plain (seen self.now).object) (plain (seen other.now).object) };

    /// "=" with itself: a tree may know the answer.
    fn equal_self(&self) -> bool
        ensures { result ≡ trees.equal_call T.is_same (plain (seen self.now).object) (plain (seen self.now).object) };

    /// The first element in preorder.
    fn first(&self) -> Cursor
        ensures { NodeMarks (seen self.now).object result (sequences.first_call (plain (seen self.now).object)) };

    /// The last element in preorder.
    fn last(&self) -> Cursor
        ensures { NodeMarks (seen self.now).object result (sequences.last_call (plain (seen self.now).object)) };

    fn next(&self, c: Cursor) -> Result<Cursor, Fault>
        ensures { Looks (NodeMarks (seen self.now).object) (λ o. sequences.next_call o (seen_by (seen self.now) c))
            (seen self.now) result };

    fn previous(&self, c: Cursor) -> Result<Cursor, Fault>
        ensures { Looks (NodeMarks (seen self.now).object) (λ o. sequences.previous_call o (seen_by (seen self.now) c))
            (seen self.now) result };

    /// The first element in preorder with its depth, where a walk begins.
    fn first_level(&self) -> (Cursor, u64)
        ensures { StandsBefore (seen self.now).object.number (seen self.now).object.rows result.0 result.1 };

    /// The next element in preorder with its depth.
    fn next_level(&self, c: Cursor, depth: u64) -> (Cursor, u64)
        requires { IsMet (seen self.now).object c depth }
        ensures { MeetsNext (seen self.now).object c result.0 result.1 };

    /// A tree is no set, and its guards are the container's.
    ghost no_set: { (tree : Self) → Self.is_set tree ≡ false };

    ghost guards_seen: { (tree : Self) → Self.guards tree ≡ guards_of (seen tree) };

    ghost given_seen: { (tree : Self) (counts : GuardCounts) → seen (Self.with_guards tree counts) ≡ with_guards (seen tree) counts };
}
