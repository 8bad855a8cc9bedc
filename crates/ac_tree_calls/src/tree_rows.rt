//! A multiway tree of a script as an object with rows, in preorder.
ghost use Rattle.std.specs.Prelude.{◌≡◌, false, refl};
ghost use Rattle.ac_model.specs.Containers.{guards_of, with_guards};

mod common_rows;
mod listing;
mod operated_rows;
mod plain_copies;
mod row_object;

use ac_calls::ScriptElement;
use ac_chain::{EditedTree, TreeLike};
use ac_cursor::{GuardKey, GuardKind, Guarded};
use std::marker::{Model, PhantomData};

/// A tree (A.18.10) of a script, whatever keeps its nodes. A contract sees it as a container.
#[derive(Drop)]
pub struct TreeRows<T: ScriptElement, C: EditedTree<T>> {
    tree: C,
    of: PhantomData<T>,
}

impl<T: ScriptElement, C: EditedTree<T>> Model for TreeRows<T, C> {
    ghost use Rattle.ac_chain.specs.TreeNodes.{node_code};
    ghost use Rattle.ac_model.specs.Containers.{Container, container_code};
    ghost use Rattle.ac_model.specs.Rows.{Node};

    ghost Value = { Container (Node T) };

    ghost coded = { container_code (node_code T.code) };

    ghost view = { λ t. C.seen t.tree };
}

impl<T: ScriptElement, C: EditedTree<T>> TreeRows<T, C> {
    pub fn new(tree: C) -> TreeRows<T, C>
        ensures { result ≡ C.seen tree }
    {
        TreeRows {
            tree,
            of: PhantomData,
        }
    }

    /// The tree that it is.
    pub fn tree(&self) -> &C
        ensures { C.seen result.now ≡ self.now }
    {
        &self.tree
    }
}

impl<T: ScriptElement, C: EditedTree<T>> Guarded for TreeRows<T, C> {
    ghost is_set = { λ _. false };

    ghost guards = { guards_of };

    ghost with_guards = { with_guards };

    ghost guards_given = { λ _ _. refl };

    ghost guards_own = { λ _. refl };

    ghost rest_kept = { λ _ _ _. refl };

    ghost set_kept = { λ _ _. refl };

    fn hold(&mut self, kind: GuardKind) -> GuardKey {
        self.tree.hold(kind)
    }

    fn release(&mut self, key: GuardKey) {
        self.tree.release(key);
    }

    fn held(&self, kind: GuardKind) -> u64 {
        self.tree.held(kind)
    }
}

/// What a row of a tree holds.
pub struct TreeRow<T> {
    pub depth: u64,
    pub element: T,
}

impl<T> Model for TreeRow<T> {
    ghost use Rattle.ac_chain.specs.TreeNodes.{node_code};
    ghost use Rattle.ac_model.specs.Rows.{Node, node};

    ghost Value = { Node T };

    ghost coded = { node_code T.code };

    ghost view = { λ r. node r.depth r.element };
}
