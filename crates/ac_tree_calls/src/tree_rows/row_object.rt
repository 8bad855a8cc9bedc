//! A tree as an object with rows: a walk in preorder, and views of its elements.
ghost use Rattle.ac_calls.specs.Holdings.{a_tree};
ghost use Rattle.ac_calls.specs.TreeReplies.{tree_own};

use super::{TreeRow, TreeRows};
use ac_base::{Fault, NoMemory, Reason, Value};
use ac_calls::{RowObject, ScriptElement};
use ac_chain::EditedTree;
use ac_cursor::Cursor;
use std::alloc::Global;

impl<T: ScriptElement, C: EditedTree<T>> RowObject for TreeRows<T, C> {
    type Row = TreeRow<T>;

    ghost rows = { λ t. t };

    ghost kind = { λ _. a_tree T.elem };

    ghost own = { λ _ o. tree_own T.tools o };

    fn law(&self) {
        self.tree.law()
    }

    fn live_nodes(&self) -> u64 {
        self.tree.live_nodes()
    }

    fn first(&self) -> Cursor {
        self.tree.law();
        self.tree.first()
    }

    fn last(&self) -> Cursor {
        self.tree.law();
        self.tree.last()
    }

    fn next(&self, c: Cursor) -> Result<Cursor, Fault> {
        self.tree.law();
        self.tree.next(c)
    }

    fn previous(&self, c: Cursor) -> Result<Cursor, Fault> {
        self.tree.law();
        self.tree.previous(c)
    }

    fn refused(&self, c: Cursor) -> Option<Reason> {
        match self.tree.element(c) {
            Ok(_) => None,
            Err(Fault::Raised(reason)) => Some(reason),
            Err(Fault::NoMemory) => unreachable!(),
        }
    }

    fn element_value(&self, alloc: Global, c: Cursor) -> Result<Value, NoMemory> {
        match self.tree.element(c) {
            Ok(element) => element.to_value(alloc),
            Err(_) => unreachable!(),
        }
    }

    fn write_value(&mut self, alloc: Global, c: Cursor, value: Value) -> Result<(), Fault> {
        let element = T::from_value(alloc, value)?;
        self.tree.write(c, element)
    }

    /// A type of elements has one kind of trees.
    fn is_like(&self, _other: &TreeRows<T, C>) -> bool {
        true
    }
}
