//! The calls that trees have with all kinds of rows.
use super::TreeRows;
use ac_base::{Fault, Value};
use ac_calls::{CommonRows, ScriptElement};
use ac_chain::EditedTree;
use ac_cursor::Cursor;
use std::alloc::Global;

impl<T: ScriptElement, C: EditedTree<T>> CommonRows for TreeRows<T, C> {
    fn length(&self) -> i64 {
        self.tree.live_nodes() as i64
    }

    fn is_empty(&self) -> bool {
        self.tree.is_empty()
    }

    fn has_element(&self, c: Cursor) -> bool {
        self.tree.has_element(c)
    }

    fn equal(&self, other: &TreeRows<T, C>) -> bool {
        self.tree.equal(&other.tree)
    }

    fn equal_self(&self) -> bool {
        self.tree.equal_self()
    }

    fn clear(&mut self) -> Result<(), Fault> {
        self.tree.clear()
    }

    fn replace_value(&mut self, alloc: Global, c: Cursor, value: Value) -> Result<(), Fault> {
        let element = T::from_value(alloc, value)?;
        self.tree.replace_element(c, element)
    }

    fn assign_self(&mut self) -> Result<(), Fault> {
        self.tree.assign_self()
    }

    fn move_from_self(&mut self) -> Result<(), Fault> {
        self.tree.move_from_self()
    }

    fn assign(&mut self, source: &TreeRows<T, C>) -> Result<(), Fault> {
        self.tree.assign(&source.tree)
    }

    fn move_from(&mut self, source: &mut TreeRows<T, C>) -> Result<(), Fault> {
        self.tree.move_from(&mut source.tree)
    }
}
