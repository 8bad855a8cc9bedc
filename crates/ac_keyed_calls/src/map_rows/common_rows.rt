//! The calls that maps have with all kinds of rows, and with sets.
use super::MapRows;
use crate::map_kind::MapKind;
use crate::walk_calls::KeyedRows;
use ac_base::{Fault, Value};
use ac_calls::{CommonRows, ScriptElement};
use ac_cursor::Cursor;
use std::alloc::Global;

impl<K: ScriptElement, V: ScriptElement, M: MapKind<K, V>> CommonRows for MapRows<K, V, M> {
    fn length(&self) -> i64 {
        self.table.length()
    }

    fn is_empty(&self) -> bool {
        self.table.is_empty()
    }

    fn has_element(&self, c: Cursor) -> bool {
        self.table.has_element(c)
    }

    fn equal(&self, other: &MapRows<K, V, M>) -> bool {
        self.table.equal(&other.table)
    }

    fn clear(&mut self) -> Result<(), Fault> {
        self.table.clear()
    }

    fn replace_value(&mut self, alloc: Global, c: Cursor, value: Value) -> Result<(), Fault> {
        let element = V::from_value(alloc, value)?;
        self.replace_element(c, element)
    }

    fn assign_self(&mut self) -> Result<(), Fault> {
        self.table.assign_self()
    }

    fn move_from_self(&mut self) -> Result<(), Fault> {
        self.table.move_from_self()
    }

    fn assign(&mut self, source: &MapRows<K, V, M>) -> Result<(), Fault> {
        self.table.assign(&source.table)
    }

    fn move_from(&mut self, source: &mut MapRows<K, V, M>) -> Result<(), Fault> {
        self.table.move_from(&mut source.table)
    }
}

impl<K: ScriptElement, V: ScriptElement, M: MapKind<K, V>> KeyedRows for MapRows<K, V, M> {
    fn delete(&mut self, q: &mut Cursor) -> Result<(), Fault> {
        self.table.delete(q)
    }
}
