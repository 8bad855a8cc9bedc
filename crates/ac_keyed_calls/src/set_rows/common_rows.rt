//! Sets with the calls that all kinds of rows have.

use super::SetRows;
use ac_base::{Fault, Value};
use ac_calls::{CommonRows, ScriptElement};
use ac_cursor::Cursor;
use ac_setwork::Keyed;
use std::alloc::Global;

impl<I: Keyed> CommonRows for SetRows<I>
where
    I::Row: ScriptElement,
{
    fn length(&self) -> i64 {
        self.table.length()
    }

    fn is_empty(&self) -> bool {
        self.table.is_empty()
    }

    fn has_element(&self, c: Cursor) -> bool {
        self.table.has_element(c)
    }

    fn equal(&self, other: &SetRows<I>) -> bool {
        other.table.law();
        self.table.equal(&other.table)
    }

    fn clear(&mut self) -> Result<(), Fault> {
        self.table.clear()
    }

    fn replace_value(&mut self, alloc: Global, c: Cursor, value: Value) -> Result<(), Fault> {
        let element = I::Row::from_value(alloc, value)?;
        self.table.replace_element(c, element)
    }

    fn assign_self(&mut self) -> Result<(), Fault> {
        self.table.assign_self()
    }

    fn move_from_self(&mut self) -> Result<(), Fault> {
        self.table.move_from_self()
    }

    fn assign(&mut self, source: &SetRows<I>) -> Result<(), Fault> {
        self.table.assign(&source.table)
    }

    fn move_from(&mut self, source: &mut SetRows<I>) -> Result<(), Fault> {
        self.table.move_from(&mut source.table)
    }
}
