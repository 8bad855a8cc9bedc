//! Sets with the calls of maps and sets, and of what is ordered.
ghost use Rattle.ac_model.specs.Sequences as sequences;
ghost use Rattle.ac_calls.specs.Replies.{as_value};

use super::SetRows;
use crate::ordered_calls::OrderedRows;
use crate::walk_calls::KeyedRows;
use ac_base::{Fault, Value};
use ac_calls::ScriptElement;
use ac_cursor::Cursor;
use ac_setwork::{Keyed, Ordered};
use std::alloc::Global;

impl<I: Keyed> KeyedRows for SetRows<I>
where
    I::Row: ScriptElement,
{
    fn delete(&mut self, q: &mut Cursor) -> Result<(), Fault> {
        self.table.delete(q)
    }
}

impl<I: Keyed + Ordered> OrderedRows for SetRows<I>
where
    I::Row: ScriptElement,
{
    type Row = I::Row;

    ghost rows = { λ s. s };

    ghost first_call = { λ o. as_value I.Row.tools (sequences.first_element_call o) };

    ghost last_call = { λ o. as_value I.Row.tools (sequences.last_element_call o) };

    fn last(&self) -> Cursor {
        self.table.last()
    }

    fn previous(&self, c: Cursor) -> Result<Cursor, Fault> {
        self.table.previous(c)
    }

    fn delete_first(&mut self) -> Result<(), Fault> {
        self.table.delete_first()
    }

    fn delete_last(&mut self) -> Result<(), Fault> {
        self.table.delete_last()
    }

    fn first_value(&self, alloc: Global) -> Result<Value, Fault> {
        let element = self.table.first_row()?;
        Ok(element.to_value(alloc)?)
    }

    fn last_value(&self, alloc: Global) -> Result<Value, Fault> {
        let element = self.table.last_row()?;
        Ok(element.to_value(alloc)?)
    }
}
