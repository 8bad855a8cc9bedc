//! The calls that ordered maps have with ordered sets.
ghost use Rattle.ac_model.specs.Maps as maps;
ghost use Rattle.ac_calls.specs.Replies.{as_value};

use super::MapRows;
use crate::map_kind::OrderedMapKind;
use crate::ordered_calls::OrderedRows;
use ac_base::{Fault, Value};
use ac_calls::ScriptElement;
use ac_cursor::Cursor;
use ac_setwork::{Entry, Ordered};
use std::alloc::Global;

impl<K: ScriptElement, V: ScriptElement, M: OrderedMapKind<K, V>> OrderedRows for MapRows<K, V, M>
where
    M::Index: Ordered,
{
    type Row = Entry<K, V>;

    ghost rows = { λ m. m };

    ghost first_call = { λ o. as_value V.tools (maps.first_element_call o) };

    ghost last_call = { λ o. as_value V.tools (maps.last_element_call o) };

    fn last(&self) -> Cursor {
        self.table.last()
    }

    fn previous(&self, c: Cursor) -> Result<Cursor, Fault> {
        self.table.previous(c)
    }

    fn delete_first(&mut self) -> Result<(), Fault> {
        self.table.delete_first()
    }

    fn delete_last(&mut self) -> Result<(), Fault> {
        self.table.delete_last()
    }

    fn first_value(&self, alloc: Global) -> Result<Value, Fault> {
        let row = self.table.first_row()?;
        Ok(row.element().to_value(alloc)?)
    }

    fn last_value(&self, alloc: Global) -> Result<Value, Fault> {
        let row = self.table.last_row()?;
        Ok(row.element().to_value(alloc)?)
    }
}
