//! Maps as objects with rows.
ghost use Rattle.std.specs.Prelude.{refl};
ghost use Rattle.ac_syntax.specs.Canonical.{literal_text};
ghost use Rattle.ac_calls.specs.Holdings.{a_map};
ghost use Rattle.ac_calls.specs.PlainRows.{entry_form};
ghost use Rattle.ac_calls.specs.MapReplies.{map_own};
ghost use Rattle.ac_calls.specs.Listings.{entry_text};

use super::MapRows;
use crate::entry_listing::add_entry;
use crate::map_kind::MapKind;
use ac_base::{Fault, NoMemory, Reason, Value};
use ac_calls::{ListedRows, PlainRow, RowObject, ScriptElement, entry_row};
use ac_cursor::Cursor;
use ac_io::{Sink, WriteFault};
use ac_setwork::Entry;
use std::alloc::Global;

impl<K: ScriptElement, V: ScriptElement, M: MapKind<K, V>> RowObject for MapRows<K, V, M> {
    type Row = Entry<K, V>;

    ghost rows = { λ m. m };

    ghost kind = { λ _. a_map M.which K.elem V.elem };

    ghost own = { λ _ o. map_own K.tools V.tools M.which o };

    fn law(&self) {
        self.table.law();
    }

    fn live_nodes(&self) -> u64 {
        self.table.live_nodes()
    }

    fn first(&self) -> Cursor {
        self.table.first()
    }

    fn last(&self) -> Cursor {
        self.table.last()
    }

    fn next(&self, c: Cursor) -> Result<Cursor, Fault> {
        self.table.next(c)
    }

    fn previous(&self, c: Cursor) -> Result<Cursor, Fault> {
        self.table.previous(c)
    }

    fn refused(&self, c: Cursor) -> Option<Reason> {
        match self.element(c) {
            Ok(_) => None,
            Err(Fault::Raised(reason)) => Some(reason),
            Err(Fault::NoMemory) => unreachable!(),
        }
    }

    fn element_value(&self, alloc: Global, c: Cursor) -> Result<Value, NoMemory> {
        match self.element(c) {
            Ok(element) => element.to_value(alloc),
            Err(_) => unreachable!(),
        }
    }

    fn write_value(&mut self, alloc: Global, c: Cursor, value: Value) -> Result<(), Fault> {
        let element = V::from_value(alloc, value)?;
        self.write(c, element)
    }

    fn is_like(&self, _other: &MapRows<K, V, M>) -> bool {
        true
    }
}

impl<K: ScriptElement, V: ScriptElement, M: MapKind<K, V>> ListedRows for MapRows<K, V, M> {
    ghost row_text = { entry_text (λ k. literal_text (K.tools.to_value k)) (λ e. literal_text (V.tools.to_value e)) };

    ghost plain_of = { entry_form K.tools V.tools };

    ghost listing_is = { λ _ _. refl };

    fn add_row<W: Sink>(
        &self,
        c: Cursor,
        text: &mut Vec<u8>,
        sink: &mut W,
    ) -> Result<(), WriteFault> {
        match self.table.row(c) {
            Ok(row) => add_entry(row.key(), row.element(), text, sink),
            Err(_) => unreachable!(),
        }
    }

    fn plain_row(&self, c: Cursor, alloc: Global) -> Result<PlainRow, NoMemory> {
        match self.table.row(c) {
            Ok(row) => entry_row(row.key(), row.element(), alloc),
            Err(_) => unreachable!(),
        }
    }
}
