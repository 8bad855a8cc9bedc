//! Sets as objects with rows.
ghost use Rattle.std.specs.Prelude.{refl};
ghost use Rattle.ac_syntax.specs.Canonical.{literal_text};
ghost use Rattle.ac_calls.specs.Holdings.{a_set};
ghost use Rattle.ac_calls.specs.PlainRows.{element_form};
ghost use Rattle.ac_calls.specs.KeyedReplies.{kind_by_capacity};
ghost use Rattle.ac_calls.specs.SetReplies.{set_own};

use super::SetRows;
use ac_base::{Fault, NoMemory, Reason, Value};
use ac_calls::{ListedRows, PlainRow, RowObject, ScriptElement, element_row};
use ac_cursor::Cursor;
use ac_io::{Sink, WriteFault};
use ac_setwork::Keyed;
use std::alloc::Global;

impl<I: Keyed> RowObject for SetRows<I>
where
    I::Row: ScriptElement,
{
    type Row = I::Row;

    ghost rows = { λ s. s };

    ghost kind = { λ _. a_set (kind_by_capacity I.has_capacity) I.Row.elem };

    ghost own = { λ _ o. set_own I.Row.tools I.order o };

    fn law(&self) {
        self.table.law();
    }

    fn live_nodes(&self) -> u64 {
        self.table.live_nodes()
    }

    fn first(&self) -> Cursor {
        self.table.first()
    }

    fn last(&self) -> Cursor {
        self.table.last()
    }

    fn next(&self, c: Cursor) -> Result<Cursor, Fault> {
        self.table.next(c)
    }

    fn previous(&self, c: Cursor) -> Result<Cursor, Fault> {
        self.table.previous(c)
    }

    fn refused(&self, c: Cursor) -> Option<Reason> {
        match self.element(c) {
            Ok(_) => None,
            Err(Fault::Raised(reason)) => Some(reason),
            Err(Fault::NoMemory) => unreachable!(),
        }
    }

    fn element_value(&self, alloc: Global, c: Cursor) -> Result<Value, NoMemory> {
        match self.element(c) {
            Ok(element) => element.to_value(alloc),
            Err(_) => unreachable!(),
        }
    }

    fn write_value(&mut self, _alloc: Global, _c: Cursor, _value: Value) -> Result<(), Fault> {
        // Nothing is written through a name that stands for a set's element.
        Ok(())
    }

    fn is_like(&self, _other: &SetRows<I>) -> bool {
        true
    }
}

impl<I: Keyed> ListedRows for SetRows<I>
where
    I::Row: ScriptElement,
{
    ghost row_text = { λ e. literal_text (I.Row.tools.to_value e) };

    ghost plain_of = { element_form I.Row.tools };

    ghost listing_is = { λ _ _. refl };

    fn add_row<K: Sink>(
        &self,
        c: Cursor,
        text: &mut Vec<u8>,
        sink: &mut K,
    ) -> Result<(), WriteFault> {
        match self.element(c) {
            Ok(element) => element.add_literal(text, sink),
            Err(_) => unreachable!(),
        }
    }

    fn plain_row(&self, c: Cursor, alloc: Global) -> Result<PlainRow, NoMemory> {
        match self.element(c) {
            Ok(element) => element_row(element, alloc),
            Err(_) => unreachable!(),
        }
    }
}
