//! Keyed sets as objects with rows.
ghost use Rattle.std.specs.Prelude.{refl};
ghost use Rattle.ac_syntax.specs.Canonical.{literal_text};
ghost use Rattle.ac_calls.specs.Elements.{keyed_texts};
ghost use Rattle.ac_calls.specs.Holdings.{a_keyed_set};
ghost use Rattle.ac_calls.specs.PlainRows.{element_form};
ghost use Rattle.ac_calls.specs.KeyedReplies.{order_by};
ghost use Rattle.ac_calls.specs.SetReplies.{set_own};
ghost use Rattle.ac_keyed_calls.specs.KeyedSets.{keyed_items, keyed_kind};

use super::KeyedSet;
use crate::set_kind::SetKind;
use ac_base::{Fault, KeyedText, NoMemory, Reason, Value};
use ac_calls::{ListedRows, PlainRow, RowObject};
use ac_cursor::Cursor;
use ac_io::{Sink, WriteFault};
use std::alloc::Global;

impl<H: SetKind<KeyedText>, O: SetKind<KeyedText>> RowObject for KeyedSet<H, O> {
    type Row = KeyedText;

    ghost rows = { keyed_items };

    ghost kind = { λ m. a_keyed_set (keyed_kind m) };

    ghost own = { λ m o. set_own keyed_texts (order_by keyed_texts (keyed_kind m)) o };

    fn law(&self) {
        self.set.law();
    }

    fn live_nodes(&self) -> u64 {
        self.set.live_nodes()
    }

    fn first(&self) -> Cursor {
        self.set.first()
    }

    fn last(&self) -> Cursor {
        self.set.last()
    }

    fn next(&self, c: Cursor) -> Result<Cursor, Fault> {
        self.set.next(c)
    }

    fn previous(&self, c: Cursor) -> Result<Cursor, Fault> {
        self.set.previous(c)
    }

    fn refused(&self, c: Cursor) -> Option<Reason> {
        self.set.refused(c)
    }

    fn element_value(&self, alloc: Global, c: Cursor) -> Result<Value, NoMemory> {
        self.set.element_value(alloc, c)
    }

    fn write_value(&mut self, _alloc: Global, _c: Cursor, _value: Value) -> Result<(), Fault> {
        // Nothing is written through a name that stands for a set's element.
        Ok(())
    }

    fn is_like(&self, other: &KeyedSet<H, O>) -> bool {
        self.set.is_like(&other.set)
    }
}

impl<H: SetKind<KeyedText>, O: SetKind<KeyedText>> ListedRows for KeyedSet<H, O> {
    ghost row_text = { λ e. literal_text (keyed_texts.to_value e) };

    ghost plain_of = { element_form keyed_texts };

    ghost listing_is = { λ _ _. refl };

    fn add_row<K: Sink>(
        &self,
        c: Cursor,
        text: &mut Vec<u8>,
        sink: &mut K,
    ) -> Result<(), WriteFault> {
        self.set.add_row(c, text, sink)
    }

    fn plain_row(&self, c: Cursor, alloc: Global) -> Result<PlainRow, NoMemory> {
        self.set.plain_row(c, alloc)
    }
}
