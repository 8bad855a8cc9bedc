//! Hashed and ordered sets as objects with rows.
ghost use Rattle.std.specs.Prelude.{refl};
ghost use Rattle.ac_syntax.specs.Canonical.{literal_text};
ghost use Rattle.ac_calls.specs.Holdings.{a_set};
ghost use Rattle.ac_calls.specs.PlainRows.{element_form};
ghost use Rattle.ac_calls.specs.KeyedReplies.{order_by};
ghost use Rattle.ac_calls.specs.SetReplies.{set_own};
ghost use Rattle.ac_keyed_calls.specs.Sets.{items_of, set_kind_of};

use super::Set;
use crate::set_kind::SetKind;
use ac_base::{Fault, NoMemory, Reason, Value};
use ac_calls::{ListedRows, PlainRow, RowObject, ScriptElement, element_row};
use ac_cursor::Cursor;
use ac_io::{Sink, WriteFault};
use std::alloc::Global;

impl<T: ScriptElement, H: SetKind<T>, O: SetKind<T>> RowObject for Set<T, H, O> {
    type Row = T;

    ghost rows = { items_of };

    ghost kind = { λ m. a_set (set_kind_of m) T.elem };

    ghost own = { λ m o. set_own T.tools (order_by T.tools (set_kind_of m)) o };

    fn law(&self) {
        match self {
            Set::Hashed(set) => set.law(),
            Set::Ordered(set) => set.law(),
        }
    }

    fn live_nodes(&self) -> u64 {
        match self {
            Set::Hashed(set) => set.live_nodes(),
            Set::Ordered(set) => set.live_nodes(),
        }
    }

    fn first(&self) -> Cursor {
        match self {
            Set::Hashed(set) => set.first(),
            Set::Ordered(set) => set.first(),
        }
    }

    fn last(&self) -> Cursor {
        match self {
            Set::Hashed(set) => set.last(),
            Set::Ordered(set) => set.last(),
        }
    }

    fn next(&self, c: Cursor) -> Result<Cursor, Fault> {
        match self {
            Set::Hashed(set) => set.next(c),
            Set::Ordered(set) => set.next(c),
        }
    }

    fn previous(&self, c: Cursor) -> Result<Cursor, Fault> {
        match self {
            Set::Hashed(set) => set.previous(c),
            Set::Ordered(set) => set.previous(c),
        }
    }

    fn refused(&self, c: Cursor) -> Option<Reason> {
        match self.element(c) {
            Ok(_) => None,
            Err(Fault::Raised(reason)) => Some(reason),
            Err(Fault::NoMemory) => unreachable!(),
        }
    }

    fn element_value(&self, alloc: Global, c: Cursor) -> Result<Value, NoMemory> {
        match self.element(c) {
            Ok(element) => element.to_value(alloc),
            Err(_) => unreachable!(),
        }
    }

    fn write_value(&mut self, _alloc: Global, _c: Cursor, _value: Value) -> Result<(), Fault> {
        // Nothing is written through a name that stands for a set's element.
        Ok(())
    }

    fn is_like(&self, other: &Set<T, H, O>) -> bool {
        match self {
            Set::Hashed(_) => other.is_hashed(),
            Set::Ordered(_) => !other.is_hashed(),
        }
    }
}

impl<T: ScriptElement, H: SetKind<T>, O: SetKind<T>> ListedRows for Set<T, H, O> {
    ghost row_text = { λ e. literal_text (T.tools.to_value e) };

    ghost plain_of = { element_form T.tools };

    ghost listing_is = { λ _ _. refl };

    fn add_row<K: Sink>(
        &self,
        c: Cursor,
        text: &mut Vec<u8>,
        sink: &mut K,
    ) -> Result<(), WriteFault> {
        match self.element(c) {
            Ok(element) => element.add_literal(text, sink),
            Err(_) => unreachable!(),
        }
    }

    fn plain_row(&self, c: Cursor, alloc: Global) -> Result<PlainRow, NoMemory> {
        match self.element(c) {
            Ok(element) => element_row(element, alloc),
            Err(_) => unreachable!(),
        }
    }
}
