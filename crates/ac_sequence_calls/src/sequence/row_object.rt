//! Lists and vectors as objects with rows.
ghost use Rattle.std.specs.Prelude.{refl};
ghost use Rattle.ac_syntax.specs.Canonical.{literal_text};
ghost use Rattle.ac_calls.specs.Holdings.{a_sequence};
ghost use Rattle.ac_calls.specs.PlainRows.{element_form};
ghost use Rattle.ac_calls.specs.SequenceReplies.{sequence_own};
ghost use Rattle.ac_sequence_calls.specs.Sequences.{by_kind, kind_of};

use super::Sequence;
use crate::fields::{answer_by_fields, by_fields};
use ac_base::{Fault, NoMemory, Reason, Value};
use ac_calls::{ListedRows, PlainRow, RowObject, ScriptElement};
use ac_chain::{ListLike, VectorLike};
use ac_cursor::Cursor;
use ac_io::{Sink, WriteFault};
use std::alloc::Global;

impl<L: ListLike, V: VectorLike<Element = L::Element>> RowObject for Sequence<L, V>
where
    L::Element: ScriptElement,
{
    type Row = L::Element;

    ghost rows = { λ s. by_kind L.seen V.seen s };

    ghost kind = { λ s. a_sequence (kind_of s) L.Element.elem };

    ghost own = { λ _ o. sequence_own L.Element.tools o };

    #[inline(always)]
    fn law(&self) {
        match self {
            Sequence::List(list) => list.law(),
            Sequence::Vector(vector) => vector.law(),
        }
    }

    fn live_nodes(&self) -> u64 {
        match self {
            Sequence::List(list) => list.live_nodes(),
            Sequence::Vector(vector) => vector.live_nodes(),
        }
    }

    fn first(&self) -> Cursor {
        match self {
            Sequence::List(list) => list.first(),
            Sequence::Vector(vector) => vector.first(),
        }
    }

    fn last(&self) -> Cursor {
        match self {
            Sequence::List(list) => list.last(),
            Sequence::Vector(vector) => vector.last(),
        }
    }

    #[inline(always)]
    fn next(&self, c: Cursor) -> Result<Cursor, Fault> {
        match self {
            Sequence::List(list) => answer_by_fields(list.next(c)),
            Sequence::Vector(vector) => answer_by_fields(vector.next(by_fields(c))),
        }
    }

    fn previous(&self, c: Cursor) -> Result<Cursor, Fault> {
        match self {
            Sequence::List(list) => list.previous(c),
            Sequence::Vector(vector) => vector.previous(c),
        }
    }

    fn refused(&self, c: Cursor) -> Option<Reason> {
        match self {
            Sequence::List(list) => list.refused(c),
            Sequence::Vector(vector) => vector.refused(c),
        }
    }

    fn element_value(&self, alloc: Global, c: Cursor) -> Result<Value, NoMemory> {
        match self {
            Sequence::List(list) => list.element_value(alloc, c),
            Sequence::Vector(vector) => vector.element_value(alloc, c),
        }
    }

    fn write_value(&mut self, alloc: Global, c: Cursor, value: Value) -> Result<(), Fault> {
        match self {
            Sequence::List(list) => list.write_value(alloc, c, value),
            Sequence::Vector(vector) => vector.write_value(alloc, c, value),
        }
    }

    fn is_like(&self, other: &Sequence<L, V>) -> bool {
        match self {
            Sequence::List(_) => other.is_list(),
            Sequence::Vector(_) => !other.is_list(),
        }
    }
}

impl<L: ListLike, V: VectorLike<Element = L::Element>> ListedRows for Sequence<L, V>
where
    L::Element: ScriptElement,
{
    ghost row_text = { λ e. literal_text (L.Element.tools.to_value e) };

    ghost plain_of = { element_form L.Element.tools };

    ghost listing_is = { λ _ _. refl };

    fn add_row<K: Sink>(
        &self,
        c: Cursor,
        text: &mut Vec<u8>,
        sink: &mut K,
    ) -> Result<(), WriteFault> {
        match self {
            Sequence::List(list) => list.add_row(c, text, sink),
            Sequence::Vector(vector) => vector.add_row(c, text, sink),
        }
    }

    fn plain_row(&self, c: Cursor, alloc: Global) -> Result<PlainRow, NoMemory> {
        match self {
            Sequence::List(list) => list.plain_row(c, alloc),
            Sequence::Vector(vector) => vector.plain_row(c, alloc),
        }
    }
}
