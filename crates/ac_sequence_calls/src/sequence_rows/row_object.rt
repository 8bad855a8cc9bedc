//! Lists and vectors as objects with rows.
ghost use Rattle.std.specs.Prelude.{refl};
ghost use Rattle.ac_syntax.specs.Canonical.{literal_text};
ghost use Rattle.ac_calls.specs.Holdings.{a_sequence};
ghost use Rattle.ac_calls.specs.PlainRows.{element_form};
ghost use Rattle.ac_calls.specs.SequenceReplies.{sequence_own};
ghost use Rattle.ac_sequence_calls.specs.SequenceCalls.{kind_by_names};

use super::SequenceRows;
use ac_base::{Fault, NoMemory, Reason, Value};
use ac_calls::{ListedRows, PlainRow, RowObject, ScriptElement, element_row};
use ac_chain::SequenceLike;
use ac_cursor::Cursor;
use ac_io::{Sink, WriteFault};
use std::alloc::Global;

impl<S: SequenceLike> RowObject for SequenceRows<S>
where
    S::Element: ScriptElement,
{
    type Row = S::Element;

    ghost rows = { λ rows. S.seen rows.sequence };

    ghost kind = { λ _. a_sequence (kind_by_names S.names_move) S.Element.elem };

    ghost own = { λ _ o. sequence_own S.Element.tools o };

    #[inline(always)]
    fn law(&self) {
        self.sequence.law();
    }

    fn live_nodes(&self) -> u64 {
        self.sequence.live_nodes()
    }

    fn first(&self) -> Cursor {
        self.sequence.first()
    }

    fn last(&self) -> Cursor {
        self.sequence.last()
    }

    #[inline(always)]
    fn next(&self, c: Cursor) -> Result<Cursor, Fault> {
        self.sequence.next(c)
    }

    fn previous(&self, c: Cursor) -> Result<Cursor, Fault> {
        self.sequence.previous(c)
    }

    fn refused(&self, c: Cursor) -> Option<Reason> {
        match self.sequence.element(c) {
            Ok(_) => None,
            Err(Fault::Raised(reason)) => Some(reason),
            Err(Fault::NoMemory) => unreachable!(),
        }
    }

    fn element_value(&self, alloc: Global, c: Cursor) -> Result<Value, NoMemory> {
        match self.sequence.element(c) {
            Ok(element) => element.to_value(alloc),
            Err(_) => unreachable!(),
        }
    }

    fn write_value(&mut self, alloc: Global, c: Cursor, value: Value) -> Result<(), Fault> {
        let element = S::Element::from_value(alloc, value)?;
        self.sequence.write(c, element)
    }

    fn is_like(&self, _other: &SequenceRows<S>) -> bool {
        true
    }
}

impl<S: SequenceLike> ListedRows for SequenceRows<S>
where
    S::Element: ScriptElement,
{
    ghost row_text = { λ e. literal_text (S.Element.tools.to_value e) };

    ghost plain_of = { element_form S.Element.tools };

    ghost listing_is = { λ _ _. refl };

    fn add_row<K: Sink>(
        &self,
        c: Cursor,
        text: &mut Vec<u8>,
        sink: &mut K,
    ) -> Result<(), WriteFault> {
        match self.sequence.element(c) {
            Ok(element) => element.add_literal(text, sink),
            Err(_) => unreachable!(),
        }
    }

    fn plain_row(&self, c: Cursor, alloc: Global) -> Result<PlainRow, NoMemory> {
        match self.sequence.element(c) {
            Ok(element) => element_row(element, alloc),
            Err(_) => unreachable!(),
        }
    }
}
