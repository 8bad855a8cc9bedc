//! Lists and vectors with the calls that all kinds of rows have.
use super::SequenceRows;
use ac_base::{Fault, Value};
use ac_calls::{CommonRows, ScriptElement};
use ac_chain::SequenceLike;
use ac_cursor::Cursor;
use std::alloc::Global;

impl<S: SequenceLike> CommonRows for SequenceRows<S>
where
    S::Element: ScriptElement,
{
    fn length(&self) -> i64 {
        self.sequence.length()
    }

    fn is_empty(&self) -> bool {
        self.sequence.is_empty()
    }

    fn has_element(&self, c: Cursor) -> bool {
        self.sequence.has_element(c)
    }

    fn equal(&self, other: &SequenceRows<S>) -> bool {
        self.sequence.equal(&other.sequence)
    }

    fn equal_self(&self) -> bool {
        self.sequence.equal_self()
    }

    fn clear(&mut self) -> Result<(), Fault> {
        self.sequence.clear()
    }

    fn replace_value(&mut self, alloc: Global, c: Cursor, value: Value) -> Result<(), Fault> {
        let element = S::Element::from_value(alloc, value)?;
        self.sequence.replace_element(c, element)
    }

    fn assign_self(&mut self) -> Result<(), Fault> {
        self.sequence.assign_self()
    }

    fn move_from_self(&mut self) -> Result<(), Fault> {
        self.sequence.move_from_self()
    }

    fn assign(&mut self, source: &SequenceRows<S>) -> Result<(), Fault> {
        self.sequence.assign(&source.sequence)
    }

    fn move_from(&mut self, source: &mut SequenceRows<S>) -> Result<(), Fault> {
        self.sequence.move_from(&mut source.sequence)
    }
}
