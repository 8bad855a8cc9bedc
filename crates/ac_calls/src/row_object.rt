//! What the code of a script asks of an object with rows, of whatever kind.
ghost use Rattle.std.specs.Prelude.{◌≡◌, ◌≤◌, ℕ, List, true, false, None, Some, IfOk, length};
ghost use Rattle.ac_io.specs.declared.pieces.TheConstants.{MOST_WAITING};
ghost use Rattle.ac_io.specs.Pieces.{Adds};
ghost use Rattle.ac_model.specs.Calls.{Marks};
ghost use Rattle.ac_model.specs.Containers.{Container};
ghost use Rattle.ac_model.specs.Forms.{Looks, seen_by as mark_by};
ghost use Rattle.ac_model.specs.Objects.{Object, IsValid, plain, contents, length_of};
ghost use Rattle.ac_model.specs.Sequences as sequences;
ghost use Rattle.ac_calls.specs.Holdings.{RowKind};
ghost use Rattle.ac_calls.specs.Listings.{bracketed};
ghost use Rattle.ac_calls.specs.SequenceReplies.{OwnCalls};
ghost use Rattle.ac_calls.specs.Arguments.{mark_in};
ghost use Rattle.ac_calls.specs.RowWrites.{WritesIn};
ghost use Rattle.ac_calls.specs.declared.plains.PlainRow.{PlainRow as Plain};

use crate::plains::PlainRow;
use ac_base::{Fault, NoMemory, Reason, Value};
use ac_cursor::Cursor;
use ac_io::{Sink, WriteFault};
use std::alloc::Global;

/// An object whose elements stand in rows. One type may have several kinds, which no call changes.
pub trait RowObject {
    /// What a row holds.
    type Row;

    ghost rows: { Self → Container Self.Row };

    ghost kind: { Self → RowKind };

    /// What the kind means in its own way.
    ghost own: { Self → Object ℕ Self.Row → OwnCalls Self.Row };

    /// What holds of every one, for proofs alone.
    fn law(&self)
        ensures { IsValid (plain (rows self.now).object) };

    /// How many elements have a slot.
    fn live_nodes(&self) -> u64
        ensures { result ≡ length_of (rows self.now).object };

    fn first(&self) -> Cursor
        ensures { Marks (rows self.now).object result (sequences.first_call (plain (rows self.now).object)) };

    fn last(&self) -> Cursor
        ensures { Marks (rows self.now).object result (sequences.last_call (plain (rows self.now).object)) };

    fn next(&self, c: Cursor) -> Result<Cursor, Fault>
        ensures { Looks (Marks (rows self.now).object) (λ o. sequences.next_call o (mark_by (rows self.now) c))
            (rows self.now) result };

    fn previous(&self, c: Cursor) -> Result<Cursor, Fault>
        ensures { Looks (Marks (rows self.now).object) (λ o. sequences.previous_call o (mark_by (rows self.now) c))
            (rows self.now) result };

    /// Why the element at the cursor can't be read.
    fn refused(&self, c: Cursor) -> Option<Reason>
        ensures { result ≡ ((own self.now (plain (rows self.now).object)).element
            (mark_in (kind self.now) (rows self.now).object c)).reason };

    /// A copy of the element at the cursor.
    fn element_value(&self, alloc: Global, c: Cursor) -> Result<Value, NoMemory>
        requires { ((own self.now (plain (rows self.now).object)).element
            (mark_in (kind self.now) (rows self.now).object c)).reason ≡ None }
        ensures { IfOk result (λ value.
            ((own self.now (plain (rows self.now).object)).element
            (mark_in (kind self.now) (rows self.now).object c)).answer ≡ Some value) };

    /// Writes a value through a name that stands for the element at the cursor.
    fn write_value(&mut self, alloc: Global, c: Cursor, value: Value) -> Result<(), Fault>
        ensures written { WritesIn (λ o. (own self.old o).write (mark_in (kind self.old) (rows self.old).object c) value)
            (rows self.old) (rows self.new) result }
        ensures kind { kind self.new ≡ kind self.old };

    /// Whether the other one is of the same kind.
    fn is_like(&self, other: &Self) -> bool
        ensures yes { result ≡ true → kind other.now ≡ kind self.now }
        ensures no { result ≡ false → kind other.now ≡ kind self.now → ⊥ };
}

/// An object whose listing shows its rows, one behind another in brackets.
pub trait ListedRows: RowObject {
    /// What a listing shows of a row.
    ghost row_text: { Self.Row → List ℕ };

    /// What a row is as a plain one.
    ghost plain_of: { Self.Row → Plain };

    /// Adds what a listing shows of the row at the cursor to a text that is written in pieces.
    fn add_row<K: Sink>(
        &self,
        c: Cursor,
        text: &mut Vec<u8>,
        sink: &mut K,
    ) -> Result<(), WriteFault>
        requires { (sequences.element_call (plain (Self.rows self.now).object) (mark_by (Self.rows self.now) c)).reason ≡ None }
        ensures adds { (row : Self.Row) →
            (sequences.element_call (plain (Self.rows self.now).object) (mark_by (Self.rows self.now) c)).answer ≡ Some row →
            Adds K.held K.faults K.room K.counts_failures sink.old sink.new text.old.items text.new.items (row_text row) result }
        ensures short { length text.old.items ≤ MOST_WAITING → length text.new.items ≤ MOST_WAITING };

    /// A copy of the row at the cursor as a plain one.
    fn plain_row(&self, c: Cursor, alloc: Global) -> Result<PlainRow, NoMemory>
        requires { (sequences.element_call (plain (Self.rows self.now).object) (mark_by (Self.rows self.now) c)).reason ≡ None }
        ensures { IfOk result (λ made. (row : Self.Row) →
            (sequences.element_call (plain (Self.rows self.now).object) (mark_by (Self.rows self.now) c)).answer ≡ Some row →
            made ≡ plain_of row) };

    ghost listing_is: { (object : Self) (o : Object ℕ Self.Row) → (Self.own object o).listing ≡ bracketed row_text (contents o) };
}
