//! The listing of an object with rows, written in pieces.
ghost use Rattle.std.specs.Prelude.{◌≡◌, ◌≤◌, ◌++◌, length, None, Some};
ghost use Rattle.ac_io.specs.Pieces.{Adds};
ghost use Rattle.ac_io.specs.declared.pieces.TheConstants.{MOST_WAITING};
ghost use Rattle.ac_model.specs.Forms.{seen_by};
ghost use Rattle.ac_model.specs.Objects.{contents, plain};
ghost use Rattle.ac_model.specs.Sequences.{element_call};
ghost use Rattle.ac_calls.specs.Listed.{comma_at};
ghost use Rattle.ac_calls.specs.Listings.{bracketed, separated};

use crate::commas::comma;
use crate::row_object::ListedRows;
use ac_cursor::Cursor;
use ac_io::{Sink, WriteFault, add};

/// Adds the row at the cursor, with a comma before it unless it is the first.
fn add_item<C: ListedRows, K: Sink>(
    object: &C,
    c: Cursor,
    is_first: bool,
    text: &mut Vec<u8>,
    sink: &mut K,
) -> Result<(), WriteFault>
    requires { (element_call (plain (C.rows object.now).object) (seen_by (C.rows object.now) c)).reason ≡ None }
    ensures adds { (row : C.Row) →
        (element_call (plain (C.rows object.now).object) (seen_by (C.rows object.now) c)).answer ≡ Some row →
        Adds K.held K.faults K.room K.counts_failures sink.old sink.new
        text.old.items text.new.items (comma_at is_first ++ C.row_text row) result }
    ensures short { length text.old.items ≤ MOST_WAITING → length text.new.items ≤ MOST_WAITING }
{
    add(text, comma(is_first), sink)?;
    object.add_row(c, text, sink)
}

/// Adds the rows of an object.
fn add_items<C: ListedRows, K: Sink>(
    object: &C,
    text: &mut Vec<u8>,
    sink: &mut K,
) -> Result<(), WriteFault>
    ensures adds { Adds K.held K.faults K.room K.counts_failures sink.old sink.new
        text.old.items text.new.items (separated C.row_text (contents (plain (C.rows object.now).object))) result }
    ensures short { length text.old.items ≤ MOST_WAITING → length text.new.items ≤ MOST_WAITING }
{
    object.law();
    let mut c = object.first();
    for place in 0..object.live_nodes() {
        add_item(object, c, place == 0, text, sink)?;
        c = object.next(c).unwrap();
    }
    Ok(())
}

/// Adds the listing of an object with rows to a text that is written in pieces.
pub fn write_rows<C: ListedRows, K: Sink>(
    object: &C,
    text: &mut Vec<u8>,
    sink: &mut K,
) -> Result<(), WriteFault>
    ensures adds { Adds K.held K.faults K.room K.counts_failures sink.old sink.new
        text.old.items text.new.items (bracketed C.row_text (contents (plain (C.rows object.now).object))) result }
    ensures short { length text.old.items ≤ MOST_WAITING → length text.new.items ≤ MOST_WAITING }
{
    add(text, b"[", sink)?;
    add_items(object, text, sink)?;
    add(text, b"]", sink)
}
