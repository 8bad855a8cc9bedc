//! Calls on objects with rows, alone or with a source, with their arguments and their reply in a frame.
ghost use Rattle.std.specs.Prelude.{◌≡◌, None, Some, IfOk};
ghost use Rattle.ac_model.specs.Cursors.{plain_mark};
ghost use Rattle.ac_model.specs.Objects.{plain};
ghost use Rattle.ac_calls.specs.Arguments.{AllAgree, SlotAgrees, arguments_of, mark_in};
ghost use Rattle.ac_calls.specs.Holdings.{seen_in};
ghost use Rattle.ac_calls.specs.Replied.{AreValid, Replied, RepliedWith, told};
ghost use Rattle.ac_calls.specs.Replies.{another, arguments_seen, itself};
ghost use Rattle.ac_calls.specs.RowWrites.{WritesIn};

use crate::frame::Frame;
use crate::operated_rows::OperatedRows;
use crate::row_object::RowObject;
use ac_base::{Fault, NoMemory, Value};
use ac_cursor::Cursor;
use ac_syntax::Operation;
use std::alloc::Global;

/// Makes a call on an object with itself as the source, where the call has one.
#[inline(always)]
pub fn call_own<C: OperatedRows>(
    object: &mut C,
    alloc: Global,
    operation: Operation,
    frame: &mut Frame,
) -> Result<(), Fault>
    requires agree { AllAgree (C.rows object.old).object frame.old.arguments }
    ensures replied { let o = plain (C.rows object.old).object in
        Replied (C.comes_to object.old o itself (arguments_seen (seen_in (C.kind object.old) o) (arguments_of frame.old.arguments)) operation)
        (C.rows object.old) (C.rows object.new) (told frame.new.reply result) }
    ensures kind { C.kind object.new ≡ C.kind object.old }
    ensures valid { AreValid (C.rows object.old) (C.rows object.new) }
{
    object.law();
    let called = object.operate(alloc, operation, &mut frame.arguments, &mut frame.reply);
    object.law();
    called
}

/// Makes a call on an object with another one as the source, which is none where it is of another kind.
pub fn call_two<C: OperatedRows>(
    object: &mut C,
    source: &mut C,
    alloc: Global,
    operation: Operation,
    frame: &mut Frame,
) -> Result<(), Fault>
    requires agree { AllAgree (C.rows object.old).object frame.old.arguments }
    requires agree_with_source { AllAgree (C.rows source.old).object frame.old.arguments }
    ensures alike { let o = plain (C.rows object.old).object in let s = plain (C.rows source.old).object in
        C.kind source.old ≡ C.kind object.old → let kind = C.kind object.old in
        RepliedWith (C.comes_to object.old o (another s (arguments_seen (seen_in kind s) (arguments_of frame.old.arguments)))
        (arguments_seen (seen_in kind o) (arguments_of frame.old.arguments)) operation)
        (C.rows object.old) (C.rows source.old) (C.rows object.new) (C.rows source.new) (told frame.new.reply result) }
    ensures unlike { let o = plain (C.rows object.old).object in
        (C.kind source.old ≡ C.kind object.old → ⊥) →
        Replied (C.comes_to object.old o itself (arguments_seen (seen_in (C.kind object.old) o) (arguments_of frame.old.arguments)) operation)
        (C.rows object.old) (C.rows object.new) (told frame.new.reply result) × (source.new ≡ source.old) }
    ensures kind { C.kind object.new ≡ C.kind object.old }
    ensures source_kind { C.kind source.new ≡ C.kind source.old }
    ensures valid { AreValid (C.rows object.old) (C.rows object.new) }
    ensures source_valid { AreValid (C.rows source.old) (C.rows source.new) }
{
    source.law();
    if object.is_like(source) {
        call_like(object, source, alloc, operation, frame)
    } else {
        call_own(object, alloc, operation, frame)
    }
}

/// With a source of the same kind.
fn call_like<C: OperatedRows>(
    object: &mut C,
    source: &mut C,
    alloc: Global,
    operation: Operation,
    frame: &mut Frame,
) -> Result<(), Fault>
    requires like { C.kind source.old ≡ C.kind object.old }
    requires agree { AllAgree (C.rows object.old).object frame.old.arguments }
    requires agree_with_source { AllAgree (C.rows source.old).object frame.old.arguments }
    ensures replied { let o = plain (C.rows object.old).object in let s = plain (C.rows source.old).object in
        let kind = C.kind object.old in
        RepliedWith (C.comes_to object.old o (another s (arguments_seen (seen_in kind s) (arguments_of frame.old.arguments)))
        (arguments_seen (seen_in kind o) (arguments_of frame.old.arguments)) operation)
        (C.rows object.old) (C.rows source.old) (C.rows object.new) (C.rows source.new) (told frame.new.reply result) }
    ensures kind { C.kind object.new ≡ C.kind object.old }
    ensures source_kind { C.kind source.new ≡ C.kind source.old }
    ensures valid { AreValid (C.rows object.old) (C.rows object.new) }
    ensures source_valid { AreValid (C.rows source.old) (C.rows source.new) }
{
    object.law();
    source.law();
    let called = object.operate_with(
        source,
        alloc,
        operation,
        &mut frame.arguments,
        &mut frame.reply,
    );
    object.law();
    source.law();
    called
}

/// A copy of the element of rows at which the cursor stands.
pub fn element_in<C: RowObject>(object: &C, alloc: Global, at: Cursor) -> Result<Value, NoMemory>
    requires agrees { SlotAgrees (C.rows object.now).object at }
    requires stands { let o = plain (C.rows object.now).object in
        ((C.own object.now o).element (seen_in (C.kind object.now) o (plain_mark at))).reason ≡ None }
    ensures { let o = plain (C.rows object.now).object in
        IfOk result (λ value. ((C.own object.now o).element (seen_in (C.kind object.now) o (plain_mark at))).answer ≡ Some value) }
{
    object.element_value(alloc, at)
}

/// Writes a value through a name that stands for the element at the cursor.
pub fn write_in<C: RowObject>(
    object: &mut C,
    alloc: Global,
    at: Cursor,
    value: Value,
) -> Result<(), Fault>
    ensures written { WritesIn (λ o. (C.own object.old o).write (mark_in (C.kind object.old) (C.rows object.old).object at) value)
        (C.rows object.old) (C.rows object.new) result }
    ensures kind { C.kind object.new ≡ C.kind object.old }
    ensures valid { AreValid (C.rows object.old) (C.rows object.new) }
{
    object.law();
    let done = object.write_value(alloc, at, value);
    object.law();
    done
}
