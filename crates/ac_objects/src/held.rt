//! Calls on an object of any kind and element type.
ghost use Rattle.std.specs.Prelude.{◌≡◌, None, Some, IfOk};
ghost use Rattle.ac_model.specs.Cursors.{plain_mark};
ghost use Rattle.ac_calls.specs.Holdings.{reply_of, number_of, element_value, write};
ghost use Rattle.ac_calls.specs.Arguments.{arguments_of};
ghost use Rattle.ac_calls.specs.HolderReplies.{holder_reply};
ghost use Rattle.ac_holder_calls.specs.HolderCalls.{HolderRepliedWith};
ghost use Rattle.ac_calls.specs.Replies.{another};
ghost use Rattle.ac_calls.specs.Replied.{told};
ghost use Rattle.ac_objects.specs.Called.{AgreesWith, IsWithinLimit, Called, CalledWith, Lasts, WritesTo};
ghost use Rattle.ac_objects.specs.Edited.{AllAgreeThere, TellsCall, TellsWrite};
ghost use Rattle.ac_objects.specs.Visited.{AgreesThere, AsksElement, TellsElement};
ghost use Rattle.ac_objects.specs.World.{held_of, ObjectAgrees};

use crate::object::Object;
use crate::visiting::{Editor, Visitor, edit, visit};
use ac_base::{Fault, NoMemory, Reason, Value};
use ac_calls::{
    Frame, OperatedRows, RowObject, ScriptElement, call_own, call_two, element_in, write_in,
};
use ac_cursor::Cursor;
use ac_forms::Holder;
use ac_holder_calls::{operate_holder, operate_holders, value, write};
use ac_queue::AnyQueue;
use ac_queue_calls::operate_queue;
use ac_syntax::Operation;
use std::alloc::Global;

/// A call without a source, or with the object itself as the source. Its arguments and its reply stand in the frame.
#[derive(Drop)]
struct Call {
    alloc: Global,
    operation: Operation,
}

impl Editor for Call {
    type State = Frame;

    type Answer = Result<(), Fault>;

    ghost asks = { λ call frame there. AllAgreeThere frame.arguments there };

    ghost tells = { λ call old new answer edited.
        TellsCall call.operation (arguments_of old.arguments) (told new.reply answer) edited };

    #[inline(always)]
    fn edit_rows<C: OperatedRows>(self, object: &mut C, frame: &mut Frame) -> Result<(), Fault> {
        call_own(object, self.alloc, self.operation, frame)
    }

    fn edit_holder<T: ScriptElement>(
        self,
        holder: &mut Holder<T>,
        frame: &mut Frame,
    ) -> Result<(), Fault> {
        operate_holder(
            holder,
            self.alloc,
            self.operation,
            &mut frame.arguments,
            &mut frame.reply,
        )
    }

    fn edit_queue(self, queue: &mut AnyQueue, frame: &mut Frame) -> Result<(), Fault> {
        operate_queue(
            queue,
            self.operation,
            &mut frame.arguments,
            &mut frame.reply,
        )
    }
}

/// Makes a call on an object without a source, or with itself as the source.
#[inline(always)]
pub fn call_object(
    object: &mut Object,
    alloc: Global,
    operation: Operation,
    frame: &mut Frame,
) -> Result<(), Fault>
    requires agree { AgreesWith object.old frame.old.arguments }
    ensures called { Called (reply_of (held_of object.old) None operation (arguments_of frame.old.arguments))
        object.old object.new (told frame.new.reply result) }
    ensures lasts { Lasts object.old object.new }
{
    edit(object, Call { alloc, operation }, frame)
}

/// Makes a call on an object with another one as the source, which is none where it is of another kind or type.
#[tactic(auto, unfolding(crate::specs::World::memory_of))]
pub fn call_objects(
    object: &mut Object,
    source: &mut Object,
    alloc: Global,
    operation: Operation,
    frame: &mut Frame,
) -> Result<(), Fault>
    requires apart { number_of (held_of object.old) ≡ number_of (held_of source.old) → ⊥ }
    requires agree { AgreesWith object.old frame.old.arguments }
    requires agree_with_source { AgreesWith source.old frame.old.arguments }
    ensures called { CalledWith (reply_of (held_of object.old) (Some (held_of source.old)) operation (arguments_of frame.old.arguments))
        object.old source.old object.new source.new (told frame.new.reply result) }
    ensures lasts { Lasts object.old object.new }
    ensures source_lasts { Lasts source.old source.new }
{
    match object {
        Object::Integers(sequence) => match source {
            Object::Integers(other) => call_two(sequence, other, alloc, operation, frame),
            _ => call_object(object, alloc, operation, frame),
        },
        Object::Texts(sequence) => match source {
            Object::Texts(other) => call_two(sequence, other, alloc, operation, frame),
            _ => call_object(object, alloc, operation, frame),
        },
        Object::IntegerSet(set) => match source {
            Object::IntegerSet(other) => call_two(set, other, alloc, operation, frame),
            _ => call_object(object, alloc, operation, frame),
        },
        Object::TextSet(set) => match source {
            Object::TextSet(other) => call_two(set, other, alloc, operation, frame),
            _ => call_object(object, alloc, operation, frame),
        },
        Object::KeyedSet(set) => match source {
            Object::KeyedSet(other) => call_two(set, other, alloc, operation, frame),
            _ => call_object(object, alloc, operation, frame),
        },
        Object::IntegersByInteger(map) => match source {
            Object::IntegersByInteger(other) => call_two(map, other, alloc, operation, frame),
            _ => call_object(object, alloc, operation, frame),
        },
        Object::IntegersByText(map) => match source {
            Object::IntegersByText(other) => call_two(map, other, alloc, operation, frame),
            _ => call_object(object, alloc, operation, frame),
        },
        Object::TextsByInteger(map) => match source {
            Object::TextsByInteger(other) => call_two(map, other, alloc, operation, frame),
            _ => call_object(object, alloc, operation, frame),
        },
        Object::TextsByText(map) => match source {
            Object::TextsByText(other) => call_two(map, other, alloc, operation, frame),
            _ => call_object(object, alloc, operation, frame),
        },
        Object::IntegerTree(tree) => match source {
            Object::IntegerTree(other) => call_two(tree, other, alloc, operation, frame),
            _ => call_object(object, alloc, operation, frame),
        },
        Object::TextTree(tree) => match source {
            Object::TextTree(other) => call_two(tree, other, alloc, operation, frame),
            _ => call_object(object, alloc, operation, frame),
        },
        Object::IntegerHolder(holder) => match source {
            Object::IntegerHolder(other) => call_holders(holder, other, alloc, operation, frame),
            _ => call_object(object, alloc, operation, frame),
        },
        Object::TextHolder(holder) => match source {
            Object::TextHolder(other) => call_holders(holder, other, alloc, operation, frame),
            _ => call_object(object, alloc, operation, frame),
        },
        Object::Queue(_) => call_object(object, alloc, operation, frame),
    }
}

/// A call of a holder with another one of its element type as the source.
fn call_holders<T: ScriptElement>(
    holder: &mut Holder<T>,
    source: &mut Holder<T>,
    alloc: Global,
    operation: Operation,
    frame: &mut Frame,
) -> Result<(), Fault>
    ensures { HolderRepliedWith T.tools
        (holder_reply T.tools holder.old (another source.old (arguments_of frame.old.arguments)) (arguments_of frame.old.arguments) operation)
        holder.old source.old holder.new source.new (told frame.new.reply result) }
{
    operate_holders(
        holder,
        source,
        alloc,
        operation,
        &mut frame.arguments,
        &mut frame.reply,
    )
}

/// A copy of the element at a cursor. Of a queue's items none is copied.
#[derive(Drop)]
struct ElementCopy {
    alloc: Global,
    at: Cursor,
}

impl Visitor for ElementCopy {
    type Answer = Result<Value, NoMemory>;

    ghost asks = { λ copy there. AsksElement copy.at there };

    ghost tells = { λ copy there answer. TellsElement copy.at there answer };

    fn visit_rows<C: RowObject>(self, object: &C) -> Result<Value, NoMemory> {
        element_in(object, self.alloc, self.at)
    }

    fn visit_holder<T: ScriptElement>(self, holder: &Holder<T>) -> Result<Value, NoMemory> {
        value(holder, self.alloc)
    }

    fn visit_queue(self) -> Result<Value, NoMemory> {
        Err(NoMemory)
    }
}

/// A copy of the element at which the cursor stands.
pub fn element_of(object: &Object, alloc: Global, at: Cursor) -> Result<Value, NoMemory>
    requires agree { ObjectAgrees object.now at }
    requires stands { (element_value (held_of object.now) (plain_mark at)).reason ≡ None }
    ensures { IfOk result (λ value. (element_value (held_of object.now) (plain_mark at)).answer ≡ Some value) }
{
    visit(object, ElementCopy { alloc, at })
}

/// A write through a name that stands for the element at a cursor.
#[derive(Drop)]
struct Write {
    alloc: Global,
    at: Cursor,
    value: Value,
}

impl Editor for Write {
    type State = ();

    type Answer = Result<(), Fault>;

    ghost asks = { λ writing state there. AgreesThere writing.at there };

    ghost tells = { λ writing old new answer edited. TellsWrite writing.at writing.value answer edited };

    fn edit_rows<C: OperatedRows>(self, object: &mut C, _state: &mut ()) -> Result<(), Fault> {
        write_in(object, self.alloc, self.at, self.value)
    }

    fn edit_holder<T: ScriptElement>(
        self,
        holder: &mut Holder<T>,
        _state: &mut (),
    ) -> Result<(), Fault> {
        write(holder, self.alloc, self.value)
    }

    fn edit_queue(self, _queue: &mut AnyQueue, _state: &mut ()) -> Result<(), Fault> {
        Err(Fault::Raised(Reason::NoElement))
    }
}

/// Writes a value through a name that stands for the element at the cursor.
pub fn write_element(
    object: &mut Object,
    alloc: Global,
    at: Cursor,
    value: Value,
) -> Result<(), Fault>
    requires agree { ObjectAgrees object.old at }
    ensures written { WritesTo (write (held_of object.old) (plain_mark at) value) object.old object.new result }
    ensures lasts { Lasts object.old object.new }
{
    edit(object, Write { alloc, at, value }, &mut ())
}

impl Object {
    /// What holds of every object, for proofs alone: a holder's element is no larger than its limit.
    #[inline(always)]
    #[tactic(auto, unfolding(crate::specs::World::memory_of))]
    pub(crate) fn law(&self)
        ensures { IsWithinLimit (held_of self.now) }
    {
        match self {
            Object::IntegerHolder(holder) => holder.law(),
            Object::TextHolder(holder) => holder.law(),
            _ => {}
        }
    }
}
