//! The calls of ordered maps and sets.
ghost use Rattle.std.specs.Prelude.{◌≡◌, ℕ, Option};
ghost use Rattle.ac_base.specs.declared.value.Value.{Value as Values};
ghost use Rattle.ac_model.specs.Calls.{Look, Same, Marks};
ghost use Rattle.ac_model.specs.Containers.{Container, slots_of};
ghost use Rattle.ac_model.specs.Forms.{Does, Looks, seen_by as mark_by};
ghost use Rattle.ac_model.specs.Objects.{Object, plain};
ghost use Rattle.ac_model.specs.Ordered as ordered;
ghost use Rattle.ac_model.specs.Sequences as sequences;
ghost use Rattle.ac_calls.specs.Answers.{answers_place};
ghost use Rattle.ac_calls.specs.KeyedReplies.{ordered_reply};
ghost use Rattle.ac_calls.specs.Replies.{changes_ok, looks, value_answer};
ghost use Rattle.ac_calls.specs.Replied.{IsAnswer, Replied, told};
ghost use Rattle.ac_calls.specs.RowCalls.{GivesValue, RowsReplied};

use ac_base::{Fault, Value};
use ac_calls::{Arguments, Reply, Said};
use ac_cursor::Cursor;
use ac_syntax::OrderedCall;
use std::alloc::Global;

/// Ordered maps and sets.
pub trait OrderedRows {
    type Row;

    ghost rows: { Self → Container Self.Row };

    /// First_Element and Last_Element, as values.
    ghost first_call: { Object ℕ Self.Row → Look (Option Values) };

    ghost last_call: { Object ℕ Self.Row → Look (Option Values) };

    fn last(&self) -> Cursor
        ensures { Marks (rows self.now).object result (sequences.last_call (plain (rows self.now).object)) };

    fn previous(&self, c: Cursor) -> Result<Cursor, Fault>
        ensures { Looks (Marks (rows self.now).object) (λ o. sequences.previous_call o (mark_by (rows self.now) c))
            (rows self.now) result };

    fn delete_first(&mut self) -> Result<(), Fault>
        ensures changed { Does Same ordered.delete_first_call (rows self.old) (rows self.new) result }
        ensures slots { slots_of (rows self.new) ≡ slots_of (rows self.old) };

    fn delete_last(&mut self) -> Result<(), Fault>
        ensures changed { Does Same ordered.delete_last_call (rows self.old) (rows self.new) result }
        ensures slots { slots_of (rows self.new) ≡ slots_of (rows self.old) };

    /// A copy of the first element.
    fn first_value(&self, alloc: Global) -> Result<Value, Fault>
        ensures { GivesValue (first_call (plain (rows self.now).object)) result };

    /// A copy of the last element.
    fn last_value(&self, alloc: Global) -> Result<Value, Fault>
        ensures { GivesValue (last_call (plain (rows self.now).object)) result };
}

/// A call of ordered maps and sets.
pub fn ordered_call<C: OrderedRows>(
    object: &mut C,
    alloc: Global,
    call: OrderedCall,
    args: &Arguments,
    reply: &mut Reply,
) -> Result<(), Fault>
    ensures { RowsReplied
        (λ o seen. ordered_reply o seen (looks o value_answer (C.first_call o)) (looks o value_answer (C.last_call o)) call) args.now
        (C.rows object.old) (C.rows object.new) (told reply.new result) }
{
    match call {
        OrderedCall::Last => {
            reply.tell(Said::Place(own_last(object)));
            Ok(())
        }
        OrderedCall::Previous => previous(object, args, reply),
        OrderedCall::DeleteFirst => delete_first(object, reply),
        OrderedCall::DeleteLast => delete_last(object, reply),
        OrderedCall::FirstElement => first_element(object, alloc, reply),
        OrderedCall::LastElement => last_element(object, alloc, reply),
    }
}

/// The cursor that is answered is the object's own.
fn own_last<C: OrderedRows>(object: &C) -> Cursor
    ensures { let rows = C.rows object.now in IsAnswer rows.object result (sequences.last_call (plain rows.object)) }
{
    object.last()
}

fn own_previous<C: OrderedRows>(object: &C, c: Cursor) -> Result<Cursor, Fault>
    ensures { let rows = C.rows object.now in
        Looks (IsAnswer rows.object) (λ o. sequences.previous_call o (mark_by rows c)) rows result }
{
    object.previous(c)
}

fn previous<C: OrderedRows>(object: &C, args: &Arguments, reply: &mut Reply) -> Result<(), Fault>
    ensures { RowsReplied (λ o seen. looks o answers_place (sequences.previous_call o seen.first.cursor)) args.now
        (C.rows object.now) (C.rows object.now) (told reply.new result) }
{
    let previous = own_previous(object, args.first.cursor())?;
    reply.tell(Said::Place(previous));
    Ok(())
}

fn delete_first<C: OrderedRows>(object: &mut C, reply: &mut Reply) -> Result<(), Fault>
    ensures { Replied (changes_ok (ordered.delete_first_call (plain (C.rows object.old).object)))
        (C.rows object.old) (C.rows object.new) (told reply.new result) }
{
    object.delete_first()?;
    reply.tell(Said::Done);
    Ok(())
}

fn delete_last<C: OrderedRows>(object: &mut C, reply: &mut Reply) -> Result<(), Fault>
    ensures { Replied (changes_ok (ordered.delete_last_call (plain (C.rows object.old).object)))
        (C.rows object.old) (C.rows object.new) (told reply.new result) }
{
    object.delete_last()?;
    reply.tell(Said::Done);
    Ok(())
}

fn first_element<C: OrderedRows>(object: &C, alloc: Global, reply: &mut Reply) -> Result<(), Fault>
    ensures { let o = plain (C.rows object.now).object in Replied (looks o value_answer (C.first_call o))
        (C.rows object.now) (C.rows object.now) (told reply.new result) }
{
    let element = object.first_value(alloc)?;
    reply.tell(Said::Value(element));
    Ok(())
}

fn last_element<C: OrderedRows>(object: &C, alloc: Global, reply: &mut Reply) -> Result<(), Fault>
    ensures { let o = plain (C.rows object.now).object in Replied (looks o value_answer (C.last_call o))
        (C.rows object.now) (C.rows object.now) (told reply.new result) }
{
    let element = object.last_value(alloc)?;
    reply.tell(Said::Value(element));
    Ok(())
}
