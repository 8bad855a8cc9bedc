//! The calls of vectors by index.
ghost use Rattle.ac_model.specs.Calls.{Same};
ghost use Rattle.ac_model.specs.Forms.{Looks};
ghost use Rattle.ac_model.specs.Objects.{plain};
ghost use Rattle.ac_model.specs.Vectors as vectors;
ghost use Rattle.ac_calls.specs.Arguments.{argument_of};
ghost use Rattle.ac_calls.specs.Replied.{IsAnswer, told};
ghost use Rattle.ac_sequence_calls.specs.SequenceCalls.{VectorAloneReplied};

use ac_base::{Fault, Value};
use ac_calls::{Argument, Arguments, Reply, Said, ScriptElement};
use ac_chain::VectorLike;
use ac_cursor::Cursor;
use ac_syntax::VectorCall;
use std::alloc::Global;

#[inline(never)]
pub fn set_length<V: VectorLike>(
    vector: &mut V,
    args: &Arguments,
    reply: &mut Reply,
) -> Result<(), Fault>
where
    V::Element: ScriptElement,
    ensures { VectorAloneReplied V.Element.tools VectorCall.SetLength args.now
        (V.seen vector.old) (V.seen vector.new) (told reply.new result) }
{
    vector.set_length(args.first.count())?;
    reply.tell(Said::Done);
    Ok(())
}

#[inline(never)]
pub fn to_cursor<V: VectorLike>(
    vector: &V,
    args: &Arguments,
    reply: &mut Reply,
) -> Result<(), Fault>
where
    V::Element: ScriptElement,
    ensures { VectorAloneReplied V.Element.tools VectorCall.ToCursor args.now
        (V.seen vector.now) (V.seen vector.now) (told reply.new result) }
{
    let c = own_cursor(vector, &args.first);
    reply.tell(Said::Place(c));
    Ok(())
}

/// The cursor of the element at the index, which is the vector's own.
fn own_cursor<V: VectorLike>(vector: &V, index: &Argument) -> Cursor
    ensures { IsAnswer (V.seen vector.now).object result
        (vectors.to_cursor_call (plain (V.seen vector.now).object) (argument_of index.now).count) }
{
    vector.to_cursor(index.count())
}

pub fn to_index<V: VectorLike>(vector: &V, args: &Arguments, reply: &mut Reply) -> Result<(), Fault>
where
    V::Element: ScriptElement,
    ensures { VectorAloneReplied V.Element.tools VectorCall.ToIndex args.now
        (V.seen vector.now) (V.seen vector.now) (told reply.new result) }
{
    let index = vector.to_index(args.first.cursor())?;
    reply.tell(Said::Value(Value::Int(index)));
    Ok(())
}

pub fn element_index<V: VectorLike>(
    vector: &V,
    alloc: Global,
    args: &Arguments,
    reply: &mut Reply,
) -> Result<(), Fault>
where
    V::Element: ScriptElement,
    ensures { VectorAloneReplied V.Element.tools VectorCall.ElementIndex args.now
        (V.seen vector.now) (V.seen vector.now) (told reply.new result) }
{
    let element = vector.element_index(args.first.count())?;
    reply.tell(Said::Value(element.to_value(alloc)?));
    Ok(())
}

pub fn replace_index<V: VectorLike>(
    vector: &mut V,
    alloc: Global,
    args: &mut Arguments,
    reply: &mut Reply,
) -> Result<(), Fault>
where
    V::Element: ScriptElement,
    ensures { VectorAloneReplied V.Element.tools VectorCall.ReplaceIndex args.old
        (V.seen vector.old) (V.seen vector.new) (told reply.new result) }
{
    let index = args.first.count();
    let element = V::Element::from_value(alloc, args.second.take_value())?;
    vector.replace_index(index, element)?;
    reply.tell(Said::Done);
    Ok(())
}

#[inline(never)]
pub fn swap_index<V: VectorLike>(
    vector: &mut V,
    args: &Arguments,
    reply: &mut Reply,
) -> Result<(), Fault>
where
    V::Element: ScriptElement,
    ensures { VectorAloneReplied V.Element.tools VectorCall.SwapIndex args.now
        (V.seen vector.old) (V.seen vector.new) (told reply.new result) }
{
    vector.swap_index(args.first.count(), args.second.count())?;
    reply.tell(Said::Done);
    Ok(())
}

#[inline(never)]
pub fn insert_index<V: VectorLike>(
    vector: &mut V,
    alloc: Global,
    args: &mut Arguments,
    reply: &mut Reply,
) -> Result<(), Fault>
where
    V::Element: ScriptElement,
    ensures { VectorAloneReplied V.Element.tools VectorCall.InsertIndex args.old
        (V.seen vector.old) (V.seen vector.new) (told reply.new result) }
{
    let index = args.first.count();
    let count = args.third.count();
    let element = V::Element::from_value(alloc, args.second.take_value())?;
    vector.insert_index(index, element, count)?;
    reply.tell(Said::Done);
    Ok(())
}

#[inline(never)]
pub fn delete_index<V: VectorLike>(
    vector: &mut V,
    args: &Arguments,
    reply: &mut Reply,
) -> Result<(), Fault>
where
    V::Element: ScriptElement,
    ensures { VectorAloneReplied V.Element.tools VectorCall.DeleteIndex args.now
        (V.seen vector.old) (V.seen vector.new) (told reply.new result) }
{
    vector.delete_index(args.first.count(), args.second.count())?;
    reply.tell(Said::Done);
    Ok(())
}

#[inline(never)]
pub fn find_index<V: VectorLike>(
    vector: &V,
    alloc: Global,
    args: &mut Arguments,
    reply: &mut Reply,
) -> Result<(), Fault>
where
    V::Element: ScriptElement,
    ensures { VectorAloneReplied V.Element.tools VectorCall.FindIndex args.old
        (V.seen vector.now) (V.seen vector.now) (told reply.new result) }
{
    let element = V::Element::from_value(alloc, args.first.take_value())?;
    let found = index_of(vector, &element, &args.second)?;
    reply.tell(Said::Value(Value::Int(found)));
    Ok(())
}

#[inline(never)]
pub fn reverse_find_index<V: VectorLike>(
    vector: &V,
    alloc: Global,
    args: &mut Arguments,
    reply: &mut Reply,
) -> Result<(), Fault>
where
    V::Element: ScriptElement,
    ensures { VectorAloneReplied V.Element.tools VectorCall.ReverseFindIndex args.old
        (V.seen vector.now) (V.seen vector.now) (told reply.new result) }
{
    let element = V::Element::from_value(alloc, args.first.take_value())?;
    let found = last_index_of(vector, &element, &args.second)?;
    reply.tell(Said::Value(Value::Int(found)));
    Ok(())
}

/// Find_Index by the equality of scripts.
fn index_of<V: VectorLike>(vector: &V, element: &V::Element, from: &Argument) -> Result<i64, Fault>
where
    V::Element: ScriptElement,
    ensures { Looks Same (λ o. vectors.find_index_call V.Element.tools.same o element.now (argument_of from.now).count)
        (V.seen vector.now) result }
{
    vector.find_index(element, from.count())
}

/// Reverse_Find_Index by the equality of scripts.
fn last_index_of<V: VectorLike>(
    vector: &V,
    element: &V::Element,
    from: &Argument,
) -> Result<i64, Fault>
where
    V::Element: ScriptElement,
    ensures { Looks Same (λ o. vectors.reverse_find_index_call V.Element.tools.same o element.now (argument_of from.now).last_index)
        (V.seen vector.now) result }
{
    vector.reverse_find_index(element, from.last_index())
}
