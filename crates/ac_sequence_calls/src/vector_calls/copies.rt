//! The calls that put copies of a vector's elements into a vector, the vector itself or another.
ghost use Rattle.ac_model.specs.Containers.{Grows};
ghost use Rattle.ac_model.specs.Forms.{Does, seen_by};
ghost use Rattle.ac_model.specs.Objects.{plain};
ghost use Rattle.ac_model.specs.Vectors as vectors;
ghost use Rattle.ac_calls.specs.Replies.{changes_ok};
ghost use Rattle.ac_calls.specs.Replied.{IsAnswer, Replied, RepliedWith, told};
ghost use Rattle.ac_sequence_calls.specs.SequenceCalls.{VectorAloneReplied, VectorAloneRepliedWith};

use super::vector_call;
use ac_base::Fault;
use ac_calls::{Arguments, Reply, Said, ScriptElement};
use ac_chain::VectorLike;
use ac_cursor::Cursor;
use ac_syntax::VectorCall;
use std::alloc::Global;

/// A call of vectors alone, with another vector as the source if the call has one.
pub fn vector_call_with<V: VectorLike>(
    vector: &mut V,
    source: &V,
    alloc: Global,
    call: VectorCall,
    args: &mut Arguments,
    reply: &mut Reply,
) -> Result<(), Fault>
where
    V::Element: ScriptElement,
    ensures { VectorAloneRepliedWith V.Element.tools call args.old
        (V.seen vector.old) (V.seen source.now) (V.seen vector.new) (V.seen source.now) (told reply.new result) }
{
    match call {
        VectorCall::InsertVectorIndex => insert_vector_index(vector, source, args, reply),
        VectorCall::InsertVector => insert_vector(vector, source, args, reply),
        VectorCall::InsertVectorPos => insert_vector_pos(vector, source, args, reply),
        VectorCall::AppendVector => append_vector(vector, source, reply),
        VectorCall::PrependVector => prepend_vector(vector, source, reply),
        _ => vector_call(vector, alloc, call, args, reply),
    }
}

// The vector itself

#[inline(never)]
pub fn insert_vector_index_self<V: VectorLike>(
    vector: &mut V,
    args: &Arguments,
    reply: &mut Reply,
) -> Result<(), Fault>
where
    V::Element: ScriptElement,
    ensures { VectorAloneReplied V.Element.tools VectorCall.InsertVectorIndex args.now
        (V.seen vector.old) (V.seen vector.new) (told reply.new result) }
{
    vector.insert_vector_index_self(args.first.count())?;
    reply.tell(Said::Done);
    Ok(())
}

#[inline(never)]
pub fn insert_vector_self<V: VectorLike>(
    vector: &mut V,
    args: &Arguments,
    reply: &mut Reply,
) -> Result<(), Fault>
where
    V::Element: ScriptElement,
    ensures { VectorAloneReplied V.Element.tools VectorCall.InsertVector args.now
        (V.seen vector.old) (V.seen vector.new) (told reply.new result) }
{
    vector.insert_vector_self(args.first.cursor())?;
    reply.tell(Said::Done);
    Ok(())
}

#[inline(never)]
pub fn insert_vector_pos_self<V: VectorLike>(
    vector: &mut V,
    args: &Arguments,
    reply: &mut Reply,
) -> Result<(), Fault>
where
    V::Element: ScriptElement,
    ensures { VectorAloneReplied V.Element.tools VectorCall.InsertVectorPos args.now
        (V.seen vector.old) (V.seen vector.new) (told reply.new result) }
{
    let first = own_insert_self(vector, args.first.cursor())?;
    *reply = Reply::sets(2, first);
    Ok(())
}

#[inline(never)]
pub fn append_vector_self<V: VectorLike>(vector: &mut V, reply: &mut Reply) -> Result<(), Fault>
where
    V::Element: ScriptElement,
    ensures { let o = plain (V.seen vector.old).object in Replied (changes_ok (vectors.append_vector_call o o))
        (V.seen vector.old) (V.seen vector.new) (told reply.new result) }
{
    vector.append_vector_self()?;
    reply.tell(Said::Done);
    Ok(())
}

#[inline(never)]
pub fn prepend_vector_self<V: VectorLike>(vector: &mut V, reply: &mut Reply) -> Result<(), Fault>
where
    V::Element: ScriptElement,
    ensures { let o = plain (V.seen vector.old).object in Replied (changes_ok (vectors.prepend_vector_call o o))
        (V.seen vector.old) (V.seen vector.new) (told reply.new result) }
{
    vector.prepend_vector_self()?;
    reply.tell(Said::Done);
    Ok(())
}

/// The first copy's cursor, or the one before which none is put.
fn own_insert_self<V: VectorLike>(vector: &mut V, before: Cursor) -> Result<Cursor, Fault>
    ensures changed { Does (IsAnswer (V.seen vector.new).object)
        (λ o. vectors.insert_vector_pos_call o (seen_by (V.seen vector.old) before) o)
        (V.seen vector.old) (V.seen vector.new) result }
    ensures slots { Grows result (V.seen vector.old) (V.seen vector.new) }
{
    let mut first = before;
    vector.insert_vector_pos_self(before, &mut first)?;
    Ok(first)
}

// Another vector

fn insert_vector_index<V: VectorLike>(
    vector: &mut V,
    source: &V,
    args: &Arguments,
    reply: &mut Reply,
) -> Result<(), Fault>
where
    V::Element: ScriptElement,
    ensures { VectorAloneRepliedWith V.Element.tools VectorCall.InsertVectorIndex args.now
        (V.seen vector.old) (V.seen source.now) (V.seen vector.new) (V.seen source.now) (told reply.new result) }
{
    vector.insert_vector_index(args.first.count(), source)?;
    reply.tell(Said::Done);
    Ok(())
}

fn insert_vector<V: VectorLike>(
    vector: &mut V,
    source: &V,
    args: &Arguments,
    reply: &mut Reply,
) -> Result<(), Fault>
where
    V::Element: ScriptElement,
    ensures { VectorAloneRepliedWith V.Element.tools VectorCall.InsertVector args.now
        (V.seen vector.old) (V.seen source.now) (V.seen vector.new) (V.seen source.now) (told reply.new result) }
{
    vector.insert_vector(args.first.cursor(), source)?;
    reply.tell(Said::Done);
    Ok(())
}

fn insert_vector_pos<V: VectorLike>(
    vector: &mut V,
    source: &V,
    args: &Arguments,
    reply: &mut Reply,
) -> Result<(), Fault>
where
    V::Element: ScriptElement,
    ensures { VectorAloneRepliedWith V.Element.tools VectorCall.InsertVectorPos args.now
        (V.seen vector.old) (V.seen source.now) (V.seen vector.new) (V.seen source.now) (told reply.new result) }
{
    let first = own_insert(vector, args.first.cursor(), source)?;
    *reply = Reply::sets(2, first);
    Ok(())
}

fn append_vector<V: VectorLike>(vector: &mut V, source: &V, reply: &mut Reply) -> Result<(), Fault>
where
    V::Element: ScriptElement,
    ensures { RepliedWith (changes_ok (vectors.append_vector_call (plain (V.seen vector.old).object) (plain (V.seen source.now).object)))
        (V.seen vector.old) (V.seen source.now) (V.seen vector.new) (V.seen source.now) (told reply.new result) }
{
    vector.append_vector(source)?;
    reply.tell(Said::Done);
    Ok(())
}

fn prepend_vector<V: VectorLike>(vector: &mut V, source: &V, reply: &mut Reply) -> Result<(), Fault>
where
    V::Element: ScriptElement,
    ensures { RepliedWith (changes_ok (vectors.prepend_vector_call (plain (V.seen vector.old).object) (plain (V.seen source.now).object)))
        (V.seen vector.old) (V.seen source.now) (V.seen vector.new) (V.seen source.now) (told reply.new result) }
{
    vector.prepend_vector(source)?;
    reply.tell(Said::Done);
    Ok(())
}

/// The first copy's cursor, or the one before which none is put.
fn own_insert<V: VectorLike>(vector: &mut V, before: Cursor, source: &V) -> Result<Cursor, Fault>
    ensures changed { Does (IsAnswer (V.seen vector.new).object)
        (λ o. vectors.insert_vector_pos_call o (seen_by (V.seen vector.old) before) (plain (V.seen source.now).object))
        (V.seen vector.old) (V.seen vector.new) result }
    ensures slots { Grows result (V.seen vector.old) (V.seen vector.new) }
{
    let mut first = before;
    vector.insert_vector_pos(before, source, &mut first)?;
    Ok(first)
}
