//! Operations on lists and vectors: each goes to the calls that mean it. One that the kind hasn't says that it is done.
ghost use Rattle.ac_calls.specs.Holdings.{of_list, of_vector};
ghost use Rattle.ac_calls.specs.Replied.{told};
ghost use Rattle.ac_sequence_calls.specs.SequenceCalls.{SequenceOperated, SequenceOperatedWith};

use crate::list_calls::{list_call, list_call_with};
use crate::sequence_calls::{sequence_call, sequence_call_with};
use crate::sequence_rows::SequenceRows;
use crate::vector_calls::{vector_call, vector_call_with};
use ac_base::Fault;
use ac_calls::{
    Arguments, Reply, Said, ScriptElement, capacity_call, common_call, common_call_with,
};
use ac_chain::{ListLike, VectorLike};
use ac_syntax::Operation;
use std::alloc::Global;

/// Makes a call on a list that is its own source, where the call has one.
#[inline(always)]
pub fn operate_list<L: ListLike>(
    list: &mut SequenceRows<L>,
    alloc: Global,
    operation: Operation,
    args: &mut Arguments,
    reply: &mut Reply,
) -> Result<(), Fault>
where
    L::Element: ScriptElement,
    ensures { SequenceOperated L.Element.tools of_list operation args.old
        (L.seen list.old.sequence) (L.seen list.new.sequence) (told reply.new result) }
{
    match operation {
        Operation::Common(call) => common_call(list, alloc, call, args, reply),
        Operation::Sequence(call) => sequence_call(&mut list.sequence, alloc, call, args, reply),
        Operation::List(call) => list_call(&mut list.sequence, call, args, reply),
        _ => {
            *reply = Reply::says(Said::Done);
            Ok(())
        }
    }
}

/// Makes a call on a list with another list as the source.
pub fn operate_list_with<L: ListLike>(
    list: &mut SequenceRows<L>,
    source: &mut SequenceRows<L>,
    alloc: Global,
    operation: Operation,
    args: &mut Arguments,
    reply: &mut Reply,
) -> Result<(), Fault>
where
    L::Element: ScriptElement,
    ensures { SequenceOperatedWith L.Element.tools of_list operation args.old
        (L.seen list.old.sequence) (L.seen source.old.sequence) (L.seen list.new.sequence) (L.seen source.new.sequence)
        (told reply.new result) }
{
    match operation {
        Operation::Common(call) => common_call_with(list, source, alloc, call, args, reply),
        Operation::Sequence(call) => {
            let source = &mut source.sequence;
            sequence_call_with(&mut list.sequence, source, alloc, call, args, reply)
        }
        Operation::List(call) => {
            list_call_with(&mut list.sequence, &mut source.sequence, call, args, reply)
        }
        _ => {
            *reply = Reply::says(Said::Done);
            Ok(())
        }
    }
}

/// Makes a call on a vector that is its own source, where the call has one.
#[inline(always)]
pub fn operate_vector<V: VectorLike>(
    vector: &mut SequenceRows<V>,
    alloc: Global,
    operation: Operation,
    args: &mut Arguments,
    reply: &mut Reply,
) -> Result<(), Fault>
where
    V::Element: ScriptElement,
    ensures { SequenceOperated V.Element.tools of_vector operation args.old
        (V.seen vector.old.sequence) (V.seen vector.new.sequence) (told reply.new result) }
{
    match operation {
        Operation::Common(call) => common_call(vector, alloc, call, args, reply),
        Operation::Sequence(call) => sequence_call(&mut vector.sequence, alloc, call, args, reply),
        Operation::Capacity(call) => capacity_call(vector, call, args, reply),
        Operation::Vector(call) => vector_call(&mut vector.sequence, alloc, call, args, reply),
        _ => {
            *reply = Reply::says(Said::Done);
            Ok(())
        }
    }
}

/// Makes a call on a vector with another vector as the source.
pub fn operate_vector_with<V: VectorLike>(
    vector: &mut SequenceRows<V>,
    source: &mut SequenceRows<V>,
    alloc: Global,
    operation: Operation,
    args: &mut Arguments,
    reply: &mut Reply,
) -> Result<(), Fault>
where
    V::Element: ScriptElement,
    ensures { SequenceOperatedWith V.Element.tools of_vector operation args.old
        (V.seen vector.old.sequence) (V.seen source.old.sequence) (V.seen vector.new.sequence) (V.seen source.new.sequence)
        (told reply.new result) }
{
    match operation {
        Operation::Common(call) => common_call_with(vector, source, alloc, call, args, reply),
        Operation::Sequence(call) => {
            let source = &mut source.sequence;
            sequence_call_with(&mut vector.sequence, source, alloc, call, args, reply)
        }
        Operation::Capacity(call) => capacity_call(vector, call, args, reply),
        Operation::Vector(call) => {
            let source = &source.sequence;
            vector_call_with(&mut vector.sequence, source, alloc, call, args, reply)
        }
        _ => {
            *reply = Reply::says(Said::Done);
            Ok(())
        }
    }
}
