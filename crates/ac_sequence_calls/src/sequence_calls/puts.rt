//! The calls of lists and vectors that put elements into them.
ghost use Rattle.ac_calls.specs.Replied.{told};
ghost use Rattle.ac_sequence_calls.specs.SequenceCalls.{SequenceReplied};

use super::own_cursors;
use ac_base::Fault;
use ac_calls::{Arguments, Reply, Said, ScriptElement};
use ac_chain::SequenceLike;
use ac_syntax::SequenceCall;
use std::alloc::Global;

pub fn append<S: SequenceLike>(
    sequence: &mut S,
    alloc: Global,
    args: &mut Arguments,
    reply: &mut Reply,
) -> Result<(), Fault>
where
    S::Element: ScriptElement,
    ensures { SequenceReplied S.Element.tools S.names_move SequenceCall.Append args.old
        (S.seen sequence.old) (S.seen sequence.new) (told reply.new result) }
{
    let count = args.second.count();
    let element = S::Element::from_value(alloc, args.first.take_value())?;
    sequence.append(element, count)?;
    reply.tell(Said::Done);
    Ok(())
}

#[inline(never)]
pub fn prepend<S: SequenceLike>(
    sequence: &mut S,
    alloc: Global,
    args: &mut Arguments,
    reply: &mut Reply,
) -> Result<(), Fault>
where
    S::Element: ScriptElement,
    ensures { SequenceReplied S.Element.tools S.names_move SequenceCall.Prepend args.old
        (S.seen sequence.old) (S.seen sequence.new) (told reply.new result) }
{
    let count = args.second.count();
    let element = S::Element::from_value(alloc, args.first.take_value())?;
    sequence.prepend(element, count)?;
    reply.tell(Said::Done);
    Ok(())
}

#[inline(never)]
pub fn insert<S: SequenceLike>(
    sequence: &mut S,
    alloc: Global,
    args: &mut Arguments,
    reply: &mut Reply,
) -> Result<(), Fault>
where
    S::Element: ScriptElement,
    ensures { SequenceReplied S.Element.tools S.names_move SequenceCall.Insert args.old
        (S.seen sequence.old) (S.seen sequence.new) (told reply.new result) }
{
    let before = args.first.cursor();
    let count = args.third.count();
    let element = S::Element::from_value(alloc, args.second.take_value())?;
    sequence.insert(before, element, count)?;
    reply.tell(Said::Done);
    Ok(())
}

#[inline(never)]
pub fn insert_pos<S: SequenceLike>(
    sequence: &mut S,
    alloc: Global,
    args: &mut Arguments,
    reply: &mut Reply,
) -> Result<(), Fault>
where
    S::Element: ScriptElement,
    ensures { SequenceReplied S.Element.tools S.names_move SequenceCall.InsertPos args.old
        (S.seen sequence.old) (S.seen sequence.new) (told reply.new result) }
{
    let before = args.first.cursor();
    let count = args.fourth.count();
    let element = S::Element::from_value(alloc, args.second.take_value())?;
    let first = own_cursors::insert_pos(sequence, before, element, count)?;
    *reply = Reply::sets(2, first);
    Ok(())
}
