//! The calls of lists and vectors that look at their elements.
ghost use Rattle.ac_model.specs.Objects.{plain};
ghost use Rattle.ac_model.specs.Sequences as sequences;
ghost use Rattle.ac_calls.specs.Replies.{looks, value_answer, as_value};
ghost use Rattle.ac_calls.specs.Replied.{Replied, told};
ghost use Rattle.ac_sequence_calls.specs.SequenceCalls.{SequenceReplied};

use super::own_cursors;
use ac_base::Fault;
use ac_calls::{Arguments, Reply, Said, ScriptElement};
use ac_chain::SequenceLike;
use ac_syntax::SequenceCall;
use std::alloc::Global;

pub fn first_element<S: SequenceLike>(
    sequence: &S,
    alloc: Global,
    reply: &mut Reply,
) -> Result<(), Fault>
where
    S::Element: ScriptElement,
    ensures { let o = plain (S.seen sequence.now).object in
        Replied (looks o value_answer (as_value S.Element.tools (sequences.first_element_call o)))
        (S.seen sequence.now) (S.seen sequence.now) (told reply.new result) }
{
    let element = sequence.first_element()?;
    reply.tell(Said::Value(element.to_value(alloc)?));
    Ok(())
}

pub fn last_element<S: SequenceLike>(
    sequence: &S,
    alloc: Global,
    reply: &mut Reply,
) -> Result<(), Fault>
where
    S::Element: ScriptElement,
    ensures { let o = plain (S.seen sequence.now).object in
        Replied (looks o value_answer (as_value S.Element.tools (sequences.last_element_call o)))
        (S.seen sequence.now) (S.seen sequence.now) (told reply.new result) }
{
    let element = sequence.last_element()?;
    reply.tell(Said::Value(element.to_value(alloc)?));
    Ok(())
}

pub fn next<S: SequenceLike>(sequence: &S, args: &Arguments, reply: &mut Reply) -> Result<(), Fault>
where
    S::Element: ScriptElement,
    ensures { SequenceReplied S.Element.tools S.names_move SequenceCall.Next args.now
        (S.seen sequence.now) (S.seen sequence.now) (told reply.new result) }
{
    let next = own_cursors::next(sequence, args.first.cursor())?;
    reply.tell(Said::Place(next));
    Ok(())
}

pub fn previous<S: SequenceLike>(
    sequence: &S,
    args: &Arguments,
    reply: &mut Reply,
) -> Result<(), Fault>
where
    S::Element: ScriptElement,
    ensures { SequenceReplied S.Element.tools S.names_move SequenceCall.Previous args.now
        (S.seen sequence.now) (S.seen sequence.now) (told reply.new result) }
{
    let previous = own_cursors::previous(sequence, args.first.cursor())?;
    reply.tell(Said::Place(previous));
    Ok(())
}

#[inline(never)]
pub fn find<S: SequenceLike>(
    sequence: &S,
    alloc: Global,
    args: &mut Arguments,
    reply: &mut Reply,
) -> Result<(), Fault>
where
    S::Element: ScriptElement,
    ensures { SequenceReplied S.Element.tools S.names_move SequenceCall.Find args.old
        (S.seen sequence.now) (S.seen sequence.now) (told reply.new result) }
{
    let from = args.second.cursor();
    let element = S::Element::from_value(alloc, args.first.take_value())?;
    let found = own_cursors::find(sequence, &element, from)?;
    reply.tell(Said::Place(found));
    Ok(())
}

#[inline(never)]
pub fn reverse_find<S: SequenceLike>(
    sequence: &S,
    alloc: Global,
    args: &mut Arguments,
    reply: &mut Reply,
) -> Result<(), Fault>
where
    S::Element: ScriptElement,
    ensures { SequenceReplied S.Element.tools S.names_move SequenceCall.ReverseFind args.old
        (S.seen sequence.now) (S.seen sequence.now) (told reply.new result) }
{
    let from = args.second.cursor();
    let element = S::Element::from_value(alloc, args.first.take_value())?;
    let found = own_cursors::reverse_find(sequence, &element, from)?;
    reply.tell(Said::Place(found));
    Ok(())
}

#[inline(never)]
pub fn contains<S: SequenceLike>(
    sequence: &S,
    alloc: Global,
    args: &mut Arguments,
    reply: &mut Reply,
) -> Result<(), Fault>
where
    S::Element: ScriptElement,
    ensures { SequenceReplied S.Element.tools S.names_move SequenceCall.Contains args.old
        (S.seen sequence.now) (S.seen sequence.now) (told reply.new result) }
{
    let element = S::Element::from_value(alloc, args.first.take_value())?;
    reply.tell(Said::Truth(sequence.contains(&element)));
    Ok(())
}
