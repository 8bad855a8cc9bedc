//! The calls of lists and vectors that delete elements by place.
ghost use Rattle.ac_calls.specs.Replied.{told};
ghost use Rattle.ac_sequence_calls.specs.SequenceCalls.{SequenceReplied};

use ac_base::Fault;
use ac_calls::{Arguments, Reply, Said, ScriptElement};
use ac_chain::SequenceLike;
use ac_syntax::SequenceCall;

#[inline(never)]
pub fn delete<S: SequenceLike>(
    sequence: &mut S,
    args: &Arguments,
    reply: &mut Reply,
) -> Result<(), Fault>
where
    S::Element: ScriptElement,
    ensures { SequenceReplied S.Element.tools S.names_move SequenceCall.Delete args.now
        (S.seen sequence.old) (S.seen sequence.new) (told reply.new result) }
{
    let mut position = args.first.cursor();
    sequence.delete(&mut position, args.second.count())?;
    *reply = Reply::sets(0, position);
    Ok(())
}

pub fn delete_first<S: SequenceLike>(
    sequence: &mut S,
    args: &Arguments,
    reply: &mut Reply,
) -> Result<(), Fault>
where
    S::Element: ScriptElement,
    ensures { SequenceReplied S.Element.tools S.names_move SequenceCall.DeleteFirst args.now
        (S.seen sequence.old) (S.seen sequence.new) (told reply.new result) }
{
    sequence.delete_first(args.first.count())?;
    reply.tell(Said::Done);
    Ok(())
}

pub fn delete_last<S: SequenceLike>(
    sequence: &mut S,
    args: &Arguments,
    reply: &mut Reply,
) -> Result<(), Fault>
where
    S::Element: ScriptElement,
    ensures { SequenceReplied S.Element.tools S.names_move SequenceCall.DeleteLast args.now
        (S.seen sequence.old) (S.seen sequence.new) (told reply.new result) }
{
    sequence.delete_last(args.first.count())?;
    reply.tell(Said::Done);
    Ok(())
}
