//! The calls of lists and vectors on the order of their elements.
ghost use Rattle.ac_chain.specs.Rearranging.{reversing, sorting};
ghost use Rattle.ac_model.specs.Objects.{plain};
ghost use Rattle.ac_model.specs.Sequences as sequences;
ghost use Rattle.ac_calls.specs.Replies.{changes_ok};
ghost use Rattle.ac_calls.specs.Replied.{Replied, told};
ghost use Rattle.ac_sequence_calls.specs.SequenceCalls.{SequenceReplied};

use ac_base::Fault;
use ac_calls::{Arguments, Reply, Said, ScriptElement};
use ac_chain::SequenceLike;
use ac_syntax::SequenceCall;

#[inline(never)]
pub fn swap<S: SequenceLike>(
    sequence: &mut S,
    args: &Arguments,
    reply: &mut Reply,
) -> Result<(), Fault>
where
    S::Element: ScriptElement,
    ensures { SequenceReplied S.Element.tools S.names_move SequenceCall.Swap args.now
        (S.seen sequence.old) (S.seen sequence.new) (told reply.new result) }
{
    sequence.swap(args.first.cursor(), args.second.cursor())?;
    reply.tell(Said::Done);
    Ok(())
}

#[inline(never)]
pub fn reverse_elements<S: SequenceLike>(sequence: &mut S, reply: &mut Reply) -> Result<(), Fault>
where
    S::Element: ScriptElement,
    ensures { Replied (changes_ok (reversing S.names_move (plain (S.seen sequence.old).object)))
        (S.seen sequence.old) (S.seen sequence.new) (told reply.new result) }
{
    sequence.reverse_elements()?;
    reply.tell(Said::Done);
    Ok(())
}

#[inline(never)]
pub fn sort<S: SequenceLike>(sequence: &mut S, reply: &mut Reply) -> Result<(), Fault>
where
    S::Element: ScriptElement,
    ensures { Replied (changes_ok (sorting S.names_move S.Element.tools.less (plain (S.seen sequence.old).object)))
        (S.seen sequence.old) (S.seen sequence.new) (told reply.new result) }
{
    sequence.sort()?;
    reply.tell(Said::Done);
    Ok(())
}

#[inline(never)]
pub fn merge<S: SequenceLike>(sequence: &mut S, reply: &mut Reply) -> Result<(), Fault>
where
    S::Element: ScriptElement,
    ensures { Replied (changes_ok (sequences.merge_self_call (plain (S.seen sequence.old).object)))
        (S.seen sequence.old) (S.seen sequence.new) (told reply.new result) }
{
    sequence.merge_self()?;
    reply.tell(Said::Done);
    Ok(())
}
