//! The calls that lists and vectors share, with another one of their kind.
ghost use Rattle.ac_model.specs.Objects.{plain};
ghost use Rattle.ac_model.specs.Sequences as sequences;
ghost use Rattle.ac_calls.specs.Replies.{changes_both};
ghost use Rattle.ac_calls.specs.Replied.{RepliedWith, told};
ghost use Rattle.ac_sequence_calls.specs.SequenceCalls.{SequenceRepliedWith};

use super::sequence_call;
use ac_base::Fault;
use ac_calls::{Arguments, Reply, Said, ScriptElement};
use ac_chain::SequenceLike;
use ac_syntax::SequenceCall;
use std::alloc::Global;

/// A call that lists and vectors share.
pub fn sequence_call_with<S: SequenceLike>(
    sequence: &mut S,
    source: &mut S,
    alloc: Global,
    call: SequenceCall,
    args: &mut Arguments,
    reply: &mut Reply,
) -> Result<(), Fault>
where
    S::Element: ScriptElement,
    ensures { SequenceRepliedWith S.Element.tools S.names_move call args.old
        (S.seen sequence.old) (S.seen source.old) (S.seen sequence.new) (S.seen source.new) (told reply.new result) }
{
    match call {
        SequenceCall::Merge => merge(sequence, source, reply),
        _ => sequence_call(sequence, alloc, call, args, reply),
    }
}

fn merge<S: SequenceLike>(sequence: &mut S, source: &mut S, reply: &mut Reply) -> Result<(), Fault>
where
    S::Element: ScriptElement,
    ensures { let o = plain (S.seen sequence.old).object in let s = plain (S.seen source.old).object in
        RepliedWith (changes_both (sequences.merge_call S.Element.tools.less o s))
        (S.seen sequence.old) (S.seen source.old) (S.seen sequence.new) (S.seen source.new) (told reply.new result) }
{
    sequence.merge(source)?;
    reply.tell(Said::Done);
    Ok(())
}
