//! The calls that lists and vectors share, but those with another one.
ghost use Rattle.ac_calls.specs.Replied.{told};
ghost use Rattle.ac_sequence_calls.specs.SequenceCalls.{SequenceReplied};

mod deletions;
mod looks;
mod orders;
mod own_cursors;
mod puts;
mod sources;

use ac_base::Fault;
use ac_calls::{Arguments, Reply, Said, ScriptElement};
use ac_chain::SequenceLike;
use ac_syntax::SequenceCall;
pub use sources::sequence_call_with;
use std::alloc::Global;

/// A call that lists and vectors share.
#[inline(always)]
pub fn sequence_call<S: SequenceLike>(
    sequence: &mut S,
    alloc: Global,
    call: SequenceCall,
    args: &mut Arguments,
    reply: &mut Reply,
) -> Result<(), Fault>
where
    S::Element: ScriptElement,
    ensures { SequenceReplied S.Element.tools S.names_move call args.old
        (S.seen sequence.old) (S.seen sequence.new) (told reply.new result) }
{
    match call {
        SequenceCall::Append => puts::append(sequence, alloc, args, reply),
        SequenceCall::Prepend => puts::prepend(sequence, alloc, args, reply),
        SequenceCall::Insert => puts::insert(sequence, alloc, args, reply),
        SequenceCall::InsertPos => puts::insert_pos(sequence, alloc, args, reply),
        SequenceCall::Delete => deletions::delete(sequence, args, reply),
        SequenceCall::DeleteFirst => deletions::delete_first(sequence, args, reply),
        SequenceCall::DeleteLast => deletions::delete_last(sequence, args, reply),
        SequenceCall::First => {
            reply.tell_apart(Said::Place(own_cursors::first(sequence)));
            Ok(())
        }
        SequenceCall::Last => {
            reply.tell_apart(Said::Place(own_cursors::last(sequence)));
            Ok(())
        }
        SequenceCall::FirstElement => looks::first_element(sequence, alloc, reply),
        SequenceCall::LastElement => looks::last_element(sequence, alloc, reply),
        SequenceCall::Next => looks::next(sequence, args, reply),
        SequenceCall::Previous => looks::previous(sequence, args, reply),
        SequenceCall::Find => looks::find(sequence, alloc, args, reply),
        SequenceCall::ReverseFind => looks::reverse_find(sequence, alloc, args, reply),
        SequenceCall::Contains => looks::contains(sequence, alloc, args, reply),
        SequenceCall::Swap => orders::swap(sequence, args, reply),
        SequenceCall::ReverseElements => orders::reverse_elements(sequence, reply),
        SequenceCall::Sort => orders::sort(sequence, reply),
        SequenceCall::IsSorted => {
            reply.tell_apart(Said::Truth(sequence.is_sorted()));
            Ok(())
        }
        SequenceCall::Merge => orders::merge(sequence, reply),
    }
}
