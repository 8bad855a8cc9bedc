//! The calls of a holder with another one as the source.
ghost use Rattle.std.specs.Prelude.{◌≡◌};
ghost use Rattle.ac_model.specs.Holders as holders;
ghost use Rattle.ac_calls.specs.Answers.{answers_truth};
ghost use Rattle.ac_calls.specs.Replies.{changes_ok, changes_both, tells};
ghost use Rattle.ac_holder_calls.specs.HolderCalls.{HolderRepliedWith, own_tools};
ghost use Rattle.ac_calls.specs.Replied.{told};

use ac_base::Fault;
use ac_calls::{Reply, Said, ScriptElement};
use ac_forms::Holder;

pub fn assign<T: ScriptElement>(
    holder: &mut Holder<T>,
    source: &Holder<T>,
    reply: &mut Reply,
) -> Result<(), Fault>
    ensures { HolderRepliedWith (own_tools T.tools T.size_of T.is_same)
        (changes_ok (holders.assign_call T.size_of holder.old source.now))
        holder.old source.now holder.new source.now (told reply.new result) }
{
    holder.assign(source)?;
    *reply = Reply::says(Said::Done);
    Ok(())
}

pub fn move_from<T: ScriptElement>(
    holder: &mut Holder<T>,
    source: &mut Holder<T>,
    reply: &mut Reply,
) -> Result<(), Fault>
    ensures { HolderRepliedWith (own_tools T.tools T.size_of T.is_same)
        (changes_both (holders.move_from_call T.size_of holder.old source.old))
        holder.old source.old holder.new source.new (told reply.new result) }
{
    holder.move_from(source)?;
    *reply = Reply::says(Said::Done);
    Ok(())
}

pub fn swap<T: ScriptElement>(
    holder: &mut Holder<T>,
    source: &mut Holder<T>,
    reply: &mut Reply,
) -> Result<(), Fault>
    ensures { HolderRepliedWith (own_tools T.tools T.size_of T.is_same)
        (changes_both (holders.swap_call T.size_of holder.old source.old))
        holder.old source.old holder.new source.new (told reply.new result) }
{
    holder.swap(source)?;
    *reply = Reply::says(Said::Done);
    Ok(())
}

pub fn equal<T: ScriptElement>(
    holder: &Holder<T>,
    source: &Holder<T>,
    reply: &mut Reply,
) -> Result<(), Fault>
    ensures { HolderRepliedWith (own_tools T.tools T.size_of T.is_same)
        (tells holder.now (answers_truth (holders.equal_call T.is_same holder.now source.now)))
        holder.now source.now holder.now source.now (told reply.new result) }
{
    *reply = Reply::says(Said::Truth(holder.equal(source)));
    Ok(())
}
