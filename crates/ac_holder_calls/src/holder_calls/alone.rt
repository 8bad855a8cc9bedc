//! The calls of a holder that is its own source, where the call has one.
ghost use Rattle.std.specs.Prelude.{◌≡◌};
ghost use Rattle.ac_model.specs.Holders as holders;
ghost use Rattle.ac_calls.specs.Answers.{answers_truth, answers_list};
ghost use Rattle.ac_calls.specs.HolderReplies.{holder_element, holder_listing};
ghost use Rattle.ac_calls.specs.Replies.{changes_ok, looks, tells, value_answer};
ghost use Rattle.ac_calls.specs.Arguments.{arguments_of};
ghost use Rattle.ac_holder_calls.specs.HolderCalls.{HolderReplied, own_tools};
ghost use Rattle.ac_calls.specs.Replied.{told};

use crate::holder_elements::{refused, value};
use ac_base::Fault;
use ac_calls::{Arguments, Reply, Said, ScriptElement};
use ac_forms::Holder;
use ac_model::allowed;
use std::alloc::Global;

pub fn is_empty<T: ScriptElement>(holder: &Holder<T>, reply: &mut Reply) -> Result<(), Fault>
    ensures { HolderReplied (own_tools T.tools T.size_of T.is_same) (tells holder.now (answers_truth (holders.is_empty_call holder.now)))
        holder.now holder.now (told reply.new result) }
{
    *reply = Reply::says(Said::Truth(holder.is_empty()));
    Ok(())
}

pub fn element<T: ScriptElement>(
    holder: &Holder<T>,
    alloc: Global,
    reply: &mut Reply,
) -> Result<(), Fault>
    ensures { HolderReplied (own_tools T.tools T.size_of T.is_same) (looks holder.now value_answer (holder_element T.tools holder.now))
        holder.now holder.now (told reply.new result) }
{
    allowed(refused(holder))?;
    let element = value(holder, alloc)?;
    *reply = Reply::says(Said::Value(element));
    Ok(())
}

pub fn replace_element<T: ScriptElement>(
    holder: &mut Holder<T>,
    alloc: Global,
    args: &mut Arguments,
    reply: &mut Reply,
) -> Result<(), Fault>
    ensures { let element = T.tools.from_value (arguments_of args.old).first.value in
        HolderReplied (own_tools T.tools T.size_of T.is_same)
        (changes_ok (holders.replace_element_call T.size_of holder.old element))
        holder.old holder.new (told reply.new result) }
{
    let element = T::from_value(alloc, args.first.take_value())?;
    holder.replace_element(element)?;
    *reply = Reply::says(Said::Done);
    Ok(())
}

pub fn clear<T: ScriptElement>(holder: &mut Holder<T>, reply: &mut Reply) -> Result<(), Fault>
    ensures { HolderReplied (own_tools T.tools T.size_of T.is_same) (changes_ok (holders.clear_call holder.old))
        holder.old holder.new (told reply.new result) }
{
    holder.clear()?;
    *reply = Reply::says(Said::Done);
    Ok(())
}

pub fn assign<T: ScriptElement>(holder: &mut Holder<T>, reply: &mut Reply) -> Result<(), Fault>
    ensures { HolderReplied (own_tools T.tools T.size_of T.is_same) (changes_ok (holders.assign_self_call holder.old))
        holder.old holder.new (told reply.new result) }
{
    holder.assign_self()?;
    *reply = Reply::says(Said::Done);
    Ok(())
}

pub fn move_from<T: ScriptElement>(holder: &mut Holder<T>, reply: &mut Reply) -> Result<(), Fault>
    ensures { HolderReplied (own_tools T.tools T.size_of T.is_same) (changes_ok (holders.move_from_self_call holder.old))
        holder.old holder.new (told reply.new result) }
{
    holder.move_from_self()?;
    *reply = Reply::says(Said::Done);
    Ok(())
}

pub fn swap<T: ScriptElement>(holder: &mut Holder<T>, reply: &mut Reply) -> Result<(), Fault>
    ensures { HolderReplied (own_tools T.tools T.size_of T.is_same) (changes_ok (holders.swap_self_call holder.old))
        holder.old holder.new (told reply.new result) }
{
    holder.swap_self()?;
    *reply = Reply::says(Said::Done);
    Ok(())
}

pub fn equal<T: ScriptElement>(holder: &Holder<T>, reply: &mut Reply) -> Result<(), Fault>
    ensures { HolderReplied (own_tools T.tools T.size_of T.is_same)
        (tells holder.now (answers_truth (holders.equal_call T.is_same holder.now holder.now)))
        holder.now holder.now (told reply.new result) }
{
    *reply = Reply::says(Said::Truth(holder.equal_self()));
    Ok(())
}

pub fn print<T: ScriptElement>(holder: &Holder<T>, reply: &mut Reply) -> Result<(), Fault>
    ensures { HolderReplied (own_tools T.tools T.size_of T.is_same) (tells holder.now (answers_list (holder_listing T.tools holder.now)))
        holder.now holder.now (told reply.new result) }
{
    let _holder = holder;
    *reply = Reply::says(Said::Listing);
    Ok(())
}
