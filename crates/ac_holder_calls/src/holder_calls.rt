//! The calls of holders.
ghost use Rattle.std.specs.Prelude.{◌≡◌};
ghost use Rattle.ac_calls.specs.HolderReplies.{holder_alone_reply, holder_reply};
ghost use Rattle.ac_calls.specs.Replies.{without, another};
ghost use Rattle.ac_calls.specs.Arguments.{arguments_of};
ghost use Rattle.ac_holder_calls.specs.HolderCalls.{HolderReplied, HolderRepliedWith, own_tools};
ghost use Rattle.ac_calls.specs.Replied.{told};

mod alone;
mod sources;

use ac_base::Fault;
use ac_calls::{Arguments, Reply, Said, ScriptElement};
use ac_forms::Holder;
use ac_syntax::{HolderCall, Operation};
use std::alloc::Global;

/// Makes a call on a holder that is its own source, where the call has one.
pub fn operate_holder<T: ScriptElement>(
    holder: &mut Holder<T>,
    alloc: Global,
    operation: Operation,
    args: &mut Arguments,
    reply: &mut Reply,
) -> Result<(), Fault>
    ensures { HolderReplied T.tools (holder_reply T.tools holder.old without (arguments_of args.old) operation)
        holder.old holder.new (told reply.new result) }
{
    match operation {
        Operation::Holder(call) => holder_call(holder, alloc, call, args, reply),
        _ => {
            *reply = Reply::says(Said::Done);
            Ok(())
        }
    }
}

/// A call of a holder that is its own source.
fn holder_call<T: ScriptElement>(
    holder: &mut Holder<T>,
    alloc: Global,
    call: HolderCall,
    args: &mut Arguments,
    reply: &mut Reply,
) -> Result<(), Fault>
    ensures { let tools = own_tools T.tools T.size_of T.is_same in
        HolderReplied tools (holder_alone_reply tools holder.old without (arguments_of args.old) call)
        holder.old holder.new (told reply.new result) }
{
    match call {
        HolderCall::IsEmpty => alone::is_empty(holder, reply),
        HolderCall::Element => alone::element(holder, alloc, reply),
        HolderCall::ReplaceElement => alone::replace_element(holder, alloc, args, reply),
        HolderCall::Clear => alone::clear(holder, reply),
        HolderCall::Assign => alone::assign(holder, reply),
        HolderCall::MoveFrom => alone::move_from(holder, reply),
        HolderCall::Swap => alone::swap(holder, reply),
        HolderCall::Equal => alone::equal(holder, reply),
        HolderCall::Print => alone::print(holder, reply),
    }
}

/// Makes a call on a holder with another one of its element type as the source.
pub fn operate_holders<T: ScriptElement>(
    holder: &mut Holder<T>,
    source: &mut Holder<T>,
    alloc: Global,
    operation: Operation,
    args: &mut Arguments,
    reply: &mut Reply,
) -> Result<(), Fault>
    ensures { HolderRepliedWith T.tools
        (holder_reply T.tools holder.old (another source.old (arguments_of args.old)) (arguments_of args.old) operation)
        holder.old source.old holder.new source.new (told reply.new result) }
{
    match operation {
        Operation::Holder(call) => holder_call_with(holder, source, alloc, call, args, reply),
        _ => {
            *reply = Reply::says(Said::Done);
            Ok(())
        }
    }
}

/// A call of a holder with another one as the source, which some calls don't look at.
fn holder_call_with<T: ScriptElement>(
    holder: &mut Holder<T>,
    source: &mut Holder<T>,
    alloc: Global,
    call: HolderCall,
    args: &mut Arguments,
    reply: &mut Reply,
) -> Result<(), Fault>
    ensures { let tools = own_tools T.tools T.size_of T.is_same in
        HolderRepliedWith tools
        (holder_alone_reply tools holder.old (another source.old (arguments_of args.old)) (arguments_of args.old) call)
        holder.old source.old holder.new source.new (told reply.new result) }
{
    match call {
        HolderCall::Assign => sources::assign(holder, source, reply),
        HolderCall::MoveFrom => sources::move_from(holder, source, reply),
        HolderCall::Swap => sources::swap(holder, source, reply),
        HolderCall::Equal => sources::equal(holder, source, reply),
        HolderCall::IsEmpty
        | HolderCall::Element
        | HolderCall::ReplaceElement
        | HolderCall::Clear
        | HolderCall::Print => holder_call(holder, alloc, call, args, reply),
    }
}
