//! The calls that all kinds of rows have, with the object itself as the source.
ghost use Rattle.std.specs.Prelude.{◌≡◌};
ghost use Rattle.ac_model.specs.Common as common;
ghost use Rattle.ac_model.specs.Objects.{plain};
ghost use Rattle.ac_calls.specs.Replies.{itself, changes_ok};
ghost use Rattle.ac_calls.specs.SequenceReplies.{common_reply};
ghost use Rattle.ac_calls.specs.Replied.{Replied, told};
ghost use Rattle.ac_calls.specs.RowCalls.{KindReplied};

use super::CommonRows;
use crate::argument::Arguments;
use crate::reply::{Reply, Said};
use ac_base::Fault;
use ac_model::allowed;
use ac_syntax::CommonCall;
use std::alloc::Global;

pub fn clear<C: CommonRows>(object: &mut C, reply: &mut Reply) -> Result<(), Fault>
    ensures replied { Replied (changes_ok (common.clear_call (plain (C.rows object.old).object)))
        (C.rows object.old) (C.rows object.new) (told reply.new result) }
    ensures kind { C.kind object.new ≡ C.kind object.old }
{
    object.clear()?;
    reply.tell(Said::Done);
    Ok(())
}

pub fn assign<C: CommonRows>(object: &mut C, reply: &mut Reply) -> Result<(), Fault>
    ensures replied { Replied (changes_ok (common.assign_self_call (plain (C.rows object.old).object)))
        (C.rows object.old) (C.rows object.new) (told reply.new result) }
    ensures kind { C.kind object.new ≡ C.kind object.old }
{
    object.assign_self()?;
    reply.tell(Said::Done);
    Ok(())
}

pub fn move_from<C: CommonRows>(object: &mut C, reply: &mut Reply) -> Result<(), Fault>
    ensures replied { Replied (changes_ok (common.move_from_self_call (plain (C.rows object.old).object)))
        (C.rows object.old) (C.rows object.new) (told reply.new result) }
    ensures kind { C.kind object.new ≡ C.kind object.old }
{
    object.move_from_self()?;
    reply.tell(Said::Done);
    Ok(())
}

pub fn has_element<C: CommonRows>(
    object: &C,
    args: &Arguments,
    reply: &mut Reply,
) -> Result<(), Fault>
    ensures { KindReplied (C.kind object.now) (λ o seen. common_reply o itself seen (C.own object.now o) CommonCall.HasElement) args.now
        (C.rows object.now) (C.rows object.now) (told reply.new result) }
{
    let is_there = object.has_element(args.first.cursor());
    reply.tell(Said::Truth(is_there));
    Ok(())
}

pub fn element<C: CommonRows>(
    object: &C,
    alloc: Global,
    args: &Arguments,
    reply: &mut Reply,
) -> Result<(), Fault>
    ensures { KindReplied (C.kind object.now) (λ o seen. common_reply o itself seen (C.own object.now o) CommonCall.Element) args.now
        (C.rows object.now) (C.rows object.now) (told reply.new result) }
{
    let c = args.first.cursor();
    allowed(object.refused(c))?;
    let element = object.element_value(alloc, c)?;
    reply.tell(Said::Value(element));
    Ok(())
}

pub fn replace_element<C: CommonRows>(
    object: &mut C,
    alloc: Global,
    args: &mut Arguments,
    reply: &mut Reply,
) -> Result<(), Fault>
    ensures replied { KindReplied (C.kind object.old)
        (λ o seen. common_reply o itself seen (C.own object.old o) CommonCall.ReplaceElement) args.old
        (C.rows object.old) (C.rows object.new) (told reply.new result) }
    ensures kind { C.kind object.new ≡ C.kind object.old }
{
    let c = args.first.cursor();
    object.replace_value(alloc, c, args.second.take_value())?;
    reply.tell(Said::Done);
    Ok(())
}
