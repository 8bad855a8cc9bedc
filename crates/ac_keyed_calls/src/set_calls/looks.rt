//! The calls of sets that look for an element.
ghost use Rattle.std.specs.Prelude.{◌≡◌};
ghost use Rattle.ac_calls.specs.Replied.{told};
ghost use Rattle.ac_keyed_calls.specs.SetCalls.{OrderedSetReplied, SetReplied};

use super::likeness;
use ac_base::Fault;
use ac_calls::{Arguments, Reply, Said, ScriptElement};
use ac_setwork::{Keyed, Ordered, Table};
use ac_syntax::{OrderedSetCall, SetCall};
use std::alloc::Global;

pub fn find<I: Keyed>(
    set: &Table<I>,
    alloc: Global,
    args: &mut Arguments,
    reply: &mut Reply,
) -> Result<(), Fault>
where
    I::Row: ScriptElement,
    ensures { SetReplied I.Row.tools I.order SetCall.Find args.old set.now set.now (told reply.new result) }
{
    let element = I::Row::from_value(alloc, args.first.take_value())?;
    reply.tell(Said::Place(likeness::find(set, &element)));
    Ok(())
}

pub fn contains<I: Keyed>(
    set: &Table<I>,
    alloc: Global,
    args: &mut Arguments,
    reply: &mut Reply,
) -> Result<(), Fault>
where
    I::Row: ScriptElement,
    ensures { SetReplied I.Row.tools I.order SetCall.Contains args.old set.now set.now (told reply.new result) }
{
    let element = I::Row::from_value(alloc, args.first.take_value())?;
    reply.tell(Said::Truth(likeness::contains(set, &element)));
    Ok(())
}

pub fn floor<I: Keyed + Ordered>(
    set: &Table<I>,
    alloc: Global,
    args: &mut Arguments,
    reply: &mut Reply,
) -> Result<(), Fault>
where
    I::Row: ScriptElement,
    requires above { I.is_above ≡ (λ k v. I.keys.less k (I.key_of v)) }
    ensures { OrderedSetReplied I.Row.tools I.order OrderedSetCall.Floor args.old set.now set.now (told reply.new result) }
{
    let element = I::Row::from_value(alloc, args.first.take_value())?;
    reply.tell(Said::Place(likeness::floor(set, &element)));
    Ok(())
}

pub fn ceiling<I: Keyed + Ordered>(
    set: &Table<I>,
    alloc: Global,
    args: &mut Arguments,
    reply: &mut Reply,
) -> Result<(), Fault>
where
    I::Row: ScriptElement,
    requires below { I.is_below ≡ (λ k v. I.keys.less (I.key_of v) k) }
    ensures { OrderedSetReplied I.Row.tools I.order OrderedSetCall.Ceiling args.old set.now set.now (told reply.new result) }
{
    let element = I::Row::from_value(alloc, args.first.take_value())?;
    reply.tell(Said::Place(likeness::ceiling(set, &element)));
    Ok(())
}
