//! The calls of sets that put elements into them and take them out.
ghost use Rattle.ac_calls.specs.Replied.{told};
ghost use Rattle.ac_keyed_calls.specs.SetCalls.{SetReplied};

use super::likeness;
use ac_base::Fault;
use ac_calls::{Arguments, Placed, Reply, Said, ScriptElement};
use ac_cursor::{Class, Cursor};
use ac_setwork::{Keyed, Table};
use ac_syntax::SetCall;
use std::alloc::Global;

pub fn insert<I: Keyed>(
    set: &mut Table<I>,
    alloc: Global,
    args: &mut Arguments,
    reply: &mut Reply,
) -> Result<(), Fault>
where
    I::Row: ScriptElement,
    ensures { SetReplied I.Row.tools I.order SetCall.Insert args.old set.old set.new (told reply.new result) }
{
    let element = I::Row::from_value(alloc, args.first.take_value())?;
    set.insert(element)?;
    reply.tell(Said::Done);
    Ok(())
}

pub fn insert_pos<I: Keyed>(
    set: &mut Table<I>,
    alloc: Global,
    args: &mut Arguments,
    reply: &mut Reply,
) -> Result<(), Fault>
where
    I::Row: ScriptElement,
    ensures { SetReplied I.Row.tools I.order SetCall.InsertPos args.old set.old set.new (told reply.new result) }
{
    let element = I::Row::from_value(alloc, args.first.take_value())?;
    let mut cursor = Cursor::NoElement;
    let inserted = likeness::insert_pos(set, element, &mut cursor)?;
    *reply = Reply {
        said: Said::Truth(inserted),
        variable: Some(Placed { place: 1, cursor }),
    };
    Ok(())
}

pub fn include<I: Keyed>(
    set: &mut Table<I>,
    alloc: Global,
    args: &mut Arguments,
    reply: &mut Reply,
) -> Result<(), Fault>
where
    I::Row: ScriptElement,
    ensures { SetReplied I.Row.tools I.order SetCall.Include args.old set.old set.new (told reply.new result) }
{
    let element = I::Row::from_value(alloc, args.first.take_value())?;
    set.include(element)?;
    reply.tell(Said::Done);
    Ok(())
}

pub fn replace<I: Keyed>(
    set: &mut Table<I>,
    alloc: Global,
    args: &mut Arguments,
    reply: &mut Reply,
) -> Result<(), Fault>
where
    I::Row: ScriptElement,
    ensures { SetReplied I.Row.tools I.order SetCall.Replace args.old set.old set.new (told reply.new result) }
{
    let element = I::Row::from_value(alloc, args.first.take_value())?;
    set.replace(Class::Cursors, element)?;
    reply.tell(Said::Done);
    Ok(())
}

pub fn exclude<I: Keyed>(
    set: &mut Table<I>,
    alloc: Global,
    args: &mut Arguments,
    reply: &mut Reply,
) -> Result<(), Fault>
where
    I::Row: ScriptElement,
    ensures { SetReplied I.Row.tools I.order SetCall.Exclude args.old set.old set.new (told reply.new result) }
{
    let element = I::Row::from_value(alloc, args.first.take_value())?;
    likeness::exclude(set, &element)?;
    reply.tell(Said::Done);
    Ok(())
}

pub fn delete_item<I: Keyed>(
    set: &mut Table<I>,
    alloc: Global,
    args: &mut Arguments,
    reply: &mut Reply,
) -> Result<(), Fault>
where
    I::Row: ScriptElement,
    ensures { SetReplied I.Row.tools I.order SetCall.DeleteItem args.old set.old set.new (told reply.new result) }
{
    let element = I::Row::from_value(alloc, args.first.take_value())?;
    likeness::delete_item(set, &element)?;
    reply.tell(Said::Done);
    Ok(())
}
