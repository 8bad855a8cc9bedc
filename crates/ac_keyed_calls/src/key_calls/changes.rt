//! The calls by a key that take an element out, or put another in its place.
ghost use Rattle.std.specs.Prelude.{◌≡◌};
ghost use Rattle.ac_model.specs.Calls.{Same};
ghost use Rattle.ac_model.specs.Containers.{slots_of};
ghost use Rattle.ac_model.specs.Forms.{Does};
ghost use Rattle.ac_model.specs.KeyedSets as by_key;
ghost use Rattle.ac_calls.specs.Replied.{told};
ghost use Rattle.ac_keyed_calls.specs.KeyCalls.{KeyReplied};

use ac_base::{Fault, KeyedText, Text};
use ac_calls::{Arguments, Reply, Said, ScriptElement};
use ac_setwork::{Keyed, Table};
use ac_syntax::KeyedCall;
use std::alloc::Global;

pub fn key_exclude<I: Keyed<Row = KeyedText, Key = Text>>(
    set: &mut Table<I>,
    alloc: Global,
    args: &mut Arguments,
    reply: &mut Reply,
) -> Result<(), Fault>
    ensures { KeyReplied I.key_of I.keys KeyedCall.KeyExclude args.old set.old set.new (told reply.new result) }
{
    let key = Text::from_value(alloc, args.first.take_value())?;
    exclude_by(set, &key)?;
    reply.tell(Said::Done);
    Ok(())
}

pub fn key_delete<I: Keyed<Row = KeyedText, Key = Text>>(
    set: &mut Table<I>,
    alloc: Global,
    args: &mut Arguments,
    reply: &mut Reply,
) -> Result<(), Fault>
    ensures { KeyReplied I.key_of I.keys KeyedCall.KeyDelete args.old set.old set.new (told reply.new result) }
{
    let key = Text::from_value(alloc, args.first.take_value())?;
    delete_by(set, &key)?;
    reply.tell(Said::Done);
    Ok(())
}

pub fn key_replace<I: Keyed<Row = KeyedText, Key = Text>>(
    set: &mut Table<I>,
    alloc: Global,
    args: &mut Arguments,
    reply: &mut Reply,
) -> Result<(), Fault>
    ensures { KeyReplied I.key_of I.keys KeyedCall.KeyReplace args.old set.old set.new (told reply.new result) }
{
    let key = Text::from_value(alloc, args.first.take_value())?;
    let element = KeyedText::from_value(alloc, args.second.take_value())?;
    set.replace_by(&key, element)?;
    reply.tell(Said::Done);
    Ok(())
}

fn exclude_by<I: Keyed>(set: &mut Table<I>, key: &I::Key) -> Result<(), Fault>
    ensures changed { Does Same (λ o. by_key.key_exclude_call I.key_of I.keys o key.now) set.old set.new result }
    ensures slots { slots_of set.new ≡ slots_of set.old }
{
    set.exclude(key)
}

fn delete_by<I: Keyed>(set: &mut Table<I>, key: &I::Key) -> Result<(), Fault>
    ensures changed { Does Same (λ o. by_key.key_delete_call I.key_of I.keys o key.now) set.old set.new result }
    ensures slots { slots_of set.new ≡ slots_of set.old }
{
    set.delete_key(key)
}
