//! The calls by a key that look at elements. A cursor that is answered is the object's own.
ghost use Rattle.std.specs.Prelude.{◌≡◌};
ghost use Rattle.ac_model.specs.Calls.{Lends};
ghost use Rattle.ac_model.specs.Forms.{Looks};
ghost use Rattle.ac_model.specs.KeyedSets as by_key;
ghost use Rattle.ac_model.specs.Objects.{plain};
ghost use Rattle.ac_calls.specs.Replied.{IsAnswer, told};
ghost use Rattle.ac_keyed_calls.specs.KeyCalls.{KeyReplied};

use crate::uncounted;
use ac_base::{Fault, KeyedText, Text};
use ac_calls::{Arguments, Reply, Said, ScriptElement};
use ac_cursor::Cursor;
use ac_setwork::{Keyed, Ordered, Table};
use ac_syntax::KeyedCall;
use std::alloc::Global;

pub fn key<I: Keyed<Row = KeyedText, Key = Text>>(
    set: &Table<I>,
    alloc: Global,
    args: &Arguments,
    reply: &mut Reply,
) -> Result<(), Fault>
    ensures { KeyReplied I.key_of I.keys KeyedCall.Key args.now set.now set.now (told reply.new result) }
{
    let key = set.key(args.first.cursor())?;
    reply.tell(Said::Value(key.to_value(alloc)?));
    Ok(())
}

pub fn key_element<I: Keyed<Row = KeyedText, Key = Text>>(
    set: &Table<I>,
    alloc: Global,
    args: &mut Arguments,
    reply: &mut Reply,
) -> Result<(), Fault>
    ensures { KeyReplied I.key_of I.keys KeyedCall.KeyElement args.old set.now set.now (told reply.new result) }
{
    let key = Text::from_value(alloc, args.first.take_value())?;
    let element = element_by(set, &key)?;
    reply.tell(Said::Value(element.to_value(alloc)?));
    Ok(())
}

pub fn key_find<I: Keyed<Row = KeyedText, Key = Text>>(
    set: &Table<I>,
    alloc: Global,
    args: &mut Arguments,
    reply: &mut Reply,
) -> Result<(), Fault>
    ensures { KeyReplied I.key_of I.keys KeyedCall.KeyFind args.old set.now set.now (told reply.new result) }
{
    let key = Text::from_value(alloc, args.first.take_value())?;
    reply.tell(Said::Place(find_by(set, &key)));
    Ok(())
}

pub fn key_contains<I: Keyed<Row = KeyedText, Key = Text>>(
    set: &Table<I>,
    alloc: Global,
    args: &mut Arguments,
    reply: &mut Reply,
) -> Result<(), Fault>
    ensures { KeyReplied I.key_of I.keys KeyedCall.KeyContains args.old set.now set.now (told reply.new result) }
{
    let key = Text::from_value(alloc, args.first.take_value())?;
    reply.tell(Said::Truth(contains_by(set, &key)));
    Ok(())
}

pub fn key_floor<I: Keyed<Row = KeyedText, Key = Text> + Ordered>(
    set: &Table<I>,
    alloc: Global,
    args: &mut Arguments,
    reply: &mut Reply,
) -> Result<(), Fault>
    requires above { I.is_above ≡ (λ k v. I.keys.less k (I.key_of v)) }
    ensures { KeyReplied I.key_of I.keys KeyedCall.KeyFloor args.old set.now set.now (told reply.new result) }
{
    let key = Text::from_value(alloc, args.first.take_value())?;
    reply.tell(Said::Place(floor_by(set, &key)));
    Ok(())
}

pub fn key_ceiling<I: Keyed<Row = KeyedText, Key = Text> + Ordered>(
    set: &Table<I>,
    alloc: Global,
    args: &mut Arguments,
    reply: &mut Reply,
) -> Result<(), Fault>
    requires below { I.is_below ≡ (λ k v. I.keys.less (I.key_of v) k) }
    ensures { KeyReplied I.key_of I.keys KeyedCall.KeyCeiling args.old set.now set.now (told reply.new result) }
{
    let key = Text::from_value(alloc, args.first.take_value())?;
    reply.tell(Said::Place(ceiling_by(set, &key)));
    Ok(())
}

fn element_by<'a, I: Keyed>(set: &'a Table<I>, key: &I::Key) -> Result<&'a I::Row, Fault>
    ensures { Looks Lends (λ o. by_key.key_element_call I.key_of I.keys o key.now) set.now result }
{
    set.row_by(key)
}

fn find_by<I: Keyed>(set: &Table<I>, key: &I::Key) -> Cursor
    ensures { IsAnswer set.now.object result (by_key.key_find_call I.key_of I.keys (plain set.now.object) key.now) }
{
    set.find(key)
}

fn contains_by<I: Keyed>(set: &Table<I>, key: &I::Key) -> bool
    ensures { result ≡ by_key.key_contains_call I.key_of I.keys (plain set.now.object) key.now }
{
    set.contains(key)
}

fn floor_by<I: Keyed + Ordered>(set: &Table<I>, key: &I::Key) -> Cursor
    requires above { I.is_above ≡ (λ k v. I.keys.less k (I.key_of v)) }
    ensures { IsAnswer set.now.object result (by_key.key_floor_call I.key_of I.keys (plain set.now.object) key.now) }
{
    uncounted::floor(set, key)
}

fn ceiling_by<I: Keyed + Ordered>(set: &Table<I>, key: &I::Key) -> Cursor
    requires below { I.is_below ≡ (λ k v. I.keys.less (I.key_of v) k) }
    ensures { IsAnswer set.now.object result (by_key.key_ceiling_call I.key_of I.keys (plain set.now.object) key.now) }
{
    uncounted::ceiling(set, key)
}
