//! The calls of maps that put entries into them.
ghost use Rattle.ac_calls.specs.Replied.{told};
ghost use Rattle.ac_keyed_calls.specs.MapCalls.{MapReplied};

use crate::map_kind::MapKind;
use crate::map_rows::MapRows;
use ac_base::Fault;
use ac_calls::{Arguments, Placed, Reply, Said, ScriptElement};
use ac_cursor::Cursor;
use ac_syntax::MapCall;
use std::alloc::Global;

pub fn insert<K: ScriptElement, V: ScriptElement, M: MapKind<K, V>>(
    map: &mut MapRows<K, V, M>,
    alloc: Global,
    args: &mut Arguments,
    reply: &mut Reply,
) -> Result<(), Fault>
    ensures { MapReplied K.tools V.tools M.which MapCall.Insert args.old map.old map.new (told reply.new result) }
{
    let key = K::from_value(alloc, args.first.take_value())?;
    let element = V::from_value(alloc, args.second.take_value())?;
    map.insert(key, element)?;
    reply.tell(Said::Done);
    Ok(())
}

pub fn insert_pos<K: ScriptElement, V: ScriptElement, M: MapKind<K, V>>(
    map: &mut MapRows<K, V, M>,
    alloc: Global,
    args: &mut Arguments,
    reply: &mut Reply,
) -> Result<(), Fault>
    ensures { MapReplied K.tools V.tools M.which MapCall.InsertPos args.old map.old map.new (told reply.new result) }
{
    let key = K::from_value(alloc, args.first.take_value())?;
    let element = V::from_value(alloc, args.second.take_value())?;
    let mut position = Cursor::NoElement;
    let is_inserted = map.insert_pos(key, element, &mut position)?;
    *reply = Reply {
        said: Said::Truth(is_inserted),
        variable: Some(Placed {
            place: 2,
            cursor: position,
        }),
    };
    Ok(())
}

pub fn include<K: ScriptElement, V: ScriptElement, M: MapKind<K, V>>(
    map: &mut MapRows<K, V, M>,
    alloc: Global,
    args: &mut Arguments,
    reply: &mut Reply,
) -> Result<(), Fault>
    ensures { MapReplied K.tools V.tools M.which MapCall.Include args.old map.old map.new (told reply.new result) }
{
    let key = K::from_value(alloc, args.first.take_value())?;
    let element = V::from_value(alloc, args.second.take_value())?;
    map.include(key, element)?;
    reply.tell(Said::Done);
    Ok(())
}

pub fn replace<K: ScriptElement, V: ScriptElement, M: MapKind<K, V>>(
    map: &mut MapRows<K, V, M>,
    alloc: Global,
    args: &mut Arguments,
    reply: &mut Reply,
) -> Result<(), Fault>
    ensures { MapReplied K.tools V.tools M.which MapCall.Replace args.old map.old map.new (told reply.new result) }
{
    let key = K::from_value(alloc, args.first.take_value())?;
    let element = V::from_value(alloc, args.second.take_value())?;
    map.replace(key, element)?;
    reply.tell(Said::Done);
    Ok(())
}
