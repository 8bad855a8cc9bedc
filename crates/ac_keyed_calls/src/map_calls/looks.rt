//! The calls of maps that look at their entries.
ghost use Rattle.ac_calls.specs.Replied.{told};
ghost use Rattle.ac_keyed_calls.specs.MapCalls.{MapReplied};

use crate::map_kind::MapKind;
use crate::map_rows::MapRows;
use ac_base::Fault;
use ac_calls::{Arguments, Reply, Said, ScriptElement};
use ac_syntax::MapCall;
use std::alloc::Global;

pub fn key<K: ScriptElement, V: ScriptElement, M: MapKind<K, V>>(
    map: &MapRows<K, V, M>,
    alloc: Global,
    args: &Arguments,
    reply: &mut Reply,
) -> Result<(), Fault>
    ensures { MapReplied K.tools V.tools M.which MapCall.Key args.now map.now map.now (told reply.new result) }
{
    let key = map.key(args.first.cursor())?;
    reply.tell(Said::Value(key.to_value(alloc)?));
    Ok(())
}

pub fn element_key<K: ScriptElement, V: ScriptElement, M: MapKind<K, V>>(
    map: &MapRows<K, V, M>,
    alloc: Global,
    args: &mut Arguments,
    reply: &mut Reply,
) -> Result<(), Fault>
    ensures { MapReplied K.tools V.tools M.which MapCall.ElementKey args.old map.now map.now (told reply.new result) }
{
    let key = K::from_value(alloc, args.first.take_value())?;
    let element = map.element_key(&key)?;
    reply.tell(Said::Value(element.to_value(alloc)?));
    Ok(())
}

pub fn find<K: ScriptElement, V: ScriptElement, M: MapKind<K, V>>(
    map: &MapRows<K, V, M>,
    alloc: Global,
    args: &mut Arguments,
    reply: &mut Reply,
) -> Result<(), Fault>
    ensures { MapReplied K.tools V.tools M.which MapCall.Find args.old map.now map.now (told reply.new result) }
{
    let key = K::from_value(alloc, args.first.take_value())?;
    reply.tell(Said::Place(map.find(&key)));
    Ok(())
}

pub fn contains<K: ScriptElement, V: ScriptElement, M: MapKind<K, V>>(
    map: &MapRows<K, V, M>,
    alloc: Global,
    args: &mut Arguments,
    reply: &mut Reply,
) -> Result<(), Fault>
    ensures { MapReplied K.tools V.tools M.which MapCall.Contains args.old map.now map.now (told reply.new result) }
{
    let key = K::from_value(alloc, args.first.take_value())?;
    reply.tell(Said::Truth(map.contains(&key)));
    Ok(())
}
