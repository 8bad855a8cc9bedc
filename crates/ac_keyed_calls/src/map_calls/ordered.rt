//! The calls of ordered maps alone.
ghost use Rattle.ac_calls.specs.Replies.{as_value, looks, value_answer};
ghost use Rattle.ac_calls.specs.Replied.{Replied, told};
ghost use Rattle.ac_keyed_calls.specs.MapCalls.{OrderedMapReplied};
ghost use Rattle.ac_model.specs.Maps as maps;
ghost use Rattle.ac_model.specs.Objects.{plain};

use crate::map_kind::OrderedMapKind;
use crate::map_rows::MapRows;
use ac_base::Fault;
use ac_calls::{Arguments, Reply, Said, ScriptElement};
use ac_setwork::Ordered;
use ac_syntax::OrderedMapCall;
use std::alloc::Global;

pub fn first_key<K: ScriptElement, V: ScriptElement, M: OrderedMapKind<K, V>>(
    map: &MapRows<K, V, M>,
    alloc: Global,
    reply: &mut Reply,
) -> Result<(), Fault>
where
    M::Index: Ordered,
    ensures { let o = plain map.now.object in
        Replied (looks o value_answer (as_value K.tools (maps.first_key_call o))) map.now map.now (told reply.new result) }
{
    let key = map.first_key()?;
    reply.tell(Said::Value(key.to_value(alloc)?));
    Ok(())
}

pub fn last_key<K: ScriptElement, V: ScriptElement, M: OrderedMapKind<K, V>>(
    map: &MapRows<K, V, M>,
    alloc: Global,
    reply: &mut Reply,
) -> Result<(), Fault>
where
    M::Index: Ordered,
    ensures { let o = plain map.now.object in
        Replied (looks o value_answer (as_value K.tools (maps.last_key_call o))) map.now map.now (told reply.new result) }
{
    let key = map.last_key()?;
    reply.tell(Said::Value(key.to_value(alloc)?));
    Ok(())
}

pub fn floor<K: ScriptElement, V: ScriptElement, M: OrderedMapKind<K, V>>(
    map: &MapRows<K, V, M>,
    alloc: Global,
    args: &mut Arguments,
    reply: &mut Reply,
) -> Result<(), Fault>
where
    M::Index: Ordered,
    ensures { OrderedMapReplied K.tools V.tools M.which OrderedMapCall.Floor args.old map.now map.now (told reply.new result) }
{
    let key = K::from_value(alloc, args.first.take_value())?;
    reply.tell(Said::Place(map.floor(&key)));
    Ok(())
}

pub fn ceiling<K: ScriptElement, V: ScriptElement, M: OrderedMapKind<K, V>>(
    map: &MapRows<K, V, M>,
    alloc: Global,
    args: &mut Arguments,
    reply: &mut Reply,
) -> Result<(), Fault>
where
    M::Index: Ordered,
    ensures { OrderedMapReplied K.tools V.tools M.which OrderedMapCall.Ceiling args.old map.now map.now (told reply.new result) }
{
    let key = K::from_value(alloc, args.first.take_value())?;
    reply.tell(Said::Place(map.ceiling(&key)));
    Ok(())
}
