//! The calls of maps that delete an entry by its key.
ghost use Rattle.ac_calls.specs.Replied.{told};
ghost use Rattle.ac_keyed_calls.specs.MapCalls.{MapReplied};

use crate::map_kind::MapKind;
use crate::map_rows::MapRows;
use ac_base::Fault;
use ac_calls::{Arguments, Reply, Said, ScriptElement};
use ac_syntax::MapCall;
use std::alloc::Global;

pub fn exclude<K: ScriptElement, V: ScriptElement, M: MapKind<K, V>>(
    map: &mut MapRows<K, V, M>,
    alloc: Global,
    args: &mut Arguments,
    reply: &mut Reply,
) -> Result<(), Fault>
    ensures { MapReplied K.tools V.tools M.which MapCall.Exclude args.old map.old map.new (told reply.new result) }
{
    let key = K::from_value(alloc, args.first.take_value())?;
    map.exclude(&key)?;
    reply.tell(Said::Done);
    Ok(())
}

pub fn delete_key<K: ScriptElement, V: ScriptElement, M: MapKind<K, V>>(
    map: &mut MapRows<K, V, M>,
    alloc: Global,
    args: &mut Arguments,
    reply: &mut Reply,
) -> Result<(), Fault>
    ensures { MapReplied K.tools V.tools M.which MapCall.DeleteKey args.old map.old map.new (told reply.new result) }
{
    let key = K::from_value(alloc, args.first.take_value())?;
    map.delete_key(&key)?;
    reply.tell(Said::Done);
    Ok(())
}
