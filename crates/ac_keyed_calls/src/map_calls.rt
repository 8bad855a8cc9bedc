//! The calls of maps alone.
ghost use Rattle.ac_calls.specs.Replied.{told};
ghost use Rattle.ac_keyed_calls.specs.MapCalls.{MapReplied, OrderedMapReplied};

mod deletions;
mod looks;
mod ordered;
mod puts;

use crate::map_kind::{MapKind, OrderedMapKind};
use crate::map_rows::MapRows;
use ac_base::Fault;
use ac_calls::{Arguments, Reply, ScriptElement};
use ac_setwork::Ordered;
use ac_syntax::{MapCall, OrderedMapCall};
use std::alloc::Global;

/// A call of maps.
pub fn map_call<K: ScriptElement, V: ScriptElement, M: MapKind<K, V>>(
    map: &mut MapRows<K, V, M>,
    alloc: Global,
    call: MapCall,
    args: &mut Arguments,
    reply: &mut Reply,
) -> Result<(), Fault>
    ensures { MapReplied K.tools V.tools M.which call args.old map.old map.new (told reply.new result) }
{
    match call {
        MapCall::Key => looks::key(map, alloc, args, reply),
        MapCall::ElementKey => looks::element_key(map, alloc, args, reply),
        MapCall::Insert => puts::insert(map, alloc, args, reply),
        MapCall::InsertPos => puts::insert_pos(map, alloc, args, reply),
        MapCall::Include => puts::include(map, alloc, args, reply),
        MapCall::Replace => puts::replace(map, alloc, args, reply),
        MapCall::Exclude => deletions::exclude(map, alloc, args, reply),
        MapCall::DeleteKey => deletions::delete_key(map, alloc, args, reply),
        MapCall::Find => looks::find(map, alloc, args, reply),
        MapCall::Contains => looks::contains(map, alloc, args, reply),
    }
}

/// A call of ordered maps.
pub fn ordered_map_call<K: ScriptElement, V: ScriptElement, M: OrderedMapKind<K, V>>(
    map: &MapRows<K, V, M>,
    alloc: Global,
    call: OrderedMapCall,
    args: &mut Arguments,
    reply: &mut Reply,
) -> Result<(), Fault>
where
    M::Index: Ordered,
    ensures { OrderedMapReplied K.tools V.tools M.which call args.old map.now map.now (told reply.new result) }
{
    match call {
        OrderedMapCall::FirstKey => ordered::first_key(map, alloc, reply),
        OrderedMapCall::LastKey => ordered::last_key(map, alloc, reply),
        OrderedMapCall::Floor => ordered::floor(map, alloc, args, reply),
        OrderedMapCall::Ceiling => ordered::ceiling(map, alloc, args, reply),
    }
}
