//! Operations on maps: each goes to the calls that mean it.
ghost use Rattle.std.specs.Prelude.{◌≡◌};
ghost use Rattle.ac_syntax.specs.declared.operation.CommonCall.{CommonCall as CommonCalls};
ghost use Rattle.ac_calls.specs.Replied.{told};
ghost use Rattle.ac_keyed_calls.specs.MapCalls.{MapOperatedAlone, MapOperated, MapOperatedWith};

use crate::map_calls::{map_call, ordered_map_call};
use crate::map_kind::{HashedMapKind, OrderedMapKind};
use crate::map_rows::MapRows;
use crate::ordered_calls::ordered_call;
use crate::walk_calls::walk_call;
use ac_base::Fault;
use ac_calls::{
    Arguments, Reply, Said, ScriptElement, capacity_call, common_call, common_call_with,
};
use ac_setwork::Ordered;
use ac_syntax::Operation;
use std::alloc::Global;

/// Makes a call on a hashed map that is its own source, where the call has one.
pub fn operate_hashed_map<K: ScriptElement, V: ScriptElement, M: HashedMapKind<K, V>>(
    map: &mut MapRows<K, V, M>,
    alloc: Global,
    operation: Operation,
    args: &mut Arguments,
    reply: &mut Reply,
) -> Result<(), Fault>
    ensures { MapOperated K.tools V.tools M.which operation args.old map.old map.new (told reply.new result) }
{
    match operation {
        Operation::Common(call) => common_call(map, alloc, call, args, reply),
        _ => operate_hashed_alone(map, alloc, operation, args, reply),
    }
}

/// Makes a call on a hashed map with another one of its kind as the source.
pub fn operate_hashed_map_with<K: ScriptElement, V: ScriptElement, M: HashedMapKind<K, V>>(
    map: &mut MapRows<K, V, M>,
    source: &mut MapRows<K, V, M>,
    alloc: Global,
    operation: Operation,
    args: &mut Arguments,
    reply: &mut Reply,
) -> Result<(), Fault>
    ensures { MapOperatedWith K.tools V.tools M.which operation args.old map.old source.old map.new source.new (told reply.new result) }
{
    match operation {
        Operation::Common(call) => common_call_with(map, source, alloc, call, args, reply),
        _ => operate_hashed_alone(map, alloc, operation, args, reply),
    }
}

/// An operation on a hashed map that has no source.
fn operate_hashed_alone<K: ScriptElement, V: ScriptElement, M: HashedMapKind<K, V>>(
    map: &mut MapRows<K, V, M>,
    alloc: Global,
    operation: Operation,
    args: &mut Arguments,
    reply: &mut Reply,
) -> Result<(), Fault>
    requires { (call : CommonCalls) → operation ≡ Operation.Common call → ⊥ }
    ensures { MapOperatedAlone K.tools V.tools M.which operation args.old map.old map.new (told reply.new result) }
{
    match operation {
        Operation::Walk(call) => walk_call(map, call, args, reply),
        Operation::Map(call) => map_call(map, alloc, call, args, reply),
        Operation::Capacity(call) => capacity_call(map, call, args, reply),
        _ => {
            *reply = Reply::says(Said::Done);
            Ok(())
        }
    }
}

/// Makes a call on an ordered map that is its own source, where the call has one.
pub fn operate_ordered_map<K: ScriptElement, V: ScriptElement, M: OrderedMapKind<K, V>>(
    map: &mut MapRows<K, V, M>,
    alloc: Global,
    operation: Operation,
    args: &mut Arguments,
    reply: &mut Reply,
) -> Result<(), Fault>
where
    M::Index: Ordered,
    ensures { MapOperated K.tools V.tools M.which operation args.old map.old map.new (told reply.new result) }
{
    match operation {
        Operation::Common(call) => common_call(map, alloc, call, args, reply),
        _ => operate_ordered_alone(map, alloc, operation, args, reply),
    }
}

/// Makes a call on an ordered map with another one of its kind as the source.
pub fn operate_ordered_map_with<K: ScriptElement, V: ScriptElement, M: OrderedMapKind<K, V>>(
    map: &mut MapRows<K, V, M>,
    source: &mut MapRows<K, V, M>,
    alloc: Global,
    operation: Operation,
    args: &mut Arguments,
    reply: &mut Reply,
) -> Result<(), Fault>
where
    M::Index: Ordered,
    ensures { MapOperatedWith K.tools V.tools M.which operation args.old map.old source.old map.new source.new (told reply.new result) }
{
    match operation {
        Operation::Common(call) => common_call_with(map, source, alloc, call, args, reply),
        _ => operate_ordered_alone(map, alloc, operation, args, reply),
    }
}

/// An operation on an ordered map that has no source.
fn operate_ordered_alone<K: ScriptElement, V: ScriptElement, M: OrderedMapKind<K, V>>(
    map: &mut MapRows<K, V, M>,
    alloc: Global,
    operation: Operation,
    args: &mut Arguments,
    reply: &mut Reply,
) -> Result<(), Fault>
where
    M::Index: Ordered,
    requires { (call : CommonCalls) → operation ≡ Operation.Common call → ⊥ }
    ensures { MapOperatedAlone K.tools V.tools M.which operation args.old map.old map.new (told reply.new result) }
{
    match operation {
        Operation::Walk(call) => walk_call(map, call, args, reply),
        Operation::Map(call) => map_call(map, alloc, call, args, reply),
        Operation::Ordered(call) => ordered_call(map, alloc, call, args, reply),
        Operation::OrderedMap(call) => ordered_map_call(map, alloc, call, args, reply),
        _ => {
            *reply = Reply::says(Said::Done);
            Ok(())
        }
    }
}
