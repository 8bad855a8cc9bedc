//! Operations on maps as objects with rows.
ghost use Rattle.ac_calls.specs.MapReplies.{map_reply};
ghost use Rattle.ac_keyed_calls.specs.Maps.{map_kind_of};

use super::Map;
use crate::map_kind::{HashedMapKind, OrderedMapKind};
use crate::map_operations::{
    operate_hashed_map, operate_hashed_map_with, operate_ordered_map, operate_ordered_map_with,
};
use crate::map_rows::MapRows;
use ac_base::Fault;
use ac_calls::{Arguments, OperatedRows, Reply, ScriptElement};
use ac_setwork::Ordered;
use ac_syntax::Operation;
use std::alloc::Global;

impl<K, V, H, O> OperatedRows for Map<MapRows<K, V, H>, MapRows<K, V, O>>
where
    K: ScriptElement,
    V: ScriptElement,
    H: HashedMapKind<K, V>,
    O: OrderedMapKind<K, V>,
    O::Index: Ordered,
{
    ghost comes_to = { λ m o source args operation. map_reply K.tools V.tools o source args (map_kind_of m) operation };

    fn operate(
        &mut self,
        alloc: Global,
        operation: Operation,
        args: &mut Arguments,
        reply: &mut Reply,
    ) -> Result<(), Fault> {
        match self {
            Map::Hashed(map) => operate_hashed_map(map, alloc, operation, args, reply),
            Map::Ordered(map) => operate_ordered_map(map, alloc, operation, args, reply),
        }
    }

    fn operate_with(
        &mut self,
        source: &mut Map<MapRows<K, V, H>, MapRows<K, V, O>>,
        alloc: Global,
        operation: Operation,
        args: &mut Arguments,
        reply: &mut Reply,
    ) -> Result<(), Fault> {
        match self {
            Map::Hashed(map) => match source {
                Map::Hashed(other) => {
                    operate_hashed_map_with(map, other, alloc, operation, args, reply)
                }
                Map::Ordered(_) => unreachable!(),
            },
            Map::Ordered(map) => match source {
                Map::Hashed(_) => unreachable!(),
                Map::Ordered(other) => {
                    operate_ordered_map_with(map, other, alloc, operation, args, reply)
                }
            },
        }
    }
}
