//! Hashed and ordered maps as objects with rows.
ghost use Rattle.std.specs.Prelude.{refl};
ghost use Rattle.ac_syntax.specs.Canonical.{literal_text};
ghost use Rattle.ac_calls.specs.Holdings.{a_map};
ghost use Rattle.ac_calls.specs.PlainRows.{entry_form};
ghost use Rattle.ac_calls.specs.MapReplies.{map_own};
ghost use Rattle.ac_calls.specs.Listings.{entry_text};
ghost use Rattle.ac_keyed_calls.specs.Maps.{entries_of, map_kind_of};

use super::Map;
use crate::map_kind::{HashedMapKind, OrderedMapKind};
use crate::map_rows::MapRows;
use ac_base::{Fault, NoMemory, Reason, Value};
use ac_calls::{ListedRows, PlainRow, RowObject, ScriptElement};
use ac_cursor::Cursor;
use ac_io::{Sink, WriteFault};
use ac_setwork::{Entry, Ordered};
use std::alloc::Global;

impl<K, V, H, O> RowObject for Map<MapRows<K, V, H>, MapRows<K, V, O>>
where
    K: ScriptElement,
    V: ScriptElement,
    H: HashedMapKind<K, V>,
    O: OrderedMapKind<K, V>,
    O::Index: Ordered,
{
    type Row = Entry<K, V>;

    ghost rows = { entries_of };

    ghost kind = { λ m. a_map (map_kind_of m) K.elem V.elem };

    ghost own = { λ m o. map_own K.tools V.tools (map_kind_of m) o };

    fn law(&self) {
        match self {
            Map::Hashed(map) => map.law(),
            Map::Ordered(map) => map.law(),
        }
    }

    fn live_nodes(&self) -> u64 {
        match self {
            Map::Hashed(map) => map.live_nodes(),
            Map::Ordered(map) => map.live_nodes(),
        }
    }

    fn first(&self) -> Cursor {
        match self {
            Map::Hashed(map) => map.first(),
            Map::Ordered(map) => map.first(),
        }
    }

    fn last(&self) -> Cursor {
        match self {
            Map::Hashed(map) => map.last(),
            Map::Ordered(map) => map.last(),
        }
    }

    fn next(&self, c: Cursor) -> Result<Cursor, Fault> {
        match self {
            Map::Hashed(map) => map.next(c),
            Map::Ordered(map) => map.next(c),
        }
    }

    fn previous(&self, c: Cursor) -> Result<Cursor, Fault> {
        match self {
            Map::Hashed(map) => map.previous(c),
            Map::Ordered(map) => map.previous(c),
        }
    }

    fn refused(&self, c: Cursor) -> Option<Reason> {
        match self {
            Map::Hashed(map) => map.refused(c),
            Map::Ordered(map) => map.refused(c),
        }
    }

    fn element_value(&self, alloc: Global, c: Cursor) -> Result<Value, NoMemory> {
        match self {
            Map::Hashed(map) => map.element_value(alloc, c),
            Map::Ordered(map) => map.element_value(alloc, c),
        }
    }

    fn write_value(&mut self, alloc: Global, c: Cursor, value: Value) -> Result<(), Fault> {
        match self {
            Map::Hashed(map) => map.write_value(alloc, c, value),
            Map::Ordered(map) => map.write_value(alloc, c, value),
        }
    }

    fn is_like(&self, other: &Map<MapRows<K, V, H>, MapRows<K, V, O>>) -> bool {
        match self {
            Map::Hashed(_) => other.is_hashed(),
            Map::Ordered(_) => !other.is_hashed(),
        }
    }
}

impl<K, V, H, O> ListedRows for Map<MapRows<K, V, H>, MapRows<K, V, O>>
where
    K: ScriptElement,
    V: ScriptElement,
    H: HashedMapKind<K, V>,
    O: OrderedMapKind<K, V>,
    O::Index: Ordered,
{
    ghost row_text = { entry_text (λ k. literal_text (K.tools.to_value k)) (λ e. literal_text (V.tools.to_value e)) };

    ghost plain_of = { entry_form K.tools V.tools };

    ghost listing_is = { λ _ _. refl };

    fn add_row<W: Sink>(
        &self,
        c: Cursor,
        text: &mut Vec<u8>,
        sink: &mut W,
    ) -> Result<(), WriteFault> {
        match self {
            Map::Hashed(map) => map.add_row(c, text, sink),
            Map::Ordered(map) => map.add_row(c, text, sink),
        }
    }

    fn plain_row(&self, c: Cursor, alloc: Global) -> Result<PlainRow, NoMemory> {
        match self {
            Map::Hashed(map) => map.plain_row(c, alloc),
            Map::Ordered(map) => map.plain_row(c, alloc),
        }
    }
}
