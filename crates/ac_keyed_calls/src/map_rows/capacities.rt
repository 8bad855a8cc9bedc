//! The Capacity of hashed maps.
use super::MapRows;
use crate::map_kind::HashedMapKind;
use ac_base::Fault;
use ac_calls::{ScriptElement, WithCapacity};
use ac_setwork::Entry;

impl<K: ScriptElement, V: ScriptElement, M: HashedMapKind<K, V>> WithCapacity for MapRows<K, V, M> {
    type Row = Entry<K, V>;

    ghost rows = { λ m. m };

    fn capacity(&self) -> i64 {
        self.table.capacity()
    }

    fn reserve_capacity(&mut self, n: i64) -> Result<(), Fault> {
        self.table.reserve_capacity(n)
    }
}
