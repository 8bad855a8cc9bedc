//! Hashed and ordered maps of scripts, by the containers that keep their entries.
mod kinds;

use ac_keyed_calls::MapRows;
pub use kinds::{HashedMaps, OrderedMaps};

/// A hashed map (A.18.5) or an ordered one (A.18.6) of a script.
pub type Map<K, V> = ac_keyed_calls::Map<MapRows<K, V, HashedMaps>, MapRows<K, V, OrderedMaps>>;
