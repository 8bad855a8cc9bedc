//! The calls of maps, sets and keyed sets in scripts, over any index of their rows.
#![tactic(auto)]

mod capacity_calls;
mod entry_listing;
mod key_calls;
mod keyed_set;
mod map;
mod map_calls;
mod map_kind;
mod map_operations;
mod map_rows;
mod ordered_calls;
mod set;
mod set_calls;
mod set_kind;
mod set_operations;
mod set_pair_calls;
mod set_rows;
mod uncounted;
mod walk_calls;

pub use key_calls::{hashed_key_call, ordered_key_call};
pub use keyed_set::KeyedSet;
pub use map::Map;
pub use map_kind::{HashedMapKind, MapKind, OrderedMapKind};
pub use map_operations::{
    operate_hashed_map, operate_hashed_map_with, operate_ordered_map, operate_ordered_map_with,
};
pub use map_rows::MapRows;
pub use ordered_calls::{OrderedRows, ordered_call};
pub use set::Set;
pub use set_kind::{HashedSetKind, KeyedSetKind, OrderedSetKind, SetKind};
pub use set_operations::{
    operate_hashed, operate_hashed_with, operate_ordered, operate_ordered_with,
};
pub use set_rows::SetRows;
pub use walk_calls::{KeyedRows, walk_call};
