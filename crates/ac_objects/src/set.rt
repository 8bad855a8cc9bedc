//! Hashed and ordered sets of scripts, by the containers that keep their elements.
mod kinds;

pub use kinds::{HashedSets, OrderedSets};

/// A hashed set (A.18.8) or an ordered one (A.18.9) of a script.
pub type Set<T> = ac_keyed_calls::Set<T, HashedSets, OrderedSets>;

/// A set of texts with keys (Generic_Keys of A.18.8 and A.18.9).
pub type KeyedSet = ac_keyed_calls::KeyedSet<HashedSets, OrderedSets>;
