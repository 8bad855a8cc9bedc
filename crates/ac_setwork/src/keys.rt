//! What rows hold, and where their keys are.
ghost use Rattle.std.specs.Prelude.{◌≡◌, Bool, IfOk};

use crate::entry::Entry;
use ac_base::{Elem, KeyOf, NoMemory};
use std::alloc::Global;
use std::marker::PhantomData;

/// Rows of one type, each with its key.
pub trait Keys: Drop {
    type Row: Drop;

    type Key;

    ghost key_of: { Self.Row → Self.Key };

    /// Where the keys are equivalent, the rows are equal.
    ghost is_equal: { Self.Row → Self.Row → Bool };

    fn key(row: &Self::Row) -> &Self::Key
        ensures { result.now ≡ key_of row.now };

    fn copied(row: &Self::Row, alloc: Global) -> Result<Self::Row, NoMemory>
        ensures { IfOk result (λ made. made ≡ row.now) };

    fn equal(left: &Self::Row, right: &Self::Row) -> bool
        ensures { result ≡ is_equal left.now right.now };
}

/// A map's row is a key with its element. Rows with equivalent keys are equal where their elements are.
#[derive(Drop)]
pub struct OfEntries<K, V> {
    of: PhantomData<Entry<K, V>>,
}

impl<K: Elem, V: Elem> Keys for OfEntries<K, V> {
    type Row = Entry<K, V>;

    type Key = K;

    ghost key_of = { λ e. e.key };

    ghost is_equal = { λ e f. V.is_same e.element f.element };

    fn key(row: &Entry<K, V>) -> &K {
        row.key()
    }

    fn copied(row: &Entry<K, V>, alloc: Global) -> Result<Entry<K, V>, NoMemory> {
        row.copy(alloc)
    }

    fn equal(left: &Entry<K, V>, right: &Entry<K, V>) -> bool {
        left.element().same(right.element())
    }
}

/// A set's element has a key, which may be the element itself.
#[derive(Drop)]
pub struct OfKeyed<T> {
    of: PhantomData<T>,
}

impl<T: KeyOf> Keys for OfKeyed<T> {
    type Row = T;

    type Key = T::Key;

    ghost key_of = { T.key_of };

    ghost is_equal = { T.is_same };

    fn key(row: &T) -> &T::Key {
        row.key()
    }

    fn copied(row: &T, alloc: Global) -> Result<T, NoMemory> {
        row.copy(alloc)
    }

    fn equal(left: &T, right: &T) -> bool {
        left.same(right)
    }
}
