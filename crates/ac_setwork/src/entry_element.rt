//! A map's row as an element: equal where the keys and the elements are.
ghost use Rattle.std.specs.Prelude.{◌&&◌, false};
ghost use Rattle.ac_model.specs.Rows.{entry};
ghost use Rattle.ac_setwork.specs.EntryLaws.{entries_same};

use crate::entry::Entry;
use ac_base::{Elem, NoMemory};
use std::alloc::Global;

impl<K: Elem, V: Elem> Elem for Entry<K, V> {
    ghost is_same = { λ e f. K.is_same e.key f.key && V.is_same e.element f.element };

    ghost size_of = { λ e. V.size_of e.element };

    ghost blank_element = { entry K.blank_element V.blank_element };

    ghost is_unboxed = { false };

    ghost same_is_equality = { entries_same K.is_same V.is_same K.same_is_equality V.same_is_equality };

    fn same(&self, other: &Entry<K, V>) -> bool {
        self.key().same(other.key()) && self.element().same(other.element())
    }

    fn copy(&self, alloc: Global) -> Result<Entry<K, V>, NoMemory> {
        Entry::copy(self, alloc)
    }

    fn unboxed(&self) -> Option<Entry<K, V>> {
        None
    }

    /// That of the element.
    fn size(&self) -> u64 {
        self.element().size()
    }

    fn blank(alloc: Global) -> Result<Entry<K, V>, NoMemory> {
        let key = K::blank(alloc)?;
        let element = V::blank(alloc)?;
        Ok(Entry::new(key, element))
    }
}
