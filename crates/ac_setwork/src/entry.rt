//! What a map's row holds.
ghost use Rattle.std.specs.Prelude.{◌≡◌, IfOk};
ghost use Rattle.ac_model.specs.Rows.{entry};

use ac_base::{Elem, NoMemory};
use std::alloc::Global;
use std::marker::Model;

/// A key with its element.
#[derive(Drop)]
pub struct Entry<K, V> {
    key: K,
    element: V,
}

impl<K, V> Model for Entry<K, V> {
    ghost use Rattle.ac_model.specs.Rows.{Entry, entry};
    ghost use Rattle.ac_setwork.specs.Entries.{entry_code};

    ghost Value = { Entry K V };

    ghost coded = { entry_code K.code V.code };

    ghost view = { λ e. entry e.key e.element };
}

impl<K, V> Entry<K, V> {
    pub fn new(key: K, element: V) -> Entry<K, V>
        ensures { result ≡ entry key element }
    {
        Entry { key, element }
    }

    pub fn key(&self) -> &K
        ensures { result.now ≡ self.now.key }
    {
        &self.key
    }

    pub fn element(&self) -> &V
        ensures { result.now ≡ self.now.element }
    {
        &self.element
    }
}

impl<K, V: Drop> Entry<K, V> {
    pub fn set_element(&mut self, element: V)
        ensures { self.new ≡ entry self.old.key element }
    {
        self.element = element;
    }
}

impl<K: Elem, V: Elem> Entry<K, V> {
    pub fn copy(&self, alloc: Global) -> Result<Entry<K, V>, NoMemory>
        ensures { IfOk result (λ made. made ≡ self.now) }
    {
        let key = self.key.copy(alloc)?;
        let element = self.element.copy(alloc)?;
        Ok(Entry { key, element })
    }
}
