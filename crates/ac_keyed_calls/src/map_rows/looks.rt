//! The calls of maps that look at their entries.
ghost use Rattle.std.specs.Prelude.{◌≡◌};
ghost use Rattle.ac_model.specs.Calls.{Lends};
ghost use Rattle.ac_model.specs.Forms.{Looks, seen_by};
ghost use Rattle.ac_model.specs.Maps as maps;
ghost use Rattle.ac_model.specs.Objects.{plain};
ghost use Rattle.ac_calls.specs.KeyedReplies.{order_by};
ghost use Rattle.ac_calls.specs.Replied.{IsAnswer};

use super::MapRows;
use crate::map_kind::MapKind;
use ac_base::Fault;
use ac_calls::ScriptElement;
use ac_cursor::Cursor;

impl<K: ScriptElement, V: ScriptElement, M: MapKind<K, V>> MapRows<K, V, M> {
    /// Key (A.18.4).
    pub(crate) fn key(&self, c: Cursor) -> Result<&K, Fault>
        ensures { Looks Lends (λ o. maps.key_call o (seen_by self.now c)) self.now result }
    {
        match self.table.row(c) {
            Ok(row) => Ok(row.key()),
            Err(fault) => Err(fault),
        }
    }

    /// Element (A.18.4).
    pub(crate) fn element(&self, c: Cursor) -> Result<&V, Fault>
        ensures { Looks Lends (λ o. maps.element_call o (seen_by self.now c)) self.now result }
    {
        match self.table.row(c) {
            Ok(row) => Ok(row.element()),
            Err(fault) => Err(fault),
        }
    }

    /// Element by a key (A.18.4).
    pub(crate) fn element_key(&self, key: &K) -> Result<&V, Fault>
        ensures { Looks Lends (λ o. maps.element_key_call (order_by K.tools M.which) o key.now) self.now result }
    {
        match self.table.row_by(key) {
            Ok(row) => Ok(row.element()),
            Err(fault) => Err(fault),
        }
    }

    /// Find (A.18.4): a cursor of the map's own.
    pub(crate) fn find(&self, key: &K) -> Cursor
        ensures { IsAnswer self.now.object result (maps.find_call (order_by K.tools M.which) (plain self.now.object) key.now) }
    {
        self.table.find(key)
    }

    /// Contains (A.18.4).
    pub(crate) fn contains(&self, key: &K) -> bool
        ensures { result ≡ maps.contains_call (order_by K.tools M.which) (plain self.now.object) key.now }
    {
        self.table.contains(key)
    }
}
