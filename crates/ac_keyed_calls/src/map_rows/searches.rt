//! The calls of ordered maps alone.
ghost use Rattle.ac_model.specs.Calls.{Lends};
ghost use Rattle.ac_model.specs.Forms.{Looks};
ghost use Rattle.ac_model.specs.Maps as maps;
ghost use Rattle.ac_model.specs.Objects.{plain};
ghost use Rattle.ac_calls.specs.KeyedReplies.{order_by};
ghost use Rattle.ac_calls.specs.Replied.{IsAnswer};

use super::MapRows;
use crate::map_kind::OrderedMapKind;
use crate::uncounted;
use ac_base::Fault;
use ac_calls::ScriptElement;
use ac_cursor::Cursor;
use ac_setwork::Ordered;

impl<K: ScriptElement, V: ScriptElement, M: OrderedMapKind<K, V>> MapRows<K, V, M>
where
    M::Index: Ordered,
{
    /// First_Key (A.18.6).
    pub(crate) fn first_key(&self) -> Result<&K, Fault>
        ensures { Looks Lends maps.first_key_call self.now result }
    {
        match self.table.first_row() {
            Ok(row) => Ok(row.key()),
            Err(fault) => Err(fault),
        }
    }

    /// Last_Key (A.18.6).
    pub(crate) fn last_key(&self) -> Result<&K, Fault>
        ensures { Looks Lends maps.last_key_call self.now result }
    {
        match self.table.last_row() {
            Ok(row) => Ok(row.key()),
            Err(fault) => Err(fault),
        }
    }

    /// Floor (A.18.6): a cursor of the map's own.
    pub(crate) fn floor(&self, key: &K) -> Cursor
        ensures { IsAnswer self.now.object result (maps.floor_call (order_by K.tools M.which) (plain self.now.object) key.now) }
    {
        uncounted::floor(&self.table, key)
    }

    /// Ceiling (A.18.6): a cursor of the map's own.
    pub(crate) fn ceiling(&self, key: &K) -> Cursor
        ensures { IsAnswer self.now.object result (maps.ceiling_call (order_by K.tools M.which) (plain self.now.object) key.now) }
    {
        uncounted::ceiling(&self.table, key)
    }
}
