//! A map of a script, of any kind. A contract sees its object, and how many entries more it takes without memory.
ghost use Rattle.std.specs.Prelude.{◌≡◌, false, refl, IfOk, IsOk};
ghost use Rattle.ac_base.specs.Limits.{IsLimit};
ghost use Rattle.ac_model.specs.Containers.{container, first_spare, guards_of, with_guards};
ghost use Rattle.ac_model.specs.Keyed.{IsValidKeyed};
ghost use Rattle.ac_model.specs.Maps.{order_of};
ghost use Rattle.ac_model.specs.Objects.{empty_object, plain};
ghost use Rattle.ac_calls.specs.Holdings.{is_hashed};
ghost use Rattle.ac_calls.specs.KeyedReplies.{order_by};

mod capacities;
mod changes;
mod common_rows;
mod looks;
mod ordered_rows;
mod row_object;
mod searches;

use crate::map_kind::MapKind;
use ac_base::{Fault, Limit};
use ac_calls::ScriptElement;
use ac_cursor::{GuardKey, GuardKind, Guarded, Tag};
use ac_setwork::Table;
use std::alloc::Global;
use std::marker::Model;

/// A map (A.18.4) of a script.
#[derive(Drop)]
pub struct MapRows<K: ScriptElement, V: ScriptElement, M: MapKind<K, V>> {
    table: Table<M::Index>,
}

impl<K: ScriptElement, V: ScriptElement, M: MapKind<K, V>> Model for MapRows<K, V, M> {
    ghost use Rattle.ac_model.specs.Containers.{Container, container_code};
    ghost use Rattle.ac_model.specs.Rows.{Entry};
    ghost use Rattle.ac_setwork.specs.Entries.{entry_code};

    ghost Value = { Container (Entry K V) };

    ghost coded = { container_code (entry_code K.code V.code) };

    ghost view = { λ m. m.table };
}

impl<K: ScriptElement, V: ScriptElement, M: MapKind<K, V>> MapRows<K, V, M> {
    /// An empty map of this number. A bounded one takes all its memory here, and an unbounded one takes none.
    pub fn new(alloc: Global, tag: Tag, limit: Limit) -> Result<MapRows<K, V, M>, Fault>
        requires { IsLimit limit }
        ensures empty { IfOk result (λ made. made ≡ container (empty_object (is_hashed M.which) tag limit) (first_spare limit)) }
        ensures unbounded { limit ≡ Limit.Unbounded → IsOk result }
    {
        match Table::new(alloc, tag, limit) {
            Ok(table) => Ok(MapRows { table }),
            Err(fault) => Err(fault),
        }
    }

    /// What holds of the keys of every map, for proofs alone.
    pub fn keyed_law(&self)
        ensures { IsValidKeyed (order_of (order_by K.tools M.which)) (plain self.now.object) }
    {
        self.table.law();
    }

    pub fn limit(&self) -> Limit
        ensures { result ≡ self.now.object.limit }
    {
        self.table.limit()
    }
}

impl<K: ScriptElement, V: ScriptElement, M: MapKind<K, V>> Guarded for MapRows<K, V, M> {
    ghost is_set = { λ _. false };

    ghost guards = { guards_of };

    ghost with_guards = { with_guards };

    ghost guards_given = { λ _ _. refl };

    ghost guards_own = { λ _. refl };

    ghost rest_kept = { λ _ _ _. refl };

    ghost set_kept = { λ _ _. refl };

    fn hold(&mut self, kind: GuardKind) -> GuardKey {
        self.table.hold(kind)
    }

    fn release(&mut self, key: GuardKey) {
        self.table.release(key);
    }

    fn held(&self, kind: GuardKind) -> u64 {
        self.table.held(kind)
    }
}
