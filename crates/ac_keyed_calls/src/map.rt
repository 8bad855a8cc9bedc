//! A hashed or an ordered map. A contract sees its entries and which of the two it is.
ghost use Rattle.std.specs.Prelude.{◌≡◌, false, true, refl};
ghost use Rattle.ac_model.specs.Containers.{guards_of};
ghost use Rattle.ac_model.specs.Keyed.{IsValidKeyed};
ghost use Rattle.ac_model.specs.Maps.{order_of};
ghost use Rattle.ac_model.specs.Objects.{plain};
ghost use Rattle.ac_calls.specs.KeyedReplies.{of_hashed, order_by};
ghost use Rattle.ac_keyed_calls.specs.Maps as maps;
ghost use Rattle.ac_keyed_calls.specs.Maps.{entries_of, map_kind_of};

mod operated_rows;
mod row_object;

use crate::map_kind::{HashedMapKind, MapKind, OrderedMapKind};
use crate::map_rows::MapRows;
use ac_calls::ScriptElement;
use ac_cursor::{GuardKey, GuardKind, Guarded};
use ac_setwork::Ordered;

/// A hashed map (A.18.5) or an ordered one (A.18.6) of a script, each as rows of its kind.
#[derive(Drop)]
pub enum Map<H, O> {
    Hashed(H),
    Ordered(O),
}

impl<H, O> Map<H, O> {
    fn is_hashed(&self) -> bool
        ensures yes { result ≡ true → map_kind_of self.now ≡ of_hashed }
        ensures no { result ≡ false → map_kind_of self.now ≡ of_hashed → ⊥ }
    {
        match self {
            Map::Hashed(_) => true,
            Map::Ordered(_) => false,
        }
    }
}

impl<K, V, H, O> Map<MapRows<K, V, H>, MapRows<K, V, O>>
where
    K: ScriptElement,
    V: ScriptElement,
    H: HashedMapKind<K, V>,
    O: OrderedMapKind<K, V>,
    O::Index: Ordered,
{
    /// What holds of the keys of every map, for proofs alone.
    pub fn keyed_law(&self)
        ensures { IsValidKeyed (order_of (order_by K.tools (map_kind_of self.now))) (plain (entries_of self.now).object) }
    {
        match self {
            Map::Hashed(map) => map.keyed_law(),
            Map::Ordered(map) => map.keyed_law(),
        }
    }
}

impl<K, V, H, O> Guarded for Map<MapRows<K, V, H>, MapRows<K, V, O>>
where
    K: ScriptElement,
    V: ScriptElement,
    H: MapKind<K, V>,
    O: MapKind<K, V>,
{
    ghost is_set = { λ _. false };

    ghost guards = { λ m. guards_of (entries_of m) };

    ghost with_guards = { maps.map_with };

    ghost guards_given = { maps.map_given };

    ghost guards_own = { maps.map_own };

    ghost rest_kept = { maps.map_rest };

    ghost set_kept = { λ _ _. refl };

    fn hold(&mut self, kind: GuardKind) -> GuardKey {
        match self {
            Map::Hashed(map) => map.hold(kind),
            Map::Ordered(map) => map.hold(kind),
        }
    }

    fn release(&mut self, key: GuardKey) {
        match self {
            Map::Hashed(map) => map.release(key),
            Map::Ordered(map) => map.release(key),
        }
    }

    fn held(&self, kind: GuardKind) -> u64 {
        match self {
            Map::Hashed(map) => map.held(kind),
            Map::Ordered(map) => map.held(kind),
        }
    }
}
