//! The two kinds of maps: which index keeps the entries of each, and that it keeps them as the calls of scripts mean it.
ghost use Rattle.std.specs.Prelude.{refl};
ghost use Rattle.std.proofs.Common.{sym};
ghost use Rattle.ac_calls.specs.KeyedReplies.{of_hashed, of_ordered};
ghost use Rattle.ac_model.specs.Keyed.{ascending, by_arrival};
ghost use Rattle.ac_model.specs.Maps.{has_key, order_of};

use ac_calls::ScriptElement;
use ac_hashed::Arrivals;
use ac_keyed_calls::{HashedMapKind, MapKind, OrderedMapKind};
use ac_ordered::Ascending;
use ac_setwork::OfEntries;

/// Hashed maps (A.18.5).
pub struct HashedMaps;

/// Ordered maps (A.18.6).
pub struct OrderedMaps;

impl<K: ScriptElement, V: ScriptElement> MapKind<K, V> for HashedMaps {
    type Index = Arrivals<OfEntries<K, V>>;

    ghost which = { of_hashed };

    ghost order_is = { λ i. order_of (by_arrival (sym K.alike_is i)) };

    ghost matches_is = { λ i. has_key (by_arrival (sym K.alike_is i)) };

    ghost with_element_is = { refl };

    ghost equal_is = { λ i e f. sym V.same_is i e.element f.element };

    ghost capacity_is = { refl };
}

impl<K: ScriptElement, V: ScriptElement> HashedMapKind<K, V> for HashedMaps {
    ghost is_hashed = { refl };
}

impl<K: ScriptElement, V: ScriptElement> MapKind<K, V> for OrderedMaps {
    type Index = Ascending<OfEntries<K, V>>;

    ghost which = { of_ordered };

    ghost order_is = { λ i. order_of (ascending (sym K.less_is i)) };

    ghost matches_is = { λ i. has_key (ascending (sym K.less_is i)) };

    ghost with_element_is = { refl };

    ghost equal_is = { λ i e f. sym V.same_is i e.element f.element };

    ghost capacity_is = { refl };
}

impl<K: ScriptElement, V: ScriptElement> OrderedMapKind<K, V> for OrderedMaps {
    ghost is_ordered = { refl };

    ghost above_is = { λ i key e. sym K.less_is i key e.key };

    ghost below_is = { λ i key e. sym K.less_is i e.key key };
}
