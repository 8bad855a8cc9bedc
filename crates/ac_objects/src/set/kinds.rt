//! The two kinds of sets: which index keeps the elements of each, and that it keeps them as the calls of scripts mean it.
ghost use Rattle.std.specs.Prelude.{refl};
ghost use Rattle.std.proofs.Common.{sym};
ghost use Rattle.ac_calls.specs.KeyedReplies.{of_hashed, of_ordered};
ghost use Rattle.ac_model.specs.Keyed.{ascending, by_arrival};

use ac_calls::ScriptElement;
use ac_hashed::Arrivals;
use ac_keyed_calls::{HashedSetKind, KeyedSetKind, OrderedSetKind, SetKind};
use ac_ordered::Ascending;
use ac_setwork::OfKeyed;

/// Hashed sets (A.18.8).
pub struct HashedSets;

/// Ordered sets (A.18.9).
pub struct OrderedSets;

impl<T: ScriptElement> SetKind<T> for HashedSets {
    type Index = Arrivals<OfKeyed<T>>;

    ghost which = { of_hashed };

    ghost order_is = { λ i. by_arrival (sym T.alike_is i) };

    ghost capacity_is = { refl };
}

impl<T: ScriptElement> HashedSetKind<T> for HashedSets {
    ghost is_hashed = { refl };
}

impl KeyedSetKind for HashedSets {
    ghost key_of_is = { refl };

    ghost keys_is = { refl };
}

impl<T: ScriptElement> SetKind<T> for OrderedSets {
    type Index = Ascending<OfKeyed<T>>;

    ghost which = { of_ordered };

    ghost order_is = { λ i. ascending (sym T.less_is i) };

    ghost capacity_is = { refl };
}

impl<T: ScriptElement> OrderedSetKind<T> for OrderedSets {
    ghost is_ordered = { refl };

    ghost below_is = { refl };

    ghost above_is = { refl };
}

impl KeyedSetKind for OrderedSets {
    ghost key_of_is = { refl };

    ghost keys_is = { refl };
}
