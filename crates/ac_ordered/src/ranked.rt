//! Which rows are less than others.
ghost use Rattle.std.specs.Prelude.{◌≡◌, Bool, refl};

use ac_base::{Elem, KeyOf, Rank};
use ac_setwork::{Keys, OfEntries, OfKeyed};

/// Rows that are in the order of their keys.
pub trait Ranked: Keys
where
    Self::Key: Rank,
{
    ghost is_less: { Self.Row → Self.Row → Bool };

    ghost less_by_key: { (v w : Self.Row) → is_less v w ≡ Self.Key.is_less (Self.key_of v) (Self.key_of w) };
}

impl<K: Rank, V: Elem> Ranked for OfEntries<K, V> {
    ghost is_less = { λ e f. K.is_less e.key f.key };

    ghost less_by_key = { λ _ _. refl };
}

impl<T: KeyOf> Ranked for OfKeyed<T> {
    ghost is_less = { T.is_less };

    ghost less_by_key = { T.less_by_key };
}
