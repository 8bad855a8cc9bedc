//! Which rows are equivalent.
ghost use Rattle.std.specs.Prelude.{◌≡◌, Bool, refl};

use ac_base::{Elem, Hashed, KeyOf};
use ac_setwork::{Keys, OfEntries, OfKeyed};

/// Rows that are equivalent where their keys are.
pub trait Alike: Keys
where
    Self::Key: Hashed,
{
    ghost is_alike: { Self.Row → Self.Row → Bool };

    ghost alike_by_key: { (v w : Self.Row) → is_alike v w ≡ Self.Key.is_alike (Self.key_of v) (Self.key_of w) };
}

impl<K: Hashed, V: Elem> Alike for OfEntries<K, V> {
    ghost is_alike = { λ e f. K.is_alike e.key f.key };

    ghost alike_by_key = { λ _ _. refl };
}

impl<T: KeyOf> Alike for OfKeyed<T> {
    ghost is_alike = { T.is_alike };

    ghost alike_by_key = { T.alike_by_key };
}
