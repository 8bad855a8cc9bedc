//! What the calls by key need of a set's rows.
ghost use Rattle.std.specs.Prelude.{◌≡◌};
ghost use Rattle.ac_model.specs.Keyed.{Order, on_key};
ghost use Rattle.ac_model.specs.KeyedSets.{has_key};

use crate::index::Index;

/// An index whose rows have keys, by which they are told apart and ordered.
pub trait Keyed: Index {
    ghost key_of: { Self.Row → Self.Key };

    /// How keys are told apart and ordered.
    ghost keys: { Order Self.Key };

    fn key(row: &Self::Row) -> &Self::Key
        ensures { result.now ≡ key_of row.now };

    /// Whether the rows have equivalent keys.
    fn alike(row: &Self::Row, other: &Self::Row) -> bool
        ensures { result ≡ keys.alike (key_of row.now) (key_of other.now) };

    ghost order_by_key: { Self.order ≡ on_key key_of keys };

    ghost matches_key: { (k : Self.Key) → Self.matches k ≡ has_key key_of keys k };
}
