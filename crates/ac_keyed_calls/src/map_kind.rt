//! What a map of a script is made of.
ghost use Rattle.std.specs.Prelude.{◌≡◌};
ghost use Rattle.ac_model.specs.Maps.{has_key, order_of};
ghost use Rattle.ac_model.specs.Rows.{entry};
ghost use Rattle.ac_calls.specs.Holdings.{is_hashed};
ghost use Rattle.ac_calls.specs.KeyedReplies.{of_hashed, of_ordered, order_by};

use ac_calls::ScriptElement;
use ac_setwork::{Entry, Mapped, Ordered};

/// A kind of maps from keys to elements: which index keeps the entries, and that it keeps them as the calls of scripts mean it.
pub trait MapKind<K: ScriptElement, V: ScriptElement> {
    ghost use Rattle.ac_calls.specs.KeyedReplies.{KeyedKind};

    type Index: Mapped<Row = Entry<K, V>, Key = K, Element = V>;

    /// How the entries stand.
    ghost which: { KeyedKind };

    ghost order_is: { Self.Index.order ≡ order_of (order_by K.tools which) };

    ghost matches_is: { Self.Index.matches ≡ has_key (order_by K.tools which) };

    ghost with_element_is: { Self.Index.with_element ≡ (λ e element. entry e.key element) };

    ghost equal_is: { Self.Index.is_equal ≡ (λ e f. V.tools.same e.element f.element) };

    ghost capacity_is: { Self.Index.has_capacity ≡ is_hashed which };
}

/// Maps with a Capacity, whose entries stand in order of arrival.
pub trait HashedMapKind<K: ScriptElement, V: ScriptElement>: MapKind<K, V> {
    ghost is_hashed: { Self.which ≡ of_hashed };
}

/// Maps whose entries ascend by their keys.
pub trait OrderedMapKind<K: ScriptElement, V: ScriptElement>: MapKind<K, V>
where
    Self::Index: Ordered,
{
    ghost is_ordered: { Self.which ≡ of_ordered };

    ghost above_is: { Self.Index.is_above ≡ (λ key e. (order_by K.tools Self.which).less key e.key) };

    ghost below_is: { Self.Index.is_below ≡ (λ key e. (order_by K.tools Self.which).less e.key key) };
}
