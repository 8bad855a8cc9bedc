//! What a set of a script is made of.
ghost use Rattle.std.specs.Prelude.{◌≡◌};
ghost use Rattle.ac_base.specs.Key.{key_of_text};
ghost use Rattle.ac_calls.specs.Elements.{texts};
ghost use Rattle.ac_calls.specs.Holdings.{is_hashed};
ghost use Rattle.ac_calls.specs.KeyedReplies.{of_hashed, of_ordered, order_by};

use ac_base::KeyedText;
use ac_calls::ScriptElement;
use ac_setwork::{Keyed, Ordered};

/// A kind of sets: which index keeps the elements, and that it keeps them as the calls of scripts mean it.
pub trait SetKind<T: ScriptElement> {
    ghost use Rattle.ac_calls.specs.KeyedReplies.{KeyedKind};

    type Index: Keyed<Row = T, Key = T::Key>;

    /// How the elements stand.
    ghost which: { KeyedKind };

    ghost order_is: { Self.Index.order ≡ order_by T.tools which };

    ghost capacity_is: { Self.Index.has_capacity ≡ is_hashed which };
}

/// Sets with a Capacity, whose elements stand in order of arrival.
pub trait HashedSetKind<T: ScriptElement>: SetKind<T> {
    ghost is_hashed: { Self.which ≡ of_hashed };
}

/// Sets whose elements ascend.
pub trait OrderedSetKind<T: ScriptElement>: SetKind<T>
where
    Self::Index: Ordered,
{
    ghost is_ordered: { Self.which ≡ of_ordered };

    ghost below_is: { Self.Index.is_below ≡ (λ key e. Self.Index.keys.less (Self.Index.key_of e) key) };

    ghost above_is: { Self.Index.is_above ≡ (λ key e. Self.Index.keys.less key (Self.Index.key_of e)) };
}

/// Sets of texts with keys, which are told apart and ordered as texts.
pub trait KeyedSetKind: SetKind<KeyedText> {
    ghost key_of_is: { Self.Index.key_of ≡ key_of_text };

    ghost keys_is: { Self.Index.keys ≡ order_by texts Self.which };
}
