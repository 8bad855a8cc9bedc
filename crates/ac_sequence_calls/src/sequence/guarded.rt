//! The guards of a list or a vector: those of the one that it is.
ghost use Rattle.ac_sequence_calls.specs.Sequences.{by_kind, with_guards_by, given_by, own_by, rest_by, set_by};

use super::Sequence;
use ac_cursor::{GuardKey, GuardKind, Guarded};

impl<L: Guarded, V: Guarded> Guarded for Sequence<L, V> {
    ghost is_set = { λ s. by_kind L.is_set V.is_set s };

    ghost guards = { λ s. by_kind L.guards V.guards s };

    ghost with_guards = { λ s counts. with_guards_by L.with_guards V.with_guards s counts };

    ghost guards_given = { λ s counts. given_by L.guards V.guards L.with_guards V.with_guards L.guards_given V.guards_given s counts };

    ghost guards_own = { λ s. own_by L.guards V.guards L.with_guards V.with_guards L.guards_own V.guards_own s };

    ghost rest_kept = { λ s counts others. rest_by L.with_guards V.with_guards L.rest_kept V.rest_kept s counts others };

    ghost set_kept = { λ s counts. set_by L.is_set V.is_set L.with_guards V.with_guards L.set_kept V.set_kept s counts };

    fn hold(&mut self, kind: GuardKind) -> GuardKey {
        match self {
            Sequence::List(list) => list.hold(kind),
            Sequence::Vector(vector) => vector.hold(kind),
        }
    }

    fn release(&mut self, key: GuardKey) {
        match self {
            Sequence::List(list) => list.release(key),
            Sequence::Vector(vector) => vector.release(key),
        }
    }

    fn held(&self, kind: GuardKind) -> u64 {
        match self {
            Sequence::List(list) => list.held(kind),
            Sequence::Vector(vector) => vector.held(kind),
        }
    }
}
