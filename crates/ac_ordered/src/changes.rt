//! What becomes of a row that stays where it stands.
ghost use Rattle.std.specs.Prelude.{◌≡◌};
ghost use Rattle.ac_model.specs.Rows.{entry};

use crate::sorted::Sorted;
use ac_balance::Change;
use ac_base::Elem;
use ac_setwork::{Keys, OfEntries};

/// Another row in its place.
#[derive(Drop)]
pub(crate) struct Replacement<S: Keys> {
    pub(crate) row: S::Row,
}

impl<S: Keys> Change<Sorted<S>> for Replacement<S> {
    ghost changed = { λ change _. change.row };

    fn make(self, key: &mut Sorted<S>) {
        key.row = self.row;
    }
}

/// Another element for its key.
#[derive(Drop)]
pub(crate) struct WithElement<V> {
    pub(crate) element: V,
}

impl<K: Elem, V: Elem> Change<Sorted<OfEntries<K, V>>> for WithElement<V> {
    ghost changed = { λ change e. entry e.key change.element };

    fn make(self, key: &mut Sorted<OfEntries<K, V>>) {
        key.row.set_element(self.element);
    }
}
