//! Equality.
ghost use Rattle.std.specs.Prelude.{◌≡◌};
ghost use Rattle.ac_model.specs.Objects.{plain};
ghost use Rattle.ac_setwork.specs.TableCalls.{equal_call};

use super::Table;
use crate::filling::are_matched;
use crate::index::Index;

impl<I: Index> Table<I> {
    /// "=" (A.18.4, A.18.7): as many rows, and each has an equivalent one there that is equal.
    pub fn equal(&self, other: &Table<I>) -> bool
        ensures { result ≡ equal_call I.order I.is_equal (plain self.now.object) (plain other.now.object) }
    {
        self.index.len() == other.index.len() && are_matched(&self.index, &other.index)
    }
}
