//! Searches for an element, and comparisons of all elements.
ghost use Rattle.std.specs.Prelude.{◌≡◌};
ghost use Rattle.ac_model.specs.Objects.{plain};
ghost use Rattle.ac_model.specs.Calls.{Marks};
ghost use Rattle.ac_model.specs.Forms.{Looks, seen_by};
ghost use Rattle.ac_model.specs.Sequences as sequences;

use super::List;
use ac_base::{Elem, Fault, Rank};
use ac_chain::calls;
use ac_cursor::Cursor;

impl<T: Elem> List<T> {
    /// Find (A.18.3): from the cursor on, or from the first element where it is No_Element.
    pub fn find(&self, e: &T, b: Cursor) -> Result<Cursor, Fault>
        ensures { Looks (Marks self.now.object) (λ o. sequences.find_call T.is_same o e.now (seen_by self.now b)) self.now result }
    {
        calls::find(self, e, b)
    }

    /// Reverse_Find (A.18.3): back from the cursor, or from the last element where it is No_Element.
    pub fn reverse_find(&self, e: &T, b: Cursor) -> Result<Cursor, Fault>
        ensures { Looks (Marks self.now.object) (λ o. sequences.reverse_find_call T.is_same o e.now (seen_by self.now b)) self.now result }
    {
        calls::reverse_find(self, e, b)
    }

    /// Contains (A.18.3).
    pub fn contains(&self, e: &T) -> bool
        ensures { result ≡ sequences.contains_call T.is_same (plain self.now.object) e.now }
    {
        calls::contains(self, e)
    }

    /// "=" (A.18.3).
    pub fn equal(&self, other: &List<T>) -> bool
        ensures { result ≡ sequences.equal_call T.is_same (plain self.now.object) (plain other.now.object) }
    {
        calls::equal(self, other)
    }

    /// "=" (A.18.3) of a list with itself, in constant time.
    pub fn equal_self(&self) -> bool
        ensures { result ≡ sequences.equal_call T.is_same (plain self.now.object) (plain self.now.object) }
    {
        true
    }
}

impl<T: Rank> List<T> {
    /// Is_Sorted (A.18.3).
    pub fn is_sorted(&self) -> bool
        ensures { result ≡ sequences.is_sorted_call T.is_less (plain self.now.object) }
    {
        calls::is_sorted(self)
    }
}
