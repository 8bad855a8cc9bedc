//! The order of a vector's values, under names that stay in place.
ghost use Rattle.std.specs.Prelude.{◌≡◌, None};
ghost use Rattle.ac_model.specs.Calls.{IsAfter, Same};
ghost use Rattle.ac_model.specs.Cursors.{needs_cursor};
ghost use Rattle.ac_model.specs.Forms.{Does, seen_by};
ghost use Rattle.ac_model.specs.Letters.{name_of};
ghost use Rattle.ac_model.specs.Objects.{plain, with_rows};
ghost use Rattle.ac_model.specs.Rows.{with_exchanged_values};
ghost use Rattle.ac_model.specs.Sequences as sequences;
ghost use Rattle.ac_model.specs.Vectors as vectors;

use super::Vector;
use ac_base::{Fault, Rank};
use ac_chain::calls;
use ac_cursor::{Class, Cursor};
use ac_model::{allowed, as_fault, name_in};

impl<T> Vector<T> {
    /// Swap (A.18.2): the two elements change places, and each name keeps its place.
    pub fn swap(&mut self, first: Cursor, second: Cursor) -> Result<(), Fault>
        ensures changed { Does Same (λ o. sequences.swap_call o (seen_by self.old first) (seen_by self.old second))
            self.old self.new result }
        ensures spare { self.new.spare ≡ self.old.spare }
    {
        allowed(calls::refuses_swap(self, first, second))?;
        self.exchange(first, second);
        Ok(())
    }

    /// The values under the two cursors change places.
    pub(super) fn exchange(&mut self, first: Cursor, second: Cursor)
        requires first { needs_cursor self.old.object first ≡ None }
        requires second { needs_cursor self.old.object second ≡ None }
        ensures exchanged { IsAfter self.old.object self.new.object (with_rows (plain self.old.object)
            (with_exchanged_values (plain self.old.object).rows (name_of (seen_by self.old first)) (name_of (seen_by self.old second)))) }
        ensures spare { self.new.spare ≡ self.old.spare }
    {
        self.rows.swap_values(name_in(first), name_in(second));
    }

    /// Reverse_Elements (A.18.2): the values change places, and the names stay.
    pub fn reverse_elements(&mut self) -> Result<(), Fault>
        ensures changed { Does Same vectors.reverse_elements_call self.old self.new result }
        ensures spare { self.new.spare ≡ self.old.spare }
    {
        allowed(self.guards.forbids(Class::Elements))?;
        self.rows.reverse_values();
        Ok(())
    }
}

impl<T: Rank> Vector<T> {
    /// Sort (A.18.2): values of which neither is less stay in their order, and the names stay in place.
    pub fn sort(&mut self) -> Result<(), Fault>
        ensures changed { Does Same (vectors.sort_call T.is_less) self.old self.new result }
        ensures spare { self.new.spare ≡ self.old.spare }
    {
        allowed(self.guards.forbids(Class::Cursors))?;
        as_fault(self.rows.sort_values())
    }
}
