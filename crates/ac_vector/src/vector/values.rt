//! Another value under a name that stays.
ghost use Rattle.std.specs.Prelude.{◌≡◌, ◌∷◌, [], None};
ghost use Rattle.ac_model.specs.Cursors.{needs_cursor};
ghost use Rattle.ac_base.specs.FirstReason.{first_reason};
ghost use Rattle.ac_model.specs.Rows.{with_value};
ghost use Rattle.ac_model.specs.Objects.{plain, with_rows};
ghost use Rattle.ac_model.specs.Letters.{tampers_elements, name_of};
ghost use Rattle.ac_model.specs.Calls.{IsAfter, Same};
ghost use Rattle.ac_model.specs.Forms.{Does, seen_by};
ghost use Rattle.ac_model.specs.Sequences as sequences;

use super::Vector;
use ac_base::Fault;
use ac_chain::calls;
use ac_cursor::Cursor;
use ac_model::{allowed, name_in};

impl<T: Drop> Vector<T> {
    /// Replace_Element (A.18.2).
    pub fn replace_element(&mut self, c: Cursor, e: T) -> Result<(), Fault>
        ensures changed { Does Same (λ o. sequences.replace_element_call o (seen_by self.old c) e) self.old self.new result }
        ensures spare { self.new.spare ≡ self.old.spare }
    {
        allowed(calls::refuses_replacement(self, c))?;
        self.set_value(c, e);
        Ok(())
    }

    /// A write through a name that a view or a loop gives for the element (A.18.2): no tampering check.
    pub fn write(&mut self, c: Cursor, e: T) -> Result<(), Fault>
        ensures changed { Does Same (λ o. sequences.write_call o (seen_by self.old c) e) self.old self.new result }
        ensures spare { self.new.spare ≡ self.old.spare }
    {
        allowed(calls::needs(self, c))?;
        self.set_value(c, e);
        Ok(())
    }

    pub(super) fn set_value(&mut self, c: Cursor, e: T)
        requires { needs_cursor self.old.object c ≡ None }
        ensures written { IsAfter self.old.object self.new.object
            (with_rows (plain self.old.object) (with_value (plain self.old.object).rows (name_of (seen_by self.old c)) e)) }
        ensures spare { self.new.spare ≡ self.old.spare }
    {
        *self.rows.at_mut(name_in(c)) = e;
    }
}
