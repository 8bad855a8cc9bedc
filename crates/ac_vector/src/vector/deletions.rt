//! Elements that are deleted.
ghost use Rattle.std.specs.Prelude.{◌≡◌, ◌∷◌, [], ◌+◌};
ghost use Rattle.ac_model.specs.Cursors.{needs_cursor};
ghost use Rattle.ac_base.specs.FirstReason.{first_reason};
ghost use Rattle.ac_model.specs.Objects.{plain, length_of};
ghost use Rattle.ac_model.specs.Letters.{tampers_cursors, in_range};
ghost use Rattle.ac_model.specs.Calls.{Same};
ghost use Rattle.ac_model.specs.Forms.{Does, Sets, seen_by};
ghost use Rattle.ac_model.specs.Sequences as sequences;

use super::Vector;
use ac_base::Fault;
use ac_chain::{Walked, calls};
use ac_cursor::Cursor;
use ac_model::{allowed, count_of};

impl<T: Drop> Vector<T> {
    /// Delete (A.18.2): at most so many elements from the cursor on, which becomes No_Element.
    pub fn delete(&mut self, q: &mut Cursor, n: i64) -> Result<(), Fault>
        ensures changed { Sets (λ o. sequences.delete_call o (seen_by self.old q.old) n) self.old q.old self.new q.new result }
        ensures slots { length_of self.new.object + self.new.spare ≡ length_of self.old.object + self.old.spare }
    {
        allowed(calls::refuses_deletion(self, *q, n))?;
        let place = self.place_at(*q);
        self.rows.cut(place, count_of(n));
        *q = Cursor::NoElement;
        Ok(())
    }

    /// Delete_First (A.18.2): at most so many elements from the first on.
    pub fn delete_first(&mut self, n: i64) -> Result<(), Fault>
        ensures changed { Does Same (λ o. sequences.delete_first_call o n) self.old self.new result }
        ensures slots { length_of self.new.object + self.new.spare ≡ length_of self.old.object + self.old.spare }
    {
        allowed(calls::refuses_count(self, n))?;
        self.rows.cut(0, count_of(n));
        Ok(())
    }

    /// Delete_Last (A.18.2): at most so many elements at the end.
    pub fn delete_last(&mut self, n: i64) -> Result<(), Fault>
        ensures changed { Does Same (λ o. sequences.delete_last_call o n) self.old self.new result }
        ensures slots { length_of self.new.object + self.new.spare ≡ length_of self.old.object + self.old.spare }
    {
        allowed(calls::refuses_count(self, n))?;
        let count = count_of(n);
        self.rows.cut(self.rows.len().saturating_sub(count), count);
        Ok(())
    }
}
