//! Copies of a vector's elements that are put into a vector. Where the two are one, the calls are those with `_self`.
ghost use Rattle.std.specs.Prelude.{◌≡◌, ◌∷◌, ◌+◌, ◌≤◌, None, length};
ghost use Rattle.std.specs.Option.{ForSome};
ghost use Rattle.ac_base.specs.FirstReason.{first_reason};
ghost use Rattle.ac_model.specs.Calls.{Same, Marks};
ghost use Rattle.ac_model.specs.Containers.{Grows};
ghost use Rattle.ac_model.specs.Cursors.{IsNamed};
ghost use Rattle.ac_model.specs.Forms.{Does, Sets, seen_by};
ghost use Rattle.ac_model.specs.Letters.{tampers_cursors, room};
ghost use Rattle.ac_model.specs.Objects.{plain, length_of};
ghost use Rattle.ac_model.specs.Putting.{Takes, done};
ghost use Rattle.ac_model.specs.Vectors as vectors;
ghost use Rattle.ac_vector.specs.Parts.{put_values_call, source_call, variable_after};

use super::Vector;
use super::indexes::place_of;
use crate::put::put_all;
use crate::refilling::copies_of;
use ac_base::{Elem, Fault, GREATEST_LENGTH, Name, Reason};
use ac_chain::Walked;
use ac_chain::calls::{self, done};
use ac_cursor::{Class, Cursor, first_reason};
use ac_model::{allowed, cursor_of_first, index_in, place_in, room};

/// Sets the variable to the first of so many, or to the cursor where there is none.
fn set_first(put: Result<Cursor, Fault>, count: u64, b: Cursor, p: &mut Cursor) -> Result<(), Fault>
    ensures answer { result ≡ done put }
    ensures variable { p.new ≡ variable_after put count b p.old }
{
    match put {
        Ok(first) => {
            *p = cursor_of_first(count, first, b);
            Ok(())
        }
        Err(fault) => Err(fault),
    }
}

impl<T: Elem> Vector<T> {
    /// Insert_Vector by an index (A.18.2): copies of the source's elements before the element there, or at the end.
    pub fn insert_vector_index(&mut self, index: i64, source: &Vector<T>) -> Result<(), Fault>
        ensures changed { Does Same (λ o. vectors.insert_vector_index_call o index (plain source.now.object)) self.old self.new result }
        ensures slots { Grows result self.old self.new }
    {
        let found = index_in(index, self.rows.len() + 1);
        let place = self.name_from(place_of(index));
        done(self.insert_source(found, place, source))
    }

    /// Insert_Vector by an index (A.18.2) of a vector into itself.
    pub fn insert_vector_index_self(&mut self, index: i64) -> Result<(), Fault>
        ensures changed { Does Same (λ o. vectors.insert_vector_index_call o index o) self.old self.new result }
        ensures slots { Grows result self.old self.new }
    {
        let found = index_in(index, self.rows.len() + 1);
        let place = self.name_from(place_of(index));
        done(self.insert_itself(found, place))
    }

    /// Insert_Vector (A.18.2): copies of the source's elements before the cursor, where No_Element is the end.
    pub fn insert_vector(&mut self, b: Cursor, source: &Vector<T>) -> Result<(), Fault>
        ensures changed { Does Same (λ o. vectors.insert_vector_call o (seen_by self.old b) (plain source.now.object))
            self.old self.new result }
        ensures slots { Grows result self.old self.new }
    {
        let mut first = b;
        self.insert_vector_pos(b, source, &mut first)
    }

    /// Insert_Vector (A.18.2) of a vector into itself.
    pub fn insert_vector_self(&mut self, b: Cursor) -> Result<(), Fault>
        ensures changed { Does Same (λ o. vectors.insert_vector_call o (seen_by self.old b) o) self.old self.new result }
        ensures slots { Grows result self.old self.new }
    {
        let mut first = b;
        self.insert_vector_pos_self(b, &mut first)
    }

    /// Insert_Vector with a position (A.18.2): the variable is set to the first copy, or to the cursor where there is none.
    pub fn insert_vector_pos(
        &mut self,
        b: Cursor,
        source: &Vector<T>,
        p: &mut Cursor,
    ) -> Result<(), Fault>
        ensures changed { Sets (λ o. vectors.insert_vector_pos_call o (seen_by self.old b) (plain source.now.object))
            self.old p.old self.new p.new result }
        ensures slots { Grows result self.old self.new }
    {
        let _rows = &self.rows;
        let count = source.rows.len();
        set_first(
            self.insert_source(calls::may(self, b), place_in(b), source),
            count,
            b,
            p,
        )
    }

    /// Insert_Vector with a position (A.18.2) of a vector into itself.
    pub fn insert_vector_pos_self(&mut self, b: Cursor, p: &mut Cursor) -> Result<(), Fault>
        ensures changed { Sets (λ o. vectors.insert_vector_pos_call o (seen_by self.old b) o) self.old p.old self.new p.new result }
        ensures slots { Grows result self.old self.new }
    {
        let count = self.rows.len();
        set_first(
            self.insert_itself(calls::may(self, b), place_in(b)),
            count,
            b,
            p,
        )
    }

    /// Append_Vector (A.18.2): copies of the source's elements at the end.
    pub fn append_vector(&mut self, source: &Vector<T>) -> Result<(), Fault>
        ensures changed { Does Same (λ o. vectors.append_vector_call o (plain source.now.object)) self.old self.new result }
        ensures slots { Grows result self.old self.new }
    {
        done(self.insert_source(None, None, source))
    }

    /// Append_Vector (A.18.2) of a vector to itself.
    pub fn append_vector_self(&mut self) -> Result<(), Fault>
        ensures changed { Does Same (λ o. vectors.append_vector_call o o) self.old self.new result }
        ensures slots { Grows result self.old self.new }
    {
        done(self.insert_itself(None, None))
    }

    /// Prepend_Vector (A.18.2): copies of the source's elements at the front.
    pub fn prepend_vector(&mut self, source: &Vector<T>) -> Result<(), Fault>
        ensures changed { Does Same (λ o. vectors.prepend_vector_call o (plain source.now.object)) self.old self.new result }
        ensures slots { Grows result self.old self.new }
    {
        let first = self.rows.first();
        done(self.insert_source(None, first, source))
    }

    /// Prepend_Vector (A.18.2) of a vector to itself.
    pub fn prepend_vector_self(&mut self) -> Result<(), Fault>
        ensures changed { Does Same (λ o. vectors.prepend_vector_call o o) self.old self.new result }
        ensures slots { Grows result self.old self.new }
    {
        let first = self.rows.first();
        done(self.insert_itself(None, first))
    }

    /// Puts copies of the source's elements before the place, unless a reason was found for it. The answer is the first one's cursor.
    fn insert_source(
        &mut self,
        found: Option<Reason>,
        place: Option<Name>,
        source: &Vector<T>,
    ) -> Result<Cursor, Fault>
        requires { found ≡ None → ForSome place (IsNamed self.old.object) }
        ensures changed { Does (Marks self.new.object) (λ _. source_call self.old.object found place (plain source.now.object))
            self.old self.new result }
        ensures none { length_of source.now.object ≡ 0 → self.new ≡ self.old }
        ensures slots { Grows result self.old self.new }
    {
        allowed(self.refuses_source(found, source.rows.len()))?;
        match copies_of(source.rows.values(), self.alloc) {
            Ok(copies) => self.put_source(place, copies),
            Err(_) => Err(Fault::NoMemory),
        }
    }

    /// As `insert_source`, with the vector's own elements.
    fn insert_itself(&mut self, found: Option<Reason>, place: Option<Name>) -> Result<Cursor, Fault>
        requires { found ≡ None → ForSome place (IsNamed self.old.object) }
        ensures changed { Does (Marks self.new.object) (λ o. source_call self.old.object found place o) self.old self.new result }
        ensures none { length_of self.old.object ≡ 0 → self.new ≡ self.old }
        ensures slots { Grows result self.old self.new }
    {
        allowed(self.refuses_source(found, self.rows.len()))?;
        match copies_of(self.rows.values(), self.alloc) {
            Ok(copies) => self.put_source(place, copies),
            Err(_) => Err(Fault::NoMemory),
        }
    }

    /// Why so many elements before a place are refused, where this reason was found for the place.
    fn refuses_source(&self, place: Option<Reason>, more: u64) -> Option<Reason>
        requires { more ≤ GREATEST_LENGTH }
        ensures { result ≡ first_reason (tampers_cursors (plain self.now.object) ∷ place
            ∷ room (plain self.now.object) (length_of (plain self.now.object) + more) more) }
    {
        let length = self.rows.len() + more;
        first_reason(&[
            self.guards.forbids(Class::Cursors),
            place,
            room(self.limit, self.rows.next_serial(), length, more),
        ])
    }

    /// Puts the values before the place. The answer is the first one's cursor.
    fn put_source(&mut self, place: Option<Name>, values: Vec<T>) -> Result<Cursor, Fault>
        requires place { ForSome place (IsNamed self.old.object) }
        requires room { Takes self.old.object (length values.items) }
        ensures changed { Does (Marks self.new.object) (λ _. put_values_call self.old.object place values.items) self.old self.new result }
        ensures none { length values.items ≡ 0 → self.new ≡ self.old }
        ensures slots { Grows result self.old self.new }
    {
        match put_all(&mut self.rows, place, values) {
            Ok(first) => Ok(calls::named(self, first)),
            Err(_) => Err(Fault::NoMemory),
        }
    }
}
