//! Elements by an index, counted from 1.
ghost use Rattle.std.specs.Prelude.{◌≡◌, ◌∷◌, [], ◌+◌, ◌<◌, None};
ghost use Rattle.ac_base.specs.FirstReason.{first_reason};
ghost use Rattle.ac_pool.specs.NamedRows.{name_at};
ghost use Rattle.ac_model.specs.Calls.{IsAfter, Same, Marks, Lends};
ghost use Rattle.ac_model.specs.Containers.{Grows};
ghost use Rattle.ac_model.specs.Cursors.{needs_cursor};
ghost use Rattle.ac_model.specs.Forms.{Does, Looks, Refuses, seen_by};
ghost use Rattle.ac_model.specs.Letters.{place_at, place_of_index, tampers_elements, index_in};
ghost use Rattle.ac_model.specs.Objects.{plain, length_of, with_rows};
ghost use Rattle.ac_model.specs.Rows.{with_value};
ghost use Rattle.ac_model.specs.Vectors as vectors;

use super::Vector;
use ac_base::{Elem, Fault, GREATEST_LENGTH, Name, Reason};
use ac_chain::Walked;
use ac_chain::calls::{self, Puts, done};
use ac_cursor::{Class, Cursor, first_reason};
use ac_model::{allowed, count_of, in_range, index_in, name_in};

/// The place of an index.
pub(super) fn place_of(index: i64) -> u64
    ensures { result ≡ place_of_index index }
{
    count_of(index).saturating_sub(1)
}

impl<T> Vector<T> {
    /// First_Index (A.18.2).
    pub fn first_index(&self) -> i64
        ensures { result ≡ vectors.first_index_call (plain self.now.object) }
    {
        1
    }

    /// Last_Index (A.18.2).
    pub fn last_index(&self) -> i64
        ensures { result ≡ vectors.last_index_call (plain self.now.object) }
    {
        self.rows.len() as i64
    }

    /// To_Cursor (A.18.2): No_Element past the ends.
    pub fn to_cursor(&self, index: i64) -> Cursor
        ensures { Marks self.now.object result (vectors.to_cursor_call (plain self.now.object) index) }
    {
        match index_in(index, self.rows.len()) {
            Some(_) => Cursor::NoElement,
            None => calls::named(self, Some(self.rows.name_at(place_of(index)))),
        }
    }

    /// To_Index (A.18.2): 0, which is No_Index, for No_Element.
    pub fn to_index(&self, b: Cursor) -> Result<i64, Fault>
        ensures { Looks Same (λ o. vectors.to_index_call o (seen_by self.now b)) self.now result }
    {
        if b == Cursor::NoElement {
            return Ok(0);
        }
        allowed(calls::needs(self, b))?;
        Ok(self.place_at(b) as i64 + 1)
    }

    /// The place of a cursor's element.
    pub(super) fn place_at(&self, c: Cursor) -> u64
        requires { needs_cursor self.now.object c ≡ None }
        ensures place { result ≡ place_at (plain self.now.object).rows (seen_by self.now c) }
        ensures within { result < length_of self.now.object }
        ensures few { result < GREATEST_LENGTH }
    {
        self.rows.index_of(name_in(c))
    }

    /// Element by an index (A.18.2).
    pub fn element_index(&self, index: i64) -> Result<&T, Fault>
        ensures { Looks Lends (λ o. vectors.element_index_call o index) self.now result }
    {
        allowed(index_in(index, self.rows.len()))?;
        Ok(self.rows.value_at(place_of(index)))
    }

    /// Swap by indexes (A.18.2).
    pub fn swap_index(&mut self, first: i64, second: i64) -> Result<(), Fault>
        ensures changed { Does Same (λ o. vectors.swap_index_call o first second) self.old self.new result }
        ensures spare { self.new.spare ≡ self.old.spare }
    {
        allowed(self.refuses_swap_index(first, second))?;
        self.exchange(self.to_cursor(first), self.to_cursor(second));
        Ok(())
    }

    /// Why a swap by indexes is refused.
    fn refuses_swap_index(&self, first: i64, second: i64) -> Option<Reason>
        ensures { Refuses (λ o. vectors.swap_index_call o first second) self.now result }
    {
        let length = self.rows.len();
        first_reason(&[
            self.guards.forbids(Class::Elements),
            index_in(first, length),
            index_in(second, length),
        ])
    }

    /// The name at this place, if a row stands there.
    pub(super) fn name_from(&self, place: u64) -> Option<Name>
        ensures { result ≡ name_at self.now.object.rows place }
    {
        if place < self.rows.len() {
            Some(self.rows.name_at(place))
        } else {
            None
        }
    }
}

impl<T: Drop> Vector<T> {
    /// Replace_Element by an index (A.18.2).
    pub fn replace_index(&mut self, index: i64, e: T) -> Result<(), Fault>
        ensures changed { Does Same (λ o. vectors.replace_index_call o index e) self.old self.new result }
        ensures spare { self.new.spare ≡ self.old.spare }
    {
        allowed(self.refuses_replace_index(index))?;
        self.set_index(index, e);
        Ok(())
    }

    /// Another value at an index in range.
    fn set_index(&mut self, index: i64, e: T)
        requires { index_in index (length_of (plain self.old.object)) ≡ None }
        ensures written { IsAfter self.old.object self.new.object
            (with_rows (plain self.old.object) (with_value (plain self.old.object).rows (vectors.name_in (plain self.old.object) index) e)) }
        ensures spare { self.new.spare ≡ self.old.spare }
    {
        self.rows.set_at(place_of(index), e);
    }

    /// Why a replacement by an index is refused.
    fn refuses_replace_index(&self, index: i64) -> Option<Reason>
        ensures { result ≡ first_reason (tampers_elements (plain self.now.object)
            ∷ index_in index (length_of (plain self.now.object)) ∷ []) }
    {
        first_reason(&[
            self.guards.forbids(Class::Elements),
            index_in(index, self.rows.len()),
        ])
    }

    /// Delete by an index (A.18.2): at most so many elements from there on.
    pub fn delete_index(&mut self, index: i64, n: i64) -> Result<(), Fault>
        ensures changed { Does Same (λ o. vectors.delete_index_call o index n) self.old self.new result }
        ensures slots { length_of self.new.object + self.new.spare ≡ length_of self.old.object + self.old.spare }
    {
        allowed(self.refuses_delete_index(index, n))?;
        self.rows.cut(place_of(index), count_of(n));
        Ok(())
    }

    /// Why a deletion by an index is refused.
    fn refuses_delete_index(&self, index: i64, n: i64) -> Option<Reason>
        ensures { Refuses (λ o. vectors.delete_index_call o index n) self.now result }
    {
        first_reason(&[
            self.guards.forbids(Class::Cursors),
            index_in(index, self.rows.len() + 1),
            in_range(n),
        ])
    }
}

impl<T: Elem> Vector<T> {
    /// Insert by an index (A.18.2): so many copies before the element there, or at the end.
    pub fn insert_index(&mut self, index: i64, e: T, n: i64) -> Result<(), Fault>
        ensures changed { Does Same (λ o. vectors.insert_index_call o index e n) self.old self.new result }
        ensures slots { Grows result self.old self.new }
    {
        allowed(calls::refuses_copies(self, index_in(index, self.rows.len() + 1), n))?;
        done(self.put(self.name_from(place_of(index)), e, count_of(n)))
    }
}
