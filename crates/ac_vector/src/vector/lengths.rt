//! The Capacity, and the length.
ghost use Rattle.std.specs.Prelude.{◌≡◌, ◌-◌, ◌≤◌, false, max, IsTrue, OnOk, OnErr};
ghost use Rattle.ac_base.specs.Growth.{pow8};
ghost use Rattle.ac_model.specs.Calls.{IsAfter, Same};
ghost use Rattle.ac_model.specs.Containers.{Grows, slots_of};
ghost use Rattle.ac_model.specs.Forms.{Does, Refuses};
ghost use Rattle.ac_model.specs.Letters.{count_of};
ghost use Rattle.ac_base.specs.Limits.{is_past};
ghost use Rattle.ac_model.specs.Objects.{length_of, plain, with_rows};
ghost use Rattle.ac_model.specs.Putting.{Takes};
ghost use Rattle.ac_model.specs.Rows.{cut};
ghost use Rattle.ac_model.specs.Capacities.{widened};
ghost use Rattle.ac_vector.specs.Parts.{blanks_call};
ghost use Rattle.ac_model.specs.Common as common;
ghost use Rattle.ac_model.specs.Vectors as vectors;

use super::Vector;
use ac_base::{Elem, Fault, GREATEST_LENGTH, NoMemory, Reason};
use ac_chain::Walked;
use ac_chain::calls::{Puts, done};
use ac_cursor::{Class, first_reason};
use ac_model::{allowed, as_fault, count_of, in_range, room, too_many};

impl<T> Vector<T> {
    /// Reserve_Capacity (A.18.2).
    pub fn reserve_capacity(&mut self, n: i64) -> Result<(), Fault>
        ensures changed { Does Same (λ o. common.reserve_capacity_call o n) self.old self.new result }
        ensures err { OnErr result (self.new ≡ self.old) }
        ensures slots { slots_of self.new ≤ max (slots_of self.old) (pow8 (count_of n)) }
    {
        allowed(self.refuses_capacity(n))?;
        as_fault(self.widen(count_of(n)))
    }

    /// Makes room for so many elements in all.
    pub(super) fn widen(&mut self, need: u64) -> Result<(), NoMemory>
        requires few { need ≤ GREATEST_LENGTH }
        requires within { is_past self.old.object.limit need ≡ false }
        ensures ok { OnOk result (IsAfter self.old.object self.new.object (widened (plain self.old.object) need)) }
        ensures err { OnErr result (self.new ≡ self.old) }
        ensures wants { OnErr result (IsTrue (common.asks_for_memory self.old.object.limit self.old.object.capacity need)) }
        ensures slots { slots_of self.new ≤ max (slots_of self.old) (pow8 need) }
    {
        let more = need.saturating_sub(self.rows.len());
        self.rows.reserve(more)
    }

    /// Why a Capacity is refused.
    fn refuses_capacity(&self, n: i64) -> Option<Reason>
        ensures { Refuses (λ o. common.reserve_capacity_call o n) self.now result }
    {
        first_reason(&[
            self.guards.forbids(Class::Cursors),
            in_range(n),
            too_many(self.limit, count_of(n)),
        ])
    }
}

impl<T: Elem> Vector<T> {
    /// Set_Length (A.18.2): blank elements are added, or elements deleted from the end.
    pub fn set_length(&mut self, n: i64) -> Result<(), Fault>
        ensures changed { Does Same (λ o. vectors.set_length_call o T.blank_element n) self.old self.new result }
        ensures slots { Grows result self.old self.new }
    {
        allowed(self.refuses_length(n))?;
        let length = self.rows.len();
        let count = count_of(n);
        if count <= length {
            self.shorten(count);
            Ok(())
        } else {
            self.lengthen(count - length)
        }
    }

    /// Deletes all elements behind the first so many.
    fn shorten(&mut self, count: u64)
        requires { count ≤ length_of (plain self.old.object) }
        ensures cut { IsAfter self.old.object self.new.object (with_rows (plain self.old.object)
            (cut (plain self.old.object).rows count (length_of (plain self.old.object) - count))) }
        ensures slots { slots_of self.new ≡ slots_of self.old }
    {
        let behind = self.rows.len() - count;
        self.rows.cut(count, behind);
    }

    /// Puts so many blank elements at the end.
    fn lengthen(&mut self, more: u64) -> Result<(), Fault>
        requires { Takes self.old.object more }
        ensures changed { Does Same (λ o. blanks_call o T.blank_element more) self.old self.new result }
        ensures slots { Grows result self.old self.new }
    {
        let blank = T::blank(self.alloc)?;
        done(self.put(None, blank, more))
    }

    /// Why a length is refused.
    fn refuses_length(&self, n: i64) -> Option<Reason>
        ensures { Refuses (λ o. vectors.set_length_call o T.blank_element n) self.now result }
    {
        let count = count_of(n);
        let more = count.saturating_sub(self.rows.len());
        first_reason(&[
            self.guards.forbids(Class::Cursors),
            in_range(n),
            room(self.limit, self.rows.next_serial(), count, more),
        ])
    }
}
