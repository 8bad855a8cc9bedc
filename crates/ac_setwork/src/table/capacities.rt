//! The Capacity.
ghost use Rattle.std.specs.Prelude.{◌≡◌, ◌≤◌, true, false, max, unwrap_or, IsTrue, OnOk, OnErr};
ghost use Rattle.ac_base.specs.Growth.{pow8};
ghost use Rattle.ac_base.specs.Limits.{is_past};
ghost use Rattle.ac_base.specs.declared.limit.TheConstants.{GREATEST_LENGTH};
ghost use Rattle.ac_model.specs.Calls.{IsAfter, Same};
ghost use Rattle.ac_model.specs.Capacities.{widened};
ghost use Rattle.ac_model.specs.Containers.{slots_of};
ghost use Rattle.ac_model.specs.Forms.{Does, Refuses};
ghost use Rattle.ac_model.specs.Letters.{count_of};
ghost use Rattle.ac_model.specs.Objects.{plain};
ghost use Rattle.ac_model.specs.Common as common;

use super::Table;
use crate::filling::widen;
use crate::index::Index;
use ac_base::{Fault, NoMemory, Reason};
use ac_cursor::{Class, first_reason};
use ac_model::{allowed, as_fault, count_of, in_range, too_many};

impl<I: Index> Table<I> {
    /// Capacity (A.18.5, A.18.8), and 0 where there is none.
    pub fn capacity(&self) -> i64
        ensures { result ≡ common.capacity_call (plain self.now.object) }
    {
        self.index.capacity().unwrap_or(0) as i64
    }

    /// Reserve_Capacity (A.18.5, A.18.8).
    pub fn reserve_capacity(&mut self, n: i64) -> Result<(), Fault>
        requires { I.has_capacity ≡ true }
        ensures changed { Does Same (λ o. common.reserve_capacity_call o n) self.old self.new result }
        ensures err { OnErr result (self.new ≡ self.old) }
        ensures slots { slots_of self.new ≤ max (slots_of self.old) (pow8 (count_of n)) }
    {
        allowed(self.refuses_capacity(n))?;
        let _capacity = self.index.capacity();
        as_fault(widen(&mut self.index, self.limit, count_of(n)))
    }

    /// Makes room for so many elements in all, where there is a Capacity.
    pub(super) fn raise_capacity(&mut self, need: u64) -> Result<(), NoMemory>
        requires few { need ≤ GREATEST_LENGTH }
        requires within { is_past self.old.object.limit need ≡ false }
        ensures ok { OnOk result (IsAfter self.old.object self.new.object (widened (plain self.old.object) need)) }
        ensures err { OnErr result (self.new ≡ self.old) }
        ensures slots { slots_of self.new ≤ max (slots_of self.old) (pow8 need) }
    {
        match self.index.capacity() {
            None => Ok(()),
            Some(_) => widen(&mut self.index, self.limit, need),
        }
    }

    /// Why a Capacity is refused.
    fn refuses_capacity(&self, n: i64) -> Option<Reason>
        ensures { Refuses (λ o. common.reserve_capacity_call o n) self.now result }
    {
        first_reason(&[
            self.guards.forbids(Class::Cursors),
            in_range(n),
            too_many(self.limit, count_of(n)),
        ])
    }
}
