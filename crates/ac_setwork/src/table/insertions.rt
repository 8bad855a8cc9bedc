//! Rows that are inserted.
ghost use Rattle.std.specs.Prelude.{◌≡◌, ◌∷◌, None, IsTrue, OnErr};
ghost use Rattle.ac_base.specs.FirstReason.{first_reason};
ghost use Rattle.ac_model.specs.Objects.{plain};
ghost use Rattle.ac_model.specs.Letters.{tampers_cursors, room_for_one};
ghost use Rattle.ac_model.specs.Calls.{Same};
ghost use Rattle.ac_model.specs.Containers.{Grows};
ghost use Rattle.ac_model.specs.Forms.{Does, Refuses};
ghost use Rattle.ac_model.specs.Keyed as keyed;
ghost use Rattle.ac_model.specs.Putting.{done};
ghost use Rattle.ac_setwork.specs.TableFields.{named_like, add_call, keeps_capacity, Inserts, Places, TakesOne};

use super::Table;
use crate::index::Index;
use ac_base::{Fault, Name, Reason};
use ac_cursor::{Class, Cursor, first_reason};
use ac_model::{allowed, reason_if, room};

fn done(added: Result<Name, Fault>) -> Result<(), Fault>
    ensures { result ≡ done added }
{
    match added {
        Ok(_) => Ok(()),
        Err(fault) => Err(fault),
    }
}

impl<I: Index> Table<I> {
    /// Insert (A.18.4, A.18.7).
    pub fn insert(&mut self, row: I::Row) -> Result<(), Fault>
        ensures changed { Does Same (λ o. keyed.insert_call I.order o row) self.old self.new result }
        ensures slots { Grows result self.old self.new }
    {
        if self.takes_one() {
            self.insert_at_once(row)
        } else {
            self.insert_with_room(row)
        }
    }

    /// Puts a row in a slot that is there, unless another has an equivalent key.
    #[inline(always)]
    fn insert_at_once(&mut self, row: I::Row) -> Result<(), Fault>
        requires { TakesOne self.old }
        ensures changed { Does Same (λ o. keyed.insert_call I.order o row) self.old self.new result }
        ensures slots { Grows result self.old self.new }
    {
        match self.index.add(row) {
            Ok(_) => Ok(()),
            Err(_) => Err(Fault::Raised(Reason::KeyPresent)),
        }
    }

    /// Puts a row in a slot that may have to be made, once it is known that nothing refuses it.
    fn insert_with_room(&mut self, row: I::Row) -> Result<(), Fault>
        ensures changed { Does Same (λ o. keyed.insert_call I.order o row) self.old self.new result }
        ensures slots { Grows result self.old self.new }
    {
        match self.refuses_insert(&row) {
            Some(reason) => Err(Fault::Raised(reason)),
            None => done(self.add(row)),
        }
    }

    /// Insert with a position (A.18.4, A.18.7): where an equivalent one is there, the position is that one, and nothing else changes.
    pub fn insert_pos(&mut self, row: I::Row, p: &mut Cursor) -> Result<bool, Fault>
        ensures changed { Does (Places self.new.object p.new) (λ o. keyed.insert_pos_call I.order o row) self.old self.new result }
        ensures kept { OnErr result (p.new ≡ p.old) }
        ensures slots { Grows result self.old self.new }
    {
        match self.name_like(&row) {
            Some(name) => match self.guards.forbids(Class::Cursors) {
                Some(reason) => Err(Fault::Raised(reason)),
                None => {
                    *p = self.cursor_at(Some(name));
                    Ok(false)
                }
            },
            None => match self.refuses_new() {
                Some(reason) => Err(Fault::Raised(reason)),
                None => match self.add(row) {
                    Ok(name) => {
                        *p = self.cursor_at(Some(name));
                        Ok(true)
                    }
                    Err(fault) => Err(fault),
                },
            },
        }
    }

    /// Include (A.18.4, A.18.7).
    pub fn include(&mut self, row: I::Row) -> Result<(), Fault>
        ensures changed { Does Same (λ o. keyed.include_call I.order o row) self.old self.new result }
        ensures slots { Grows result self.old self.new }
    {
        match self.name_like(&row) {
            Some(name) => match self.guards.forbids(Class::Cursors) {
                Some(reason) => Err(Fault::Raised(reason)),
                None => {
                    self.index.replace(name, row);
                    Ok(())
                }
            },
            None => match self.refuses_new() {
                Some(reason) => Err(Fault::Raised(reason)),
                None => done(self.add(row)),
            },
        }
    }

    fn refuses_insert(&self, row: &I::Row) -> Option<Reason>
        ensures { Refuses (λ o. keyed.insert_call I.order o row.now) self.now result }
    {
        first_reason(&[
            self.guards.forbids(Class::Cursors),
            reason_if(self.index.look_like(row).is_some(), Reason::KeyPresent),
            room(
                self.limit,
                self.index.next_serial(),
                self.index.len() + 1,
                1,
            ),
        ])
    }

    /// Why a row is refused whose key no other has.
    #[inline(always)]
    fn refuses_new(&self) -> Option<Reason>
        ensures { result ≡ first_reason (tampers_cursors (plain self.now.object) ∷ room_for_one (plain self.now.object)) }
    {
        first_reason(&[
            self.guards.forbids(Class::Cursors),
            room(
                self.limit,
                self.index.next_serial(),
                self.index.len() + 1,
                1,
            ),
        ])
    }

    /// A row whose key no other has is allowed, and a slot and the Capacity are there for it.
    #[inline(always)]
    fn takes_one(&self) -> bool
        ensures { IsTrue result → TakesOne self.now }
    {
        self.index.spare() > 0 && self.keeps_capacity() && self.refuses_new().is_none()
    }

    #[inline(always)]
    fn keeps_capacity(&self) -> bool
        ensures { IsTrue result → keeps_capacity self.now.object }
    {
        match self.index.capacity() {
            None => true,
            Some(capacity) => self.index.len() < capacity,
        }
    }

    /// Puts a row, whose key no other has, at its place.
    fn add(&mut self, row: I::Row) -> Result<Name, Fault>
        requires absent { named_like I.order self.old.object row ≡ None }
        requires allowed { first_reason (tampers_cursors (plain self.old.object) ∷ room_for_one (plain self.old.object)) ≡ None }
        ensures changed { Does (Inserts self.new.object) (λ o. add_call I.order o row) self.old self.new result }
        ensures slots { Grows result self.old self.new }
    {
        match self.index.make_room(self.limit, 1) {
            Err(_) => Err(Fault::NoMemory),
            Ok(()) => Ok(self.index.add_new(row)),
        }
    }
}
