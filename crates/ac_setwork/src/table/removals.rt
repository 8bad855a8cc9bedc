//! Rows that are deleted.
ghost use Rattle.std.specs.Prelude.{◌≡◌};
ghost use Rattle.ac_model.specs.Calls.{Same};
ghost use Rattle.ac_model.specs.Containers.{slots_of};
ghost use Rattle.ac_model.specs.Forms.{Does, Sets, Refuses, seen_by};
ghost use Rattle.ac_model.specs.Common as common;
ghost use Rattle.ac_model.specs.Keyed as keyed;

use super::Table;
use crate::index::Index;
use ac_base::{Fault, Reason};
use ac_cursor::{Class, Cursor, first_reason};
use ac_model::{allowed, name_in};

impl<I: Index> Table<I> {
    /// Clear (A.18.4, A.18.7).
    pub fn clear(&mut self) -> Result<(), Fault>
        ensures changed { Does Same common.clear_call self.old self.new result }
        ensures slots { slots_of self.new ≡ slots_of self.old }
    {
        allowed(self.guards.forbids(Class::Cursors))?;
        self.index.clear();
        Ok(())
    }

    /// Delete by a key or an item (A.18.4, A.18.7).
    pub fn delete_key(&mut self, key: &I::Key) -> Result<(), Fault>
        ensures changed { Does Same (λ o. keyed.delete_match_call (I.matches key.now) o) self.old self.new result }
        ensures slots { slots_of self.new ≡ slots_of self.old }
    {
        allowed(self.guards.forbids(Class::Cursors))?;
        match self.index.look(key) {
            None => Err(Fault::Raised(Reason::KeyAbsent)),
            Some(name) => {
                let _row = self.index.remove(name);
                Ok(())
            }
        }
    }

    /// Exclude (A.18.4, A.18.7).
    pub fn exclude(&mut self, key: &I::Key) -> Result<(), Fault>
        ensures changed { Does Same (λ o. keyed.exclude_call (I.matches key.now) o) self.old self.new result }
        ensures slots { slots_of self.new ≡ slots_of self.old }
    {
        allowed(self.guards.forbids(Class::Cursors))?;
        match self.index.look(key) {
            None => Ok(()),
            Some(name) => {
                let _row = self.index.remove(name);
                Ok(())
            }
        }
    }

    /// Delete (A.18.4, A.18.7): the element at the cursor, which becomes No_Element.
    pub fn delete(&mut self, q: &mut Cursor) -> Result<(), Fault>
        ensures changed { Sets (λ o. keyed.delete_call o (seen_by self.old q.old)) self.old q.old self.new q.new result }
        ensures slots { slots_of self.new ≡ slots_of self.old }
    {
        allowed(self.refuses_deletion(*q))?;
        let _row = self.index.remove(name_in(*q));
        *q = Cursor::NoElement;
        Ok(())
    }

    fn refuses_deletion(&self, c: Cursor) -> Option<Reason>
        ensures { Refuses (λ o. keyed.delete_call o (seen_by self.now c)) self.now result }
    {
        first_reason(&[self.guards.forbids(Class::Cursors), self.needs(c)])
    }
}
