//! Elements of a map, which are replaced under their keys.
ghost use Rattle.std.specs.Prelude.{◌≡◌};
ghost use Rattle.ac_model.specs.Calls.{Same};
ghost use Rattle.ac_model.specs.Containers.{slots_of};
ghost use Rattle.ac_model.specs.Forms.{Does, Refuses, seen_by};
ghost use Rattle.ac_setwork.specs.TableCalls.{set_element_call, write_call};

use super::Table;
use crate::mapped::Mapped;
use ac_base::{Fault, Reason};
use ac_cursor::{Class, Cursor, first_reason};
use ac_model::{allowed, name_in};

impl<I: Mapped> Table<I> {
    /// Replace_Element of a map (A.18.4).
    pub fn set_element(&mut self, c: Cursor, element: I::Element) -> Result<(), Fault>
        ensures changed { Does Same (λ o. set_element_call I.with_element o (seen_by self.old c) element) self.old self.new result }
        ensures slots { slots_of self.new ≡ slots_of self.old }
    {
        match self.refuses_element(c) {
            Some(reason) => Err(Fault::Raised(reason)),
            None => {
                self.index.set_element(name_in(c), element);
                Ok(())
            }
        }
    }

    /// Sets the element through a name that a view or a loop gives for it.
    pub fn write(&mut self, c: Cursor, element: I::Element) -> Result<(), Fault>
        ensures changed { Does Same (λ o. write_call I.with_element o (seen_by self.old c) element) self.old self.new result }
        ensures slots { slots_of self.new ≡ slots_of self.old }
    {
        match self.needs(c) {
            Some(reason) => Err(Fault::Raised(reason)),
            None => {
                self.index.set_element(name_in(c), element);
                Ok(())
            }
        }
    }

    fn refuses_element(&self, c: Cursor) -> Option<Reason>
        ensures { (element : I.Element) → Refuses (λ o. set_element_call I.with_element o (seen_by self.now c) element) self.now result }
    {
        first_reason(&[self.guards.forbids(Class::Elements), self.needs(c)])
    }
}
