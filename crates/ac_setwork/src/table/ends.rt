//! The elements at the ends of an ordered map or set.
ghost use Rattle.std.specs.Prelude.{◌≡◌};
ghost use Rattle.ac_model.specs.Calls.{Same, Lends};
ghost use Rattle.ac_model.specs.Containers.{slots_of};
ghost use Rattle.ac_model.specs.Forms.{Does, Looks};
ghost use Rattle.ac_model.specs.Ordered as ordered;
ghost use Rattle.ac_model.specs.Sequences as sequences;

use super::Table;
use crate::ordered::Ordered;
use ac_base::{Fault, Reason};
use ac_cursor::Class;
use ac_model::allowed;

impl<I: Ordered> Table<I> {
    /// First_Element (A.18.9), and a map's first key with its element.
    pub fn first_row(&self) -> Result<&I::Row, Fault>
        ensures { Looks Lends sequences.first_element_call self.now result }
    {
        match self.index.first() {
            Some(name) => Ok(self.index.at(name)),
            None => Err(Fault::Raised(Reason::Empty)),
        }
    }

    /// Last_Element (A.18.9), and a map's last key with its element.
    pub fn last_row(&self) -> Result<&I::Row, Fault>
        ensures { Looks Lends sequences.last_element_call self.now result }
    {
        match self.index.last() {
            Some(name) => Ok(self.index.at(name)),
            None => Err(Fault::Raised(Reason::Empty)),
        }
    }

    /// Delete_First (A.18.6, A.18.9).
    pub fn delete_first(&mut self) -> Result<(), Fault>
        ensures changed { Does Same ordered.delete_first_call self.old self.new result }
        ensures slots { slots_of self.new ≡ slots_of self.old }
    {
        allowed(self.guards.forbids(Class::Cursors))?;
        match self.index.first() {
            None => Ok(()),
            Some(name) => {
                let _row = self.index.remove(name);
                Ok(())
            }
        }
    }

    /// Delete_Last (A.18.6, A.18.9).
    pub fn delete_last(&mut self) -> Result<(), Fault>
        ensures changed { Does Same ordered.delete_last_call self.old self.new result }
        ensures slots { slots_of self.new ≡ slots_of self.old }
    {
        allowed(self.guards.forbids(Class::Cursors))?;
        match self.index.last() {
            None => Ok(()),
            Some(name) => {
                let _row = self.index.remove(name);
                Ok(())
            }
        }
    }
}
