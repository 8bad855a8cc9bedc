//! Rows that are replaced.
ghost use Rattle.std.specs.Prelude.{◌≡◌};
ghost use Rattle.ac_model.specs.Calls.{Same};
ghost use Rattle.ac_model.specs.Containers.{slots_of};
ghost use Rattle.ac_model.specs.Forms.{Does, Refuses, seen_by};
ghost use Rattle.ac_model.specs.Keyed as keyed;
ghost use Rattle.ac_setwork.specs.TableFields.{is_another, replace_in_class};

use super::Table;
use crate::index::Index;
use ac_base::{Fault, Name, Reason};
use ac_cursor::{Class, Cursor, first_reason};
use ac_model::{allowed, name_in, reason_if};

/// There is a name, with another serial than this one.
fn is_another(found: Option<Name>, serial: u64) -> bool
    ensures { result ≡ is_another found serial }
{
    match found {
        None => false,
        Some(other) => other.serial != serial,
    }
}

impl<I: Index> Table<I> {
    /// Replace (A.18.4, A.18.7), a call of this class.
    pub fn replace(&mut self, class: Class, row: I::Row) -> Result<(), Fault>
        ensures changed { Does Same (λ o. replace_in_class class I.order o row) self.old self.new result }
        ensures slots { slots_of self.new ≡ slots_of self.old }
    {
        allowed(self.guards.forbids(class))?;
        match self.index.look_like(&row) {
            None => Err(Fault::Raised(Reason::KeyAbsent)),
            Some(name) => {
                self.index.replace(name, row);
                Ok(())
            }
        }
    }

    /// Replace_Element of a set (A.18.7).
    pub fn replace_element(&mut self, c: Cursor, row: I::Row) -> Result<(), Fault>
        ensures changed { Does Same (λ o. keyed.replace_element_call I.order o (seen_by self.old c) row) self.old self.new result }
        ensures slots { slots_of self.new ≡ slots_of self.old }
    {
        match self.refuses_replacement(c, &row) {
            Some(reason) => Err(Fault::Raised(reason)),
            None => {
                self.index.set_row(name_in(c), row);
                Ok(())
            }
        }
    }

    fn refuses_replacement(&self, c: Cursor, row: &I::Row) -> Option<Reason>
        ensures { Refuses (λ o. keyed.replace_element_call I.order o (seen_by self.now c) row.now) self.now result }
    {
        first_reason(&[
            self.guards.forbids(Class::Cursors),
            self.needs(c),
            reason_if(
                is_another(self.index.look_like(row), name_in(c).serial),
                Reason::Duplicate,
            ),
        ])
    }
}
