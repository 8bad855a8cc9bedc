//! The order of a list's elements.
ghost use Rattle.std.specs.Prelude.{◌≡◌, IfOk, map};
ghost use Rattle.ac_model.specs.Calls.{Same};
ghost use Rattle.ac_model.specs.Forms.{Does};
ghost use Rattle.ac_model.specs.Lists as lists;

use super::List;
use ac_base::{Fault, Rank};
use ac_chain::sorted_names;
use ac_cursor::Class;
use ac_model::allowed;

impl<T: Rank> List<T> {
    /// Sort (A.18.3): elements of which neither is less stay in their order, and each takes its name with it.
    pub fn sort(&mut self) -> Result<(), Fault>
        ensures changed { Does Same (lists.sort_call T.is_less) self.old self.new result }
        ensures spare { self.new.spare ≡ self.old.spare }
    {
        allowed(self.guards.forbids(Class::Cursors))?;
        let order = sorted_names(&self.chain, self.alloc)?;
        self.chain.relink(&order);
        Ok(())
    }
}
