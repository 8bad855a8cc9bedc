//! Elements that move into another vector, under new names.
ghost use Rattle.std.specs.Prelude.{◌≡◌};
ghost use Rattle.ac_model.specs.Calls.{Same};
ghost use Rattle.ac_model.specs.Common as common;
ghost use Rattle.ac_model.specs.Containers.{Grows, slots_of};
ghost use Rattle.ac_model.specs.Forms.{DoesBoth};

use super::Vector;
use crate::moving::move_all;
use ac_base::Fault;
use ac_chain::calls;
use ac_model::{allowed, as_fault};

impl<T: Drop> Vector<T> {
    /// Move (A.18.2): the source's elements, under new names, in place of those that were here.
    pub fn move_from(&mut self, source: &mut Vector<T>) -> Result<(), Fault>
        ensures changed { DoesBoth Same common.move_from_call self.old source.old self.new source.new result }
        ensures slots { Grows result self.old self.new }
        ensures source { slots_of source.new ≡ slots_of source.old }
    {
        allowed(calls::refuses_move(self, source))?;
        as_fault(move_all(&mut self.rows, &mut source.rows))
    }
}
