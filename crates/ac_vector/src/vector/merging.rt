//! Elements that move into another vector in the order of both.
ghost use Rattle.std.specs.Prelude.{◌≡◌};
ghost use Rattle.ac_model.specs.Calls.{Same};
ghost use Rattle.ac_model.specs.Containers.{Grows, slots_of};
ghost use Rattle.ac_model.specs.Forms.{DoesBoth};
ghost use Rattle.ac_model.specs.Sequences as sequences;

use super::Vector;
use crate::moving::merge_all;
use ac_base::{Fault, Rank};
use ac_chain::calls;
use ac_model::{allowed, as_fault};

impl<T: Rank> Vector<T> {
    /// Merge (A.18.2) of another vector: each time the smaller of the two first elements, and this vector's where neither is smaller.
    /// The cost is that of one pass over both.
    pub fn merge(&mut self, source: &mut Vector<T>) -> Result<(), Fault>
        ensures changed { DoesBoth Same (sequences.merge_call T.is_less) self.old source.old self.new source.new result }
        ensures slots { Grows result self.old self.new }
        ensures source { slots_of source.new ≡ slots_of source.old }
    {
        allowed(calls::refuses_merge(self, source))?;
        as_fault(merge_all(&mut self.rows, &mut source.rows, self.alloc))
    }
}
