//! Elements that move into another list in the order of both.
ghost use Rattle.std.specs.Prelude.{◌≡◌, ◌+◌, ◌^◌, ◌<◌, ◌≤◌, IfOk, IfErr, drop, length};
ghost use Rattle.ac_model.specs.Containers.{Grows, slots_of};
ghost use Rattle.ac_model.specs.Calls.{Same, both};
ghost use Rattle.ac_model.specs.Forms.{DoesBoth};
ghost use Rattle.ac_model.specs.Sequences as sequences;

use super::List;
use ac_base::{Fault, Rank};
use ac_chain::{calls, merge_all};
use ac_model::{allowed, as_fault};

impl<T: Rank> List<T> {
    /// Merge (A.18.3) of another list: each time the smaller of the two first elements, and this list's where neither is smaller.
    pub fn merge(&mut self, source: &mut List<T>) -> Result<(), Fault>
        ensures changed { DoesBoth Same (sequences.merge_call T.is_less) self.old source.old self.new source.new result }
        ensures slots { Grows result self.old self.new }
        ensures source { slots_of source.new ≡ slots_of source.old }
    {
        allowed(calls::refuses_merge(self, source))?;
        as_fault(merge_all(&mut self.chain, &mut source.chain))
    }
}
