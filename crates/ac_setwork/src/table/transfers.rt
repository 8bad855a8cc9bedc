//! Elements that move into another object, under new names.
ghost use Rattle.std.specs.Prelude.{◌≡◌};
ghost use Rattle.ac_model.specs.Calls.{Same};
ghost use Rattle.ac_model.specs.Common as common;
ghost use Rattle.ac_model.specs.Containers.{Grows, slots_of};
ghost use Rattle.ac_model.specs.Forms.{DoesBoth, RefusesBoth};

use super::Table;
use crate::index::Index;
use crate::refilling::move_all;
use ac_base::{Fault, Reason};
use ac_cursor::{Class, first_reason};
use ac_model::{allowed, as_fault, room};

impl<I: Index> Table<I> {
    /// Move (A.18.4, A.18.7): the source's elements, under new names, in place of those that were here.
    pub fn move_from(&mut self, source: &mut Table<I>) -> Result<(), Fault>
        ensures changed { DoesBoth Same common.move_from_call self.old source.old self.new source.new result }
        ensures slots { Grows result self.old self.new }
        ensures source { slots_of source.new ≡ slots_of source.old }
    {
        allowed(self.refuses_move(source))?;
        as_fault(move_all(&mut self.index, self.limit, &mut source.index))
    }

    /// Why a move is refused.
    fn refuses_move(&self, source: &Table<I>) -> Option<Reason>
        ensures { RefusesBoth common.move_from_call self.now source.now result }
    {
        let more = source.index.len();
        first_reason(&[
            self.guards.forbids(Class::Cursors),
            source.guards.forbids(Class::Cursors),
            room(self.limit, self.index.next_serial(), more, more),
        ])
    }
}
