//! Elements that move into another list, under new names.
ghost use Rattle.std.specs.Prelude.{◌≡◌, ◌+◌, ◌^◌, ◌<◌, ◌≤◌, IfOk, IfErr, OnErr, length, max};
ghost use Rattle.ac_model.specs.Forms.{DoesBoth, RefusesBoth, SetsBoth, seen_by};
ghost use Rattle.ac_model.specs.Containers.{Grows, slots_of};
ghost use Rattle.ac_model.specs.Calls.{Same, Marks};
ghost use Rattle.ac_model.specs.Forms.{DoesBoth, RefusesBoth, SetsBoth, seen_by};
ghost use Rattle.ac_model.specs.Common as common;
ghost use Rattle.ac_model.specs.Lists as lists;

use super::List;
use ac_base::{Fault, Reason};
use ac_chain::{calls, move_all, move_before, move_one};
use ac_cursor::{Class, Cursor, first_reason};
use ac_model::{allowed, as_fault, cursor_of, name_in, place_in, room};

impl<T: Drop> List<T> {
    /// Move (A.18.3): the source's elements, under new names, in place of those that were here.
    pub fn move_from(&mut self, source: &mut List<T>) -> Result<(), Fault>
        ensures changed { DoesBoth Same common.move_from_call self.old source.old self.new source.new result }
        ensures slots { Grows result self.old self.new }
        ensures source { slots_of source.new ≡ slots_of source.old }
    {
        allowed(calls::refuses_move(self, source))?;
        as_fault(move_all(&mut self.chain, &mut source.chain))
    }
}

impl<T> List<T> {
    /// Splice (A.18.3) of another list: its elements go before the cursor, where No_Element is the end.
    pub fn splice(&mut self, b: Cursor, source: &mut List<T>) -> Result<(), Fault>
        ensures changed { DoesBoth Same (λ o s. lists.splice_call o (seen_by self.old b) s) self.old source.old self.new source.new result }
        ensures slots { Grows result self.old self.new }
        ensures source { slots_of source.new ≡ slots_of source.old }
    {
        allowed(self.refuses_splice_of_all(b, source))?;
        as_fault(move_before(&mut self.chain, place_in(b), &mut source.chain))
    }

    /// Why a splice of another list is refused.
    fn refuses_splice_of_all(&self, b: Cursor, source: &List<T>) -> Option<Reason>
        ensures { RefusesBoth (λ o s. lists.splice_call o (seen_by self.now b) s) self.now source.now result }
    {
        let more = source.chain.len();
        let length = self.chain.len() + more;
        first_reason(&[
            self.guards.forbids(Class::Cursors),
            source.guards.forbids(Class::Cursors),
            calls::may(self, b),
            room(self.limit, self.chain.next_serial(), length, more),
        ])
    }

    /// Splice (A.18.3) of one element of another list: it goes before the cursor, and the variable is set to it.
    pub fn splice_one(
        &mut self,
        b: Cursor,
        source: &mut List<T>,
        q: &mut Cursor,
    ) -> Result<(), Fault>
        ensures changed { SetsBoth (λ o s. lists.splice_one_call o (seen_by self.old b) s (seen_by source.old q.old))
            self.old source.old q.old self.new source.new q.new result }
        ensures slots { Grows result self.old self.new }
        ensures source { slots_of source.new ≡ slots_of source.old }
    {
        *q = self.take_one(b, source, *q)?;
        Ok(())
    }

    /// As `splice_one`, with the element's new cursor as the answer.
    fn take_one(&mut self, b: Cursor, source: &mut List<T>, q: Cursor) -> Result<Cursor, Fault>
        ensures changed { DoesBoth (Marks self.new.object) (λ o s. lists.splice_one_call o (seen_by self.old b) s (seen_by source.old q))
            self.old source.old self.new source.new result }
        ensures slots { Grows result self.old self.new }
        ensures source { slots_of source.new ≡ slots_of source.old }
    {
        allowed(self.refuses_splice_of_one(b, source, q))?;
        let name = move_one(&mut self.chain, place_in(b), &mut source.chain, name_in(q));
        cursor_of(self.guards.number(), name)
    }

    /// Why a splice of one element of another list is refused.
    fn refuses_splice_of_one(&self, b: Cursor, source: &List<T>, q: Cursor) -> Option<Reason>
        ensures { RefusesBoth (λ o s. lists.splice_one_call o (seen_by self.now b) s (seen_by source.now q)) self.now source.now result }
    {
        let length = self.chain.len() + 1;
        first_reason(&[
            self.guards.forbids(Class::Cursors),
            source.guards.forbids(Class::Cursors),
            calls::may(self, b),
            calls::needs(source, q),
            room(self.limit, self.chain.next_serial(), length, 1),
        ])
    }
}
