//! Elements that move within a list with their names.
ghost use Rattle.std.specs.Prelude.{◌≡◌, ◌∷◌, []};
ghost use Rattle.ac_model.specs.Cursors.{mark};
ghost use Rattle.ac_base.specs.FirstReason.{first_reason};
ghost use Rattle.ac_model.specs.Calls.{Same};
ghost use Rattle.ac_model.specs.Forms.{Does, Refuses, Sets, seen_by};
ghost use Rattle.ac_model.specs.Lists as lists;

use super::List;
use ac_base::{Fault, Reason};
use ac_chain::calls;
use ac_cursor::{Class, Cursor, first_reason};
use ac_model::{allowed, name_in, place_in};

impl<T> List<T> {
    /// Swap_Links (A.18.3): the two elements change places, and each takes its name with it.
    pub fn swap_links(&mut self, first: Cursor, second: Cursor) -> Result<(), Fault>
        ensures changed { Does Same (λ o. lists.swap_links_call o (seen_by self.old first) (seen_by self.old second))
            self.old self.new result }
        ensures spare { self.new.spare ≡ self.old.spare }
    {
        allowed(self.refuses_swap_links(first, second))?;
        self.chain.swap_links(name_in(first), name_in(second));
        Ok(())
    }

    /// Splice (A.18.3) of an element of the list itself: it goes before the cursor, where No_Element is the end.
    pub fn splice_within(&mut self, b: Cursor, c: Cursor) -> Result<(), Fault>
        ensures kept { mark self.new.object c ≡ mark self.old.object c }
        ensures changed { Does Same (λ o. lists.splice_within_call o (seen_by self.old b) (seen_by self.old c)) self.old self.new result }
        ensures spare { self.new.spare ≡ self.old.spare }
    {
        allowed(self.refuses_splice(b, c))?;
        self.chain.move_before(place_in(b), name_in(c));
        Ok(())
    }

    /// Splice (A.18.3) of a list into itself: nothing changes.
    pub fn splice_self(&mut self, b: Cursor) -> Result<(), Fault>
        ensures changed { Does Same (λ o. lists.splice_self_call o (seen_by self.old b)) self.old self.new result }
        ensures same { self.new ≡ self.old }
    {
        allowed(first_reason(&[self.guards.forbids(Class::Cursors), calls::may(self, b)]))
    }

    /// As `splice_within`, with a variable for the element, which keeps its value.
    pub fn splice_one_self(&mut self, b: Cursor, q: &mut Cursor) -> Result<(), Fault>
        ensures changed { Sets (λ o. lists.splice_one_self_call o (seen_by self.old b) (seen_by self.old q.old))
            self.old q.old self.new q.new result }
        ensures spare { self.new.spare ≡ self.old.spare }
        ensures same { q.new ≡ q.old }
    {
        self.splice_within(b, *q)
    }

    /// Why an exchange of links is refused.
    fn refuses_swap_links(&self, first: Cursor, second: Cursor) -> Option<Reason>
        ensures { Refuses (λ o. lists.swap_links_call o (seen_by self.now first) (seen_by self.now second)) self.now result }
    {
        first_reason(&[
            self.guards.forbids(Class::Cursors),
            calls::needs(self, first),
            calls::needs(self, second),
        ])
    }

    /// Why a splice within the list is refused.
    fn refuses_splice(&self, b: Cursor, c: Cursor) -> Option<Reason>
        ensures { Refuses (λ o. lists.splice_within_call o (seen_by self.now b) (seen_by self.now c)) self.now result }
    {
        first_reason(&[
            self.guards.forbids(Class::Cursors),
            calls::may(self, b),
            calls::needs(self, c),
        ])
    }
}
