//! Another element in a node that stays.
ghost use Rattle.std.specs.Prelude.{◌≡◌, ◌∷◌, [], None, Some};
ghost use Rattle.ac_base.specs.FirstReason.{first_reason};
ghost use Rattle.ac_model.specs.Calls.{IsAfter, Same};
ghost use Rattle.ac_model.specs.Forms.{Does};
ghost use Rattle.ac_model.specs.Letters.{name_of, tampers_elements};
ghost use Rattle.ac_model.specs.Objects.{plain, with_rows};
ghost use Rattle.ac_model.specs.Trees as trees;
ghost use Rattle.ac_chain.specs.TreeCursors.{seen_by};

use super::Tree;
use ac_base::{Class, Cursor, Fault, Reason, first_reason};
use ac_model::{allowed, name_in};

impl<T> Tree<T> {
    fn refuses_replacement(&self, c: Cursor) -> Option<Reason>
        ensures { result ≡ first_reason (tampers_elements (plain self.now.object)
            ∷ trees.needs_element (plain self.now.object) (seen_by self.now c) ∷ []) }
    {
        first_reason(&[self.guards.forbids(Class::Elements), self.needs_element(c)])
    }

    fn refuses_swap(&self, first: Cursor, second: Cursor) -> Option<Reason>
        ensures { result ≡ first_reason (tampers_elements (plain self.now.object)
            ∷ trees.needs_element (plain self.now.object) (seen_by self.now first)
            ∷ trees.needs_element (plain self.now.object) (seen_by self.now second) ∷ []) }
    {
        first_reason(&[
            self.guards.forbids(Class::Elements),
            self.needs_element(first),
            self.needs_element(second),
        ])
    }

    /// Swap (A.18.10): the two elements change places, and each node keeps its name and its links.
    pub fn swap(&mut self, first: Cursor, second: Cursor) -> Result<(), Fault>
        ensures changed { Does Same (λ o. trees.swap_call o (seen_by self.old first) (seen_by self.old second)) self.old self.new result }
        ensures spare { self.new.spare ≡ self.old.spare }
    {
        allowed(self.refuses_swap(first, second))?;
        self.exchange(first, second);
        Ok(())
    }

    fn exchange(&mut self, first: Cursor, second: Cursor)
        requires first { trees.needs_element (plain self.old.object) (seen_by self.old first) ≡ None }
        requires second { trees.needs_element (plain self.old.object) (seen_by self.old second) ≡ None }
        ensures written { IsAfter self.old.object self.new.object
            (trees.swap_call (plain self.old.object) (seen_by self.old first) (seen_by self.old second)).after }
        ensures spare { self.new.spare ≡ self.old.spare }
    {
        self.links.exchange(name_in(first), name_in(second));
    }
}

impl<T: Drop> Tree<T> {
    /// Replace_Element (A.18.10).
    pub fn replace_element(&mut self, c: Cursor, e: T) -> Result<(), Fault>
        ensures changed { Does Same (λ o. trees.replace_element_call o (seen_by self.old c) e) self.old self.new result }
        ensures spare { self.new.spare ≡ self.old.spare }
    {
        allowed(self.refuses_replacement(c))?;
        self.set_value(c, e);
        Ok(())
    }

    /// A write through a name that a view or a loop gives for the element (A.18.10): no tampering check.
    pub fn write(&mut self, c: Cursor, e: T) -> Result<(), Fault>
        ensures changed { Does Same (λ o. trees.write_call o (seen_by self.old c) e) self.old self.new result }
        ensures spare { self.new.spare ≡ self.old.spare }
    {
        allowed(self.needs_element(c))?;
        self.set_value(c, e);
        Ok(())
    }

    fn set_value(&mut self, c: Cursor, e: T)
        requires { trees.needs_element (plain self.old.object) (seen_by self.old c) ≡ None }
        ensures written { IsAfter self.old.object self.new.object
            (with_rows (plain self.old.object) (trees.with_element (plain self.old.object).rows (name_of (seen_by self.old c)) (Some e))) }
        ensures spare { self.new.spare ≡ self.old.spare }
    {
        self.links.set_value(name_in(c), e);
    }
}
