//! Counted searches.
ghost use Rattle.std.specs.Prelude.{◌≡◌};
ghost use Rattle.ac_model.specs.Objects.{plain, length_of};
ghost use Rattle.ac_model.specs.Calls.{Marks};
ghost use Rattle.ac_model.specs.Keyed as keyed;

use super::Table;
use crate::ordered::Ordered;
use crate::searched::Searched;
use ac_base::Steps;
use ac_cursor::Cursor;
use std::sync::ledger::Ledger;

impl<I: Searched> Table<I> {
    /// Find (A.18.4, A.18.7).
    pub fn find_counted<L: Ledger>(&self, key: &I::Key, steps: &mut Steps<L>) -> Cursor
        ensures found { Marks self.now.object result (keyed.find_call (I.matches key.now) (plain self.now.object)) }
        ensures few { I.few (length_of self.now.object) steps.old steps.new }
    {
        self.cursor_at(self.index.seek(key, steps))
    }

    /// Contains (A.18.4, A.18.7).
    pub fn contains_counted<L: Ledger>(&self, key: &I::Key, steps: &mut Steps<L>) -> bool
        ensures found { result ≡ keyed.contains_call (I.matches key.now) (plain self.now.object) }
        ensures few { I.few (length_of self.now.object) steps.old steps.new }
    {
        self.index.seek(key, steps).is_some()
    }
}

impl<I: Ordered> Table<I> {
    /// Floor (A.18.6, A.18.9): the last element that isn't greater.
    pub fn floor<L: Ledger>(&self, key: &I::Key, steps: &mut Steps<L>) -> Cursor
        ensures found { Marks self.now.object result (keyed.floor_call (I.is_above key.now) (plain self.now.object)) }
        ensures few { I.few (length_of self.now.object) steps.old steps.new }
    {
        self.cursor_at(self.index.floor(key, steps))
    }

    /// Ceiling (A.18.6, A.18.9): the first element that isn't less.
    pub fn ceiling<L: Ledger>(&self, key: &I::Key, steps: &mut Steps<L>) -> Cursor
        ensures found { Marks self.now.object result (keyed.ceiling_call (I.is_below key.now) (plain self.now.object)) }
        ensures few { I.few (length_of self.now.object) steps.old steps.new }
    {
        self.cursor_at(self.index.ceiling(key, steps))
    }
}
