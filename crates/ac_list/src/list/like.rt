//! A list, to code that is written for any list or vector. Each call is the list's own.
ghost use Rattle.std.specs.Prelude.{true, refl};

use super::List;
use ac_base::{Fault, Rank};
use ac_chain::{ListLike, SequenceLike};
use ac_cursor::Cursor;

impl<T: Rank> SequenceLike for List<T> {
    type Element = T;

    ghost seen = { λ list. list };

    ghost names_move = { true };

    fn law(&self) {
        List::law(self);
    }

    fn live_nodes(&self) -> u64 {
        List::live_nodes(self)
    }

    #[inline(always)]
    fn length(&self) -> i64 {
        List::length(self)
    }

    fn is_empty(&self) -> bool {
        List::is_empty(self)
    }

    fn has_element(&self, c: Cursor) -> bool {
        List::has_element(self, c)
    }

    fn equal(&self, other: &List<T>) -> bool {
        List::equal(self, other)
    }

    fn equal_self(&self) -> bool {
        List::equal_self(self)
    }

    fn clear(&mut self) -> Result<(), Fault> {
        List::clear(self)
    }

    fn assign_self(&mut self) -> Result<(), Fault> {
        List::assign_self(self)
    }

    fn move_from_self(&mut self) -> Result<(), Fault> {
        List::move_from_self(self)
    }

    fn assign(&mut self, source: &List<T>) -> Result<(), Fault> {
        List::assign(self, source)
    }

    fn move_from(&mut self, source: &mut List<T>) -> Result<(), Fault> {
        List::move_from(self, source)
    }

    fn first(&self) -> Cursor {
        List::first(self)
    }

    fn last(&self) -> Cursor {
        List::last(self)
    }

    #[inline(always)]
    fn next(&self, c: Cursor) -> Result<Cursor, Fault> {
        List::next(self, c)
    }

    fn previous(&self, c: Cursor) -> Result<Cursor, Fault> {
        List::previous(self, c)
    }

    fn first_element(&self) -> Result<&T, Fault> {
        List::first_element(self)
    }

    fn last_element(&self) -> Result<&T, Fault> {
        List::last_element(self)
    }

    fn element(&self, c: Cursor) -> Result<&T, Fault> {
        List::element(self, c)
    }

    fn find(&self, e: &T, from: Cursor) -> Result<Cursor, Fault> {
        List::find(self, e, from)
    }

    fn reverse_find(&self, e: &T, from: Cursor) -> Result<Cursor, Fault> {
        List::reverse_find(self, e, from)
    }

    fn contains(&self, e: &T) -> bool {
        List::contains(self, e)
    }

    fn append(&mut self, e: T, n: i64) -> Result<(), Fault> {
        List::append(self, e, n)
    }

    fn prepend(&mut self, e: T, n: i64) -> Result<(), Fault> {
        List::prepend(self, e, n)
    }

    fn insert(&mut self, before: Cursor, e: T, n: i64) -> Result<(), Fault> {
        List::insert(self, before, e, n)
    }

    fn insert_pos(&mut self, before: Cursor, e: T, p: &mut Cursor, n: i64) -> Result<(), Fault> {
        List::insert_pos(self, before, e, p, n)
    }

    fn delete(&mut self, q: &mut Cursor, n: i64) -> Result<(), Fault> {
        List::delete(self, q, n)
    }

    fn delete_first(&mut self, n: i64) -> Result<(), Fault> {
        List::delete_first(self, n)
    }

    fn delete_last(&mut self, n: i64) -> Result<(), Fault> {
        List::delete_last(self, n)
    }

    fn replace_element(&mut self, c: Cursor, e: T) -> Result<(), Fault> {
        List::replace_element(self, c, e)
    }

    fn write(&mut self, c: Cursor, e: T) -> Result<(), Fault> {
        List::write(self, c, e)
    }

    fn swap(&mut self, first: Cursor, second: Cursor) -> Result<(), Fault> {
        List::swap(self, first, second)
    }

    fn reverse_elements(&mut self) -> Result<(), Fault> {
        List::reverse_elements(self)
    }

    fn sort(&mut self) -> Result<(), Fault> {
        List::sort(self)
    }

    fn is_sorted(&self) -> bool {
        List::is_sorted(self)
    }

    fn merge_self(&mut self) -> Result<(), Fault> {
        List::merge_self(self)
    }

    fn merge(&mut self, source: &mut List<T>) -> Result<(), Fault> {
        List::merge(self, source)
    }
}

impl<T: Rank> ListLike for List<T> {
    ghost moves_names = { refl };

    fn swap_links(&mut self, first: Cursor, second: Cursor) -> Result<(), Fault> {
        List::swap_links(self, first, second)
    }

    fn splice_within(&mut self, before: Cursor, c: Cursor) -> Result<(), Fault> {
        List::splice_within(self, before, c)
    }

    fn splice_self(&mut self, before: Cursor) -> Result<(), Fault> {
        List::splice_self(self, before)
    }

    fn splice_one_self(&mut self, before: Cursor, q: &mut Cursor) -> Result<(), Fault> {
        List::splice_one_self(self, before, q)
    }

    fn splice(&mut self, before: Cursor, source: &mut List<T>) -> Result<(), Fault> {
        List::splice(self, before, source)
    }

    fn splice_one(
        &mut self,
        before: Cursor,
        source: &mut List<T>,
        q: &mut Cursor,
    ) -> Result<(), Fault> {
        List::splice_one(self, before, source, q)
    }
}
