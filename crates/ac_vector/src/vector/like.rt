//! A vector, to code that is written for any list or vector. Each call is the vector's own.
ghost use Rattle.std.specs.Prelude.{false, refl};

use super::Vector;
use ac_base::{Fault, Rank};
use ac_chain::{SequenceLike, VectorLike};
use ac_cursor::Cursor;

impl<T: Rank> SequenceLike for Vector<T> {
    type Element = T;

    ghost seen = { λ vector. vector };

    ghost names_move = { false };

    fn law(&self) {
        Vector::law(self);
    }

    fn live_nodes(&self) -> u64 {
        Vector::live_nodes(self)
    }

    #[inline(always)]
    fn length(&self) -> i64 {
        Vector::length(self)
    }

    fn is_empty(&self) -> bool {
        Vector::is_empty(self)
    }

    fn has_element(&self, c: Cursor) -> bool {
        Vector::has_element(self, c)
    }

    fn equal(&self, other: &Vector<T>) -> bool {
        Vector::equal(self, other)
    }

    fn equal_self(&self) -> bool {
        Vector::equal_self(self)
    }

    fn clear(&mut self) -> Result<(), Fault> {
        Vector::clear(self)
    }

    fn assign_self(&mut self) -> Result<(), Fault> {
        Vector::assign_self(self)
    }

    fn move_from_self(&mut self) -> Result<(), Fault> {
        Vector::move_from_self(self)
    }

    fn assign(&mut self, source: &Vector<T>) -> Result<(), Fault> {
        Vector::assign(self, source)
    }

    fn move_from(&mut self, source: &mut Vector<T>) -> Result<(), Fault> {
        Vector::move_from(self, source)
    }

    fn first(&self) -> Cursor {
        Vector::first(self)
    }

    fn last(&self) -> Cursor {
        Vector::last(self)
    }

    #[inline(always)]
    fn next(&self, c: Cursor) -> Result<Cursor, Fault> {
        Vector::next(self, c)
    }

    fn previous(&self, c: Cursor) -> Result<Cursor, Fault> {
        Vector::previous(self, c)
    }

    fn first_element(&self) -> Result<&T, Fault> {
        Vector::first_element(self)
    }

    fn last_element(&self) -> Result<&T, Fault> {
        Vector::last_element(self)
    }

    fn element(&self, c: Cursor) -> Result<&T, Fault> {
        Vector::element(self, c)
    }

    fn find(&self, e: &T, from: Cursor) -> Result<Cursor, Fault> {
        Vector::find(self, e, from)
    }

    fn reverse_find(&self, e: &T, from: Cursor) -> Result<Cursor, Fault> {
        Vector::reverse_find(self, e, from)
    }

    fn contains(&self, e: &T) -> bool {
        Vector::contains(self, e)
    }

    fn append(&mut self, e: T, n: i64) -> Result<(), Fault> {
        Vector::append(self, e, n)
    }

    fn prepend(&mut self, e: T, n: i64) -> Result<(), Fault> {
        Vector::prepend(self, e, n)
    }

    fn insert(&mut self, before: Cursor, e: T, n: i64) -> Result<(), Fault> {
        Vector::insert(self, before, e, n)
    }

    fn insert_pos(&mut self, before: Cursor, e: T, p: &mut Cursor, n: i64) -> Result<(), Fault> {
        Vector::insert_pos(self, before, e, p, n)
    }

    fn delete(&mut self, q: &mut Cursor, n: i64) -> Result<(), Fault> {
        Vector::delete(self, q, n)
    }

    fn delete_first(&mut self, n: i64) -> Result<(), Fault> {
        Vector::delete_first(self, n)
    }

    fn delete_last(&mut self, n: i64) -> Result<(), Fault> {
        Vector::delete_last(self, n)
    }

    fn replace_element(&mut self, c: Cursor, e: T) -> Result<(), Fault> {
        Vector::replace_element(self, c, e)
    }

    fn write(&mut self, c: Cursor, e: T) -> Result<(), Fault> {
        Vector::write(self, c, e)
    }

    fn swap(&mut self, first: Cursor, second: Cursor) -> Result<(), Fault> {
        Vector::swap(self, first, second)
    }

    fn reverse_elements(&mut self) -> Result<(), Fault> {
        Vector::reverse_elements(self)
    }

    fn sort(&mut self) -> Result<(), Fault> {
        Vector::sort(self)
    }

    fn is_sorted(&self) -> bool {
        Vector::is_sorted(self)
    }

    fn merge_self(&mut self) -> Result<(), Fault> {
        Vector::merge_self(self)
    }

    fn merge(&mut self, source: &mut Vector<T>) -> Result<(), Fault> {
        Vector::merge(self, source)
    }
}

impl<T: Rank> VectorLike for Vector<T> {
    ghost keeps_names = { refl };

    fn capacity(&self) -> i64 {
        Vector::capacity(self)
    }

    fn reserve_capacity(&mut self, n: i64) -> Result<(), Fault> {
        Vector::reserve_capacity(self, n)
    }

    fn set_length(&mut self, n: i64) -> Result<(), Fault> {
        Vector::set_length(self, n)
    }

    fn first_index(&self) -> i64 {
        Vector::first_index(self)
    }

    fn last_index(&self) -> i64 {
        Vector::last_index(self)
    }

    fn to_cursor(&self, index: i64) -> Cursor {
        Vector::to_cursor(self, index)
    }

    fn to_index(&self, c: Cursor) -> Result<i64, Fault> {
        Vector::to_index(self, c)
    }

    fn element_index(&self, index: i64) -> Result<&T, Fault> {
        Vector::element_index(self, index)
    }

    fn find_index(&self, e: &T, index: i64) -> Result<i64, Fault> {
        Vector::find_index(self, e, index)
    }

    fn reverse_find_index(&self, e: &T, index: i64) -> Result<i64, Fault> {
        Vector::reverse_find_index(self, e, index)
    }

    fn replace_index(&mut self, index: i64, e: T) -> Result<(), Fault> {
        Vector::replace_index(self, index, e)
    }

    fn swap_index(&mut self, first: i64, second: i64) -> Result<(), Fault> {
        Vector::swap_index(self, first, second)
    }

    fn insert_index(&mut self, index: i64, e: T, n: i64) -> Result<(), Fault> {
        Vector::insert_index(self, index, e, n)
    }

    fn delete_index(&mut self, index: i64, n: i64) -> Result<(), Fault> {
        Vector::delete_index(self, index, n)
    }

    fn insert_vector_index(&mut self, index: i64, source: &Vector<T>) -> Result<(), Fault> {
        Vector::insert_vector_index(self, index, source)
    }

    fn insert_vector(&mut self, before: Cursor, source: &Vector<T>) -> Result<(), Fault> {
        Vector::insert_vector(self, before, source)
    }

    fn insert_vector_pos(
        &mut self,
        before: Cursor,
        source: &Vector<T>,
        p: &mut Cursor,
    ) -> Result<(), Fault> {
        Vector::insert_vector_pos(self, before, source, p)
    }

    fn append_vector(&mut self, source: &Vector<T>) -> Result<(), Fault> {
        Vector::append_vector(self, source)
    }

    fn prepend_vector(&mut self, source: &Vector<T>) -> Result<(), Fault> {
        Vector::prepend_vector(self, source)
    }

    fn insert_vector_index_self(&mut self, index: i64) -> Result<(), Fault> {
        Vector::insert_vector_index_self(self, index)
    }

    fn insert_vector_self(&mut self, before: Cursor) -> Result<(), Fault> {
        Vector::insert_vector_self(self, before)
    }

    fn insert_vector_pos_self(&mut self, before: Cursor, p: &mut Cursor) -> Result<(), Fault> {
        Vector::insert_vector_pos_self(self, before, p)
    }

    fn append_vector_self(&mut self) -> Result<(), Fault> {
        Vector::append_vector_self(self)
    }

    fn prepend_vector_self(&mut self) -> Result<(), Fault> {
        Vector::prepend_vector_self(self)
    }
}
