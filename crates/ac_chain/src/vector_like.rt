//! Vectors to code that is written for any type of them: the calls by index, of the Capacity, and of another vector's elements.
ghost use Rattle.std.specs.Prelude.{◌≡◌, false, OnErr};
ghost use Rattle.ac_model.specs.Calls.{Lends, Marks, Same};
ghost use Rattle.ac_model.specs.Common as common;
ghost use Rattle.ac_model.specs.Containers.{Grows, slots_of};
ghost use Rattle.ac_model.specs.Forms.{Does, Looks, Sets, seen_by};
ghost use Rattle.ac_model.specs.Objects.{plain};
ghost use Rattle.ac_model.specs.Vectors as vectors;

use crate::sequence_like::SequenceLike;
use ac_base::{Cursor, Fault};

/// A vector, with the calls of vectors alone.
pub trait VectorLike: SequenceLike {
    // The Capacity and the length

    fn capacity(&self) -> i64
        ensures { result ≡ common.capacity_call (plain (Self.seen self.now).object) };

    fn reserve_capacity(&mut self, n: i64) -> Result<(), Fault>
        ensures changed { Does Same (λ o. common.reserve_capacity_call o n) (Self.seen self.old) (Self.seen self.new) result }
        ensures err { OnErr result (Self.seen self.new ≡ Self.seen self.old) };

    fn set_length(&mut self, n: i64) -> Result<(), Fault>
        ensures changed { Does Same
            (λ o. vectors.set_length_call o Self.Element.blank_element n) (Self.seen self.old) (Self.seen self.new) result }
        ensures slots { Grows result (Self.seen self.old) (Self.seen self.new) };

    // Elements by an index

    fn first_index(&self) -> i64
        ensures { result ≡ vectors.first_index_call (plain (Self.seen self.now).object) };

    fn last_index(&self) -> i64
        ensures { result ≡ vectors.last_index_call (plain (Self.seen self.now).object) };

    fn to_cursor(&self, index: i64) -> Cursor
        ensures { Marks (Self.seen self.now).object result (vectors.to_cursor_call (plain (Self.seen self.now).object) index) };

    fn to_index(&self, c: Cursor) -> Result<i64, Fault>
        ensures { Looks Same (λ o. vectors.to_index_call o (seen_by (Self.seen self.now) c)) (Self.seen self.now) result };

    fn element_index(&self, index: i64) -> Result<&Self::Element, Fault>
        ensures { Looks Lends (λ o. vectors.element_index_call o index) (Self.seen self.now) result };

    fn find_index(&self, e: &Self::Element, index: i64) -> Result<i64, Fault>
        ensures { Looks Same (λ o. vectors.find_index_call Self.Element.is_same o e.now index) (Self.seen self.now) result };

    fn reverse_find_index(&self, e: &Self::Element, index: i64) -> Result<i64, Fault>
        ensures { Looks Same (λ o. vectors.reverse_find_index_call Self.Element.is_same o e.now index) (Self.seen self.now) result };

    fn replace_index(&mut self, index: i64, e: Self::Element) -> Result<(), Fault>
        ensures changed { Does Same (λ o. vectors.replace_index_call o index e) (Self.seen self.old) (Self.seen self.new) result }
        ensures spare { (Self.seen self.new).spare ≡ (Self.seen self.old).spare };

    fn swap_index(&mut self, first: i64, second: i64) -> Result<(), Fault>
        ensures changed { Does Same (λ o. vectors.swap_index_call o first second) (Self.seen self.old) (Self.seen self.new) result }
        ensures spare { (Self.seen self.new).spare ≡ (Self.seen self.old).spare };

    fn insert_index(&mut self, index: i64, e: Self::Element, n: i64) -> Result<(), Fault>
        ensures changed { Does Same (λ o. vectors.insert_index_call o index e n) (Self.seen self.old) (Self.seen self.new) result }
        ensures slots { Grows result (Self.seen self.old) (Self.seen self.new) };

    fn delete_index(&mut self, index: i64, n: i64) -> Result<(), Fault>
        ensures changed { Does Same (λ o. vectors.delete_index_call o index n) (Self.seen self.old) (Self.seen self.new) result }
        ensures slots { slots_of (Self.seen self.new) ≡ slots_of (Self.seen self.old) };

    // Copies of another vector's elements

    fn insert_vector_index(&mut self, index: i64, source: &Self) -> Result<(), Fault>
        ensures changed { Does Same (λ o. vectors.insert_vector_index_call o index (plain (Self.seen source.now).object))
            (Self.seen self.old) (Self.seen self.new) result }
        ensures slots { Grows result (Self.seen self.old) (Self.seen self.new) };

    fn insert_vector(&mut self, before: Cursor, source: &Self) -> Result<(), Fault>
        ensures changed { Does Same
            (λ o. vectors.insert_vector_call o (seen_by (Self.seen self.old) before) (plain (Self.seen source.now).object))
            (Self.seen self.old) (Self.seen self.new) result }
        ensures slots { Grows result (Self.seen self.old) (Self.seen self.new) };

    fn insert_vector_pos(
        &mut self,
        before: Cursor,
        source: &Self,
        p: &mut Cursor,
    ) -> Result<(), Fault>
        ensures changed { Sets
            (λ o. vectors.insert_vector_pos_call o (seen_by (Self.seen self.old) before) (plain (Self.seen source.now).object))
            (Self.seen self.old) p.old (Self.seen self.new) p.new result }
        ensures slots { Grows result (Self.seen self.old) (Self.seen self.new) };

    fn append_vector(&mut self, source: &Self) -> Result<(), Fault>
        ensures changed { Does Same (λ o. vectors.append_vector_call o (plain (Self.seen source.now).object))
            (Self.seen self.old) (Self.seen self.new) result }
        ensures slots { Grows result (Self.seen self.old) (Self.seen self.new) };

    fn prepend_vector(&mut self, source: &Self) -> Result<(), Fault>
        ensures changed { Does Same (λ o. vectors.prepend_vector_call o (plain (Self.seen source.now).object))
            (Self.seen self.old) (Self.seen self.new) result }
        ensures slots { Grows result (Self.seen self.old) (Self.seen self.new) };

    // And of the vector's own

    fn insert_vector_index_self(&mut self, index: i64) -> Result<(), Fault>
        ensures changed { Does Same (λ o. vectors.insert_vector_index_call o index o) (Self.seen self.old) (Self.seen self.new) result }
        ensures slots { Grows result (Self.seen self.old) (Self.seen self.new) };

    fn insert_vector_self(&mut self, before: Cursor) -> Result<(), Fault>
        ensures changed { Does Same (λ o. vectors.insert_vector_call o (seen_by (Self.seen self.old) before) o)
            (Self.seen self.old) (Self.seen self.new) result }
        ensures slots { Grows result (Self.seen self.old) (Self.seen self.new) };

    fn insert_vector_pos_self(&mut self, before: Cursor, p: &mut Cursor) -> Result<(), Fault>
        ensures changed { Sets (λ o. vectors.insert_vector_pos_call o (seen_by (Self.seen self.old) before) o)
            (Self.seen self.old) p.old (Self.seen self.new) p.new result }
        ensures slots { Grows result (Self.seen self.old) (Self.seen self.new) };

    fn append_vector_self(&mut self) -> Result<(), Fault>
        ensures changed { Does Same (λ o. vectors.append_vector_call o o) (Self.seen self.old) (Self.seen self.new) result }
        ensures slots { Grows result (Self.seen self.old) (Self.seen self.new) };

    fn prepend_vector_self(&mut self) -> Result<(), Fault>
        ensures changed { Does Same (λ o. vectors.prepend_vector_call o o) (Self.seen self.old) (Self.seen self.new) result }
        ensures slots { Grows result (Self.seen self.old) (Self.seen self.new) };

    ghost keeps_names: { Self.SequenceLike.names_move ≡ false };
}
