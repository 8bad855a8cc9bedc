//! Lists and vectors to code that is written once for both: the calls that both have.
ghost use Rattle.std.specs.Prelude.{◌≡◌, Bool};
ghost use Rattle.ac_chain.specs.Rearranging.{reversing, sorting};
ghost use Rattle.ac_model.specs.Calls.{Lends, Marks, Same};
ghost use Rattle.ac_model.specs.Common as common;
ghost use Rattle.ac_model.specs.Containers.{Container, Grows, slots_of};
ghost use Rattle.ac_model.specs.Forms.{Does, DoesBoth, Looks, Sets, seen_by};
ghost use Rattle.ac_model.specs.Objects.{IsValid, length_of, plain};
ghost use Rattle.ac_model.specs.Sequences as sequences;

use ac_base::{Cursor, Fault, Rank};

/// A list or a vector, with all calls that both have.
pub trait SequenceLike {
    type Element: Rank;

    ghost seen: { Self → Container Self.Element };

    /// Whether elements take their names along in Reverse_Elements and Sort, as in a list. In a vector the names stay in place.
    ghost names_move: { Bool };

    /// What holds of every one, for proofs alone.
    fn law(&self)
        ensures { IsValid (plain (seen self.now).object) };

    /// How many elements have a slot.
    fn live_nodes(&self) -> u64
        ensures { result ≡ length_of (seen self.now).object };

    // What all kinds of rows have

    fn length(&self) -> i64
        ensures { result ≡ common.length_call (plain (seen self.now).object) };

    fn is_empty(&self) -> bool
        ensures { result ≡ common.is_empty_call (plain (seen self.now).object) };

    fn has_element(&self, c: Cursor) -> bool
        ensures { result ≡ common.has_element_call (plain (seen self.now).object) (seen_by (seen self.now) c) };

    fn equal(&self, other: &Self) -> bool
        ensures { result ≡ sequences.equal_call Self.Element.is_same (plain (seen self.now).object) (plain (seen other.now).object) };

    /// "=" with itself, in constant time.
    fn equal_self(&self) -> bool
        ensures { result ≡ sequences.equal_call Self.Element.is_same (plain (seen self.now).object) (plain (seen self.now).object) };

    fn clear(&mut self) -> Result<(), Fault>
        ensures changed { Does Same common.clear_call (seen self.old) (seen self.new) result }
        ensures slots { slots_of (seen self.new) ≡ slots_of (seen self.old) };

    fn assign_self(&mut self) -> Result<(), Fault>
        ensures changed { Does Same common.assign_self_call (seen self.old) (seen self.new) result }
        ensures same { self.new ≡ self.old };

    fn move_from_self(&mut self) -> Result<(), Fault>
        ensures changed { Does Same common.move_from_self_call (seen self.old) (seen self.new) result }
        ensures same { self.new ≡ self.old };

    fn assign(&mut self, source: &Self) -> Result<(), Fault>
        ensures changed { Does Same (λ o. common.assign_call o (plain (seen source.now).object)) (seen self.old) (seen self.new) result }
        ensures slots { Grows result (seen self.old) (seen self.new) };

    fn move_from(&mut self, source: &mut Self) -> Result<(), Fault>
        ensures changed { DoesBoth Same common.move_from_call (seen self.old) (seen source.old) (seen self.new) (seen source.new) result }
        ensures slots { Grows result (seen self.old) (seen self.new) }
        ensures source { slots_of (seen source.new) ≡ slots_of (seen source.old) };

    // Looks

    fn first(&self) -> Cursor
        ensures { Marks (seen self.now).object result (sequences.first_call (plain (seen self.now).object)) };

    fn last(&self) -> Cursor
        ensures { Marks (seen self.now).object result (sequences.last_call (plain (seen self.now).object)) };

    fn next(&self, c: Cursor) -> Result<Cursor, Fault>
        ensures { Looks (Marks (seen self.now).object) (λ o. sequences.next_call o (seen_by (seen self.now) c)) (seen self.now) result };

    fn previous(&self, c: Cursor) -> Result<Cursor, Fault>
        ensures { Looks (Marks (seen self.now).object) (λ o. sequences.previous_call o (seen_by (seen self.now) c))
            (seen self.now) result };

    fn first_element(&self) -> Result<&Self::Element, Fault>
        ensures { Looks Lends sequences.first_element_call (seen self.now) result };

    fn last_element(&self) -> Result<&Self::Element, Fault>
        ensures { Looks Lends sequences.last_element_call (seen self.now) result };

    fn element(&self, c: Cursor) -> Result<&Self::Element, Fault>
        ensures { Looks Lends (λ o. sequences.element_call o (seen_by (seen self.now) c)) (seen self.now) result };

    fn find(&self, e: &Self::Element, from: Cursor) -> Result<Cursor, Fault>
        ensures { Looks (Marks (seen self.now).object)
            (λ o. sequences.find_call Self.Element.is_same o e.now (seen_by (seen self.now) from)) (seen self.now) result };

    fn reverse_find(&self, e: &Self::Element, from: Cursor) -> Result<Cursor, Fault>
        ensures { Looks (Marks (seen self.now).object)
            (λ o. sequences.reverse_find_call Self.Element.is_same o e.now (seen_by (seen self.now) from)) (seen self.now) result };

    fn contains(&self, e: &Self::Element) -> bool
        ensures { result ≡ sequences.contains_call Self.Element.is_same (plain (seen self.now).object) e.now };

    // Elements that come and go

    fn append(&mut self, e: Self::Element, n: i64) -> Result<(), Fault>
        ensures changed { Does Same (λ o. sequences.append_call o e n) (seen self.old) (seen self.new) result }
        ensures slots { Grows result (seen self.old) (seen self.new) };

    fn prepend(&mut self, e: Self::Element, n: i64) -> Result<(), Fault>
        ensures changed { Does Same (λ o. sequences.prepend_call o e n) (seen self.old) (seen self.new) result }
        ensures slots { Grows result (seen self.old) (seen self.new) };

    fn insert(&mut self, before: Cursor, e: Self::Element, n: i64) -> Result<(), Fault>
        ensures changed { Does Same
            (λ o. sequences.insert_call o (seen_by (seen self.old) before) e n) (seen self.old) (seen self.new) result }
        ensures slots { Grows result (seen self.old) (seen self.new) };

    fn insert_pos(
        &mut self,
        before: Cursor,
        e: Self::Element,
        p: &mut Cursor,
        n: i64,
    ) -> Result<(), Fault>
        ensures changed { Sets (λ o. sequences.insert_pos_call o (seen_by (seen self.old) before) e n)
            (seen self.old) p.old (seen self.new) p.new result }
        ensures slots { Grows result (seen self.old) (seen self.new) };

    fn delete(&mut self, q: &mut Cursor, n: i64) -> Result<(), Fault>
        ensures changed { Sets
            (λ o. sequences.delete_call o (seen_by (seen self.old) q.old) n) (seen self.old) q.old (seen self.new) q.new result }
        ensures slots { slots_of (seen self.new) ≡ slots_of (seen self.old) };

    fn delete_first(&mut self, n: i64) -> Result<(), Fault>
        ensures changed { Does Same (λ o. sequences.delete_first_call o n) (seen self.old) (seen self.new) result }
        ensures slots { slots_of (seen self.new) ≡ slots_of (seen self.old) };

    fn delete_last(&mut self, n: i64) -> Result<(), Fault>
        ensures changed { Does Same (λ o. sequences.delete_last_call o n) (seen self.old) (seen self.new) result }
        ensures slots { slots_of (seen self.new) ≡ slots_of (seen self.old) };

    // Other values, and another order

    fn replace_element(&mut self, c: Cursor, e: Self::Element) -> Result<(), Fault>
        ensures changed { Does Same
            (λ o. sequences.replace_element_call o (seen_by (seen self.old) c) e) (seen self.old) (seen self.new) result }
        ensures spare { (seen self.new).spare ≡ (seen self.old).spare };

    /// A write through a name that a view or a loop gives for the element.
    fn write(&mut self, c: Cursor, e: Self::Element) -> Result<(), Fault>
        ensures changed { Does Same (λ o. sequences.write_call o (seen_by (seen self.old) c) e) (seen self.old) (seen self.new) result }
        ensures spare { (seen self.new).spare ≡ (seen self.old).spare };

    fn swap(&mut self, first: Cursor, second: Cursor) -> Result<(), Fault>
        ensures changed { Does Same (λ o. sequences.swap_call o (seen_by (seen self.old) first) (seen_by (seen self.old) second))
            (seen self.old) (seen self.new) result }
        ensures spare { (seen self.new).spare ≡ (seen self.old).spare };

    fn reverse_elements(&mut self) -> Result<(), Fault>
        ensures changed { Does Same (reversing names_move) (seen self.old) (seen self.new) result }
        ensures spare { (seen self.new).spare ≡ (seen self.old).spare };

    fn sort(&mut self) -> Result<(), Fault>
        ensures changed { Does Same (sorting names_move Self.Element.is_less) (seen self.old) (seen self.new) result }
        ensures spare { (seen self.new).spare ≡ (seen self.old).spare };

    fn is_sorted(&self) -> bool
        ensures { result ≡ sequences.is_sorted_call Self.Element.is_less (plain (seen self.now).object) };

    fn merge_self(&mut self) -> Result<(), Fault>
        ensures changed { Does Same sequences.merge_self_call (seen self.old) (seen self.new) result }
        ensures same { self.new ≡ self.old };

    fn merge(&mut self, source: &mut Self) -> Result<(), Fault>
        ensures changed { DoesBoth Same (sequences.merge_call Self.Element.is_less) (seen self.old) (seen source.old)
            (seen self.new) (seen source.new) result }
        ensures slots { Grows result (seen self.old) (seen self.new) }
        ensures source { slots_of (seen source.new) ≡ slots_of (seen source.old) };
}
