//! Examples of vector calls.
ghost use Rattle.std.specs.Prelude.{◌≡◌, ◌∷◌, [], ℕ, nat_lt, nat_eq, pos, negsuc, true, false, None, Some};
ghost use Rattle.ac_base.specs.declared.reason.Reason.TheVariants.{CursorTampering, ElementTampering, DeadCursor};
ghost use Rattle.ac_base.specs.declared.reason.Reason.TheVariants.{IndexRange, LengthRange, CapacityFull};
ghost use Rattle.ac_base.specs.Rows.{row};
ghost use Rattle.ac_model.specs.Objects.{contents};
ghost use Rattle.ac_model.specs.Letters.{no_mark, mark_at, in_range};
ghost use Rattle.ac_model.specs.Common as common;
ghost use Rattle.ac_model.specs.Sequences as sequence;
ghost use Rattle.ac_model.specs.Vectors as vector;
ghost use Rattle.ac_model.specs.Examples.{vector_of, bounded_vector_of, guarded, with_next};

/// A loop over cursors lets an element be replaced, and a loop over elements refuses it, but for the write through its name.
pub fn replaced_in_loops()
    ensures over_cursors { let c = sequence.replace_element_call (guarded 1 0 (vector_of 1 (8 ∷ []))) (mark_at 1 1) 9 in
        (c.reason ≡ None) × (c.after.rows ≡ row 1 9 ∷ []) }
    ensures over_elements { (vector.replace_index_call (guarded 1 1 (vector_of 1 (9 ∷ []))) (pos 1) 4).reason ≡ Some ElementTampering }
    ensures appended { (sequence.append_call (guarded 1 1 (vector_of 1 (9 ∷ []))) 4 (pos 1)).reason ≡ Some CursorTampering }
    ensures written { let c = sequence.write_call (guarded 1 1 (vector_of 1 (9 ∷ []))) (mark_at 1 1) 6 in
        (c.reason ≡ None) × (contents c.after ≡ 6 ∷ []) }
{}

/// A deletion by an index goes at most one past the last, and takes no more than what is there.
#[tactic(auto, unfolding(ac_base::specs::Growth::pow8))]
pub fn deleted_by_index()
    ensures past_the_last { let c = vector.delete_index_call (vector_of 1 (1 ∷ 2 ∷ 2 ∷ [])) (pos 4) (pos 5) in
        (c.reason ≡ None) × (contents c.after ≡ 1 ∷ 2 ∷ 2 ∷ []) }
    ensures beyond { (vector.delete_index_call (vector_of 1 (1 ∷ 2 ∷ 2 ∷ [])) (pos 5) (pos 0)).reason ≡ Some IndexRange }
    ensures to_the_end { contents (vector.delete_index_call (vector_of 1 (1 ∷ 2 ∷ 2 ∷ [])) (pos 2) (pos 9)).after ≡ 1 ∷ [] }
    ensures then_outside { let left = (vector.delete_index_call (vector_of 1 (1 ∷ 2 ∷ 2 ∷ [])) (pos 2) (pos 9)).after in
        ((vector.element_index_call left (pos 2)).reason ≡ Some IndexRange)
        × (vector.last_index_call left ≡ pos 1)
        × (common.capacity_call left ≡ pos 8) }
{}

/// A cursor follows its element through insertions, and an exchange of values leaves it in place.
pub fn followed_by_a_cursor()
    ensures found { vector.to_cursor_call (vector_of 1 (10 ∷ 20 ∷ [])) (pos 2) ≡ mark_at 1 2 }
    ensures inserted { let c = vector.insert_index_call (vector_of 1 (10 ∷ 20 ∷ [])) (pos 1) 5 (pos 1) in
        ((sequence.element_call c.after (mark_at 1 2)).answer ≡ Some 20)
        × ((vector.to_index_call c.after (mark_at 1 2)).answer ≡ pos 3) }
    ensures exchanged { let o = (vector.insert_index_call (vector_of 1 (10 ∷ 20 ∷ [])) (pos 1) 5 (pos 1)).after in
        (sequence.element_call (vector.swap_index_call o (pos 1) (pos 3)).after (mark_at 1 2)).answer ≡ Some 5 }
{}

/// A bounded vector refuses what is past its limit, which is its Capacity.
pub fn bounded()
    ensures full { let c = sequence.append_call (bounded_vector_of 1 3 (1 ∷ 1 ∷ [])) 9 (pos 2) in c.reason ≡ Some CapacityFull }
    ensures last { let c = sequence.append_call (bounded_vector_of 1 3 (1 ∷ 1 ∷ [])) 9 (pos 1) in
        (c.reason ≡ None) × (contents c.after ≡ 1 ∷ 1 ∷ 9 ∷ []) }
    ensures capacity { common.capacity_call (bounded_vector_of 1 3 (1 ∷ 1 ∷ [])) ≡ pos 3 }
    ensures more_capacity { (common.reserve_capacity_call (bounded_vector_of 1 3 []) (pos 4)).reason ≡ Some CapacityFull }
    ensures no_memory { (sequence.append_call (bounded_vector_of 1 3 (1 ∷ 1 ∷ [])) 9 (pos 1)).memory ≡ false }
{}

/// A count is in 0 .. 1,000,000.
pub fn counts()
    ensures most { (sequence.append_call (vector_of 1 []) 0 (pos 1000000)).reason ≡ None }
    ensures count { in_range (pos 1000000) ≡ None }
    ensures more { in_range (pos 1000001) ≡ Some LengthRange }
    ensures negative { (sequence.append_call (vector_of 1 []) 0 (negsuc 0)).reason ≡ Some LengthRange }
{}

/// The Capacity is the least 8 * 2 ^ k that isn't below what was needed so far, and nothing lowers it.
#[tactic(auto, unfolding(ac_base::specs::Growth::pow8))]
pub fn capacities()
    ensures first { common.capacity_call (vector_of 1 []) ≡ pos 0 }
    ensures of_one { common.capacity_call (vector_of 1 (4 ∷ [])) ≡ pos 8 }
    ensures of_nine { common.capacity_call (vector_of 1 (1 ∷ 2 ∷ 3 ∷ 4 ∷ 5 ∷ 6 ∷ 7 ∷ 8 ∷ 9 ∷ [])) ≡ pos 16 }
    ensures reserved { common.capacity_call (common.reserve_capacity_call (vector_of 1 (4 ∷ [])) (pos 100)).after ≡ pos 128 }
    ensures less { common.capacity_call (common.reserve_capacity_call (vector_of 1 (4 ∷ [])) (pos 2)).after ≡ pos 8 }
    ensures cleared { common.capacity_call (common.clear_call (vector_of 1 (4 ∷ []))).after ≡ pos 8 }
    ensures nothing_more { common.capacity_call (sequence.append_call (vector_of 1 []) 4 (pos 0)).after ≡ pos 0 }
    ensures moved_from { common.capacity_call (common.move_from_call (vector_of 1 []) (vector_of 2 (4 ∷ []))).after.source ≡ pos 8 }
{}

/// Values move and cursors stay, where a vector is sorted or turned round.
pub fn values_in_order()
    ensures sorted { (vector.sort_call nat_lt (vector_of 1 (3 ∷ 1 ∷ 2 ∷ []))).after.rows ≡ row 1 1 ∷ row 2 2 ∷ row 3 3 ∷ [] }
    ensures backwards { (vector.reverse_elements_call (vector_of 1 (3 ∷ 1 ∷ []))).after.rows ≡ row 1 1 ∷ row 2 3 ∷ [] }
    ensures longer { contents (vector.set_length_call (vector_of 1 (3 ∷ [])) 0 (pos 3)).after ≡ 3 ∷ 0 ∷ 0 ∷ [] }
    ensures shorter { contents (vector.set_length_call (vector_of 1 (3 ∷ 4 ∷ 5 ∷ [])) 0 (pos 1)).after ≡ 3 ∷ [] }
{}

/// Copies of a vector's elements are those at entry, also where it is inserted into itself.
pub fn inserted_into_itself()
    ensures rows { let o = vector_of 1 (3 ∷ 4 ∷ []) in
        (vector.insert_vector_index_call o (pos 2) o).after.rows ≡ row 1 3 ∷ row 3 3 ∷ row 4 4 ∷ row 2 4 ∷ [] }
    ensures position { let o = vector_of 1 (3 ∷ 4 ∷ []) in (vector.insert_vector_pos_call o (mark_at 1 2) o).answer ≡ mark_at 1 3 }
    ensures empty_source { (vector.insert_vector_pos_call (vector_of 1 (3 ∷ [])) (mark_at 1 1) (vector_of 2 [])).answer ≡ mark_at 1 1 }
{}

/// Indexes are looked for from one index on, and back from another or from the last.
pub fn indexes_found()
    ensures forwards { (vector.find_index_call nat_eq (vector_of 1 (7 ∷ 8 ∷ 7 ∷ [])) 7 (pos 2)).answer ≡ pos 3 }
    ensures past_the_last { (vector.find_index_call nat_eq (vector_of 1 (7 ∷ 8 ∷ 7 ∷ [])) 7 (pos 9)).answer ≡ pos 0 }
    ensures below_one { (vector.find_index_call nat_eq (vector_of 1 (7 ∷ [])) 7 (pos 0)).reason ≡ Some IndexRange }
    ensures backwards { (vector.reverse_find_index_call nat_eq (vector_of 1 (7 ∷ 8 ∷ 7 ∷ [])) 7 (pos 2)).answer ≡ pos 1 }
    ensures from_the_last { (vector.reverse_find_index_call nat_eq (vector_of 1 (7 ∷ 8 ∷ 7 ∷ [])) 7 (pos 99)).answer ≡ pos 3 }
    ensures absent { (vector.reverse_find_index_call nat_eq (vector_of 1 (7 ∷ 8 ∷ [])) 9 (pos 99)).answer ≡ pos 0 }
{}

/// Indexes run from 1 to the length, and 0 is that of No_Element.
pub fn indexes()
    ensures first { vector.first_index_call (vector_of 1 (7 ∷ 8 ∷ [])) ≡ pos 1 }
    ensures first_of_none { vector.first_index_call (vector_of 1 []) ≡ pos 1 }
    ensures last { vector.last_index_call (vector_of 1 (7 ∷ 8 ∷ [])) ≡ pos 2 }
    ensures last_of_none { vector.last_index_call (vector_of 1 []) ≡ pos 0 }
    ensures of_a_cursor { let c = vector.to_index_call (vector_of 1 (7 ∷ 8 ∷ [])) (mark_at 1 1) in (c.reason ≡ None) × (c.answer ≡ pos 1) }
    ensures of_none { let c = vector.to_index_call (vector_of 1 (7 ∷ 8 ∷ [])) no_mark in (c.reason ≡ None) × (c.answer ≡ pos 0) }
    ensures of_dead { (vector.to_index_call (vector_of 1 (7 ∷ 8 ∷ [])) (mark_at 1 3)).reason ≡ Some DeadCursor }
    ensures cursor_of_zero { vector.to_cursor_call (vector_of 1 (7 ∷ 8 ∷ [])) (pos 0) ≡ no_mark }
    ensures cursor_past_the_last { vector.to_cursor_call (vector_of 1 (7 ∷ 8 ∷ [])) (pos 3) ≡ no_mark }
    ensures cursor_below { vector.to_cursor_call (vector_of 1 (7 ∷ 8 ∷ [])) (negsuc 0) ≡ no_mark }
{}

/// Elements by an index, which is in 1 .. Last.
pub fn elements_by_index()
    ensures element { let c = vector.element_index_call (vector_of 1 (7 ∷ 8 ∷ [])) (pos 2) in (c.reason ≡ None) × (c.answer ≡ Some 8) }
    ensures zero { (vector.element_index_call (vector_of 1 (7 ∷ 8 ∷ [])) (pos 0)).reason ≡ Some IndexRange }
    ensures past_the_last { (vector.element_index_call (vector_of 1 (7 ∷ 8 ∷ [])) (pos 3)).reason ≡ Some IndexRange }
    ensures replaced { let c = vector.replace_index_call (guarded 1 0 (vector_of 1 (7 ∷ 8 ∷ []))) (pos 2) 9 in
        (c.reason ≡ None) × (c.after.rows ≡ row 1 7 ∷ row 2 9 ∷ []) }
    ensures replaced_past_the_last { (vector.replace_index_call (vector_of 1 (7 ∷ 8 ∷ [])) (pos 3) 9).reason ≡ Some IndexRange }
    ensures swapped { let c = vector.swap_index_call (guarded 1 0 (vector_of 1 (7 ∷ 8 ∷ []))) (pos 1) (pos 2) in
        (c.reason ≡ None) × (c.after.rows ≡ row 1 8 ∷ row 2 7 ∷ []) }
    ensures swapped_first_outside { (vector.swap_index_call (vector_of 1 (7 ∷ 8 ∷ [])) (pos 0) (pos 2)).reason ≡ Some IndexRange }
    ensures swapped_second_outside { (vector.swap_index_call (vector_of 1 (7 ∷ 8 ∷ [])) (pos 1) (pos 3)).reason ≡ Some IndexRange }
    ensures inserted { let c = vector.insert_index_call (vector_of 1 (7 ∷ 8 ∷ [])) (pos 3) 9 (pos 2) in
        (c.reason ≡ None) × (c.after.rows ≡ row 1 7 ∷ row 2 8 ∷ row 3 9 ∷ row 4 9 ∷ []) × (c.after.next ≡ 5) }
    ensures inserted_beyond { (vector.insert_index_call (vector_of 1 (7 ∷ 8 ∷ [])) (pos 4) 9 (pos 0)).reason ≡ Some IndexRange }
    ensures inserted_in_a_loop { (vector.insert_index_call (guarded 1 0 (vector_of 1 [])) (pos 9) 9 (pos 0)).reason ≡ Some CursorTampering }
    ensures deleted_in_a_loop { (vector.delete_index_call (guarded 1 0 (vector_of 1 [])) (pos 9) (pos 0)).reason ≡ Some CursorTampering }
    ensures deleted_below_none { (vector.delete_index_call (vector_of 1 (7 ∷ [])) (pos 1) (negsuc 0)).reason ≡ Some LengthRange }
{}

/// Copies of another vector's elements go before an index or a cursor, to the end, or to the front. The source stays.
pub fn vectors_inserted()
    ensures before { let c = vector.insert_vector_call (vector_of 1 (3 ∷ 4 ∷ [])) (mark_at 1 2) (vector_of 2 (8 ∷ 9 ∷ [])) in
        (c.reason ≡ None) × (c.after.rows ≡ row 1 3 ∷ row 3 8 ∷ row 4 9 ∷ row 2 4 ∷ []) × (c.after.next ≡ 5) }
    ensures at_the_end { (vector.insert_vector_call (vector_of 1 (3 ∷ [])) no_mark (vector_of 2 (8 ∷ []))).after.rows
        ≡ row 1 3 ∷ row 2 8 ∷ [] }
    ensures appended { let c = vector.append_vector_call (vector_of 1 (3 ∷ [])) (vector_of 2 (8 ∷ 9 ∷ [])) in
        (c.reason ≡ None) × (c.after.rows ≡ row 1 3 ∷ row 2 8 ∷ row 3 9 ∷ []) × (c.after.next ≡ 4) }
    ensures prepended { let c = vector.prepend_vector_call (vector_of 1 (3 ∷ [])) (vector_of 2 (8 ∷ 9 ∷ [])) in
        (c.reason ≡ None) × (c.after.rows ≡ row 2 8 ∷ row 3 9 ∷ row 1 3 ∷ []) × (c.after.next ≡ 4) }
    ensures with_a_position { let c = vector.insert_vector_pos_call (vector_of 1 (3 ∷ [])) no_mark (vector_of 2 (8 ∷ 9 ∷ [])) in
        (c.reason ≡ None) × (c.after.rows ≡ row 1 3 ∷ row 2 8 ∷ row 3 9 ∷ []) × (c.answer ≡ mark_at 1 2) }
    ensures by_index { let c = vector.insert_vector_index_call (vector_of 1 (3 ∷ [])) (pos 2) (vector_of 2 (8 ∷ [])) in
        (c.reason ≡ None) × (c.after.rows ≡ row 1 3 ∷ row 2 8 ∷ []) }
{}

/// Such a copy is refused for the target's guards alone, then for its cursor or index, then for the room.
pub fn vectors_refused()
    ensures in_a_loop { (vector.insert_vector_call (guarded 1 0 (vector_of 1 [])) (mark_at 1 9) (vector_of 2 [])).reason
        ≡ Some CursorTampering }
    ensures from_a_loop { (vector.insert_vector_call (vector_of 1 []) no_mark (guarded 1 1 (vector_of 2 (8 ∷ [])))).reason ≡ None }
    ensures before_dead { (vector.insert_vector_call (bounded_vector_of 1 0 []) (mark_at 1 9) (vector_of 2 (8 ∷ []))).reason
        ≡ Some DeadCursor }
    ensures full { (vector.insert_vector_call (bounded_vector_of 1 2 (3 ∷ [])) no_mark (vector_of 2 (8 ∷ 9 ∷ []))).reason
        ≡ Some CapacityFull }
    ensures append_full { (vector.append_vector_call (bounded_vector_of 1 2 (3 ∷ [])) (vector_of 2 (8 ∷ 9 ∷ []))).reason
        ≡ Some CapacityFull }
    ensures append_in_a_view { (vector.append_vector_call (guarded 0 1 (vector_of 1 [])) (vector_of 2 [])).reason ≡ Some ElementTampering }
    ensures append_from_a_loop { (vector.append_vector_call (vector_of 1 []) (guarded 1 1 (vector_of 2 (8 ∷ [])))).reason ≡ None }
    ensures prepend_full { (vector.prepend_vector_call (bounded_vector_of 1 2 (3 ∷ [])) (vector_of 2 (8 ∷ 9 ∷ []))).reason
        ≡ Some CapacityFull }
    ensures prepend_in_a_loop { (vector.prepend_vector_call (guarded 1 0 (vector_of 1 [])) (vector_of 2 [])).reason ≡ Some CursorTampering }
    ensures prepend_from_a_loop { (vector.prepend_vector_call (vector_of 1 []) (guarded 1 1 (vector_of 2 (8 ∷ [])))).reason ≡ None }
    ensures position_dead { (vector.insert_vector_pos_call (bounded_vector_of 1 0 []) (mark_at 1 9) (vector_of 2 (8 ∷ []))).reason
        ≡ Some DeadCursor }
    ensures index_beyond { (vector.insert_vector_index_call (bounded_vector_of 1 0 []) (pos 2) (vector_of 2 (8 ∷ []))).reason
        ≡ Some IndexRange }
    ensures index_in_a_loop { (vector.insert_vector_index_call (guarded 1 0 (vector_of 1 [])) (pos 9) (vector_of 2 [])).reason
        ≡ Some CursorTampering }
{}

/// Any loop forbids a sort, and one over cursors lets the values be turned round. A new length needs room and names where it is greater.
#[tactic(auto, unfolding(ac_base::specs::Growth::pow8))]
pub fn lengths_and_orders()
    ensures sorted_in_a_loop { (vector.sort_call nat_lt (guarded 1 0 (vector_of 1 []))).reason ≡ Some CursorTampering }
    ensures reversed_in_a_loop { (vector.reverse_elements_call (guarded 1 0 (vector_of 1 []))).reason ≡ None }
    ensures reversed_in_a_view { (vector.reverse_elements_call (guarded 1 1 (vector_of 1 []))).reason ≡ Some ElementTampering }
    ensures longer { let c = vector.set_length_call (vector_of 1 (3 ∷ [])) 0 (pos 3) in
        (c.reason ≡ None) × (c.after.rows ≡ row 1 3 ∷ row 2 0 ∷ row 3 0 ∷ []) × (c.after.next ≡ 4) }
    ensures shorter { let c = vector.set_length_call (vector_of 1 (3 ∷ 4 ∷ 5 ∷ [])) 0 (pos 1) in
        (c.reason ≡ None) × (c.after.rows ≡ row 1 3 ∷ []) × (c.after.next ≡ 4) }
    ensures too_long { (vector.set_length_call (bounded_vector_of 1 2 []) 0 (pos 3)).reason ≡ Some CapacityFull }
    ensures out_of_range { (vector.set_length_call (bounded_vector_of 1 2 []) 0 (negsuc 0)).reason ≡ Some LengthRange }
    ensures longer_in_a_loop { (vector.set_length_call (guarded 1 0 (vector_of 1 [])) 0 (negsuc 0)).reason ≡ Some CursorTampering }
    ensures shorter_without_names { let o = with_next 18446744073709551615 (vector_of 1 (3 ∷ 4 ∷ [])) in
        (vector.set_length_call o 0 (pos 1)).reason ≡ None }
    ensures back_from_one { (vector.reverse_find_index_call nat_eq (vector_of 1 (7 ∷ 7 ∷ [])) 7 (pos 1)).answer ≡ pos 1 }
    ensures back_below_one { (vector.reverse_find_index_call nat_eq (vector_of 1 (7 ∷ [])) 7 (negsuc 0)).reason ≡ Some IndexRange }
    ensures forwards_from_one { (vector.find_index_call nat_eq (vector_of 1 (7 ∷ 7 ∷ [])) 7 (pos 1)).answer ≡ pos 1 }
{}
