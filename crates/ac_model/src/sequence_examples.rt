//! Examples of the calls that vectors and lists have in common.
ghost use Rattle.std.specs.Prelude.{◌≡◌, ◌∷◌, [], ℕ, nat_lt, nat_eq, pos, negsuc, true, false, None, Some};
ghost use Rattle.ac_base.specs.declared.reason.Reason.TheVariants.{CursorTampering, ElementTampering, NoElement, ForeignCursor};
ghost use Rattle.ac_base.specs.declared.reason.Reason.TheVariants.{DeadCursor, Empty, LengthRange, CapacityFull};
ghost use Rattle.ac_base.specs.Rows.{row};
ghost use Rattle.ac_model.specs.Letters.{no_mark, mark_at};
ghost use Rattle.ac_model.specs.Sequences as sequence;
ghost use Rattle.ac_model.specs.Examples.{list_of, vector_of, bounded_vector_of, guarded};

/// New elements go to the front or before a cursor, No_Element being the end.
pub fn inserted()
    ensures prepended { let c = sequence.prepend_call (list_of 1 (4 ∷ [])) 9 (pos 2) in
        (c.reason ≡ None) × (c.after.rows ≡ row 2 9 ∷ row 3 9 ∷ row 1 4 ∷ []) × (c.after.next ≡ 4) }
    ensures prepended_in_a_loop { (sequence.prepend_call (guarded 1 0 (list_of 1 [])) 9 (negsuc 0)).reason ≡ Some CursorTampering }
    ensures prepended_to_full { (sequence.prepend_call (bounded_vector_of 1 1 (4 ∷ [])) 9 (pos 1)).reason ≡ Some CapacityFull }
    ensures before { let c = sequence.insert_call (list_of 1 (4 ∷ 5 ∷ [])) (mark_at 1 2) 9 (pos 2) in
        (c.reason ≡ None) × (c.after.rows ≡ row 1 4 ∷ row 3 9 ∷ row 4 9 ∷ row 2 5 ∷ []) }
    ensures at_the_end { (sequence.insert_call (list_of 1 (4 ∷ [])) no_mark 9 (pos 1)).after.rows ≡ row 1 4 ∷ row 2 9 ∷ [] }
    ensures before_dead { (sequence.insert_call (list_of 1 (4 ∷ [])) (mark_at 1 2) 9 (negsuc 0)).reason ≡ Some DeadCursor }
{}

/// With a position the variable is set to the first new element, or to the cursor before which none came.
pub fn inserted_with_a_position()
    ensures first_new { let c = sequence.insert_pos_call (list_of 1 (4 ∷ 5 ∷ [])) (mark_at 1 2) 9 (pos 2) in
        (c.reason ≡ None) × (c.after.rows ≡ row 1 4 ∷ row 3 9 ∷ row 4 9 ∷ row 2 5 ∷ []) × (c.answer ≡ mark_at 1 3) }
    ensures none_new { (sequence.insert_pos_call (list_of 1 (4 ∷ 5 ∷ [])) (mark_at 1 2) 9 (pos 0)).answer ≡ mark_at 1 2 }
    ensures at_the_end { (sequence.insert_pos_call (list_of 1 (4 ∷ [])) no_mark 9 (pos 1)).answer ≡ mark_at 1 2 }
    ensures none_at_the_end { (sequence.insert_pos_call (list_of 1 (4 ∷ [])) no_mark 9 (pos 0)).answer ≡ no_mark }
    ensures foreign { (sequence.insert_pos_call (list_of 1 (4 ∷ [])) (mark_at 2 1) 9 (negsuc 0)).reason ≡ Some ForeignCursor }
    ensures in_a_view { (sequence.insert_pos_call (guarded 0 1 (list_of 1 [])) (mark_at 2 1) 9 (pos 1)).reason ≡ Some ElementTampering }
{}

/// Deletions go from a cursor on, or from one end, and take no more than what is there.
pub fn deleted()
    ensures from_a_cursor { let c = sequence.delete_call (list_of 1 (4 ∷ 5 ∷ 6 ∷ 7 ∷ [])) (mark_at 1 2) (pos 2) in
        (c.reason ≡ None) × (c.after.rows ≡ row 1 4 ∷ row 4 7 ∷ []) × (c.after.next ≡ 5) × (c.answer ≡ no_mark) }
    ensures to_the_end { (sequence.delete_call (list_of 1 (4 ∷ 5 ∷ 6 ∷ [])) (mark_at 1 2) (pos 9)).after.rows ≡ row 1 4 ∷ [] }
    ensures none_there { (sequence.delete_call (list_of 1 []) no_mark (negsuc 0)).reason ≡ Some NoElement }
    ensures count { (sequence.delete_call (list_of 1 (4 ∷ [])) (mark_at 1 1) (negsuc 0)).reason ≡ Some LengthRange }
    ensures in_a_loop { (sequence.delete_call (guarded 1 0 (list_of 1 [])) no_mark (pos 1)).reason ≡ Some CursorTampering }
    ensures first { (sequence.delete_first_call (list_of 1 (4 ∷ 5 ∷ 6 ∷ [])) (pos 2)).after.rows ≡ row 3 6 ∷ [] }
    ensures last { (sequence.delete_last_call (list_of 1 (4 ∷ 5 ∷ 6 ∷ [])) (pos 2)).after.rows ≡ row 1 4 ∷ [] }
    ensures all_from_the_first { let c = sequence.delete_first_call (list_of 1 (4 ∷ 5 ∷ [])) (pos 3) in
        (c.reason ≡ None) × (c.after.rows ≡ []) }
    ensures all_from_the_last { let c = sequence.delete_last_call (list_of 1 (4 ∷ 5 ∷ [])) (pos 3) in
        (c.reason ≡ None) × (c.after.rows ≡ []) }
    ensures first_count { (sequence.delete_first_call (list_of 1 []) (pos 1000001)).reason ≡ Some LengthRange }
    ensures last_count { (sequence.delete_last_call (list_of 1 []) (negsuc 0)).reason ≡ Some LengthRange }
    ensures first_in_a_loop { (sequence.delete_first_call (guarded 1 0 (list_of 1 [])) (negsuc 0)).reason ≡ Some CursorTampering }
    ensures last_in_a_view { (sequence.delete_last_call (guarded 0 1 (list_of 1 [])) (negsuc 0)).reason ≡ Some ElementTampering }
{}

/// The ends, and the elements there.
pub fn ends()
    ensures first { sequence.first_call (list_of 1 (4 ∷ 5 ∷ 6 ∷ [])) ≡ mark_at 1 1 }
    ensures last { sequence.last_call (list_of 1 (4 ∷ 5 ∷ 6 ∷ [])) ≡ mark_at 1 3 }
    ensures first_of_none { sequence.first_call (list_of 1 []) ≡ no_mark }
    ensures last_of_none { sequence.last_call (list_of 1 []) ≡ no_mark }
    ensures first_element { let c = sequence.first_element_call (list_of 1 (4 ∷ 5 ∷ [])) in (c.reason ≡ None) × (c.answer ≡ Some 4) }
    ensures last_element { let c = sequence.last_element_call (list_of 1 (4 ∷ 5 ∷ [])) in (c.reason ≡ None) × (c.answer ≡ Some 5) }
    ensures no_last_element { (sequence.last_element_call (list_of 1 [])).reason ≡ Some Empty }
{}

/// A step from an element goes to the one beside it, and looks at its cursor.
pub fn steps()
    ensures next { let c = sequence.next_call (list_of 1 (4 ∷ 5 ∷ 6 ∷ [])) (mark_at 1 2) in (c.reason ≡ None) × (c.answer ≡ mark_at 1 3) }
    ensures previous { let c = sequence.previous_call (list_of 1 (4 ∷ 5 ∷ 6 ∷ [])) (mark_at 1 2) in
        (c.reason ≡ None) × (c.answer ≡ mark_at 1 1) }
    ensures next_of_none { let c = sequence.next_call (list_of 1 (4 ∷ [])) no_mark in (c.reason ≡ None) × (c.answer ≡ no_mark) }
    ensures next_of_dead { (sequence.next_call (list_of 1 (4 ∷ [])) (mark_at 1 2)).reason ≡ Some DeadCursor }
    ensures previous_of_foreign { (sequence.previous_call (list_of 1 (4 ∷ [])) (mark_at 2 1)).reason ≡ Some ForeignCursor }
    ensures find_from_dead { (sequence.find_call nat_eq (list_of 1 (4 ∷ [])) 4 (mark_at 1 2)).reason ≡ Some DeadCursor }
    ensures find_back_from_foreign { (sequence.reverse_find_call nat_eq (list_of 1 (4 ∷ [])) 4 (mark_at 2 1)).reason ≡ Some ForeignCursor }
{}

/// What holds of all elements: equal pairwise, one of them equal, none less than the one before.
pub fn compared()
    ensures equal { sequence.equal_call nat_eq (list_of 1 (4 ∷ 5 ∷ [])) (list_of 2 (4 ∷ 5 ∷ [])) ≡ true }
    ensures in_another_order { sequence.equal_call nat_eq (list_of 1 (4 ∷ 5 ∷ [])) (list_of 2 (5 ∷ 4 ∷ [])) ≡ false }
    ensures shorter { sequence.equal_call nat_eq (list_of 1 (4 ∷ [])) (list_of 2 (4 ∷ 5 ∷ [])) ≡ false }
    ensures longer { sequence.equal_call nat_eq (list_of 1 (4 ∷ 5 ∷ [])) (list_of 2 (4 ∷ [])) ≡ false }
    ensures contained { sequence.contains_call nat_eq (list_of 1 (4 ∷ 5 ∷ [])) 5 ≡ true }
    ensures not_contained { sequence.contains_call nat_eq (list_of 1 (4 ∷ 5 ∷ [])) 6 ≡ false }
    ensures sorted { sequence.is_sorted_call nat_lt (list_of 1 (4 ∷ 4 ∷ 5 ∷ [])) ≡ true }
    ensures unsorted_at_the_end { sequence.is_sorted_call nat_lt (list_of 1 (4 ∷ 6 ∷ 5 ∷ [])) ≡ false }
    ensures unsorted_at_the_start { sequence.is_sorted_call nat_lt (list_of 1 (5 ∷ 4 ∷ 6 ∷ [])) ≡ false }
    ensures sorted_none { sequence.is_sorted_call nat_lt (list_of 1 []) ≡ true }
{}

/// Elements are read in any state of guards, and replaced and exchanged outside element guards.
pub fn values_changed()
    ensures element { let c = sequence.element_call (guarded 1 1 (list_of 1 (4 ∷ 5 ∷ []))) (mark_at 1 2) in
        (c.reason ≡ None) × (c.answer ≡ Some 5) }
    ensures replaced { let c = sequence.replace_element_call (guarded 1 0 (list_of 1 (4 ∷ 5 ∷ []))) (mark_at 1 2) 9 in
        (c.reason ≡ None) × (c.after.rows ≡ row 1 4 ∷ row 2 9 ∷ []) }
    ensures replaced_dead { (sequence.replace_element_call (list_of 1 (4 ∷ [])) (mark_at 1 2) 9).reason ≡ Some DeadCursor }
    ensures written_to_none { (sequence.write_call (list_of 1 (4 ∷ [])) no_mark 9).reason ≡ Some NoElement }
    ensures swapped_in_a_loop { let c = sequence.swap_call (guarded 1 0 (list_of 1 (4 ∷ 5 ∷ []))) (mark_at 1 1) (mark_at 1 2) in
        (c.reason ≡ None) × (c.after.rows ≡ row 1 5 ∷ row 2 4 ∷ []) }
{}

/// A merge needs room for both together, and guards of either forbid it.
pub fn merged()
    ensures full { (sequence.merge_call nat_lt (bounded_vector_of 1 2 (1 ∷ [])) (bounded_vector_of 2 2 (2 ∷ 3 ∷ []))).reason
        ≡ Some CapacityFull }
    ensures just_full { (sequence.merge_call nat_lt (bounded_vector_of 1 3 (1 ∷ [])) (bounded_vector_of 2 2 (2 ∷ 3 ∷ []))).reason ≡ None }
    ensures from_a_loop { (sequence.merge_call nat_lt (list_of 1 []) (guarded 1 0 (list_of 2 []))).reason ≡ Some CursorTampering }
    ensures target_first { (sequence.merge_call nat_lt (guarded 0 1 (list_of 1 [])) (guarded 1 0 (list_of 2 []))).reason
        ≡ Some ElementTampering }
    ensures empty_source { let c = sequence.merge_call nat_lt (list_of 1 (3 ∷ 1 ∷ [])) (list_of 2 []) in
        (c.reason ≡ None) × (c.after.target ≡ list_of 1 (3 ∷ 1 ∷ [])) }
    ensures names { let c = sequence.merge_call nat_lt (vector_of 1 (1 ∷ 3 ∷ [])) (vector_of 2 (2 ∷ 4 ∷ [])) in
        (c.after.target.rows ≡ row 1 1 ∷ row 3 2 ∷ row 2 3 ∷ row 4 4 ∷ []) × (c.after.target.next ≡ 5) }
{}
