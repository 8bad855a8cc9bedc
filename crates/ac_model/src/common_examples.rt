//! Examples of the calls that all containers with names have.
ghost use Rattle.std.specs.Prelude.{◌≡◌, ◌∷◌, [], ℕ, pos, negsuc, nat_eq, true, false, None, Some};
ghost use Rattle.ac_base.specs.declared.guard.GuardKind.TheVariants as kind;
ghost use Rattle.ac_base.specs.declared.limit.Limit.TheVariants.{Unbounded, Bounded};
ghost use Rattle.ac_base.specs.declared.reason.Reason.TheVariants.{CursorTampering, ElementTampering, LengthRange, NoElement, DeadCursor};
ghost use Rattle.ac_base.specs.declared.reason.Reason.TheVariants.{CapacityFull, NamesSpent};
ghost use Rattle.ac_base.specs.Rows.{row};
ghost use Rattle.ac_model.specs.Letters.{no_mark, mark_at, stale_mark, count_left_out, start_left_out, index_left_out, last_index_left_out};
ghost use Rattle.ac_model.specs.Sequences as sequences;
ghost use Rattle.ac_model.specs.Vectors as vectors;
ghost use Rattle.ac_model.specs.Common as common;
ghost use Rattle.ac_model.specs.Examples.{list_of, vector_of, bounded_vector_of, guarded, with_next};

/// How many elements there are, whether there is one, and whether a cursor designates one here.
pub fn asked()
    ensures length { common.length_call (list_of 1 (4 ∷ 5 ∷ [])) ≡ pos 2 }
    ensures length_of_none { common.length_call (list_of 1 []) ≡ pos 0 }
    ensures empty { common.is_empty_call (list_of 1 []) ≡ true }
    ensures not_empty { common.is_empty_call (list_of 1 (4 ∷ [])) ≡ false }
    ensures has { common.has_element_call (list_of 1 (4 ∷ [])) (mark_at 1 1) ≡ true }
    ensures has_none { common.has_element_call (list_of 1 (4 ∷ [])) no_mark ≡ false }
    ensures has_foreign { common.has_element_call (list_of 1 (4 ∷ [])) (mark_at 2 1) ≡ false }
    ensures has_dead { common.has_element_call (list_of 1 (4 ∷ [])) (mark_at 1 2) ≡ false }
    ensures has_stale { common.has_element_call (list_of 1 (4 ∷ [])) (stale_mark 1) ≡ false }
{}

/// Clear takes all elements, and no name comes back.
pub fn cleared()
    ensures rows { let c = common.clear_call (list_of 1 (4 ∷ 5 ∷ [])) in
        (c.reason ≡ None) × (c.after.rows ≡ []) × (c.after.next ≡ 3) × (c.memory ≡ false) }
    ensures in_a_loop { (common.clear_call (guarded 1 1 (list_of 1 []))).reason ≡ Some CursorTampering }
{}

/// Assign copies the source under new names. Only the target's guards forbid it, and what it held doesn't count.
#[tactic(auto, unfolding(ac_base::specs::Growth::pow8))]
pub fn assigned()
    ensures rows { let c = common.assign_call (list_of 1 (7 ∷ [])) (list_of 2 (4 ∷ 5 ∷ [])) in
        (c.reason ≡ None) × (c.after.rows ≡ row 2 4 ∷ row 3 5 ∷ []) × (c.after.next ≡ 4) × (c.after.number ≡ 1) }
    ensures capacity { common.capacity_call (common.assign_call (vector_of 1 []) (vector_of 2 (4 ∷ []))).after ≡ pos 8 }
    ensures in_a_loop { (common.assign_call (guarded 1 0 (list_of 1 [])) (list_of 2 [])).reason ≡ Some CursorTampering }
    ensures from_a_loop { (common.assign_call (list_of 1 []) (guarded 1 1 (list_of 2 (4 ∷ [])))).reason ≡ None }
    ensures full { (common.assign_call (bounded_vector_of 1 1 []) (bounded_vector_of 2 9 (4 ∷ 5 ∷ []))).reason ≡ Some CapacityFull }
    ensures just_full { (common.assign_call (bounded_vector_of 1 2 (7 ∷ [])) (bounded_vector_of 2 9 (4 ∷ 5 ∷ []))).reason ≡ None }
    ensures names { let o = with_next 18446744073709551614 (list_of 1 []) in
        (common.assign_call o (list_of 2 (4 ∷ 5 ∷ []))).reason ≡ Some NamesSpent }
    ensures itself { let o = list_of 1 (4 ∷ 5 ∷ []) in let c = common.assign_self_call o in
        (c.reason ≡ None) × (c.after ≡ o) × (c.memory ≡ false) }
    ensures itself_in_a_view { (common.assign_self_call (guarded 0 1 (list_of 1 []))).reason ≡ Some ElementTampering }
{}

/// Move takes the elements from the source, where guards forbid it too.
pub fn moved()
    ensures rows { let c = common.move_from_call (list_of 1 (7 ∷ [])) (list_of 2 (4 ∷ 5 ∷ [])) in
        (c.reason ≡ None) × (c.after.target.rows ≡ row 2 4 ∷ row 3 5 ∷ []) × (c.after.target.next ≡ 4)
        × (c.after.source.rows ≡ []) × (c.after.source.next ≡ 3) }
    ensures from_a_loop { (common.move_from_call (list_of 1 []) (guarded 1 0 (list_of 2 []))).reason ≡ Some CursorTampering }
    ensures target_first { (common.move_from_call (guarded 0 1 (list_of 1 [])) (guarded 1 0 (list_of 2 []))).reason
        ≡ Some ElementTampering }
    ensures full { (common.move_from_call (bounded_vector_of 1 1 []) (bounded_vector_of 2 9 (4 ∷ 5 ∷ []))).reason ≡ Some CapacityFull }
    ensures just_full { (common.move_from_call (bounded_vector_of 1 2 (7 ∷ [])) (bounded_vector_of 2 9 (4 ∷ 5 ∷ []))).reason ≡ None }
    ensures itself { let o = list_of 1 (4 ∷ 5 ∷ []) in let c = common.move_from_self_call o in (c.reason ≡ None) × (c.after ≡ o) }
    ensures itself_in_a_loop { (common.move_from_self_call (guarded 1 0 (list_of 1 []))).reason ≡ Some CursorTampering }
{}

/// A copy is a new object: its names run from 1, and a bounded one's limit is what is asked for, or its length.
#[tactic(auto, unfolding(ac_base::specs::Growth::pow8))]
pub fn copied()
    ensures rows { let c = common.copy_call (guarded 1 1 (with_next 9 (list_of 1 (4 ∷ 5 ∷ [])))) 7 0 in
        (c.reason ≡ None) × (c.after ≡ list_of 7 (4 ∷ 5 ∷ [])) }
    ensures names { (common.copy_call (common.assign_call (list_of 1 (9 ∷ [])) (list_of 2 (4 ∷ 5 ∷ []))).after 7 0).after.rows
        ≡ row 1 4 ∷ row 2 5 ∷ [] }
    ensures too_small { (common.copy_call (list_of 1 (4 ∷ 5 ∷ [])) 7 1).reason ≡ Some CapacityFull }
    ensures just_enough { (common.copy_call (list_of 1 (4 ∷ 5 ∷ [])) 7 2).reason ≡ None }
    ensures limit_is_length { let c = (common.copy_call (bounded_vector_of 1 9 (4 ∷ 5 ∷ [])) 7 0).after in
        (c.limit ≡ Bounded 2) × (common.capacity_call c ≡ pos 2) }
    ensures limit_asked_for { let c = (common.copy_call (bounded_vector_of 1 9 (4 ∷ 5 ∷ [])) 7 3).after in
        (c.limit ≡ Bounded 3) × (common.capacity_call c ≡ pos 3) }
    ensures capacity { let c = (common.copy_call (vector_of 1 (4 ∷ 5 ∷ [])) 7 9).after in
        (c.limit ≡ Unbounded) × (common.capacity_call c ≡ pos 16) }
{}

/// Reserve_Capacity refuses a count before a limit, and a list of a loop before both.
pub fn reserved()
    ensures in_a_loop { (common.reserve_capacity_call (guarded 1 0 (vector_of 1 [])) (negsuc 0)).reason ≡ Some CursorTampering }
    ensures count { (common.reserve_capacity_call (bounded_vector_of 1 3 []) (pos 1000001)).reason ≡ Some LengthRange }
    ensures limit { (common.reserve_capacity_call (bounded_vector_of 1 3 []) (pos 3)).reason ≡ None }
    ensures within { (common.reserve_capacity_call (vector_of 1 []) (pos 0)).memory ≡ false }
{}

/// A guard that is held is counted, and one that is released counts no more: a set has cursor guards alone.
pub fn guards_counted()
    ensures released { (common.release_call false kind.Elements (guarded 3 2 (list_of 1 (4 ∷ [])))) ≡ guarded 3 1 (list_of 1 (4 ∷ [])) }
    ensures cursors { (common.release_call false kind.Cursors (guarded 3 2 (list_of 1 (4 ∷ [])))) ≡ guarded 2 2 (list_of 1 (4 ∷ [])) }
    ensures of_a_set { (common.release_call true kind.Elements (guarded 3 0 (list_of 1 (4 ∷ [])))) ≡ guarded 2 0 (list_of 1 (4 ∷ [])) }
    ensures held { (common.hold_call false kind.Elements (guarded 3 2 (list_of 1 (4 ∷ [])))) ≡ guarded 3 3 (list_of 1 (4 ∷ [])) }
    ensures held_of_a_set { (common.hold_call true kind.Elements (guarded 3 0 (list_of 1 (4 ∷ [])))) ≡ guarded 4 0 (list_of 1 (4 ∷ [])) }
{}

/// The head of a view looks at its cursor alone, whatever guards are held.
pub fn viewed()
    ensures element { common.view_reason (guarded 1 1 (list_of 1 (4 ∷ []))) (mark_at 1 1) ≡ None }
    ensures none { common.view_reason (list_of 1 (4 ∷ [])) no_mark ≡ Some NoElement }
    ensures dead { common.view_reason (list_of 1 (4 ∷ [])) (mark_at 1 2) ≡ Some DeadCursor }
{}

/// An argument that is left out is 1 as a count, and No_Element as where a search starts.
pub fn left_out()
    ensures count { (sequences.append_call (list_of 1 (4 ∷ [])) 5 count_left_out).after ≡ list_of 1 (4 ∷ 5 ∷ []) }
    ensures start { (sequences.find_call nat_eq (list_of 1 (4 ∷ 5 ∷ 4 ∷ [])) 4 start_left_out).answer ≡ mark_at 1 1 }
    ensures start_back { (sequences.reverse_find_call nat_eq (list_of 1 (4 ∷ 5 ∷ 4 ∷ [])) 4 start_left_out).answer ≡ mark_at 1 3 }
    ensures index { (vectors.find_index_call nat_eq (vector_of 1 (5 ∷ 4 ∷ 4 ∷ [])) 4 index_left_out).answer ≡ pos 2 }
    ensures last_index { (vectors.reverse_find_index_call nat_eq (vector_of 1 (5 ∷ 4 ∷ 4 ∷ [])) 4 last_index_left_out).answer ≡ pos 3 }
{}
