//! Examples of list calls.
ghost use Rattle.std.specs.Prelude.{◌≡◌, ◌∷◌, [], ℕ, nat_lt, nat_eq, pos, negsuc, true, false, None, Some};
ghost use Rattle.ac_base.specs.declared.reason.Reason.TheVariants.{CursorTampering, ElementTampering, NoElement, ForeignCursor};
ghost use Rattle.ac_base.specs.declared.reason.Reason.TheVariants.{DeadCursor, Empty, CapacityFull, SameContainer};
ghost use Rattle.ac_base.specs.declared.cursor.Cursor.TheVariants.{At};
ghost use Rattle.ac_base.specs.Rows.{row, names};
ghost use Rattle.ac_model.specs.Objects.{Object, contents, plain};
ghost use Rattle.ac_model.specs.Letters.{no_mark, mark_at, stale_mark, mark_of};
ghost use Rattle.ac_model.specs.Common as common;
ghost use Rattle.ac_model.specs.Sequences as sequence;
ghost use Rattle.ac_model.specs.Lists as list;
ghost use Rattle.ac_model.specs.Examples.{list_of, bounded_vector_of, guarded, with_next, name_in_slot};

/// Elements are appended, singly and in copies, and get the names from the next one on.
pub fn appended()
    ensures rows { let one = (sequence.append_call (list_of 1 []) 5 (pos 1)).after in
        (sequence.append_call one 7 (pos 2)).after.rows ≡ row 1 5 ∷ row 2 7 ∷ row 3 7 ∷ [] }
    ensures next { (sequence.append_call (list_of 1 (5 ∷ [])) 7 (pos 2)).after.next ≡ 4 }
{}

/// A loop over the list holds a cursor guard: no call adds an element under it.
pub fn appended_in_a_loop()
    ensures within { (sequence.append_call (guarded 1 0 (list_of 1 (1 ∷ 1 ∷ []))) 1 (pos 1)).reason ≡ Some CursorTampering }
    ensures after { let c = sequence.append_call (guarded 0 0 (list_of 1 (1 ∷ 1 ∷ []))) 1 (pos 1) in
        (c.reason ≡ None) × (contents c.after ≡ 1 ∷ 1 ∷ 1 ∷ []) }
{}

/// A stable view holds an element guard: no call clears the list under it, and a write through a loop's name goes on.
pub fn cleared_in_a_stable_view()
    ensures clear { (common.clear_call (guarded 0 1 (list_of 1 (1 ∷ [])))).reason ≡ Some ElementTampering }
    ensures replace { (sequence.replace_element_call (guarded 0 1 (list_of 1 (1 ∷ []))) (mark_at 1 1) 7).reason ≡ Some ElementTampering }
    ensures write { let c = sequence.write_call (guarded 1 2 (list_of 1 (1 ∷ []))) (mark_at 1 1) 7 in
        (c.reason ≡ None) × (contents c.after ≡ 7 ∷ []) }
{}

/// An element that is deleted leaves its slot to the next one, and its cursors are dead.
pub fn slot_used_again()
    ensures deleted { (sequence.delete_call (list_of 1 (1 ∷ [])) (mark_at 1 1) (pos 1)).after.rows ≡ [] }
    ensures emptied { (sequence.delete_call (list_of 1 (1 ∷ [])) (mark_at 1 1) (pos 1)).answer ≡ no_mark }
    ensures renamed { let gone = (sequence.delete_call (list_of 1 (1 ∷ [])) (mark_at 1 1) (pos 1)).after in
        (sequence.append_call gone 2 (pos 1)).after.rows ≡ row 2 2 ∷ [] }
    ensures dead { let gone = (sequence.delete_call (list_of 1 (1 ∷ [])) (mark_at 1 1) (pos 1)).after in
        let again = (sequence.append_call gone 2 (pos 1)).after in
        ((sequence.element_call again (mark_at 1 1)).reason ≡ Some DeadCursor)
        × (common.has_element_call again (mark_at 1 1) ≡ false)
        × ((sequence.element_call again no_mark).reason ≡ Some NoElement) }
    ensures in_another_slot { let live = name_in_slot 0 2 ∷ [] in
        (mark_of 1 live (At 1 (name_in_slot 0 2)) ≡ mark_at 1 2)
        × (mark_of 1 live (At 1 (name_in_slot 3 2)) ≡ stale_mark 1)
        × ((sequence.element_call (list_of 1 (2 ∷ [])) (stale_mark 1)).reason ≡ Some DeadCursor) }
{}

/// Guards are looked at before cursors: a foreign cursor is refused as such only outside the loop.
pub fn guards_before_cursors()
    ensures element { (sequence.element_call (list_of 1 (1 ∷ [])) (mark_at 2 1)).reason ≡ Some ForeignCursor }
    ensures within { (sequence.insert_call (guarded 1 0 (list_of 1 (1 ∷ []))) (mark_at 2 1) 1 (pos 1)).reason ≡ Some CursorTampering }
    ensures after { (sequence.insert_call (list_of 1 (1 ∷ [])) (mark_at 2 1) 1 (pos 1)).reason ≡ Some ForeignCursor }
{}

/// An element that is spliced into another list gets a new name there.
pub fn spliced_into_another()
    ensures rows { let c = list.splice_one_call (list_of 2 (9 ∷ [])) no_mark (list_of 1 (1 ∷ 2 ∷ [])) (mark_at 1 1) in
        (c.after.target.rows ≡ row 1 9 ∷ row 2 1 ∷ []) × (c.after.source.rows ≡ row 2 2 ∷ []) × (c.answer ≡ mark_at 2 2) }
    ensures dead { let c = list.splice_one_call (list_of 2 (9 ∷ [])) no_mark (list_of 1 (1 ∷ 2 ∷ [])) (mark_at 1 1) in
        (sequence.element_call c.after.source (mark_at 1 1)).reason ≡ Some DeadCursor }
    ensures all { let c = list.splice_call (list_of 2 (9 ∷ [])) (mark_at 2 1) (list_of 1 (1 ∷ 2 ∷ [])) in
        (c.after.target.rows ≡ row 2 1 ∷ row 3 2 ∷ row 1 9 ∷ []) × (c.after.source.rows ≡ []) }
{}

/// A merge takes the smaller of two heads, a tie from the target, and refuses a list of elements with itself.
pub fn merged()
    ensures itself { (sequence.merge_self_call (list_of 1 (3 ∷ 1 ∷ []))).reason ≡ Some SameContainer }
    ensures itself_empty { (sequence.merge_self_call (list_of 1 [])).reason ≡ None }
    ensures unsorted { let c = sequence.merge_call nat_lt (list_of 1 (3 ∷ 1 ∷ [])) (list_of 2 (2 ∷ [])) in
        (contents c.after.target ≡ 2 ∷ 3 ∷ 1 ∷ []) × (c.after.source.rows ≡ []) }
    ensures sorted { let c = sequence.merge_call nat_lt (list_of 1 (3 ∷ 1 ∷ [])) (list_of 2 (2 ∷ [])) in
        contents (list.sort_call nat_lt c.after.target).after ≡ 1 ∷ 2 ∷ 3 ∷ [] }
    ensures tie { (sequence.merge_call nat_lt (list_of 1 (4 ∷ [])) (list_of 2 (4 ∷ []))).after.target.rows ≡ row 1 4 ∷ row 2 4 ∷ [] }
{}

/// Links are exchanged and moved with their names, where values are exchanged under the names.
pub fn moved_with_names()
    ensures values { (sequence.swap_call (list_of 1 (4 ∷ 5 ∷ 6 ∷ [])) (mark_at 1 1) (mark_at 1 3)).after.rows
        ≡ row 1 6 ∷ row 2 5 ∷ row 3 4 ∷ [] }
    ensures links { (list.swap_links_call (list_of 1 (4 ∷ 5 ∷ 6 ∷ [])) (mark_at 1 1) (mark_at 1 3)).after.rows
        ≡ row 3 6 ∷ row 2 5 ∷ row 1 4 ∷ [] }
    ensures within { (list.splice_within_call (list_of 1 (4 ∷ 5 ∷ 6 ∷ [])) (mark_at 1 1) (mark_at 1 3)).after.rows
        ≡ row 3 6 ∷ row 1 4 ∷ row 2 5 ∷ [] }
    ensures to_the_end { (list.splice_within_call (list_of 1 (4 ∷ 5 ∷ 6 ∷ [])) no_mark (mark_at 1 1)).after.rows
        ≡ row 2 5 ∷ row 3 6 ∷ row 1 4 ∷ [] }
    ensures before_itself { (list.splice_within_call (list_of 1 (4 ∷ 5 ∷ [])) (mark_at 1 1) (mark_at 1 1)).after.rows
        ≡ row 1 4 ∷ row 2 5 ∷ [] }
    ensures before_its_next { (list.splice_within_call (list_of 1 (4 ∷ 5 ∷ [])) (mark_at 1 2) (mark_at 1 1)).after.rows
        ≡ row 1 4 ∷ row 2 5 ∷ [] }
    ensures backwards { (list.reverse_elements_call (list_of 1 (4 ∷ 5 ∷ []))).after.rows ≡ row 2 5 ∷ row 1 4 ∷ [] }
{}

/// Searches go from a cursor on, or backwards from it, and moves end at No_Element.
pub fn searched()
    ensures from_the_first { (sequence.find_call nat_eq (list_of 1 (4 ∷ 5 ∷ 4 ∷ [])) 4 no_mark).answer ≡ mark_at 1 1 }
    ensures from_a_cursor { (sequence.find_call nat_eq (list_of 1 (4 ∷ 5 ∷ 4 ∷ [])) 4 (mark_at 1 2)).answer ≡ mark_at 1 3 }
    ensures backwards { (sequence.reverse_find_call nat_eq (list_of 1 (4 ∷ 5 ∷ 4 ∷ [])) 4 no_mark).answer ≡ mark_at 1 3 }
    ensures backwards_from { (sequence.reverse_find_call nat_eq (list_of 1 (4 ∷ 5 ∷ 4 ∷ [])) 4 (mark_at 1 2)).answer ≡ mark_at 1 1 }
    ensures absent { (sequence.find_call nat_eq (list_of 1 (4 ∷ 5 ∷ 4 ∷ [])) 6 no_mark).answer ≡ no_mark }
    ensures past_the_last { (sequence.next_call (list_of 1 (4 ∷ 5 ∷ [])) (mark_at 1 2)).answer ≡ no_mark }
    ensures before_the_first { (sequence.previous_call (list_of 1 (4 ∷ 5 ∷ [])) (mark_at 1 1)).answer ≡ no_mark }
    ensures of_none { (sequence.previous_call (list_of 1 (4 ∷ 5 ∷ [])) no_mark).answer ≡ no_mark }
    ensures first_of_none { (sequence.first_element_call (list_of 1 [])).reason ≡ Some Empty }
{}

/// A splice needs room for what comes and no guard on either list, and one of a list into itself changes nothing.
pub fn splices_refused()
    ensures from_a_loop { (list.splice_call (list_of 1 []) (mark_at 1 9) (guarded 1 0 (list_of 2 []))).reason ≡ Some CursorTampering }
    ensures target_first { (list.splice_call (guarded 0 1 (list_of 1 [])) no_mark (guarded 1 0 (list_of 2 []))).reason
        ≡ Some ElementTampering }
    ensures before_dead { (list.splice_call (bounded_vector_of 1 0 []) (mark_at 1 9) (list_of 2 (4 ∷ []))).reason ≡ Some DeadCursor }
    ensures full { (list.splice_call (bounded_vector_of 1 2 (3 ∷ [])) no_mark (list_of 2 (4 ∷ 5 ∷ []))).reason ≡ Some CapacityFull }
    ensures just_full { (list.splice_call (bounded_vector_of 1 3 (3 ∷ [])) no_mark (list_of 2 (4 ∷ 5 ∷ []))).reason ≡ None }
    ensures one_full { (list.splice_one_call (bounded_vector_of 1 1 (3 ∷ [])) no_mark (list_of 2 (4 ∷ [])) (mark_at 2 1)).reason
        ≡ Some CapacityFull }
    ensures one_of_none { (list.splice_one_call (list_of 1 []) (mark_at 1 9) (list_of 2 (4 ∷ [])) no_mark).reason ≡ Some NoElement }
{}

/// A list that is spliced into itself stays as it is, and needs no room and no name.
pub fn spliced_into_itself()
    ensures same { let o = with_next 18446744073709551615 (bounded_vector_of 1 2 (4 ∷ 5 ∷ [])) in
        let c = list.splice_self_call o (mark_at 1 2) in
        (c.reason ≡ None) × (c.after ≡ o) × (c.memory ≡ false) }
    ensures before_the_end { (list.splice_self_call (list_of 1 (4 ∷ [])) no_mark).reason ≡ None }
    ensures before_dead { (list.splice_self_call (list_of 1 (4 ∷ [])) (mark_at 1 9)).reason ≡ Some DeadCursor }
    ensures in_a_loop { (list.splice_self_call (guarded 1 0 (list_of 1 [])) (mark_at 1 9)).reason ≡ Some CursorTampering }
{}

/// An element that is spliced within its list keeps its name, and the variable its value.
pub fn one_spliced_within()
    ensures moved { let c = list.splice_one_self_call (list_of 1 (4 ∷ 5 ∷ 6 ∷ [])) (mark_at 1 1) (mark_at 1 3) in
        (c.reason ≡ None) × (c.after.rows ≡ row 3 6 ∷ row 1 4 ∷ row 2 5 ∷ []) × (c.answer ≡ mark_at 1 3) × (c.after.next ≡ 4) }
    ensures to_the_end { let c = list.splice_one_self_call (list_of 1 (4 ∷ 5 ∷ [])) no_mark (mark_at 1 1) in
        (c.reason ≡ None) × (c.after.rows ≡ row 2 5 ∷ row 1 4 ∷ []) × (c.answer ≡ mark_at 1 1) }
    ensures before_itself { (list.splice_one_self_call (list_of 1 (4 ∷ 5 ∷ [])) (mark_at 1 1) (mark_at 1 1)).after
        ≡ list_of 1 (4 ∷ 5 ∷ []) }
    ensures none { (list.splice_one_self_call (list_of 1 (4 ∷ [])) (mark_at 1 9) no_mark).reason ≡ Some NoElement }
    ensures before_dead { (list.splice_one_self_call (list_of 1 (4 ∷ [])) (mark_at 1 9) (mark_at 1 1)).reason ≡ Some DeadCursor }
    ensures in_a_view { (list.splice_one_self_call (guarded 0 1 (list_of 1 [])) no_mark no_mark).reason ≡ Some ElementTampering }
    ensures in_a_loop { (list.splice_within_call (guarded 1 0 (list_of 1 [])) no_mark no_mark).reason ≡ Some CursorTampering }
    ensures of_none { (list.splice_within_call (list_of 1 (4 ∷ [])) (mark_at 1 9) no_mark).reason ≡ Some NoElement }
{}

/// Elements go in order with their names, equivalent ones as they stood, and a loop forbids it.
pub fn in_order_with_names()
    ensures sorted { (list.sort_call nat_lt (list_of 1 (3 ∷ 1 ∷ 2 ∷ []))).after.rows ≡ row 2 1 ∷ row 3 2 ∷ row 1 3 ∷ [] }
    ensures stable { (list.sort_call nat_lt (list_of 1 (3 ∷ 1 ∷ 3 ∷ []))).after.rows ≡ row 2 1 ∷ row 1 3 ∷ row 3 3 ∷ [] }
    ensures sorted_in_a_loop { (list.sort_call nat_lt (guarded 1 0 (list_of 1 []))).reason ≡ Some CursorTampering }
    ensures reversed_in_a_loop { (list.reverse_elements_call (guarded 1 0 (list_of 1 []))).reason ≡ Some CursorTampering }
{}
