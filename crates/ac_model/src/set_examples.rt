//! Examples of set calls. Elements are numbers, and in a keyed set the key is all digits but the last.
ghost use Rattle.std.specs.Prelude.{◌≡◌, ◌∷◌, [], ℕ, nat_lt, nat_eq, pos, true, false, None, Some};
ghost use Rattle.ac_base.specs.declared.reason.Reason.TheVariants.{CursorTampering, NoElement, DeadCursor, KeyPresent};
ghost use Rattle.ac_base.specs.declared.reason.Reason.TheVariants.{KeyAbsent, KeyChanged, Duplicate, CapacityFull};
ghost use Rattle.ac_base.specs.declared.guard.GuardKind.TheVariants as kind;
ghost use Rattle.ac_base.specs.Rows.{row};
ghost use Rattle.ac_model.specs.Objects.{contents};
ghost use Rattle.ac_model.specs.Letters.{no_mark, mark_at};
ghost use Rattle.ac_model.specs.Common as common;
ghost use Rattle.ac_model.specs.Sequences as sequence;
ghost use Rattle.ac_model.specs.Keyed as keyed;
ghost use Rattle.ac_model.specs.Sets as set;
ghost use Rattle.ac_model.specs.KeyedSets as by_key;
ghost use Rattle.ac_model.specs.Examples.{by_arrived, by_number, list_of, vector_of, bounded_vector_of, guarded, hashed_numbers};
ghost use Rattle.ac_model.specs.Examples.{ordered_numbers, hashed_tens, ordered_tens, tens};

/// An ordered set is ascending: an element is put at its place, and one that is replaced goes to its place under its name.
pub fn ordered()
    ensures inserted { let one = (keyed.insert_call ordered_numbers (list_of 1 []) 20).after in
        (keyed.insert_call ordered_numbers one 10).after.rows ≡ row 2 10 ∷ row 1 20 ∷ [] }
    ensures no_floor { set.floor_call by_number (list_of 1 (10 ∷ 20 ∷ [])) 9 ≡ no_mark }
    ensures ceiling { set.ceiling_call by_number (list_of 1 (10 ∷ 20 ∷ [])) 20 ≡ mark_at 1 2 }
    ensures floor { set.floor_call by_number (list_of 1 (10 ∷ 20 ∷ [])) 19 ≡ mark_at 1 1 }
    ensures floor_there { set.floor_call by_number (list_of 1 (10 ∷ 20 ∷ [])) 20 ≡ mark_at 1 2 }
    ensures ceiling_between { set.ceiling_call by_number (list_of 1 (10 ∷ 20 ∷ [])) 11 ≡ mark_at 1 2 }
    ensures no_ceiling { set.ceiling_call by_number (list_of 1 (10 ∷ 20 ∷ [])) 21 ≡ no_mark }
    ensures duplicate { (keyed.replace_element_call ordered_numbers (list_of 1 (10 ∷ 20 ∷ [])) (mark_at 1 1) 20).reason ≡ Some Duplicate }
    ensures replaced { let c = keyed.replace_element_call ordered_numbers (list_of 1 (10 ∷ 20 ∷ [])) (mark_at 1 1) 30 in
        (c.reason ≡ None) × (c.after.rows ≡ row 2 20 ∷ row 1 30 ∷ []) }
    ensures replaced_by_itself { (keyed.replace_element_call ordered_numbers (list_of 1 (10 ∷ 20 ∷ [])) (mark_at 1 1) 10).reason ≡ None }
{}

/// A copy that keeps the key is written back, and one that doesn't takes the element away, and the end is refused.
pub fn key_updated()
    ensures found { by_key.key_find_call tens by_arrived (list_of 1 (11 ∷ [])) 1 ≡ mark_at 1 1 }
    ensures started { let c = by_key.start_update_key_call (list_of 1 (11 ∷ [])) (mark_at 1 1) in
        (c.reason ≡ None) × (c.answer.copy ≡ Some 11) × ((keyed.insert_call ordered_tens c.after 90).reason ≡ Some CursorTampering) }
    ensures kept { let c = by_key.end_update_key_call tens by_arrived (guarded 1 0 (list_of 1 (11 ∷ []))) (mark_at 1 1) 12 in
        (c.reason ≡ None) × (c.after.rows ≡ row 1 12 ∷ []) × (c.after.cursor_guards ≡ 0) }
    ensures changed { let c = by_key.end_update_key_call tens by_arrived (guarded 1 0 (list_of 1 (12 ∷ []))) (mark_at 1 1) 22 in
        (c.reason ≡ Some KeyChanged) × (c.after.rows ≡ []) × ((sequence.element_call c.after (mark_at 1 1)).reason ≡ Some DeadCursor) }
{}

/// In a hashed keyed set elements with the same key are equivalent, though not equal.
pub fn hashed_by_key()
    ensures present { (keyed.insert_call hashed_tens (vector_of 1 (11 ∷ [])) 17).reason ≡ Some KeyPresent }
    ensures in_a_loop { (by_key.start_update_key_call (guarded 1 0 (vector_of 1 (11 ∷ []))) (mark_at 1 1)).reason ≡ Some CursorTampering }
    ensures contained { set.contains_call hashed_tens (vector_of 1 (11 ∷ [])) 19 ≡ true }
    ensures unequal { set.equal_call nat_eq (vector_of 1 (11 ∷ [])) (vector_of 2 (17 ∷ [])) ≡ false }
    ensures equivalent { set.equivalent_sets_call hashed_tens (vector_of 1 (11 ∷ [])) (vector_of 2 (17 ∷ [])) ≡ true }
    ensures replaced { (by_key.key_replace_call tens by_arrived (vector_of 1 (11 ∷ 25 ∷ [])) 1 35).after.rows
        ≡ row 1 35 ∷ row 2 25 ∷ [] }
    ensures duplicate { (by_key.key_replace_call tens by_arrived (vector_of 1 (11 ∷ 25 ∷ [])) 1 27).reason ≡ Some Duplicate }
    ensures absent { (by_key.key_replace_call tens by_arrived (vector_of 1 (11 ∷ 25 ∷ [])) 7 27).reason ≡ Some KeyAbsent }
{}

/// The target keeps its own elements, and takes those of the source that have no equivalent.
pub fn algebra()
    ensures union { (set.union_call hashed_tens (vector_of 1 (11 ∷ 21 ∷ [])) (vector_of 2 (22 ∷ 32 ∷ []))).after.rows
        ≡ row 1 11 ∷ row 2 21 ∷ row 3 32 ∷ [] }
    ensures symmetric { let o = (set.union_call hashed_tens (vector_of 1 (11 ∷ 21 ∷ [])) (vector_of 2 (22 ∷ 32 ∷ []))).after in
        contents (set.symmetric_difference_call hashed_tens o (vector_of 2 (22 ∷ 32 ∷ []))).after ≡ 11 ∷ [] }
    ensures overlap { set.overlap_call hashed_tens (vector_of 1 (11 ∷ [])) (vector_of 2 (22 ∷ 32 ∷ [])) ≡ false }
    ensures intersection { contents (set.intersection_call hashed_tens (vector_of 1 (11 ∷ 21 ∷ [])) (vector_of 2 (22 ∷ 32 ∷ []))).after
        ≡ 21 ∷ [] }
    ensures difference { contents (set.difference_call hashed_tens (vector_of 1 (11 ∷ 21 ∷ [])) (vector_of 2 (22 ∷ 32 ∷ []))).after
        ≡ 11 ∷ [] }
    ensures subset { set.is_subset_call hashed_tens (vector_of 1 (22 ∷ [])) (vector_of 2 (21 ∷ 32 ∷ [])) ≡ true }
    ensures ascending { (set.union_call ordered_numbers (list_of 1 (10 ∷ 30 ∷ [])) (list_of 2 (20 ∷ 30 ∷ 40 ∷ []))).after.rows
        ≡ row 1 10 ∷ row 3 20 ∷ row 2 30 ∷ row 4 40 ∷ [] }
    ensures need { (set.symmetric_difference_call hashed_numbers (bounded_vector_of 1 2 (1 ∷ 2 ∷ [])) (vector_of 2 (2 ∷ 3 ∷ []))).reason
        ≡ None }
    ensures full { (set.union_call hashed_numbers (bounded_vector_of 1 2 (1 ∷ 2 ∷ [])) (vector_of 2 (2 ∷ 3 ∷ []))).reason
        ≡ Some CapacityFull }
{}

/// A set has cursor guards alone.
pub fn guards_of_a_set()
    ensures held { (common.hold_call true kind.Elements (list_of 1 (4 ∷ []))).cursor_guards ≡ 1 }
    ensures of_a_list { (common.hold_call false kind.Elements (list_of 1 (4 ∷ []))).element_guards ≡ 1 }
{}

/// Elements are looked up, excluded and deleted by equivalence, and guards forbid each change first.
pub fn by_item()
    ensures found { set.find_call hashed_tens (vector_of 1 (11 ∷ 25 ∷ [])) 29 ≡ mark_at 1 2 }
    ensures not_found { set.find_call hashed_tens (vector_of 1 (11 ∷ 25 ∷ [])) 35 ≡ no_mark }
    ensures not_contained { set.contains_call hashed_tens (vector_of 1 (11 ∷ [])) 21 ≡ false }
    ensures excluded { let c = set.exclude_call hashed_tens (vector_of 1 (11 ∷ 25 ∷ 31 ∷ [])) 29 in
        (c.reason ≡ None) × (c.after.rows ≡ row 1 11 ∷ row 3 31 ∷ []) × (c.after.next ≡ 4) }
    ensures excluded_none { let c = set.exclude_call hashed_tens (vector_of 1 (11 ∷ [])) 29 in
        (c.reason ≡ None) × (c.after.rows ≡ row 1 11 ∷ []) }
    ensures exclude_in_a_loop { (set.exclude_call hashed_tens (guarded 1 0 (vector_of 1 [])) 29).reason ≡ Some CursorTampering }
    ensures deleted { let c = set.delete_item_call hashed_tens (vector_of 1 (11 ∷ 25 ∷ 31 ∷ [])) 29 in
        (c.reason ≡ None) × (c.after.rows ≡ row 1 11 ∷ row 3 31 ∷ []) × (c.after.next ≡ 4) }
    ensures deleted_none { (set.delete_item_call hashed_tens (vector_of 1 (11 ∷ [])) 29).reason ≡ Some KeyAbsent }
    ensures delete_in_a_loop { (set.delete_item_call hashed_tens (guarded 1 0 (vector_of 1 [])) 29).reason ≡ Some CursorTampering }
{}

/// An equivalent element is replaced in its place under its name, and a guard of any kind forbids it.
pub fn replaced()
    ensures in_place { let c = set.replace_call hashed_tens (vector_of 1 (11 ∷ 25 ∷ [])) 19 in
        (c.reason ≡ None) × (c.after.rows ≡ row 1 19 ∷ row 2 25 ∷ []) }
    ensures absent { (set.replace_call hashed_tens (vector_of 1 (11 ∷ [])) 25).reason ≡ Some KeyAbsent }
    ensures in_a_loop { (set.replace_call hashed_tens (guarded 1 0 (vector_of 1 [])) 25).reason ≡ Some CursorTampering }
    ensures element_in_a_loop { (keyed.replace_element_call ordered_numbers (guarded 1 0 (list_of 1 [])) no_mark 25).reason
        ≡ Some CursorTampering }
    ensures element_of_none { (keyed.replace_element_call ordered_numbers (list_of 1 (10 ∷ [])) no_mark 10).reason ≡ Some NoElement }
    ensures hashed_element { let c = keyed.replace_element_call hashed_numbers (vector_of 1 (10 ∷ 20 ∷ [])) (mark_at 1 1) 30 in
        (c.reason ≡ None) × (c.after.rows ≡ row 1 30 ∷ row 2 20 ∷ []) × (c.after.next ≡ 3) }
    ensures included { let c = keyed.include_call hashed_tens (vector_of 1 (11 ∷ 25 ∷ [])) 19 in
        (c.reason ≡ None) × (c.after.rows ≡ row 1 19 ∷ row 2 25 ∷ []) × (c.after.next ≡ 3) }
    ensures found { let c = keyed.insert_pos_call hashed_tens (vector_of 1 (11 ∷ 25 ∷ [])) 29 in
        (c.answer.inserted ≡ false) × (c.answer.position ≡ mark_at 1 2) × (c.after ≡ vector_of 1 (11 ∷ 25 ∷ [])) }
    ensures inserted { let c = keyed.insert_pos_call ordered_numbers (list_of 1 (20 ∷ [])) 10 in
        (c.answer.inserted ≡ true) × (c.answer.position ≡ mark_at 1 2) × (c.after.rows ≡ row 2 10 ∷ row 1 20 ∷ []) }
{}

/// A set against one that has more, or less, or as many.
pub fn compared()
    ensures equal { set.equal_call nat_eq (vector_of 1 (4 ∷ 5 ∷ [])) (vector_of 2 (5 ∷ 4 ∷ [])) ≡ true }
    ensures greater_right { set.equal_call nat_eq (vector_of 1 (4 ∷ [])) (vector_of 2 (5 ∷ 4 ∷ [])) ≡ false }
    ensures greater_left { set.equal_call nat_eq (vector_of 1 (4 ∷ 5 ∷ [])) (vector_of 2 (4 ∷ [])) ≡ false }
    ensures one_unequal { set.equal_call nat_eq (vector_of 1 (4 ∷ 5 ∷ [])) (vector_of 2 (4 ∷ 6 ∷ [])) ≡ false }
    ensures subset_in_part { set.is_subset_call hashed_numbers (vector_of 1 (4 ∷ 5 ∷ [])) (vector_of 2 (4 ∷ 6 ∷ [])) ≡ false }
    ensures subset_of_less { set.is_subset_call hashed_numbers (vector_of 1 (4 ∷ 5 ∷ [])) (vector_of 2 (4 ∷ [])) ≡ false }
    ensures none_is_subset { set.is_subset_call hashed_numbers (vector_of 1 []) (vector_of 2 (4 ∷ [])) ≡ true }
    ensures overlap_in_part { set.overlap_call hashed_numbers (vector_of 1 (4 ∷ 5 ∷ [])) (vector_of 2 (5 ∷ 6 ∷ [])) ≡ true }
    ensures none_overlaps { set.overlap_call hashed_numbers (vector_of 1 []) (vector_of 2 (5 ∷ [])) ≡ false }
    ensures equivalent_to_greater { set.equivalent_sets_call hashed_numbers (vector_of 1 (4 ∷ [])) (vector_of 2 (4 ∷ 5 ∷ [])) ≡ false }
    ensures equivalent_to_less { set.equivalent_sets_call hashed_numbers (vector_of 1 (4 ∷ 5 ∷ [])) (vector_of 2 (4 ∷ [])) ≡ false }
    ensures equivalent_in_part { set.equivalent_sets_call hashed_numbers (vector_of 1 (4 ∷ 5 ∷ [])) (vector_of 2 (4 ∷ 6 ∷ [])) ≡ false }
{}

/// The set procedures keep the target's names, and only the target's guards forbid them.
pub fn algebra_in_steps()
    ensures union_names { (set.union_call ordered_numbers (list_of 1 (20 ∷ [])) (list_of 2 (10 ∷ 30 ∷ []))).after.next ≡ 4 }
    ensures intersection { let c = set.intersection_call hashed_tens (vector_of 1 (11 ∷ 21 ∷ 31 ∷ [])) (vector_of 2 (32 ∷ 22 ∷ [])) in
        (c.reason ≡ None) × (c.after.rows ≡ row 2 21 ∷ row 3 31 ∷ []) × (c.after.next ≡ 4) }
    ensures difference { let c = set.difference_call hashed_tens (vector_of 1 (11 ∷ 21 ∷ 31 ∷ [])) (vector_of 2 (32 ∷ 12 ∷ [])) in
        (c.reason ≡ None) × (c.after.rows ≡ row 2 21 ∷ []) × (c.after.next ≡ 4) }
    ensures symmetric { let c = set.symmetric_difference_call ordered_tens (list_of 1 (11 ∷ 21 ∷ [])) (list_of 2 (12 ∷ 32 ∷ 42 ∷ [])) in
        (c.reason ≡ None) × (c.after.rows ≡ row 2 21 ∷ row 3 32 ∷ row 4 42 ∷ []) × (c.after.next ≡ 5) }
    ensures symmetric_full { let o = bounded_vector_of 1 2 (1 ∷ 2 ∷ []) in
        (set.symmetric_difference_call hashed_numbers o (vector_of 2 (2 ∷ 3 ∷ 4 ∷ []))).reason
        ≡ Some CapacityFull }
    ensures union_need { (set.union_call hashed_numbers (bounded_vector_of 1 3 (1 ∷ 2 ∷ [])) (vector_of 2 (2 ∷ 3 ∷ []))).reason ≡ None }
    ensures union_in_a_loop { (set.union_call hashed_numbers (guarded 1 0 (vector_of 1 [])) (vector_of 2 [])).reason
        ≡ Some CursorTampering }
    ensures intersection_in_a_loop { (set.intersection_call hashed_numbers (guarded 1 0 (vector_of 1 [])) (vector_of 2 [])).reason
        ≡ Some CursorTampering }
    ensures difference_in_a_loop { (set.difference_call hashed_numbers (guarded 1 0 (vector_of 1 [])) (vector_of 2 [])).reason
        ≡ Some CursorTampering }
    ensures symmetric_in_a_loop { (set.symmetric_difference_call hashed_numbers (guarded 1 0 (vector_of 1 [])) (vector_of 2 [])).reason
        ≡ Some CursorTampering }
    ensures union_from_a_loop { (set.union_call hashed_numbers (vector_of 1 []) (guarded 1 0 (vector_of 2 (4 ∷ [])))).reason ≡ None }
    ensures intersection_from_a_loop { (set.intersection_call hashed_numbers (vector_of 1 []) (guarded 1 0 (vector_of 2 []))).reason
        ≡ None }
    ensures difference_from_a_loop { (set.difference_call hashed_numbers (vector_of 1 []) (guarded 1 0 (vector_of 2 []))).reason ≡ None }
    ensures symmetric_from_a_loop { (set.symmetric_difference_call hashed_numbers (vector_of 1 []) (guarded 1 0 (vector_of 2 []))).reason
        ≡ None }
{}

/// A set with itself: union and intersection change nothing, the differences leave nothing, and a loop forbids all four.
pub fn algebra_with_itself()
    ensures union { let o = vector_of 1 (4 ∷ 5 ∷ []) in let c = set.union_self_call o in (c.reason ≡ None) × (c.after ≡ o) }
    ensures intersection { let o = vector_of 1 (4 ∷ 5 ∷ []) in let c = set.intersection_self_call o in (c.reason ≡ None) × (c.after ≡ o) }
    ensures difference { let c = set.difference_self_call (vector_of 1 (4 ∷ 5 ∷ [])) in
        (c.reason ≡ None) × (c.after.rows ≡ []) × (c.after.next ≡ 3) }
    ensures symmetric { let c = set.symmetric_difference_self_call (vector_of 1 (4 ∷ 5 ∷ [])) in
        (c.reason ≡ None) × (c.after.rows ≡ []) × (c.after.next ≡ 3) }
    ensures union_in_a_loop { (set.union_self_call (guarded 1 0 (vector_of 1 []))).reason ≡ Some CursorTampering }
    ensures intersection_in_a_loop { (set.intersection_self_call (guarded 1 0 (vector_of 1 []))).reason ≡ Some CursorTampering }
    ensures difference_in_a_loop { (set.difference_self_call (guarded 1 0 (vector_of 1 []))).reason ≡ Some CursorTampering }
    ensures symmetric_in_a_loop { (set.symmetric_difference_self_call (guarded 1 0 (vector_of 1 []))).reason ≡ Some CursorTampering }
{}

/// What maps and sets make of a test of their values: here, which are 5, or greater or less than 5.
pub fn by_a_test()
    ensures found { keyed.find_call (nat_eq 5) (list_of 1 (4 ∷ 5 ∷ [])) ≡ mark_at 1 2 }
    ensures contained { keyed.contains_call (nat_eq 5) (list_of 1 (4 ∷ 6 ∷ [])) ≡ false }
    ensures excluded { (keyed.exclude_call (nat_eq 5) (list_of 1 (4 ∷ 5 ∷ 6 ∷ []))).after.rows ≡ row 1 4 ∷ row 3 6 ∷ [] }
    ensures floor { keyed.floor_call (nat_lt 5) (list_of 1 (4 ∷ 5 ∷ 6 ∷ [])) ≡ mark_at 1 2 }
    ensures ceiling { keyed.ceiling_call (λ v. nat_lt v 5) (list_of 1 (4 ∷ 5 ∷ 6 ∷ [])) ≡ mark_at 1 2 }
    ensures checked_first { (keyed.replace_call (Some NoElement) hashed_numbers (vector_of 1 []) 5).reason ≡ Some NoElement }
{}
