//! Examples of the nine steps: each is tried for all objects, the target first, or for all cursors from left to right,
//! before the next one begins.
ghost use Rattle.std.specs.Prelude.{◌≡◌, ◌∷◌, [], nat_eq, ℕ, nat_lt, pos, negsuc, None, Some};
ghost use Rattle.ac_base.specs.declared.reason.Reason.TheVariants.{CursorTampering, ElementTampering, NoElement};
ghost use Rattle.ac_base.specs.declared.reason.Reason.TheVariants.{ForeignCursor, DeadCursor, IndexRange};
ghost use Rattle.ac_base.specs.declared.reason.Reason.TheVariants.{LengthRange, CapacityFull, KeyAbsent, RootNode, NamesSpent};
ghost use Rattle.ac_model.specs.Letters.{no_mark, mark_at, stale_mark};
ghost use Rattle.ac_model.specs.Common as common;
ghost use Rattle.ac_model.specs.Sequences as sequence;
ghost use Rattle.ac_model.specs.Lists as list;
ghost use Rattle.ac_model.specs.Vectors as vector;
ghost use Rattle.ac_model.specs.Keyed as keyed;
ghost use Rattle.ac_model.specs.KeyedSets as by_key;
ghost use Rattle.ac_model.specs.Trees as tree;
ghost use Rattle.ac_model.specs.Rows.{node};
ghost use Rattle.ac_model.specs.Examples.{by_number, tree_of, tens, ordered_numbers, ordered_tens, list_of};
ghost use Rattle.ac_model.specs.Examples.{vector_of, bounded_vector_of, guarded, with_next};

/// Tampering comes first: of the target, then of the source, whichever kind each is.
pub fn tampering_first()
    ensures before_cursors { (sequence.swap_call (guarded 0 1 (list_of 1 (4 ∷ []))) no_mark (mark_at 2 1)).reason ≡ Some ElementTampering }
    ensures kinds { (list.swap_links_call (guarded 1 1 (list_of 1 (4 ∷ []))) no_mark no_mark).reason ≡ Some CursorTampering }
    ensures target_first { (list.splice_one_call (guarded 0 1 (list_of 1 [])) no_mark (guarded 1 0 (list_of 2 [])) no_mark).reason
        ≡ Some ElementTampering }
    ensures source_next { (list.splice_one_call (list_of 1 []) (mark_at 9 9) (guarded 1 0 (list_of 2 [])) no_mark).reason
        ≡ Some CursorTampering }
{}

/// No_Element of one cursor comes before a foreign or a dead one on its left.
pub fn no_element_next()
    ensures after_foreign { (sequence.swap_call (list_of 1 (4 ∷ [])) (mark_at 2 1) no_mark).reason ≡ Some NoElement }
    ensures after_dead { (sequence.swap_call (list_of 1 (4 ∷ [])) (mark_at 1 9) no_mark).reason ≡ Some NoElement }
{}

/// A foreign cursor comes before a dead one on its left, and a dead one after both.
pub fn foreign_before_dead()
    ensures foreign { (sequence.swap_call (list_of 1 (4 ∷ [])) (mark_at 1 9) (mark_at 2 1)).reason ≡ Some ForeignCursor }
    ensures foreign_source { (list.splice_one_call (list_of 1 []) (mark_at 1 9) (list_of 2 (4 ∷ [])) (mark_at 1 1)).reason
        ≡ Some ForeignCursor }
    ensures dead { (sequence.swap_call (list_of 1 (4 ∷ [])) (mark_at 1 1) (mark_at 1 9)).reason ≡ Some DeadCursor }
    ensures stale { (sequence.swap_call (list_of 1 (4 ∷ [])) (stale_mark 1) (mark_at 1 1)).reason ≡ Some DeadCursor }
{}

/// The call's own conditions come before its count, a count before a length and a limit, and these before the names.
pub fn conditions_and_room()
    ensures index_before_count { (vector.insert_index_call (vector_of 1 []) (pos 2) 4 (negsuc 0)).reason ≡ Some IndexRange }
    ensures count_before_limit { (sequence.append_call (bounded_vector_of 1 0 []) 4 (negsuc 0)).reason ≡ Some LengthRange }
    ensures limit_before_names { (sequence.append_call (with_next 18446744073709551615 (bounded_vector_of 1 0 [])) 4 (pos 1)).reason
        ≡ Some CapacityFull }
    ensures names { (sequence.append_call (with_next 18446744073709551615 (list_of 1 [])) 4 (pos 1)).reason ≡ Some NamesSpent }
    ensures last_name { (sequence.append_call (with_next 18446744073709551614 (list_of 1 [])) 4 (pos 1)).reason ≡ None }
    ensures no_name { (sequence.append_call (with_next 18446744073709551615 (list_of 1 [])) 4 (pos 0)).reason ≡ None }
{}

/// A call's own conditions come after its cursors, in the order in which they are tried.
pub fn own_conditions()
    ensures same_container { (sequence.merge_self_call (guarded 0 1 (list_of 1 (4 ∷ [])))).reason ≡ Some ElementTampering }
    ensures duplicate { (keyed.replace_element_call ordered_numbers (list_of 1 (4 ∷ [])) (mark_at 1 9) 4).reason ≡ Some DeadCursor }
    ensures key_absent { (by_key.key_replace_call tens by_number (list_of 1 (41 ∷ [])) 5 42).reason ≡ Some KeyAbsent }
    ensures not_leaf { (tree.delete_leaf_call (tree_of 1 (node 2 4 ∷ node 3 5 ∷ [])) (mark_at 1 0)).reason ≡ Some RootNode }
    ensures below_itself { let o = tree_of 1 (node 2 4 ∷ node 3 5 ∷ []) in
        (tree.splice_subtree_call o (mark_at 1 2) (mark_at 1 9) (mark_at 1 1)).reason
        ≡ Some DeadCursor }
    ensures two_indexes { (vector.swap_index_call (guarded 1 1 (vector_of 1 (4 ∷ []))) (pos 1) (pos 2)).reason ≡ Some ElementTampering }
{}
