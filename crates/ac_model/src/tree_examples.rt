//! Examples of tree calls. A row is (depth, element), in preorder.
ghost use Rattle.std.specs.Prelude.{◌≡◌, ◌∷◌, [], ℕ, nat_eq, pos, negsuc, true, false, None, Some};
ghost use Rattle.ac_base.specs.declared.reason.Reason.TheVariants.{CursorTampering, ElementTampering, NoElement, ForeignCursor, DeadCursor};
ghost use Rattle.ac_base.specs.declared.reason.Reason.TheVariants.{RootNode, RootSource, NotLeaf, NotChild};
ghost use Rattle.ac_base.specs.declared.reason.Reason.TheVariants.{BelowItself, LengthRange, CapacityFull};
ghost use Rattle.ac_base.specs.Rows.{row};
ghost use Rattle.ac_model.specs.Rows.{node};
ghost use Rattle.ac_model.specs.Objects.{contents};
ghost use Rattle.ac_model.specs.Letters.{no_mark, mark_at};
ghost use Rattle.ac_model.specs.Common as common;
ghost use Rattle.ac_model.specs.Trees as tree;
ghost use Rattle.ac_model.specs.Examples.{tree_of, tree_one_two, tree_of_four, tree_of_five, bounded_holding, guarded, with_next};

/// Children are appended below the root and below one another.
pub fn grown()
    ensures count_of_none { tree.node_count_call (tree_of 1 []) ≡ pos 1 }
    ensures root { tree.root_call (tree_of 1 []) ≡ mark_at 1 0 }
    ensures depth_of_root { (tree.depth_call (tree_of 1 []) (mark_at 1 0)).answer ≡ pos 1 }
    ensures empty_is_leaf { (tree.is_leaf_call (tree_of 1 []) (mark_at 1 0)).answer ≡ true }
    ensures appended { let one = (tree.append_child_call (tree_of 1 []) (mark_at 1 0) 1 (pos 1)).after in
        let two = (tree.append_child_call one (mark_at 1 1) 2 (pos 1)).after in
        let three = (tree.append_child_call two (mark_at 1 1) 3 (pos 1)).after in
        (tree.append_child_call three (mark_at 1 0) 4 (pos 1)).after.rows
        ≡ row 1 (node 2 1) ∷ row 2 (node 3 2) ∷ row 3 (node 3 3) ∷ row 4 (node 2 4) ∷ [] }
    ensures prepended { contents (tree.prepend_child_call tree_one_two (mark_at 1 1) 9 (pos 1)).after
        ≡ node 2 1 ∷ node 3 9 ∷ node 3 2 ∷ [] }
{}

/// What a tree refuses, and what a subtree's deletion leaves.
pub fn refused()
    ensures below_itself { (tree.splice_subtree_call tree_of_four (mark_at 1 1) no_mark (mark_at 1 1)).reason ≡ Some BelowItself }
    ensures root { (tree.element_call (tree_of 1 (node 2 1 ∷ [])) (mark_at 1 0)).reason ≡ Some RootNode }
    ensures not_a_leaf { (tree.delete_leaf_call tree_one_two (mark_at 1 1)).reason ≡ Some NotLeaf }
    ensures not_a_child { (tree.insert_child_call tree_one_two (mark_at 1 1) (mark_at 1 0) 9 (pos 1)).reason ≡ Some NotChild }
    ensures depth { (tree.depth_call tree_one_two (mark_at 1 1)).answer ≡ pos 2 }
    ensures deleted { (tree.delete_subtree_call tree_of_four (mark_at 1 1)).after.rows ≡ row 4 (node 2 4) ∷ [] }
    ensures children_deleted { contents (tree.delete_children_call tree_of_four (mark_at 1 1)).after ≡ node 2 1 ∷ node 2 4 ∷ [] }
{}

/// A subtree is copied and moved with all that is below its top, at its new depth.
pub fn moved()
    ensures copied { let o = tree_one_two in
        (tree.copy_subtree_call o (mark_at 1 0) (mark_at 1 1) o (mark_at 1 1)).after.rows
        ≡ row 3 (node 2 1) ∷ row 4 (node 3 2) ∷ row 1 (node 2 1) ∷ row 2 (node 3 2) ∷ [] }
    ensures copied_none { let c = tree.copy_subtree_call (tree_of 1 (node 2 1 ∷ [])) (mark_at 1 0) no_mark (tree_of 2 []) no_mark in
        (c.reason ≡ None) × (c.after.rows ≡ row 1 (node 2 1) ∷ []) × (c.after.next ≡ 2) }
    ensures root_source { let o = tree_of 1 (node 2 1 ∷ []) in
        (tree.copy_subtree_call o (mark_at 1 0) no_mark o (mark_at 1 0)).reason ≡ Some RootSource }
    ensures within { let o = tree_of 1 (node 2 1 ∷ node 3 2 ∷ node 2 4 ∷ []) in
        (tree.splice_subtree_call o (mark_at 1 3) no_mark (mark_at 1 1)).after.rows
        ≡ row 3 (node 2 4) ∷ row 1 (node 3 1) ∷ row 2 (node 4 2) ∷ [] }
    ensures before { let o = tree_of 1 (node 2 1 ∷ node 2 3 ∷ node 3 4 ∷ []) in
        (tree.splice_subtree_call o (mark_at 1 0) (mark_at 1 1) (mark_at 1 2)).after.rows
        ≡ row 2 (node 2 3) ∷ row 3 (node 3 4) ∷ row 1 (node 2 1) ∷ [] }
    ensures before_itself { let o = tree_of 1 (node 2 1 ∷ node 2 3 ∷ []) in
        (tree.splice_subtree_call o (mark_at 1 0) (mark_at 1 1) (mark_at 1 1)).after.rows
        ≡ row 1 (node 2 1) ∷ row 2 (node 2 3) ∷ [] }
    ensures from_another { let o = tree_of 1 (node 2 7 ∷ []) in
        let c = tree.splice_subtree_from_call o (mark_at 1 1) no_mark (tree_of 2 (node 2 1 ∷ node 3 2 ∷ node 2 4 ∷ [])) (mark_at 2 1) in
        (c.after.target.rows ≡ row 1 (node 2 7) ∷ row 2 (node 3 1) ∷ row 3 (node 4 2) ∷ [])
        × (c.after.source.rows ≡ row 3 (node 2 4) ∷ [])
        × (c.answer ≡ mark_at 1 2) }
    ensures children { let o = tree_of 1 (node 2 1 ∷ node 3 2 ∷ node 2 3 ∷ node 3 4 ∷ []) in
        (tree.splice_children_call o (mark_at 1 0) no_mark (mark_at 1 3)).after.rows
        ≡ row 1 (node 2 1) ∷ row 2 (node 3 2) ∷ row 3 (node 2 3) ∷ row 4 (node 2 4) ∷ [] }
    ensures children_of_root { (tree.splice_children_call tree_one_two (mark_at 1 1) no_mark (mark_at 1 0)).reason ≡ Some BelowItself }
    ensures same_parent { let o = tree_of 1 (node 2 1 ∷ node 2 2 ∷ []) in
        contents (tree.splice_children_call o (mark_at 1 0) (mark_at 1 1) (mark_at 1 0)).after
        ≡ node 2 1 ∷ node 2 2 ∷ [] }
{}

/// The ways from a node: up, down and to its siblings, over [1 [2, 3 [5]], 4].
pub fn navigated()
    ensures parent { (tree.parent_call tree_of_five (mark_at 1 4)).answer ≡ mark_at 1 3 }
    ensures parent_of_top { (tree.parent_call (tree_of 1 (node 2 1 ∷ node 2 4 ∷ [])) (mark_at 1 2)).answer ≡ mark_at 1 0 }
    ensures parent_of_root { (tree.parent_call (tree_of 1 (node 2 1 ∷ [])) (mark_at 1 0)).answer ≡ no_mark }
    ensures next { (tree.next_sibling_call tree_of_five (mark_at 1 1)).answer ≡ mark_at 1 5 }
    ensures last_has_no_next { (tree.next_sibling_call tree_of_five (mark_at 1 3)).answer ≡ no_mark }
    ensures previous { (tree.previous_sibling_call tree_of_five (mark_at 1 3)).answer ≡ mark_at 1 2 }
    ensures first_child { (tree.first_child_call tree_of_five (mark_at 1 0)).answer ≡ mark_at 1 1 }
    ensures last_child { (tree.last_child_call tree_of_five (mark_at 1 1)).answer ≡ mark_at 1 3 }
    ensures children { (tree.child_count_call tree_of_five (mark_at 1 1)).answer ≡ pos 2 }
    ensures subtree { (tree.subtree_node_count_call tree_of_five (mark_at 1 1)).answer ≡ pos 4 }
    ensures whole { (tree.subtree_node_count_call tree_one_two (mark_at 1 0)).answer ≡ pos 3 }
    ensures in_subtree { (tree.find_in_subtree_call nat_eq (tree_of 1 (node 2 8 ∷ node 2 1 ∷ node 3 8 ∷ [])) (mark_at 1 2) 8).answer
        ≡ mark_at 1 3 }
    ensures itself { (tree.find_in_subtree_call nat_eq (tree_of 1 (node 2 1 ∷ node 2 8 ∷ node 3 8 ∷ [])) (mark_at 1 2) 8).answer
        ≡ mark_at 1 2 }
    ensures upwards { (tree.ancestor_find_call nat_eq (tree_of 1 (node 2 8 ∷ node 3 8 ∷ node 4 1 ∷ node 2 8 ∷ [])) (mark_at 1 3) 8).answer
        ≡ mark_at 1 2 }
    ensures from_root { (tree.ancestor_find_call nat_eq (tree_of 1 (node 2 8 ∷ [])) (mark_at 1 0) 8).answer ≡ no_mark }
    ensures swapped { (tree.swap_call tree_one_two (mark_at 1 1) (mark_at 1 2)).after.rows ≡ row 1 (node 2 2) ∷ row 2 (node 3 1) ∷ [] }
{}

/// The steps over several cursors: a dead one comes before a root on its left, a root before the call's own
/// conditions, and these before the room.
pub fn in_steps()
    ensures tampering { (tree.splice_subtree_call (guarded 0 1 (tree_of 1 [])) no_mark no_mark no_mark).reason ≡ Some ElementTampering }
    ensures no_element { (tree.swap_call (tree_of 1 (node 2 1 ∷ [])) (mark_at 1 0) no_mark).reason ≡ Some NoElement }
    ensures foreign { (tree.splice_subtree_call (tree_of 1 (node 2 1 ∷ [])) (mark_at 1 9) no_mark (mark_at 2 0)).reason
        ≡ Some ForeignCursor }
    ensures dead { (tree.swap_call (tree_of 1 (node 2 1 ∷ [])) (mark_at 1 0) (mark_at 1 9)).reason ≡ Some DeadCursor }
    ensures root { (tree.splice_subtree_call (tree_of 1 (node 2 1 ∷ [])) (mark_at 1 1) (mark_at 1 1) (mark_at 1 0)).reason ≡ Some RootNode }
    ensures root_source { let o = tree_of 1 (node 2 1 ∷ []) in
        (tree.copy_subtree_call o (mark_at 1 1) (mark_at 1 1) o (mark_at 1 0)).reason ≡ Some RootSource }
    ensures own { (tree.splice_subtree_call tree_one_two (mark_at 1 2) (mark_at 1 1) (mark_at 1 1)).reason ≡ Some NotChild }
    ensures before_count { (tree.insert_child_call (tree_of 1 (node 2 1 ∷ [])) (mark_at 1 1) (mark_at 1 1) 4 (pos 1000001)).reason
        ≡ Some NotChild }
{}

/// Children go before a child or last, with their depth, and the variable is set to the first new one.
pub fn children_inserted()
    ensures before { let c = tree.insert_child_call tree_of_four (mark_at 1 1) (mark_at 1 3) 9 (pos 1) in
        (c.reason ≡ None) × (c.after.next ≡ 6)
        × (c.after.rows ≡ row 1 (node 2 1) ∷ row 2 (node 3 2) ∷ row 5 (node 3 9) ∷ row 3 (node 3 3) ∷ row 4 (node 2 4) ∷ []) }
    ensures last { contents (tree.insert_child_call tree_of_five (mark_at 1 1) no_mark 9 (pos 1)).after
        ≡ node 2 1 ∷ node 3 2 ∷ node 3 3 ∷ node 4 5 ∷ node 3 9 ∷ node 2 4 ∷ [] }
    ensures position { let c = tree.insert_child_pos_call tree_one_two (mark_at 1 1) (mark_at 1 2) 9 (pos 2) in
        (c.reason ≡ None) × (c.answer ≡ mark_at 1 3)
        × (c.after.rows ≡ row 1 (node 2 1) ∷ row 3 (node 3 9) ∷ row 4 (node 3 9) ∷ row 2 (node 3 2) ∷ []) }
    ensures last_position { (tree.insert_child_pos_call tree_one_two (mark_at 1 0) no_mark 9 (pos 1)).answer ≡ mark_at 1 3 }
    ensures no_position { (tree.insert_child_pos_call tree_one_two (mark_at 1 1) (mark_at 1 2) 9 (pos 0)).answer ≡ mark_at 1 2 }
    ensures no_last_position { (tree.insert_child_pos_call tree_one_two (mark_at 1 1) no_mark 9 (pos 0)).answer ≡ no_mark }
    ensures position_not_child { (tree.insert_child_pos_call tree_one_two (mark_at 1 0) (mark_at 1 2) 9 (negsuc 0)).reason ≡ Some NotChild }
    ensures position_of_none { (tree.insert_child_pos_call tree_one_two no_mark (mark_at 1 9) 9 (negsuc 0)).reason ≡ Some NoElement }
    ensures position_in_a_loop { (tree.insert_child_pos_call (guarded 1 0 tree_one_two) no_mark no_mark 9 (pos 1)).reason
        ≡ Some CursorTampering }
    ensures position_out_of_range { (tree.insert_child_pos_call tree_one_two (mark_at 1 0) no_mark 9 (negsuc 0)).reason ≡ Some LengthRange }
    ensures insert_in_a_loop { (tree.insert_child_call (guarded 1 0 tree_one_two) no_mark no_mark 9 (pos 1)).reason ≡ Some CursorTampering }
    ensures append_in_a_loop { (tree.append_child_call (guarded 1 0 tree_one_two) no_mark 9 (pos 1)).reason ≡ Some CursorTampering }
    ensures append_to_none { (tree.append_child_call tree_one_two no_mark 9 (negsuc 0)).reason ≡ Some NoElement }
    ensures prepend_in_a_view { (tree.prepend_child_call (guarded 0 1 tree_one_two) no_mark 9 (pos 1)).reason ≡ Some ElementTampering }
    ensures prepend_to_dead { (tree.prepend_child_call tree_one_two (mark_at 1 9) 9 (negsuc 0)).reason ≡ Some DeadCursor }
    ensures prepended { (tree.prepend_child_call tree_one_two (mark_at 1 0) 9 (pos 2)).after.rows
        ≡ row 3 (node 2 9) ∷ row 4 (node 2 9) ∷ row 1 (node 2 1) ∷ row 2 (node 3 2) ∷ [] }
{}

/// What is asked of a node, of the root, and of No_Element.
pub fn asked()
    ensures root { (tree.is_root_call tree_one_two (mark_at 1 0)).answer ≡ true }
    ensures not_root { let c = tree.is_root_call tree_one_two (mark_at 1 1) in (c.reason ≡ None) × (c.answer ≡ false) }
    ensures none_is_no_root { let c = tree.is_root_call tree_one_two no_mark in (c.reason ≡ None) × (c.answer ≡ false) }
    ensures root_foreign { (tree.is_root_call tree_one_two (mark_at 2 0)).reason ≡ Some ForeignCursor }
    ensures root_dead { (tree.is_root_call tree_one_two (mark_at 1 9)).reason ≡ Some DeadCursor }
    ensures leaf { (tree.is_leaf_call tree_one_two (mark_at 1 2)).answer ≡ true }
    ensures not_leaf { (tree.is_leaf_call tree_one_two (mark_at 1 1)).answer ≡ false }
    ensures none_is_no_leaf { let c = tree.is_leaf_call tree_one_two no_mark in (c.reason ≡ None) × (c.answer ≡ false) }
    ensures depth_of_none { let c = tree.depth_call tree_one_two no_mark in (c.reason ≡ None) × (c.answer ≡ pos 0) }
    ensures count_below_none { let c = tree.subtree_node_count_call tree_one_two no_mark in (c.reason ≡ None) × (c.answer ≡ pos 0) }
    ensures children_of_none { (tree.child_count_call tree_one_two no_mark).reason ≡ Some NoElement }
    ensures children_of_root { (tree.child_count_call tree_of_five (mark_at 1 0)).answer ≡ pos 2 }
    ensures first_child_of_none { (tree.first_child_call tree_one_two no_mark).reason ≡ Some NoElement }
    ensures first_child_of_leaf { let c = tree.first_child_call tree_one_two (mark_at 1 2) in (c.reason ≡ None) × (c.answer ≡ no_mark) }
    ensures last_child_of_leaf { let c = tree.last_child_call tree_one_two (mark_at 1 2) in (c.reason ≡ None) × (c.answer ≡ no_mark) }
    ensures last_child_of_none { (tree.last_child_call tree_one_two no_mark).reason ≡ Some NoElement }
    ensures parent_of_none { let c = tree.parent_call tree_one_two no_mark in (c.reason ≡ None) × (c.answer ≡ no_mark) }
    ensures next_of_root { let c = tree.next_sibling_call tree_one_two (mark_at 1 0) in (c.reason ≡ None) × (c.answer ≡ no_mark) }
    ensures previous_of_none { let c = tree.previous_sibling_call tree_one_two no_mark in (c.reason ≡ None) × (c.answer ≡ no_mark) }
    ensures previous_of_first { (tree.previous_sibling_call tree_of_five (mark_at 1 2)).answer ≡ no_mark }
    ensures nodes { tree.node_count_call tree_of_five ≡ pos 6 }
{}

/// Elements are found in preorder, below a node, or upwards, the nearest first, and never the root.
pub fn found()
    ensures first { tree.find_call nat_eq (tree_of 1 (node 2 7 ∷ node 2 8 ∷ node 2 8 ∷ [])) 8 ≡ mark_at 1 2 }
    ensures not_found { tree.find_call nat_eq tree_one_two 8 ≡ no_mark }
    ensures contained { tree.contains_call nat_eq tree_one_two 2 ≡ true }
    ensures not_contained { tree.contains_call nat_eq tree_one_two 3 ≡ false }
    ensures first_below { (tree.find_in_subtree_call nat_eq (tree_of 1 (node 2 1 ∷ node 3 8 ∷ node 3 8 ∷ [])) (mark_at 1 1) 8).answer
        ≡ mark_at 1 2 }
    ensures below_root { (tree.find_in_subtree_call nat_eq tree_one_two (mark_at 1 0) 2).answer ≡ mark_at 1 2 }
    ensures not_below { (tree.find_in_subtree_call nat_eq tree_of_four (mark_at 1 1) 4).answer ≡ no_mark }
    ensures below_none { (tree.find_in_subtree_call nat_eq tree_one_two no_mark 2).reason ≡ Some NoElement }
    ensures upwards_itself { (tree.ancestor_find_call nat_eq tree_one_two (mark_at 1 2) 2).answer ≡ mark_at 1 2 }
    ensures upwards_beside { (tree.ancestor_find_call nat_eq tree_of_four (mark_at 1 3) 2).answer ≡ no_mark }
    ensures upwards_from_none { (tree.ancestor_find_call nat_eq tree_one_two no_mark 2).reason ≡ Some NoElement }
{}

/// Elements are replaced at their depth, and trees are equal where depths and elements are.
pub fn elements_changed()
    ensures element { let c = tree.element_call tree_one_two (mark_at 1 2) in (c.reason ≡ None) × (c.answer ≡ Some 2) }
    ensures replaced { let c = tree.replace_element_call (guarded 1 0 tree_one_two) (mark_at 1 2) 9 in
        (c.reason ≡ None) × (c.after.rows ≡ row 1 (node 2 1) ∷ row 2 (node 3 9) ∷ []) }
    ensures replaced_root { (tree.replace_element_call tree_one_two (mark_at 1 0) 9).reason ≡ Some RootNode }
    ensures replaced_in_a_view { (tree.replace_element_call (guarded 0 1 tree_one_two) no_mark 9).reason ≡ Some ElementTampering }
    ensures written { let c = tree.write_call (guarded 1 1 tree_one_two) (mark_at 1 2) 9 in
        (c.reason ≡ None) × (c.after.rows ≡ row 1 (node 2 1) ∷ row 2 (node 3 9) ∷ []) }
    ensures written_root { (tree.write_call tree_one_two (mark_at 1 0) 9).reason ≡ Some RootNode }
    ensures swapped_in_a_view { (tree.swap_call (guarded 0 1 tree_one_two) no_mark no_mark).reason ≡ Some ElementTampering }
    ensures swapped_in_a_loop { (tree.swap_call (guarded 1 0 tree_one_two) (mark_at 1 1) (mark_at 1 2)).reason ≡ None }
    ensures equal { tree.equal_call nat_eq tree_one_two (tree_of 2 (node 2 1 ∷ node 3 2 ∷ [])) ≡ true }
    ensures another_depth { tree.equal_call nat_eq tree_one_two (tree_of 2 (node 2 1 ∷ node 2 2 ∷ [])) ≡ false }
    ensures another_element { tree.equal_call nat_eq tree_one_two (tree_of 2 (node 2 1 ∷ node 3 3 ∷ [])) ≡ false }
    ensures longer { tree.equal_call nat_eq tree_one_two tree_of_four ≡ false }
{}

/// A deletion takes a leaf, a subtree or what is below a node, and sets a variable to No_Element.
pub fn deleted()
    ensures leaf { let c = tree.delete_leaf_call tree_of_five (mark_at 1 2) in
        (c.reason ≡ None) × (c.after.rows ≡ row 1 (node 2 1) ∷ row 3 (node 3 3) ∷ row 4 (node 4 5) ∷ row 5 (node 2 4) ∷ [])
        × (c.answer ≡ no_mark) }
    ensures leaf_in_a_loop { (tree.delete_leaf_call (guarded 1 0 tree_one_two) (mark_at 1 0)).reason ≡ Some CursorTampering }
    ensures subtree { let c = tree.delete_subtree_call tree_of_five (mark_at 1 3) in
        (c.reason ≡ None) × (c.after.rows ≡ row 1 (node 2 1) ∷ row 2 (node 3 2) ∷ row 5 (node 2 4) ∷ []) × (c.answer ≡ no_mark) }
    ensures subtree_of_root { (tree.delete_subtree_call tree_one_two (mark_at 1 0)).reason ≡ Some RootNode }
    ensures subtree_in_a_view { (tree.delete_subtree_call (guarded 0 1 tree_one_two) (mark_at 1 0)).reason ≡ Some ElementTampering }
    ensures children_of_root { let c = tree.delete_children_call tree_one_two (mark_at 1 0) in (c.reason ≡ None) × (c.after.rows ≡ []) }
    ensures children_of_none { (tree.delete_children_call tree_one_two no_mark).reason ≡ Some NoElement }
    ensures children_in_a_loop { (tree.delete_children_call (guarded 1 0 tree_one_two) no_mark).reason ≡ Some CursorTampering }
{}

/// A subtree moves within its tree with its names, and the variable keeps its value.
pub fn spliced_from_itself()
    ensures moved { let c = tree.splice_subtree_from_self_call tree_of_five (mark_at 1 0) (mark_at 1 1) (mark_at 1 3) in
        (c.reason ≡ None) × (c.answer ≡ mark_at 1 3) × (c.after.next ≡ 6)
        × (c.after.rows ≡ row 3 (node 2 3) ∷ row 4 (node 3 5) ∷ row 1 (node 2 1) ∷ row 2 (node 3 2) ∷ row 5 (node 2 4) ∷ []) }
    ensures before_itself { (tree.splice_subtree_from_self_call tree_of_five (mark_at 1 1) (mark_at 1 3) (mark_at 1 3)).after
        ≡ tree_of_five }
    ensures before_its_next { (tree.splice_subtree_from_self_call tree_of_five (mark_at 1 1) (mark_at 1 3) (mark_at 1 2)).after
        ≡ tree_of_five }
    ensures not_child { (tree.splice_subtree_from_self_call tree_of_five (mark_at 1 3) (mark_at 1 2) (mark_at 1 1)).reason ≡ Some NotChild }
    ensures below_itself { (tree.splice_subtree_from_self_call tree_of_five (mark_at 1 4) no_mark (mark_at 1 1)).reason ≡ Some BelowItself }
    ensures root { (tree.splice_subtree_from_self_call tree_of_five (mark_at 1 1) (mark_at 1 1) (mark_at 1 0)).reason ≡ Some RootNode }
    ensures in_a_loop { (tree.splice_subtree_from_self_call (guarded 1 0 tree_of_five) no_mark no_mark no_mark).reason
        ≡ Some CursorTampering }
{}

/// A splice from another tree gives new names in preorder, looks at both trees' guards, and at its conditions before the room.
pub fn spliced_from_another()
    ensures children { let o = tree_of 2 (node 2 7 ∷ node 3 8 ∷ []) in
        let c = tree.splice_children_from_call o (mark_at 2 1) (mark_at 2 2) tree_of_five (mark_at 1 1) in
        (c.reason ≡ None)
        × (c.after.target.rows ≡ row 1 (node 2 7) ∷ row 3 (node 3 2) ∷ row 4 (node 3 3) ∷ row 5 (node 4 5) ∷ row 2 (node 3 8) ∷ [])
        × (c.after.target.next ≡ 6) × (c.after.source.rows ≡ row 1 (node 2 1) ∷ row 5 (node 2 4) ∷ []) }
    ensures all { let c = tree.splice_children_from_call (tree_of 2 []) (mark_at 2 0) no_mark tree_one_two (mark_at 1 0) in
        (contents c.after.target ≡ node 2 1 ∷ node 3 2 ∷ []) × (c.after.source.rows ≡ []) }
    ensures children_full { let o = bounded_holding 2 1 [] in
        (tree.splice_children_from_call o (mark_at 2 0) no_mark tree_one_two (mark_at 1 0)).reason
        ≡ Some CapacityFull }
    ensures children_not_child { let o = bounded_holding 2 0 [] in
        (tree.splice_children_from_call o (mark_at 2 0) (mark_at 2 0) tree_one_two (mark_at 1 0)).reason
        ≡ Some NotChild }
    ensures children_of_none { (tree.splice_children_from_call (tree_of 2 []) (mark_at 2 9) no_mark tree_one_two no_mark).reason
        ≡ Some NoElement }
    ensures children_foreign { (tree.splice_children_from_call (tree_of 2 []) (mark_at 2 0) no_mark tree_one_two (mark_at 2 0)).reason
        ≡ Some ForeignCursor }
    ensures children_from_a_loop { (tree.splice_children_from_call (tree_of 2 []) no_mark no_mark (guarded 1 0 tree_one_two) no_mark).reason
        ≡ Some CursorTampering }
    ensures children_target_first { let target = guarded 0 1 (tree_of 2 []) in
        (tree.splice_children_from_call target no_mark no_mark (guarded 1 0 tree_one_two) no_mark).reason ≡ Some ElementTampering }
    ensures subtree_full { (tree.splice_subtree_from_call (bounded_holding 2 1 []) (mark_at 2 0) no_mark tree_one_two (mark_at 1 1)).reason
        ≡ Some CapacityFull }
    ensures subtree_not_child { let o = bounded_holding 2 0 [] in
        (tree.splice_subtree_from_call o (mark_at 2 0) (mark_at 2 0) tree_one_two (mark_at 1 1)).reason
        ≡ Some NotChild }
    ensures subtree_of_root { (tree.splice_subtree_from_call (tree_of 2 []) (mark_at 2 0) (mark_at 2 0) tree_one_two (mark_at 1 0)).reason
        ≡ Some RootNode }
    ensures subtree_from_a_loop { (tree.splice_subtree_from_call (tree_of 2 []) no_mark no_mark (guarded 1 0 tree_one_two) no_mark).reason
        ≡ Some CursorTampering }
{}

/// A copy needs room and names for what it copies, and no guard of the source forbids it.
pub fn copied_in_steps()
    ensures rows { let o = tree_of 2 (node 2 7 ∷ []) in
        let c = tree.copy_subtree_call o (mark_at 2 1) no_mark (guarded 1 1 tree_of_five) (mark_at 1 3) in
        (c.reason ≡ None) × (c.after.rows ≡ row 1 (node 2 7) ∷ row 2 (node 3 3) ∷ row 3 (node 4 5) ∷ []) × (c.after.next ≡ 4) }
    ensures full { (tree.copy_subtree_call (bounded_holding 2 1 []) (mark_at 2 0) no_mark tree_one_two (mark_at 1 1)).reason
        ≡ Some CapacityFull }
    ensures not_child { (tree.copy_subtree_call (bounded_holding 2 0 []) (mark_at 2 0) (mark_at 2 0) tree_one_two (mark_at 1 1)).reason
        ≡ Some NotChild }
    ensures judged_by_source { (tree.copy_subtree_call (tree_of 2 []) (mark_at 2 0) no_mark tree_one_two (mark_at 2 0)).reason
        ≡ Some ForeignCursor }
    ensures in_a_loop { (tree.copy_subtree_call (guarded 1 0 (tree_of 2 [])) no_mark no_mark tree_one_two no_mark).reason
        ≡ Some CursorTampering }
    ensures none_without_names { let o = with_next 18446744073709551615 (tree_of 2 []) in
        (tree.copy_subtree_call o (mark_at 2 0) no_mark tree_one_two no_mark).reason ≡ None }
{}

/// All that is below a node moves below another of the tree, its names kept, and never below itself.
pub fn children_moved()
    ensures moved { let c = tree.splice_children_call tree_of_five (mark_at 1 5) no_mark (mark_at 1 1) in
        (c.reason ≡ None) × (c.after.next ≡ 6)
        × (c.after.rows ≡ row 1 (node 2 1) ∷ row 5 (node 2 4) ∷ row 2 (node 3 2) ∷ row 3 (node 3 3) ∷ row 4 (node 4 5) ∷ []) }
    ensures equal_parents { let c = tree.splice_children_call tree_of_five (mark_at 1 1) no_mark (mark_at 1 1) in
        (c.reason ≡ None) × (c.after ≡ tree_of_five) }
    ensures below_itself { (tree.splice_children_call tree_of_five (mark_at 1 4) no_mark (mark_at 1 1)).reason ≡ Some BelowItself }
    ensures not_child_first { (tree.splice_children_call tree_of_five (mark_at 1 4) (mark_at 1 1) (mark_at 1 1)).reason ≡ Some NotChild }
    ensures of_none { (tree.splice_children_call tree_of_five (mark_at 1 9) no_mark no_mark).reason ≡ Some NoElement }
    ensures in_a_loop { (tree.splice_children_call (guarded 1 0 tree_of_five) no_mark no_mark no_mark).reason ≡ Some CursorTampering }
{}
