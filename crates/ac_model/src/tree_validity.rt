//! Every effect keeps a valid tree valid: its rows stay an outline.
ghost use Rattle.std.specs.Prelude.{ℕ, ℤ};
ghost use Rattle.ac_model.specs.Rows.{Node};
ghost use Rattle.ac_model.specs.Objects.{Object};
ghost use Rattle.ac_model.specs.Letters.{Mark};
ghost use Rattle.ac_model.specs.Common as common;
ghost use Rattle.ac_model.specs.Outline.{IsValidTree};
ghost use Rattle.ac_model.specs.Trees as tree;
ghost use Rattle.ac_model.specs.Trees.{KeepsTree, KeepsBothTrees};

/// The calls of trees.
pub fn tree_calls<T>()
    ensures clear { (o : Object ℕ (Node T)) → KeepsTree o (common.clear_call o) }
    ensures assign { (target source : Object ℕ (Node T)) → IsValidTree source → KeepsTree target (common.assign_call target source) }
    ensures move_from { (target source : Object ℕ (Node T)) → KeepsBothTrees target source (common.move_from_call target source) }
    ensures replace_element { (o : Object ℕ (Node T)) (c : Mark) (element : T) → KeepsTree o (tree.replace_element_call o c element) }
    ensures write { (o : Object ℕ (Node T)) (c : Mark) (element : T) → KeepsTree o (tree.write_call o c element) }
    ensures swap { (o : Object ℕ (Node T)) (first second : Mark) → KeepsTree o (tree.swap_call o first second) }
    ensures insert_child { (o : Object ℕ (Node T)) (parent before : Mark) (element : T) (count : ℤ) →
        KeepsTree o (tree.insert_child_call o parent before element count) }
    ensures insert_child_pos { (o : Object ℕ (Node T)) (parent before : Mark) (element : T) (count : ℤ) →
        KeepsTree o (tree.insert_child_pos_call o parent before element count) }
    ensures append_child { (o : Object ℕ (Node T)) (parent : Mark) (element : T) (count : ℤ) →
        KeepsTree o (tree.append_child_call o parent element count) }
    ensures prepend_child { (o : Object ℕ (Node T)) (parent : Mark) (element : T) (count : ℤ) →
        KeepsTree o (tree.prepend_child_call o parent element count) }
    ensures delete_leaf { (o : Object ℕ (Node T)) (position : Mark) → KeepsTree o (tree.delete_leaf_call o position) }
    ensures delete_subtree { (o : Object ℕ (Node T)) (position : Mark) → KeepsTree o (tree.delete_subtree_call o position) }
    ensures delete_children { (o : Object ℕ (Node T)) (parent : Mark) → KeepsTree o (tree.delete_children_call o parent) }
    ensures copy_subtree { (target : Object ℕ (Node T)) (parent before : Mark) (source : Object ℕ (Node T)) (top : Mark) →
        IsValidTree source →
        KeepsTree target (tree.copy_subtree_call target parent before source top) }
    ensures splice_subtree_from { (target : Object ℕ (Node T)) (parent before : Mark) (source : Object ℕ (Node T)) (top : Mark) →
        KeepsBothTrees target source (tree.splice_subtree_from_call target parent before source top) }
    ensures splice_children_from { (target : Object ℕ (Node T)) (parent before : Mark) (source : Object ℕ (Node T)) (source_parent : Mark) →
        KeepsBothTrees target source (tree.splice_children_from_call target parent before source source_parent) }
{}

/// The splices within a tree.
pub fn splices_within<T>()
    ensures splice_subtree { (o : Object ℕ (Node T)) (parent before top : Mark) →
        KeepsTree o (tree.splice_subtree_call o parent before top) }
    ensures splice_subtree_from_self { (o : Object ℕ (Node T)) (parent before top : Mark) →
        KeepsTree o (tree.splice_subtree_from_self_call o parent before top) }
    ensures splice_children { (o : Object ℕ (Node T)) (parent before source_parent : Mark) →
        KeepsTree o (tree.splice_children_call o parent before source_parent) }
{}
