//! The effect of a call doesn't depend on the counts of guards: they only refuse it.
ghost use Rattle.std.specs.Prelude.{ℕ, ℤ, Bool, Option};
ghost use Rattle.ac_base.specs.declared.reason.Reason.{Reason};
ghost use Rattle.ac_model.specs.Rows.{Entry, Node};
ghost use Rattle.ac_model.specs.Objects.{Object};
ghost use Rattle.ac_model.specs.Letters.{Mark};
ghost use Rattle.ac_model.specs.Common as common;
ghost use Rattle.ac_model.specs.Common.{GuardsApart, GuardsApartOfBoth, GuardsApartFrom};
ghost use Rattle.ac_model.specs.Sequences as sequence;
ghost use Rattle.ac_model.specs.Lists as list;
ghost use Rattle.ac_model.specs.Vectors as vector;
ghost use Rattle.ac_model.specs.Keyed as keyed;
ghost use Rattle.ac_model.specs.Keyed.{Order};
ghost use Rattle.ac_model.specs.Maps as map;
ghost use Rattle.ac_model.specs.Sets as set;
ghost use Rattle.ac_model.specs.KeyedSets as by_key;
ghost use Rattle.ac_model.specs.Trees as tree;

/// The calls that all kinds with names have in common.
pub fn common_calls<V>()
    ensures clear { GuardsApart (λ (o : Object ℕ V). common.clear_call o) }
    ensures assign { GuardsApartFrom (λ (o source : Object ℕ V). common.assign_call o source) }
    ensures assign_self { GuardsApart (λ (o : Object ℕ V). common.assign_self_call o) }
    ensures move_from { GuardsApartOfBoth (λ (o source : Object ℕ V). common.move_from_call o source) }
    ensures move_from_self { GuardsApart (λ (o : Object ℕ V). common.move_from_self_call o) }
    ensures reserve_capacity { (count : ℤ) → GuardsApart (λ (o : Object ℕ V). common.reserve_capacity_call o count) }
{}

/// The calls that vectors and lists have in common.
pub fn sequence_calls<T>()
    ensures replace_element { (c : Mark) (element : T) →
        GuardsApart (λ (o : Object ℕ T). sequence.replace_element_call o c element) }
    ensures write { (c : Mark) (element : T) → GuardsApart (λ (o : Object ℕ T). sequence.write_call o c element) }
    ensures append { (element : T) (count : ℤ) → GuardsApart (λ (o : Object ℕ T). sequence.append_call o element count) }
    ensures prepend { (element : T) (count : ℤ) → GuardsApart (λ (o : Object ℕ T). sequence.prepend_call o element count) }
    ensures insert { (before : Mark) (element : T) (count : ℤ) →
        GuardsApart (λ (o : Object ℕ T). sequence.insert_call o before element count) }
    ensures delete { (position : Mark) (count : ℤ) → GuardsApart (λ (o : Object ℕ T). sequence.delete_call o position count) }
    ensures delete_first { (count : ℤ) → GuardsApart (λ (o : Object ℕ T). sequence.delete_first_call o count) }
    ensures delete_last { (count : ℤ) → GuardsApart (λ (o : Object ℕ T). sequence.delete_last_call o count) }
    ensures swap { (first second : Mark) → GuardsApart (λ (o : Object ℕ T). sequence.swap_call o first second) }
    ensures merge { (less : T → T → Bool) → GuardsApartOfBoth (λ (o source : Object ℕ T). sequence.merge_call less o source) }
    ensures merge_self { GuardsApart (λ (o : Object ℕ T). sequence.merge_self_call o) }
    ensures insert_pos { (before : Mark) (element : T) (count : ℤ) →
        GuardsApart (λ (o : Object ℕ T). sequence.insert_pos_call o before element count) }
{}

/// The calls of lists alone.
pub fn list_calls<T>()
    ensures reverse_elements { GuardsApart (λ (o : Object ℕ T). list.reverse_elements_call o) }
    ensures sort { (less : T → T → Bool) → GuardsApart (λ (o : Object ℕ T). list.sort_call less o) }
    ensures swap_links { (first second : Mark) → GuardsApart (λ (o : Object ℕ T). list.swap_links_call o first second) }
    ensures splice { (before : Mark) → GuardsApartOfBoth (λ (o source : Object ℕ T). list.splice_call o before source) }
    ensures splice_self { (before : Mark) → GuardsApart (λ (o : Object ℕ T). list.splice_self_call o before) }
    ensures splice_one { (before position : Mark) →
        GuardsApartOfBoth (λ (o source : Object ℕ T). list.splice_one_call o before source position) }
    ensures splice_within { (before position : Mark) →
        GuardsApart (λ (o : Object ℕ T). list.splice_within_call o before position) }
    ensures splice_one_self { (before position : Mark) →
        GuardsApart (λ (o : Object ℕ T). list.splice_one_self_call o before position) }
{}

/// The calls of vectors alone.
pub fn vector_calls<T>()
    ensures reverse_elements { GuardsApart (λ (o : Object ℕ T). vector.reverse_elements_call o) }
    ensures sort { (less : T → T → Bool) → GuardsApart (λ (o : Object ℕ T). vector.sort_call less o) }
    ensures set_length { (blank : T) (count : ℤ) → GuardsApart (λ (o : Object ℕ T). vector.set_length_call o blank count) }
    ensures replace_index { (index : ℤ) (element : T) →
        GuardsApart (λ (o : Object ℕ T). vector.replace_index_call o index element) }
    ensures swap_index { (first second : ℤ) → GuardsApart (λ (o : Object ℕ T). vector.swap_index_call o first second) }
    ensures insert_index { (index : ℤ) (element : T) (count : ℤ) →
        GuardsApart (λ (o : Object ℕ T). vector.insert_index_call o index element count) }
    ensures insert_vector_index { (index : ℤ) →
        GuardsApartFrom (λ (o source : Object ℕ T). vector.insert_vector_index_call o index source) }
    ensures insert_vector { (before : Mark) →
        GuardsApartFrom (λ (o source : Object ℕ T). vector.insert_vector_call o before source) }
    ensures append_vector { GuardsApartFrom (λ (o source : Object ℕ T). vector.append_vector_call o source) }
    ensures prepend_vector { GuardsApartFrom (λ (o source : Object ℕ T). vector.prepend_vector_call o source) }
    ensures delete_index { (index count : ℤ) → GuardsApart (λ (o : Object ℕ T). vector.delete_index_call o index count) }
    ensures insert_vector_pos { (before : Mark) →
        GuardsApartFrom (λ (o source : Object ℕ T). vector.insert_vector_pos_call o before source) }
{}

/// The calls that maps and sets have in common.
pub fn keyed_calls<V>()
    ensures insert { (order : Order V) (v : V) → GuardsApart (λ (o : Object ℕ V). keyed.insert_call order o v) }
    ensures insert_pos { (order : Order V) (v : V) → GuardsApart (λ (o : Object ℕ V). keyed.insert_pos_call order o v) }
    ensures include { (order : Order V) (v : V) → GuardsApart (λ (o : Object ℕ V). keyed.include_call order o v) }
    ensures replace { (tampering : Option Reason) (order : Order V) (v : V) →
        GuardsApart (λ (o : Object ℕ V). keyed.replace_call tampering order o v) }
    ensures exclude { (matches : V → Bool) → GuardsApart (λ (o : Object ℕ V). keyed.exclude_call matches o) }
    ensures delete_match { (matches : V → Bool) → GuardsApart (λ (o : Object ℕ V). keyed.delete_match_call matches o) }
    ensures delete { (position : Mark) → GuardsApart (λ (o : Object ℕ V). keyed.delete_call o position) }
    ensures replace_element { (order : Order V) (c : Mark) (v : V) →
        GuardsApart (λ (o : Object ℕ V). keyed.replace_element_call order o c v) }
{}

/// The sets' procedures, without their check.
pub fn set_calls<T>()
    ensures union { (order : Order T) → GuardsApartFrom (λ (o source : Object ℕ T). set.unchecked_union order o source) }
    ensures intersection { (order : Order T) →
        GuardsApartFrom (λ (o source : Object ℕ T). set.unchecked_intersection order o source) }
    ensures difference { (order : Order T) →
        GuardsApartFrom (λ (o source : Object ℕ T). set.unchecked_difference order o source) }
    ensures symmetric_difference { (order : Order T) →
        GuardsApartFrom (λ (o source : Object ℕ T). set.unchecked_symmetric_difference order o source) }
{}

/// The calls of trees.
pub fn tree_calls<T>()
    ensures replace_element { (c : Mark) (element : T) →
        GuardsApart (λ (o : Object ℕ (Node T)). tree.replace_element_call o c element) }
    ensures write { (c : Mark) (element : T) → GuardsApart (λ (o : Object ℕ (Node T)). tree.write_call o c element) }
    ensures swap { (first second : Mark) → GuardsApart (λ (o : Object ℕ (Node T)). tree.swap_call o first second) }
    ensures insert_child { (parent before : Mark) (element : T) (count : ℤ) →
        GuardsApart (λ (o : Object ℕ (Node T)). tree.insert_child_call o parent before element count) }
    ensures append_child { (parent : Mark) (element : T) (count : ℤ) →
        GuardsApart (λ (o : Object ℕ (Node T)). tree.append_child_call o parent element count) }
    ensures prepend_child { (parent : Mark) (element : T) (count : ℤ) →
        GuardsApart (λ (o : Object ℕ (Node T)). tree.prepend_child_call o parent element count) }
    ensures delete_leaf { (position : Mark) → GuardsApart (λ (o : Object ℕ (Node T)). tree.delete_leaf_call o position) }
    ensures delete_subtree { (position : Mark) → GuardsApart (λ (o : Object ℕ (Node T)). tree.delete_subtree_call o position) }
    ensures delete_children { (parent : Mark) → GuardsApart (λ (o : Object ℕ (Node T)). tree.delete_children_call o parent) }
    ensures copy_subtree { (parent before top : Mark) →
        GuardsApartFrom (λ (o source : Object ℕ (Node T)). tree.copy_subtree_call o parent before source top) }
    ensures splice_subtree_from { (parent before top : Mark) →
        GuardsApartOfBoth (λ (o source : Object ℕ (Node T)). tree.splice_subtree_from_call o parent before source top) }
    ensures splice_subtree { (parent before top : Mark) →
        GuardsApart (λ (o : Object ℕ (Node T)). tree.splice_subtree_call o parent before top) }
    ensures splice_subtree_from_self { (parent before top : Mark) →
        GuardsApart (λ (o : Object ℕ (Node T)). tree.splice_subtree_from_self_call o parent before top) }
    ensures splice_children_from { (parent before source_parent : Mark) →
        GuardsApartOfBoth (λ (o source : Object ℕ (Node T)). tree.splice_children_from_call o parent before source source_parent) }
    ensures splice_children { (parent before source_parent : Mark) →
        GuardsApart (λ (o : Object ℕ (Node T)). tree.splice_children_call o parent before source_parent) }
    ensures insert_child_pos { (parent before : Mark) (element : T) (count : ℤ) →
        GuardsApart (λ (o : Object ℕ (Node T)). tree.insert_child_pos_call o parent before element count) }
{}

/// The calls of maps, and of sets by a key, that those of both don't mean.
pub fn map_calls<K, T>()
    ensures replace_element { (c : Mark) (element : T) →
        GuardsApart (λ (o : Object ℕ (Entry K T)). map.replace_element_call o c element) }
    ensures write { (c : Mark) (element : T) → GuardsApart (λ (o : Object ℕ (Entry K T)). map.write_call o c element) }
    ensures key_replace { (key : T → K) (keys : Order K) (k : K) (element : T) →
        GuardsApart (λ (o : Object ℕ T). by_key.key_replace_call key keys o k element) }
{}
