//! Every effect keeps a valid object valid: each call of vectors and lists, at any valid object, where nothing refuses it.
ghost use Rattle.std.specs.Prelude.{◌≡◌, ◌≤◌, ℕ, ℤ, Bool, None, length};
ghost use Rattle.ac_base.specs.declared.limit.Limit.{Limit};
ghost use Rattle.ac_base.specs.FirstReason.{first_reason};
ghost use Rattle.ac_model.specs.Objects.{Object, IsValid, empty_object, grown};
ghost use Rattle.ac_model.specs.Letters.{Mark, room};
ghost use Rattle.ac_model.specs.Calls.{Keeps, KeepsBoth};
ghost use Rattle.ac_model.specs.Common as common;
ghost use Rattle.ac_model.specs.Sequences as sequence;
ghost use Rattle.ac_model.specs.Lists as list;
ghost use Rattle.ac_model.specs.Vectors as vector;

/// An empty object is valid. A need of nothing more is never refused, and changes nothing.
pub fn first_objects<V>()
    ensures empty { (has_capacity : Bool) (number : ℕ) (limit : Limit) → IsValid {V = V} (empty_object has_capacity number limit) }
    ensures nothing_refused { (o : Object ℕ V) → IsValid o → first_reason (room o (length o.rows) 0) ≡ None }
    ensures nothing_grown { (o : Object ℕ V) → IsValid o → grown o o.rows 0 ≡ o }
{}

/// The calls that all kinds with names have in common.
pub fn common_calls<V>()
    ensures clear { (o : Object ℕ V) → Keeps o (common.clear_call o) }
    ensures assign { (target source : Object ℕ V) → Keeps target (common.assign_call target source) }
    ensures assign_self { (o : Object ℕ V) → Keeps o (common.assign_self_call o) }
    ensures move_from { (target source : Object ℕ V) → KeepsBoth target source (common.move_from_call target source) }
    ensures reserve_capacity { (o : Object ℕ V) (count : ℤ) → Keeps o (common.reserve_capacity_call o count) }
    ensures move_from_self { (o : Object ℕ V) → Keeps o (common.move_from_self_call o) }
{}

/// The calls that vectors and lists have in common.
pub fn sequence_calls<T>()
    ensures replace_element { (o : Object ℕ T) (c : Mark) (element : T) → Keeps o (sequence.replace_element_call o c element) }
    ensures write { (o : Object ℕ T) (c : Mark) (element : T) → Keeps o (sequence.write_call o c element) }
    ensures append { (o : Object ℕ T) (element : T) (count : ℤ) → Keeps o (sequence.append_call o element count) }
    ensures prepend { (o : Object ℕ T) (element : T) (count : ℤ) → Keeps o (sequence.prepend_call o element count) }
    ensures insert { (o : Object ℕ T) (before : Mark) (element : T) (count : ℤ) → Keeps o (sequence.insert_call o before element count) }
    ensures insert_pos { (o : Object ℕ T) (before : Mark) (element : T) (count : ℤ) →
        Keeps o (sequence.insert_pos_call o before element count) }
    ensures delete { (o : Object ℕ T) (position : Mark) (count : ℤ) → Keeps o (sequence.delete_call o position count) }
    ensures delete_first { (o : Object ℕ T) (count : ℤ) → Keeps o (sequence.delete_first_call o count) }
    ensures delete_last { (o : Object ℕ T) (count : ℤ) → Keeps o (sequence.delete_last_call o count) }
    ensures swap { (o : Object ℕ T) (first second : Mark) → Keeps o (sequence.swap_call o first second) }
    ensures merge { (less : T → T → Bool) (target source : Object ℕ T) → KeepsBoth target source (sequence.merge_call less target source) }
    ensures merge_self { (o : Object ℕ T) → Keeps o (sequence.merge_self_call o) }
{}

/// The calls of lists alone.
pub fn list_calls<T>()
    ensures reverse_elements { (o : Object ℕ T) → Keeps o (list.reverse_elements_call o) }
    ensures sort { (less : T → T → Bool) (o : Object ℕ T) → Keeps o (list.sort_call less o) }
    ensures swap_links { (o : Object ℕ T) (first second : Mark) → Keeps o (list.swap_links_call o first second) }
    ensures splice { (target : Object ℕ T) (before : Mark) (source : Object ℕ T) →
        KeepsBoth target source (list.splice_call target before source) }
    ensures splice_self { (o : Object ℕ T) (before : Mark) → Keeps o (list.splice_self_call o before) }
    ensures splice_one { (target : Object ℕ T) (before : Mark) (source : Object ℕ T) (position : Mark) →
        KeepsBoth target source (list.splice_one_call target before source position) }
    ensures splice_within { (o : Object ℕ T) (before position : Mark) → Keeps o (list.splice_within_call o before position) }
    ensures splice_one_self { (o : Object ℕ T) (before position : Mark) → Keeps o (list.splice_one_self_call o before position) }
{}

/// The calls of vectors alone.
pub fn vector_calls<T>()
    ensures reverse_elements { (o : Object ℕ T) → Keeps o (vector.reverse_elements_call o) }
    ensures sort { (less : T → T → Bool) (o : Object ℕ T) → Keeps o (vector.sort_call less o) }
    ensures set_length { (o : Object ℕ T) (blank : T) (count : ℤ) → Keeps o (vector.set_length_call o blank count) }
    ensures replace_index { (o : Object ℕ T) (index : ℤ) (element : T) → Keeps o (vector.replace_index_call o index element) }
    ensures swap_index { (o : Object ℕ T) (first second : ℤ) → Keeps o (vector.swap_index_call o first second) }
    ensures insert_index { (o : Object ℕ T) (index : ℤ) (element : T) (count : ℤ) →
        Keeps o (vector.insert_index_call o index element count) }
    ensures insert_vector_index { (target : Object ℕ T) (index : ℤ) (source : Object ℕ T) →
        Keeps target (vector.insert_vector_index_call target index source) }
    ensures insert_vector { (target : Object ℕ T) (before : Mark) (source : Object ℕ T) →
        Keeps target (vector.insert_vector_call target before source) }
    ensures insert_vector_pos { (target : Object ℕ T) (before : Mark) (source : Object ℕ T) →
        Keeps target (vector.insert_vector_pos_call target before source) }
    ensures append_vector { (target source : Object ℕ T) → Keeps target (vector.append_vector_call target source) }
    ensures prepend_vector { (target source : Object ℕ T) → Keeps target (vector.prepend_vector_call target source) }
    ensures delete_index { (o : Object ℕ T) (index count : ℤ) → Keeps o (vector.delete_index_call o index count) }
{}
